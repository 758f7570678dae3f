ghost use Rattle.std.specs.Prelude.{◌≡◌, ◌≤◌};
ghost use Rattle.blocks.specs.Checks.{weighted_sum, check_of, highest_sum, CheckOfAllOnes};

// The number of a block's bytes that its check is of.
pub const CHECKED_LENGTH: usize = 510;

// The sum of (place + 1) × byte.
#[tactic(auto, using(crate::proofs::Sums::weighted_sum_more, crate::proofs::Sums::product))]
fn weighted_sum(bytes: &[u8; CHECKED_LENGTH]) -> u32
    ensures { result ≡ weighted_sum 0 bytes.now }
{
    let mut sum = 0u32;
    for (place, byte) in bytes.iter().enumerate() {
        sum += (place as u32 + 1) * u32::from(*byte);
    }
    sum
}

// The check of a block's first 510 bytes.
#[tactic(auto, using(crate::proofs::Sums::sum_is_bounded, crate::specs::Checks::check_of_all_ones))]
pub fn check_of(bytes: &[u8; CHECKED_LENGTH]) -> u16
    ensures is { result ≡ check_of bytes.now }
    ensures sum_is_bounded { weighted_sum 0 bytes.now ≤ highest_sum }
    ensures all_ones { CheckOfAllOnes }
{
    (weighted_sum(bytes) % 65521) as u16
}

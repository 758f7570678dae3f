ghost use Rattle.std.specs.Prelude.{◌≡◌, ◌≢◌, ◌+◌, ◌<◌, ◌==◌, length, take, MatchOption, IfOk, OnOk, true, false};
ghost use Rattle.std.specs.List.{list_all};
ghost use Rattle.std.specs.Result.{result_err};
ghost use Rattle.blocks.specs.Blocks.{bytes_of, IsImageBlock};
ghost use Rattle.blocks.specs.OneByte.{NoByteHides};
ghost use Rattle.blocks.specs.Tests.{number_at, has_number, has_version, is_filled, first_fault, IsExpected};

use super::block::{Block, MOST_BLOCKS};
use super::check::{CHECKED_LENGTH, check_of};
use super::fault::BlockFault;
use bodies::numbers::Number;

// Which block is expected.
#[derive(Clone, Copy, PartialEq, Debug)]
pub enum Expected {
    // Block 0, of any count and version.
    First,
    // A later block, of the count and the version that block 0 has.
    Next {
        number: u16,
        count: u16,
        version: u16,
    },
}

impl Expected {
    // Whether it is this number and, past block 0, this count.
    fn has_number(self, number: u16, count: u16) -> bool
        ensures { result ≡ has_number self number count }
    {
        match self {
            Expected::First => number == 0,
            Expected::Next {
                number: n,
                count: c,
                ..
            } => number == n && count == c,
        }
    }

    // Whether it is, past block 0, this version.
    fn has_version(self, version: u16) -> bool
        ensures { result ≡ has_version self version }
    {
        match self {
            Expected::First => true,
            Expected::Next { version: v, .. } => version == v,
        }
    }
}

// The number in the two bytes at a place.
fn number_at(bytes: &[u8], place: usize) -> u16
    requires { place + 1 < length bytes.now }
    ensures { result ≡ number_at bytes.now place }
{
    u16::from_bytes([bytes[place], bytes[place + 1]])
}

// The bytes that the check is of, and the check, of 512 bytes.
fn split_check(bytes: &[u8]) -> Option<(&[u8; CHECKED_LENGTH], u16)>
    ensures { MatchOption result (length bytes.now ≢ 512) (λ p. (length bytes.now ≡ 512) × (p.0.now ≡ take 510 bytes.now) × (p.1 ≡ number_at bytes.now 510)) }
{
    let (checked, behind) = bytes.split_first_chunk()?;
    let [high, low] = behind else {
        return None;
    };
    Some((checked, u16::from_bytes([*high, *low])))
}

fn are_zero(bytes: &[u8]) -> bool
    ensures { result ≡ list_all (λ b. b == 0) bytes.now }
{
    bytes.iter().all(|byte| *byte == 0)
}

// The data, where they are as many as said and filled as they must be.
fn used_data(places: &[u8], used: u16, is_last: bool) -> Option<&[u8]>
    requires { length places.now ≡ 502 }
    ensures { MatchOption result (is_filled places.now used is_last ≡ false) (λ r. (is_filled places.now used is_last ≡ true) × (r.now ≡ take used places.now)) }
{
    let (data, filler) = places.split_at_checked(usize::from(used))?;
    if data.is_empty() || (!is_last && !filler.is_empty()) || !are_zero(filler) {
        return None;
    }
    Some(data)
}

// The block test: what bytes say that are the block expected, or their first fault.
#[tactic(auto, using(std::proofs::lemmas::Bool::Decides::nat_tests))]
pub fn test_block(bytes: &[u8], expected: Expected) -> Result<Block<'_>, BlockFault>
    ensures fault { result_err result ≡ first_fault bytes.now expected }
    ensures says { IfOk result (λ b. bytes_of b ≡ bytes.now) }
    ensures of_image { IfOk result (λ b. IsImageBlock b) }
    ensures expected { IfOk result (λ b. IsExpected expected b) }
    ensures one_byte { OnOk result (NoByteHides bytes.now) }
{
    let (checked, check) = split_check(bytes).ok_or(BlockFault::WrongLength)?;
    if check != check_of(checked) {
        return Err(BlockFault::WrongCheck);
    }
    // By place, as the format has them: the toolchain does not cover a pattern that also takes the rest of an array behind a reference.
    let version = number_at(bytes, 0);
    let number = number_at(bytes, 2);
    let count = number_at(bytes, 4);
    if !expected.has_number(number, count) || number >= count || count > MOST_BLOCKS {
        return Err(BlockFault::WrongNumber);
    }
    if !expected.has_version(version) {
        return Err(BlockFault::WrongVersion);
    }
    let used = number_at(bytes, 6);
    let data = used_data(&bytes[8..510], used, number + 1 == count).ok_or(BlockFault::WrongData)?;
    Ok(Block {
        version,
        number,
        count,
        data,
    })
}

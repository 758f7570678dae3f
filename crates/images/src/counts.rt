ghost use Rattle.std.specs.Prelude.{◌≡◌, ◌+◌, ◌-◌, ◌*◌, ◌≤◌, length, take, MatchOption, ◌<◌, true, false};
ghost use Rattle.images.specs.Contents.{front_of, are_sound, most_bytes, most_held};

use bodies::body::{Body, put};
use bodies::numbers::Number;
use bodies::weight::{HEADER_LENGTH, entry_weight};

// The data begin with so many bytes: three counts and the state's length.
pub const FRONT_LENGTH: usize = 16;

// A state has no more bytes, and held results and bare numbers weigh no more.
pub const MOST_BYTES: usize = 4096;

// How far a unit has come.
#[derive(Clone, Copy, PartialEq, Debug)]
pub struct Counts {
    pub records_run: u32,
    pub results_produced: u32,
    pub results_settled: u32,
}

impl Counts {
    // How many bytes the held results' bodies have, where the counts and a state of this length are within bounds.
    #[tactic(auto, using(crate::proofs::Data::few_held))]
    pub(crate) fn held_length<B: Body>(&self, state_length: usize) -> Option<usize>
        ensures { MatchOption result (are_sound B.Body.size self.now state_length ≡ false) (λ n. (are_sound B.Body.size self.now state_length ≡ true) × (n ≡ (self.now.results_produced - self.now.results_settled) * B.Body.size) × (state_length ≤ most_bytes) × (n ≤ most_held)) }
    {
        let held = self.results_produced.saturating_sub(self.results_settled) as usize;
        let bare = self.results_settled.saturating_sub(self.results_produced) as usize;
        if self.results_produced > self.records_run
            || state_length > MOST_BYTES
            || held * entry_weight::<B>() > MOST_BYTES
            || bare * HEADER_LENGTH > MOST_BYTES
        {
            return None;
        }
        Some(held * B::size())
    }

    // Puts the counts and a state's length over just so many bytes.
    pub(crate) fn put(&self, state_length: u32, out: &mut [u8])
        requires { length out.old ≡ 16 }
        ensures { out.new ≡ front_of self.now state_length }
    {
        // Bytes of just their number are not refused.
        let _ = put(
            &[
                &self.records_run.to_bytes(),
                &self.results_produced.to_bytes(),
                &self.results_settled.to_bytes(),
                &state_length.to_bytes(),
            ],
            out,
        );
    }

    // The counts and the state's length that the first bytes write.
    pub(crate) fn read(from: &[u8]) -> Option<(Counts, u32)>
        ensures { MatchOption result (length from.now < 16) (λ r. take 16 from.now ≡ front_of r.0 r.1) }
    {
        let (records_run, rest) = u32::take(from)?;
        let (results_produced, rest) = u32::take(rest)?;
        let (results_settled, rest) = u32::take(rest)?;
        let (state_length, _) = u32::take(rest)?;
        let counts = Counts {
            records_run,
            results_produced,
            results_settled,
        };
        Some((counts, state_length))
    }
}

ghost use Rattle.std.specs.Prelude.{◌+◌, ◌≤◌};

use super::counts::Counts;

// An image whose blocks were all taken; its state and its held results lie in the memory that they were taken into.
#[derive(Drop)]
pub struct CompleteImage {
    pub(crate) version: u16,
    pub(crate) counts: Counts,
    pub(crate) state_length: usize,
    pub(crate) held_length: usize,
    ghost within: { 16 + state_length + held_length ≤ 7530 },
}

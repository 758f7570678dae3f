ghost use Rattle.std.specs.Prelude.{◌≡◌};
ghost use Rattle.day.specs.declared.unbilled.Unbilled.TheVariants.{Memory};

use std::alloc::AllocError;
use thiserror::Error;

// The longest script that is billed, in bytes.
pub const LONGEST_SCRIPT: usize = 65536;

// Why a day was not billed.
#[derive(Clone, Copy, PartialEq, Debug, Error)]
pub enum Unbilled {
    #[error("the script has over {LONGEST_SCRIPT} bytes; nothing was billed")]
    TooLong,
    #[error("no memory; nothing was billed")]
    Memory,
}

// By hand, as `bill_day` says which error came of a want of memory.
impl From<AllocError> for Unbilled {
    ghost from_gives = { λ _ r. r ≡ Memory };

    fn from(_e: AllocError) -> Unbilled {
        Unbilled::Memory
    }
}

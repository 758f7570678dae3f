ghost use Rattle.std.specs.Prelude.{◌≡◌, ◌≤◌, length, SomeIff, OnOk};
ghost use Rattle.blocks.specs.declared.block.Unwritten.TheVariants.{WrongLength};
ghost use Rattle.blocks.specs.Blocks.{checked_bytes, BlockWrote};
ghost use Rattle.blocks.specs.Tests.{PassesAs};

use super::check::{CHECKED_LENGTH, check_of};
use bodies::body;
use bodies::body::put;
use bodies::numbers::Number;

// A block has no more data bytes.
pub const MOST_DATA: usize = 502;

// An image has no more blocks.
pub const MOST_BLOCKS: u16 = 15;

// What a block says, with the data where they lie.
#[derive(Clone, Copy, PartialEq, Debug)]
pub struct Block<'a> {
    pub version: u16,
    pub number: u16,
    pub count: u16,
    pub data: &'a [u8],
}

// Why a block was not written: the first that is so.
#[derive(Clone, Copy, PartialEq, Debug)]
pub enum Unwritten {
    // It has no data, or over 502 bytes of them.
    WrongData,
    // The lent bytes are not 512.
    WrongLength,
}

impl From<body::WrongLength> for Unwritten {
    ghost from_gives = { λ _ r. r ≡ WrongLength };

    fn from(_e: body::WrongLength) -> Unwritten {
        Unwritten::WrongLength
    }
}

impl Block<'_> {
    // The first 510 bytes; none where there are too many data.
    #[tactic(auto, unfolding(crate::specs::Blocks::checked_bytes))]
    fn checked_bytes(&self) -> Option<[u8; CHECKED_LENGTH]>
        ensures { SomeIff result (length self.now.«data».now ≤ 502) (checked_bytes self.now.version self.now.number self.now.count self.now.«data».now) }
    {
        let zeros = [0u8; MOST_DATA];
        let (_, filler) = zeros.split_at_checked(self.data.len())?;
        let mut checked = [0u8; CHECKED_LENGTH];
        put(
            &[
                &self.version.to_bytes(),
                &self.number.to_bytes(),
                &self.count.to_bytes(),
                &(self.data.len() as u16).to_bytes(),
                self.data,
                filler,
            ],
            &mut checked,
        )
        .ok()?;
        Some(checked)
    }

    // Writes over 512 lent bytes; else they stay.
    #[tactic(auto, using(crate::proofs::Passing::written_passes, crate::proofs::Places::length_checked_bytes), unfolding(crate::specs::Blocks::block_bytes))]
    pub fn write(&self, out: &mut [u8]) -> Result<(), Unwritten>
        ensures wrote { BlockWrote self.now out.old out.new result }
        ensures passes { OnOk result (PassesAs self.now out.new) }
    {
        if self.data.is_empty() {
            return Err(Unwritten::WrongData);
        }
        let checked = self.checked_bytes().ok_or(Unwritten::WrongData)?;
        put(&[&checked, &check_of(&checked).to_bytes()], out)?;
        Ok(())
    }
}

ghost use Rattle.std.specs.Prelude.{◌≡◌};
ghost use Rattle.images.specs.Faults.{image_fault_number};
ghost use Rattle.images.specs.declared.fault.ImageFault.TheVariants.{InBlock};

use blocks::fault::BlockFault;

// Why a block is not taken, or an image not installed: the first that is so.
#[derive(Clone, Copy, PartialEq, Debug)]
pub enum ImageFault {
    // The bytes are not the block that is expected.
    InBlock(BlockFault),
    // With the last block: the lengths disagree, there are more results than records, or the state, the held results or the bare numbers are over 4,096 bytes.
    WrongContents,
    // The operator refuses the state's bytes, or the kind of its results a held one's.
    Unreadable,
    // The memory has under 7,530 bytes.
    ShortMemory,
}

impl From<BlockFault> for ImageFault {
    ghost from_gives = { λ fault r. r ≡ InBlock fault };

    fn from(fault: BlockFault) -> ImageFault {
        ImageFault::InBlock(fault)
    }
}

impl From<ImageFault> for u32 {
    ghost from_gives = { λ fault number. number ≡ image_fault_number fault };

    fn from(fault: ImageFault) -> u32 {
        match fault {
            ImageFault::InBlock(fault) => u32::from(fault),
            ImageFault::WrongContents => 19,
            ImageFault::Unreadable => 20,
            ImageFault::ShortMemory => 21,
        }
    }
}

ghost use Rattle.std.specs.Prelude.{◌≡◌};
ghost use Rattle.blocks.specs.Faults.{fault_number};

// Why bytes are not the block that is expected: the first that is so.
#[derive(Clone, Copy, PartialEq, Debug)]
pub enum BlockFault {
    // They are not 512.
    WrongLength,
    // The check is not that of the bytes before it.
    WrongCheck,
    // The number is not the one expected, or the count is not above it, is over 15 or, past block 0, is not the one expected.
    WrongNumber,
    // Past block 0, the version is not the one expected.
    WrongVersion,
    // The data length is 0, over 502, or under 502 in a block that is not the last, or a byte behind the data is not zero.
    WrongData,
}

impl From<BlockFault> for u32 {
    ghost from_gives = { λ fault number. number ≡ fault_number fault };

    fn from(fault: BlockFault) -> u32 {
        match fault {
            BlockFault::WrongLength => 14,
            BlockFault::WrongCheck => 15,
            BlockFault::WrongNumber => 16,
            BlockFault::WrongVersion => 17,
            BlockFault::WrongData => 18,
        }
    }
}

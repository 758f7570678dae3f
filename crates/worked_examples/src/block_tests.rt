use blocks::block::{Block, Unwritten};
use blocks::block_test::{Expected, test_block};
use blocks::check::check_of;
use blocks::fault::BlockFault;
use std::process::Abort;
use std::test::Fail;

// Block 1 of 3, full, as it is expected.
const SECOND: Block<'static> = Block {
    version: 7,
    number: 1,
    count: 3,
    data: &[9; 502],
};

const SECOND_EXPECTED: Expected = Expected::Next {
    number: 1,
    count: 3,
    version: 7,
};

// Puts the check that the bytes in front of it want.
fn seal(bytes: &mut [u8; 512]) {
    if let Some((checked, _)) = bytes.split_first_chunk() {
        let [high, low] = check_of(checked).to_be_bytes();
        bytes[510] = high;
        bytes[511] = low;
    }
}

// The fault of a written block, if it has one.
fn fault_of(block: Block, expected: Expected) -> Result<Option<BlockFault>, Fail> {
    let mut bytes = [0u8; 512];
    block.write(&mut bytes)?;
    Ok(test_block(&bytes, expected).err())
}

#[test]
fn a_block_is_its_numbers_its_data_and_its_check(rt: HostRuntime) -> Result<(), Fail> {
    let mut bytes = [9u8; 512];
    let block = Block {
        version: 258,
        number: 0,
        count: 1,
        data: &[5, 6],
    };
    block.write(&mut bytes)?;
    assert_eq!(rt; &bytes[0..10], [1, 2, 0, 0, 0, 1, 0, 2, 5, 6].as_slice());
    assert_eq!(rt; &bytes[10..510], [0; 500].as_slice());
    assert_eq!(rt; &bytes[510..512], [0, 132].as_slice());
    let read = test_block(&bytes, Expected::First)?;
    assert_eq!(rt; read, block);
    Ok(())
}

#[test]
fn bytes_of_255_have_the_check_8628(rt: HostRuntime) {
    assert_eq!(rt; check_of(&[255; 510]), 8628);
}

#[test]
fn a_block_without_data_or_of_too_many_is_not_written(rt: HostRuntime) {
    let mut bytes = [9u8; 512];
    let none = Block {
        data: &[],
        ..SECOND
    };
    assert_eq!(rt; none.write(&mut bytes), Err(Unwritten::WrongData));
    let many = Block {
        data: &[1; 503],
        ..SECOND
    };
    assert_eq!(rt; many.write(&mut bytes), Err(Unwritten::WrongData));
    assert_eq!(rt;
        SECOND.write(&mut bytes[0..511]),
        Err(Unwritten::WrongLength)
    );
    assert_eq!(rt; many.write(&mut bytes[0..511]), Err(Unwritten::WrongData));
    assert_eq!(rt; bytes, [9; 512]);
}

#[test]
fn each_fault_is_answered(rt: HostRuntime) -> Result<(), Fail> {
    assert_eq!(rt; fault_of(SECOND, SECOND_EXPECTED)?, None);
    let mut bytes = [0u8; 512];
    SECOND.write(&mut bytes)?;
    assert_eq!(rt;
        test_block(&bytes[0..511], SECOND_EXPECTED).err(),
        Some(BlockFault::WrongLength)
    );
    bytes[8] = 8;
    assert_eq!(rt;
        test_block(&bytes, SECOND_EXPECTED).err(),
        Some(BlockFault::WrongCheck)
    );
    assert_eq!(rt;
        fault_of(SECOND, Expected::First)?,
        Some(BlockFault::WrongNumber)
    );
    let of_two = Block { count: 2, ..SECOND };
    assert_eq!(rt;
        fault_of(of_two, SECOND_EXPECTED)?,
        Some(BlockFault::WrongNumber)
    );
    let other_version = Block {
        version: 8,
        ..SECOND
    };
    assert_eq!(rt;
        fault_of(other_version, SECOND_EXPECTED)?,
        Some(BlockFault::WrongVersion)
    );
    let unfull = Block {
        data: &[9; 501],
        ..SECOND
    };
    assert_eq!(rt;
        fault_of(unfull, SECOND_EXPECTED)?,
        Some(BlockFault::WrongData)
    );
    Ok(())
}

// Sees which fault the only block of an image has, where its data length is said to be so many and the byte behind as many has
// this value.
fn see_fault(
    rt: &impl Abort,
    length: [u8; 2],
    last: u8,
    fault: Option<BlockFault>,
) -> Result<(), Fail> {
    let mut bytes = [0u8; 512];
    let block = Block {
        version: 7,
        number: 0,
        count: 1,
        data: &[9; 501],
    };
    block.write(&mut bytes)?;
    bytes[6] = length[0];
    bytes[7] = length[1];
    bytes[509] = last;
    seal(&mut bytes);
    assert_eq!(rt; test_block(&bytes, Expected::First).err(), fault);
    Ok(())
}

#[test]
fn a_length_or_a_filler_that_cannot_be_is_refused(rt: HostRuntime) -> Result<(), Fail> {
    see_fault(&rt, [1, 245], 0, None)?;
    see_fault(&rt, [1, 245], 1, Some(BlockFault::WrongData))?;
    see_fault(&rt, [1, 246], 1, None)?;
    see_fault(&rt, [1, 247], 1, Some(BlockFault::WrongData))?;
    see_fault(&rt, [0, 0], 0, Some(BlockFault::WrongData))
}

#[test]
fn an_image_has_at_most_fifteen_blocks(rt: HostRuntime) -> Result<(), Fail> {
    for (number, count) in [(0, 0), (0, 1), (0, 15), (0, 16), (14, 15), (15, 15)] {
        let block = Block {
            number,
            count,
            ..SECOND
        };
        let expected = match number {
            0 => Expected::First,
            _ => Expected::Next {
                number,
                count,
                version: 7,
            },
        };
        let fits = number < count && count <= 15;
        let fault = if fits {
            None
        } else {
            Some(BlockFault::WrongNumber)
        };
        assert_eq!(rt; fault_of(block, expected)?, fault);
    }
    Ok(())
}

#[test]
fn the_first_of_several_faults_is_answered(rt: HostRuntime) -> Result<(), Fail> {
    let block = Block {
        version: 8,
        number: 2,
        count: 4,
        data: &[9; 501],
    };
    let next = |number, count, version| Expected::Next {
        number,
        count,
        version,
    };
    assert_eq!(rt;
        fault_of(block, next(1, 3, 7))?,
        Some(BlockFault::WrongNumber)
    );
    assert_eq!(rt;
        fault_of(block, next(2, 3, 7))?,
        Some(BlockFault::WrongNumber)
    );
    assert_eq!(rt;
        fault_of(block, next(2, 4, 7))?,
        Some(BlockFault::WrongVersion)
    );
    assert_eq!(rt;
        fault_of(block, next(2, 4, 8))?,
        Some(BlockFault::WrongData)
    );
    let mut bytes = [0u8; 512];
    block.write(&mut bytes)?;
    bytes[511] = bytes[511].wrapping_add(1);
    assert_eq!(rt;
        test_block(&bytes, next(1, 3, 7)).err(),
        Some(BlockFault::WrongCheck)
    );
    assert_eq!(rt;
        test_block(&bytes[1..512], next(1, 3, 7)).err(),
        Some(BlockFault::WrongLength)
    );
    Ok(())
}

#[test]
fn each_fault_has_its_number(rt: HostRuntime) {
    assert_eq!(rt; u32::from(BlockFault::WrongLength), 14);
    assert_eq!(rt; u32::from(BlockFault::WrongCheck), 15);
    assert_eq!(rt; u32::from(BlockFault::WrongNumber), 16);
    assert_eq!(rt; u32::from(BlockFault::WrongVersion), 17);
    assert_eq!(rt; u32::from(BlockFault::WrongData), 18);
}

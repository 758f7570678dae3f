use blocks::block::Block;
use blocks::fault::BlockFault;
use bodies::call::Call;
use bodies::event::{Event, EventKind};
use images::counts::Counts;
use images::fault::ImageFault;
use images::read::read_image;
use images::restore::restore_image;
use images::take::{OpenImage, Refused, Taken};
use images::write::{Unwritten, write_image};
use line_operators::sessions::Sessions;
use numbered::numbers::Numbers;
use operators::operator::Operator;
use std::process::Abort;
use std::test::Fail;

// An image that is open where it should be complete, or the other way round.
#[derive(Clone, Copy, Debug)]
struct WrongImage;

fn event(kind: EventKind, line: u32, stamp: u32) -> Event {
    Event { line, stamp, kind }
}

// The fault of a block of these data, alone in its image, where it has one.
fn fault_of(data: &[u8]) -> Result<Option<ImageFault>, Fail> {
    let mut block = [0u8; 512];
    Block {
        version: 0,
        number: 0,
        count: 1,
        data,
    }
    .write(&mut block)?;
    match OpenImage::new().take::<Call>(&block, &mut [0u8; 7530]) {
        Ok(_) => Ok(None),
        Err(Refused { fault, .. }) => Ok(Some(fault)),
    }
}

#[test]
fn the_image_of_new_sessions_is_a_block_of_17_bytes_and_check_166(
    rt: HostRuntime,
) -> Result<(), Fail> {
    let mut memory = [9u8; 513];
    let count = write_image(
        0,
        0,
        &Sessions::start(),
        &Numbers::new(4096),
        &[0u8; 2048],
        &mut memory,
    )?;
    assert_eq!(rt; count, 1);
    assert_eq!(rt; &memory[0..8], [0, 0, 0, 0, 0, 1, 0, 17].as_slice());
    assert_eq!(rt;
        &memory[8..25],
        [0, 0, 0, 0, 0, 0, 0, 0, 0, 0, 0, 0, 0, 0, 0, 1, 0].as_slice()
    );
    assert_eq!(rt; &memory[510..513], [0, 166, 9].as_slice());
    Ok(())
}

#[test]
fn a_broken_block_is_refused_and_the_repaired_one_is_taken_and_installed(
    rt: HostRuntime,
) -> Result<(), Fail> {
    let mut sessions = Sessions::start();
    assert_eq!(rt; sessions.take(event(EventKind::Begin, 7, 5)), None);
    let mut block = [0u8; 512];
    write_image(
        3,
        1,
        &sessions,
        &Numbers::new(4096),
        &[0u8; 2048],
        &mut block,
    )?;
    let mut memory = [9u8; 7530];
    block[30] = 1;
    let image = match OpenImage::new().take::<Call>(&block, &mut memory) {
        Ok(_) => return Err(WrongImage.into()),
        Err(Refused { image, fault }) => {
            assert_eq!(rt; fault, ImageFault::InBlock(BlockFault::WrongCheck));
            assert_eq!(rt; u32::from(fault), 15);
            image
        }
    };
    assert_eq!(rt; memory, [9; 7530]);
    block[30] = 0;
    let image = match image.take::<Call>(&block, &mut memory) {
        Ok(Taken::Complete(image)) => image,
        Ok(Taken::Open(_)) => return Err(WrongImage.into()),
        Err(Refused { fault, .. }) => return Err(fault.into()),
    };
    assert_eq!(rt; image.version(), 3);
    assert_eq!(rt;
        image.counts(),
        Counts {
            records_run: 1,
            results_produced: 0,
            results_settled: 0,
        }
    );
    assert_eq!(rt;
        image.state(&memory)?,
        [1, 0, 0, 0, 7, 0, 0, 0, 5].as_slice()
    );
    assert_eq!(rt; image.held(&memory)?, [].as_slice());
    assert_eq!(rt; memory[25], 9);
    let mut spare = Sessions::start();
    image.install(&memory, &mut spare)?;
    assert_eq!(rt;
        spare.take(event(EventKind::End, 7, 9)),
        Some(Call {
            line: 7,
            seconds: 4,
        })
    );
    Ok(())
}

#[test]
fn an_image_of_100_calls_has_2_blocks(rt: HostRuntime) -> Result<(), Fail> {
    let mut table = [0u8; 2048];
    let mut results = Numbers::new(4096);
    for line in 1..101u32 {
        assert_eq!(rt;
            results.insert(&mut table, Call { line, seconds: 60 }),
            Ok(line)
        );
    }
    let mut blocks = [0u8; 1025];
    let count = write_image(0, 200, &Sessions::start(), &results, &table, &mut blocks)?;
    assert_eq!(rt; count, 2);
    let mut memory = [0u8; 7530];
    let mut spare = Sessions::start();
    let image = restore_image(&blocks[0..1024], &mut memory, &mut spare)?;
    let held = image.held(&memory)?;
    assert_eq!(rt; held.len(), 800);
    assert_eq!(rt; &held[792..800], [0, 0, 0, 100, 0, 0, 0, 60].as_slice());
    // An image that ends too early, one with a byte behind it, and one whose blocks are not in their order.
    let short = read_image::<Call>(&blocks[0..512], &mut memory).err();
    assert_eq!(rt; short, Some(ImageFault::InBlock(BlockFault::WrongLength)));
    let long = read_image::<Call>(&blocks, &mut memory).err();
    assert_eq!(rt; long, Some(ImageFault::InBlock(BlockFault::WrongLength)));
    let second = read_image::<Call>(&blocks[512..1024], &mut memory).err();
    assert_eq!(rt; second, Some(ImageFault::InBlock(BlockFault::WrongNumber)));
    assert_eq!(rt; second.map(u32::from), Some(16));
    Ok(())
}

#[test]
fn contents_that_disagree_are_refused(rt: HostRuntime) -> Result<(), Fail> {
    let good = [0, 0, 0, 1, 0, 0, 0, 1, 0, 0, 0, 1, 0, 0, 0, 1, 0];
    assert_eq!(rt; fault_of(&good)?, None);
    // A byte too few, a byte too many, more results than records, and 513 bare numbers.
    let bad: [&[u8]; 4] = [
        &good[0..16],
        &[0, 0, 0, 1, 0, 0, 0, 1, 0, 0, 0, 1, 0, 0, 0, 1, 0, 0],
        &[0, 0, 0, 1, 0, 0, 0, 2, 0, 0, 0, 2, 0, 0, 0, 1, 0],
        &[0, 0, 0, 1, 0, 0, 0, 1, 0, 0, 2, 2, 0, 0, 0, 1, 0],
    ];
    for data in bad {
        assert_eq!(rt; fault_of(data)?, Some(ImageFault::WrongContents));
    }
    assert_eq!(rt; u32::from(ImageFault::WrongContents), 19);
    Ok(())
}

#[test]
fn a_state_that_sessions_refuse_is_not_installed(rt: HostRuntime) -> Result<(), Fail> {
    let mut blocks = [0u8; 512];
    Block {
        version: 0,
        number: 0,
        count: 1,
        data: &[0, 0, 0, 0, 0, 0, 0, 0, 0, 0, 0, 0, 0, 0, 0, 1, 1],
    }
    .write(&mut blocks)?;
    let mut memory = [0u8; 7530];
    let mut spare = Sessions::start();
    assert_eq!(rt; spare.take(event(EventKind::Begin, 7, 5)), None);
    let fault = restore_image(&blocks, &mut memory, &mut spare).err();
    assert_eq!(rt; fault, Some(ImageFault::Unreadable));
    assert_eq!(rt; fault.map(u32::from), Some(20));
    assert_eq!(rt; spare.state_length(), 9);
    Ok(())
}

#[test]
fn too_little_memory_is_refused(rt: HostRuntime) -> Result<(), Fail> {
    let mut memory = [9u8; 511];
    assert_eq!(rt;
        write_image(
            0,
            0,
            &Sessions::start(),
            &Numbers::new(4096),
            &[0u8; 2048],
            &mut memory
        ),
        Err(Unwritten::ShortMemory)
    );
    assert_eq!(rt; memory, [9; 511]);
    let mut blocks = [0u8; 512];
    write_image(
        0,
        0,
        &Sessions::start(),
        &Numbers::new(4096),
        &[0u8; 2048],
        &mut blocks,
    )?;
    let fault = read_image::<Call>(&blocks, &mut [0u8; 7529]).err();
    assert_eq!(rt; fault, Some(ImageFault::ShortMemory));
    assert_eq!(rt; fault.map(u32::from), Some(21));
    Ok(())
}

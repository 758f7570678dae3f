// What a technician tries first: the image of a unit is written, a byte of it breaks, the spare refuses it, the byte is repaired, and the
// spare is filled and goes on where the unit was.
#![tactic(auto)]

use bodies::event::{Event, EventKind};
use images::restore::restore_image;
use images::write::{BLOCK_LENGTH, MEMORY_LENGTH, write_image};
use line_operators::sessions::Sessions;
use numbered::numbers::Numbers;
use operators::operator::Operator;
use std::io;

// Results may weigh so much.
const LIMIT: u32 = 4096;

// The byte that breaks, among the data of the only block.
const BROKEN: usize = 20;

fn event(kind: EventKind, line: u32, stamp: u32) -> Event {
    Event { line, stamp, kind }
}

// Fills the spare from a block, and tells what it answers.
fn fill(rt: &impl Print, block: &[u8; BLOCK_LENGTH], spare: &mut Sessions) -> io::Result<()> {
    let mut memory = [0u8; MEMORY_LENGTH];
    match restore_image(block, &mut memory, spare) {
        Ok(image) => {
            let version = image.version();
            let records = image.counts().records_run;
            println!(rt; "filled: version {version}, {records} records")
        }
        Err(fault) => {
            let number = u32::from(fault);
            println!(rt; "no {number}")
        }
    }
}

fn main(rt: HostRuntime) -> io::Result<()> {
    let mut running = Sessions::start();
    running.take(event(EventKind::Begin, 7, 100));
    running.take(event(EventKind::Begin, 9, 130));
    let mut block = [0u8; BLOCK_LENGTH];
    match write_image(1, 2, &running, &Numbers::new(LIMIT), &[], &mut block) {
        Ok(count) => println!(rt; "written: {count} block")?,
        Err(_) => println!(rt; "not written")?,
    }
    let mut spare = Sessions::start();
    block[BROKEN] ^= 1;
    fill(&rt, &block, &mut spare)?;
    block[BROKEN] ^= 1;
    fill(&rt, &block, &mut spare)?;
    match spare.take(event(EventKind::End, 7, 160)) {
        Some(call) => {
            let seconds = call.seconds;
            println!(rt; "call 7 {seconds}")
        }
        None => println!(rt; "no call"),
    }
}

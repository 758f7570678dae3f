ghost use Rattle.std.specs.Prelude.{◌≡◌, ◌+◌, ◌-◌, ◌*◌, ◌≤◌, length, take, MatchOption, ◌<◌, true, false};
ghost use Rattle.images.specs.Contents.{contents_of, data_of, is_sound, held_by};
ghost use Rattle.images.specs.Fresh.{FreshImage};
ghost use Rattle.images.specs.Images.{part};
ghost use Rattle.images.specs.Writes.{Unheld, PutData, BlocksWrote, ImageWrote};
ghost use Rattle.numbered.specs.Buffers.{has_places};

use super::counts::{Counts, FRONT_LENGTH};
use blocks::block::{Block, MOST_DATA};
use bodies::body::Body;
use numbered::numbers::Numbers;
use operators::operator::Operator;

// A block has so many bytes.
pub const BLOCK_LENGTH: usize = 512;

// No image has more data: those of 15 blocks.
pub const MEMORY_LENGTH: usize = 7530;

// Puts the bodies of a buffer one behind another over bytes of just their number.
fn put_held<B: Body>(results: &Numbers, table: &[u8], out: &mut [u8]) -> Option<()>
    requires { length out.old ≡ (results.now.last - results.now.gone) * B.Body.size }
    ensures { MatchOption result (has_places results.now.limit B.Body.size (length table.now) ≡ false) (λ _. (out.new ≡ held_by B.Body.size results.now table.now) × (length out.new ≡ length out.old)) }
{
    let mut at = 0;
    for number in results.gone..results.last {
        let entry = results.entry::<B>(table, number + 1)?;
        let end = at + entry.body.len();
        out[at..end].copy_from_slice(entry.body);
        at = end;
    }
    Some(())
}

// Why an image was not written: the first that is so.
#[derive(Clone, Copy, PartialEq, Debug)]
pub enum Unwritten {
    // The state, the held results or the bare numbers are over 4,096 bytes, or there are more results than records; no unit comes to that.
    OutOfBounds,
    // The table is too short for its numbers; no unit lends such a one.
    ShortTable,
    // The memory has under 512 bytes a block.
    ShortMemory,
}

// Puts an image's data over the first of the lent bytes, and answers how many they are.
fn put_data<P: Operator>(
    records_run: u32,
    operator: &P,
    results: &Numbers,
    table: &[u8],
    out: &mut [u8; MEMORY_LENGTH],
) -> Result<usize, Unwritten>
    ensures { PutData P.Out.Body.size P.Operator.longest (contents_of P.Out.Body.size records_run (P.Operator.written (P.Operator.state operator.now)) results.now table.now) (has_places results.now.limit P.Out.Body.size (length table.now)) out.new result }
{
    if P::longest() == u32::MAX {
        return Err(Unwritten::OutOfBounds);
    }
    let counts = Counts {
        records_run,
        results_produced: results.last,
        results_settled: results.gone,
    };
    let state_length = operator.state_length();
    let held_length = counts
        .held_length::<P::Out>(state_length)
        .ok_or(Unwritten::OutOfBounds)?;
    let (front, rest) = out.split_at_mut(FRONT_LENGTH);
    let (state, rest) = rest.split_at_mut(state_length);
    let (held, _) = rest.split_at_mut(held_length);
    counts.put(state_length as u32, front);
    // A part of just the state's length refuses no state.
    let _ = operator.write_state(state);
    put_held::<P::Out>(results, table, held).ok_or(Unwritten::ShortTable)?;
    Ok(FRONT_LENGTH + state_length + held_length)
}

// The data of a block.
fn part(bytes: &[u8], number: usize) -> &[u8]
    requires { 502 * number ≤ length bytes.now }
    ensures { result.now ≡ part bytes.now number }
{
    let behind = &bytes[MOST_DATA * number..];
    &behind[..behind.len().min(MOST_DATA)]
}

// Writes the blocks of these data over the first of the memory's bytes, and answers how many.
fn write_blocks(version: u16, bytes: &[u8], memory: &mut [u8]) -> Result<usize, Unwritten>
    requires { length bytes.now ≤ 7530 }
    ensures { BlocksWrote version bytes.now memory.old memory.new result }
{
    let count = bytes.len().div_ceil(MOST_DATA);
    if memory.len() < BLOCK_LENGTH * count {
        return Err(Unwritten::ShortMemory);
    }
    for number in 0..count {
        let block = Block {
            version,
            number: number as u16,
            count: count as u16,
            data: part(bytes, number),
        };
        let at = BLOCK_LENGTH * number;
        // A block that has data is not refused, in as many bytes as it has.
        let _ = block.write(&mut memory[at..at + BLOCK_LENGTH]);
    }
    Ok(count)
}

// Writes the image of a unit that ran so many records over the first of the memory's bytes, and answers how many blocks it has.
// The table is the one that the buffer of results is lent.
#[tactic(auto, using(crate::proofs::Fresh::fresh_image))]
pub fn write_image<P: Operator>(
    version: u16,
    records_run: u32,
    operator: &P,
    results: &Numbers,
    table: &[u8],
    memory: &mut [u8],
) -> Result<usize, Unwritten>
    ensures wrote { ImageWrote P.Out.Body.size P.Operator.longest (contents_of P.Out.Body.size records_run (P.Operator.written (P.Operator.state operator.now)) results.now table.now) (has_places results.now.limit P.Out.Body.size (length table.now)) version memory.old memory.new result }
    ensures fresh { FreshImage }
{
    let mut data = [0u8; MEMORY_LENGTH];
    let length = put_data::<P>(records_run, operator, results, table, &mut data)?;
    write_blocks(version, &data[..length], memory)
}

ghost use Rattle.std.specs.Prelude.{◌≡◌, ℕ, ◌+◌, ◌-◌, ◌*◌, ◌<◌, ◌≤◌, length, take, true, MatchOption, MatchResult, List, ◌≢◌};
ghost use Rattle.blocks.specs.declared.block_test.Expected.TheVariants.{First};
ghost use Rattle.images.specs.Contents.{Contents, front_of, data_of, are_sound, is_sound};
ghost use Rattle.images.specs.Runs.{IsNext, Going, GoneOn};
ghost use Rattle.images.specs.Takes.{data_through, laid, Took, Faulty};

use super::complete::CompleteImage;
use super::counts::{Counts, FRONT_LENGTH};
use super::fault::ImageFault;
use super::write::{BLOCK_LENGTH, MEMORY_LENGTH};
use blocks::block::{Block, MOST_DATA};
use blocks::block_test::{Expected, test_block};
use blocks::fault::BlockFault;
use bodies::body::Body;

// An image of which blocks are still to come: take the others first.
#[derive(Drop, Debug)]
pub struct OpenImage {
    expected: Expected,
}

// What an image becomes with one block more.
#[derive(Drop)]
pub enum Taken {
    Open(OpenImage),
    Complete(CompleteImage),
}

// A block that was not taken, and the image as it was.
#[derive(Drop, Debug)]
pub struct Refused {
    pub image: OpenImage,
    pub fault: ImageFault,
}

// The counts and the lengths of the state and of the held results, of so many data that begin like this.
fn read_front<B: Body>(front: &[u8], whole: usize) -> Option<(Counts, usize, usize)>
    ensures { MatchOption result ((c : Contents) → is_sound B.Body.size c ≡ true → length (data_of c) ≡ whole → take 16 (data_of c) ≢ take 16 front.now) (λ r. (take 16 front.now ≡ front_of r.0 r.1) × (are_sound B.Body.size r.0 r.1 ≡ true) × (r.2 ≡ (r.0.results_produced - r.0.results_settled) * B.Body.size) × (16 + r.1 + r.2 ≡ whole)) }
{
    let (counts, state_length) = Counts::read(front)?;
    let state_length = state_length as usize;
    let held_length = counts.held_length::<B>(state_length)?;
    if FRONT_LENGTH + state_length + held_length != whole {
        return None;
    }
    Some((counts, state_length, held_length))
}

// Where the data up to a block's begin: in the first block, and later in the memory.
#[tactic(auto, using(crate::proofs::Data::front_first, crate::proofs::Data::front_later))]
fn front<'a>(block: Block<'a>, memory: &'a [u8]) -> &'a [u8]
    requires { (7530 ≤ length memory.now) × (block.number < 15) }
    ensures { take 16 result.now ≡ take 16 (data_through block.entry memory.now) }
{
    if block.number == 0 {
        block.data
    } else {
        memory
    }
}

// Puts a block's data at their place.
fn put_block(block: Block<'_>, memory: &mut [u8])
    requires { 502 * block.number + length block.«data».now ≤ length memory.old }
    ensures { memory.new ≡ laid block.entry memory.old }
{
    let at = MOST_DATA * usize::from(block.number);
    memory[at..at + block.data.len()].copy_from_slice(block.data);
}

impl OpenImage {
    // An image of which every block is to come.
    pub fn new() -> OpenImage
        ensures first { result.expected ≡ First }
        ensures run { (size : ℕ) (blocks memory : List ℕ) → Going size blocks memory result.expected memory }
    {
        OpenImage {
            expected: Expected::First,
        }
    }

    // As `take`, over the image as it is.
    fn next<B: Body>(&self, bytes: &[u8], memory: &mut [u8]) -> Result<Taken, ImageFault>
        ensures { MatchResult result (Took B.Body.size self.now.expected bytes.now memory.old memory.new) (λ fault. Faulty B.Body.size self.now.expected bytes.now memory.old fault × (memory.new ≡ memory.old)) }
    {
        if bytes.len() != BLOCK_LENGTH {
            return Err(BlockFault::WrongLength.into());
        }
        if memory.len() < MEMORY_LENGTH {
            return Err(ImageFault::ShortMemory);
        }
        let block = test_block(bytes, self.expected)?;
        if block.number + 1 < block.count {
            put_block(block, memory);
            return Ok(Taken::Open(OpenImage {
                expected: Expected::Next {
                    number: block.number + 1,
                    count: block.count,
                    version: block.version,
                },
            }));
        }
        let length = MOST_DATA * usize::from(block.number) + block.data.len();
        let (counts, state_length, held_length) = read_front::<B>(
            front(block, memory),
            length,
        ).ok_or(ImageFault::WrongContents)?;
        put_block(block, memory);
        Ok(Taken::Complete(CompleteImage {
            version: block.version,
            counts,
            state_length,
            held_length,
        }))
    }

    // One block more, whose data go into the memory; the last completes the image.
    pub fn take<B: Body>(self, bytes: &[u8], memory: &mut [u8]) -> Result<Taken, Refused>
        ensures answer { MatchResult result (Took B.Body.size self.expected bytes.now memory.old memory.new) (λ e. Faulty B.Body.size self.expected bytes.now memory.old e.fault × (e.image ≡ self) × (memory.new ≡ memory.old)) }
        ensures run { (blocks first : List ℕ) → IsNext blocks self.expected bytes.now → Going B.Body.size blocks first self.expected memory.old → GoneOn B.Body.size blocks first self.expected memory.old memory.new result }
    {
        // No body is longer, so the data of any image fit the memory.
        prove!(B::size() <= 40);
        match self.next::<B>(bytes, memory) {
            Ok(taken) => Ok(taken),
            Err(fault) => Err(Refused { image: self, fault }),
        }
    }
}

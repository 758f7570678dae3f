ghost use Rattle.std.specs.Prelude.{◌≡◌, ◌+◌, ◌≤◌, ◌<◌, length, true, false, MatchResult};
ghost use Rattle.images.specs.Takes.{held_in, memory_length};
ghost use Rattle.images.specs.Installs.{AreBodies, Installed};
ghost use Rattle.images.specs.declared.fault.ImageFault.TheVariants.{ShortMemory, Unreadable};

use super::complete::CompleteImage;
use super::counts::{Counts, FRONT_LENGTH};
use super::fault::ImageFault;
use super::write::MEMORY_LENGTH;
use bodies::body::Body;
use operators::operator::{NoState, Operator, restore};

impl From<NoState> for ImageFault {
    ghost from_gives = { λ _ r. r ≡ Unreadable };

    fn from(_e: NoState) -> ImageFault {
        ImageFault::Unreadable
    }
}

// Whether values of a kind write the bytes, one behind another.
fn are_bodies<B: Body>(bytes: &[u8]) -> bool
    ensures yes { result ≡ true → AreBodies B.Body.bytes bytes.now }
    ensures no { result ≡ false → AreBodies B.Body.bytes bytes.now → ⊥ }
{
    let mut rest = bytes;
    while !rest.is_empty() {
        let Some((body, behind)) = rest.split_at_checked(B::size()) else {
            return false;
        };
        let Some(_value) = B::read(body) else {
            return false;
        };
        rest = behind;
    }
    true
}

impl CompleteImage {
    pub fn version(&self) -> u16
        ensures { result ≡ self.now.version }
    {
        self.version
    }

    pub fn counts(&self) -> Counts
        ensures { result ≡ self.now.counts }
    {
        self.counts
    }

    // The state's bytes, in the memory that the blocks were taken into.
    pub fn state<'a>(&self, memory: &'a [u8]) -> Result<&'a [u8], ImageFault>
        ensures { MatchResult result (λ s. (memory_length ≤ length memory.now) × (s.now ≡ (held_in self.now memory.now).state)) (λ e. (length memory.now < memory_length) × (e ≡ ShortMemory)) }
    {
        if memory.len() < MEMORY_LENGTH {
            return Err(ImageFault::ShortMemory);
        }
        Ok(&memory[FRONT_LENGTH..FRONT_LENGTH + self.state_length])
    }

    // The bodies of the held results, one behind another, in the same memory.
    pub fn held<'a>(&self, memory: &'a [u8]) -> Result<&'a [u8], ImageFault>
        ensures { MatchResult result (λ s. (memory_length ≤ length memory.now) × (s.now ≡ (held_in self.now memory.now).held)) (λ e. (length memory.now < memory_length) × (e ≡ ShortMemory)) }
    {
        if memory.len() < MEMORY_LENGTH {
            return Err(ImageFault::ShortMemory);
        }
        let at = FRONT_LENGTH + self.state_length;
        Ok(&memory[at..at + self.held_length])
    }

    // Sets an operator to the image's state.
    pub fn install<P: Operator>(&self, memory: &[u8], operator: &mut P) -> Result<(), ImageFault>
        ensures { Installed P.Operator.state P.Operator.written P.Operator.longest P.Out.Body.bytes memory.now (held_in self.now memory.now) operator.old operator.new result }
    {
        let state = self.state(memory)?;
        if !are_bodies::<P::Out>(self.held(memory)?) {
            return Err(ImageFault::Unreadable);
        }
        restore(operator, state)?;
        Ok(())
    }
}

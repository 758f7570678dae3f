ghost use Rattle.std.specs.Prelude.{◌≡◌, ℕ, ◌+◌, ◌<◌, ◌≤◌, List, length, Option, MatchOption};
ghost use Rattle.std.specs.List.{flat_map};
ghost use Rattle.bodies.specs.Bodies.{BodyLaws, Wrote};
ghost use Rattle.bodies.specs.Weights.{longest_body};

// Lent bytes of another number than those to be written.
#[derive(Clone, Copy, PartialEq, Debug)]
pub struct WrongLength;

// A body kind: a fixed length of 1 to 40 bytes, a writing and a reading.
// Each kind names its fields once in writing (`put`) and once in reading (`Number::take`), a line each; by tuples of fields it would have a
// function to its tuple and one from it, and so as many lines.
pub trait Body: Copy {
    // the length of every writing
    ghost size: { ℕ };

    // what a value writes
    ghost bytes: { Self → List ℕ };

    // the value that bytes write, if any does
    ghost value: { List ℕ → Option Self };

    ghost laws: { BodyLaws size bytes value };

    // That length, of 1 to 40 bytes.
    fn size() -> usize
        ensures is { result ≡ size }
        ensures bounds { (1 ≤ result) × (result ≤ longest_body) };

    // Writes over lent bytes of just that number; else they stay.
    fn write(&self, out: &mut [u8]) -> Result<(), WrongLength>
        ensures { Wrote (bytes self.now) out.old out.new result };

    fn read(from: &[u8]) -> Option<Self>
        ensures { result ≡ value from.now };
}

// How many bytes of a whole are left behind the parts; none where the parts are longer.
#[inline]
fn left_behind(parts: &[&[u8]], whole: usize) -> Option<usize>
    ensures { MatchOption result (whole < length (flat_map (λ p. p.now) parts.now)) (λ left. left + length (flat_map (λ p. p.now) parts.now) ≡ whole) }
{
    let mut left = whole;
    for part in parts {
        left = left.checked_sub(part.len())?;
    }
    Some(left)
}

// Parts put one behind another over lent bytes of just their number; else those stay.
#[inline]
pub fn put(parts: &[&[u8]], out: &mut [u8]) -> Result<(), WrongLength>
    ensures { Wrote (flat_map (λ p. p.now) parts.now) out.old out.new result }
{
    if left_behind(parts, out.len()) != Some(0) {
        return Err(WrongLength);
    }
    // Where the next part goes is counted along; cutting the front off (`split_off_mut`) would answer an option at each part.
    let mut at = 0;
    for part in parts {
        let end = at + part.len();
        out[at..end].copy_from_slice(part);
        at = end;
    }
    Ok(())
}

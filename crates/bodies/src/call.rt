ghost use Rattle.std.specs.Prelude.{◌≡◌};
ghost use Rattle.bodies.specs.Calls.{call_bytes, call_value, call_laws};

use super::body::{Body, WrongLength, put};
use super::numbers::Number;

// A line's call that ended, and how long it was.
#[derive(Clone, Copy, PartialEq, Debug)]
pub struct Call {
    pub line: u32,
    pub seconds: u32,
}

// Its fields are written and read one by one; `Body` tells why.
impl Body for Call {
    ghost size = { 8 };

    ghost bytes = { call_bytes };

    ghost value = { call_value };

    ghost laws = { call_laws };

    fn size() -> usize {
        8
    }

    #[inline]
    fn write(&self, out: &mut [u8]) -> Result<(), WrongLength> {
        put(&[&self.line.to_bytes(), &self.seconds.to_bytes()], out)
    }

    fn read(from: &[u8]) -> Option<Call> {
        let (line, rest) = u32::take(from)?;
        let (seconds, rest) = u32::take(rest)?;
        rest.is_empty().then_some(Call { line, seconds })
    }
}

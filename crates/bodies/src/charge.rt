ghost use Rattle.std.specs.Prelude.{◌≡◌};
ghost use Rattle.bodies.specs.Charges.{charge_bytes, charge_value, charge_laws};

use super::body::{Body, WrongLength, put};
use super::numbers::Number;

// A line's calls so far, and their seconds together.
#[derive(Clone, Copy, Default, PartialEq, Debug)]
pub struct Charge {
    pub line: u32,
    pub calls: u32,
    pub seconds: u64,
}

// Its fields are written and read one by one; `Body` tells why.
impl Body for Charge {
    ghost size = { 16 };

    ghost bytes = { charge_bytes };

    ghost value = { charge_value };

    ghost laws = { charge_laws };

    fn size() -> usize {
        16
    }

    #[inline]
    fn write(&self, out: &mut [u8]) -> Result<(), WrongLength> {
        put(
            &[
                &self.line.to_bytes(),
                &self.calls.to_bytes(),
                &self.seconds.to_bytes(),
            ],
            out,
        )
    }

    fn read(from: &[u8]) -> Option<Charge> {
        let (line, rest) = u32::take(from)?;
        let (calls, rest) = u32::take(rest)?;
        let (seconds, rest) = u64::take(rest)?;
        rest.is_empty().then_some(Charge {
            line,
            calls,
            seconds,
        })
    }
}

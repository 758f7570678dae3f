ghost use Rattle.std.specs.Prelude.{◌≡◌, true};
ghost use Rattle.line_operators.specs.Opens.{open_bytes, open_value, open_laws};

use super::table::Row;
use bodies::body::{Body, WrongLength, put};
use bodies::numbers::Number;

// A line whose call has begun.
#[derive(Clone, Copy, PartialEq, Default, Debug)]
pub struct Open {
    pub line: u32,
    pub stamp: u32,
}

// Its fields are written and read one by one; `Body` tells why.
impl Body for Open {
    ghost size = { 8 };

    ghost bytes = { open_bytes };

    ghost value = { open_value };

    ghost laws = { open_laws };

    fn size() -> usize {
        8
    }

    #[inline]
    fn write(&self, out: &mut [u8]) -> Result<(), WrongLength> {
        put(&[&self.line.to_bytes(), &self.stamp.to_bytes()], out)
    }

    fn read(from: &[u8]) -> Option<Open> {
        let (line, rest) = u32::take(from)?;
        let (stamp, rest) = u32::take(rest)?;
        rest.is_empty().then_some(Open { line, stamp })
    }
}

impl Row for Open {
    type Key = u32;

    ghost key = { λ o. o.line };

    ghost keyed = { λ e s. tt };

    ghost sound = { λ o. true };

    fn key(&self) -> u32 {
        self.line
    }

    fn sound(&self) -> bool {
        true
    }
}

ghost use Rattle.std.specs.Prelude.{◌≡◌};
ghost use Rattle.bodies.specs.Events.{event_bytes, event_value, event_laws, kind_byte};
ghost use Rattle.bodies.specs.Codes.{Decodes};

use super::body::{Body, WrongLength, put};
use super::code::UnknownCode;
use super::numbers::Number;

#[derive(Clone, Copy, PartialEq, Debug)]
pub enum EventKind {
    Begin,
    End,
}

impl From<EventKind> for u8 {
    ghost from_gives = { λ kind byte. byte ≡ kind_byte kind };

    fn from(kind: EventKind) -> u8 {
        match kind {
            EventKind::Begin => 1,
            EventKind::End => 2,
        }
    }
}

impl TryFrom<u8> for EventKind {
    type Error = UnknownCode;

    ghost try_from_gives = { Decodes kind_byte };

    fn try_from(byte: u8) -> Result<EventKind, UnknownCode> {
        match byte {
            1 => Ok(EventKind::Begin),
            2 => Ok(EventKind::End),
            _ => Err(UnknownCode),
        }
    }
}

// A call begins or ends on a line, at a time in seconds.
#[derive(Clone, Copy, PartialEq, Debug)]
pub struct Event {
    pub line: u32,
    pub stamp: u32,
    pub kind: EventKind,
}

// Its fields are written and read one by one; `Body` tells why.
impl Body for Event {
    ghost size = { 9 };

    ghost bytes = { event_bytes };

    ghost value = { event_value };

    ghost laws = { event_laws };

    fn size() -> usize {
        9
    }

    #[inline]
    fn write(&self, out: &mut [u8]) -> Result<(), WrongLength> {
        put(
            &[
                &self.line.to_bytes(),
                &self.stamp.to_bytes(),
                &[self.kind.into()],
            ],
            out,
        )
    }

    fn read(from: &[u8]) -> Option<Event> {
        let (line, rest) = u32::take(from)?;
        let (stamp, rest) = u32::take(rest)?;
        let (kind, rest) = rest.split_first()?;
        let kind = EventKind::try_from(*kind).ok()?;
        rest.is_empty().then_some(Event { line, stamp, kind })
    }
}

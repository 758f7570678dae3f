ghost use Rattle.std.specs.Prelude.{◌≡◌};
ghost use Rattle.bodies.specs.Codes.{Decodes};
ghost use Rattle.messages.specs.Kinds.{kind_byte};

use bodies::code::UnknownCode;

// What a message says, as the first byte of its header.
#[derive(Clone, Copy, PartialEq, Debug)]
pub enum Kind {
    Record,
    Result,
    Ack,
    Csync,
    Psync,
    Reverse,
}

impl From<Kind> for u8 {
    ghost from_gives = { λ kind byte. byte ≡ kind_byte kind };

    fn from(kind: Kind) -> u8 {
        match kind {
            Kind::Record => 1,
            Kind::Result => 2,
            Kind::Ack => 3,
            Kind::Csync => 4,
            Kind::Psync => 5,
            Kind::Reverse => 6,
        }
    }
}

impl TryFrom<u8> for Kind {
    type Error = UnknownCode;

    ghost try_from_gives = { Decodes kind_byte };

    fn try_from(byte: u8) -> Result<Kind, UnknownCode> {
        match byte {
            1 => Ok(Kind::Record),
            2 => Ok(Kind::Result),
            3 => Ok(Kind::Ack),
            4 => Ok(Kind::Csync),
            5 => Ok(Kind::Psync),
            6 => Ok(Kind::Reverse),
            _ => Err(UnknownCode),
        }
    }
}

ghost use Rattle.std.specs.Prelude.{◌≡◌, ℕ, ◌<◌, List, ◌++◌, length, MatchOption, ◌≢◌};
ghost use Rattle.messages.specs.Kinds.{kind_byte};
ghost use Rattle.messages.specs.declared.message.Unwritten.TheVariants.{WrongLength};
ghost use Rattle.messages.specs.Messages.{Content, Ack, Csync, Psync, Reverse, content_of, body_of, kind_of, version_of, number_of, weight_of, message_bytes, Short, Fields, MessageWrote, OneMessage, AsLong};

use super::kind::Kind;
use bodies::body;
use bodies::numbers::Number;
use bodies::weight::HEADER_LENGTH;

// The longest body.
pub const LONGEST_BODY: usize = 40;

// Why a message was not written.
#[derive(Clone, Copy, PartialEq, Debug)]
pub enum Unwritten {
    LongBody,
    WrongLength,
}

impl From<body::WrongLength> for Unwritten {
    ghost from_gives = { λ _ r. r ≡ WrongLength };

    fn from(_e: body::WrongLength) -> Unwritten {
        Unwritten::WrongLength
    }
}

// What one unit tells another, with the body where it lies.
#[derive(Clone, Copy, PartialEq, Debug)]
pub enum Message<'a> {
    Record { number: u32, body: &'a [u8] },
    Result { number: u32, body: &'a [u8] },
    Ack { number: u32 },
    Csync { version: u16 },
    Psync { version: u16 },
    Reverse,
}

// The messages without a body, which borrow from nothing: a case of the enum each.
impl Message<'static> {
    pub fn ack(number: u32) -> Message<'static>
        ensures { content_of result ≡ Ack number }
    {
        Self::Ack { number }
    }

    pub fn csync(version: u16) -> Message<'static>
        ensures { content_of result ≡ Csync version }
    {
        Self::Csync { version }
    }

    pub fn psync(version: u16) -> Message<'static>
        ensures { content_of result ≡ Psync version }
    {
        Self::Psync { version }
    }

    pub fn reverse() -> Message<'static>
        ensures { content_of result ≡ Reverse }
    {
        Self::Reverse
    }
}

impl<'a> Message<'a> {
    fn kind(&self) -> Kind
        ensures { result ≡ kind_of (content_of self.now) }
    {
        match self {
            Message::Record { .. } => Kind::Record,
            Message::Result { .. } => Kind::Result,
            Message::Ack { .. } => Kind::Ack,
            Message::Csync { .. } => Kind::Csync,
            Message::Psync { .. } => Kind::Psync,
            Message::Reverse => Kind::Reverse,
        }
    }

    fn version(&self) -> u16
        ensures { result ≡ version_of (content_of self.now) }
    {
        match self {
            Message::Csync { version } | Message::Psync { version } => *version,
            _ => 0,
        }
    }

    fn number(&self) -> u32
        ensures { result ≡ number_of (content_of self.now) }
    {
        match self {
            Message::Record { number, .. }
            | Message::Result { number, .. }
            | Message::Ack { number } => *number,
            _ => 0,
        }
    }

    // The body, of no bytes where there is none.
    pub fn body(&self) -> &'a [u8]
        ensures { result.now ≡ body_of (content_of self.now) }
    {
        match self {
            Message::Record { body, .. } | Message::Result { body, .. } => body,
            _ => &[],
        }
    }

    // The header and the body, in bytes.
    pub fn weight(&self) -> usize
        ensures is { result ≡ weight_of (content_of self.now) }
        ensures long { AsLong }
    {
        HEADER_LENGTH + self.body().len()
    }

    // Writes over lent bytes of just that number; else they stay. (Put down as parts, by `put`, it took twice as long.)
    #[inline]
    pub fn write(&self, out: &mut [u8]) -> Result<(), Unwritten>
        ensures { MessageWrote (content_of self.now) out.old out.new result }
    {
        let body = self.body();
        if body.len() > LONGEST_BODY {
            return Err(Unwritten::LongBody);
        }
        if out.len() != HEADER_LENGTH + body.len() {
            return Err(Unwritten::WrongLength);
        }
        let [v0, v1] = self.version().to_be_bytes();
        let [n0, n1, n2, n3] = self.number().to_be_bytes();
        out[0..HEADER_LENGTH].copy_from_slice(&[
            self.kind().into(),
            body.len() as u8,
            v0,
            v1,
            n0,
            n1,
            n2,
            n3,
        ]);
        out[HEADER_LENGTH..].copy_from_slice(body);
        Ok(())
    }

    // The message of a header's fields and a body, which must fit together.
    fn fit(kind: Kind, version: u16, number: u32, body: &'a [u8]) -> Option<Message<'a>>
        ensures { MatchOption result ((m : Content) → Fields m (kind_byte kind) version number body.now → ⊥) (λ m. Fields (content_of m) (kind_byte kind) version number body.now) }
    {
        match (kind, version, number, body) {
            (Kind::Record, 0, _, _) => Some(Message::Record { number, body }),
            (Kind::Result, 0, _, _) => Some(Message::Result { number, body }),
            (Kind::Ack, 0, _, []) => Some(Message::Ack { number }),
            (Kind::Csync, _, 0, []) => Some(Message::Csync { version }),
            (Kind::Psync, _, 0, []) => Some(Message::Psync { version }),
            (Kind::Reverse, 0, 0, []) => Some(Message::Reverse),
            _ => None,
        }
    }

    // The message that the bytes begin with, and the bytes behind it. (The check is told the lemma that `one` is.)
    #[tactic(auto, using(crate::specs::Messages::one_message))]
    #[inline]
    pub fn split_first(bytes: &'a [u8]) -> Option<(Message<'a>, &'a [u8])>
        ensures one { OneMessage }
        ensures exact { MatchOption result ((m : Content) (more : List ℕ) → Short m → message_bytes m ++ more ≢ bytes.now) (λ p. Short (content_of p.0) × (message_bytes (content_of p.0) ++ p.1.now ≡ bytes.now)) }
    {
        // By a rule of the project a header is taken apart by a pattern, in which each byte has a name.
        let [kind, length, v0, v1, n0, n1, n2, n3, rest @ ..] = bytes else {
            return None;
        };
        let kind = Kind::try_from(*kind).ok()?;
        let version = u16::from_bytes([*v0, *v1]);
        let number = u32::from_bytes([*n0, *n1, *n2, *n3]);
        let length = usize::from(*length);
        if length > LONGEST_BODY {
            return None;
        }
        let (body, more) = rest.split_at_checked(length)?;
        let message = Message::fit(kind, version, number, body)?;
        Some((message, more))
    }

    // The message that the bytes are.
    #[tactic(auto, using(crate::specs::Messages::one_message))]
    pub fn read(bytes: &'a [u8]) -> Option<Message<'a>>
        ensures one { OneMessage }
        ensures exact { MatchOption result ((m : Content) → Short m → message_bytes m ≢ bytes.now) (λ m. Short (content_of m) × (message_bytes (content_of m) ≡ bytes.now)) }
    {
        let (message, more) = Message::split_first(bytes)?;
        more.is_empty().then_some(message)
    }
}

ghost use Rattle.std.specs.Prelude.{◌≡◌};
ghost use Rattle.messages.specs.Messages.{Short, content_of};
ghost use Rattle.links.specs.Slots.{padded_bytes};

use bodies::weight::HEADER_LENGTH;
use messages::message::{LONGEST_BODY, Message};

pub const LONGEST_MESSAGE: usize = HEADER_LENGTH + LONGEST_BODY;

// A short message's bytes, and zeros up to the longest message's length.
pub fn padded(message: &Message<'_>) -> [u8; LONGEST_MESSAGE]
    requires { Short (content_of message.now) }
    ensures { result ≡ padded_bytes (content_of message.now) }
{
    let mut bytes = [0; LONGEST_MESSAGE];
    // A part of just the message's weight refuses no short message.
    let _ = message.write(&mut bytes[..message.weight()]);
    bytes
}

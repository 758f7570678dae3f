ghost use Rattle.std.specs.Prelude.{◌≡◌, ◌+◌, ◌≤◌, [], ◌++◌, length, drop};
ghost use Rattle.messages.specs.Messages.{Short, content_of, message_bytes, weight_of};

use messages::message::Message;
use std::marker::Model;

// The data bytes of one block.
pub const DATA_LENGTH: usize = 502;

// The data bytes of one block, of which the first are in use. The library's vector of fixed capacity writes a blank over each byte that
// leaves it, so that clearing it takes longer the more it holds.
#[derive(Drop)]
pub struct Packing {
    bytes: [u8; DATA_LENGTH],
    used: usize,
}

// Clauses see the bytes in use.
impl Model for Packing {
    ghost use Rattle.std.specs.Prelude.{ℕ, ◌≤◌, List, take};

    ghost Value = { List ℕ };

    ghost view = { λ p. take p.used p.bytes };

    ghost invariant = { λ p. p.used ≤ 502 };
}

impl Packing {
    pub fn new() -> Packing
        ensures { result ≡ [] }
    {
        Packing {
            bytes: [0; DATA_LENGTH],
            used: 0,
        }
    }

    pub fn as_slice(&self) -> &[u8]
        ensures { result.now ≡ self.now }
    {
        &self.bytes[0..self.used]
    }

    pub fn len(&self) -> usize
        ensures { result ≡ length self.now }
    {
        self.used
    }

    // Writes a message behind the bytes in use.
    pub fn append(&mut self, message: &Message<'_>)
        requires short { Short (content_of message.now) }
        requires space { length self.old + weight_of (content_of message.now) ≤ 502 }
        ensures { self.new ≡ self.old ++ message_bytes (content_of message.now) }
    {
        let end = self.used + message.weight();
        // A part of just the message's weight refuses no short message.
        let _ = message.write(&mut self.bytes[self.used..end]);
        self.used = end;
    }

    // Takes the first bytes in use away: the others move to the front.
    pub fn drop_front(&mut self, weight: usize)
        requires { weight ≤ length self.old }
        ensures { self.new ≡ drop weight self.old }
    {
        self.bytes.copy_within(weight..self.used, 0);
        self.used -= weight;
    }

    // Takes all bytes out of use.
    pub fn clear(&mut self)
        ensures { self.new ≡ [] }
    {
        self.used = 0;
    }
}

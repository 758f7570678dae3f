ghost use Rattle.std.specs.Prelude.{◌≡◌, ◌≤◌, true, [], length};
ghost use Rattle.std.proofs.Common.{lit≤};
ghost use Rattle.links.specs.EventRecords.{Takes29};
ghost use Rattle.links.specs.Links.{weigh_all, all_short};
ghost use Rattle.links.specs.Spelling.{spelling, spelled};

use super::link::{Empty, Link, Untaken, admit};
use super::packing::{DATA_LENGTH, Packing};
use messages::message::Message;

// Messages back to back, header and body as bytes, in the data bytes of one block. Bytes that no list of messages
// writes are in no packed link.
#[derive(Drop)]
pub struct PackedLink {
    bytes: Packing,
    // noted, as counting them by walking the bytes would take longer the more wait
    count: usize,
    ghost spells: { spelling (spelled bytes) ≡ bytes },
    ghost counts: { count ≡ length (spelled bytes) },
    ghost light: { weigh_all (spelled bytes) ≤ 502 },
    ghost short: { all_short (spelled bytes) ≡ true },
}

impl PackedLink {
    // A link on which nothing waits. Of records of events it takes 29.
    pub fn new() -> PackedLink
        ensures empty { spelled result.bytes ≡ [] }
        ensures events { Takes29 (spelled result.bytes) }
    {
        PackedLink {
            bytes: Packing::new(),
            count: 0,
        }
    }

    // The bytes of the waiting messages, as they lie in the block.
    pub fn bytes(&self) -> &[u8]
        ensures { result.now ≡ spelling (spelled self.now.bytes) }
    {
        self.bytes.as_slice()
    }
}

impl Link for PackedLink {
    ghost waiting = { λ l. spelled l.bytes };

    ghost limit = { λ l. 502 };

    ghost laws = { record { low = λ l. lit≤ tt; high = λ l. lit≤ tt; light = λ l. l.light; short = λ l. l.short } };

    fn limit(&self) -> usize {
        DATA_LENGTH
    }

    fn offer(&mut self, message: Message<'_>) -> Result<(), Untaken> {
        admit(&message, self.bytes.len(), DATA_LENGTH)?;
        self.bytes.append(&message);
        self.count += 1;
        Ok(())
    }

    fn first(&self) -> Option<Message<'_>> {
        Message::split_first(self.bytes()).map(|(message, _)| message)
    }

    fn drop_first(&mut self) -> Result<(), Empty> {
        let weight = self.first().ok_or(Empty)?.weight();
        self.bytes.drop_front(weight);
        self.count -= 1;
        Ok(())
    }

    fn count(&self) -> usize {
        self.count
    }

    fn weight(&self) -> usize {
        self.bytes.len()
    }

    fn clear(&mut self) {
        self.bytes.clear();
        self.count = 0;
    }
}

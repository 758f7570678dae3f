ghost use Rattle.std.specs.Prelude.{◌≡◌, ◌≤◌, true, []};
ghost use Rattle.std.proofs.Common.{lit≤};
ghost use Rattle.links.specs.Links.{weigh_all};
ghost use Rattle.links.specs.Slots.{in_slots, all_filled, in_slots_short};

use super::link::{Empty, Link, Untaken, admit};
use super::padded::{LONGEST_MESSAGE, padded};
use super::ring::Ring;
use messages::message::Message;

const SLOTS: usize = 64;

// 64 messages weigh no less, so a link that has space has a slot.
const LIMIT: usize = 512;

// Messages in 64 slots of the longest message's length.
#[derive(Drop)]
pub struct SlotLink {
    slots: Ring<[u8; LONGEST_MESSAGE], SLOTS>,
    // noted, as adding up the weights would take longer the more wait
    weight: usize,
    ghost filled: { all_filled slots ≡ true },
    ghost weighs: { weight ≡ weigh_all (in_slots slots) },
    ghost light: { weigh_all (in_slots slots) ≤ 512 },
}

impl SlotLink {
    // A link on which nothing waits.
    pub fn new() -> SlotLink
        ensures { in_slots result.slots ≡ [] }
    {
        SlotLink {
            slots: Ring::new([0; LONGEST_MESSAGE]),
            weight: 0,
        }
    }
}

impl Link for SlotLink {
    ghost waiting = { λ l. in_slots l.slots };

    ghost limit = { λ l. 512 };

    ghost laws = { record { low = λ l. lit≤ tt; high = λ l. lit≤ tt; light = λ l. l.light; short = λ l. in_slots_short l.slots l.filled } };

    fn limit(&self) -> usize {
        LIMIT
    }

    fn offer(&mut self, message: Message<'_>) -> Result<(), Untaken> {
        admit(&message, self.weight, LIMIT)?;
        self.slots.push_back(padded(&message));
        self.weight += message.weight();
        Ok(())
    }

    fn first(&self) -> Option<Message<'_>> {
        Message::split_first(self.slots.front()?).map(|(message, _)| message)
    }

    fn drop_first(&mut self) -> Result<(), Empty> {
        let weight = self.first().ok_or(Empty)?.weight();
        self.slots.drop_front();
        self.weight -= weight;
        Ok(())
    }

    fn count(&self) -> usize {
        self.slots.len()
    }

    fn weight(&self) -> usize {
        self.weight
    }

    fn clear(&mut self) {
        self.slots.clear();
        self.weight = 0;
    }
}

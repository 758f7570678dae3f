ghost use Rattle.std.specs.Prelude.{◌≡◌, ℕ, List, [], map, length};
ghost use Rattle.messages.specs.Messages.{Content, content_of};
ghost use Rattle.links.specs.Links.{LinkLaws, weigh_all, is_taken, offer_answer, offered, first_of, rest_of, drop_answer, says};
ghost use Rattle.links.specs.NoneLost.{Lossless, after, after_all, change_of};

use messages::message::{LONGEST_BODY, Message};

// Why an offer was not taken: the first of these that is the case.
#[derive(Clone, Copy, PartialEq, Debug)]
pub enum Untaken {
    LongBody,
    NoSpace,
}

// No message waits.
#[derive(Clone, Copy, PartialEq, Debug)]
pub struct Empty;

// A call that changes a link, as a value, since a law speaks of lists of calls.
#[derive(Clone, Copy, PartialEq, Debug)]
pub enum LinkCall<'a> {
    Offer(Message<'a>),
    DropFirst,
    Clear,
}

// The answer to an offer where messages of this weight wait; every make of link takes an offer by it.
pub fn admit(message: &Message<'_>, weight: usize, limit: usize) -> Result<(), Untaken>
    ensures { result ≡ offer_answer limit weight (content_of message.now) }
{
    if message.body().len() > LONGEST_BODY {
        return Err(Untaken::LongBody);
    }
    if message.weight() > limit.saturating_sub(weight) {
        return Err(Untaken::NoSpace);
    }
    Ok(())
}

// Messages on their way, in order: a list of waiting messages, and a limit to their weight that no call changes.
pub trait Link: Drop {
    ghost waiting: { Self → List Content };

    ghost limit: { Self → ℕ };

    ghost laws: { LinkLaws waiting limit };

    // That limit, of 48 to 4,096 bytes. By a rule of the project it belongs to the value and not to the type, so each call that changes a
    // link says that it keeps it.
    fn limit(&self) -> usize
        ensures { result ≡ limit self.now };

    // Puts a message last, where its body has at most 40 bytes and all weigh no more than the limit; else nothing changes.
    fn offer(&mut self, message: Message<'_>) -> Result<(), Untaken>
        ensures answer { result ≡ offer_answer (limit self.old) (weigh_all (waiting self.old)) (content_of message.entry) }
        ensures after { waiting self.new ≡ offered (limit self.old) (content_of message.entry) (waiting self.old) }
        ensures kept { limit self.new ≡ limit self.old };

    // The first message, with its body where it lies in the link.
    fn first(&self) -> Option<Message<'_>>
        ensures { says result ≡ first_of (waiting self.now) };

    fn drop_first(&mut self) -> Result<(), Empty>
        ensures answer { result ≡ drop_answer (waiting self.old) }
        ensures after { waiting self.new ≡ rest_of (waiting self.old) }
        ensures kept { limit self.new ≡ limit self.old };

    fn count(&self) -> usize
        ensures { result ≡ length (waiting self.now) };

    // What the waiting messages weigh together.
    fn weight(&self) -> usize
        ensures { result ≡ weigh_all (waiting self.now) };

    fn clear(&mut self)
        ensures after { waiting self.new ≡ [] }
        ensures kept { limit self.new ≡ limit self.old };

    // Whether an offer of this message would be taken.
    fn takes(&self, message: &Message<'_>) -> bool
        ensures { result ≡ is_taken (limit self.now) (weigh_all (waiting self.now)) (content_of message.now) }
    {
        admit(message, self.weight(), self.limit()).is_ok()
    }

    // Makes one call; a refused one changes nothing.
    fn make_call(&mut self, call: LinkCall<'_>)
        ensures after { waiting self.new ≡ after (limit self.old) (change_of call.entry) (waiting self.old) }
        ensures kept { limit self.new ≡ limit self.old }
    {
        match call {
            LinkCall::Offer(message) => {
                let _ = self.offer(message);
            }
            LinkCall::DropFirst => {
                let _ = self.drop_first();
            }
            LinkCall::Clear => self.clear(),
        }
    }

    // Makes calls one after another. Whatever they are, no offer is lost: what was taken is read again, in order.
    fn make_calls(&mut self, calls: &[LinkCall<'_>])
        ensures after { waiting self.new ≡ after_all (limit self.old) (map change_of calls.now) (waiting self.old) }
        ensures lossless { Lossless (limit self.old) (map change_of calls.now) (waiting self.old) (waiting self.new) }
        ensures kept { limit self.new ≡ limit self.old }
    {
        for call in calls {
            self.make_call(*call);
        }
    }
}

use bodies::body::Body;
use bodies::event::{Event, EventKind};
use links::link::{Empty, Link, LinkCall, Untaken};
use links::packed_link::PackedLink;
use links::slot_link::SlotLink;
use messages::message::Message;
use std::array;
use std::process::Abort;
use std::test::Fail;

// Offers records of events, with the numbers from one on, until one finds no space, and answers how many were taken.
fn fill<L: Link>(rt: &impl Abort, link: &mut L) -> Result<u32, Fail> {
    for number in 1..100u32 {
        let event = Event {
            line: 7,
            stamp: number,
            kind: EventKind::Begin,
        };
        let mut body = [0u8; 9];
        event.write(&mut body)?;
        let record = Message::Record {
            number,
            body: &body,
        };
        let taken = link.takes(&record);
        let answer = link.offer(record);
        if !taken {
            assert_eq!(rt; answer, Err(Untaken::NoSpace));
            return Ok(number - 1);
        }
        answer?;
    }
    Err(Fail::new("never full"))
}

// Takes records of events off, with the numbers from one up to another, each with its own event.
fn drain<L: Link>(rt: &impl Abort, link: &mut L, from: u32, to: u32) -> Result<(), Fail> {
    for expected in from..to {
        // By a pattern: no method asks for one case of the enum.
        let Some(Message::Record { number, body }) = link.first() else {
            return Err(Fail::new("no record"));
        };
        assert_eq!(rt; number, expected);
        let event = Event::read(body).ok_or("no event")?;
        assert_eq!(rt; event.stamp, expected);
        link.drop_first()?;
    }
    Ok(())
}

// A link is filled, emptied by half, filled again, emptied, and filled once more and cleared.
fn drive<L: Link>(rt: &impl Abort, link: &mut L, most: u32) -> Result<(), Fail> {
    assert_eq!(rt; fill(rt, link)?, most);
    assert_eq!(rt; link.weight(), most as usize * 17);
    drain(rt, link, 1, 15)?;
    assert_eq!(rt; fill(rt, link)?, 14);
    assert_eq!(rt; link.count(), most as usize);
    drain(rt, link, 15, most.saturating_add(1))?;
    drain(rt, link, 1, 15)?;
    assert_eq!(rt; link.count(), 0);
    assert!(rt; link.first().is_none());
    assert_eq!(rt; link.drop_first(), Err(Empty));
    assert_eq!(rt; fill(rt, link)?, most);
    link.clear();
    assert_eq!(rt; link.weight(), 0);
    assert!(rt; link.first().is_none());
    Ok(())
}

#[test]
fn each_make_is_filled_drained_and_filled_again(rt: HostRuntime) -> Result<(), Fail> {
    let mut packed = PackedLink::new();
    assert_eq!(rt; packed.limit(), 502);
    drive(&rt, &mut packed, 29)?;
    let mut slots = SlotLink::new();
    assert_eq!(rt; slots.limit(), 512);
    drive(&rt, &mut slots, 30)
}

#[test]
fn sixty_four_acks_fill_a_slot_link_and_sixty_two_a_packed_one(rt: HostRuntime) {
    let acks = [LinkCall::Offer(Message::ack(9)); 70];
    let mut slots = SlotLink::new();
    slots.make_calls(&acks);
    assert_eq!(rt; slots.count(), 64);
    let mut packed = PackedLink::new();
    packed.make_calls(&acks);
    assert_eq!(rt; packed.count(), 62);
    let later = [
        LinkCall::DropFirst,
        LinkCall::DropFirst,
        LinkCall::Offer(Message::psync(2)),
    ];
    packed.make_calls(&later);
    assert_eq!(rt; packed.count(), 61);
    let anew = [LinkCall::Clear, LinkCall::Offer(Message::csync(2))];
    packed.make_calls(&anew);
    assert_eq!(rt; packed.bytes(), [4, 0, 0, 2, 0, 0, 0, 0].as_slice());
}

#[test]
fn a_body_over_forty_bytes_is_refused_first(rt: HostRuntime) -> Result<(), Fail> {
    let body = [7u8; 41];
    let long = Message::Result {
        number: 1,
        body: &body,
    };
    let mut packed = PackedLink::new();
    assert_eq!(rt; packed.offer(long), Err(Untaken::LongBody));
    let reverse = Message::reverse();
    for _ in 0..62 {
        packed.offer(reverse)?;
    }
    assert_eq!(rt; packed.offer(long), Err(Untaken::LongBody));
    assert_eq!(rt; packed.offer(reverse), Err(Untaken::NoSpace));
    Ok(())
}

#[test]
fn messages_lie_back_to_back_in_a_packed_link(rt: HostRuntime) -> Result<(), Fail> {
    let mut packed = PackedLink::new();
    packed.offer(Message::Record {
        number: 258,
        body: &[5, 6],
    })?;
    packed.offer(Message::csync(3))?;
    assert_eq!(rt;
        packed.bytes(),
        [1, 2, 0, 0, 0, 0, 1, 2, 5, 6, 4, 0, 0, 3, 0, 0, 0, 0].as_slice()
    );
    packed.drop_first()?;
    assert_eq!(rt; packed.bytes(), [4, 0, 0, 3, 0, 0, 0, 0].as_slice());
    Ok(())
}

// A dozen links in one value.
#[derive(Drop)]
struct Dozen {
    packed: [PackedLink; 6],
    slots: [SlotLink; 6],
}

// Fills each other link, and sees that the next one stays empty.
fn fill_each_other<L: Link>(rt: &impl Abort, links: &mut [L; 6], most: usize) -> Result<(), Fail> {
    for place in [0, 2, 4] {
        fill(rt, &mut links[place])?;
        assert_eq!(rt; links[place].count(), most);
        assert_eq!(rt; links[place + 1].count(), 0);
    }
    Ok(())
}

#[test]
fn links_stand_by_the_dozen(rt: HostRuntime) -> Result<(), Fail> {
    let mut dozen = Dozen {
        packed: array::from_fn(|_| PackedLink::new()),
        slots: array::from_fn(|_| SlotLink::new()),
    };
    fill_each_other(&rt, &mut dozen.packed, 29)?;
    fill_each_other(&rt, &mut dozen.slots, 30)
}

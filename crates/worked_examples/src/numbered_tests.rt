use bodies::body::Body;
use bodies::call::Call;
use bodies::charge::Charge;
use bodies::event::{Event, EventKind};
use numbered::buffer::Uninserted;
use numbered::entry::Entry;
use numbered::numbers::{Numbers, Unadded};
use std::ops::Range;
use std::process::Abort;

fn event(line: u32) -> Event {
    Event {
        line,
        stamp: 7,
        kind: EventKind::End,
    }
}

fn call(line: u32) -> Call {
    Call { line, seconds: 60 }
}

fn charge(line: u32) -> Charge {
    Charge {
        line,
        calls: 1,
        seconds: 60,
    }
}

// Inserts values that are made of their numbers, with the numbers from one up to another.
fn insert_all<B: Body, F: Fn(u32) -> B>(
    rt: &impl Abort,
    table: &mut [u8],
    numbers: &mut Numbers,
    made: Range<u32>,
    value: F,
)
    requires { F.IsAlwaysCallable value }
{
    for n in made {
        assert_eq!(rt; numbers.insert(table, value(n)), Ok(n));
    }
}

// An entry's number, and the value that its body reads as.
fn value<B: Body>(entry: Option<Entry<'_>>) -> Option<(u32, B)> {
    let entry = entry?;
    Some((entry.number, B::read(entry.body)?))
}

#[test]
fn a_buffer_of_4096_bytes_takes_240_events(rt: HostRuntime) {
    let mut table = [0u8; 2160];
    let mut numbers = Numbers::new(4096);
    insert_all(&rt, &mut table, &mut numbers, 1..241, event);
    assert_eq!(rt; numbers.weight::<Event>(), 4080);
    assert!(rt; !numbers.has_space::<Event>());
    assert_eq!(rt;
        numbers.insert(&mut table, event(241)),
        Err(Uninserted::Full)
    );
    for n in 1..4u32 {
        assert_eq!(rt;
            value::<Event>(numbers.evict::<Event>(&table)),
            Some((n, event(n)))
        );
    }
    insert_all(&rt, &mut table, &mut numbers, 241..244, event);
    assert_eq!(rt;
        value::<Event>(numbers.cursor::<Event>(&table, 0)),
        Some((4, event(4)))
    );
    assert_eq!(rt;
        value::<Event>(numbers.cursor::<Event>(&table, 241)),
        Some((241, event(241)))
    );
    assert_eq!(rt;
        value::<Event>(numbers.entry::<Event>(&table, 243)),
        Some((243, event(243)))
    );
    assert!(rt; numbers.entry::<Event>(&table, 3).is_none());
    assert!(rt; numbers.entry::<Event>(&table, 244).is_none());
    assert!(rt; numbers.cursor::<Event>(&table, 244).is_none());
}

// A buffer of 4,096 bytes takes values with the numbers below one, and refuses that.
fn takes_below<B: Body, F: Fn(u32) -> B>(rt: &impl Abort, table: &mut [u8], end: u32, value: F)
    requires { F.IsAlwaysCallable value }
{
    let mut numbers = Numbers::new(4096);
    insert_all(rt, table, &mut numbers, 1..end, &value);
    assert_eq!(rt; numbers.insert(table, value(end)), Err(Uninserted::Full));
}

#[test]
fn a_buffer_of_4096_bytes_takes_256_calls(rt: HostRuntime) {
    takes_below(&rt, &mut [0; 2048], 257, call);
}

#[test]
fn a_buffer_of_4096_bytes_takes_170_charges(rt: HostRuntime) {
    takes_below(&rt, &mut [0; 2720], 171, charge);
}

#[test]
fn a_buffer_of_4096_bytes_takes_512_bare_numbers(rt: HostRuntime) {
    let mut numbers = Numbers::new(4096);
    for n in 1..513u32 {
        assert_eq!(rt; numbers.add_bare(), Ok(n));
    }
    assert_eq!(rt; numbers.add_bare(), Err(Unadded::Full));
}

#[test]
fn calls_up_to_a_number_leave(rt: HostRuntime) {
    let mut table = [0u8; 24];
    let mut numbers = Numbers::new(63);
    assert_eq!(rt; numbers.insert(&mut table, call(1)), Ok(1));
    assert_eq!(rt; numbers.insert(&mut table, call(2)), Ok(2));
    assert_eq!(rt; numbers.insert(&mut table, call(3)), Ok(3));
    assert_eq!(rt; numbers.insert(&mut table, call(4)), Err(Uninserted::Full));
    numbers.evict_through(2);
    numbers.evict_through(1);
    assert_eq!(rt; numbers.insert(&mut table, call(4)), Ok(4));
    assert_eq!(rt; numbers.insert(&mut table, call(5)), Ok(5));
    assert_eq!(rt; numbers.weight::<Call>(), 48);
    for n in 3..6u32 {
        assert_eq!(rt;
            value::<Call>(numbers.evict::<Call>(&table)),
            Some((n, call(n)))
        );
    }
    assert!(rt; numbers.evict::<Call>(&table).is_none());
    numbers.evict_through(9);
    assert_eq!(rt;
        numbers,
        Numbers {
            limit: 63,
            gone: 5,
            last: 5,
        }
    );
}

#[test]
fn charges_are_refused_and_leave_all_as_it_was(rt: HostRuntime) {
    let mut short = [9u8; 31];
    let mut numbers = Numbers::new(48);
    assert_eq!(rt;
        numbers.insert(&mut short, charge(1)),
        Err(Uninserted::ShortTable)
    );
    assert_eq!(rt; numbers, Numbers::new(48));
    assert_eq!(rt; short, [9; 31]);
    let mut small = Numbers::new(23);
    assert_eq!(rt; small.insert(&mut short, charge(1)), Err(Uninserted::Full));
    let mut table = [9u8; 32];
    let mut numbers = Numbers {
        limit: 48,
        gone: 4294967294,
        last: 4294967294,
    };
    assert_eq!(rt; numbers.insert(&mut table, charge(1)), Ok(4294967295));
    assert_eq!(rt;
        numbers.insert(&mut table, charge(2)),
        Err(Uninserted::NoNumber)
    );
    assert!(rt; numbers.evict::<Charge>(&short).is_none());
    assert_eq!(rt;
        value::<Charge>(numbers.evict::<Charge>(&table)),
        Some((4294967295, charge(1)))
    );
    assert_eq!(rt; numbers.add_bare(), Err(Unadded::NoNumber));
}

#[test]
fn bare_numbers_are_used_up_by_values(rt: HostRuntime) {
    let mut table = [0u8; 8];
    let mut numbers = Numbers::new(23);
    assert_eq!(rt; numbers.add_bare(), Ok(1));
    assert_eq!(rt; numbers.add_bare(), Ok(2));
    assert_eq!(rt; numbers.add_bare(), Err(Unadded::Full));
    assert_eq!(rt; numbers.weight::<Call>(), 16);
    assert!(rt; numbers.has_space::<Call>());
    numbers.evict_through(2);
    assert!(rt; numbers.evict::<Call>(&table).is_none());
    assert_eq!(rt; numbers.insert(&mut table, call(1)), Ok(1));
    assert_eq!(rt; numbers.insert(&mut table, call(2)), Ok(2));
    assert_eq!(rt; table, [0; 8]);
    assert_eq!(rt; numbers.insert(&mut table, call(3)), Ok(3));
    assert_eq!(rt; numbers.add_bare(), Err(Unadded::HoldsValues));
    assert_eq!(rt;
        value::<Call>(numbers.cursor::<Call>(&table, 1)),
        Some((3, call(3)))
    );
    numbers.evict_through(3);
    assert_eq!(rt; numbers.add_bare(), Ok(4));
}

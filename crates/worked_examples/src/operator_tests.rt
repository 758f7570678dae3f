use bodies::call::Call;
use bodies::charge::Charge;
use bodies::event::{Event, EventKind};
use line_operators::sessions::Sessions;
use line_operators::totals::Totals;
use operators::operator::{NoState, Operator, restore};
use operators::pipe::Pipe;

fn event(kind: EventKind, line: u32, stamp: u32) -> Event {
    Event { line, stamp, kind }
}

#[test]
fn the_clock_starts_again(rt: HostRuntime) {
    let mut sessions = Sessions::start();
    assert_eq!(rt; sessions.take(event(EventKind::Begin, 7, 4294967290)), None);
    assert_eq!(rt;
        sessions.take(event(EventKind::End, 7, 5)),
        Some(Call {
            line: 7,
            seconds: 11,
        })
    );
    assert_eq!(rt; sessions.take(event(EventKind::End, 7, 6)), None);
    assert_eq!(rt; sessions.take(event(EventKind::Begin, 7, 100)), None);
    assert_eq!(rt;
        sessions.take(event(EventKind::End, 7, 40)),
        Some(Call {
            line: 7,
            seconds: 4294967236,
        })
    );
}

#[test]
fn the_33rd_line_is_dropped(rt: HostRuntime) {
    let mut sessions = Sessions::start();
    for line in 0..33u32 {
        assert_eq!(rt; sessions.take(event(EventKind::Begin, line, 1)), None);
    }
    assert_eq!(rt; sessions.take(event(EventKind::Begin, 31, 5)), None);
    assert_eq!(rt; sessions.take(event(EventKind::End, 32, 9)), None);
    assert_eq!(rt;
        sessions.take(event(EventKind::End, 31, 9)),
        Some(Call {
            line: 31,
            seconds: 4,
        })
    );
    assert_eq!(rt; sessions.state_length(), 249);
}

#[test]
fn a_sessions_state_is_a_count_and_rising_lines(rt: HostRuntime) {
    let good = [2, 0, 0, 0, 7, 0, 0, 0, 1, 0, 0, 0, 9, 0, 0, 0, 2];
    let mut sessions = Sessions::start();
    assert_eq!(rt; restore(&mut sessions, &good), Ok(()));
    let mut out = [5u8; 18];
    assert_eq!(rt; sessions.write_state(&mut out[0..16]), None);
    assert_eq!(rt; out, [5; 18]);
    assert_eq!(rt; sessions.write_state(&mut out), Some(17));
    assert_eq!(rt; &out[0..17], good.as_slice());
    assert_eq!(rt; out[17], 5);
    let bad: [&[u8]; 5] = [
        &[],
        &[1],
        &[0, 0],
        &[2, 0, 0, 0, 7, 0, 0, 0, 1, 0, 0, 0, 7, 0, 0, 0, 2],
        &[2, 0, 0, 0, 9, 0, 0, 0, 1, 0, 0, 0, 7, 0, 0, 0, 2],
    ];
    for bytes in bad {
        assert_eq!(rt; restore(&mut sessions, bytes), Err(NoState));
    }
    assert_eq!(rt; sessions.state_length(), 17);
}

#[test]
fn totals_stop_at_the_largest_and_hold_no_line_without_calls(rt: HostRuntime) {
    let mut totals = Totals::start();
    let full = [
        1, 0, 0, 0, 7, 255, 255, 255, 255, 255, 255, 255, 255, 255, 255, 255, 254,
    ];
    assert_eq!(rt; restore(&mut totals, &full), Ok(()));
    assert_eq!(rt;
        totals.take(Call {
            line: 7,
            seconds: 9,
        }),
        Some(Charge {
            line: 7,
            calls: 4294967295,
            seconds: 18446744073709551615,
        })
    );
    let none = [1, 0, 0, 0, 7, 0, 0, 0, 0, 0, 0, 0, 0, 0, 0, 0, 0];
    assert_eq!(rt; restore(&mut totals, &none), Err(NoState));
}

#[test]
fn the_65th_line_gives_no_charge(rt: HostRuntime) {
    let mut totals = Totals::start();
    for line in 0..64u32 {
        assert!(rt; totals.take(Call { line, seconds: 1 }).is_some());
    }
    assert_eq!(rt;
        totals.take(Call {
            line: 64,
            seconds: 1,
        }),
        None
    );
    assert!(rt;
        totals
            .take(Call {
                line: 63,
                seconds: 1,
            })
            .is_some()
    );
}

#[test]
fn a_pipe_writes_both_states(rt: HostRuntime) {
    let mut pipe = Pipe::<Sessions, Totals>::start();
    assert_eq!(rt; pipe.take(event(EventKind::Begin, 7, 100)), None);
    assert_eq!(rt;
        pipe.take(event(EventKind::End, 7, 160)),
        Some(Charge {
            line: 7,
            calls: 1,
            seconds: 60,
        })
    );
    let mut out = [9u8; 22];
    assert_eq!(rt; pipe.write_state(&mut out[0..21]), None);
    assert_eq!(rt; out, [9; 22]);
    assert_eq!(rt; pipe.write_state(&mut out), Some(22));
    assert_eq!(rt;
        out,
        [
            0, 0, 0, 1, 0, 1, 0, 0, 0, 7, 0, 0, 0, 1, 0, 0, 0, 0, 0, 0, 0, 60,
        ]
    );
    assert_eq!(rt; restore(&mut pipe, &out), Ok(()));
    out[3] = 2;
    assert_eq!(rt; restore(&mut pipe, &out), Err(NoState));
    out[3] = 200;
    assert_eq!(rt; restore(&mut pipe, &out), Err(NoState));
    assert_eq!(rt; Pipe::<Sessions, Totals>::longest(), 1286);
}

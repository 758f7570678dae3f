use bodies::body::{Body, WrongLength};
use bodies::call::Call;
use bodies::charge::Charge;
use bodies::event::{Event, EventKind};
use std::test::Fail;

#[test]
fn an_event_is_nine_bytes_and_its_kind_is_1_or_2(rt: HostRuntime) -> Result<(), Fail> {
    let begin = Event {
        line: 7,
        stamp: 256,
        kind: EventKind::Begin,
    };
    let mut bytes = [0u8; 9];
    begin.write(&mut bytes)?;
    assert_eq!(rt; bytes, [0, 0, 0, 7, 0, 0, 1, 0, 1]);
    assert_eq!(rt; Event::read(&bytes), Some(begin));
    for kind in 0..4u8 {
        let read = Event::read(&[0, 0, 0, 7, 0, 0, 1, 0, kind]);
        assert_eq!(rt; read.is_some(), kind == 1 || kind == 2);
    }
    assert_eq!(rt; begin.write(&mut [0; 8]), Err(WrongLength));
    assert_eq!(rt; Event::read(&[0; 8]), None);
    assert_eq!(rt; Event::read(&[0; 10]), None);
    Ok(())
}

#[test]
fn a_wrong_length_is_refused_and_leaves_the_bytes(rt: HostRuntime) {
    let call = Call {
        line: 7,
        seconds: 60,
    };
    let mut short = [9u8; 7];
    let mut long = [9u8; 9];
    assert_eq!(rt; call.write(&mut short), Err(WrongLength));
    assert_eq!(rt; call.write(&mut long), Err(WrongLength));
    assert_eq!(rt; short, [9; 7]);
    assert_eq!(rt; long, [9; 9]);
    assert_eq!(rt; Call::read(&short), None);
    assert_eq!(rt; Call::read(&long), None);
}

#[test]
fn a_charge_reads_back_as_itself(rt: HostRuntime) -> Result<(), Fail> {
    let charge = Charge {
        line: 7,
        calls: 2,
        seconds: 0x0102_0304_0506_0708,
    };
    let mut bytes = [0u8; 16];
    charge.write(&mut bytes)?;
    assert_eq!(rt; bytes, [0, 0, 0, 7, 0, 0, 0, 2, 1, 2, 3, 4, 5, 6, 7, 8]);
    assert_eq!(rt; Charge::read(&bytes), Some(charge));
    assert_eq!(rt; charge.write(&mut [0; 17]), Err(WrongLength));
    assert_eq!(rt; Charge::read(&bytes[0..15]), None);
    Ok(())
}

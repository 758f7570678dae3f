use messages::message::{Message, Unwritten};
use std::test::Fail;

#[test]
fn a_message_is_its_header_and_its_body(rt: HostRuntime) -> Result<(), Fail> {
    let record = Message::Record {
        number: 258,
        body: &[5, 6],
    };
    let mut bytes = [0u8; 10];
    record.write(&mut bytes)?;
    assert_eq!(rt; bytes, [1, 2, 0, 0, 0, 0, 1, 2, 5, 6]);
    assert_eq!(rt; Message::read(&bytes), Some(record));
    assert_eq!(rt; record.weight(), 10);
    Ok(())
}

#[test]
fn a_body_has_at_most_forty_bytes(rt: HostRuntime) {
    let body = [7u8; 41];
    let mut bytes = [0u8; 49];
    let long = Message::Result {
        number: 1,
        body: &body,
    };
    assert_eq!(rt; long.write(&mut bytes), Err(Unwritten::LongBody));
    let most = Message::Result {
        number: 1,
        body: &body[0..40],
    };
    assert_eq!(rt; most.write(&mut bytes), Err(Unwritten::WrongLength));
    assert_eq!(rt; bytes, [0; 49]);
    assert!(rt; most.write(&mut bytes[0..48]).is_ok());
    assert!(rt; Message::read(&bytes[0..48]).is_some());
}

#[test]
fn fields_that_do_not_fit_are_no_message(rt: HostRuntime) {
    let good: [&[u8]; 6] = [
        &[1, 1, 0, 0, 0, 0, 0, 9, 7],
        &[2, 0, 0, 0, 0, 0, 0, 9],
        &[3, 0, 0, 0, 0, 0, 0, 9],
        &[4, 0, 1, 2, 0, 0, 0, 0],
        &[5, 0, 1, 2, 0, 0, 0, 0],
        &[6, 0, 0, 0, 0, 0, 0, 0],
    ];
    for bytes in good {
        assert!(rt; Message::read(bytes).is_some());
    }
    let bad: [&[u8]; 10] = [
        &[0, 0, 0, 0, 0, 0, 0, 0],
        &[7, 0, 0, 0, 0, 0, 0, 0],
        &[1, 1, 0, 1, 0, 0, 0, 9, 7],
        &[1, 2, 0, 0, 0, 0, 0, 9, 7],
        &[1, 0, 0, 0, 0, 0, 0, 9, 7],
        &[3, 1, 0, 0, 0, 0, 0, 9, 7],
        &[4, 0, 1, 2, 0, 0, 0, 9],
        &[6, 0, 0, 1, 0, 0, 0, 0],
        &[6, 0, 0, 0, 0, 0, 0, 1],
        &[6, 0, 0, 0, 0, 0, 0],
    ];
    for bytes in bad {
        assert!(rt; Message::read(bytes).is_none());
    }
}

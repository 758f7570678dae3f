use script::{Order, read_command, read_number, read_order, split_line};
use std::process::Abort;
use std::test::Fail;

fn cuts(rt: &impl Abort, text: &[u8], first: &[u8], after: &[u8]) -> Result<(), Fail> {
    let (line, rest) = split_line(text).ok_or("no line")?;
    assert_eq!(rt; line, first);
    assert_eq!(rt; rest, after);
    Ok(())
}

#[test]
fn cuts_lines(rt: HostRuntime) -> Result<(), Fail> {
    assert!(rt; split_line(b"").is_none());
    cuts(&rt, b"a", b"a", b"")?;
    cuts(&rt, b"a\n", b"a", b"")?;
    cuts(&rt, b"a\nb", b"a", b"b")?;
    cuts(&rt, b"\n", b"", b"")
}

#[test]
fn gives_orders(rt: HostRuntime) -> Result<(), Fail> {
    assert_eq!(rt;
        read_order(b"b 7 1"),
        Some(Order::Begin { line: 7, stamp: 1 })
    );
    assert_eq!(rt;
        read_order(b"e 7 2"),
        Some(Order::End { line: 7, stamp: 2 })
    );
    assert_eq!(rt; read_order(b"t"), Some(Order::Turn));
    assert_eq!(rt; read_order(b"f 0"), Some(Order::Fail { side: 0 }));
    assert_eq!(rt; read_order(b"v 1"), Some(Order::Avail { side: 1 }));
    Ok(())
}

#[test]
fn refuses_lines(rt: HostRuntime) {
    let lines: [&[u8]; 8] = [
        b"", b"b  7 1", b" t", b"t ", b"b 7 1 ", b"b 7", b"b 7 1 2", b"bb 1 2",
    ];
    for line in lines {
        assert!(rt; read_command(line).is_none());
    }
    assert!(rt; read_command(b"f x").is_some());
    assert!(rt; read_order(b"f x").is_none());
}

#[test]
fn reads_numbers(rt: HostRuntime) {
    assert_eq!(rt; read_number(b"4294967295"), Some(4294967295));
    assert_eq!(rt; read_number(b"4294967296"), None);
    assert_eq!(rt; read_number(b"0000000000007"), Some(7));
    assert_eq!(rt; read_number(b""), None);
    assert_eq!(rt; read_number(b"1a"), None);
}

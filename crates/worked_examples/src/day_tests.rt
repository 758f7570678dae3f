use day::bill::bill_day;
use day::unbilled::Unbilled;
use std::alloc::Global;
use std::test::Fail;

fn bad_line(heap: Global, script: &[u8]) -> Result<Option<usize>, Fail> {
    let bill = bill_day(heap, script)?;
    Ok(bill.bad)
}

#[test]
fn a_day_ends_at_the_first_bad_line(rt: HostRuntime) -> Result<(), Fail> {
    let heap = rt.alloc();
    assert_eq!(rt; bad_line(heap, b"")?, None);
    assert_eq!(rt; bad_line(heap, b"b 7 1\ne 7 2")?, None);
    assert_eq!(rt; bad_line(heap, b"b 7 1\nt\n")?, Some(2));
    assert_eq!(rt; bad_line(heap, b"f 0\n")?, Some(1));
    assert_eq!(rt; bad_line(heap, b"b 7 1\n\n")?, Some(2));
    assert_eq!(rt;
        bad_line(heap, b"b 7 4294967295\nb 7 4294967296\n")?,
        Some(2)
    );
    Ok(())
}

#[test]
fn a_bill_ends_with_its_total_or_its_bad_line(rt: HostRuntime) -> Result<(), Fail> {
    let heap = rt.alloc();
    let whole = bill_day(heap, b"b 7 100\ne 7 160\nb 8 1\n")?;
    let last = whole.ending();
    let text = format!(in heap; "{last}")?;
    assert_eq!(rt; text.as_str(), "total 1 60");
    let broken = bill_day(heap, b"b 7 100\nt\n")?;
    let last = broken.ending();
    let text = format!(in heap; "{last}")?;
    assert_eq!(rt; text.as_str(), "bad 2");
    Ok(())
}

#[test]
fn a_script_past_the_limit_is_refused(rt: HostRuntime) -> Result<(), Fail> {
    let heap = rt.alloc();
    let script = vec![in heap; b'\n'; 65537]?;
    let refused = bill_day(heap, script.as_slice());
    assert!(rt; matches!(refused, Err(Unbilled::TooLong)));
    assert!(rt; script.len() == 65537);
    assert_eq!(rt; bad_line(heap, &script[0..65536])?, Some(1));
    Ok(())
}

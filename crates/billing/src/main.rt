#![tactic(auto)]

use day::bill::{Bill, bill_day};
use day::unbilled::LONGEST_SCRIPT;
use std::io::Read;
use std::process::ExitCode;

// Reads a script, or one byte past the longest, by which a longer one is known.
fn read_script(rt: &HostRuntime) -> anyhow::Result<Vec<u8>> {
    let mut script = Vec::new(rt.alloc());
    rt.stdin()
        .take(LONGEST_SCRIPT as u64 + 1)
        .read_to_end(&mut script)?;
    Ok(script)
}

fn print_bill(rt: &HostRuntime, bill: &Bill) -> anyhow::Result<()> {
    for entry in bill.entries.iter() {
        println!(rt; "{entry}")?;
    }
    let ending = bill.ending();
    println!(rt; "{ending}")?;
    Ok(())
}

fn run(rt: &HostRuntime) -> anyhow::Result<()> {
    let script = read_script(rt)?;
    let bill = bill_day(rt.alloc(), script.as_slice())?;
    print_bill(rt, &bill)
}

fn main(rt: HostRuntime) -> anyhow::Result<ExitCode> {
    if let Err(e) = run(&rt) {
        eprintln!(rt; "billing: {e}")?;
        return Ok(ExitCode::FAILURE);
    }
    Ok(ExitCode::SUCCESS)
}

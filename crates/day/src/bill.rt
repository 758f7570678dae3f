ghost use Rattle.std.specs.Prelude.{◌≡◌, ◌++◌, length, IfOk, MatchResult, OnOk};
ghost use Rattle.operators.specs.Operators.{listed};
ghost use Rattle.day.specs.Bills.{Billed, shown};
ghost use Rattle.day.specs.Endings.{Ends};
ghost use Rattle.day.specs.Sums.{Totalled};
ghost use Rattle.day.specs.Days.{DayBilled, Refused};

use super::ending::{Ending, Total};
use super::entry::Entry;
use super::event_line::read_event;
use super::unbilled::{LONGEST_SCRIPT, Unbilled};
use bodies::call::Call;
use bodies::charge::Charge;
use bodies::event::Event;
use line_operators::sessions::Sessions;
use line_operators::totals::Totals;
use operators::operator::Operator;
use operators::pipe::Pipe;
use script::Lines;
use std::alloc::{AllocError, Global};

// What was billed, and the number of the first bad line, where the day ended early.
#[derive(Drop)]
pub struct Bill {
    pub entries: Vec<Entry>,
    pub bad: Option<usize>,
}

impl Bill {
    // All calls of the bill, and their seconds together.
    pub fn total(&self) -> Total
        ensures { Totalled self.now.entries.items result.calls result.seconds }
    {
        let mut calls = 0;
        let mut seconds = 0u64;
        for entry in &self.entries {
            if let Some(call) = entry.call() {
                calls += 1;
                seconds = seconds.saturating_add(u64::from(call.seconds));
            }
        }
        Total { calls, seconds }
    }

    // The bill's last line.
    pub fn ending(&self) -> Ending
        ensures { Ends self.now.entries.items self.now.bad result }
    {
        match self.bad {
            Some(line) => Ending::Bad { line },
            None => Ending::Total(self.total()),
        }
    }
}

// Adds the entries of one event.
fn note(
    entries: &mut Vec<Entry>,
    call: Option<Call>,
    charge: Option<Charge>,
) -> Result<(), AllocError>
    ensures { OnOk result (entries.new.items ≡ entries.old.items ++ shown (listed call) (listed charge)) }
{
    entries.extend(call.map(Entry::Call))?;
    entries.extend(charge.map(Entry::Charge))
}

// The bill of a day's script, by the operators that turn its events into calls and its calls into charges.
pub fn bill_by<F: Operator<In = Event, Out = Call>, S: Operator<In = Call, Out = Charge>>(
    heap: Global,
    text: &[u8],
) -> Result<Bill, AllocError>
    ensures { IfOk result (λ b. Billed F.Operator.next F.Operator.gives S.Operator.next S.Operator.gives F.Operator.first S.Operator.first text.now b.entries.items b.bad) }
{
    let mut pipe = Pipe::<F, S>::start();
    let mut entries = Vec::new(heap);
    for (number, line) in (1..).zip(Lines::new(text)) {
        let Some(event) = read_event(line) else {
            return Ok(Bill {
                entries,
                bad: Some(number),
            });
        };
        let (call, charge) = pipe.take_through(event);
        note(&mut entries, call, charge)?;
    }
    Ok(Bill { entries, bad: None })
}

// The bill of a day's script, by Sessions and Totals. A script that is too long is not read at all.
pub fn bill_day(heap: Global, text: &[u8]) -> Result<Bill, Unbilled>
    ensures { MatchResult result (λ b. DayBilled text.now b.entries.items b.bad) (λ f. Refused (length text.now) f) }
{
    if text.len() > LONGEST_SCRIPT {
        return Err(Unbilled::TooLong);
    }
    Ok(bill_by::<Sessions, Totals>(heap, text)?)
}

ghost use Rattle.std.specs.Prelude.{◌≡◌};
ghost use Rattle.line_operators.specs.Tables.{table_of};
ghost use Rattle.line_operators.specs.Totals.{Charges, charge_line, billed, raised, none_charged, totals_next, totals_gives, totals_written, totals_laws};

use super::table::Table;
use bodies::call::Call;
use bodies::charge::Charge;
use operators::operator::Operator;

// Turns calls into charges, by the charges so far of at most 64 lines.
#[derive(Drop)]
pub struct Totals {
    table: Table<Charge, 64>,
}

// A line's charge with a call more.
fn raise(charge: Option<Charge>, call: Call) -> Charge
    ensures { result ≡ raised charge call.line call.seconds }
{
    let Charge { calls, seconds, .. } = charge.unwrap_or_default();
    Charge {
        line: call.line,
        calls: calls.saturating_add(1),
        seconds: seconds.saturating_add(u64::from(call.seconds)),
    }
}

// Four of its functions hand a call on to the table; Sessions tells why.
impl Operator for Totals {
    type In = Call;

    type Out = Charge;

    ghost State = { Charges };

    ghost state = { λ s. table_of charge_line billed 64 s.table.rows.items s.table.few s.table.ordered };

    ghost first = { none_charged };

    ghost next = { totals_next };

    ghost gives = { totals_gives };

    ghost written = { totals_written };

    ghost longest = { 1025 };

    ghost laws = { totals_laws };

    fn longest() -> u32 {
        1025
    }

    fn start() -> Totals {
        Totals {
            table: Table::new(),
        }
    }

    fn take(&mut self, value: Call) -> Option<Charge> {
        let charge = raise(self.table.find(value.line), value);
        self.table.put(charge).ok()?;
        Some(charge)
    }

    fn state_length(&self) -> usize {
        self.table.length()
    }

    fn write_state(&self, out: &mut [u8]) -> Option<usize> {
        self.table.write(out)
    }

    fn read_state(from: &[u8]) -> Option<Totals> {
        let table = Table::read(from)?;
        Some(Totals { table })
    }
}

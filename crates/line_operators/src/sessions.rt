ghost use Rattle.std.specs.Prelude.{◌≡◌};
ghost use Rattle.operators.specs.Operators.{listed};
ghost use Rattle.line_operators.specs.Rows.{found, put_in, without};
ghost use Rattle.line_operators.specs.Tables.{table_of};
ghost use Rattle.line_operators.specs.Sessions.{Opens, open_line, any_open, call_of, seconds_between, SecondsShown, none_open, sessions_next, sessions_gives, sessions_written, sessions_laws};

use super::open::Open;
use super::table::Table;
use bodies::call::Call;
use bodies::event::{Event, EventKind};
use operators::operator::Operator;

// Turns events into calls, by the begins of at most 32 open lines.
#[derive(Drop)]
pub struct Sessions {
    table: Table<Open, 32>,
}

// The seconds from a begin to an end, on a clock that starts again at 4,294,967,296.
pub fn seconds_between(begin: u32, end: u32) -> u32
    ensures is { result ≡ seconds_between begin end }
    ensures shown { SecondsShown }
{
    end.wrapping_sub(begin)
}

impl Sessions {
    fn begin(&mut self, line: u32, stamp: u32)
        ensures { self.new.table.rows.items ≡ put_in open_line 32 (record { line = line; stamp = stamp }) self.old.table.rows.items }
    {
        // A new line is dropped where every place is taken.
        let _ = self.table.put(Open { line, stamp });
    }

    fn end(&mut self, line: u32, stamp: u32) -> Option<Call>
        ensures after { self.new.table.rows.items ≡ without open_line line self.old.table.rows.items }
        ensures given { listed result ≡ call_of line stamp (found open_line line self.old.table.rows.items) }
    {
        let open = self.table.remove(line)?;
        Some(Call {
            line,
            seconds: seconds_between(open.stamp, stamp),
        })
    }
}

// Four of its functions hand a call on to the table, as those of Totals do; one operator over any table would stand on a trait of what a
// value does to its rows, with as many members.
impl Operator for Sessions {
    type In = Event;

    type Out = Call;

    ghost State = { Opens };

    ghost state = { λ s. table_of open_line any_open 32 s.table.rows.items s.table.few s.table.ordered };

    ghost first = { none_open };

    ghost next = { sessions_next };

    ghost gives = { sessions_gives };

    ghost written = { sessions_written };

    ghost longest = { 257 };

    ghost laws = { sessions_laws };

    fn longest() -> u32 {
        257
    }

    fn start() -> Sessions {
        Sessions {
            table: Table::new(),
        }
    }

    fn take(&mut self, value: Event) -> Option<Call> {
        match value.kind {
            EventKind::Begin => {
                self.begin(value.line, value.stamp);
                None
            }
            EventKind::End => self.end(value.line, value.stamp),
        }
    }

    fn state_length(&self) -> usize {
        self.table.length()
    }

    fn write_state(&self, out: &mut [u8]) -> Option<usize> {
        self.table.write(out)
    }

    fn read_state(from: &[u8]) -> Option<Sessions> {
        let table = Table::read(from)?;
        Some(Sessions { table })
    }
}

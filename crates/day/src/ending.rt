ghost use Rattle.std.specs.Prelude.{Some};
ghost use Rattle.day.specs.Texts.{ending_text};

use std::fmt;
use std::fmt::Display;

// All calls of a bill, and their seconds together, which stop at their largest value.
#[derive(Clone, Copy, PartialEq, Debug)]
pub struct Total {
    pub calls: usize,
    pub seconds: u64,
}

// What a bill says last: its total, or the number of the line at which the day ended early.
#[derive(Clone, Copy, PartialEq, Debug)]
pub enum Ending {
    Total(Total),
    Bad { line: usize },
}

impl Display for Ending {
    ghost output = { λ e. Some (ending_text e) };

    fn fmt<W: fmt::Write>(&self, f: &mut fmt::Formatter<W>) -> fmt::Result {
        match self {
            Ending::Total(Total { calls, seconds }) => write!(f, "total {calls} {seconds}"),
            Ending::Bad { line } => write!(f, "bad {line}"),
        }
    }
}

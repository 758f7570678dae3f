ghost use Rattle.std.specs.Prelude.{◌≡◌, Some};
ghost use Rattle.day.specs.Sums.{call_in};
ghost use Rattle.day.specs.Texts.{entry_text};

use bodies::call::Call;
use bodies::charge::Charge;
use std::fmt;
use std::fmt::Display;

// What a bill says in one line.
#[derive(Clone, Copy, PartialEq, Debug)]
pub enum Entry {
    Call(Call),
    Charge(Charge),
}

impl Entry {
    // The call, where the entry shows one.
    pub fn call(&self) -> Option<Call>
        ensures { result ≡ call_in self.now }
    {
        match self {
            Entry::Call(call) => Some(*call),
            Entry::Charge(_) => None,
        }
    }
}

impl Display for Entry {
    ghost output = { λ e. Some (entry_text e) };

    fn fmt<W: fmt::Write>(&self, f: &mut fmt::Formatter<W>) -> fmt::Result {
        match self {
            Entry::Call(Call { line, seconds }) => write!(f, "call {line} {seconds}"),
            Entry::Charge(
                Charge {
                    line,
                    calls,
                    seconds,
                },
            ) => write!(f, "charge {line} {calls} {seconds}"),
        }
    }
}

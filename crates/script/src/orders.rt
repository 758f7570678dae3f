ghost use Rattle.std.specs.Prelude.{◌≡◌};
ghost use Rattle.script.specs.Commands.{letter, arguments};
ghost use Rattle.script.specs.Orders.{order_by, order_of, OrdersRight};
ghost use Rattle.script.specs.Words.{WordsRight};

use crate::commands::{Command, read_command};
use crate::numbers::read_number;

// A command with its words read as numbers.
pub type Order = Command<u32>;

impl Command<&[u8]> {
    // The order, where each word is a number.
    pub fn order(&self) -> Option<Order>
        ensures { result ≡ order_by (letter self.now) (arguments self.now) }
    {
        let order = match self {
            Command::Begin { line, stamp } => Order::Begin {
                line: read_number(line)?,
                stamp: read_number(stamp)?,
            },
            Command::End { line, stamp } => Order::End {
                line: read_number(line)?,
                stamp: read_number(stamp)?,
            },
            Command::Turn => Order::Turn,
            Command::Fail { side } => Order::Fail {
                side: read_number(side)?,
            },
            Command::Avail { side } => Order::Avail {
                side: read_number(side)?,
            },
        };
        Some(order)
    }
}

// The order that a line gives, if it gives one.
pub fn read_order(line: &[u8]) -> Option<Order>
    ensures order { result ≡ order_of line.now }
    ensures said { OrdersRight }
    ensures words { WordsRight }
{
    read_command(line)?.order()
}

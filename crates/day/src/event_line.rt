ghost use Rattle.std.specs.Prelude.{◌≡◌};
ghost use Rattle.day.specs.Events.{event_of};

use bodies::event::{Event, EventKind};
use script::{Order, read_order};

// The event that a line of a day's script gives: a begin or an end, and nothing else.
pub fn read_event(line: &[u8]) -> Option<Event>
    ensures { result ≡ event_of line.now }
{
    let (line, stamp, kind) = match read_order(line)? {
        Order::Begin { line, stamp } => (line, stamp, EventKind::Begin),
        Order::End { line, stamp } => (line, stamp, EventKind::End),
        _ => return None,
    };
    Some(Event { line, stamp, kind })
}

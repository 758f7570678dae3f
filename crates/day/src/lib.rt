// A day of calls: from a script of begins and ends to a bill.
#![tactic(auto)]

pub mod bill;
pub mod ending;
pub mod entry;
pub mod event_line;
pub mod unbilled;

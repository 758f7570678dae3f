// Operators that keep a row a line: Sessions and Totals, and their table.
#![tactic(auto)]

mod charge_row;
pub mod laws;
mod open;
pub mod sessions;
mod table;
pub mod totals;

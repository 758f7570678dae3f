// The numbered buffer: entries with consecutive numbers, in a table of bytes that the caller lends.
#![tactic(auto)]

pub mod buffer;
pub mod entry;
pub mod laws;
pub mod numbers;

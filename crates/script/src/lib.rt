// Scripts for the bench: a text is cut into lines, a line is read as a command with its words, and the words as numbers.
#![tactic(auto)]

mod bytes;
pub mod commands;
pub mod lines;
pub mod numbers;
pub mod orders;
mod words;

pub use commands::{Command, read_command};
pub use lines::{Lines, split_line};
pub use numbers::read_number;
pub use orders::{Order, read_order};

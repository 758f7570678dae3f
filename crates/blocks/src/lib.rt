// The block of 512 bytes, of which the image of a unit is made: its check, its test and its writing.
#![tactic(auto)]

pub mod block;
pub mod block_test;
pub mod check;
pub mod fault;

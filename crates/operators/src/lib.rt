// What an operator is, and one operator after another.
#![tactic(auto)]

pub mod operator;
pub mod pipe;

// The body kinds, numbers in bytes, and weights.
#![tactic(auto)]

pub mod body;
pub mod call;
pub mod charge;
pub mod code;
pub mod event;
pub mod numbers;
pub mod weight;

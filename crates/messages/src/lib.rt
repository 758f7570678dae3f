// What the units tell each other, in bytes.
#![tactic(auto)]

mod kind;
pub mod message;

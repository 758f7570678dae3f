// The image that a spare unit is filled from: a unit's counts, its operator's state and its held results, in 1 to 15 blocks.
#![tactic(auto)]

pub mod complete;
pub mod counts;
pub mod fault;
pub mod install;
pub mod read;
pub mod restore;
pub mod take;
pub mod write;

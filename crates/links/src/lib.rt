// Links: messages on their way from one unit to another, in order, up to a weight.
#![tactic(auto)]

pub mod link;
pub mod packed_link;
mod packing;
mod padded;
mod ring;
pub mod slot_link;

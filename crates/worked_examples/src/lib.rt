// Worked examples of the crates below: values of each kind, and edges of the refusals.
#![tactic(auto)]

#[cfg(test)]
mod block_tests;
#[cfg(test)]
mod bodies_tests;
#[cfg(test)]
mod day_tests;
#[cfg(test)]
mod image_tests;
#[cfg(test)]
mod link_tests;
#[cfg(test)]
mod message_tests;
#[cfg(test)]
mod numbered_tests;
#[cfg(test)]
mod operator_tests;
#[cfg(test)]
mod script_tests;

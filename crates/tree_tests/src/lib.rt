//! Tests of nodes from outside, meters, and what tests and benchmarks of trees look at before they ask for a change.
#![tactic(auto)]

#[cfg(test)]
mod nodes;
pub mod ready;

//! Tests of tables and of what stands on them from outside, of what no script shows. `bench/refused.txt` has a script for each kind of request, with
//! each request for memory refused in turn.
#![tactic(auto)]

#[cfg(test)]
mod history;
#[cfg(test)]
mod parents;
#[cfg(test)]
mod reached;
#[cfg(test)]
mod starts;
#[cfg(test)]
mod tables;
#[cfg(test)]
mod takings;

//! Tests of `script` and `runner` from outside.
#![tactic(auto)]

#[cfg(test)]
mod ahead;
#[cfg(test)]
mod beside;
#[cfg(test)]
mod faults;
#[cfg(test)]
mod lines;
#[cfg(test)]
mod pools;
#[cfg(test)]
mod rig;
#[cfg(test)]
mod words;

//! Dead lists: the blocks that a dataset no longer has and the dataset before it still has, in segments by birth.
#![tactic(auto)]

pub mod deadlist;
pub mod iter;
mod merge;
mod parts;
mod pile;
mod run;
mod sums;

//! Versions of a dataset's tree of blocks, which share nodes.
#![tactic(auto)]

mod ahead;
mod block;
mod build;
mod copy;
pub mod objset;
mod reading;
mod renew;
mod same;
mod subtree;
mod telling;
mod tree;

pub use batch::{Draft, Forecast, NewBlock, Update};
pub use block::{Block, Root};
pub use node::Cell;
pub use subtree::Subtree;
pub use tree::{Tree, take_all};

//! Laws that hold of every run of a pool, and what a host may conclude from a pool's replies.
//!
//! Its functions have no bodies: their contracts are the laws.
#![tactic(auto)]

pub mod records;
mod runs;
mod sending;
mod snapping;

pub use runs::{lineage_laws, run_laws};
pub use sending::answered_send_laws;
pub use snapping::kept_snapshot_laws;

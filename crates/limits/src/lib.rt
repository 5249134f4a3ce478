//! The limits of file systems: which one a world breaks, what each file system uses, and what is available to it, from counts that are kept for
//! each file system (zfsprops(7): quota, refquota, reservation, refreservation, used, available).
//!
//! Nothing here visits a block. Lemmas say how the definitions of sums are computed from dead lists, along lineages, up the hierarchy and where
//! no limit is set, and which changes keep the limits.
#![tactic(auto)]

mod account;
mod change;
mod charging;
mod ledger;
mod line;
mod near;
pub mod outlook;
mod place;
mod pool_space;
mod recount;

pub use crate::account::{Account, account_of, used_by_refreservation};
pub use crate::ledger::Ledger;
pub use crate::line::Line;
pub use crate::pool_space::Space;

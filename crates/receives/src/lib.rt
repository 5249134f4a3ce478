//! The datasets before, in and after a receive.
//!
//! A receive begins with the file system that is there, which may first go back or be emptied, or with a new one, which may be a clone. The
//! records are one batch of changes of the live map. The live map is then kept as a snapshot with the sender's guid (zfs-receive(8)).
#![tactic(auto)]

mod after;
mod before;
mod going;
mod refused;
mod sources;
mod updates;

pub use crate::after::finish;
pub use crate::before::begin;
pub use crate::updates::updates_of;

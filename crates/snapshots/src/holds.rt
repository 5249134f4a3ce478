//! The tags of a snapshot (zfs-hold(8)).

mod list;

pub use list::{Holds, TAG_LIMIT};

//! Snapshots, as a file system keeps them.
#![tactic(auto)]

pub mod bookmarks;
mod by_name;
mod head;
pub mod holds;
mod kept;
mod parts;
mod snapshot;
mod snapshot_list;

pub use by_name::ByName;
pub use kept::Kept;
pub use snapshot::Snapshot;
pub use snapshot_list::SnapshotList;

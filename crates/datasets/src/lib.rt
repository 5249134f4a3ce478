//! The dataset table: the file systems of a pool and their snapshots, in the group that is open.
#![tactic(auto)]

mod clones;
mod file_systems;
mod parent;
mod place;
mod promote;
mod rename;
mod row;
mod table;

pub use clones::CloneName;
pub use file_system::{Alone, FileSystem, Snapshot};
pub use parent::parent_of;
pub use rename::is_in_family;
pub use table::{FILE_SYSTEM_LIMIT, LAST_GROUP, SNAPSHOT_LIMIT, Table};

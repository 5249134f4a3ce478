//! Clones of snapshots, their promotes, and renames.
//!
//! A clone is a file system whose first map is that of a snapshot, its origin (zfs-clone(8)). A promote reverses the dependency: the clone gets
//! its origin and the older snapshots, and the file system that had them becomes its clone (zfs-promote(8)).

mod clone;
mod promotion;
mod renaming;

pub use crate::clones::clone::clone_snapshot;
pub use crate::clones::promotion::promote;
pub use crate::clones::renaming::rename;

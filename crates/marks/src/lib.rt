//! Holds of snapshots, bookmarks of them, and their renames.
//!
//! A hold keeps a snapshot by a tag, and a release takes the tag away (zfs-hold(8), zfs-release(8), zfs-holds(8)). A bookmark keeps the guid and
//! the creation group of a snapshot (zfs-bookmark(8)). Each changes the table, a release also what it has to free, and at `Err` both are as they
//! were.
#![tactic(auto)]

mod bookmarking;
mod holding;
mod place;
mod releasing;
mod renaming;
mod tags;

pub use bookmarking::bookmark;
pub use holding::hold;
pub use releasing::release;
pub use renaming::rename_snapshot;
pub use tags::tags_of;

//! Lookups by name among the datasets of a pool: trees, names in lists, and the values of properties (zfs-list(8), zfs-get(8), zfsprops(7)).
//!
//! A send is a lookup too: where it may start, the records that it has, and the bytes of its stream (zfs-send(8)).
#![tactic(auto)]

mod bytes;
mod names;
pub mod sources;
pub mod space;
mod trees;
mod values;
mod walk;

pub use crate::bytes::stream_bytes;
pub use crate::names::{member_text, names_of};
pub use crate::trees::{bookmark_named, live_name, tree_named};
pub use crate::values::{in_bytes, value_named};
pub use crate::walk::records;

//! Where a send of a snapshot may start: at an older snapshot of its lineage, or at a bookmark of its file system (zfs-send(8), -i).
//!
//! Nothing here visits a block: names are looked up, and the lineage of a snapshot is followed from file system to file system.

mod lineage;
mod list;
mod shown;
mod source;
mod start;

pub use crate::sources::list::sources_of;
pub use crate::sources::shown::start_in;
pub use crate::sources::start::{Start, start_of};

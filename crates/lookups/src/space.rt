//! The space that file systems and snapshots use, what a dataset has written since a snapshot, and what the destroy of a range of
//! snapshots would free (zfsprops(7): used, usedbychildren, written@snapshot; zfs-destroy(8), -nv).
//!
//! Nothing here visits a block: the counts come from those that file systems keep, and from the segments of dead lists.

mod family;
mod place;
mod range;
mod since;
mod snapshot;

pub use crate::space::family::{used, used_by_children};
pub use crate::space::range::would_free;
pub use crate::space::since::written_since;
pub use crate::space::snapshot::used_by_snapshot;

//! The blocks to free once a live map is gone.
use base::number::Group;
use tree::Tree;

/// The blocks that no dataset has any more once a live map is gone: those of its tree that were born after a group, and their number (On-Disk
/// Specification, chapter 4: ds_prev_snap_txg). The blocks aren't visited.
#[derive(Drop)]
pub struct Lost {
    pub tree: Tree,
    pub after: Group,
    pub count: u32,
}

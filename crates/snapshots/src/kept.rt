//! A snapshot with its dead list and its count of written blocks.
use crate::snapshot::Snapshot;
use deadlist::deadlist::Deadlist;
use std::sync::Arc;

/// A snapshot as its file system keeps it. `dead` is its dead list: the blocks of the previous snapshot, or else of the origin, that this
/// snapshot doesn't have (On-Disk Specification, chapter 4: ds_deadlist_obj). `written` is the number of blocks of this snapshot that the
/// previous one, or else the origin, doesn't have (zfsprops(7): written).
#[derive(Drop)]
pub struct Kept {
    pub snapshot: Snapshot,
    pub dead: Arc<Deadlist>,
    pub written: u32,
}

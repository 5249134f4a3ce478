//! The identity of a snapshot.

use base::number::{Group, Guid};

/// A snapshot's identity, which a promote doesn't change: its creation group and its guid (On-Disk Specification, chapter 4: ds_creation_txg,
/// ds_guid). No two snapshots of a pool have the same one.
#[derive(Clone, Copy, PartialEq, Eq, PartialOrd, Ord, Debug)]
pub struct SnapshotId {
    pub group: Group,
    pub guid: Guid,
}

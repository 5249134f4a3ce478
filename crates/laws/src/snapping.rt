//! The laws of snapshots across an Abandon, as the contract of a function without a body.
ghost use Rattle.laws.specs.Both.{SnapshotsBeginOne, SnapshotsLastOne, SnapshotsStay, SnapshotsReturn};

/// A snapshot that is both in the present world and in the last synced one has the same map in both. That holds in a new pool, and is kept by
/// every run from a state with lineages (`lineage_laws` of `laws`), whatever numbers its steps choose.
///
/// So a snapshot that is there before a run and after it has the same map at both, where no Abandon of the run goes back to before the snapshot.
/// No Abandon does where the last synced world has the snapshot as the run begins, or where a Sync of the run comes before each Abandon that is
/// done. A snapshot that only the last synced world has, because it was destroyed after that sync, has that world's map if it is there again
/// after the run (zfs-snapshot(8)).
pub fn kept_snapshot_laws()
    ensures begin { SnapshotsBeginOne }
    ensures last { SnapshotsLastOne }
    ensures stay { SnapshotsStay }
    ensures come_back { SnapshotsReturn }
{}

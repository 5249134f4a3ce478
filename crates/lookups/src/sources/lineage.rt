//! The walk down the lineage of a snapshot.
ghost use Rattle.std.specs.Prelude.{◌≡◌, Some};
ghost use Rattle.model.specs.Ids.{snap_id};
ghost use Rattle.model.specs.World.{Snapped, id_of, same_id};
ghost use Rattle.lookups.specs.Places.{IsPlace, IsHome};
ghost use Rattle.lookups.specs.Since.{is_before};

use base::name::DsName;
use datasets::{FileSystem, Snapshot, Table};
use model::snapshot_id::SnapshotId;

/// Whether the snapshot `older`, which the file system of the name `owner` has, is an older snapshot of the lineage of this snapshot of this
/// file system. The walk goes down from this file system to that of its origin and so on. For each file system that it leaves it costs the
/// lookup of the origin.
pub fn is_older(
    table: &Table,
    file_system: &FileSystem,
    snapshot: &Snapshot,
    owner: &DsName,
    older: SnapshotId,
) -> bool
    requires place { IsPlace table.now file_system.now (Some snapshot.now) }
    requires home { IsHome table.now owner.now (snap_id older) }
    ensures { result ≡ is_before table.now (Snapped (id_of snapshot.now)) (snap_id older) }
{
    table.facts();
    let (mut passed, mut until) = (file_system, snapshot.group());
    'lineage: while !passed.is_named(owner.as_bytes()) {
        let Some(origin) = passed.origin() else {
            return false;
        };
        if origin.group.0 <= older.group.0 {
            return is_same(origin, older);
        }
        let Some((next, _)) = table.snapshot_of(origin) else {
            unreachable!()
        };
        passed = next;
        until = origin.group;
    }
    older.group.0 < until.0
}

// Whether both identities are of one snapshot.
fn is_same(id: SnapshotId, other: SnapshotId) -> bool
    ensures { result ≡ same_id (snap_id id) (snap_id other) }
{
    id == other
}

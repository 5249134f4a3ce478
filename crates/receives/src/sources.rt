//! Snapshots that may be the source of an incremental stream.
ghost use Rattle.std.specs.Prelude.{◌≡◌, ◌==◌, ℕ, None, false, length, nat_le};
ghost use Rattle.std.specs.List.{filter, find, last_or};
ghost use Rattle.std.specs.Option.{option_copied, option_map_or};
ghost use Rattle.base.specs.Names.{same_name};
ghost use Rattle.model.specs.requests.Rollback.{snaps_after};
ghost use Rattle.world.specs.Worlds.{AreRising};

use base::name::Component;
use base::number::{Group, Guid};
use datasets::{FileSystem, Snapshot};
use snapshots::Kept;

/// The newest snapshot of a file system, or none (zfs-receive(8)). Constant time.
pub(crate) fn newest_of(file_system: &FileSystem) -> Option<&Snapshot>
    ensures { option_copied result ≡ last_or None file_system.now.system.snaps }
{
    match file_system.snapshots().last() {
        Some(kept) => Some(&kept.snapshot),
        None => None,
    }
}

/// The newest snapshot of a file system with this guid, or none (zfs-receive(8), -F; that it is the newest is profile). It costs the number of its
/// snapshots.
pub(crate) fn source_of(file_system: &FileSystem, guid: Guid) -> Option<&Snapshot>
    ensures { option_copied result ≡ last_or None (filter (λ t. t.guid == guid.0) file_system.now.system.snaps) }
{
    let mut source = None;
    for kept in file_system.snapshots().iter() {
        if kept.snapshot.guid() == guid {
            source = Some(&kept.snapshot);
        }
    }
    source
}

/// Whether a file system has a snapshot of this name, of this group or an earlier one (zfs-rollback(8)). It costs the logarithm of the number of its
/// snapshots.
pub(crate) fn has_snapshot_upto(
    file_system: &FileSystem,
    component: &Component,
    group: Group,
) -> bool
    ensures { result ≡ option_map_or (λ t. nat_le t.group group.0) (find (λ t. same_name t.name component.now) file_system.now.system.snaps) false }
{
    match file_system.snapshot_named(component.as_bytes()) {
        Some(snapshot) => snapshot.group() <= group,
        None => false,
    }
}

/// How many snapshots of a file system are of a later group than this one (zfs-rollback(8)). It costs the logarithm of the number of its snapshots,
/// and a walk over their chunks.
pub(crate) fn count_after(file_system: &FileSystem, group: Group) -> usize
    requires { (low : ℕ) × AreRising low file_system.now.system.snaps }
    ensures { result ≡ length (snaps_after file_system.now.system group.0) }
{
    let snapshots = file_system.snapshots();
    snapshots.len() - snapshots.partition_point(|kept: &Kept| kept.snapshot.group().0 <= group.0)
}

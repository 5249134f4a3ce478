//! The promote of a clone.
ghost use Rattle.std.specs.Prelude.{◌≡◌, ◌≤◌, ◌⊎◌, Some, None, IfSome, IfErr, OnOk, OnErr};
ghost use Rattle.std.specs.List.{list_any};
ghost use Rattle.std.specs.Option.{option_map};
ghost use Rattle.base.specs.declared.refusal.Refusal.{Refusal};
ghost use Rattle.base.specs.Names.{same_name};
ghost use Rattle.model.specs.Ids.{snap_id};
ghost use Rattle.model.specs.requests.Promote.{promotion_of};
ghost use Rattle.model.specs.requests.Rollback.{snaps_upto};
ghost use Rattle.world.specs.Tables.{world_of};
ghost use Rattle.world.specs.Worlds.{AreRising};
ghost use Rattle.datasets.specs.Promotions.{promotion_between};
ghost use Rattle.snap.specs.Requests.{promoted, promote_refusal, KeepsPrevious};

use crate::lengths::any_long_upto;
use base::meter::SegMeter;
use base::name::{Component, DsName};
use base::number::Group;
use base::refusal::Refusal;
use datasets::{FileSystem, Table};
use model::snapshot_id::SnapshotId;
use std::alloc::Global;

/// Promotes the clone of this name in this table (zfs-promote(8)): the clone gets its origin and the older snapshots from their file system, and
/// the origin of that file system. That file system keeps its newer snapshots, and the clone's former origin becomes its own. After an error the
/// table is as it was. The errors are NoDataset where no file system has the name, else NotClone where it has no origin, else BadName where the
/// whole name of a snapshot that the clone would get would be over 255 bytes under the clone's name, else NameClash where the clone has a
/// snapshot of the name of one of these; else NoMemory where there is none for it, or as `Table::promote` says (the order and the limit are
/// profile). Each dataset still has the same dataset before it (On-Disk Specification, chapter 4: ds_prev_snap_obj), and no block is visited. It
/// costs for each file system the logarithm of the number of its snapshots, the number of the snapshots of both with the segments of their dead
/// lists, and for each snapshot that changes its file system the logarithms of the numbers of snapshots of both.
pub fn promote(
    alloc: Global,
    table: &mut Table,
    name: &DsName,
    segments: &mut SegMeter,
) -> Result<(), Refusal>
    ensures ok { OnOk result (table.new ≡ promoted table.old name.now) }
    ensures can { OnOk result (promote_refusal table.old name.now ≡ None) }
    ensures refused { IfSome (promote_refusal table.old name.now) (λ e. result ≡ Err e) }
    ensures unchanged { OnErr result (table.new ≡ table.old) }
    ensures only { IfErr result (λ e. (promote_refusal table.old name.now ≡ Some e) ⊎ (e ≡ Refusal.NoMemory)) }
    ensures previous { OnOk result (KeepsPrevious table.old table.new) }
    ensures never_lower { segments.old ≤ segments.new }
{
    table.facts();
    if let Some(refusal) = refusal_of(table, name) {
        return Err(refusal);
    }
    table.promote(alloc, name, segments)
}

// The error with which the promote is refused, or None. It costs for each file system the logarithm of the number of its snapshots, and for each
// snapshot that would change its file system the logarithm of the number of the clone's.
fn refusal_of(table: &Table, name: &DsName) -> Option<Refusal>
    ensures { result ≡ promote_refusal table.now name.now }
{
    if table.find(name).is_none() {
        return Some(Refusal::NoDataset);
    }
    let Some((clone, owner, origin)) = promotion_of(table, name) else {
        return Some(Refusal::NotClone);
    };
    table.facts();
    if any_long_upto(owner, origin.group, name.as_bytes().len()) {
        return Some(Refusal::BadName);
    }
    if any_taken(owner, origin.group, clone) {
        return Some(Refusal::NameClash);
    }
    None
}

// The clone of this name, the file system that has its origin, and the origin's identity; or None where there is no clone of this name. It costs
// for each file system the logarithm of the number of its snapshots.
fn promotion_of<'a>(
    table: &'a Table,
    name: &DsName,
) -> Option<(&'a FileSystem, &'a FileSystem, SnapshotId)>
    ensures { option_map (λ p. promotion_between p.0.now p.1.now (snap_id p.2)) result ≡ promotion_of (world_of table.now) name.now }
{
    let clone = table.find(name)?;
    let origin = clone.origin()?;
    let (owner, _) = table.snapshot_of(origin)?;
    Some((clone, owner, origin))
}

// Whether the file system has a snapshot of this name. It costs the logarithm of the number of its snapshots.
fn is_taken(file_system: &FileSystem, component: &Component) -> bool
    ensures { result ≡ list_any (λ u. same_name u.name component.now) file_system.now.system.snaps }
{
    file_system.snapshot_named(component.as_bytes()).is_some()
}

// Whether the clone has a snapshot of the same name as a snapshot of `owner` of that group or an earlier one. It costs for each of these the
// logarithm of the number of the clone's.
fn any_taken(owner: &FileSystem, group: Group, clone: &FileSystem) -> bool
    requires { AreRising 0 owner.now.system.snaps }
    ensures { result ≡ list_any (λ t. list_any (λ u. same_name u.name t.name) clone.now.system.snaps) (snaps_upto owner.now.system group.0) }
{
    for kept in owner.snapshots().iter() {
        if kept.snapshot.group() > group {
            return false;
        }
        if is_taken(clone, kept.snapshot.name()) {
            return true;
        }
    }
    false
}

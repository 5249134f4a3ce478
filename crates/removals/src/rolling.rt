//! The rollback of a file system to one of its snapshots.
ghost use Rattle.std.specs.Prelude.{◌≡◌, ◌≤◌, ◌⊎◌, ◌||◌, false, Some, None, IfSome, IfErr, OnOk, OnErr, nat_lt};
ghost use Rattle.std.specs.Option.{option_map};
ghost use Rattle.std.specs.List.{find, list_any};
ghost use Rattle.std.specs.FinMap.{get};
ghost use Rattle.base.specs.declared.refusal.Refusal.{Refusal};
ghost use Rattle.snapshots.specs.Marks.{has_newer};
ghost use Rattle.datasets.specs.Origins.{origin_group};
ghost use Rattle.datasets.specs.Writes.{newest_group};
ghost use Rattle.base.specs.declared.name.target.Target.{Target};
ghost use Rattle.base.specs.Names.{same_name};
ghost use Rattle.model.specs.World.{union_of};
ghost use Rattle.model.specs.requests.Rollback.{placed};
ghost use Rattle.world.specs.Sets.{AreDisjoint};
ghost use Rattle.world.specs.Tables.{world_of};
ghost use Rattle.removals.specs.Edits.{HasLost};
ghost use Rattle.removals.specs.Needs.{has_clone_and_is_later};
ghost use Rattle.removals.specs.Requests.{rolled, rollback_refusal, refusal_at, refusal_after};

use crate::bookmark::remove_newer_bookmarks;
use crate::cloned::any_later_has_clone;
use crate::held::any_later_held;
use crate::working_copy::WorkingCopy;
use base::meter::SegMeter;
use base::name::{Component, Member, Target};
use base::number::Group;
use base::refusal::Refusal;
use datasets::{FileSystem, Snapshot, Table};
use snap::{Freeing, Views};
use std::alloc::Global;

/// Rolls a file system back to one of its snapshots: its live map is the snapshot's again, and newer snapshots and bookmarks are destroyed. The
/// blocks that no dataset has any more are to be freed (zfs-rollback(8)). Refused are NotSnapshot where the name isn't one of a snapshot, else
/// NoDataset where there is no such snapshot, else NotNewest where there is a newer snapshot or bookmark and `later` isn't set, else Busy where
/// a tag or one of these views keeps a newer snapshot, else HasClones where a newer one has a clone; else NoMemory where memory is refused, or
/// as `Table::rollback` says. At `Err` the table and what it has to free are as they were. It costs the number of file systems, the chunks of
/// pieces that are to be freed, the number of the file system's snapshots with the segments of their dead lists, that of its bookmarks, and for
/// each newer snapshot what its destroy does and the number of open views.
pub fn rollback(
    alloc: Global,
    table: &mut Table,
    freeing: &mut Freeing,
    views: &Views,
    target: &Target,
    later: bool,
    segments: &mut SegMeter,
) -> Result<(), Refusal>
    requires apart { AreDisjoint (union_of (world_of table.old)) freeing.old }
    ensures ok { OnOk result (table.new ≡ rolled table.old target.now) }
    ensures lost { OnOk result (HasLost table.old freeing.old table.new freeing.new) }
    ensures can { OnOk result (rollback_refusal table.old views.now.opened target.now later ≡ None) }
    ensures refused { IfSome (rollback_refusal table.old views.now.opened target.now later) (λ e. result ≡ Err e) }
    ensures unchanged { OnErr result (table.new ≡ table.old) }
    ensures kept { OnErr result (freeing.new ≡ freeing.old) }
    ensures only { IfErr result (λ e. (rollback_refusal table.old views.now.opened target.now later ≡ Some e) ⊎ (e ≡ Refusal.NoMemory)) }
    ensures never_lower { segments.old ≤ segments.new }
{
    let Target::Snapshot(name) = target else {
        return Err(Refusal::NotSnapshot);
    };
    let component = &name.member().component;
    let Some((file_system, snapshot)) = placed(table, name.member()) else {
        return Err(Refusal::NoDataset);
    };
    let group = snapshot.group();
    table.facts();
    if let Some(refusal) = refusal_of(table, file_system, group, views, later) {
        return Err(refusal);
    }
    let mut edit = WorkingCopy::of(table, freeing)?;
    roll_back(&mut edit, alloc, file_system, component, group, segments)?;
    edit.put(table, freeing);
    Ok(())
}

// The snapshot of this name with its file system, or none. It costs the logarithms of the numbers of file systems and of the snapshots of this
// one.
fn placed<'a>(table: &'a Table, name: &Member) -> Option<(&'a FileSystem, &'a Snapshot)>
    ensures found { option_map (λ p. (p.0.now.system, p.1.now)) result ≡ placed (world_of table.now) (Target.Snapshot name.now) }
    ensures named { IfSome result (λ p. p.0.now.name ≡ name.now.file_system) }
{
    table.snapshot_named(&name.file_system, &name.component)
}

// Whether this file system has a snapshot or a bookmark of a later group. It costs the number of its bookmarks.
fn has_newer(file_system: &FileSystem, group: Group) -> bool
    ensures { result ≡ (nat_lt group.0 (newest_group (origin_group file_system.now.system.origin) file_system.now.system.snaps) || has_newer file_system.now.system.bookmarks group.0) }
{
    file_system.newest_group() > group || file_system.bookmarks().any_after(group)
}

// The refusal of the rollback of this file system of the table to its snapshot of this group, if any, as `rollback` says. It costs what
// `has_newer` and `refusal_after` do.
fn refusal_of(
    table: &Table,
    file_system: &FileSystem,
    group: Group,
    views: &Views,
    later: bool,
) -> Option<Refusal>
    ensures { result ≡ refusal_at table.now file_system.now.system group.0 views.now.opened later }
{
    if !later && has_newer(file_system, group) {
        return Some(Refusal::NotNewest);
    }
    refusal_after(table, file_system, group, views)
}

/// The refusal of a destroy of the snapshots that this file system of the table has of a later group, if any: Busy where one of them has a tag or
/// one of these views, else HasClones where one has a clone (zfs-destroy(8); the view is profile). It costs the number of the file system's
/// snapshots, and for each that is later that of the open views and the logarithm of the number of clones.
pub fn refusal_after(
    table: &Table,
    file_system: &FileSystem,
    group: Group,
    views: &Views,
) -> Option<Refusal>
    ensures { result ≡ refusal_after table.now file_system.now.system group.0 views.now.opened }
{
    if any_later_held(file_system, group, views) {
        return Some(Refusal::Busy);
    }
    if any_later_has_clone(table, file_system, group) {
        return Some(Refusal::HasClones);
    }
    None
}

/// Rolls this file system back to its snapshot of this name, which is of this group. It is as the edit has it, and no newer snapshot has a clone
/// (zfs-rollback(8), -r). NoMemory where memory is refused; on error, discard the edit. It costs what `rollback` does.
pub fn roll_back(
    edit: &mut WorkingCopy,
    alloc: Global,
    file_system: &FileSystem,
    component: &Component,
    group: Group,
    segments: &mut SegMeter,
) -> Result<(), Refusal>
    requires apart { AreDisjoint (union_of (world_of edit.old.to)) edit.old.freeing }
    requires there { get edit.old.to.file_systems file_system.now.name ≡ Some file_system.now.system }
    requires group { option_map (λ s. s.group) (find (λ s. same_name s.name component.now) file_system.now.system.snaps) ≡ Some group.0 }
    requires no_clone { list_any (has_clone_and_is_later edit.old.to group.0) file_system.now.system.snaps ≡ false }
    ensures ok { OnOk result (edit.new.to ≡ rolled edit.old.to (Target.Snapshot (record { file_system = file_system.now.name; component = component.now }))) }
    ensures lost { OnOk result (HasLost edit.old.to edit.old.freeing edit.new.to edit.new.freeing) }
    ensures err { IfErr result (λ e. e ≡ Refusal.NoMemory) }
    ensures never_lower { segments.old ≤ segments.new }
{
    edit.to.facts();
    edit.remove_newer(alloc, file_system, group, segments)?;
    edit.lose_live(alloc, file_system.name(), segments)?;
    remove_newer_bookmarks(alloc, &mut edit.to, file_system.name(), group)
}

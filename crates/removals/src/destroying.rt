//! Destroys of file systems, snapshots and bookmarks.
ghost use Rattle.std.specs.Prelude.{◌≡◌, ◌≤◌, ◌⊎◌, ◌&&◌, not, true, false, Some, None, IfSome, IfErr, OnOk, OnErr};
ghost use Rattle.base.specs.declared.refusal.Refusal.{Refusal};
ghost use Rattle.model.specs.declared.destroy_target.DestroyTarget.{DestroyTarget};
ghost use Rattle.base.specs.Names.{root_name};
ghost use Rattle.model.specs.World.{union_of};
ghost use Rattle.world.specs.Sets.{AreDisjoint};
ghost use Rattle.world.specs.Tables.{CanRemoveFileSystem, world_of};
ghost use Rattle.removals.specs.Edits.{HasLost};
ghost use Rattle.removals.specs.Families.{has_deferred_origin, AreClonesInside};
ghost use Rattle.removals.specs.Requests.{destroyed, destroy_refusal, without_family, swept, IsSweptBy};

use crate::bookmark::remove_bookmark;
use crate::family::{refusal_of, remove_file_system, remove_file_systems};
use crate::gone::destroy_snapshots;
use crate::sweep::sweep;
use crate::working_copy::WorkingCopy;
use base::meter::SegMeter;
use base::name::DsName;
use base::refusal::Refusal;
use datasets::Table;
use model::destroy_target::DestroyTarget;
use snap::{Freeing, Views};
use std::alloc::Global;

// Whether the file system of this name is a clone of a snapshot whose destroy is deferred. It costs the logarithm of the number of file
// systems, and for a clone their number times the logarithm of that of the snapshots of one.
fn has_deferred_origin(table: &Table, name: &DsName) -> bool
    ensures { result ≡ has_deferred_origin table.now name.now }
{
    let Some(file_system) = table.find(name) else {
        return false;
    };
    let Some(origin) = file_system.origin() else {
        return false;
    };
    match table.snapshot_of(origin) {
        Some((_owner, snapshot)) => snapshot.is_deferred(),
        None => false,
    }
}

// Whether the file system of this name is destroyed alone: neither with its family nor with its origin. It costs what `has_deferred_origin`
// does.
fn is_removed_alone(table: &Table, name: &DsName, recursive: bool) -> bool
    ensures { result ≡ (not recursive && not (has_deferred_origin table.now name.now)) }
{
    !recursive && !has_deferred_origin(table, name)
}

// Removes this file system, or with `recursive` its family, and then the snapshots whose destroy is deferred and that nothing needs any more.
// The refusals were checked before. NoMemory where memory is refused; at `Err` the table and what it has to free are as they were. It costs what
// `destroy` does.
fn remove_and_sweep(
    alloc: Global,
    table: &mut Table,
    freeing: &mut Freeing,
    views: &Views,
    name: &DsName,
    recursive: bool,
    segments: &mut SegMeter,
) -> Result<(), Refusal>
    requires apart { AreDisjoint (union_of (world_of table.old)) freeing.old }
    requires swept { IsSweptBy table.old views.now.opened }
    requires not_root { ¬ (name.now ≡ root_name) }
    requires inside { recursive ≡ true → AreClonesInside table.old name.now }
    requires can { recursive ≡ false → CanRemoveFileSystem table.old name.now }
    ensures ok { OnOk result (table.new ≡ swept (without_family table.old name.now recursive) views.now.opened) }
    ensures lost { OnOk result (HasLost table.old freeing.old table.new freeing.new) }
    ensures unchanged { OnErr result (table.new ≡ table.old) }
    ensures kept { OnErr result (freeing.new ≡ freeing.old) }
    ensures err { IfErr result (λ e. e ≡ Refusal.NoMemory) }
    ensures never_lower { segments.old ≤ segments.new }
{
    let mut edit = WorkingCopy::of(table, freeing)?;
    remove_file_systems(&mut edit, alloc, table, name, recursive, segments)?;
    sweep(&mut edit, alloc, table, views, segments)?;
    edit.put(table, freeing);
    Ok(())
}

// Destroys the file system of this name, or with `recursive` its family. The refusals are those of `destroy`. At `Err` the table and what it has
// to free are as they were. It costs what `destroy` does.
fn destroy_file_systems(
    alloc: Global,
    table: &mut Table,
    freeing: &mut Freeing,
    views: &Views,
    name: &DsName,
    recursive: bool,
    defer: bool,
    segments: &mut SegMeter,
) -> Result<(), Refusal>
    requires apart { AreDisjoint (union_of (world_of table.old)) freeing.old }
    requires swept { IsSweptBy table.old views.now.opened }
    ensures ok { OnOk result (table.new ≡ swept (destroyed table.old views.now.opened (DestroyTarget.FileSystem name.now) recursive defer) views.now.opened) }
    ensures lost { OnOk result (HasLost table.old freeing.old table.new freeing.new) }
    ensures can { OnOk result (destroy_refusal table.old views.now.opened (DestroyTarget.FileSystem name.now) recursive defer ≡ None) }
    ensures refused { IfSome (destroy_refusal table.old views.now.opened (DestroyTarget.FileSystem name.now) recursive defer) (λ e. (result ≡ Err e) ⊎ (result ≡ Err Refusal.NoMemory)) }
    ensures unchanged { OnErr result (table.new ≡ table.old) }
    ensures kept { OnErr result (freeing.new ≡ freeing.old) }
    ensures only { IfErr result (λ e. (destroy_refusal table.old views.now.opened (DestroyTarget.FileSystem name.now) recursive defer ≡ Some e) ⊎ (e ≡ Refusal.NoMemory)) }
    ensures never_lower { segments.old ≤ segments.new }
{
    table.facts();
    if let Some(refusal) = refusal_of(table, views, name, recursive, defer) {
        return Err(refusal);
    }
    if is_removed_alone(table, name, recursive) {
        return remove_file_system(table, freeing, name);
    }
    remove_and_sweep(alloc, table, freeing, views, name, recursive, segments)
}

/// Destroys a file system, snapshots, all or none of them, or a bookmark (zfs-destroy(8)). The blocks that no dataset has any more are to be
/// freed. With `recursive` a file system is destroyed with its descendants and all their snapshots, and each snapshot with the snapshots of the
/// same name of all descendants of its file system. With `defer` a snapshot stays while a tag or one of these views keeps it or it has a clone, and is
/// destroyed once nothing needs it. So the destroy of a clone also destroys its origin, where that one's destroy is deferred and only the clone
/// needed it. A bookmark is destroyed alone, whatever `recursive` and `defer` are. Refused are NoDataset where nothing has the name, or none of the names of snapshots; of a file
/// system IsRoot for the root, else NotSnapshot with `defer`, else HasChildren where it has a child or a snapshot and `recursive` isn't set;
/// else Busy where a tag or one of these views keeps a snapshot that would be destroyed, else HasClones where such a snapshot has a clone that
/// wouldn't be. NoMemory, where memory is refused, may come before the refusals of a snapshot. At `Err` the table and what it has to free are as
/// they were.
///
/// A file system without `recursive` is removed in place, unless its origin's destroy is deferred. That costs the number of file systems, and
/// for a clone also that number times the logarithm of the number of snapshots of one. A bookmark is removed in place too, which costs the
/// logarithm of the number of file systems and the number of the file system's bookmarks. Everything else is removed from an edit. For n file
/// systems that costs n times the logarithm of n, the chunks of pieces that are to be freed, for each snapshot that is destroyed what
/// `WorkingCopy::remove_snapshot` does and the number of open views, and for each clone that is destroyed n times the logarithm of the number of
/// snapshots of one; with `recursive` also for each snapshot of the family the logarithm of the number of all clones and the number of its
/// clones.
pub fn destroy(
    alloc: Global,
    table: &mut Table,
    freeing: &mut Freeing,
    views: &Views,
    target: &DestroyTarget,
    recursive: bool,
    defer: bool,
    segments: &mut SegMeter,
) -> Result<(), Refusal>
    requires apart { AreDisjoint (union_of (world_of table.old)) freeing.old }
    requires swept { IsSweptBy table.old views.now.opened }
    ensures ok { OnOk result (table.new ≡ swept (destroyed table.old views.now.opened target.now recursive defer) views.now.opened) }
    ensures lost { OnOk result (HasLost table.old freeing.old table.new freeing.new) }
    ensures can { OnOk result (destroy_refusal table.old views.now.opened target.now recursive defer ≡ None) }
    ensures refused { IfSome (destroy_refusal table.old views.now.opened target.now recursive defer) (λ e. (result ≡ Err e) ⊎ (result ≡ Err Refusal.NoMemory)) }
    ensures unchanged { OnErr result (table.new ≡ table.old) }
    ensures kept { OnErr result (freeing.new ≡ freeing.old) }
    ensures only { IfErr result (λ e. (destroy_refusal table.old views.now.opened target.now recursive defer ≡ Some e) ⊎ (e ≡ Refusal.NoMemory)) }
    ensures never_lower { segments.old ≤ segments.new }
{
    match target {
        DestroyTarget::FileSystem(name) => destroy_file_systems(
            alloc, table, freeing, views, name, recursive, defer, segments,
        ),
        DestroyTarget::Snapshots(names) => destroy_snapshots(
            alloc, table, freeing, views, names, recursive, defer, segments,
        ),
        DestroyTarget::Bookmark(name) => remove_bookmark(alloc, table, name),
    }
}

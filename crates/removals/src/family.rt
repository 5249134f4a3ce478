//! The removal of file systems, alone or with their descendants.
ghost use Rattle.std.specs.Prelude.{◌≡◌, ◌≤◌, ◌||◌, true, false, IfErr, OnOk, OnErr, length, nat_lt};
ghost use Rattle.base.specs.declared.refusal.Refusal.{Refusal};
ghost use Rattle.model.specs.declared.destroy_target.DestroyTarget.{DestroyTarget};
ghost use Rattle.base.specs.Names.{root_name};
ghost use Rattle.model.specs.World.{union_of, children_of};
ghost use Rattle.world.specs.Sets.{AreDisjoint};
ghost use Rattle.world.specs.Tables.{CanRemoveFileSystem, world_of, without_system};
ghost use Rattle.removals.specs.Edits.{HasLost};
ghost use Rattle.removals.specs.Families.{family_refusal, AreClonesInside, IsBareFamily};
ghost use Rattle.removals.specs.Requests.{destroy_refusal, without_family};

use crate::cloned::family_has_clone_outside;
use crate::emptied::empty_family;
use crate::held::any_of_family_held;
use crate::working_copy::WorkingCopy;
use base::meter::SegMeter;
use base::name::DsName;
use base::refusal::Refusal;
use datasets::{FileSystem, Table, is_in_family};
use snap::{Freeing, Views};
use std::alloc::Global;

/// Removes this file system, which has no snapshot and no child and isn't the root. The blocks that no other dataset has are to be freed.
/// NoMemory where memory is refused; at `Err` the table and what it has to free are as they were. It costs the number of file systems.
pub(crate) fn remove_file_system(
    table: &mut Table,
    freeing: &mut Freeing,
    name: &DsName,
) -> Result<(), Refusal>
    requires apart { AreDisjoint (union_of (world_of table.old)) freeing.old }
    requires can { CanRemoveFileSystem table.old name.now }
    ensures ok { OnOk result (table.new ≡ without_system table.old name.now) }
    ensures lost { OnOk result (HasLost table.old freeing.old table.new freeing.new) }
    ensures unchanged { OnErr result (table.new ≡ table.old) }
    ensures kept { OnErr result (freeing.new ≡ freeing.old) }
    ensures err { IfErr result (λ e. e ≡ Refusal.NoMemory) }
{
    table.facts();
    let lost = table.lost_with(name)?;
    freeing.add_tree(&lost.tree, lost.after, u64::from(lost.count))?;
    table.remove(name);
    Ok(())
}

// Removes the file systems of the family of this name, which isn't the root's, children before their parents. The edit has them as the table
// does, and none has a snapshot. NoMemory where memory is refused; on error, discard the edit. It costs the number of file systems, and that
// number again for each of the family.
fn remove_family(edit: &mut WorkingCopy, table: &Table, name: &DsName) -> Result<(), Refusal>
    requires apart { AreDisjoint (union_of (world_of edit.old.to)) edit.old.freeing }
    requires same { edit.old.to ≡ table.now }
    requires bare { IsBareFamily table.now name.now }
    requires not_root { ¬ (name.now ≡ root_name) }
    ensures ok { OnOk result (edit.new.to ≡ without_family table.now name.now true) }
    ensures lost { OnOk result (HasLost edit.old.to edit.old.freeing edit.new.to edit.new.freeing) }
    ensures err { IfErr result (λ e. e ≡ Refusal.NoMemory) }
{
    let rows = table.file_systems();
    let mut left = rows.len();
    while left > 0 {
        left -= 1;
        let file_system: &FileSystem = &rows[left];
        if is_in_family(name.as_bytes(), file_system.name().as_bytes()) {
            remove_file_system(&mut edit.to, &mut edit.freeing, file_system.name())?;
        }
    }
    Ok(())
}

// Removes the file systems of the family of this name with their snapshots. Each clone of these snapshots is of the family. NoMemory where
// memory is refused; on error, discard the edit. It costs what `empty_family` and `remove_family` do.
fn empty_and_remove(
    edit: &mut WorkingCopy,
    alloc: Global,
    table: &Table,
    name: &DsName,
    segments: &mut SegMeter,
) -> Result<(), Refusal>
    requires apart { AreDisjoint (union_of (world_of edit.old.to)) edit.old.freeing }
    requires same { edit.old.to ≡ table.now }
    requires inside { AreClonesInside table.now name.now }
    requires not_root { ¬ (name.now ≡ root_name) }
    ensures ok { OnOk result (edit.new.to ≡ without_family table.now name.now true) }
    ensures lost { OnOk result (HasLost edit.old.to edit.old.freeing edit.new.to edit.new.freeing) }
    ensures err { IfErr result (λ e. e ≡ Refusal.NoMemory) }
    ensures never_lower { segments.old ≤ segments.new }
{
    empty_family(edit, alloc, table, name, segments)?;
    // A copy, since its rows are read while file systems are removed from the edit.
    let emptied = edit.to.copy()?;
    remove_family(edit, &emptied, name)
}

/// Removes this file system, which isn't the root. Without `recursive` it has no snapshot and no child. With `recursive` its family is removed
/// with all snapshots, and each clone of these is of the family. NoMemory where memory is refused; on error, discard the edit. It costs the
/// number of file systems, and with `recursive` what `empty_family` and `remove_family` do.
pub(crate) fn remove_file_systems(
    edit: &mut WorkingCopy,
    alloc: Global,
    table: &Table,
    name: &DsName,
    recursive: bool,
    segments: &mut SegMeter,
) -> Result<(), Refusal>
    requires apart { AreDisjoint (union_of (world_of edit.old.to)) edit.old.freeing }
    requires same { edit.old.to ≡ table.now }
    requires not_root { ¬ (name.now ≡ root_name) }
    requires inside { recursive ≡ true → AreClonesInside table.now name.now }
    requires can { recursive ≡ false → CanRemoveFileSystem table.now name.now }
    ensures ok { OnOk result (edit.new.to ≡ without_family table.now name.now recursive) }
    ensures lost { OnOk result (HasLost edit.old.to edit.old.freeing edit.new.to edit.new.freeing) }
    ensures err { IfErr result (λ e. e ≡ Refusal.NoMemory) }
    ensures never_lower { segments.old ≤ segments.new }
{
    if recursive {
        return empty_and_remove(edit, alloc, table, name, segments);
    }
    remove_file_system(&mut edit.to, &mut edit.freeing, name)
}

// Whether the file system of this name has a child, or a snapshot. It costs the number of file systems.
fn has_parts(table: &Table, file_system: &FileSystem, name: &DsName) -> bool
    ensures { result ≡ (nat_lt 0 (length (children_of (world_of table.now) name.now)) || nat_lt 0 (length file_system.now.system.snaps)) }
{
    table.has_child(name) || file_system.snapshots().len() > 0
}

// The refusal of the destroy of a family, if any: Busy where a tag or an open view keeps a snapshot of it, else HasClones where one has a clone
// outside the family. It costs what `any_of_family_held` and `family_has_clone_outside` do.
fn family_refusal(table: &Table, views: &Views, name: &DsName) -> Option<Refusal>
    ensures { result ≡ family_refusal table.now views.now.opened name.now }
{
    if any_of_family_held(table, views, name) {
        return Some(Refusal::Busy);
    }
    if family_has_clone_outside(table, name) {
        return Some(Refusal::HasClones);
    }
    None
}

/// The refusal of the destroy of a file system, if any, as `destroy` says. It costs the number of file systems, and with `recursive` what
/// `family_refusal` does.
pub(crate) fn refusal_of(
    table: &Table,
    views: &Views,
    name: &DsName,
    recursive: bool,
    defer: bool,
) -> Option<Refusal>
    ensures { result ≡ destroy_refusal table.now views.now.opened (DestroyTarget.FileSystem name.now) recursive defer }
{
    table.facts();
    let Some(file_system) = table.find(name) else {
        return Some(Refusal::NoDataset);
    };
    if name.as_bytes() == b"p".as_slice() {
        return Some(Refusal::IsRoot);
    }
    if defer {
        return Some(Refusal::NotSnapshot);
    }
    if recursive {
        return family_refusal(table, views, name);
    }
    if has_parts(table, file_system, name) {
        return Some(Refusal::HasChildren);
    }
    None
}

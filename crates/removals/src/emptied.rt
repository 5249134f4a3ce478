//! File systems that are emptied before they are removed.
ghost use Rattle.std.specs.Prelude.{◌≡◌, ◌≤◌, [], false, Some, IsSome, IfOk, IfErr, OnOk, map};
ghost use Rattle.std.specs.List.{filter, list_any};
ghost use Rattle.std.specs.List.Sorted.{IsPermutation, IsNonDecreasingBy};
ghost use Rattle.std.specs.FinMap.{get, entries};
ghost use Rattle.base.specs.declared.refusal.Refusal.{Refusal};
ghost use Rattle.datasets.specs.Origins.{origin_group};
ghost use Rattle.datasets.specs.Rows.{entry_of, snaps_at};
ghost use Rattle.model.specs.World.{empty_file_system, union_of};
ghost use Rattle.model.specs.Hierarchy.{is_in_family};
ghost use Rattle.world.specs.Sets.{AreDisjoint};
ghost use Rattle.world.specs.Tables.{world_of, with_system};
ghost use Rattle.removals.specs.Edits.{HasLost};
ghost use Rattle.removals.specs.Families.{emptied, AreClonesInside};
ghost use Rattle.removals.specs.Needs.{has_clone_and_is_later};

use crate::working_copy::WorkingCopy;
use base::meter::SegMeter;
use base::name::DsName;
use base::number::Group;
use base::refusal::Refusal;
use datasets::{FileSystem, Table, is_in_family};
use std::alloc::Global;

// The creation group of a file system's origin, and 0 where it has none. Constant time.
fn origin_group(file_system: &FileSystem) -> u64
    ensures { result ≡ origin_group file_system.now.system.origin }
{
    match file_system.origin() {
        Some(id) => id.group.0,
        None => 0,
    }
}

// The file systems of this family. NoMemory where memory is refused. It costs the number of file systems.
fn rows_of<'a>(
    alloc: Global,
    table: &'a Table,
    name: &DsName,
) -> Result<Vec<&'a FileSystem>, Refusal>
    ensures ok { IfOk result (λ rows. map (λ x. entry_of x.now) rows.items ≡ filter (λ r. is_in_family name.now r.0) (entries table.now.file_systems)) }
    ensures err { IfErr result (λ e. e ≡ Refusal.NoMemory) }
{
    let mut rows = Vec::new(alloc);
    for file_system in table.file_systems() {
        let file_system: &FileSystem = file_system;
        if is_in_family(name.as_bytes(), file_system.name().as_bytes()) {
            rows.push(file_system)?;
        }
    }
    Ok(rows)
}

// The file systems of this family in order of the groups of their origins. NoMemory where memory is refused. It costs the number of file
// systems, and for n of them n times its logarithm.
fn rows_in_order<'a>(
    alloc: Global,
    table: &'a Table,
    name: &DsName,
) -> Result<Vec<&'a FileSystem>, Refusal>
    ensures ok { IfOk result (λ rows. IsPermutation (filter (λ r. is_in_family name.now r.0) (entries table.now.file_systems)) (map (λ x. entry_of x.now) rows.items)) }
    ensures rising { IfOk result (λ rows. IsNonDecreasingBy (λ x. origin_group x.now.system.origin) rows.items) }
    ensures err { IfErr result (λ e. e ≡ Refusal.NoMemory) }
{
    let mut rows = rows_of(alloc, table, name)?;
    rows.sort_by_key(|row| origin_group(row))?;
    Ok(rows)
}

// Empties this file system, which has no snapshot: the blocks that it alone has are to be freed, and it is no longer a clone. NoMemory where
// memory is refused; on error, discard the edit. It costs the logarithm of the number of file systems.
fn vacate(edit: &mut WorkingCopy, alloc: Global, name: &DsName) -> Result<(), Refusal>
    requires apart { AreDisjoint (union_of (world_of edit.old.to)) edit.old.freeing }
    requires there { IsSome (get edit.old.to.file_systems name.now) }
    requires bare { snaps_at edit.old.to.file_systems name.now ≡ [] }
    ensures ok { OnOk result (edit.new.to ≡ with_system edit.old.to name.now empty_file_system) }
    ensures lost { OnOk result (HasLost edit.old.to edit.old.freeing edit.new.to edit.new.freeing) }
    ensures err { IfErr result (λ e. e ≡ Refusal.NoMemory) }
{
    edit.to.facts();
    let lost = edit.to.vacate(alloc, name)?;
    edit.freeing
        .add_tree(&lost.tree, lost.after, u64::from(lost.count))
}

/// Removes the snapshots of this file system, and empties it. It is as the edit has it, and none of its snapshots has a clone. NoMemory where
/// memory is refused; on error, discard the edit. It costs what `WorkingCopy::remove_newer` does.
pub fn empty_one(
    edit: &mut WorkingCopy,
    alloc: Global,
    file_system: &FileSystem,
    segments: &mut SegMeter,
) -> Result<(), Refusal>
    requires apart { AreDisjoint (union_of (world_of edit.old.to)) edit.old.freeing }
    requires there { get edit.old.to.file_systems file_system.now.name ≡ Some file_system.now.system }
    requires no_clone { list_any (has_clone_and_is_later edit.old.to 0) file_system.now.system.snaps ≡ false }
    ensures ok { OnOk result (edit.new.to ≡ with_system edit.old.to file_system.now.name empty_file_system) }
    ensures lost { OnOk result (HasLost edit.old.to edit.old.freeing edit.new.to edit.new.freeing) }
    ensures err { IfErr result (λ e. e ≡ Refusal.NoMemory) }
    ensures never_lower { segments.old ≤ segments.new }
{
    edit.to.facts();
    edit.remove_newer(alloc, file_system, Group(0), segments)?;
    vacate(edit, alloc, file_system.name())
}

/// Empties the file systems of this family with their snapshots: the blocks that only they have are to be freed. Each clone of such a snapshot
/// is of the family, and is emptied before the file system that has the snapshot, since the clone's origin is of a later group than that file
/// system's origin. NoMemory where memory is refused; on error, discard the edit. It costs the number of file systems, for n of the family n
/// times its logarithm, and for each what `WorkingCopy::remove_newer` does.
pub(crate) fn empty_family(
    edit: &mut WorkingCopy,
    alloc: Global,
    table: &Table,
    name: &DsName,
    segments: &mut SegMeter,
) -> Result<(), Refusal>
    requires apart { AreDisjoint (union_of (world_of edit.old.to)) edit.old.freeing }
    requires same { edit.old.to ≡ table.now }
    requires inside { AreClonesInside table.now name.now }
    ensures ok { OnOk result (edit.new.to ≡ emptied table.now name.now) }
    ensures lost { OnOk result (HasLost edit.old.to edit.old.freeing edit.new.to edit.new.freeing) }
    ensures err { IfErr result (λ e. e ≡ Refusal.NoMemory) }
    ensures never_lower { segments.old ≤ segments.new }
{
    table.facts();
    let rows = rows_in_order(alloc, table, name)?;
    let mut left = rows.len();
    while left > 0 {
        left -= 1;
        empty_one(edit, alloc, rows[left], segments)?;
    }
    Ok(())
}

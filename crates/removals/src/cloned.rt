//! Which snapshots have clones.
ghost use Rattle.std.specs.Prelude.{◌≡◌, ◌&&◌, not};
ghost use Rattle.std.specs.List.{list_any};
ghost use Rattle.std.specs.FinMap.{entries};
ghost use Rattle.datasets.specs.Rows.{entry_in};
ghost use Rattle.datasets.specs.CloneNames.{name_of};
ghost use Rattle.model.specs.Hierarchy.{is_in_family};
ghost use Rattle.removals.specs.Families.{is_cloned_outside, is_outside_clone};
ghost use Rattle.removals.specs.Needs.{has_clone_and_is_later};

use base::name::DsName;
use base::number::Group;
use datasets::{CloneName, FileSystem, Snapshot, Table, is_in_family};
use std::sync::Arc;

/// Whether one of this file system's snapshots of later groups has a clone in the table. It costs the number of its snapshots, and for each
/// later one the logarithm of the number of clones.
pub(crate) fn any_later_has_clone(table: &Table, file_system: &FileSystem, group: Group) -> bool
    ensures { result ≡ list_any (has_clone_and_is_later table.now group.0) file_system.now.system.snaps }
{
    for kept in file_system.snapshots().iter() {
        if kept.snapshot.group() > group && table.has_clone(kept.snapshot.id()) {
            return true;
        }
    }
    false
}

// Whether this clone is outside the family of that name: neither the file system of that name nor a descendant.
fn is_outside(clone: &CloneName, name: &DsName) -> bool
    ensures { result ≡ not (is_in_family name.now (name_of clone.now)) }
{
    !is_in_family(name.as_bytes(), clone.name().as_bytes())
}

// Whether one of these clones is outside the family of that name.
fn any_outside(clones: &[CloneName], name: &DsName) -> bool
    ensures { result ≡ list_any (λ c. not (is_in_family name.now (name_of c))) clones.now }
{
    clones.iter().any(|clone| is_outside(clone, name))
}

// Whether this snapshot has a clone outside the family of that name. It costs the logarithm of the number of all clones, and the number of the
// snapshot's clones.
fn is_cloned_outside(table: &Table, name: &DsName, snapshot: &Snapshot) -> bool
    ensures { result ≡ is_cloned_outside table.now name.now snapshot.now }
{
    any_outside(table.clones_of(snapshot.id()), name)
}

// Whether a snapshot of this file system has a clone outside the family of that name. It costs what `is_cloned_outside` does for each.
fn any_has_clone_outside(table: &Table, name: &DsName, file_system: &FileSystem) -> bool
    ensures { result ≡ list_any (is_cloned_outside table.now name.now) file_system.now.system.snaps }
{
    for kept in file_system.snapshots().iter() {
        if is_cloned_outside(table, name, &kept.snapshot) {
            return true;
        }
    }
    false
}

// Whether this file system is of the family of that name, and a snapshot of it has a clone outside the family.
fn is_cloned_within(table: &Table, name: &DsName, file_system: &FileSystem) -> bool
    ensures { result ≡ (is_in_family name.now file_system.now.name && list_any (is_cloned_outside table.now name.now) file_system.now.system.snaps) }
{
    is_in_family(name.as_bytes(), file_system.name().as_bytes())
        && any_has_clone_outside(table, name, file_system)
}

// Whether one of these file systems is of the family of that name, and a snapshot of it has a clone outside the family.
fn any_cloned_within(file_systems: &[Arc<FileSystem>], table: &Table, name: &DsName) -> bool
    ensures { result ≡ list_any (λ a. is_in_family name.now (entry_in a).0 && list_any (is_cloned_outside table.now name.now) (entry_in a).1.snaps) file_systems.now }
{
    file_systems
        .iter()
        .any(|file_system| is_cloned_within(table, name, file_system))
}

/// Whether a snapshot of the file system of this name or of a descendant has a clone that is neither. It costs the number of file systems, and
/// for each snapshot of the family the logarithm of the number of all clones, and the number of the snapshot's clones.
pub(crate) fn family_has_clone_outside(table: &Table, name: &DsName) -> bool
    ensures { result ≡ list_any (is_outside_clone table.now name.now) (entries table.now.file_systems) }
{
    table.facts();
    any_cloned_within(table.file_systems(), table, name)
}

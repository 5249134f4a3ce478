//! Snapshots that tags and the open views of a pool keep.
ghost use Rattle.std.specs.Prelude.{◌≡◌, ◌&&◌};
ghost use Rattle.std.specs.List.{list_any};
ghost use Rattle.std.specs.FinMap.{entries};
ghost use Rattle.datasets.specs.Rows.{entry_in};
ghost use Rattle.model.specs.Hierarchy.{is_in_family};
ghost use Rattle.removals.specs.Needs.{is_held, is_held_after};

use base::name::DsName;
use base::number::Group;
use datasets::{FileSystem, Snapshot, Table, is_in_family};
use snap::Views;
use std::sync::Arc;

/// Whether a tag or an open view keeps this snapshot. It costs the number of open views.
pub(crate) fn is_held(views: &Views, snapshot: &Snapshot) -> bool
    ensures { result ≡ is_held views.now.opened snapshot.now }
{
    snapshot.is_held() || views.is_viewed(snapshot.id())
}

/// Whether a tag or an open view keeps one of this file system's snapshots of later groups. It costs the number of its snapshots, and for each
/// later one the number of open views.
pub(crate) fn any_later_held(file_system: &FileSystem, group: Group, views: &Views) -> bool
    ensures { result ≡ list_any (is_held_after views.now.opened group.0) file_system.now.system.snaps }
{
    for kept in file_system.snapshots().iter() {
        if kept.snapshot.group() > group && is_held(views, &kept.snapshot) {
            return true;
        }
    }
    false
}

// Whether this file system is of the family of that name, and a tag or an open view keeps a snapshot of it.
fn is_held_within(file_system: &FileSystem, name: &DsName, views: &Views) -> bool
    ensures { result ≡ (is_in_family name.now file_system.now.name && list_any (is_held_after views.now.opened 0) file_system.now.system.snaps) }
{
    is_in_family(name.as_bytes(), file_system.name().as_bytes())
        && any_later_held(file_system, Group(0), views)
}

// Whether one of these file systems is of the family of that name, and a tag or an open view keeps a snapshot of it.
fn any_held_within(file_systems: &[Arc<FileSystem>], name: &DsName, views: &Views) -> bool
    ensures { result ≡ list_any (λ a. is_in_family name.now (entry_in a).0 && list_any (is_held_after views.now.opened 0) (entry_in a).1.snaps) file_systems.now }
{
    file_systems
        .iter()
        .any(|file_system| is_held_within(file_system, name, views))
}

/// Whether a tag or an open view keeps a snapshot of the file system of this name or of a descendant. It costs the number of file systems, and
/// for each snapshot of the family the number of open views.
pub(crate) fn any_of_family_held(table: &Table, views: &Views, name: &DsName) -> bool
    ensures { result ≡ list_any (λ r. is_in_family name.now r.0 && list_any (is_held_after views.now.opened 0) r.1.snaps) (entries table.now.file_systems) }
{
    any_held_within(table.file_systems(), name, views)
}

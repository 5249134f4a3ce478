//! Renames of snapshots.
ghost use Rattle.std.specs.Prelude.{◌≡◌, ◌⊎◌, ◌∷◌, [], true, false, Some, None, IfSome, IfOk, IfErr, OnOk, OnErr, is_some, length};
ghost use Rattle.std.specs.FinMap.{entries};
ghost use Rattle.std.specs.List.{list_any};
ghost use Rattle.std.specs.Option.{option_copied, option_map};
ghost use Rattle.base.specs.Names.{same_name};
ghost use Rattle.base.specs.declared.refusal.Refusal.{Refusal};
ghost use Rattle.model.specs.Ids.{snap_id};
ghost use Rattle.model.specs.Lengths.{is_long};
ghost use Rattle.model.specs.Rule.{first_of};
ghost use Rattle.model.specs.State.{is_viewed};
ghost use Rattle.model.specs.World.{id_of, snap_named};
ghost use Rattle.world.specs.Tables.{world_of};
ghost use Rattle.datasets.specs.Rows.{entry_in, entry_of};
ghost use Rattle.marks.specs.Naming.{snaps_renamed_in, snap_naming_refusal, renamed_at, is_long_at, is_taken_at, is_viewed_at};

use base::name::{Component, Member, NAME_LIMIT};
use base::refusal::Refusal;
use datasets::{FileSystem, Snapshot, Table, is_in_family};
use model::snapshot_id::SnapshotId;
use snap::Views;
use std::alloc::Global;
use std::sync::Arc;

/// Renames the snapshot of this name within its file system, and with `recursive` those of this name of all file systems below it (zfs-rename(8),
/// -r). Refused are NoDataset where no snapshot has the name, else BadName where a new whole name would have over 255 bytes, else Exists where a file
/// system whose snapshot would be renamed has one of the new name, else Busy where an open view shows one that would be renamed; else NoMemory where
/// memory is refused (the order, the limit and views are profile). At `Err` the table is as it was. No tree and no dead list is visited. Without
/// `recursive` it costs the logarithms of the numbers of file systems and of snapshots of one, the number of open views, and a walk over chunks; with
/// it also the number of file systems, and the same for each snapshot.
pub fn rename_snapshot(
    alloc: Global,
    table: &mut Table,
    views: &Views,
    name: &Member,
    to: &Component,
    recursive: bool,
) -> Result<(), Refusal>
    ensures ok { OnOk result (table.new ≡ snaps_renamed_in table.old name.now to.now recursive) }
    ensures can { OnOk result (snap_naming_refusal table.old views.now.opened name.now to.now recursive ≡ None) }
    ensures refused { IfSome (snap_naming_refusal table.old views.now.opened name.now to.now recursive) (λ e. result ≡ Err e) }
    ensures unchanged { OnErr result (table.new ≡ table.old) }
    ensures only { IfErr result (λ e. (snap_naming_refusal table.old views.now.opened name.now to.now recursive ≡ Some e) ⊎ (e ≡ Refusal.NoMemory)) }
{
    let id = renamed_id(table, views, name, to, recursive)?;
    table.facts();
    if !recursive {
        return table.rename_snapshot(alloc, &name.file_system, id, to);
    }
    let renamed = renamed_copy(alloc, table, name, to)?;
    *table = renamed;
    Ok(())
}

// The identity of the snapshot of this name, or why the rename is refused, as `rename_snapshot` says and with its cost.
fn renamed_id(
    table: &Table,
    views: &Views,
    name: &Member,
    to: &Component,
    recursive: bool,
) -> Result<SnapshotId, Refusal>
    ensures ok { IfOk result (λ id. option_map id_of (snap_named (world_of table.now) name.now) ≡ Some (snap_id id)) }
    ensures can { IfOk result (λ id. snap_naming_refusal table.now views.now.opened name.now to.now recursive ≡ None) }
    ensures err { IfErr result (λ e. snap_naming_refusal table.now views.now.opened name.now to.now recursive ≡ Some e) }
{
    table.facts();
    let Some((own, snapshot)) = table.snapshot_named(&name.file_system, &name.component) else {
        return Err(Refusal::NoDataset);
    };
    let refusal = if recursive {
        refusal_below(table, views, name, to)
    } else {
        refusal_here(own, snapshot, views, to)
    };
    match refusal {
        Some(refusal) => Err(refusal),
        None => Ok(snapshot.id()),
    }
}

// Why this snapshot of a file system can't get the name, if it can't. It costs the logarithm of the number of the file system's snapshots, and the
// number of open views.
fn refusal_here(
    own: &FileSystem,
    snapshot: &Snapshot,
    views: &Views,
    to: &Component,
) -> Option<Refusal>
    ensures { result ≡ first_of ((is_long (length own.now.name) to.now, Refusal.BadName) ∷ (list_any (λ u. same_name u.name to.now) own.now.system.snaps, Refusal.Exists) ∷ (is_viewed views.now.opened (id_of snapshot.now), Refusal.Busy) ∷ []) }
{
    if makes_long(own, to) {
        return Some(Refusal::BadName);
    }
    if has_named(own, to) {
        return Some(Refusal::Exists);
    }
    if views.is_viewed(snapshot.id()) {
        return Some(Refusal::Busy);
    }
    None
}

// Why a snapshot of this name, which is there, and those of its name below can't get another name, if they can't. It costs the number of file systems,
// and for each snapshot that would be renamed what `refusal_here` does.
fn refusal_below(table: &Table, views: &Views, name: &Member, to: &Component) -> Option<Refusal>
    requires there { is_some (snap_named (world_of table.now) name.now) ≡ true }
    ensures { result ≡ snap_naming_refusal table.now views.now.opened name.now to.now true }
{
    table.facts();
    let rows = table.file_systems();
    if any_long(rows, name, to) {
        return Some(Refusal::BadName);
    }
    if any_taken(rows, name, to) {
        return Some(Refusal::Exists);
    }
    if any_viewed(rows, views, name) {
        return Some(Refusal::Busy);
    }
    None
}

// A copy of the table in which the snapshot of this name and those of its name below have the new name, which no other of their file systems has.
// NoMemory where there is none for it.
fn renamed_copy(
    alloc: Global,
    table: &Table,
    name: &Member,
    to: &Component,
) -> Result<Table, Refusal>
    requires free { list_any (is_taken_at name.now to.now true) (entries table.now.file_systems) ≡ false }
    ensures ok { IfOk result (λ t. t ≡ snaps_renamed_in table.now name.now to.now true) }
    ensures err { IfErr result (λ e. e ≡ Refusal.NoMemory) }
{
    table.facts();
    let mut copy = table.copy()?;
    for file_system in table.file_systems() {
        if let Some(snapshot) = renamed_in(file_system, name) {
            copy.rename_snapshot(alloc, file_system.name(), snapshot.id(), to)?;
        }
    }
    Ok(copy)
}

// The snapshot of the file system that a rename of the one of this name, with those below, renames, or None. It costs the lengths of the names, and
// the logarithm of the number of the file system's snapshots.
fn renamed_in<'a>(file_system: &'a FileSystem, name: &Member) -> Option<&'a Snapshot>
    ensures { option_copied result ≡ renamed_at name.now true (entry_of file_system.now) }
{
    if !is_in_family(name.file_system.as_bytes(), file_system.name().as_bytes()) {
        return None;
    }
    file_system.snapshot_named(name.component.as_bytes())
}

// Whether a snapshot of the file system has too long a whole name under this name. Constant time.
fn makes_long(file_system: &FileSystem, to: &Component) -> bool
    ensures { result ≡ is_long (length file_system.now.name) to.now }
{
    file_system.name().as_bytes().len() + to.as_bytes().len() >= NAME_LIMIT
}

// Whether the file system has a snapshot of this name. It costs the logarithm of their number.
fn has_named(file_system: &FileSystem, to: &Component) -> bool
    ensures { result ≡ list_any (λ u. same_name u.name to.now) file_system.now.system.snaps }
{
    file_system.snapshot_named(to.as_bytes()).is_some()
}

// Whether it renames one of the file system to too long a whole name.
fn is_long(file_system: &FileSystem, name: &Member, to: &Component) -> bool
    ensures { result ≡ is_long_at name.now to.now true (entry_of file_system.now) }
{
    renamed_in(file_system, name).is_some() && makes_long(file_system, to)
}

// Whether it renames one of the file system, which has one of the new name.
fn is_taken(file_system: &FileSystem, name: &Member, to: &Component) -> bool
    ensures { result ≡ is_taken_at name.now to.now true (entry_of file_system.now) }
{
    renamed_in(file_system, name).is_some() && has_named(file_system, to)
}

// Whether it renames one of the file system that an open view shows.
fn is_viewed(file_system: &FileSystem, views: &Views, name: &Member) -> bool
    ensures { result ≡ is_viewed_at views.now.opened name.now true (entry_of file_system.now) }
{
    match renamed_in(file_system, name) {
        Some(snapshot) => views.is_viewed(snapshot.id()),
        None => false,
    }
}

// Whether one of these file systems has such a snapshot. It costs their number.
fn any_long(rows: &[Arc<FileSystem>], name: &Member, to: &Component) -> bool
    ensures { result ≡ list_any (λ a. is_long_at name.now to.now true (entry_in a)) rows.now }
{
    rows.iter()
        .any(|file_system| is_long(file_system, name, to))
}

// Whether one of these file systems has such a snapshot. It costs their number.
fn any_taken(rows: &[Arc<FileSystem>], name: &Member, to: &Component) -> bool
    ensures { result ≡ list_any (λ a. is_taken_at name.now to.now true (entry_in a)) rows.now }
{
    rows.iter()
        .any(|file_system| is_taken(file_system, name, to))
}

// Whether one of these file systems has such a snapshot. It costs their number.
fn any_viewed(rows: &[Arc<FileSystem>], views: &Views, name: &Member) -> bool
    ensures { result ≡ list_any (λ a. is_viewed_at views.now.opened name.now true (entry_in a)) rows.now }
{
    rows.iter()
        .any(|file_system| is_viewed(file_system, views, name))
}

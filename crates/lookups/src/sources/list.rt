//! The list of the sources of a send.
ghost use Rattle.std.specs.Prelude.{◌≡◌, ◌++◌, Some, IsSome, IfSome, IfOk, IfErr, OnOk};
ghost use Rattle.base.specs.declared.refusal.Refusal.{Refusal};
ghost use Rattle.model.specs.World.{id_of, snap_named};
ghost use Rattle.model.specs.requests.Send.{sources_of, bookmark_sources};
ghost use Rattle.lookups.specs.Places.{IsPlace};
ghost use Rattle.world.specs.Tables.{world_of};
ghost use Rattle.lookups.specs.Sources.{lineage_sources, older_sources};

use crate::sources::source::{bookmark_source, snapshot_source};
use base::name::SnapName;
use base::number::Group;
use base::refusal::Refusal;
use datasets::{FileSystem, Snapshot, Table};
use model::source::Source;
use std::alloc::Global;

/// The sources that a send of the snapshot of this name, which is there, may start from (zfs-send(8), -i): the older snapshots of its lineage,
/// the newest first, and then the bookmarks of its file system with lower groups, by group and then by name (the order is profile). NoMemory
/// where memory is refused. It costs the logarithms of the numbers of file systems and of the snapshots of one; for each file system of the
/// lineage the number of its snapshots and the lookup of its origin; the names; and what `Bookmarks::in_order` does.
pub fn sources_of(alloc: Global, table: &Table, snapshot: &SnapName) -> Result<Vec<Source>, Refusal>
    requires { IsSome (snap_named (world_of table.now) snapshot.now) }
    ensures ok { IfSome (snap_named (world_of table.now) snapshot.now) (λ u. IfOk result (λ sources. sources.items ≡ sources_of (world_of table.now) (id_of u))) }
    ensures err { IfErr result (λ e. e ≡ Refusal.NoMemory) }
{
    table.facts();
    let name = snapshot.member();
    let Some((file_system, sent)) = table.snapshot_named(&name.file_system, &name.component) else {
        unreachable!()
    };
    let mut sources = Vec::new(alloc);
    push_lineage(alloc, &mut sources, table, file_system, sent)?;
    push_bookmarks(&mut sources, file_system, sent.group())?;
    Ok(sources)
}

// Adds the older snapshots of the lineage of this snapshot of this file system, the newest first. The walk goes down from this file system to
// that of its origin and so on. NoMemory where memory is refused.
fn push_lineage(
    alloc: Global,
    sources: &mut Vec<Source>,
    table: &Table,
    file_system: &FileSystem,
    snapshot: &Snapshot,
) -> Result<(), Refusal>
    requires { IsPlace table.now file_system.now (Some snapshot.now) }
    ensures ok { OnOk result (sources.new.items ≡ sources.old.items ++ lineage_sources table.now (id_of snapshot.now)) }
    ensures err { IfErr result (λ e. e ≡ Refusal.NoMemory) }
{
    table.facts();
    let (mut passed, mut at) = (file_system, snapshot);
    'lineage: loop {
        push_older(alloc, sources, passed, at.group())?;
        let Some(origin) = passed.origin() else {
            return Ok(());
        };
        let Some((owner, next)) = table.snapshot_of(origin) else {
            unreachable!()
        };
        sources.push(snapshot_source(owner, next)?)?;
        passed = owner;
        at = next;
    }
}

// Adds the snapshots of this file system that are older than this group, the newest first. NoMemory where memory is refused. It costs the number
// of its snapshots, and the names.
fn push_older(
    alloc: Global,
    sources: &mut Vec<Source>,
    file_system: &FileSystem,
    group: Group,
) -> Result<(), Refusal>
    ensures ok { OnOk result (sources.new.items ≡ sources.old.items ++ older_sources file_system.now.name group.0 file_system.now.system.snaps) }
    ensures err { IfErr result (λ e. e ≡ Refusal.NoMemory) }
{
    let mut older = Vec::new(alloc);
    for kept in file_system.snapshots().iter() {
        if kept.snapshot.group().0 < group.0 {
            older.push(snapshot_source(file_system, &kept.snapshot)?)?;
        }
    }
    older.reverse();
    sources.append(&mut older)?;
    Ok(())
}

// Adds the bookmarks of this file system with groups below this one, by group and then by name. NoMemory where memory is refused. It costs what
// `Bookmarks::in_order` does, and the names.
fn push_bookmarks(
    sources: &mut Vec<Source>,
    file_system: &FileSystem,
    group: Group,
) -> Result<(), Refusal>
    ensures ok { OnOk result (sources.new.items ≡ sources.old.items ++ bookmark_sources file_system.now.name file_system.now.system group.0) }
    ensures err { IfErr result (λ e. e ≡ Refusal.NoMemory) }
{
    let marks = file_system.bookmarks().in_order()?;
    for mark in marks.as_slice() {
        if mark.snapshot.group.0 < group.0 {
            sources.push(bookmark_source(file_system, mark)?)?;
        }
    }
    Ok(())
}

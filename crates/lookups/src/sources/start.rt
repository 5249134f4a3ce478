//! The start of a send, found by the name of its source.
ghost use Rattle.std.specs.Prelude.{◌≡◌, Some, None, IfSome, IfOk, IfErr, OnOk};
ghost use Rattle.std.specs.Option.{option_copied};
ghost use Rattle.base.specs.declared.name.target.Target.{Target};
ghost use Rattle.stream.specs.Spelling.{guid_number};
ghost use Rattle.model.specs.Ids.{snap_id};
ghost use Rattle.model.specs.Rule.{first_of};
ghost use Rattle.model.specs.World.{id_of};
ghost use Rattle.model.specs.requests.Send.{sources_of, start_of, start_named, no_source, send_row};
ghost use Rattle.lookups.specs.Places.{IsPlace};
ghost use Rattle.world.specs.Tables.{world_of};
ghost use Rattle.lookups.specs.Starts.{start_at};

use crate::sources::lineage::is_older;
use base::name::{Member, Target};
use base::number::{Group, Guid};
use base::refusal::Refusal;
use datasets::{FileSystem, Snapshot, Table};
use model::snapshot_id::SnapshotId;
use std::marker::Model;

/// The start of a send: the guid and the creation group of its source, and 0 for both in a full send (zfs-send(8), -i).
#[derive(Clone, Copy)]
pub struct Start {
    pub guid: Guid,
    pub group: Group,
}

impl Model for Start {
    ghost use Rattle.model.specs.requests.Send.{Start};

    ghost Value = { Start };

    ghost view = { λ s. record { guid = s.guid.0; group = s.group.0 } };

    ghost inverse = { λ s. record { guid = record { 0 = s.guid }; group = record { 0 = s.group } } };
}

impl Start {
    /// The guid of the source, and none for a full send. Constant time.
    pub fn source(&self) -> Option<Guid>
        ensures { guid_number result ≡ self.now.guid }
    {
        if self.guid.0 == 0 {
            return None;
        }
        Some(self.guid)
    }
}

/// The start of a send of the snapshot of this name from the source `from`, or of a full send where that is none (zfs-send(8), -i). NotSnapshot
/// exactly where the target isn't the name of a snapshot; else NoDataset exactly where there is no such snapshot; else NotAncestor exactly where
/// the source is neither an older snapshot of the snapshot's lineage nor a bookmark of its file system with a lower group. It takes no memory.
/// It costs the logarithms of the numbers of file systems and of the snapshots and bookmarks of one. Where the source is a snapshot, it also
/// costs the lookup of an origin for each file system of the lineage down to the source's.
pub fn start_of(table: &Table, target: &Target, from: Option<&Target>) -> Result<Start, Refusal>
    ensures ok { IfOk result (λ start. start_named (world_of table.now) target.now (option_copied from.entry) ≡ Some start) }
    ensures can { OnOk result (first_of (send_row (world_of table.now) target.now (option_copied from.entry)) ≡ None) }
    ensures refused { IfSome (first_of (send_row (world_of table.now) target.now (option_copied from.entry))) (λ e. result ≡ Err e) }
    ensures only { IfErr result (λ e. first_of (send_row (world_of table.now) target.now (option_copied from.entry)) ≡ Some e) }
{
    let Target::Snapshot(name) = target else {
        return Err(Refusal::NotSnapshot);
    };
    let name = name.member();
    let Some((file_system, snapshot)) = table.snapshot_named(&name.file_system, &name.component)
    else {
        return Err(Refusal::NoDataset);
    };
    match start_from(table, file_system, snapshot, from) {
        Some(start) => Ok(start),
        None => Err(Refusal::NotAncestor),
    }
}

// The start of a send of this snapshot of this file system from the source `from`, or of a full send; none where `from` isn't a source of it. It
// costs what `start_of` does.
fn start_from(
    table: &Table,
    file_system: &FileSystem,
    snapshot: &Snapshot,
    from: Option<&Target>,
) -> Option<Start>
    requires { IsPlace table.now file_system.now (Some snapshot.now) }
    ensures { result ≡ start_of (sources_of (world_of table.now) (id_of snapshot.now)) (option_copied from.entry) }
{
    match from {
        Some(source) => start_from_source(table, file_system, snapshot, source),
        None => Some(full_start()),
    }
}

// The start of a send of this snapshot of this file system from this source; none where it isn't a source of it.
fn start_from_source(
    table: &Table,
    file_system: &FileSystem,
    snapshot: &Snapshot,
    source: &Target,
) -> Option<Start>
    requires { IsPlace table.now file_system.now (Some snapshot.now) }
    ensures { result ≡ start_of (sources_of (world_of table.now) (id_of snapshot.now)) (Some source.now) }
{
    table.facts();
    match source {
        Target::FileSystem(_) => None,
        Target::Snapshot(name) => {
            start_from_snapshot(table, file_system, snapshot, name.member())
        }
        Target::Bookmark(name) => {
            start_from_bookmark(table, file_system, snapshot, name.member())
        }
    }
}

// The start of a send of this snapshot of this file system from the snapshot of this name; none where that isn't an older one of its lineage.
fn start_from_snapshot(
    table: &Table,
    file_system: &FileSystem,
    snapshot: &Snapshot,
    source: &Member,
) -> Option<Start>
    requires { IsPlace table.now file_system.now (Some snapshot.now) }
    ensures { result ≡ start_of (sources_of (world_of table.now) (id_of snapshot.now)) (Some (Target.Snapshot source.now)) }
{
    table.facts();
    let (owner, older) = table.snapshot_named(&source.file_system, &source.component)?;
    let id = older.id();
    if !is_older(table, file_system, snapshot, owner.name(), id) {
        return None;
    }
    Some(start_at(id))
}

// The start of a send of this snapshot of this file system from the bookmark of this name; none where that isn't one of the file system with a
// lower group.
fn start_from_bookmark(
    table: &Table,
    file_system: &FileSystem,
    snapshot: &Snapshot,
    source: &Member,
) -> Option<Start>
    requires { IsPlace table.now file_system.now (Some snapshot.now) }
    ensures { result ≡ start_of (sources_of (world_of table.now) (id_of snapshot.now)) (Some (Target.Bookmark source.now)) }
{
    table.facts();
    if !file_system.is_named(source.file_system.as_bytes()) {
        return None;
    }
    let id = file_system.bookmarks().get(source.component.as_bytes())?;
    if id.group.0 >= snapshot.group().0 {
        return None;
    }
    Some(start_at(id))
}

// The start of a full send.
pub fn full_start() -> Start
    ensures { result ≡ no_source }
{
    Start {
        guid: Guid(0),
        group: Group(0),
    }
}

// The start at a source of this identity.
fn start_at(id: SnapshotId) -> Start
    ensures { result ≡ start_at (snap_id id) }
{
    Start {
        guid: id.guid,
        group: id.group,
    }
}

//! The refusals of a receive.
ghost use Rattle.std.specs.Prelude.{◌≡◌, Some, None, not};
ghost use Rattle.std.specs.FinMap.{get};
ghost use Rattle.std.specs.List.{last_or};
ghost use Rattle.model.specs.Rule.{first_of};
ghost use Rattle.model.specs.requests.Receive.{same_map, has_no_room, new_row, newest_row, past_row, replace_row, origin_row};
ghost use Rattle.world.specs.Tables.{world_of};
ghost use Rattle.receives.specs.Requests.{receive_refusal, going_refusal};

use crate::sources::{count_after, has_snapshot_upto, newest_of, source_of};
use base::name::{Component, DsName, Member};
use base::number::{Group, Guid};
use base::refusal::Refusal;
use datasets::{FileSystem, LAST_GROUP, SNAPSHOT_LIMIT, Snapshot, Table};
use model::receiving::Receiving;
use removals::refusal_after;
use snap::Views;
use stream::Stream;

/// The refusal of a receive of this stream as a snapshot of this name, if any, without the limits of file systems (zfs-receive(8)). BadStream where
/// a full stream is to make a clone, or an incremental one is to replace a file system; else as the function for the mode says. It costs the
/// logarithms of the numbers of file systems and of the snapshots of this one. Where snapshots go it also costs their number, and for each that of
/// the open views and the logarithm of the number of clones.
pub(crate) fn receive_refusal(
    table: &Table,
    views: &Views,
    name: &Member,
    stream: &Stream,
    mode: &Receiving,
) -> Option<Refusal>
    ensures { result ≡ receive_refusal table.now views.now.opened name.now stream.now mode.now }
{
    let Some(source) = stream.source() else {
        return match mode {
            Receiving::Replace => replace_refusal(table, views, &name.file_system),
            Receiving::Origin(_) => Some(Refusal::BadStream),
            _ => new_refusal(table, &name.file_system),
        };
    };
    match mode {
        Receiving::Plain => newest_refusal(table, name, source, false),
        Receiving::Back => newest_refusal(table, name, source, true),
        Receiving::Past => past_refusal(table, views, name, source),
        Receiving::Origin(origin) => {
            origin_refusal(table, &name.file_system, origin.member(), source)
        }
        Receiving::Replace => Some(Refusal::BadStream),
    }
}

// The refusal of a new file system of this name with one snapshot, if any: Exists where there is a file system of this name, else NoParent where
// its parent isn't there, else TooMany where there are 1,024 file systems, or as `has_no_room` says (zfs-receive(8); numbers are profile). It costs
// the logarithm of the number of file systems.
fn new_refusal(table: &Table, name: &DsName) -> Option<Refusal>
    ensures { result ≡ first_of (new_row (world_of table.now) name.now) }
{
    if let Some(refusal) = table.create_refusal(name) {
        return Some(refusal);
    }
    if has_no_room(table, 0) {
        return Some(Refusal::TooMany);
    }
    None
}

// The refusal of an incremental stream whose source must be the newest snapshot, if any: NoDataset where there is no file system of this name, else
// Exists where it has a snapshot of this name, else WrongSource where it has no snapshot or the newest one hasn't that guid, else Modified where
// its live map isn't that snapshot's and `force` isn't set, else TooMany as `has_no_room` says (zfs-receive(8), -F; the order and numbers are
// profile). It costs the logarithms of the numbers of file systems and of the snapshots of this one; no block is visited.
fn newest_refusal(table: &Table, name: &Member, source: Guid, force: bool) -> Option<Refusal>
    ensures { result ≡ first_of (newest_row (world_of table.now) name.now source.0 force) }
{
    let Some(file_system) = table.find(&name.file_system) else {
        return Some(Refusal::NoDataset);
    };
    refusal_at(table, file_system, &name.component, source, force)
}

// The refusal of an incremental stream into this file system of the table, if any, as `incremental_refusal` says.
fn refusal_at(
    table: &Table,
    file_system: &FileSystem,
    component: &Component,
    source: Guid,
    force: bool,
) -> Option<Refusal>
    requires there { get table.now.file_systems file_system.now.name ≡ Some file_system.now.system }
    ensures { result ≡ first_of (newest_row (world_of table.now) (record { file_system = file_system.now.name; component = component.now }) source.0 force) }
{
    if file_system.snapshot_named(component.as_bytes()).is_some() {
        return Some(Refusal::Exists);
    }
    let Some(newest) = newest_of(file_system) else {
        return Some(Refusal::WrongSource);
    };
    if newest.guid() != source {
        return Some(Refusal::WrongSource);
    }
    if !force && is_modified(table, file_system, newest) {
        return Some(Refusal::Modified);
    }
    if has_no_room(table, 0) {
        return Some(Refusal::TooMany);
    }
    None
}

// The refusal of an incremental stream that is received past newer snapshots, if any: NoDataset where there is no file system of this name, else
// WrongSource where none of its snapshots has that guid, else Exists where it has a snapshot of this name that would stay, else as
// `going_refusal` says of those that would go (zfs-receive(8), -F; the order is profile). It costs the logarithm of the number of file systems
// and what `going_refusal` does.
fn past_refusal(table: &Table, views: &Views, name: &Member, source: Guid) -> Option<Refusal>
    ensures { result ≡ first_of (past_row (world_of table.now) views.now.opened name.now source.0) }
{
    let Some(file_system) = table.find(&name.file_system) else {
        return Some(Refusal::NoDataset);
    };
    past_refusal_at(table, views, file_system, &name.component, source)
}

// The refusal that `past_refusal` says, of this file system of the table.
fn past_refusal_at(
    table: &Table,
    views: &Views,
    file_system: &FileSystem,
    component: &Component,
    source: Guid,
) -> Option<Refusal>
    requires there { get table.now.file_systems file_system.now.name ≡ Some file_system.now.system }
    ensures { result ≡ first_of (past_row (world_of table.now) views.now.opened (record { file_system = file_system.now.name; component = component.now }) source.0) }
{
    let Some(source) = source_of(file_system, source) else {
        return Some(Refusal::WrongSource);
    };
    if has_snapshot_upto(file_system, component, source.group()) {
        return Some(Refusal::Exists);
    }
    going_refusal(table, views, file_system, source.group())
}

// The refusal of a full stream that replaces the file system of this name, if any: NoDataset where there is none, else Exists where it is a clone,
// else as `going_refusal` says of its snapshots (zfs-receive(8), -F; the order is profile). It costs the logarithm of the number of file systems
// and what `going_refusal` does.
fn replace_refusal(table: &Table, views: &Views, name: &DsName) -> Option<Refusal>
    ensures { result ≡ first_of (replace_row (world_of table.now) views.now.opened name.now) }
{
    table.facts();
    let Some(file_system) = table.find(name) else {
        return Some(Refusal::NoDataset);
    };
    if file_system.origin().is_some() {
        return Some(Refusal::Exists);
    }
    going_refusal(table, views, file_system, Group(0))
}

// The refusal of an incremental stream that makes a clone of the snapshot of that name, if any: NoDataset where there is no such snapshot, else
// Deferred where its destroy is deferred, else WrongSource where it hasn't that guid, else as `new_refusal` says (zfs-receive(8), -o origin; the
// order is profile). It costs the logarithms of the numbers of file systems and of the origin's snapshots.
fn origin_refusal(table: &Table, name: &DsName, origin: &Member, source: Guid) -> Option<Refusal>
    ensures { result ≡ first_of (origin_row (world_of table.now) name.now origin.now source.0) }
{
    let Some(snapshot) = table.snapshot(origin) else {
        return Some(Refusal::NoDataset);
    };
    if snapshot.is_deferred() {
        return Some(Refusal::Deferred);
    }
    if snapshot.guid() != source {
        return Some(Refusal::WrongSource);
    }
    new_refusal(table, name)
}

// The refusal of one new snapshot in the place of those that this file system of the table has of a later group, if any: Busy where one of them has
// a tag or an open view, else HasClones where one has a clone, else TooMany as `has_no_room` says (zfs-destroy(8); the view and numbers are
// profile). It costs what `removals::refusal_after` does.
fn going_refusal(
    table: &Table,
    views: &Views,
    file_system: &FileSystem,
    group: Group,
) -> Option<Refusal>
    requires there { get table.now.file_systems file_system.now.name ≡ Some file_system.now.system }
    ensures { result ≡ going_refusal table.now file_system.now.system group.0 views.now.opened }
{
    table.facts();
    if let Some(refusal) = refusal_after(table, file_system, group, views) {
        return Some(refusal);
    }
    if has_no_room(table, count_after(file_system, group)) {
        return Some(Refusal::TooMany);
    }
    None
}

// Whether the live map of this file system of the table differs from that of its newest snapshot (zfs-receive(8)). The two are the same where
// the live map has no block that the snapshot lacks and both have as many blocks, since a number names one block. Constant time: no block is
// visited.
fn is_modified(table: &Table, file_system: &FileSystem, newest: &Snapshot) -> bool
    requires there { get table.now.file_systems file_system.now.name ≡ Some file_system.now.system }
    requires newest { last_or None file_system.now.system.snaps ≡ Some newest.now }
    ensures { result ≡ not (same_map file_system.now.system.live newest.now.map) }
{
    table.facts();
    let (live, kept) = (file_system.live(), newest.tree());
    file_system.written() > 0 || live.node_count() != kept.node_count()
}

// Whether there is no room for one more snapshot once `going` of them are gone: there would be too many, or its group couldn't be closed (profile).
// Constant time.
fn has_no_room(table: &Table, going: usize) -> bool
    ensures { result ≡ has_no_room (world_of table.now) going }
{
    table.snapshot_count().saturating_sub(going) >= SNAPSHOT_LIMIT || table.group().0 >= LAST_GROUP
}

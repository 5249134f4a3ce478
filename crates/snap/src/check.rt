//! Why snapshots can't be taken.
ghost use Rattle.std.specs.Prelude.{◌≡◌, ◌<◌, ◌⊎◌, Some, None, IfOk, IfErr, OnOk, is_some, nat_lt, not};
ghost use Rattle.std.specs.List.{list_any};
ghost use Rattle.std.specs.FinMap.{contains_key};
ghost use Rattle.base.specs.Names.{whole_length};
ghost use Rattle.model.specs.World.{snap_named};
ghost use Rattle.model.specs.Targets.{name_limit};
ghost use Rattle.model.specs.Rule.{first_of};
ghost use Rattle.model.specs.requests.Snapshot.{has_twice, has_no_room_for};
ghost use Rattle.world.specs.Tables.{world_of};
ghost use Rattle.snap.specs.Taking.{naming_row};

use crate::named::Named;
use base::name::SnapName;
use base::refusal::Refusal;
use datasets::{LAST_GROUP, SNAPSHOT_LIMIT, Table};
use std::alloc::Global;
use std::collections::BTreeSet;

// The last number of the counter (profile).
const LAST_GUID: u64 = 4294967295;

// Whether the name's file system isn't there. It costs the logarithm of the number of file systems.
fn is_missing(table: &Table, name: &SnapName) -> bool
    ensures { result ≡ not (contains_key table.now.file_systems name.now.file_system) }
{
    table.find(&name.member().file_system).is_none()
}

/// Whether the file system of one of these names isn't there. It costs the names times the logarithm of the number of file systems.
pub fn any_missing(table: &Table, names: &[SnapName]) -> bool
    ensures { result ≡ list_any (λ m. not (contains_key table.now.file_systems m.file_system)) names.now }
{
    names.iter().any(|name| is_missing(table, name))
}

// Whether one of the names is too long. It costs their number.
fn any_too_long(all: &[Named]) -> bool
    ensures { result ≡ list_any (λ m. nat_lt name_limit (whole_length m)) all.now }
{
    all.iter().any(|name| name.is_too_long())
}

// Whether a snapshot of this name is there. It costs the logarithm of the number of file systems, and that of the number of snapshots
// of this one.
fn is_taken(table: &Table, name: &Named) -> bool
    ensures { result ≡ is_some (snap_named (world_of table.now) name.now) }
{
    table
        .snapshot_named(name.file_system, name.component)
        .is_some()
}

// Whether a snapshot of one of these names is there. It costs, for each name, the logarithm of the number of file systems and that of
// the number of snapshots of its own.
fn any_taken(table: &Table, all: &[Named]) -> bool
    ensures { result ≡ list_any (λ m. is_some (snap_named (world_of table.now) m)) all.now }
{
    all.iter().any(|name| is_taken(table, name))
}

// Whether a file system occurs twice. NoMemory where there is none for a set of the names; fewer than two names need no set. It costs the number
// of names times its logarithm.
fn has_twice(alloc: Global, all: &[Named]) -> Result<bool, Refusal>
    ensures ok { IfOk result (λ twice. twice ≡ has_twice all.now) }
    ensures err { IfErr result (λ e. e ≡ Refusal.NoMemory) }
{
    if all.len() < 2 {
        return Ok(false);
    }
    let mut seen = BTreeSet::new(alloc);
    for name in all {
        if !seen.insert(name.file_system.as_bytes())? {
            return Ok(true);
        }
    }
    Ok(false)
}

// Whether there is no room for `count` more snapshots: the pool would have too many, the open group is the last one, or the counter has no guids
// left for them. Constant time.
fn has_no_room(table: &Table, next: u64, count: usize) -> bool
    requires { 0 < count }
    ensures { result ≡ has_no_room_for (world_of table.now) next count }
{
    if count > SNAPSHOT_LIMIT.saturating_sub(table.snapshot_count()) {
        return true;
    }
    if table.group().0 >= LAST_GROUP {
        return true;
    }
    next > LAST_GUID || count as u64 - 1 > LAST_GUID - next
}

/// Refuses snapshots of all these names, whose file systems are there: BadName where a whole name is over 255 bytes, else Exists where there is
/// a snapshot of such a name or a file system occurs twice, else TooMany where there is no room for them. NoMemory may come before TooMany, and
/// before Exists where a file system occurs twice (zfs-snapshot(8); numbers are profile). It costs the number n of names times its logarithm,
/// that of the number of file systems and that of the number of a file system's snapshots.
pub fn check(alloc: Global, table: &Table, all: &[Named], next: u64) -> Result<(), Refusal>
    ensures can { OnOk result (first_of (naming_row (world_of table.now) next all.now) ≡ None) }
    ensures only { IfErr result (λ e. (first_of (naming_row (world_of table.now) next all.now) ≡ Some e) ⊎ (e ≡ Refusal.NoMemory)) }
{
    if any_too_long(all) {
        return Err(Refusal::BadName);
    }
    if any_taken(table, all) || has_twice(alloc, all)? {
        return Err(Refusal::Exists);
    }
    if !all.is_empty() && has_no_room(table, next, all.len()) {
        return Err(Refusal::TooMany);
    }
    Ok(())
}

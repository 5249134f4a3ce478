//! The snapshots that a destroy finds by their names.
ghost use Rattle.std.specs.Prelude.{◌≡◌, ◌&&◌, Bool, List, map, IfOk, IfErr};
ghost use Rattle.std.specs.List.{list_any};
ghost use Rattle.base.specs.declared.refusal.Refusal.{Refusal};
ghost use Rattle.base.specs.declared.name.member.Member.{Member};
ghost use Rattle.model.specs.declared.destroy_target.DestroyTarget.{DestroyTarget};
ghost use Rattle.model.specs.Outcome.{is_needed};
ghost use Rattle.model.specs.World.{id_of};
ghost use Rattle.model.specs.requests.Destroy.{snaps_named};
ghost use Rattle.world.specs.Tables.{world_of};
ghost use Rattle.removals.specs.Found.{found_in, AreThere};
ghost use Rattle.removals.specs.Requests.{destroy_refusal};
ghost use Rattle.removals.specs.Needs.{is_held, has_clone};

use crate::held::is_held;
use base::name::{DsName, SnapName};
use base::refusal::Refusal;
use datasets::{Snapshot, Table};
use snap::{Named, Views, expand};
use std::alloc::Global;
use std::marker::Model;

/// A snapshot that was found by its name, with the name of its file system: a request or a table lends both. Contracts see the pair.
#[derive(Drop)]
pub(crate) struct Found<'a> {
    pub(crate) file_system: &'a DsName,
    pub(crate) snapshot: &'a Snapshot,
}

impl<'a> Model for Found<'a> {
    ghost use Rattle.std.specs.Prelude.{ℕ, List};
    ghost use Rattle.std.specs.Coded.{coded×, coded_list, coded_ℕ};
    ghost use Rattle.model.specs.Codes.{snap_code};
    ghost use Rattle.model.specs.World.{Snap};

    ghost Value = { List ℕ × Snap };

    ghost coded = { coded× (coded_list coded_ℕ) snap_code };

    ghost view = { λ f. (f.file_system.now, f.snapshot.now) };
}

// The snapshots of these names that are there. NoMemory where memory is refused. It costs for each name the logarithm of the number of file
// systems, and that of the number of snapshots of one.
fn found_of<'a>(
    alloc: Global,
    table: &'a Table,
    names: &[Named<'a>],
) -> Result<Vec<Found<'a>>, Refusal>
    ensures ok { IfOk result (λ all. all.items ≡ found_in table.now names.now) }
    ensures err { IfErr result (λ e. e ≡ Refusal.NoMemory) }
{
    let mut all = Vec::with_capacity(alloc, names.len())?;
    for name in names {
        let file_system = name.file_system;
        if let Some((_owner, snapshot)) = table.snapshot_named(file_system, name.component) {
            all.push(Found {
                file_system,
                snapshot,
            })?;
        }
    }
    Ok(all)
}

/// The snapshots of these names, and with `recursive` for each name those of that name of each descendant of its file system, as far as there are
/// any. One that two names stand for stands twice. NoMemory where memory is refused. With `recursive` it costs for each name the number of file
/// systems; and for each snapshot that is asked for the logarithm of that, and that of the number of snapshots of one.
pub(crate) fn find_all<'a>(
    alloc: Global,
    table: &'a Table,
    names: &'a [SnapName],
    recursive: bool,
) -> Result<Vec<Found<'a>>, Refusal>
    ensures ids { IfOk result (λ all. map (λ p. id_of p.1) all.items ≡ snaps_named (world_of table.now) names.now recursive) }
    ensures there { IfOk result (λ all. AreThere table.now all.items) }
    ensures err { IfErr result (λ e. e ≡ Refusal.NoMemory) }
{
    let all = expand(alloc, table, names, recursive)?;
    found_of(alloc, table, &all)
}

// Whether a tag or an open view keeps one of these snapshots. It costs for each the number of open views.
fn any_held(views: &Views, all: &[Found]) -> bool
    ensures { result ≡ list_any (λ p. is_held views.now.opened p.1) all.now }
{
    all.iter().any(|found| is_held(views, found.snapshot))
}

// Whether one of these snapshots has a clone. It costs for each the logarithm of the number of clones.
fn any_cloned(table: &Table, all: &[Found]) -> bool
    ensures { result ≡ list_any (λ p. has_clone table.now (id_of p.1)) all.now }
{
    all.iter().any(|found| table.has_clone(found.snapshot.id()))
}

/// The refusal of the destroy of these snapshots, if any (zfs-destroy(8)). They are all the snapshots of the table that a list of names stands
/// for.
/// NoDataset where there is none; else, without `defer`, Busy where a tag or an open view keeps one of them, else HasClones where one of them
/// has a clone. Without `defer` it costs for each the number of open views and the logarithm of the number of clones.
pub(crate) fn refusal_of(
    table: &Table,
    views: &Views,
    all: &[Found],
    defer: bool,
) -> Option<Refusal>
    requires there { AreThere table.now all.now }
    ensures { (names : List Member) (recursive : Bool) → map (λ p. id_of p.1) all.now ≡ snaps_named (world_of table.now) names recursive → result ≡ destroy_refusal table.now views.now.opened (DestroyTarget.Snapshots names) recursive defer }
{
    table.facts();
    if all.is_empty() {
        return Some(Refusal::NoDataset);
    }
    if !defer && any_held(views, all) {
        return Some(Refusal::Busy);
    }
    if !defer && any_cloned(table, all) {
        return Some(Refusal::HasClones);
    }
    None
}

/// Whether the destroy of the snapshot is to be deferred: `defer` is set, and a tag, an open view or a clone needs the snapshot. With `defer` it
/// costs the number of open views and the logarithm of the number of clones.
pub(crate) fn has_to_wait(table: &Table, views: &Views, snapshot: &Snapshot, defer: bool) -> bool
    ensures { result ≡ (defer && is_needed (world_of table.now) views.now.opened snapshot.now) }
{
    let id = snapshot.id();
    defer && (snapshot.is_held() || views.is_viewed(id) || table.has_clone(id))
}

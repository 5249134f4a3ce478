//! The datasets that a receive frees blocks of before its records are in force.
ghost use Rattle.std.specs.Prelude.{◌≡◌, ◌≤◌, [], ◌∷◌, false, Some, IsSome, IfOk, IfErr, OnOk};
ghost use Rattle.std.specs.FinMap.{get};
ghost use Rattle.std.specs.Option.{option_copied};
ghost use Rattle.base.specs.declared.refusal.Refusal.{Refusal};
ghost use Rattle.model.specs.World.{union_of};
ghost use Rattle.model.specs.requests.Destroy.{snaps_within};
ghost use Rattle.model.specs.requests.Receive.{newest_of, snaps_past};
ghost use Rattle.model.specs.requests.Rollback.{has_clone_outside};
ghost use Rattle.world.specs.Sets.{AreDisjoint};
ghost use Rattle.world.specs.Tables.{world_of};
ghost use Rattle.removals.specs.Edits.{HasLost};
ghost use Rattle.receives.specs.Requests.{back, past, replaced, with_limits};

use crate::sources::{newest_of, source_of};
use base::meter::SegMeter;
use base::name::DsName;
use base::number::Guid;
use base::refusal::Refusal;
use datasets::{Snapshot, Table};
use model::limits::{Limit, Limits};
use removals::{WorkingCopy, empty_one, remove_newer_bookmarks, roll_back};
use snap::Freeing;
use std::alloc::Global;

/// The datasets with this file system rolled back to its newest snapshot and without the bookmarks that are newer, or unchanged where it has no
/// snapshot (zfs-receive(8), -F). NoMemory where memory is refused, or as `Table::rollback` says. It costs what `begin` does.
pub(crate) fn forced_back(
    alloc: Global,
    table: &Table,
    freeing: &Freeing,
    name: &DsName,
    segments: &mut SegMeter,
) -> Result<WorkingCopy, Refusal>
    requires apart { AreDisjoint (union_of (world_of table.now)) freeing.now }
    ensures ok { IfOk result (λ e. e.to ≡ back table.now name.now) }
    ensures lost { IfOk result (λ e. HasLost table.now freeing.now e.to e.freeing) }
    ensures err { IfErr result (λ e. e ≡ Refusal.NoMemory) }
    ensures never_lower { segments.old ≤ segments.new }
{
    let Some(newest) = newest_named(table, name) else {
        return WorkingCopy::of(table, freeing);
    };
    let mut edit = WorkingCopy::of(table, freeing)?;
    edit.lose_live(alloc, name, segments)?;
    remove_newer_bookmarks(alloc, &mut edit.to, name, newest.group())?;
    Ok(edit)
}

/// The datasets with this file system rolled back to its newest snapshot with this guid, or unchanged where it has none. No newer snapshot has a
/// clone (zfs-receive(8), -F; zfs-rollback(8), -r). NoMemory where memory is refused, or as `Table::rollback` says. It costs what `begin` does.
pub(crate) fn back_past(
    alloc: Global,
    table: &Table,
    freeing: &Freeing,
    name: &DsName,
    source: Guid,
    segments: &mut SegMeter,
) -> Result<WorkingCopy, Refusal>
    requires apart { AreDisjoint (union_of (world_of table.now)) freeing.now }
    requires no_clone { has_clone_outside (world_of table.now) [] (snaps_past (world_of table.now) name.now source.0) ≡ false }
    ensures ok { IfOk result (λ e. e.to ≡ past table.now name.now source.0) }
    ensures lost { IfOk result (λ e. HasLost table.now freeing.now e.to e.freeing) }
    ensures err { IfErr result (λ e. e ≡ Refusal.NoMemory) }
    ensures never_lower { segments.old ≤ segments.new }
{
    table.facts();
    let mut edit = WorkingCopy::of(table, freeing)?;
    let Some(file_system) = table.find(name) else {
        return Ok(edit);
    };
    let Some(snapshot) = source_of(file_system, source) else {
        return Ok(edit);
    };
    roll_back(
        &mut edit,
        alloc,
        file_system,
        snapshot.name(),
        snapshot.group(),
        segments,
    )?;
    Ok(edit)
}

/// The datasets with this file system emptied. It is there, and none of its snapshots has a clone. Its limits stay (zfs-receive(8), -F; that the
/// limits stay is profile). NoMemory where memory is refused. It costs what `begin` does.
pub(crate) fn replaced(
    alloc: Global,
    table: &Table,
    freeing: &Freeing,
    name: &DsName,
    segments: &mut SegMeter,
) -> Result<WorkingCopy, Refusal>
    requires apart { AreDisjoint (union_of (world_of table.now)) freeing.now }
    requires there { IsSome (get table.now.file_systems name.now) }
    requires no_clone { has_clone_outside (world_of table.now) [] (snaps_within (world_of table.now) (name.now ∷ [])) ≡ false }
    ensures ok { IfOk result (λ e. e.to ≡ replaced table.now name.now) }
    ensures lost { IfOk result (λ e. HasLost table.now freeing.now e.to e.freeing) }
    ensures err { IfErr result (λ e. e ≡ Refusal.NoMemory) }
    ensures never_lower { segments.old ≤ segments.new }
{
    table.facts();
    let Some(file_system) = table.find(name) else {
        unreachable!()
    };
    let mut edit = WorkingCopy::of(table, freeing)?;
    empty_one(&mut edit, alloc, file_system, segments)?;
    put_limits(alloc, &mut edit.to, name, file_system.limits())?;
    Ok(edit)
}

// Sets the limits of this file system, which is there. NoMemory where memory is refused; on error, discard the table. It costs the logarithm of the
// number of file systems.
fn put_limits(
    alloc: Global,
    table: &mut Table,
    name: &DsName,
    limits: Limits,
) -> Result<(), Refusal>
    requires there { IsSome (get table.old.file_systems name.now) }
    ensures ok { OnOk result (table.new ≡ with_limits table.old name.now limits) }
    ensures err { IfErr result (λ e. e ≡ Refusal.NoMemory) }
{
    table.set_limit(alloc, name, Limit::Quota, limits.get(Limit::Quota))?;
    table.set_limit(alloc, name, Limit::RefQuota, limits.get(Limit::RefQuota))?;
    table.set_limit(
        alloc,
        name,
        Limit::Reservation,
        limits.get(Limit::Reservation),
    )?;
    table.set_limit(
        alloc,
        name,
        Limit::RefReservation,
        limits.get(Limit::RefReservation),
    )
}

// The newest snapshot of the file system of this name, or none. It costs the logarithm of the number of file systems.
fn newest_named<'a>(table: &'a Table, name: &DsName) -> Option<&'a Snapshot>
    ensures { option_copied result ≡ newest_of (world_of table.now) name.now }
{
    let file_system = table.find(name)?;
    newest_of(file_system)
}

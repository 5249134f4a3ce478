//! The snapshot that is destroyed when a view is closed.
ghost use Rattle.std.specs.Prelude.{◌≡◌, ◌≤◌, IfOk, IfErr, OnOk, OnErr};
ghost use Rattle.std.specs.FinMap.{remove};
ghost use Rattle.std.specs.Option.{option_map};
ghost use Rattle.base.specs.declared.refusal.Refusal.{Refusal};
ghost use Rattle.model.specs.World.{union_of};
ghost use Rattle.world.specs.Sets.{AreDisjoint};
ghost use Rattle.world.specs.Tables.{world_of};
ghost use Rattle.removals.specs.Edits.{HasLost};
ghost use Rattle.removals.specs.Requests.{swept, gone_with, IsSweptBy};

use crate::working_copy::WorkingCopy;
use base::meter::SegMeter;
use base::name::DsName;
use base::refusal::Refusal;
use datasets::{FileSystem, Snapshot, Table};
use snap::{Freeing, Views};
use std::alloc::Global;

// The snapshot to be destroyed once the view of this number is closed, with its file system: the one that the view shows, where its destroy is
// deferred and no tag, no other view and no clone needs it. It costs the number of open views, and the number of file systems times the
// logarithm of that of the snapshots of one.
fn removed_with<'a>(
    table: &'a Table,
    views: &Views,
    number: u64,
) -> Option<(&'a FileSystem, &'a Snapshot)>
    ensures { option_map (λ p. (p.0.now.name, p.1.now)) result ≡ gone_with table.now views.now.opened number }
{
    let id = views.find(number)?;
    if views.is_viewed_beside(number, id) || table.has_clone(id) {
        return None;
    }
    let (file_system, snapshot) = table.snapshot_of(id)?;
    if !snapshot.is_deferred() || snapshot.is_held() {
        return None;
    }
    Some((file_system, snapshot))
}

/// Destroys the snapshot that the view of this number shows, as the view is closed, if its destroy is deferred and no tag, no other view and no
/// clone needs it (zfs-destroy(8), -d). The blocks that no dataset has any more are to be freed. Otherwise nothing changes. The answer is the
/// name of the file system whose snapshot was destroyed, or none. NoMemory where memory is refused; at `Err` the table and what it has to free
/// are as they were. It costs the number of open views and the number of file systems times the logarithm of that of the snapshots of one; and
/// where a snapshot is destroyed, what `WorkingCopy::of` and `WorkingCopy::remove_snapshot` do.
pub fn close_view(
    alloc: Global,
    table: &mut Table,
    freeing: &mut Freeing,
    views: &Views,
    number: u64,
    segments: &mut SegMeter,
) -> Result<Option<DsName>, Refusal>
    requires apart { AreDisjoint (union_of (world_of table.old)) freeing.old }
    requires swept { IsSweptBy table.old views.now.opened }
    ensures name { IfOk result (λ name. name ≡ option_map (λ p. p.0) (gone_with table.old views.now.opened number)) }
    ensures ok { OnOk result (table.new ≡ swept table.old (remove views.now.opened number)) }
    ensures lost { OnOk result (HasLost table.old freeing.old table.new freeing.new) }
    ensures unchanged { OnErr result (table.new ≡ table.old) }
    ensures kept { OnErr result (freeing.new ≡ freeing.old) }
    ensures err { IfErr result (λ e. e ≡ Refusal.NoMemory) }
    ensures never_lower { segments.old ≤ segments.new }
{
    table.facts();
    let Some((file_system, snapshot)) = removed_with(table, views, number) else {
        return Ok(None);
    };
    let owner = file_system.name().clone()?;
    let mut edit = WorkingCopy::of(table, freeing)?;
    edit.remove_snapshot(alloc, file_system.name(), snapshot.id(), segments)?;
    edit.put(table, freeing);
    Ok(Some(owner))
}

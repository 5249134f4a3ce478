//! Destroys of snapshots.
ghost use Rattle.std.specs.Prelude.{◌≡◌, ◌≤◌, ◌⊎◌, Some, None, IfSome, IfErr, OnOk, OnErr};
ghost use Rattle.base.specs.declared.refusal.Refusal.{Refusal};
ghost use Rattle.model.specs.declared.destroy_target.DestroyTarget.{DestroyTarget};
ghost use Rattle.model.specs.World.{union_of};
ghost use Rattle.world.specs.Sets.{AreDisjoint};
ghost use Rattle.world.specs.Tables.{world_of};
ghost use Rattle.removals.specs.Edits.{HasLost};
ghost use Rattle.removals.specs.Requests.{destroyed, destroy_refusal};

use crate::found::{find_all, refusal_of};
use crate::working_copy::WorkingCopy;
use base::meter::SegMeter;
use base::refusal::Refusal;
use datasets::Table;
use model::snap_names::SnapNames;
use snap::{Freeing, Views};
use std::alloc::Global;

/// Destroys the snapshots of these names, and with `recursive` for each name those of that name of each descendant of its file system. With
/// `defer` a snapshot stays while a tag or one of these views keeps it or it has a clone, and is destroyed once nothing needs it. The blocks that no
/// dataset has any more are to be freed. Refused are NoDataset where there is none of them; else, without `defer`, Busy where a tag or one
/// of these views keeps one of them, else HasClones where one of them has a clone; NoMemory, where memory is refused, may come before these
/// (zfs-destroy(8)). At `Err` the table and what it has to free are as they were. It costs the number of file systems, the chunks of pieces that
/// are to be freed, for each name the logarithms of the numbers of file systems and of snapshots, and for each snapshot that is there what
/// `WorkingCopy::remove_snapshot` does and the number of open views.
pub(crate) fn destroy_snapshots(
    alloc: Global,
    table: &mut Table,
    freeing: &mut Freeing,
    views: &Views,
    names: &SnapNames,
    recursive: bool,
    defer: bool,
    segments: &mut SegMeter,
) -> Result<(), Refusal>
    requires apart { AreDisjoint (union_of (world_of table.old)) freeing.old }
    ensures ok { OnOk result (table.new ≡ destroyed table.old views.now.opened (DestroyTarget.Snapshots names.now) recursive defer) }
    ensures lost { OnOk result (HasLost table.old freeing.old table.new freeing.new) }
    ensures can { OnOk result (destroy_refusal table.old views.now.opened (DestroyTarget.Snapshots names.now) recursive defer ≡ None) }
    ensures refused { IfSome (destroy_refusal table.old views.now.opened (DestroyTarget.Snapshots names.now) recursive defer) (λ e. (result ≡ Err e) ⊎ (result ≡ Err Refusal.NoMemory)) }
    ensures unchanged { OnErr result (table.new ≡ table.old) }
    ensures kept { OnErr result (freeing.new ≡ freeing.old) }
    ensures only { IfErr result (λ e. (destroy_refusal table.old views.now.opened (DestroyTarget.Snapshots names.now) recursive defer ≡ Some e) ⊎ (e ≡ Refusal.NoMemory)) }
    ensures never_lower { segments.old ≤ segments.new }
{
    table.facts();
    let all = find_all(alloc, table, names.as_slice(), recursive)?;
    if let Some(refusal) = refusal_of(table, views, &all, defer) {
        return Err(refusal);
    }
    let mut edit = WorkingCopy::of(table, freeing)?;
    edit.remove_or_defer(alloc, table, views, &all, defer, segments)?;
    // These borrow from the table, which changes next.
    drop(all);
    edit.put(table, freeing);
    Ok(())
}

//! Releases of snapshots.
ghost use Rattle.std.specs.Prelude.{◌≡◌, ◌≤◌, ◌⊎◌, true, false, is_some, Some, None, IfSome, IfOk, IfErr, OnOk, OnErr};
ghost use Rattle.base.specs.declared.refusal.Refusal.{Refusal};
ghost use Rattle.snapshots.specs.Tags.{has_tag, without_tag};
ghost use Rattle.datasets.specs.Holders.{snap_in_system};
ghost use Rattle.model.specs.Ids.{snap_id};
ghost use Rattle.model.specs.World.{union_of};
ghost use Rattle.world.specs.Sets.{AreDisjoint};
ghost use Rattle.world.specs.Tables.{world_of, without_snap};
ghost use Rattle.removals.specs.Edits.{HasLost};
ghost use Rattle.removals.specs.Needs.{has_clone};
ghost use Rattle.removals.specs.Requests.{swept, IsSweptBy};
ghost use Rattle.marks.specs.Requests.{released_in, release_refusal, is_due_with};

use crate::place::placed;
use base::meter::SegMeter;
use base::name::{DsName, Tag, Target};
use base::refusal::Refusal;
use datasets::{Snapshot, Table};
use model::snapshot_id::SnapshotId;
use removals::WorkingCopy;
use snap::{Freeing, Views};
use snapshots::holds::Holds;
use std::alloc::Global;
use std::sync::Arc;

/// Removes this tag from the snapshot that the target names (zfs-release(8), without -r). The snapshot is destroyed if its destroy is deferred
/// and no other tag, no open view and no clone needs it (zfs-destroy(8), -d); the blocks that no dataset has any more are then to be freed.
/// Refused are NotSnapshot where the target isn't the name of a snapshot, else NoDataset where there is no such snapshot, else NoTag where it
/// hasn't the tag; NoMemory, where memory is refused, may come before this last one. At `Err` the table and what it has to free are as they
/// were. It costs the logarithms of the numbers of file systems and of snapshots, a walk over the chunks of the snapshots of one, and the bytes
/// of the snapshot's tags, of which there are at most 256; where the snapshot's destroy is deferred also the number of open views; and where it
/// is destroyed what `WorkingCopy::of` and `WorkingCopy::remove_snapshot` do.
pub fn release(
    alloc: Global,
    table: &mut Table,
    freeing: &mut Freeing,
    views: &Views,
    target: &Target,
    tag: &Tag,
    segments: &mut SegMeter,
) -> Result<(), Refusal>
    requires apart { AreDisjoint (union_of (world_of table.old)) freeing.old }
    requires swept { IsSweptBy table.old views.now.opened }
    ensures ok { OnOk result (table.new ≡ swept (released_in table.old tag.now target.now) views.now.opened) }
    ensures lost { OnOk result (HasLost table.old freeing.old table.new freeing.new) }
    ensures can { OnOk result (release_refusal table.old tag.now target.now ≡ None) }
    ensures refused { IfSome (release_refusal table.old tag.now target.now) (λ e. (result ≡ Err e) ⊎ (result ≡ Err Refusal.NoMemory)) }
    ensures unchanged { OnErr result (table.new ≡ table.old) }
    ensures kept { OnErr result (freeing.new ≡ freeing.old) }
    ensures only { IfErr result (λ e. (release_refusal table.old tag.now target.now ≡ Some e) ⊎ (e ≡ Refusal.NoMemory)) }
    ensures never_lower { segments.old ≤ segments.new }
{
    table.facts();
    let snapshot = placed(table, target)?;
    let id = snapshot.id();
    let tags = tags_without(alloc, snapshot, tag)?;
    let is_due = is_due_with(table, views, snapshot, &tags);
    let Target::Snapshot(name) = target else {
        unreachable!()
    };
    let file_system = &name.member().file_system;
    if is_due {
        return lose(alloc, table, freeing, file_system, id, segments);
    }
    let tags = Arc::new(alloc, tags)?;
    table.set_tags(alloc, file_system, id, tags)
}

// The other tags of the snapshot. NoTag exactly where it hasn't this one; NoMemory, where memory is refused, may come before that. It costs the
// bytes of the tags.
fn tags_without(alloc: Global, snapshot: &Snapshot, tag: &Tag) -> Result<Holds, Refusal>
    ensures ok { IfOk result (λ tags. tags ≡ without_tag snapshot.now.tags tag.now) }
    ensures can { OnOk result (has_tag snapshot.now.tags tag.now ≡ true) }
    ensures only { IfErr result (λ e. ((e ≡ Refusal.NoTag) × (has_tag snapshot.now.tags tag.now ≡ false)) ⊎ (e ≡ Refusal.NoMemory)) }
{
    let mut tags = snapshot.holds(alloc)?;
    tags.remove(tag.as_bytes())?;
    Ok(tags)
}

// Whether the snapshot of the table is to be destroyed once these are its tags: there are none, its destroy is deferred, and neither an open
// view nor a clone needs it. It costs the logarithm of the number of clones, and where its destroy is deferred the number of open views.
fn is_due_with(table: &Table, views: &Views, snapshot: &Snapshot, tags: &Holds) -> bool
    ensures { result ≡ is_due_with table.now views.now.opened snapshot.now tags.now }
{
    let id = snapshot.id();
    snapshot.is_deferred() && tags.is_empty() && !views.is_viewed(id) && !table.has_clone(id)
}

// Removes the snapshot of this identity from this file system, which has it. The snapshot has no clone. The blocks that no dataset has any more
// are to be freed. NoMemory where memory is refused; at `Err` the table and what it has to free are as they were. It costs what
// `WorkingCopy::of` and `WorkingCopy::remove_snapshot` do.
fn lose(
    alloc: Global,
    table: &mut Table,
    freeing: &mut Freeing,
    file_system: &DsName,
    id: SnapshotId,
    segments: &mut SegMeter,
) -> Result<(), Refusal>
    requires apart { AreDisjoint (union_of (world_of table.old)) freeing.old }
    requires there { is_some (snap_in_system table.old file_system.now (snap_id id)) ≡ true }
    requires no_clone { has_clone table.old (snap_id id) ≡ false }
    ensures ok { OnOk result (table.new ≡ without_snap table.old (snap_id id)) }
    ensures lost { OnOk result (HasLost table.old freeing.old table.new freeing.new) }
    ensures unchanged { OnErr result (table.new ≡ table.old) }
    ensures kept { OnErr result (freeing.new ≡ freeing.old) }
    ensures err { IfErr result (λ e. e ≡ Refusal.NoMemory) }
    ensures never_lower { segments.old ≤ segments.new }
{
    let mut edit = WorkingCopy::of(table, freeing)?;
    edit.remove_snapshot(alloc, file_system, id, segments)?;
    edit.put(table, freeing);
    Ok(())
}

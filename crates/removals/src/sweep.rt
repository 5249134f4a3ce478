//! Destroys deferred snapshots once their last clones are gone.
ghost use Rattle.std.specs.Prelude.{◌≡◌, ◌≤◌, IfErr, OnOk, map};
ghost use Rattle.std.specs.Option.{option_map};
ghost use Rattle.base.specs.declared.refusal.Refusal.{Refusal};
ghost use Rattle.datasets.specs.Rows.{entry_of};
ghost use Rattle.model.specs.Ids.{snap_id};
ghost use Rattle.model.specs.World.{union_of};
ghost use Rattle.world.specs.Sets.{AreDisjoint};
ghost use Rattle.world.specs.Tables.{world_of};
ghost use Rattle.removals.specs.Edits.{HasLost};
ghost use Rattle.removals.specs.Families.{ArePartOf, unneeded, removed_origin, without_origin, without_unneeded};
ghost use Rattle.removals.specs.Requests.{swept, IsSweptBut, IsSweptBy};

use crate::working_copy::WorkingCopy;
use base::meter::SegMeter;
use base::refusal::Refusal;
use datasets::{FileSystem, Snapshot, Table};
use model::snapshot_id::SnapshotId;
use snap::Views;
use std::alloc::Global;
use std::sync::Arc;

// The snapshot of this identity with its file system, where the snapshot's destroy is deferred and no tag, no open view and no clone needs it.
// It costs the number of open views, and the number of file systems times the logarithm of that of the snapshots of one.
fn unneeded<'a>(
    table: &'a Table,
    views: &Views,
    id: SnapshotId,
) -> Option<(&'a FileSystem, &'a Snapshot)>
    ensures { option_map (λ p. (p.0.now.name, p.1.now)) result ≡ unneeded table.now views.now.opened (snap_id id) }
{
    if views.is_viewed(id) || table.has_clone(id) {
        return None;
    }
    let (owner, snapshot) = table.snapshot_of(id)?;
    if snapshot.is_deferred() && !snapshot.is_held() {
        Some((owner, snapshot))
    } else {
        None
    }
}

// Destroys the snapshot of this identity, if its destroy is deferred and nothing needs it. NoMemory where memory is refused; on error, discard
// the edit. It costs what `unneeded` does and, if the snapshot is destroyed, what `WorkingCopy::remove_snapshot` does.
fn lose_unneeded(
    edit: &mut WorkingCopy,
    alloc: Global,
    views: &Views,
    id: SnapshotId,
    segments: &mut SegMeter,
) -> Result<(), Refusal>
    requires apart { AreDisjoint (union_of (world_of edit.old.to)) edit.old.freeing }
    ensures ok { OnOk result (edit.new.to ≡ without_unneeded edit.old.to views.now.opened (snap_id id)) }
    ensures lost { OnOk result (HasLost edit.old.to edit.old.freeing edit.new.to edit.new.freeing) }
    ensures err { IfErr result (λ e. e ≡ Refusal.NoMemory) }
    ensures never_lower { segments.old ≤ segments.new }
{
    edit.to.facts();
    let owner = match unneeded(&edit.to, views, id) {
        Some((file_system, _snapshot)) => Arc::try_clone(file_system.owned_name())?,
        None => return Ok(()),
    };
    edit.remove_snapshot(alloc, &owner, id, segments)
}

// The origin of this file system, if the table no longer has the file system and it was a clone; else none. It costs the logarithm of the number
// of file systems.
fn removed_origin(table: &Table, file_system: &FileSystem) -> Option<SnapshotId>
    ensures { option_map snap_id result ≡ removed_origin table.now (entry_of file_system.now) }
{
    if table.find(file_system.name()).is_some() {
        return None;
    }
    file_system.origin()
}

// Destroys the origin of this file system, if the file system is gone, the origin's destroy is deferred and nothing needs the origin. NoMemory
// where memory is refused; on error, discard the edit. It costs what `lose_unneeded` does.
fn remove_unneeded_origin(
    edit: &mut WorkingCopy,
    alloc: Global,
    views: &Views,
    file_system: &FileSystem,
    segments: &mut SegMeter,
) -> Result<(), Refusal>
    requires apart { AreDisjoint (union_of (world_of edit.old.to)) edit.old.freeing }
    ensures ok { OnOk result (edit.new.to ≡ without_origin edit.old.to views.now.opened (entry_of file_system.now)) }
    ensures lost { OnOk result (HasLost edit.old.to edit.old.freeing edit.new.to edit.new.freeing) }
    ensures err { IfErr result (λ e. e ≡ Refusal.NoMemory) }
    ensures never_lower { segments.old ≤ segments.new }
{
    match removed_origin(&edit.to, file_system) {
        Some(id) => lose_unneeded(edit, alloc, views, id, segments),
        None => Ok(()),
    }
}

impl WorkingCopy {
    /// Destroys those of these snapshots whose destroy is deferred and that no tag, no open view and no clone needs (zfs-destroy(8), -d). No other
    /// snapshot of the table is in that state. NoMemory where memory is refused; on error, discard the edit. It costs for each of them what
    /// `unneeded` does and, if it is destroyed, what `WorkingCopy::remove_snapshot` does.
    pub fn sweep(
        &mut self,
        alloc: Global,
        views: &Views,
        ids: &[SnapshotId],
        segments: &mut SegMeter,
    ) -> Result<(), Refusal>
        requires apart { AreDisjoint (union_of (world_of self.old.to)) self.old.freeing }
        requires swept { IsSweptBut self.old.to (map snap_id ids.now) }
        ensures ok { OnOk result (self.new.to ≡ swept self.old.to views.now.opened) }
        ensures lost { OnOk result (HasLost self.old.to self.old.freeing self.new.to self.new.freeing) }
        ensures err { IfErr result (λ e. e ≡ Refusal.NoMemory) }
        ensures never_lower { segments.old ≤ segments.new }
    {
        self.to.facts();
        for id in ids {
            lose_unneeded(self, alloc, views, *id, segments)?;
        }
        Ok(())
    }
}

/// Destroys the snapshots whose destroy is deferred and that nothing needs any more, after file systems of this table were removed from the edit
/// (zfs-destroy(8), -d). NoMemory where memory is refused; on error, discard the edit. It costs the number of file systems times its logarithm,
/// for each clone that was removed what `unneeded` does, and for each snapshot that is destroyed what `WorkingCopy::remove_snapshot` does.
pub(crate) fn sweep(
    edit: &mut WorkingCopy,
    alloc: Global,
    table: &Table,
    views: &Views,
    segments: &mut SegMeter,
) -> Result<(), Refusal>
    requires apart { AreDisjoint (union_of (world_of edit.old.to)) edit.old.freeing }
    requires part { ArePartOf edit.old.to table.now }
    requires swept { IsSweptBy table.now views.now.opened }
    ensures ok { OnOk result (edit.new.to ≡ swept edit.old.to views.now.opened) }
    ensures lost { OnOk result (HasLost edit.old.to edit.old.freeing edit.new.to edit.new.freeing) }
    ensures err { IfErr result (λ e. e ≡ Refusal.NoMemory) }
    ensures never_lower { segments.old ≤ segments.new }
{
    edit.to.facts();
    for file_system in table.file_systems() {
        remove_unneeded_origin(edit, alloc, views, file_system, segments)?;
    }
    Ok(())
}

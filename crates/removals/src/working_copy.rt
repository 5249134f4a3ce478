//! A copy of a table, from which datasets are removed.
ghost use Rattle.std.specs.Prelude.{◌≡◌, ◌≤◌, ◌⊎◌, ◌↔◌, ◌&&◌, true, false, not, map, Some, is_some, IfOk, IfErr, OnOk, length};
ghost use Rattle.std.specs.List.{list_any};
ghost use Rattle.std.specs.FinMap.{get};
ghost use Rattle.base.specs.declared.refusal.Refusal.{Refusal};
ghost use Rattle.datasets.specs.Holders.{snap_in_system};
ghost use Rattle.datasets.specs.Losses.{newest_map};
ghost use Rattle.datasets.specs.Rows.{live_of, snaps_at, with_live};
ghost use Rattle.model.specs.Ids.{snap_id};
ghost use Rattle.model.specs.Outcome.{is_needed};
ghost use Rattle.model.specs.World.{id_of, union_of};
ghost use Rattle.world.specs.Sets.{AreDisjoint};
ghost use Rattle.world.specs.Tables.{world_of, without_snap, deferred_snap};
ghost use Rattle.removals.specs.Edits.{HasLost, with_snaps_upto};
ghost use Rattle.removals.specs.Found.{AreThere, removed_or_deferred};
ghost use Rattle.removals.specs.Needs.{has_clone, has_clone_and_is_later};

use crate::found::{Found, has_to_wait};
use base::meter::SegMeter;
use base::name::DsName;
use base::number::Group;
use base::refusal::Refusal;
use datasets::{FileSystem, Table};
use model::snapshot_id::SnapshotId;
use snap::{Freeing, Views};
use std::alloc::Global;
use std::sync::Arc;

/// A copy of a table and of what is to be freed. Datasets are removed from the copy before it replaces both.
#[derive(Drop)]
pub struct WorkingCopy {
    pub to: Table,
    pub freeing: Freeing,
}

impl WorkingCopy {
    /// A copy of a table and of what is to be freed. NoMemory where memory is refused. It costs the number of file systems and the chunks of pieces.
    pub fn of(table: &Table, freeing: &Freeing) -> Result<WorkingCopy, Refusal>
        ensures ok { IfOk result (λ e. (e.to ≡ table.now) × (e.freeing ≡ freeing.now)) }
        ensures err { IfErr result (λ e. e ≡ Refusal.NoMemory) }
    {
        let to = table.copy()?;
        let freeing = freeing.copy()?;
        Ok(WorkingCopy { to, freeing })
    }

    /// Replaces the table and what is to be freed with the copy. It costs dropping the old ones: the number of file systems and the chunks of
    /// pieces.
    pub fn put(self, table: &mut Table, freeing: &mut Freeing)
        ensures to { table.new ≡ self.to }
        ensures freeing { freeing.new ≡ self.freeing }
    {
        let WorkingCopy { to, freeing: left } = self;
        *table = to;
        *freeing = left;
    }

    /// Removes the snapshot of this identity from this file system, which has it (zfs-destroy(8)). The snapshot has no clone. The blocks that no
    /// dataset has any more are to be freed. NoMemory where memory is refused; on error, discard the edit. It costs what `Table::remove_snapshot`
    /// does.
    pub fn remove_snapshot(
        &mut self,
        alloc: Global,
        file_system: &DsName,
        id: SnapshotId,
        segments: &mut SegMeter,
    ) -> Result<(), Refusal>
        requires apart { AreDisjoint (union_of (world_of self.old.to)) self.old.freeing }
        requires there { is_some (snap_in_system self.old.to file_system.now (snap_id id)) ≡ true }
        requires no_clone { has_clone self.old.to (snap_id id) ≡ false }
        ensures ok { OnOk result (self.new.to ≡ without_snap self.old.to (snap_id id)) }
        ensures lost { OnOk result (HasLost self.old.to self.old.freeing self.new.to self.new.freeing) }
        ensures err { IfErr result (λ e. e ≡ Refusal.NoMemory) }
        ensures never_lower { segments.old ≤ segments.new }
    {
        self.to.facts();
        let lost = self.to.remove_snapshot(alloc, file_system, id, segments)?;
        let lost = Arc::new(alloc, lost)?;
        self.freeing.add_dead(lost)
    }

    /// Makes the map of the newest snapshot of this file system its live map (zfs-rollback(8)). The blocks that the live map had beside are to be
    /// freed. NoDataset exactly where there is no file system of this name or it has no snapshot; else NoMemory as `Table::rollback` says; on that
    /// error, discard the edit. It costs what that does.
    pub fn lose_live(
        &mut self,
        alloc: Global,
        name: &DsName,
        segments: &mut SegMeter,
    ) -> Result<(), Refusal>
        requires apart { AreDisjoint (union_of (world_of self.old.to)) self.old.freeing }
        ensures ok { OnOk result (self.new.to ≡ record self.old.to { file_systems = with_live self.old.to.file_systems name.now (newest_map (live_of self.old.to.file_systems name.now) (snaps_at self.old.to.file_systems name.now)) }) }
        ensures lost { OnOk result (HasLost self.old.to self.old.freeing self.new.to self.new.freeing) }
        ensures no_dataset { (result ≡ Err Refusal.NoDataset) ↔ (length (snaps_at self.old.to.file_systems name.now) ≡ 0) }
        ensures only { IfErr result (λ e. (e ≡ Refusal.NoDataset) ⊎ (e ≡ Refusal.NoMemory)) }
        ensures never_lower { segments.old ≤ segments.new }
    {
        self.to.facts();
        let lost = self.to.rollback(alloc, name, segments)?;
        self.freeing
            .add_tree(&lost.tree, lost.after, u64::from(lost.count))
    }

    // Marks the destroy of the snapshot of this identity as deferred. This file system has the snapshot. NoMemory where memory is refused; on error,
    // discard the edit. It costs what `Table::defer` does.
    fn defer(&mut self, alloc: Global, file_system: &DsName, id: SnapshotId) -> Result<(), Refusal>
        requires there { is_some (snap_in_system self.old.to file_system.now (snap_id id)) ≡ true }
        ensures ok { OnOk result (self.new.to ≡ deferred_snap self.old.to (snap_id id)) }
        ensures same { OnOk result (self.new.freeing ≡ self.old.freeing) }
        ensures err { IfErr result (λ e. e ≡ Refusal.NoMemory) }
    {
        self.to.defer(alloc, file_system, id)
    }

    // Removes these snapshots, which are the table's. One may stand twice. With `defer` those stay that a tag, one of these views
    // or a clone needs, and their destroy is deferred. Without `defer`, none of them has a clone. NoMemory where memory is refused; on error,
    // discard the edit. It costs for each what `remove_snapshot` or `Table::defer` does, and with `defer` the number of open views.
    pub(crate) fn remove_or_defer(
        &mut self,
        alloc: Global,
        table: &Table,
        views: &Views,
        all: &[Found],
        defer: bool,
        segments: &mut SegMeter,
    ) -> Result<(), Refusal>
        requires apart { AreDisjoint (union_of (world_of self.old.to)) self.old.freeing }
        requires same { self.old.to ≡ table.now }
        requires there { AreThere table.now all.now }
        requires no_clone { (not defer && list_any (λ p. has_clone table.now (id_of p.1)) all.now) ≡ false }
        ensures ok { OnOk result (self.new.to ≡ removed_or_deferred table.now (λ u. defer && is_needed (world_of table.now) views.now.opened u) (map (λ p. id_of p.1) all.now)) }
        ensures lost { OnOk result (HasLost self.old.to self.old.freeing self.new.to self.new.freeing) }
        ensures err { IfErr result (λ e. e ≡ Refusal.NoMemory) }
        ensures never_lower { segments.old ≤ segments.new }
    {
        table.facts();
        for found in all {
            let id = found.snapshot.id();
            if !self.to.has_snapshot_in(found.file_system, id) {
                // It stood before, and is gone.
                continue;
            }
            if has_to_wait(table, views, found.snapshot, defer) {
                self.defer(alloc, found.file_system, id)?;
            } else {
                self.remove_snapshot(alloc, found.file_system, id, segments)?;
            }
        }
        Ok(())
    }

    // Removes the snapshots of this file system that are of later groups than this one. The file system is as the edit has it, and none of these
    // snapshots has a clone. NoMemory where memory is refused; on error, discard the edit. It costs what `remove_snapshot` does for each, and the
    // number of the file system's snapshots.
    pub(crate) fn remove_newer(
        &mut self,
        alloc: Global,
        file_system: &FileSystem,
        group: Group,
        segments: &mut SegMeter,
    ) -> Result<(), Refusal>
        requires apart { AreDisjoint (union_of (world_of self.old.to)) self.old.freeing }
        requires there { get self.old.to.file_systems file_system.now.name ≡ Some file_system.now.system }
        requires no_clone { list_any (has_clone_and_is_later self.old.to group.0) file_system.now.system.snaps ≡ false }
        ensures ok { OnOk result (self.new.to ≡ with_snaps_upto self.old.to file_system.now.name group.0) }
        ensures lost { OnOk result (HasLost self.old.to self.old.freeing self.new.to self.new.freeing) }
        ensures err { IfErr result (λ e. e ≡ Refusal.NoMemory) }
        ensures never_lower { segments.old ≤ segments.new }
    {
        self.to.facts();
        let name = file_system.name();
        for kept in file_system.snapshots().iter() {
            if kept.snapshot.group() > group {
                self.remove_snapshot(alloc, name, kept.snapshot.id(), segments)?;
            }
        }
        Ok(())
    }
}

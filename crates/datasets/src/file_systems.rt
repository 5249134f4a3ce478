//! The file systems of a pool, by name.
ghost use Rattle.std.specs.Prelude.{◌≡◌, ◌==◌, ◌<◌, [], length, ◌⊎◌, ◌↔◌, ◌≤◌, Some, None, IsSome, IfSome, IfOk, IfErr, OnOk, OnErr, map};
ghost use Rattle.std.specs.Arc.{arc_value};
ghost use Rattle.std.specs.Option.{option_map, option_map_or, option_copied};
ghost use Rattle.std.specs.FinMap as finmap;
ghost use Rattle.std.specs.FinMap.{get, insert, entries, len};
ghost use Rattle.std.specs.List.{find};
ghost use Rattle.base.specs.Map.{blocks};
ghost use Rattle.base.specs.Surveys.{dead_block};
ghost use Rattle.base.specs.declared.refusal.Refusal.{Refusal};
ghost use Rattle.model.specs.World.{empty_file_system, Snap, id_of, same_id};
ghost use Rattle.base.specs.Surveys.{IsIn};
ghost use Rattle.world.specs.Dead.{HasNoCloneIn};
ghost use Rattle.model.specs.Ids.{snap_id};
ghost use Rattle.datasets.specs.Bookmarked.{bookmarked_of};
ghost use Rattle.datasets.specs.Limited.{limited_of};
ghost use Rattle.datasets.specs.CloneNames.{name_of, clones_in};
ghost use Rattle.datasets.specs.Clones.{all_snaps, origin_at, below_at, row_in, AreOnce, IsTied};
ghost use Rattle.datasets.specs.Renames.{CanMove};
ghost use Rattle.model.specs.requests.Rename.{renamed_systems};
ghost use Rattle.file_system.specs.Dead.{AllowsLive, IsAbove};
ghost use Rattle.file_system.specs.Losses.{newest_map, IsLost};
ghost use Rattle.file_system.specs.Origins.{origin_group};
ghost use Rattle.datasets.specs.Promoted.{promoted_in, IsPromotion, CanPromoteIn};
ghost use Rattle.world.specs.Outcomes.{Promotion};
ghost use Rattle.file_system.specs.Rows.{live_of, snaps_at, with_live, with_snap, snap_count};
ghost use Rattle.file_system.specs.Splices.{lost_from, without_snap_of, AreAbove};
ghost use Rattle.base.specs.Names.{same_name};
ghost use Rattle.file_system.specs.Deferred.{deferred_of, edited_of, tagged_of, with_snap_name};
ghost use Rattle.file_system.specs.Writes.{young_after, IsWritten};
ghost use Rattle.world.specs.Deadlists.{Lists};
ghost use Rattle.tree.specs.Asking.{IsNoSpaceOrNoMemory};
ghost use Rattle.tree.specs.Change.{HasRoom, LacksRoom, CountsDropped};
ghost use Rattle.tree.specs.Updates.{changes_of};

use crate::clones::{CloneIndex, CloneName};
use crate::place::{gap, place_near};
use crate::promote::promote_at;
use crate::rename::moved_rows;
use crate::row::{own, owner_place, put, shared};
use base::limit::Blocks;
use base::meter::{Meter, SegMeter};
use base::name::{Component, DsName};
use base::number::{Group, Guid};
use base::refusal::Refusal;
use deadlist::deadlist::Deadlist;
use file_system::{FileSystem, Lost};
use model::limits::Limit;
use model::snapshot_id::SnapshotId;
use snapshots::bookmarks::Bookmarks;
use snapshots::holds::Holds;
use std::alloc::Global;
use std::marker::Model;
use std::sync::Arc;
use tree::{Draft, Update};
use zalloc::Allocator;

/// File systems by name. Contracts see the map from their names to them.
///
/// They are kept in byte order of their names, so that `p/a-x` comes between `p/a` and `p/a/x`. Copies share the file systems that none of them
/// has changed. `near` is the place of the last change, where a search for a name looks first.
#[derive(Drop)]
pub(crate) struct FileSystems {
    rows: Vec<Arc<FileSystem>>,
    snapshot_count: usize,
    clones: CloneIndex,
    /// The place of the file system that was changed last. A search looks there first. It is only a hint, so that any number is allowed.
    near: usize,
}

impl Model for FileSystems {
    ghost use Rattle.std.specs.FinMap.{from_sorted};
    ghost use Rattle.std.specs.Prelude.{map};
    ghost use Rattle.file_system.specs.Origins.{origin_group};
    ghost use Rattle.file_system.specs.Rows.{FileSystems, entry_in, file_systems_code};
    ghost use Rattle.datasets.specs.Sorted.{IsSorted};

    ghost Value = { FileSystems };

    ghost coded = { file_systems_code };

    ghost view = { λ t. from_sorted (map entry_in t.rows.items) };

    ghost invariant = { IsSorted };
}

impl FileSystems {
    /// A single file system of this name, without a block or a snapshot. NoMemory where there is none for it. Constant time.
    pub(crate) fn new(alloc: Global, name: &DsName) -> Result<FileSystems, Refusal>
        ensures ok { IfOk result (λ t. t ≡ insert finmap.empty name.now empty_file_system) }
        ensures err { IfErr result (λ e. e ≡ Refusal.NoMemory) }
    {
        let row = Arc::new(alloc, FileSystem::new(alloc, name)?)?;
        let mut rows = Vec::with_capacity(alloc, 1)?;
        rows.push_reserved(row);
        Ok(FileSystems {
            rows,
            snapshot_count: 0,
            clones: CloneIndex::new(alloc),
            near: 0,
        })
    }

    /// A copy, which shares each file system, as `Table::copy` says. It costs the number of file systems, and that of clones.
    pub(crate) fn copy(&self) -> Result<FileSystems, Refusal>
        ensures ok { IfOk result (λ t. t ≡ self.now) }
        ensures err { IfErr result (λ e. e ≡ Refusal.NoMemory) }
    {
        let rows = shared(*self.rows.allocator(), &self.rows)?;
        let clones = self.clones.copy()?;
        Ok(FileSystems {
            rows,
            snapshot_count: self.snapshot_count,
            clones,
            near: self.near,
        })
    }

    /// How many file systems there are. Constant time.
    pub(crate) fn len(&self) -> usize
        ensures { result ≡ len self.now }
    {
        let rows: &[Arc<FileSystem>] = &self.rows;
        rows.len()
    }

    /// How many snapshots they have together. Constant time.
    pub(crate) fn snapshot_count(&self) -> usize
        ensures { result ≡ snap_count self.now }
    {
        self.snapshot_count
    }

    /// All of them, in byte order of their names. Constant time.
    pub(crate) fn as_slice(&self) -> &[Arc<FileSystem>]
        ensures { map arc_value result.now ≡ map (row_in self.now) (entries self.now) }
    {
        &self.rows
    }

    /// The file system of this name, or none. It costs the logarithm of their number.
    pub(crate) fn find(&self, name: &DsName) -> Option<&FileSystem>
        ensures { option_copied result ≡ option_map (λ f. row_in self.now (name.now, f)) (get self.now name.now) }
    {
        match place_near(&self.rows, self.near, name.as_bytes()) {
            Ok(place) => Some(&*self.rows[place]),
            Err(_) => None,
        }
    }

    /// The clones of the snapshot of this identity, in byte order of their names, as `Table::clones_of` says.
    pub(crate) fn clones_of(&self, id: SnapshotId) -> &[CloneName]
        ensures { map name_of result.now ≡ clones_in self.now (snap_id id) }
    {
        self.clones.of(id)
    }

    /// Whether there is a file system of this name. It costs the logarithm of their number.
    pub(crate) fn contains(&self, name: &[u8]) -> bool
        ensures { result ≡ finmap.contains_key self.now name.now }
    {
        place_near(&self.rows, self.near, name).is_ok()
    }

    /// The allocator of their memory. Constant time.
    pub(crate) fn allocator(&self) -> Global {
        *self.rows.allocator()
    }

    /// Adds this file system (zfs-create(8), zfs-clone(8)). No other may have its name, and it must not have a snapshot. Where it is a clone,
    /// its origin must be a snapshot of one of the others. NoMemory where there is none for it; then all are as they were. It costs the number
    /// of file systems, and where it is a clone, that of clones.
    pub(crate) fn add(&mut self, file_system: FileSystem) -> Result<(), Refusal>
        requires absent { get self.old file_system.name ≡ None }
        requires bare { file_system.system.snaps ≡ [] }
        requires tied { IsTied (all_snaps self.old) file_system }
        ensures ok { OnOk result (self.new ≡ insert self.old file_system.name file_system.system) }
        ensures err { OnErr result (self.new ≡ self.old) }
        ensures only { IfErr result (λ e. e ≡ Refusal.NoMemory) }
    {
        let place = gap(&self.rows, file_system.name().as_bytes());
        let added = Arc::new(self.allocator(), file_system)?;
        self.rows.reserve(1)?;
        self.clones.enter(added.origin(), added.owned_name())?;
        put(&mut self.rows, place, added);
        Ok(())
    }

    /// Makes the next searches look first at the file system of this name, as `Table::look_at` says.
    pub(crate) fn look_at(&mut self, name: &DsName)
        ensures { self.new ≡ self.old }
    {
        if let Ok(place) = place_near(&self.rows, self.near, name.as_bytes()) {
            self.near = place;
        }
    }

    /// The place where a search looks first, as `Table::near` says.
    pub(crate) fn near(&self) -> usize {
        self.near
    }

    /// Promotes the clone of this name, as `Table::promote` says (zfs-promote(8)).
    pub(crate) fn promote(
        &mut self,
        alloc: Global,
        name: &DsName,
        segments: &mut SegMeter,
    ) -> Result<(), Refusal>
        requires { CanPromoteIn self.old name.now }
        ensures ok { OnOk result ((p : Promotion) → IsPromotion self.old name.now p → self.new ≡ promoted_in self.old name.now p) }
        ensures err { OnErr result (self.new ≡ self.old) }
        ensures only { IfErr result (λ e. e ≡ Refusal.NoMemory) }
        ensures never_lower { segments.old ≤ segments.new }
    {
        let Ok(place) = place_near(&self.rows, self.near, name.as_bytes()) else {
            unreachable!()
        };
        let Some(origin) = self.rows[place].origin() else {
            unreachable!()
        };
        let Some(other) = owner_place(&self.rows, origin) else {
            unreachable!()
        };
        promote_at(
            alloc,
            &mut self.rows,
            place,
            other,
            origin,
            &mut self.clones,
            segments,
        )?;
        self.near = place;
        Ok(())
    }

    /// Renames the file system `from` with all below it, as `Table::rename` says (zfs-rename(8)).
    pub(crate) fn rename(
        &mut self,
        alloc: Global,
        from: &DsName,
        to: &DsName,
    ) -> Result<(), Refusal>
        requires can { CanMove self.old from.now to.now }
        requires once { AreOnce self.old }
        ensures ok { OnOk result (self.new ≡ renamed_systems self.old from.now to.now) }
        ensures err { OnErr result (self.new ≡ self.old) }
        ensures only { IfErr result (λ e. e ≡ Refusal.NoMemory) }
    {
        let (rows, clones) = moved_rows(alloc, &self.rows, from, to)?;
        self.rows = rows;
        self.clones = clones;
        Ok(())
    }

    /// Applies a batch of changes to the live tree of this file system in this group, as `Table::apply_live` says. Where others share the file
    /// system, a copy of it, which shares its name, its tree and its snapshots, is changed and takes its place.
    pub(crate) fn apply_live(
        &mut self,
        name: &DsName,
        alloc: Global,
        updates: &[Update],
        group: Group,
        synced: Group,
        allocator: &Allocator,
        meter: &mut Meter,
        segments: &mut SegMeter,
        draft: &mut Draft,
    ) -> Result<(), Refusal>
        requires allowed { AllowsLive (blocks (below_at self.old name.now)) (origin_group (origin_at self.old name.now)) (live_of self.old name.now) (snaps_at self.old name.now) updates.now group.0 synced.0 allocator.now }
        requires above { IfSome (get self.old name.now) (AreAbove (below_at self.old name.now)) }
        ensures ok { OnOk result (IsWritten (live_of self.old name.now) (live_of self.new name.now) (origin_group (origin_at self.old name.now)) (snaps_at self.old name.now) (changes_of updates.now) group.0 synced.0 allocator.now draft.new) }
        ensures others { OnOk result (self.new ≡ with_live self.old name.now (live_of self.new name.now)) }
        ensures room { OnOk result (HasRoom (live_of self.old name.now) (changes_of updates.now) (young_after (origin_group (origin_at self.old name.now)) (snaps_at self.old name.now) synced.0) allocator.now) }
        ensures err { OnErr result (self.new ≡ self.old) }
        ensures no_dataset { (result ≡ Err Refusal.NoDataset) ↔ (get self.old name.now ≡ None) }
        ensures no_space { result ≡ Err Refusal.NoSpace → LacksRoom (live_of self.old name.now) (changes_of updates.now) (young_after (origin_group (origin_at self.old name.now)) (snaps_at self.old name.now) synced.0) allocator.now }
        ensures only { IfErr result (λ e. (e ≡ Refusal.NoDataset) ⊎ IsNoSpaceOrNoMemory e) }
        ensures metered { OnOk result (CountsDropped (live_of self.old name.now) (changes_of updates.now) meter.old meter.new) }
        ensures never_lower { meter.old ≤ meter.new }
        ensures segments_never_lower { segments.old ≤ segments.new }
    {
        let Ok(place) = place_near(&self.rows, self.near, name.as_bytes()) else {
            return Err(Refusal::NoDataset);
        };
        self.near = place;
        let file_system = own(&mut self.rows[place], alloc)?;
        file_system.apply(
            alloc, updates, group, synced, allocator, meter, segments, draft,
        )
    }

    /// Takes a snapshot of the live map of this file system, which becomes its newest one, as `Table::take_snapshot` says. No other snapshot may
    /// have both this group and this guid. NoMemory also where there are as many snapshots as a usize counts. Where others share the file
    /// system, a copy of it takes its place.
    pub(crate) fn take_snapshot(
        &mut self,
        alloc: Global,
        name: &DsName,
        component: &Component,
        guid: Guid,
        group: Group,
    ) -> Result<(), Refusal>
        requires there { IsSome (get self.old name.now) }
        requires fresh { find (λ t. same_id (id_of t) (record { group = group.0; guid = guid.0 })) (all_snaps self.old) ≡ None }
        ensures ok { OnOk result (self.new ≡ option_map_or (λ f. insert self.old name.now (with_snap f component.now guid.0 group.0)) (get self.old name.now) self.old) }
        ensures err { OnErr result (self.new ≡ self.old) }
        ensures only { IfErr result (λ e. e ≡ Refusal.NoMemory) }
    {
        let Ok(place) = place_near(&self.rows, self.near, name.as_bytes()) else {
            unreachable!()
        };
        let Some(count) = self.snapshot_count.checked_add(1) else {
            return Err(Refusal::NoMemory);
        };
        self.near = place;
        let file_system = own(&mut self.rows[place], alloc)?;
        file_system.take(alloc, component, guid, group)?;
        self.snapshot_count = count;
        Ok(())
    }

    /// Removes the snapshot of this group from this file system, as `Table::remove_snapshot` says. It must be there and not be the origin of a
    /// clone. The answer lists its blocks that neither the dataset before it nor the one after it has. Where others share the file system, a
    /// copy of it takes its place.
    pub(crate) fn splice(
        &mut self,
        alloc: Global,
        name: &DsName,
        group: Group,
        segments: &mut SegMeter,
    ) -> Result<Deadlist, Refusal>
        requires there { IsSome (find (λ t. t.group == group.0) (snaps_at self.old name.now)) }
        requires above { IfSome (get self.old name.now) (AreAbove (below_at self.old name.now)) }
        requires unused { (t : Snap) → IsIn (snaps_at self.old name.now) t → t.group ≡ group.0 → HasNoCloneIn self.old (id_of t) }
        ensures ok { OnOk result (self.new ≡ without_snap_of self.old name.now group.0) }
        ensures lost { IfOk result (λ d. Lists (map dead_block d.entries) (lost_from (blocks (below_at self.old name.now)) (snaps_at self.old name.now) (live_of self.old name.now) group.0)) }
        ensures err { OnErr result (self.new ≡ self.old) }
        ensures only { IfErr result (λ e. e ≡ Refusal.NoMemory) }
        ensures never_lower { segments.old ≤ segments.new }
    {
        let Ok(place) = place_near(&self.rows, self.near, name.as_bytes()) else {
            unreachable!()
        };
        self.near = place;
        let file_system = own(&mut self.rows[place], alloc)?;
        let lost = file_system.splice(alloc, group, segments)?;
        self.snapshot_count -= 1;
        Ok(lost)
    }

    /// Marks the destroy of the snapshot of this group of this file system as deferred, as `Table::defer` says. The snapshot must be there.
    /// Where others share the file system, a copy of it takes its place.
    pub(crate) fn defer(
        &mut self,
        alloc: Global,
        name: &DsName,
        group: Group,
    ) -> Result<(), Refusal>
        requires there { IsSome (find (λ t. t.group == group.0) (snaps_at self.old name.now)) }
        requires above { IfSome (get self.old name.now) (AreAbove (below_at self.old name.now)) }
        ensures ok { OnOk result (self.new ≡ deferred_of self.old name.now group.0) }
        ensures err { OnErr result (self.new ≡ self.old) }
        ensures only { IfErr result (λ e. e ≡ Refusal.NoMemory) }
    {
        let Ok(place) = place_near(&self.rows, self.near, name.as_bytes()) else {
            unreachable!()
        };
        self.near = place;
        let file_system = own(&mut self.rows[place], alloc)?;
        file_system.defer(alloc, group)
    }

    /// Renames the snapshot of this group of this file system, as `Table::rename_snapshot` says. The snapshot must be there, and none of the file system
    /// may have the new name. Where others share the file system, a copy of it takes its place.
    pub(crate) fn rename_snapshot(
        &mut self,
        alloc: Global,
        name: &DsName,
        group: Group,
        to: &Component,
    ) -> Result<(), Refusal>
        requires there { IsSome (find (λ t. t.group == group.0) (snaps_at self.old name.now)) }
        requires above { IfSome (get self.old name.now) (AreAbove (below_at self.old name.now)) }
        requires free { find (λ t. same_name t.name to.now) (snaps_at self.old name.now) ≡ None }
        ensures ok { OnOk result (self.new ≡ edited_of (with_snap_name to.now) self.old name.now group.0) }
        ensures err { OnErr result (self.new ≡ self.old) }
        ensures only { IfErr result (λ e. e ≡ Refusal.NoMemory) }
    {
        let Ok(place) = place_near(&self.rows, self.near, name.as_bytes()) else {
            unreachable!()
        };
        self.near = place;
        let file_system = own(&mut self.rows[place], alloc)?;
        file_system.rename_snapshot(alloc, group, to)
    }

    /// Replaces the tags of the snapshot of this group of this file system, as `Table::set_tags` says. The snapshot must be there. Where others
    /// share the file system, a copy of it takes its place.
    pub(crate) fn set_tags(
        &mut self,
        alloc: Global,
        name: &DsName,
        group: Group,
        tags: Arc<Holds>,
    ) -> Result<(), Refusal>
        requires there { IsSome (find (λ t. t.group == group.0) (snaps_at self.old name.now)) }
        requires above { IfSome (get self.old name.now) (AreAbove (below_at self.old name.now)) }
        ensures ok { OnOk result (self.new ≡ tagged_of self.old name.now group.0 (arc_value tags)) }
        ensures err { OnErr result (self.new ≡ self.old) }
        ensures only { IfErr result (λ e. e ≡ Refusal.NoMemory) }
    {
        let Ok(place) = place_near(&self.rows, self.near, name.as_bytes()) else {
            unreachable!()
        };
        self.near = place;
        let file_system = own(&mut self.rows[place], alloc)?;
        file_system.set_tags(alloc, group, tags)
    }

    /// Replaces the bookmarks of this file system, as `Table::set_bookmarks` says. Where others share it, a copy of it takes its place.
    pub(crate) fn set_bookmarks(
        &mut self,
        alloc: Global,
        name: &DsName,
        bookmarks: Arc<Bookmarks>,
    ) -> Result<(), Refusal>
        ensures ok { OnOk result (self.new ≡ bookmarked_of self.old name.now (arc_value bookmarks)) }
        ensures no_dataset { (result ≡ Err Refusal.NoDataset) ↔ (get self.old name.now ≡ None) }
        ensures err { OnErr result (self.new ≡ self.old) }
        ensures only { IfErr result (λ e. (e ≡ Refusal.NoDataset) ⊎ (e ≡ Refusal.NoMemory)) }
    {
        let Ok(place) = place_near(&self.rows, self.near, name.as_bytes()) else {
            return Err(Refusal::NoDataset);
        };
        self.near = place;
        let file_system = own(&mut self.rows[place], alloc)?;
        file_system.set_bookmarks(bookmarks);
        Ok(())
    }

    /// Sets this limit of this file system, or removes it, as `Table::set_limit` says. Where others share it, a copy of it takes its place.
    pub(crate) fn set_limit(
        &mut self,
        alloc: Global,
        name: &DsName,
        limit: Limit,
        amount: Option<Blocks>,
    ) -> Result<(), Refusal>
        ensures ok { OnOk result (self.new ≡ limited_of self.old name.now limit amount) }
        ensures no_dataset { (result ≡ Err Refusal.NoDataset) ↔ (get self.old name.now ≡ None) }
        ensures err { OnErr result (self.new ≡ self.old) }
        ensures only { IfErr result (λ e. (e ≡ Refusal.NoDataset) ⊎ (e ≡ Refusal.NoMemory)) }
    {
        let Ok(place) = place_near(&self.rows, self.near, name.as_bytes()) else {
            return Err(Refusal::NoDataset);
        };
        self.near = place;
        let file_system = own(&mut self.rows[place], alloc)?;
        file_system.set_limit(limit, amount);
        Ok(())
    }

    /// Makes the map of its newest snapshot, which must be there, the live map of this file system, as `Table::rollback` says. It answers the
    /// blocks of the former live map that the snapshot doesn't have. Where others share the file system, a copy of it takes its place.
    pub(crate) fn rollback(
        &mut self,
        alloc: Global,
        name: &DsName,
        segments: &mut SegMeter,
    ) -> Result<Lost, Refusal>
        requires there { 0 < length (snaps_at self.old name.now) }
        requires above { IfSome (get self.old name.now) (AreAbove (below_at self.old name.now)) }
        ensures ok { OnOk result (self.new ≡ with_live self.old name.now (newest_map (live_of self.old name.now) (snaps_at self.old name.now))) }
        ensures lost { IfOk result (IsLost (blocks (below_at self.old name.now)) (origin_group (origin_at self.old name.now)) (live_of self.old name.now) (snaps_at self.old name.now)) }
        ensures err { OnErr result (self.new ≡ self.old) }
        ensures only { IfErr result (λ e. e ≡ Refusal.NoMemory) }
        ensures never_lower { segments.old ≤ segments.new }
    {
        let Ok(place) = place_near(&self.rows, self.near, name.as_bytes()) else {
            unreachable!()
        };
        self.near = place;
        let file_system = own(&mut self.rows[place], alloc)?;
        file_system.rollback(alloc, segments)
    }

    /// The blocks that no dataset has any more once this file system is removed, as `Table::lost_with` says. It must be there and have no
    /// snapshot. The answer shares its live tree.
    pub(crate) fn lost(&self, name: &DsName) -> Result<Lost, Refusal>
        requires there { IsSome (get self.now name.now) }
        requires bare { snaps_at self.now name.now ≡ [] }
        requires above { IsAbove (blocks (below_at self.now name.now)) (origin_group (origin_at self.now name.now)) (live_of self.now name.now) (snaps_at self.now name.now) }
        ensures lost { IfOk result (IsLost (blocks (below_at self.now name.now)) (origin_group (origin_at self.now name.now)) (live_of self.now name.now) []) }
        ensures err { IfErr result (λ e. e ≡ Refusal.NoMemory) }
    {
        let Ok(place) = place_near(&self.rows, self.near, name.as_bytes()) else {
            unreachable!()
        };
        self.rows[place].lost()
    }

    /// Removes this file system, as `Table::remove` says. It must be there and have no snapshot.
    pub(crate) fn take_out(&mut self, name: &DsName)
        requires there { IsSome (get self.old name.now) }
        requires bare { snaps_at self.old name.now ≡ [] }
        ensures { self.new ≡ finmap.remove self.old name.now }
    {
        let Ok(place) = place_near(&self.rows, self.near, name.as_bytes()) else {
            unreachable!()
        };
        let origin = self.rows[place].origin();
        self.clones.leave(origin, name);
        let _gone = self.rows.remove(place);
    }

    /// Empties this file system, as `Table::vacate` says, and answers the blocks that no dataset has any more. It must be there and have no
    /// snapshot. Where it is a clone, it costs the number of clones too.
    pub(crate) fn vacate(&mut self, alloc: Global, name: &DsName) -> Result<Lost, Refusal>
        requires there { IsSome (get self.old name.now) }
        requires bare { snaps_at self.old name.now ≡ [] }
        requires above { IsAbove (blocks (below_at self.old name.now)) (origin_group (origin_at self.old name.now)) (live_of self.old name.now) (snaps_at self.old name.now) }
        ensures ok { OnOk result (self.new ≡ insert self.old name.now empty_file_system) }
        ensures lost { IfOk result (IsLost (blocks (below_at self.old name.now)) (origin_group (origin_at self.old name.now)) (live_of self.old name.now) []) }
        ensures err { OnErr result (self.new ≡ self.old) }
        ensures only { IfErr result (λ e. e ≡ Refusal.NoMemory) }
    {
        let lost = self.lost(name)?;
        let Ok(place) = place_near(&self.rows, self.near, name.as_bytes()) else {
            unreachable!()
        };
        let empty = Arc::new(alloc, FileSystem::new(alloc, name)?)?;
        let origin = self.rows[place].origin();
        self.clones.leave(origin, name);
        self.rows[place] = empty;
        self.near = place;
        Ok(lost)
    }
}

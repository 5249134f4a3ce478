//! One file system, with its snapshots.
ghost use Rattle.std.specs.Prelude.{◌≡◌, ◌≤◌, ◌<◌, ◌+◌, ◌^◌, ◌==◌, max, nat_lt, ◌∷◌, ◌↔◌, [], ℕ, List, true, false, Some, None, IsSome, IsTrue, IfOk, IfErr, OnOk, OnErr, length, map, remove, slice_get, slice_set};
ghost use Rattle.snapshots.specs.Index.{AreNamesOnce};
ghost use Rattle.std.specs.Option.{option_map, option_copied};
ghost use Rattle.std.specs.Arc.{arc_value};
ghost use Rattle.std.specs.Borrow.{sem};
ghost use Rattle.std.specs.FinMap as finmap;
ghost use Rattle.std.specs.List.{find};
ghost use Rattle.base.specs.Names.{name_cmp, same_name};
ghost use Rattle.base.specs.declared.refusal.Refusal.{Refusal};
ghost use Rattle.base.specs.Map.{blocks};
ghost use Rattle.base.specs.Surveys.{dead_block};
ghost use Rattle.model.specs.World.{id_of, same_id, blocks_of_all};
ghost use Rattle.model.specs.Ids.{snap_id};
ghost use Rattle.model.specs.Limits.{limited};
ghost use Rattle.model.specs.Sums.{size_without};
ghost use Rattle.tree.specs.Asking.{IsNoSpaceOrNoMemory};
ghost use Rattle.tree.specs.Change.{HasRoom, LacksRoom, CountsDropped};
ghost use Rattle.tree.specs.Updates.{changes_of};
ghost use Rattle.file_system.specs.Dead.{snaps_in, newest_blocks, written_from, AllowsLive, IsAbove};
ghost use Rattle.file_system.specs.Losses.{newest_map, IsLost};
ghost use Rattle.world.specs.Deadlists.{Lists};
ghost use Rattle.world.specs.Worlds.{AreRising};
ghost use Rattle.file_system.specs.Origins.{origin_group};
ghost use Rattle.file_system.specs.Owned.{LendsLine};
ghost use Rattle.file_system.specs.Promotions.{clone_row};
ghost use Rattle.file_system.specs.Rows.{new_row, with_name, with_system, with_snap};
ghost use Rattle.file_system.specs.Splices.{lost_from, without_group, AreAbove};
ghost use Rattle.file_system.specs.Deferred.{deferred_at, edit_of, edited_at, tagged_at, with_snap_name};
ghost use Rattle.file_system.specs.declared.mark.SnapshotEdit.{SnapshotEdit};
ghost use Rattle.file_system.specs.Writes.{newest_group, young_after, IsWritten};

use crate::counts::{UsedBlocks, counts_with, no_counts, recounted, rest_of};
use crate::dead::put;
use crate::lost::Lost;
use crate::mark::{SnapshotEdit, edited};
use crate::origin::{Origin, base_group, copy_of_origin, origin_in, origin_of};
use crate::splice::{joined, joined_next, kept_of, place_of};
use crate::written::{group_of, written_over};
use base::limit::Blocks;
use base::meter::{Meter, SegMeter};
use base::name::{Component, DsName};
use base::number::{Dead, Group, Guid};
use base::refusal::Refusal;
use base::text::{compare_bytes, same_bytes};
use deadlist::deadlist::Deadlist;
use model::limits::{Limit, Limits};
use model::snapshot_id::SnapshotId;
use shared_list::SharedList;
use snapshots::bookmarks::Bookmarks;
use snapshots::holds::Holds;
use snapshots::{Kept, Snapshot, SnapshotList};
use std::alloc::Global;
use std::cmp::Ordering;
use std::marker::Model;
use std::sync::Arc;
use tree::{Draft, Tree, Update};
use zalloc::Allocator;

/// A file system: its name, its live dataset, its snapshots in order of their creation groups, its origin where it is a clone, its limits, and
/// its bookmarks (On-Disk Specification, chapter 4; zfs-bookmark(8)). Contracts see its name, what a world has under that name, and the map of
/// the origin, which is empty where there is no origin. Copies share the name, the tree, the dead lists, the snapshots, the origin and the
/// bookmarks. It keeps two counts of blocks: those of its live map that its origin doesn't have, and those of its snapshots that neither the
/// live map nor the origin has.
pub struct FileSystem {
    pub(crate) name: Arc<DsName>,
    pub(crate) live: Tree,
    pub(crate) dead: Arc<Deadlist>,
    pub(crate) snapshots: Arc<SnapshotList>,
    pub(crate) origin: Option<Arc<Origin>>,
    pub(crate) limits: Limits,
    pub(crate) bookmarks: Arc<Bookmarks>,
    pub(crate) counts: UsedBlocks,
}

// Written by hand, so that it is proved once: a derived `Drop` is expanded anew in each crate that drops the type.
impl Drop for FileSystem {
    fn drop(self) {
        let FileSystem {
            name,
            live,
            dead,
            snapshots,
            origin,
            limits: _,
            bookmarks,
            counts: _,
        } = self;
        drop(name);
        drop(live);
        drop(dead);
        drop(snapshots);
        drop(origin);
        drop(bookmarks);
    }
}

impl Model for FileSystem {
    ghost use Rattle.file_system.specs.Rows.{Row, row_code, system_of};

    ghost Value = { Row };

    ghost coded = { row_code };

    ghost use Rattle.std.specs.Arc.{arc_value};
    ghost use Rattle.std.specs.Option.{option_map};
    ghost use Rattle.file_system.specs.Dead.{snaps_in, IsKeeping};
    ghost use Rattle.file_system.specs.Origins.{origin_id, map_below};

    ghost view = { λ f. record {
      name = f.name.value;
      system = system_of f.live (snaps_in (arc_value f.snapshots)) (origin_id (option_map arc_value f.origin)) f.limits (arc_value f.bookmarks);
      below = map_below (option_map arc_value f.origin);
    } };

    ghost invariant = { IsKeeping };
}

impl FileSystem {
    /// A file system without a block, an origin, a limit or a bookmark, under this name (zfs-create(8)). NoMemory where there is
    /// none for it. It costs the length of the name.
    pub fn new(alloc: Global, name: &DsName) -> Result<FileSystem, Refusal>
        ensures ok { IfOk result (λ f. f ≡ new_row name.now) }
        ensures err { IfErr result (λ e. e ≡ Refusal.NoMemory) }
    {
        let name = shared_name(alloc, name)?;
        let dead = Arc::new(alloc, Deadlist::new(alloc))?;
        let snapshots = Arc::new(alloc, SnapshotList::new(alloc))?;
        let bookmarks = no_bookmarks(alloc)?;
        Ok(FileSystem {
            name,
            live: Tree::new(),
            dead,
            snapshots,
            origin: None,
            limits: Limits::none(),
            bookmarks,
            counts: no_counts(),
        })
    }

    /// A clone of a snapshot, under this name: its live map is the snapshot's, whose tree it shares, and its origin is the snapshot. It has
    /// neither a limit nor a bookmark (zfs-clone(8)). NoMemory where there is none for it. It costs the length of the name.
    pub fn clone_of(
        alloc: Global,
        name: &DsName,
        snapshot: &Snapshot,
    ) -> Result<FileSystem, Refusal>
        ensures ok { IfOk result (λ f. f ≡ clone_row name.now snapshot.now) }
        ensures err { IfErr result (λ e. e ≡ Refusal.NoMemory) }
    {
        let own_name = shared_name(alloc, name)?;
        let live = snapshot.tree().copy()?;
        let origin = origin_of(alloc, snapshot)?;
        let dead = Arc::new(alloc, Deadlist::new(alloc))?;
        let snapshots = Arc::new(alloc, SnapshotList::new(alloc))?;
        let bookmarks = no_bookmarks(alloc)?;
        Ok(FileSystem {
            name: own_name,
            live,
            dead,
            snapshots,
            origin: Some(origin),
            limits: Limits::none(),
            bookmarks,
            counts: no_counts(),
        })
    }

    /// Its name. Constant time.
    pub fn name(&self) -> &DsName
        ensures { result.now ≡ self.now.name }
    {
        &self.name
    }

    /// Its name in an `Arc`, which others can share. Constant time.
    pub fn owned_name(&self) -> &Arc<DsName>
        ensures { arc_value result.now ≡ self.now.name }
    {
        &self.name
    }

    /// Gives it another name (zfs-rename(8)). Constant time.
    pub fn set_name(&mut self, name: Arc<DsName>)
        ensures { self.new ≡ with_name self.old (arc_value name) }
    {
        self.name = name;
    }

    /// The tree of its live dataset. Constant time.
    pub fn live(&self) -> &Tree
        ensures { result.now ≡ self.now.system.live }
    {
        &self.live
    }

    /// Its snapshots, in order of their creation groups. Constant time.
    pub fn snapshots(&self) -> &SharedList<Kept>
        ensures { snaps_in result.now ≡ self.now.system.snaps }
    {
        self.snapshots.list()
    }

    /// The snapshot of this name within the file system, or none. It costs the logarithm of the number of its snapshots, or, where it has
    /// no index, their number.
    pub fn snapshot_named(&self, component: &[u8]) -> Option<&Snapshot>
        ensures { option_copied result ≡ find (λ t. same_name t.name component.now) self.now.system.snaps }
    {
        self.kept_named(component).map(|kept| &kept.snapshot)
    }

    /// Its snapshot of this identity, or none. It costs the logarithm of the number of its snapshots, and a walk over their chunks.
    pub fn snapshot_of(&self, id: SnapshotId) -> Option<&Snapshot>
        requires { AreRising 0 self.now.system.snaps }
        ensures { option_copied result ≡ find (λ t. same_id (id_of t) (snap_id id)) self.now.system.snaps }
    {
        kept_of(self.snapshots.list(), id).map(|kept| &kept.snapshot)
    }

    /// Its origin, where it is a clone, and else none (zfsprops(7): origin). Constant time.
    pub fn origin(&self) -> Option<SnapshotId>
        ensures { option_map snap_id result ≡ self.now.system.origin }
    {
        origin_in(&self.origin).map(|origin| origin.id())
    }

    /// Its limits (zfsprops(7): quota, refquota, reservation, refreservation). Constant time.
    pub fn limits(&self) -> Limits
        ensures { result ≡ self.now.system.limits }
    {
        self.limits
    }

    /// Sets this limit to this amount, or to none (zfsprops(7)). Constant time.
    pub fn set_limit(&mut self, limit: Limit, amount: Option<Blocks>)
        ensures { self.new ≡ with_system self.old (limited self.old.system limit amount) }
    {
        self.limits = self.limits.with(limit, amount);
    }

    /// Its bookmarks (zfs-bookmark(8)). Constant time.
    pub fn bookmarks(&self) -> &Bookmarks
        ensures { result.now ≡ self.now.system.bookmarks }
    {
        &self.bookmarks
    }

    /// Replaces its bookmarks (zfs-bookmark(8), zfs-destroy(8)). Constant time.
    pub fn set_bookmarks(&mut self, bookmarks: Arc<Bookmarks>)
        ensures { self.new ≡ with_system self.old (record self.old.system { bookmarks = arc_value bookmarks }) }
    {
        self.bookmarks = bookmarks;
    }

    /// The creation group of its newest snapshot, or else of its origin, and 0 where it has neither. Constant time.
    pub fn newest_group(&self) -> Group
        ensures { result.0 ≡ newest_group (origin_group self.now.system.origin) self.now.system.snaps }
    {
        group_of(self.snapshots.last(), base_group(origin_in(&self.origin)))
    }

    /// The number of blocks of its live dataset that its newest snapshot, or else its origin, doesn't have, and all of them where it has neither
    /// (zfsprops(7): written). Constant time.
    pub fn written(&self) -> u32
        ensures { result ≡ size_without (blocks self.now.system.live) (newest_blocks (blocks self.now.below) self.now.system.snaps) }
    {
        written_over(
            self.snapshots.last(),
            origin_in(&self.origin),
            &self.live,
            &self.dead,
        )
    }

    /// The number of blocks of the snapshot of this name that the previous snapshot, or for the oldest one the origin, doesn't have, and all of
    /// them where there is neither (zfsprops(7): written). None where there is no such snapshot. It costs what `snapshot_named` does.
    pub fn written_at(&self, component: &[u8]) -> Option<u32>
        ensures { result ≡ written_from (blocks self.now.below) self.now.system.snaps component.now }
    {
        self.kept_named(component).map(|kept| kept.written)
    }

    /// The number of blocks of its live dataset that its origin doesn't have, and all of them where it has no origin (zfsprops(7):
    /// usedbydataset). Constant time.
    pub fn used_by_dataset(&self) -> u32
        ensures { result ≡ size_without (blocks self.now.system.live) (blocks self.now.below) }
    {
        self.counts.by_dataset
    }

    /// The number of blocks of its snapshots that neither its live dataset nor its origin has (zfsprops(7): usedbysnapshots). Constant time.
    pub fn used_by_snapshots(&self) -> u64
        ensures { result ≡ size_without (blocks_of_all (map (λ t. t.map) self.now.system.snaps)) (blocks_of_all (self.now.system.live ∷ self.now.below ∷ [])) }
    {
        self.counts.by_snapshots
    }

    /// An equal file system, which shares its name, its tree, its dead list, its snapshots, its origin and its bookmarks. NoMemory where there
    /// is none for that. Constant time.
    pub fn copy(&self) -> Result<FileSystem, Refusal>
        ensures ok { IfOk result (λ f. f ≡ self.now) }
        ensures err { IfErr result (λ e. e ≡ Refusal.NoMemory) }
    {
        let name = Arc::try_clone(&self.name)?;
        let live = self.live.copy()?;
        let dead = Arc::try_clone(&self.dead)?;
        let snapshots = Arc::try_clone(&self.snapshots)?;
        let origin = copy_of_origin(&self.origin)?;
        let bookmarks = Arc::try_clone(&self.bookmarks)?;
        Ok(FileSystem {
            name,
            live,
            dead,
            snapshots,
            origin,
            limits: self.limits,
            bookmarks,
            counts: self.counts,
        })
    }

    /// How its name compares with another, byte by byte.
    pub fn compare(&self, name: &[u8]) -> Ordering
        ensures { result ≡ name_cmp self.now.name name.now }
    {
        compare_bytes(self.name.as_bytes(), name)
    }

    /// Whether this is its name. Constant time where the lengths differ, and else it costs the length of the name.
    pub fn is_named(&self, name: &[u8]) -> bool
        ensures { IsTrue result ↔ (self.now.name ≡ name.now) }
    {
        same_bytes(self.name.as_bytes(), name)
    }

    // The kept snapshot of this name, or None.
    fn kept_named(&self, component: &[u8]) -> Option<&Kept>
        ensures snapshot { option_map (λ k. k.snapshot) (option_copied result) ≡ find (λ t. same_name t.name component.now) self.now.system.snaps }
        ensures written { option_map (λ k. k.written) (option_copied result) ≡ written_from (blocks self.now.below) self.now.system.snaps component.now }
    {
        self.snapshots.get(component)
    }

    /// Takes a snapshot of its live map, which becomes its newest one. NoMemory where there is none for it; then all is as it was.
    pub fn take(
        &mut self,
        alloc: Global,
        name: &Component,
        guid: Guid,
        group: Group,
    ) -> Result<(), Refusal>
        ensures ok { OnOk result (self.new ≡ with_system self.old (with_snap self.old.system name.now guid.0 group.0)) }
        ensures err { OnErr result (self.new ≡ self.old) }
        ensures only { IfErr result (λ e. e ≡ Refusal.NoMemory) }
    {
        let written = self.written();
        let snapshot = Snapshot::new(copy_of(name)?, self.live.copy()?, guid, group);
        let dead = Arc::try_clone(&self.dead)?;
        let fresh = Arc::new(alloc, Deadlist::new(alloc))?;
        let kept = Kept {
            snapshot,
            dead,
            written,
        };
        own(&mut self.snapshots, alloc)?.push(alloc, kept)?;
        self.dead = fresh;
        Ok(())
    }

    /// Removes the snapshot of this group, which must be there. Its dead list becomes a part of that of the dataset after it. The answer is the
    /// list of the blocks that neither the dataset before it nor the one after it has; they aren't visited. NoMemory where there is none for it;
    /// then all is as it was. It costs the logarithm of the number of snapshots, their chunks, and for each of the two dead lists about the
    /// square of the logarithm of the number of its entries; and where runs of entries are merged, the entries of these runs.
    pub fn splice(
        &mut self,
        alloc: Global,
        group: Group,
        segments: &mut SegMeter,
    ) -> Result<Deadlist, Refusal>
        requires there { IsSome (find (λ t. t.group == group.0) self.old.system.snaps) }
        requires above { AreAbove self.old.below self.old.system }
        ensures ok { OnOk result (self.new ≡ with_system self.old (without_group self.old.system group.0)) }
        ensures lost { IfOk result (λ d. Lists (map dead_block d.entries) (lost_from (blocks self.old.below) self.old.system.snaps self.old.system.live group.0)) }
        ensures err { OnErr result (self.new ≡ self.old) }
        ensures only { IfErr result (λ e. e ≡ Refusal.NoMemory) }
        ensures never_lower { segments.old ≤ segments.new }
    {
        let (kept, origin) = (self.snapshots.list(), origin_in(&self.origin));
        let (place, count) = (place_of(kept, group), kept.len());
        if place + 1 < count {
            let (next, lost) = joined_next(kept, origin, alloc, place, segments)?;
            own(&mut self.snapshots, alloc)?.splice(alloc, place, next)?;
            self.counts.by_snapshots -= lost.len();
            return Ok(lost);
        }
        let (dead, lost) = joined(kept, base_group(origin), place, &self.dead, segments)?;
        let dead = Arc::new(alloc, dead)?;
        own(&mut self.snapshots, alloc)?.remove(place)?;
        self.dead = dead;
        self.counts.by_snapshots -= lost.len();
        Ok(lost)
    }

    /// Marks the destroy of the snapshot of this group, which must be there, as deferred (zfs-destroy(8), -d). NoMemory where there is none for
    /// it; then all is as it was. It costs the logarithm of the number of snapshots, a walk over their chunks, the length of its name, and at
    /// most one chunk of the snapshots and one of their index.
    pub fn defer(&mut self, alloc: Global, group: Group) -> Result<(), Refusal>
        requires there { IsSome (find (λ t. t.group == group.0) self.old.system.snaps) }
        requires above { AreAbove self.old.below self.old.system }
        ensures ok { OnOk result (self.new ≡ with_system self.old (deferred_at self.old.system group.0)) }
        ensures err { OnErr result (self.new ≡ self.old) }
        ensures only { IfErr result (λ e. e ≡ Refusal.NoMemory) }
    {
        self.edit(alloc, group, SnapshotEdit::Defer)
    }

    /// Replaces the tags of the snapshot of this group, which must be there (zfs-hold(8), zfs-release(8)). NoMemory where there is none for it;
    /// then all is as it was. It costs what `defer` does.
    pub fn set_tags(&mut self, alloc: Global, group: Group, tags: Arc<Holds>) -> Result<(), Refusal>
        requires there { IsSome (find (λ t. t.group == group.0) self.old.system.snaps) }
        requires above { AreAbove self.old.below self.old.system }
        ensures ok { OnOk result (self.new ≡ with_system self.old (tagged_at self.old.system group.0 (arc_value tags))) }
        ensures err { OnErr result (self.new ≡ self.old) }
        ensures only { IfErr result (λ e. e ≡ Refusal.NoMemory) }
    {
        self.edit(alloc, group, SnapshotEdit::SetTags(tags))
    }

    /// Renames the snapshot of this group, which must be there (zfs-rename(8)). No snapshot may have the new name. NoMemory where there is none for
    /// it; then all is as it was. It costs what `defer` does, and the lengths of both names.
    pub fn rename_snapshot(
        &mut self,
        alloc: Global,
        group: Group,
        name: &Component,
    ) -> Result<(), Refusal>
        requires there { IsSome (find (λ t. t.group == group.0) self.old.system.snaps) }
        requires above { AreAbove self.old.below self.old.system }
        requires free { find (λ t. same_name t.name name.now) self.old.system.snaps ≡ None }
        ensures ok { OnOk result (self.new ≡ with_system self.old (edited_at (with_snap_name name.now) self.old.system group.0)) }
        ensures err { OnErr result (self.new ≡ self.old) }
        ensures only { IfErr result (λ e. e ≡ Refusal.NoMemory) }
    {
        let name = copy_of(name)?;
        self.edit(alloc, group, SnapshotEdit::SetName(name))
    }

    // Applies this edit to the snapshot of this group, which must be there. No snapshot may have a name that it gives. NoMemory where there is none for
    // it; then all is as it was.
    fn edit(&mut self, alloc: Global, group: Group, edit: SnapshotEdit) -> Result<(), Refusal>
        requires there { IsSome (find (λ t. t.group == group.0) self.old.system.snaps) }
        requires above { AreAbove self.old.below self.old.system }
        requires free { (name : List ℕ) → edit ≡ SnapshotEdit.SetName name → find (λ t. same_name t.name name) self.old.system.snaps ≡ None }
        ensures ok { OnOk result (self.new ≡ with_system self.old (edited_at (edit_of edit) self.old.system group.0)) }
        ensures err { OnErr result (self.new ≡ self.old) }
        ensures only { IfErr result (λ e. e ≡ Refusal.NoMemory) }
    {
        let kept = self.snapshots.list();
        let place = place_of(kept, group);
        let renames = edit.is_rename();
        let next = edited(kept, place, edit)?;
        put_at(
            own(&mut self.snapshots, alloc)?,
            alloc,
            place,
            next,
            renames,
        )?;
        Ok(())
    }

    /// The blocks that no dataset has any more once the live map is gone. They aren't visited. NoMemory where there is none for it.
    pub fn lost(&self) -> Result<Lost, Refusal>
        requires { IsAbove (blocks self.now.below) (origin_group self.now.system.origin) self.now.system.live self.now.system.snaps }
        ensures ok { IfOk result (IsLost (blocks self.now.below) (origin_group self.now.system.origin) self.now.system.live self.now.system.snaps) }
        ensures err { IfErr result (λ e. e ≡ Refusal.NoMemory) }
    {
        let tree = self.live.copy()?;
        Ok(Lost {
            tree,
            after: self.newest_group(),
            count: self.written(),
        })
    }

    /// Makes the map of the newest snapshot, which must be there, the live map. They share the tree, and the blocks are counted again. The
    /// answer is the blocks that no dataset has any more. NoMemory where there is none for it, or the snapshots have more blocks than a u64
    /// counts; then all is as it was. It costs the number of snapshots, and the segments of their dead lists.
    pub fn rollback(&mut self, alloc: Global, segments: &mut SegMeter) -> Result<Lost, Refusal>
        requires there { 0 < length self.old.system.snaps }
        requires above { AreAbove self.old.below self.old.system }
        ensures ok { OnOk result (self.new ≡ with_system self.old (record self.old.system { live = newest_map self.old.system.live self.old.system.snaps })) }
        ensures lost { IfOk result (IsLost (blocks self.old.below) (origin_group self.old.system.origin) self.old.system.live self.old.system.snaps) }
        ensures err { OnErr result (self.new ≡ self.old) }
        ensures only { IfErr result (λ e. e ≡ Refusal.NoMemory) }
        ensures never_lower { segments.old ≤ segments.new }
    {
        let lost = self.lost()?;
        let Some(newest) = self.snapshots.last() else {
            unreachable!()
        };
        let live = newest.snapshot.tree().copy()?;
        let dead = Arc::new(alloc, Deadlist::new(alloc))?;
        let (kept, origin) = (self.snapshots.list(), origin_in(&self.origin));
        let counts = recounted(kept, origin, &live, &dead, segments)?;
        self.live = live;
        self.dead = dead;
        self.counts = counts;
        Ok(lost)
    }

    /// Applies a batch of changes to the live tree at once, and leaves in `draft` the blocks that are to be released, the numbers to take and the
    /// new blocks. `synced` is the group that the last sync left open. It takes no number from the allocator. Of the blocks that the tree drops,
    /// those that no snapshot has are to be released. The others go onto the dead list, and those of them
    /// that the origin doesn't have are then counted as used by the snapshots. NoSpace where there are too few numbers. NoMemory where there is
    /// none for it, or where the snapshots have more blocks than a u64 counts. After an error all is as it was. It costs what `Tree::draft` and
    /// `Tree::put` do.
    pub fn apply(
        &mut self,
        alloc: Global,
        updates: &[Update],
        group: Group,
        synced: Group,
        allocator: &Allocator,
        meter: &mut Meter,
        segments: &mut SegMeter,
        draft: &mut Draft,
    ) -> Result<(), Refusal>
        requires allowed { AllowsLive (blocks self.old.below) (origin_group self.old.system.origin) self.old.system.live self.old.system.snaps updates.now group.0 synced.0 allocator.now }
        requires above { AreAbove self.old.below self.old.system }
        ensures ok { OnOk result (IsWritten self.old.system.live self.new.system.live (origin_group self.old.system.origin) self.old.system.snaps (changes_of updates.now) group.0 synced.0 allocator.now draft.new) }
        ensures others { self.new ≡ with_system self.old (record self.old.system { live = self.new.system.live }) }
        ensures room { OnOk result (HasRoom self.old.system.live (changes_of updates.now) (young_after (origin_group self.old.system.origin) self.old.system.snaps synced.0) allocator.now) }
        ensures err { OnErr result (self.new ≡ self.old) }
        ensures no_space { result ≡ Err Refusal.NoSpace → LacksRoom self.old.system.live (changes_of updates.now) (young_after (origin_group self.old.system.origin) self.old.system.snaps synced.0) allocator.now }
        ensures only { IfErr result IsNoSpaceOrNoMemory }
        ensures metered { OnOk result (CountsDropped self.old.system.live (changes_of updates.now) meter.old meter.new) }
        ensures never_lower { meter.old ≤ meter.new }
        ensures segments_never_lower { segments.old ≤ segments.new }
    {
        let newest = self.newest_group();
        let young = young_from(newest, synced);
        self.live
            .draft(alloc, updates, young, allocator, meter, draft)?;
        let base = base_group(origin_in(&self.origin));
        let nodes = self.live.node_count();
        let rest = rest_of(self.counts, nodes, draft.released.as_slice(), base, newest)?;
        let (dead, live) = (&mut self.dead, &mut self.live);
        put(
            dead, live, alloc, updates, group, draft, newest, meter, segments,
        )?;
        self.counts = counts_with(rest, self.live.node_count());
        draft.released.retain(|dead| is_born_after(dead, newest));
        Ok(())
    }
}

// The first group whose blocks are young: after that of the newest snapshot, and no earlier than the one that the last sync left open.
fn young_from(newest: Group, synced: Group) -> Group
    requires { newest.0 + 1 < 2 ^ 64 }
    ensures { result.0 ≡ max synced.0 (newest.0 + 1) }
{
    Group(synced.0.max(newest.0 + 1))
}

// Whether a block was born after that group.
fn is_born_after(dead: &Dead, group: Group) -> bool
    ensures { result ≡ nat_lt group.0 dead.now.birth.0 }
{
    dead.birth.0 > group.0
}

// Puts the snapshot in the place of the one at `place`, whose name it has, or where `renames` is set a name that no snapshot has. NoMemory where there
// is none for it; then all are as they were. It costs what `SnapshotList::set` or `SnapshotList::rename` does.
fn put_at(
    list: &mut SnapshotList,
    alloc: Global,
    place: usize,
    next: Kept,
    renames: bool,
) -> Result<(), Refusal>
    requires there { place < length list.old }
    requires once { AreNamesOnce list.old }
    requires same { renames ≡ false → option_map (λ k. k.snapshot.name) (slice_get list.old place) ≡ Some next.snapshot.name }
    requires free { renames ≡ true → find (λ k. same_name k.snapshot.name next.snapshot.name) list.old ≡ None }
    ensures ok { OnOk result (list.new ≡ slice_set list.old place next) }
    ensures err { OnErr result (list.new ≡ list.old) }
    ensures only { IfErr result (λ e. e ≡ Refusal.NoMemory) }
{
    if renames {
        list.rename(alloc, place, next)
    } else {
        list.set(alloc, place, next)
    }
}

// Lends the snapshots for a change. Where they have another owner, a copy takes their place first. NoMemory where there is none for the copy.
// The second `get_mut` succeeds, since there is one owner by then; but no contract gives the number of owners.
fn own(line: &mut Arc<SnapshotList>, alloc: Global) -> Result<&mut SnapshotList, Refusal>
    ensures* lends { sem 𝓛 (LendsLine line.entry result) }
    ensures value { IfOk result (λ l. l.now ≡ arc_value line.old) }
    ensures only { IfErr result (λ e. e ≡ Refusal.NoMemory) }
{
    match Arc::get_mut(line) {
        Some(_own) => {}
        None => {
            let copy = line.copy()?;
            *line = Arc::new(alloc, copy)?;
        }
    }
    match Arc::get_mut(line) {
        Some(own) => Ok(own),
        None => Err(Refusal::NoMemory),
    }
}

// An empty list of bookmarks in an `Arc`.
fn no_bookmarks(alloc: Global) -> Result<Arc<Bookmarks>, Refusal>
    ensures ok { IfOk result (λ b. arc_value b ≡ finmap.empty) }
    ensures err { IfErr result (λ e. e ≡ Refusal.NoMemory) }
{
    Ok(Arc::new(alloc, Bookmarks::new(alloc))?)
}

// A copy of a name in an `Arc`.
fn shared_name(alloc: Global, name: &DsName) -> Result<Arc<DsName>, Refusal>
    ensures ok { IfOk result (λ a. arc_value a ≡ name.now) }
    ensures err { IfErr result (λ e. e ≡ Refusal.NoMemory) }
{
    let own = own_name(name)?;
    Ok(Arc::new(alloc, own)?)
}

// A copy of a file system's name.
fn own_name(name: &DsName) -> Result<DsName, Refusal>
    ensures ok { IfOk result (λ n. n ≡ name.now) }
    ensures err { IfErr result (λ e. e ≡ Refusal.NoMemory) }
{
    Ok(name.clone()?)
}

// A copy of a name within a file system.
fn copy_of(name: &Component) -> Result<Component, Refusal>
    ensures ok { IfOk result (λ n. n ≡ name.now) }
    ensures err { IfErr result (λ e. e ≡ Refusal.NoMemory) }
{
    Ok(name.clone()?)
}

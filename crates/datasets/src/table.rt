//! The datasets of a pool.
ghost use Rattle.std.specs.Prelude.{ℕ, List, [], ◌≡◌, ◌⊎◌, ◌↔◌, ◌≤◌, ◌+◌, ◌<◌, ◌^◌, false, Some, None, IsSome, is_some, IfSome, IfOk, IfErr, OnOk, OnErr, map, length, nat_lt};
ghost use Rattle.std.specs.List.{find, list_any};
ghost use Rattle.std.specs.Arc.{arc_value};
ghost use Rattle.std.specs.Option.{option_map, option_map_or, option_copied};
ghost use Rattle.std.specs.FinMap as finmap;
ghost use Rattle.std.specs.FinMap.{get, insert, entries, len};
ghost use Rattle.base.specs.declared.refusal.Refusal.{Refusal};
ghost use Rattle.base.specs.Names.{root_name, same_name, parent_of};
ghost use Rattle.base.specs.Surveys.{dead_block};
ghost use Rattle.model.specs.World.{Bookmark, empty_file_system, id_of, snap_at, snap_named, children_of, clones_of};
ghost use Rattle.model.specs.Ids.{snap_id};
ghost use Rattle.model.specs.Hierarchy.{has_parent};
ghost use Rattle.model.specs.requests.Create.{create_refusal};
ghost use Rattle.tree.specs.Asking.{IsNoSpaceOrNoMemory};
ghost use Rattle.tree.specs.Change.{HasRoom, LacksRoom, CountsDropped};
ghost use Rattle.tree.specs.Updates.{changes_of};
ghost use Rattle.world.specs.Worlds.{AreFileSystems};
ghost use Rattle.world.specs.Dead.{HasNoCloneIn};
ghost use Rattle.world.specs.Deadlists.{Lists};
ghost use Rattle.world.specs.Outcomes.{promotion_of};
ghost use Rattle.world.specs.Tables.{world_of, with_system, without_snap, deferred_snap, tagged_snap, with_bookmarks, without_system, lost_between, CanSnap, CanRemoveFileSystem, CanPromote};
ghost use Rattle.datasets.specs.CloneNames.{name_of};
ghost use Rattle.datasets.specs.Clones.{row_in};
ghost use Rattle.file_system.specs.Losses.{newest_map};
ghost use Rattle.file_system.specs.Rows.{Row, live_of, snaps_at, with_live, snap_count, plain_snap};
ghost use Rattle.datasets.specs.Clones.{with_clone_of, with_promoted};
ghost use Rattle.datasets.specs.Holders.{snapshot_place, snap_in_system, IsPlace};
ghost use Rattle.datasets.specs.Limits.{with_limit_of};
ghost use Rattle.datasets.specs.Renames.{with_names, rename_refusal, with_snap_named};
ghost use Rattle.datasets.specs.Rollbacks.{Loses};
ghost use Rattle.datasets.specs.Table.{AreNumbersOne, AreBookmarksClosed, AreSnapshotsClosed};
ghost use Rattle.datasets.specs.Writes.{young_of, AllowsWrite, HasWritten};
ghost use Rattle.datasets.specs.Snapshots.{with_snap_at};

use crate::clones::CloneName;
use crate::file_systems::FileSystems;
use crate::parent::parent_of;
use base::limit::Blocks;
use base::meter::{Meter, SegMeter};
use base::name::{Component, DsName, Member};
use base::number::{Group, Guid};
use base::refusal::Refusal;
use deadlist::deadlist::Deadlist;
use file_system::{FileSystem, Lost, Snapshot};
use model::limits::Limit;
use model::snapshot_id::SnapshotId;
use snapshots::bookmarks::Bookmarks;
use snapshots::holds::Holds;
use std::alloc::Global;
use std::marker::Model;
use std::sync::Arc;
use tree::{Draft, Update};
use zalloc::Allocator;

/// A pool has at most this many file systems, the root among them (profile).
pub const FILE_SYSTEM_LIMIT: usize = 1024;

/// A pool has at most this many snapshots (profile).
pub const SNAPSHOT_LIMIT: usize = 65536;

/// The last group, which is never closed (profile).
pub const LAST_GROUP: u64 = 9223372036854775807;

/// The datasets of a pool: its file systems with their snapshots, and the group that is open. The root `p` is always there, and so is
/// the parent of every other file system. Copies share the file systems that none of them changed.
pub struct Table {
    systems: FileSystems,
    group: Group,
}

// Written by hand, so that it is proved once: a derived `Drop` is expanded anew in each crate that drops a table.
impl Drop for Table {
    fn drop(self) {
        let Table { systems, group: _ } = self;
        drop(systems);
    }
}

impl Model for Table {
    ghost use Rattle.world.specs.Tables.{Datasets, datasets_code};
    ghost use Rattle.datasets.specs.Table.{IsTable};

    ghost Value = { Datasets };

    ghost coded = { datasets_code };

    ghost view = { λ t. record { file_systems = t.systems; group = t.group.0 } };

    ghost invariant = { λ t. IsTable (record { file_systems = t.systems; group = t.group.0 }) };
}

impl Table {
    /// A table with only the root file system `p`, without a block or a snapshot, in group 1 (zpool-create(8)). NoMemory where there is none for
    /// it. Constant time.
    pub fn new(alloc: Global) -> Result<Table, Refusal>
        ensures ok { IfOk result (λ t. t ≡ record { file_systems = insert finmap.empty root_name empty_file_system; group = 1 }) }
        ensures err { IfErr result (λ e. e ≡ Refusal.NoMemory) }
    {
        let systems = FileSystems::new(alloc, &root_of(alloc)?)?;
        Ok(Table {
            systems,
            group: Group(1),
        })
    }

    /// An equal table, which shares each file system. No name, tree, snapshot or block is visited. NoMemory where there is none for the rows, or
    /// for an `Arc`. It costs the number of file systems.
    pub fn copy(&self) -> Result<Table, Refusal>
        ensures ok { IfOk result (λ t. t ≡ self.now) }
        ensures err { IfErr result (λ e. e ≡ Refusal.NoMemory) }
    {
        let systems = self.systems.copy()?;
        Ok(Table {
            systems,
            group: self.group,
        })
    }

    /// Does nothing. Its contract states the invariants of every table, for proofs: the parent of each file system but the root is there, the
    /// snapshots of a file system are in order of their groups, each snapshot has an identity of its own, each number names one block, and all
    /// snapshots and bookmarks are of closed groups.
    pub fn facts(&self)
        ensures good { AreFileSystems self.now.file_systems self.now.group }
        ensures numbers { AreNumbersOne self.now }
        ensures bookmarks_closed { AreBookmarksClosed self.now }
        ensures snapshots_closed { AreSnapshotsClosed self.now }
    {
        let _group = self.group;
    }

    /// How many file systems there are, the root among them: 1 to `FILE_SYSTEM_LIMIT`. Constant time.
    pub fn len(&self) -> usize
        ensures { result ≡ len self.now.file_systems }
    {
        self.systems.len()
    }

    /// How many snapshots there are. Constant time.
    pub fn snapshot_count(&self) -> usize
        ensures { result ≡ snap_count self.now.file_systems }
    {
        self.systems.snapshot_count()
    }

    /// The group that is open. Constant time.
    pub fn group(&self) -> Group
        ensures { result.0 ≡ self.now.group }
    {
        self.group
    }

    /// All file systems, in byte order of their names. Constant time.
    pub fn file_systems(&self) -> &[Arc<FileSystem>]
        ensures { map arc_value result.now ≡ map (row_in self.now.file_systems) (entries self.now.file_systems) }
    {
        self.systems.as_slice()
    }

    /// The file system of this name, or none. It costs the logarithm of their number.
    pub fn find(&self, name: &DsName) -> Option<&FileSystem>
        ensures { option_copied result ≡ option_map (λ f. row_in self.now.file_systems (name.now, f)) (get self.now.file_systems name.now) }
    {
        self.systems.find(name)
    }

    /// The snapshot of this name, or none. It costs what `snapshot_named` does.
    pub fn snapshot(&self, name: &Member) -> Option<&Snapshot>
        ensures { option_copied result ≡ snap_named (world_of self.now) name.now }
    {
        let (_, snapshot) = self.snapshot_named(&name.file_system, &name.component)?;
        Some(snapshot)
    }

    /// The snapshot of this name with its file system, or none. It costs the logarithm of the number of file systems, and that of the number of
    /// snapshots of that file system.
    pub fn snapshot_named(
        &self,
        file_system: &DsName,
        component: &Component,
    ) -> Option<(&FileSystem, &Snapshot)>
        ensures place { option_map (λ p. (p.0.now, p.1.now)) result ≡ snapshot_place self.now (record { file_system = file_system.now; component = component.now }) }
        ensures named { option_map (λ p. p.1.now) result ≡ snap_named (world_of self.now) (record { file_system = file_system.now; component = component.now }) }
    {
        let file_system = self.systems.find(file_system)?;
        let snapshot = file_system.snapshot_named(component.as_bytes())?;
        Some((file_system, snapshot))
    }

    /// The snapshot of this identity with its file system, or none (On-Disk Specification, chapter 4: ds_creation_txg, ds_guid). It costs
    /// the number of file systems times the logarithm of that of the snapshots of one.
    pub fn snapshot_of(&self, id: SnapshotId) -> Option<(&FileSystem, &Snapshot)>
        ensures found { option_map (λ p. (p.0.now.name, p.1.now)) result ≡ snap_at (world_of self.now) (snap_id id) }
        ensures place { IfSome result (λ p. IsPlace self.now p.0.now (Some p.1.now) × (id_of p.1.now ≡ snap_id id)) }
    {
        self.facts();
        for file_system in self.file_systems() {
            if let Some(snapshot) = file_system.snapshot_of(id) {
                return Some((file_system, snapshot));
            }
        }
        None
    }

    /// The error with which a file system of this name can't be added, or None: Exists where one of that name is there, else NoParent where its
    /// parent isn't there, else TooMany where there are `FILE_SYSTEM_LIMIT` already (zfs-create(8); the limit is profile). It costs the
    /// logarithm of their number.
    #[tactic(auto, unfolding(model::specs::requests::Create::create_refusal))]
    pub fn create_refusal(&self, name: &DsName) -> Option<Refusal>
        ensures { result ≡ create_refusal self.now.file_systems name.now }
    {
        if self.systems.contains(name.as_bytes()) {
            return Some(Refusal::Exists);
        }
        if !self.has_parent(name.as_bytes()) {
            return Some(Refusal::NoParent);
        }
        if self.len() >= FILE_SYSTEM_LIMIT {
            return Some(Refusal::TooMany);
        }
        None
    }

    /// Adds a file system of this name, without a block or a snapshot (zfs-create(8)). `create_refusal` must be None. NoMemory where there is
    /// none for it, and then the table is as it was. It costs the number of file systems and the length of the name.
    pub fn create(&mut self, name: &DsName) -> Result<(), Refusal>
        requires can { create_refusal self.old.file_systems name.now ≡ None }
        ensures ok { OnOk result (self.new ≡ with_system self.old name.now empty_file_system) }
        ensures err { OnErr result (self.new ≡ self.old) }
        ensures only { IfErr result (λ e. e ≡ Refusal.NoMemory) }
    {
        let file_system = FileSystem::new(self.systems.allocator(), name)?;
        self.systems.add(file_system)
    }

    /// Adds a clone of this snapshot under this name (zfs-clone(8)): its live map is the snapshot's, whose tree it shares, and its origin is the
    /// snapshot. The snapshot must be there, and `create_refusal` must be None. NoMemory where there is none for it, and then the table is as it
    /// was. It costs the number of file systems, the logarithm of the number of snapshots of the snapshot's own file system, and the length of
    /// the name.
    pub fn add_clone(&mut self, name: &DsName, snapshot: &Member) -> Result<(), Refusal>
        requires can { create_refusal self.old.file_systems name.now ≡ None }
        requires there { IsSome (snap_named (world_of self.old) snapshot.now) }
        ensures ok { IfSome (snap_named (world_of self.old) snapshot.now) (λ t. OnOk result (self.new ≡ with_clone_of self.old (id_of t) name.now)) }
        ensures err { OnErr result (self.new ≡ self.old) }
        ensures only { IfErr result (λ e. e ≡ Refusal.NoMemory) }
    {
        let Some(origin) = self.snapshot(snapshot) else {
            unreachable!()
        };
        let file_system = FileSystem::clone_of(self.systems.allocator(), name, origin)?;
        self.systems.add(file_system)
    }

    /// Promotes the clone of this name (zfs-promote(8)). It gets the snapshots of the file system of its origin up to the origin, and that file
    /// system's origin. That file system keeps its newer snapshots, and the clone's former origin becomes its own. No block is visited, and none
    /// is freed. NoMemory where there is none for it, or the snapshots of one have more blocks than a u64 counts, and then the table is as it
    /// was. It costs for each file system the logarithm of the number of its snapshots, the number of the snapshots of both with the segments of
    /// their dead lists, and for each snapshot that changes its file system the logarithm of their number and at most three chunks of an index.
    pub fn promote(
        &mut self,
        alloc: Global,
        name: &DsName,
        segments: &mut SegMeter,
    ) -> Result<(), Refusal>
        requires there { IsSome (promotion_of (world_of self.old) name.now) }
        requires can { IfSome (promotion_of (world_of self.old) name.now) (CanPromote self.old name.now) }
        ensures ok { IfSome (promotion_of (world_of self.old) name.now) (λ p. OnOk result (self.new ≡ with_promoted self.old name.now p)) }
        ensures err { OnErr result (self.new ≡ self.old) }
        ensures only { IfErr result (λ e. e ≡ Refusal.NoMemory) }
        ensures never_lower { segments.old ≤ segments.new }
    {
        self.systems.promote(alloc, name, segments)
    }

    /// Renames the file system `from`, and with it all below it (zfs-rename(8)). `rename_refusal` must be None. No tree, snapshot or block is
    /// visited. NoMemory where there is none for it, and then the table is as it was. It costs the number of file systems, and for each one that
    /// changes its name the length of that and a move of what is listed after it.
    pub fn rename(&mut self, alloc: Global, from: &DsName, to: &DsName) -> Result<(), Refusal>
        requires can { rename_refusal self.old from.now to.now ≡ None }
        ensures ok { OnOk result (self.new ≡ with_names self.old from.now to.now) }
        ensures err { OnErr result (self.new ≡ self.old) }
        ensures only { IfErr result (λ e. e ≡ Refusal.NoMemory) }
    {
        self.systems.rename(alloc, from, to)
    }

    /// Makes the next searches look first at the file system of this name, if there is one, so that the next search for it takes constant time
    /// but for the length of the name. The table is unchanged. It costs the logarithm of the number of file systems.
    pub fn look_at(&mut self, name: &DsName)
        ensures { self.new ≡ self.old }
    {
        self.systems.look_at(name)
    }

    /// The place of the file system that was changed last, or passed to `look_at`, if it is still there. It is a hint; callers check it.
    /// Constant time.
    pub fn near(&self) -> usize {
        self.systems.near()
    }

    /// Applies a batch of changes to the live tree of this file system at once. `synced` is the group that the last sync left open. It leaves in
    /// `draft` the new blocks and their numbers, which aren't taken from the allocator here. Of the blocks that the tree drops, the draft has those
    /// that no snapshot has. NoDataset exactly where there is no file system of this name; else NoSpace exactly where the Free numbers and those of the
    /// dropped young blocks are too few; else NoMemory where there is no memory, or the snapshots would have more blocks than a u64 counts.
    /// After an error the table is as it was. It costs the logarithm of the number of file systems, and the change.
    pub fn apply_live(
        &mut self,
        name: &DsName,
        alloc: Global,
        updates: &[Update],
        synced: Group,
        allocator: &Allocator,
        meter: &mut Meter,
        segments: &mut SegMeter,
        draft: &mut Draft,
    ) -> Result<(), Refusal>
        requires { AllowsWrite self.old updates.now synced.0 allocator.now }
        ensures ok { OnOk result (HasWritten self.old self.new name.now (changes_of updates.now) synced.0 allocator.now draft.new) }
        ensures room { OnOk result (HasRoom (live_of self.old.file_systems name.now) (changes_of updates.now) (young_of self.old name.now synced.0) allocator.now) }
        ensures err { OnErr result (self.new ≡ self.old) }
        ensures no_dataset { (result ≡ Err Refusal.NoDataset) ↔ (get self.old.file_systems name.now ≡ None) }
        ensures no_space { result ≡ Err Refusal.NoSpace → LacksRoom (live_of self.old.file_systems name.now) (changes_of updates.now) (young_of self.old name.now synced.0) allocator.now }
        ensures only { IfErr result (λ e. (e ≡ Refusal.NoDataset) ⊎ IsNoSpaceOrNoMemory e) }
        ensures metered { OnOk result (CountsDropped (live_of self.old.file_systems name.now) (changes_of updates.now) meter.old meter.new) }
        ensures never_lower { meter.old ≤ meter.new }
        ensures segments_never_lower { segments.old ≤ segments.new }
    {
        let group = self.group;
        self.systems.apply_live(
            name, alloc, updates, group, synced, allocator, meter, segments, draft,
        )
    }

    /// Takes a snapshot of the live map of this file system, with this name within it, this guid and this creation group, which must be closed
    /// (zfs-snapshot(8)). NoMemory where there is none for it, and then the table is as it was. It costs the logarithm of the number of file
    /// systems; and where another table shares its snapshots, a 1,024th of their number.
    pub fn take_snapshot(
        &mut self,
        alloc: Global,
        name: &DsName,
        component: &Component,
        guid: Guid,
        group: Group,
    ) -> Result<(), Refusal>
        requires { CanSnap self.old name.now (plain_snap component.now (live_of self.old.file_systems name.now) guid.0 group.0) }
        ensures ok { OnOk result (self.new ≡ with_snap_at self.old name.now component.now guid.0 group.0) }
        ensures err { OnErr result (self.new ≡ self.old) }
        ensures only { IfErr result (λ e. e ≡ Refusal.NoMemory) }
    {
        self.systems
            .take_snapshot(alloc, name, component, guid, group)
    }

    /// Closes the open group and opens the next one. Constant time.
    pub fn close_group(&mut self)
        requires { self.old.group + 1 < 2 ^ 64 }
        ensures { self.new ≡ record self.old { group = self.old.group + 1 } }
    {
        self.group = Group(self.group.0 + 1);
    }

    /// Takes a snapshot of the live map of this file system in the open group, with this name within it and this guid, and closes that group
    /// (zfs-snapshot(8)). NoMemory where there is none for it, and then the table is as it was. It costs the logarithm of the number of file
    /// systems; and where another table shares its snapshots, a 1,024th of their number.
    pub fn keep_live(
        &mut self,
        alloc: Global,
        name: &DsName,
        component: &Component,
        guid: Guid,
    ) -> Result<(), Refusal>
        requires opens { self.old.group + 1 < 2 ^ 64 }
        requires can { CanSnap (record self.old { group = self.old.group + 1 }) name.now (plain_snap component.now (live_of self.old.file_systems name.now) guid.0 self.old.group) }
        ensures ok { OnOk result (self.new ≡ with_snap_at (record self.old { group = self.old.group + 1 }) name.now component.now guid.0 self.old.group) }
        ensures err { OnErr result (self.new ≡ self.old) }
        ensures only { IfErr result (λ e. e ≡ Refusal.NoMemory) }
    {
        let open = self.group;
        self.systems
            .take_snapshot(alloc, name, component, guid, open)?;
        self.group = Group(open.0 + 1);
        Ok(())
    }

    /// Removes the snapshot of this identity from this file system (zfs-destroy(8)). No file system may be a clone of it, as `has_clone` tells.
    /// The next dataset keeps its blocks. The answer lists the blocks that no dataset has any more, each once; they aren't visited. NoDataset
    /// exactly where the file system has no such snapshot; else NoMemory where there is none for it. After an error the table is as it was. It
    /// costs the logarithms of the numbers of file systems and of snapshots, the segments of two dead lists with the entries of at most one of
    /// them, and a 32nd of the number of snapshots of its file system.
    pub fn remove_snapshot(
        &mut self,
        alloc: Global,
        file_system: &DsName,
        id: SnapshotId,
        segments: &mut SegMeter,
    ) -> Result<Deadlist, Refusal>
        requires no_clone { HasNoCloneIn self.old.file_systems (snap_id id) }
        ensures ok { OnOk result (self.new ≡ without_snap self.old (snap_id id)) }
        ensures lost { IfOk result (λ d. Lists (map dead_block d.entries) (lost_between self.old self.new)) }
        ensures no_dataset { (result ≡ Err Refusal.NoDataset) ↔ (snap_in_system self.old file_system.now (snap_id id) ≡ None) }
        ensures err { OnErr result (self.new ≡ self.old) }
        ensures only { IfErr result (λ e. (e ≡ Refusal.NoDataset) ⊎ (e ≡ Refusal.NoMemory)) }
        ensures never_lower { segments.old ≤ segments.new }
    {
        if !self.has_snapshot_in(file_system, id) {
            return Err(Refusal::NoDataset);
        }
        self.systems.splice(alloc, file_system, id.group, segments)
    }

    /// Marks the destroy of the snapshot of this identity of this file system as deferred (zfs-destroy(8), -d). NoDataset exactly where the file
    /// system has no such snapshot; else NoMemory where there is none for it. After an error the table is as it was. It costs the logarithms of
    /// the numbers of file systems and of snapshots, and a walk over the chunks of its file system's snapshots.
    pub fn defer(
        &mut self,
        alloc: Global,
        file_system: &DsName,
        id: SnapshotId,
    ) -> Result<(), Refusal>
        ensures ok { OnOk result (self.new ≡ deferred_snap self.old (snap_id id)) }
        ensures no_dataset { (result ≡ Err Refusal.NoDataset) ↔ (snap_in_system self.old file_system.now (snap_id id) ≡ None) }
        ensures err { OnErr result (self.new ≡ self.old) }
        ensures only { IfErr result (λ e. (e ≡ Refusal.NoDataset) ⊎ (e ≡ Refusal.NoMemory)) }
    {
        if !self.has_snapshot_in(file_system, id) {
            return Err(Refusal::NoDataset);
        }
        self.systems.defer(alloc, file_system, id.group)
    }

    /// Renames the snapshot of this identity of this file system (zfs-rename(8)), none of whose snapshots may have the new name. NoDataset exactly where
    /// the file system has no such snapshot; else NoMemory where there is none for it. After an error the table is as it was. It costs the logarithms
    /// of the numbers of file systems and of snapshots, and a walk over the chunks of its file system's snapshots.
    pub fn rename_snapshot(
        &mut self,
        alloc: Global,
        file_system: &DsName,
        id: SnapshotId,
        to: &Component,
    ) -> Result<(), Refusal>
        requires free { find (λ t. same_name t.name to.now) (snaps_at self.old.file_systems file_system.now) ≡ None }
        ensures ok { OnOk result (self.new ≡ with_snap_named self.old file_system.now id.group.0 to.now) }
        ensures no_dataset { (result ≡ Err Refusal.NoDataset) ↔ (snap_in_system self.old file_system.now (snap_id id) ≡ None) }
        ensures err { OnErr result (self.new ≡ self.old) }
        ensures only { IfErr result (λ e. (e ≡ Refusal.NoDataset) ⊎ (e ≡ Refusal.NoMemory)) }
    {
        if !self.has_snapshot_in(file_system, id) {
            return Err(Refusal::NoDataset);
        }
        self.systems
            .rename_snapshot(alloc, file_system, id.group, to)
    }

    /// Replaces the tags of the snapshot of this identity of this file system (zfs-hold(8), zfs-release(8)). NoDataset exactly where the file
    /// system has no such snapshot; else NoMemory where there is none for it. After an error the table is as it was. It costs the logarithms of
    /// the numbers of file systems and of snapshots, and a walk over the chunks of its file system's snapshots.
    pub fn set_tags(
        &mut self,
        alloc: Global,
        file_system: &DsName,
        id: SnapshotId,
        tags: Arc<Holds>,
    ) -> Result<(), Refusal>
        ensures ok { OnOk result (self.new ≡ tagged_snap self.old (snap_id id) (arc_value tags)) }
        ensures no_dataset { (result ≡ Err Refusal.NoDataset) ↔ (snap_in_system self.old file_system.now (snap_id id) ≡ None) }
        ensures err { OnErr result (self.new ≡ self.old) }
        ensures only { IfErr result (λ e. (e ≡ Refusal.NoDataset) ⊎ (e ≡ Refusal.NoMemory)) }
    {
        if !self.has_snapshot_in(file_system, id) {
            return Err(Refusal::NoDataset);
        }
        self.systems.set_tags(alloc, file_system, id.group, tags)
    }

    /// Replaces the bookmarks of this file system (zfs-bookmark(8)). They must be of closed groups. NoDataset exactly where there is no file
    /// system of this name; else NoMemory where there is none for it. After an error the table is as it was. It costs the logarithm of the
    /// number of file systems.
    pub fn set_bookmarks(
        &mut self,
        alloc: Global,
        name: &DsName,
        bookmarks: Arc<Bookmarks>,
    ) -> Result<(), Refusal>
        requires closed { (at : List ℕ) (b : Bookmark) → get (arc_value bookmarks) at ≡ Some b → b.group < self.old.group }
        ensures ok { OnOk result (self.new ≡ with_bookmarks self.old name.now (arc_value bookmarks)) }
        ensures no_dataset { (result ≡ Err Refusal.NoDataset) ↔ (get self.old.file_systems name.now ≡ None) }
        ensures err { OnErr result (self.new ≡ self.old) }
        ensures only { IfErr result (λ e. (e ≡ Refusal.NoDataset) ⊎ (e ≡ Refusal.NoMemory)) }
    {
        self.systems.set_bookmarks(alloc, name, bookmarks)
    }

    /// Sets this limit of this file system to this amount, or to none (zfsprops(7): quota, refquota, reservation, refreservation). It doesn't
    /// check whether the limits hold then. NoDataset exactly where there is no file system of this name; else NoMemory where there is none for
    /// it. After an error the table is as it was. It costs the logarithm of the number of file systems.
    pub fn set_limit(
        &mut self,
        alloc: Global,
        name: &DsName,
        limit: Limit,
        amount: Option<Blocks>,
    ) -> Result<(), Refusal>
        ensures ok { OnOk result (self.new ≡ with_limit_of self.old name.now limit amount) }
        ensures no_dataset { (result ≡ Err Refusal.NoDataset) ↔ (get self.old.file_systems name.now ≡ None) }
        ensures err { OnErr result (self.new ≡ self.old) }
        ensures only { IfErr result (λ e. (e ≡ Refusal.NoDataset) ⊎ (e ≡ Refusal.NoMemory)) }
    {
        self.systems.set_limit(alloc, name, limit, amount)
    }

    /// Makes the map of its newest snapshot the live map of this file system, which shares the snapshot's tree (zfs-rollback(8)). It answers the
    /// blocks that no dataset has any more: those of the former live tree that were born after the snapshot. They aren't visited. NoDataset
    /// exactly where there is no file system of this name or it has no snapshot; else NoMemory where there is none for it, or the snapshots have
    /// more blocks than a u64 counts. After an error the table is as it was. It costs the logarithm of the number of file systems, the number of
    /// the file system's snapshots, and the segments of their dead lists.
    pub fn rollback(
        &mut self,
        alloc: Global,
        name: &DsName,
        segments: &mut SegMeter,
    ) -> Result<Lost, Refusal>
        ensures ok { OnOk result (self.new ≡ record self.old { file_systems = with_live self.old.file_systems name.now (newest_map (live_of self.old.file_systems name.now) (snaps_at self.old.file_systems name.now)) }) }
        ensures lost { IfOk result (Loses self.old self.new) }
        ensures no_dataset { (result ≡ Err Refusal.NoDataset) ↔ (length (snaps_at self.old.file_systems name.now) ≡ 0) }
        ensures err { OnErr result (self.new ≡ self.old) }
        ensures only { IfErr result (λ e. (e ≡ Refusal.NoDataset) ⊎ (e ≡ Refusal.NoMemory)) }
        ensures never_lower { segments.old ≤ segments.new }
    {
        if self.snapshots_of(name) == 0 {
            return Err(Refusal::NoDataset);
        }
        self.systems.rollback(alloc, name, segments)
    }

    /// The blocks that no dataset has any more once this file system is removed (zfs-destroy(8)): those of its live tree that were born after
    /// its origin, or all where it has none. They aren't visited. The file system must be there, have no snapshot, and be neither the root nor a
    /// parent. NoMemory where there is none to share that tree. It costs the logarithm of the number of file systems.
    pub fn lost_with(&self, name: &DsName) -> Result<Lost, Refusal>
        requires there { CanRemoveFileSystem self.now name.now }
        ensures lost { IfOk result (Loses self.now (without_system self.now name.now)) }
        ensures err { IfErr result (λ e. e ≡ Refusal.NoMemory) }
    {
        self.systems.lost(name)
    }

    /// Removes this file system (zfs-destroy(8)). It must be there, have no snapshot, and be neither the root nor a parent. `lost_with`, called
    /// before, tells which blocks no dataset has any more then. It costs the number of file systems, and where it is a clone, that of clones.
    pub fn remove(&mut self, name: &DsName)
        requires there { CanRemoveFileSystem self.old name.now }
        ensures { self.new ≡ without_system self.old name.now }
    {
        self.systems.take_out(name);
    }

    /// Empties this file system: it has no block, no origin, no limit and no bookmark any more (zfs-destroy(8)). It must be there and have no
    /// snapshot. The answer is the blocks that no dataset has any more: those of its live tree that were born after its origin, or all where it
    /// has none. They aren't visited. NoMemory where there is none for it, and then the table is as it was. It costs the logarithm of the number
    /// of file systems and the length of the name.
    pub fn vacate(&mut self, alloc: Global, name: &DsName) -> Result<Lost, Refusal>
        requires there { IsSome (get self.old.file_systems name.now) }
        requires bare { snaps_at self.old.file_systems name.now ≡ [] }
        ensures ok { OnOk result (self.new ≡ with_system self.old name.now empty_file_system) }
        ensures lost { IfOk result (Loses self.old self.new) }
        ensures err { OnErr result (self.new ≡ self.old) }
        ensures only { IfErr result (λ e. e ≡ Refusal.NoMemory) }
    {
        self.systems.vacate(alloc, name)
    }

    // The number of snapshots of the file system of this name, or 0 where it isn't there.
    fn snapshots_of(&self, name: &DsName) -> usize
        ensures { result ≡ length (snaps_at self.now.file_systems name.now) }
    {
        match self.find(name) {
            Some(file_system) => file_system.snapshots().len(),
            None => 0,
        }
    }

    /// Whether the file system of this name has the snapshot of this identity. It costs the logarithms of the numbers of file systems and of
    /// snapshots.
    pub fn has_snapshot_in(&self, file_system: &DsName, id: SnapshotId) -> bool
        ensures { result ≡ is_some (snap_in_system self.now file_system.now (snap_id id)) }
    {
        match self.systems.find(file_system) {
            Some(file_system) => file_system.snapshot_of(id).is_some(),
            None => false,
        }
    }

    /// Whether this name is that of the parent of a file system (zfs(8)). It costs the number of file systems.
    pub fn has_child(&self, name: &DsName) -> bool
        ensures { result ≡ nat_lt 0 (length (children_of (world_of self.now) name.now)) }
    {
        any_child(self.file_systems(), name)
    }

    /// Whether a file system is a clone of the snapshot of this identity (zfsprops(7): clones). It costs the logarithm of the number of
    /// clones.
    pub fn has_clone(&self, snapshot: SnapshotId) -> bool
        ensures clones { result ≡ nat_lt 0 (length (clones_of (world_of self.now) (snap_id snapshot))) }
        ensures no_clone { result ≡ false → HasNoCloneIn self.now.file_systems (snap_id snapshot) }
    {
        self.clones_of(snapshot).len() > 0
    }

    /// The clones of the snapshot of this identity, in byte order of their names (zfsprops(7): clones). It costs the logarithm of the number
    /// of clones.
    pub fn clones_of(&self, id: SnapshotId) -> &[CloneName]
        ensures { map name_of result.now ≡ clones_of (world_of self.now) (snap_id id) }
    {
        self.systems.clones_of(id)
    }

    /// Whether the parent of a file system of this name is there (zfs(8)). It costs the length of the name, and the logarithm of the number of file
    /// systems.
    pub fn has_parent(&self, name: &[u8]) -> bool
        ensures { result ≡ has_parent self.now.file_systems name.now }
    {
        match parent_of(name) {
            Some(parent) => self.systems.contains(parent),
            None => false,
        }
    }
}

// Whether `parent` is the name of this file system's parent.
fn is_child(file_system: &FileSystem, parent: &DsName) -> bool
    ensures { result ≡ option_map_or (same_name parent.now) (parent_of file_system.now.name) false }
{
    let Some(name) = parent_of(file_system.name().as_bytes()) else {
        return false;
    };
    name == parent.as_bytes()
}

// Whether one of these file systems is a child of `parent`.
fn any_child(file_systems: &[Arc<FileSystem>], parent: &DsName) -> bool
    ensures { result ≡ list_any (λ a. option_map_or (same_name parent.now) (parent_of (arc_value {X = Row} a).name) false) file_systems.now }
{
    file_systems
        .iter()
        .any(|file_system| is_child(file_system, parent))
}

// The name of the root.
#[tactic(auto, unfolding(base::specs::Reading::name_of))]
fn root_of(alloc: Global) -> Result<DsName, Refusal>
    ensures ok { IfOk result (λ name. name ≡ root_name) }
    ensures err { IfErr result (λ e. e ≡ Refusal.NoMemory) }
{
    DsName::read(alloc, b"p")
}

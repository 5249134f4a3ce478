//! One snapshot of a file system.
ghost use Rattle.std.specs.Prelude.{◌≡◌, true, IfOk, IfErr, length, nat_lt};
ghost use Rattle.std.specs.Arc.{arc_value};
ghost use Rattle.std.specs.Option.{option_map};
ghost use Rattle.base.specs.declared.refusal.Refusal.{Refusal};
ghost use Rattle.snapshots.specs.Tags.{texts};
ghost use Rattle.model.specs.World.{id_of};
ghost use Rattle.model.specs.Ids.{snap_id};
ghost use Rattle.snapshots.specs.Snaps.{plain_snap};
ghost use Rattle.snapshots.specs.Heads.{name_head};

use crate::head::head_of;
use crate::holds::Holds;
use base::name::Component;
use base::number::{Group, Guid};
use base::refusal::Refusal;
use model::snapshot_id::SnapshotId;
use std::alloc::Global;
use std::marker::Model;
use std::sync::Arc;
use tree::Tree;

/// A snapshot: its name within its file system, its map, its guid, its creation group, its tags, and whether its destroy is deferred
/// (On-Disk Specification, chapter 4; zfs-hold(8); zfs-destroy(8), -d). Its map never changes. Copies share the map and the tags.
pub struct Snapshot {
    name: Component,
    head: u64,
    tree: Tree,
    guid: Guid,
    group: Group,
    deferred: bool,
    tags: Option<Arc<Holds>>,
}

// Written by hand, so that it is proved once: a derived `Drop` is expanded anew in each crate that drops the type.
impl Drop for Snapshot {
    fn drop(self) {
        let Snapshot {
            name,
            head: _,
            tree,
            guid: _,
            group: _,
            deferred: _,
            tags,
        } = self;
        drop(name);
        drop(tree);
        drop(tags);
    }
}

impl Model for Snapshot {
    ghost use Rattle.model.specs.World.{Snap};
    ghost use Rattle.model.specs.Codes.{snap_code};
    ghost use Rattle.std.specs.Arc.{arc_value};
    ghost use Rattle.std.specs.Option.{option_map};
    ghost use Rattle.std.specs.Prelude.{◌≡◌};
    ghost use Rattle.snapshots.specs.Snaps.{plain_snap, tags_in};
    ghost use Rattle.snapshots.specs.Heads.{name_head};

    ghost Value = { Snap };

    ghost coded = { snap_code };

    ghost view = { λ s. record (plain_snap s.name s.tree s.guid.0 s.group.0) {
      deferred = s.deferred;
      tags = tags_in (option_map arc_value s.tags);
    } };

    ghost invariant = { λ s. s.head ≡ name_head s.name };
}

impl Snapshot {
    /// A snapshot of this name, map, guid and creation group, which has no tag and whose destroy isn't deferred. Constant time.
    pub fn new(name: Component, tree: Tree, guid: Guid, group: Group) -> Snapshot
        ensures { result ≡ plain_snap name tree guid.0 group.0 }
    {
        let head = head_of(name.as_bytes());
        Snapshot {
            name,
            head,
            tree,
            guid,
            group,
            deferred: false,
            tags: None,
        }
    }

    /// An equal snapshot with a copy of the name. It shares the tree and the tags. NoMemory where there is none for that. It costs the length of
    /// the name.
    pub fn copy(&self) -> Result<Snapshot, Refusal>
        ensures ok { IfOk result (λ s. s ≡ self.now) }
        ensures err { IfErr result (λ e. e ≡ Refusal.NoMemory) }
    {
        Ok(Snapshot {
            name: self.name.clone()?,
            head: self.head,
            tree: self.tree.copy()?,
            guid: self.guid,
            group: self.group,
            deferred: self.deferred,
            tags: copy_of_tags(&self.tags)?,
        })
    }

    /// Gives it another name within its file system (zfs-rename(8)). Constant time.
    pub fn set_name(&mut self, name: Component)
        ensures { self.new ≡ record self.old { name = name } }
    {
        self.head = head_of(name.as_bytes());
        self.name = name;
    }

    /// Marks its destroy as deferred (zfs-destroy(8), -d). Constant time.
    pub fn defer(&mut self)
        ensures { self.new ≡ record self.old { deferred = true } }
    {
        self.deferred = true;
    }

    /// Whether its destroy is deferred (zfsprops(7): defer_destroy). Constant time.
    pub fn is_deferred(&self) -> bool
        ensures { result ≡ self.now.deferred }
    {
        self.deferred
    }

    /// Its tags in the order in which they were made (zfs-holds(8)), none where it has none. Constant time.
    pub fn tags(&self) -> &[Vec<u8>]
        ensures { texts result.now ≡ self.now.tags }
    {
        match &self.tags {
            Some(tags) => tags.as_slice(),
            None => &[],
        }
    }

    /// Whether it has a tag, which keeps it from being destroyed (zfs-hold(8)). Constant time.
    pub fn is_held(&self) -> bool
        ensures { result ≡ nat_lt 0 (length self.now.tags) }
    {
        self.tag_count() > 0
    }

    /// How many tags it has, at most 256 (zfsprops(7): userrefs). Constant time.
    pub fn tag_count(&self) -> usize
        ensures { result ≡ length self.now.tags }
    {
        match &self.tags {
            Some(tags) => tags.len(),
            None => 0,
        }
    }

    /// A copy of its tags (zfs-holds(8)). NoMemory where there is none for it. It costs the bytes of the tags.
    pub fn holds(&self, alloc: Global) -> Result<Holds, Refusal>
        ensures ok { IfOk result (λ h. h ≡ self.now.tags) }
        ensures err { IfErr result (λ e. e ≡ Refusal.NoMemory) }
    {
        match &self.tags {
            Some(tags) => tags.copy(),
            None => Ok(Holds::new(alloc)),
        }
    }

    /// Replaces its tags (zfs-hold(8), zfs-release(8)). Constant time.
    pub fn set_tags(&mut self, tags: Arc<Holds>)
        ensures { self.new ≡ record self.old { tags = arc_value tags } }
    {
        self.tags = Some(tags);
    }

    /// Its identity: its creation group and its guid. It stays the same when a promote moves the snapshot to another file system. Constant time.
    pub fn id(&self) -> SnapshotId
        ensures { snap_id result ≡ id_of self.now }
    {
        SnapshotId {
            group: self.group,
            guid: self.guid,
        }
    }

    /// Its name within its file system. Constant time.
    pub fn name(&self) -> &Component
        ensures { result.now ≡ self.now.name }
    {
        &self.name
    }

    /// The first eight bytes of its name as a number. Constant time.
    pub(crate) fn head(&self) -> u64
        ensures { result ≡ name_head self.now.name }
    {
        self.head
    }

    /// The tree of its blocks. Constant time.
    pub fn tree(&self) -> &Tree
        ensures { result.now ≡ self.now.map }
    {
        &self.tree
    }

    /// Its guid (zfsprops(7)). Constant time.
    pub fn guid(&self) -> Guid
        ensures { result.0 ≡ self.now.guid }
    {
        self.guid
    }

    /// Its creation group (zfsprops(7): createtxg). Constant time.
    pub fn group(&self) -> Group
        ensures { result.0 ≡ self.now.group }
    {
        self.group
    }
}

// Another `Arc` of the tags, or None where there are none. NoMemory where there is none for it. Constant time.
fn copy_of_tags(tags: &Option<Arc<Holds>>) -> Result<Option<Arc<Holds>>, Refusal>
    ensures ok { IfOk result (λ t. option_map arc_value t ≡ option_map arc_value tags.now) }
    ensures err { IfErr result (λ e. e ≡ Refusal.NoMemory) }
{
    match tags {
        Some(tags) => Ok(Some(Arc::try_clone(tags)?)),
        None => Ok(None),
    }
}

//! The requests to a pool.
ghost use Rattle.std.specs.Prelude.{◌≡◌, ◌↔◌, IsTrue};

use crate::destroy_target::DestroyTarget;
use crate::limits::Limit;
use crate::receiving::Receiving;
use crate::snap_names::SnapNames;
use base::data::Data;
use base::limit::Blocks;
use base::name::{Component, DsName, MarkName, SnapName, Tag, Target};
use base::text::Bytes;

/// A property of a dataset or bookmark, for `Get` (zfsprops(7)).
#[derive(Clone, Copy, PartialEq, Eq, Debug)]
pub enum Property {
    /// The space that a file system uses with all its descendants, in bytes: the sum of UsedByDataset, UsedBySnapshots, UsedByChildren and
    /// UsedByRefReservation. Of a snapshot, the blocks that no other dataset has, in bytes.
    Used,
    /// The space that a file system and its descendants may still come to use, in bytes. A refquota, and the part of a refreservation that isn't
    /// spent, are not taken into account.
    Available,
    /// The blocks of a file system's live map, or of a snapshot's map, in bytes.
    Referenced,
    /// The blocks of a file system's live map, or of a snapshot's map, that the map of the snapshot before it doesn't have, in bytes.
    Written,
    /// The blocks of a file system's live map that its origin doesn't have, in bytes.
    UsedByDataset,
    /// The blocks of a file system's snapshots that neither its live map nor its origin has, in bytes.
    UsedBySnapshots,
    /// The sum over a file system's children of what each uses, or of its reservation where that is more, in bytes.
    UsedByChildren,
    /// The part of a file system's refreservation that isn't written yet, in bytes.
    UsedByRefReservation,
    /// The most that a file system may use with all its descendants, in bytes; 0 where there is no such limit.
    Quota,
    /// The most that a file system's live map may have, in bytes; 0 where there is no such limit.
    RefQuota,
    /// The space that is reserved for a file system and its descendants, in bytes; 0 where none is.
    Reservation,
    /// The space that is reserved for a file system's live map, in bytes; 0 where none is.
    RefReservation,
    /// A snapshot's guid, a number; also a bookmark's, which is its snapshot's.
    Guid,
    /// A snapshot's creation group, a number; also a bookmark's, which is its snapshot's.
    CreateTxg,
    /// The name of the snapshot that a file system is a clone of, a text; not applicable where it isn't a clone.
    Origin,
    /// The names of a snapshot's clones in byte order, joined by commas, a text; empty where it has none.
    Clones,
    /// How many tags a snapshot has, a number; open views aren't counted.
    UserRefs,
    /// Whether a snapshot's destroy is deferred, a truth value.
    DeferDestroy,
}

/// A property of a pool, for `PoolGet` (zpoolprops(7); `Waiting` and `Group` are profile).
#[derive(Clone, Copy, PartialEq, Eq, Debug)]
pub enum PoolProperty {
    /// All blocks of the pool, in bytes.
    Size,
    /// The blocks that a dataset has or that are still to be freed, in bytes.
    Allocated,
    /// The blocks that may be taken, in bytes.
    Free,
    /// The blocks that are still to be freed, in bytes.
    Freeing,
    /// The blocks that become free at the next sync, in bytes.
    Waiting,
    /// The open group, a number.
    Group,
}

/// A block of an object: block `block`, 0 to 4095, of object `object`, 0 to 255.
#[derive(Clone, Copy, Default, PartialEq, Eq, Debug)]
pub struct ObjectBlock {
    pub object: u32,
    pub block: u32,
}

/// One request to a pool.
#[derive(Drop)]
pub enum Request {
    /// Creates an empty file system. The reply is Done. It is refused with Exists where there is a file system of that name, NoParent where its
    /// parent doesn't exist, TooMany where the pool has 1,024 file systems: the first of these that applies, or NoMemory.
    Create {
        name: DsName,
    },
    /// Writes block `block`, 0 to 4095, of object `object`, 0 to 255. The reply is Done. It is refused with NoDataset where no file system or
    /// snapshot has the name, ReadOnly where it is a snapshot's, BadKey where a number is outside its range, and then Quota, RefQuota or NoSpace
    /// where the limits of the pool would not hold afterwards: the first of these that applies, or NoMemory.
    Write {
        target: Target,
        object: u32,
        block: u32,
        bytes: Data,
    },
    /// Makes block `block` of object `object` a hole. The reply is Done, also where it is a hole already. It is refused as a write is.
    Punch {
        target: Target,
        object: u32,
        block: u32,
    },
    /// Makes every block of object `object` a hole. The reply is Done. It is refused as a write is.
    FreeObject {
        target: Target,
        object: u32,
    },
    /// Takes a snapshot of the live map of each named file system, and with `recursive` (zfs-snapshot(8): -r) also one with the same component
    /// of each of its descendants, in list order and then byte order. All are created in the open group, which the request closes. The reply is
    /// Done. An empty list changes nothing. It is refused with NoDataset where a named file system doesn't exist, BadName where a whole name
    /// would have more than 255 bytes, Exists where a snapshot has one of the names or a file system is named twice, TooMany where the pool
    /// would have more than 65,536 snapshots, the open group is the last one, or the guids would go past the counter's last, 2^32 - 1, and then
    /// Quota, RefQuota or NoSpace as a write is: the first of these that applies, or NoMemory.
    Snapshot {
        names: SnapNames,
        recursive: bool,
    },
    /// The bytes of a block, or None where it is a hole. The reply is Data. It is refused with NoDataset and BadKey as a write is.
    Read {
        target: Target,
        object: u32,
        block: u32,
    },
    /// The value of a property. It is NotApplicable where the name is of a kind that doesn't have the property. The reply is Value. It is
    /// refused with NoDataset where nothing has the name.
    Get {
        target: Target,
        property: Property,
    },
    /// The value of a property of the pool. The reply is Value. It is never refused, and takes no memory.
    PoolGet {
        property: PoolProperty,
    },
    /// The names of all file systems in byte order, each with its snapshots and bookmarks after it. The reply is Names. It is never
    /// refused, except with NoMemory.
    List,
    /// Rolls a file system back: makes the map of a snapshot its live map. With `later` (zfs-rollback(8): -r) the newer snapshots and bookmarks
    /// are destroyed. Blocks that no dataset has any more are to be freed. The reply is Done. It is refused with NotSnapshot where the name is
    /// not a snapshot's, NoDataset where no snapshot has it, NotNewest where a newer snapshot or bookmark would stay, Busy where a snapshot that
    /// would be destroyed has a tag or an open view, HasClones where one has a clone, and then Quota, RefQuota or NoSpace as a write is: the
    /// first of these that applies, or NoMemory.
    Rollback {
        target: Target,
        later: bool,
    },
    /// Destroys a file system, snapshots, or a bookmark. With `recursive` (zfs-destroy(8): -r) a file system is destroyed with its descendants,
    /// snapshots and bookmarks, and each snapshot with those of its name in all descendants of its file system. With `defer` (-d) a snapshot that
    /// a tag, an open view or a clone needs is destroyed once nothing needs it. Names of a list that no snapshot has are passed over. Blocks that
    /// no dataset has any more are to be freed. The reply is Done. It is refused with NoDataset where nothing has the name, or none of the names
    /// of a list, IsRoot for the root, NotSnapshot for a file system with `defer`, HasChildren where a file system has a child or a snapshot and
    /// the request isn't recursive, Busy and HasClones where a tag or view, or a clone that would stay, needs a snapshot that would be destroyed:
    /// the first of these that applies, or NoMemory. Refused, it has destroyed nothing of the list.
    Destroy {
        target: DestroyTarget,
        recursive: bool,
        defer: bool,
    },
    /// Releases `count` of the blocks that are to be freed, or all of them where they are fewer. The reply is Count, how many it has released.
    /// It is refused only with NoMemory.
    Slice {
        count: u64,
    },
    /// Makes the present world the last synced one, and opens the next group. The waiting blocks become free. The reply is Group, the new open
    /// group. It is refused with TooMany where the open group is the last one, 2^63 - 1, or else with NoMemory where memory is refused.
    Sync,
    /// Goes back to the last synced world, its open group included: undoes all changes since the last sync. Only the counters of guids and of
    /// views go on. (zpool-checkpoint(8) rewinds to a checkpoint in this way; here the last sync is the checkpoint.) A snapshot of that world
    /// whose destroy was deferred and that only a view kept is destroyed. The reply is Done. It is refused with Busy where a view is open, or
    /// else with NoMemory where memory is refused.
    Abandon,
    /// Opens a view of a snapshot. The snapshot is in use until the view is closed (a view counts as a hold, zfs-hold(8)). The reply is Opened,
    /// with the view's number and what the view shows. It is refused with NotSnapshot where the name is not a snapshot's, NoDataset where no
    /// snapshot has it, Deferred where the snapshot's destroy is deferred, TooMany where 1,024 views are open or the next view's number is past
    /// 2^63 - 1: the first of these that applies, or NoMemory.
    OpenView {
        target: Target,
    },
    /// Closes the view with that number. A snapshot whose destroy is deferred is destroyed with its last view, where nothing else needs it. The
    /// reply is Done. It is refused with NoView where no view with that number is open, or else with NoMemory where memory is refused.
    CloseView {
        view: u64,
    },
    /// Creates a file system with the map of a snapshot, which becomes its origin (zfs-clone(8)). The reply is Done. It is refused with
    /// NotSnapshot where the target is not a snapshot's name, NoDataset where no snapshot has it, Deferred where the snapshot's destroy is
    /// deferred, and then Exists, NoParent or TooMany as Create is: the first of these that applies, or NoMemory.
    Clone {
        target: Target,
        name: DsName,
    },
    /// Makes a clone the owner of its origin (zfs-promote(8)). The origin, and all older snapshots of the file system that has it, move to the
    /// clone, before its own snapshots. The clone also gets the origin of that file system, which itself becomes a clone of the moved origin.
    /// Maps, limits and bookmarks stay. The reply is Done. It is refused with NoDataset where no file system has the name, NotClone where it has
    /// no origin, BadName where a snapshot's whole name would have more than 255 bytes, NameClash where the clone has a snapshot of the same
    /// name as one that would move, and then Quota, RefQuota or NoSpace as a write is: the first of these that applies, or NoMemory.
    Promote {
        name: DsName,
    },
    /// Renames a file system, and with it all below it (zfs-rename(8)). Snapshots and bookmarks go with their file systems; contents, limits and
    /// origins stay. The reply is Done. It is refused with NoDataset where no file system has the name, IsRoot for the root, Exists where there is a
    /// file system of the new name, NoParent where the parent of the new name doesn't exist, BadName where the new name is of a descendant or a
    /// whole name would have more than 255 bytes, and then Quota, RefQuota or NoSpace as a write is: the first of these that applies, or NoMemory.
    Rename {
        name: DsName,
        to: DsName,
    },
    /// Renames a snapshot within its file system, and with `recursive` the snapshots of this name of all file systems below it too (zfs-rename(8),
    /// -r): one that has none of this name stays as it is. Map, tags, group and guid stay. The reply is Done. It is refused with NoDataset where no
    /// snapshot has the name, BadName where a whole name would have more than 255 bytes, Exists where a file system whose snapshot would be renamed
    /// has one of the new name, Busy where an open view shows one that would be renamed: the first of these that applies, or NoMemory.
    RenameSnapshot {
        snapshot: SnapName,
        to: Component,
        recursive: bool,
    },
    /// Adds a tag to a snapshot, which keeps it from being destroyed until the tag is released (zfs-hold(8)). The reply is Done. It is refused
    /// with NotSnapshot where the target is not a snapshot's name, NoDataset where no snapshot has it, Deferred where the snapshot's destroy is
    /// deferred, TagExists where it has the tag already, TooMany where it has 256 tags: the first of these that applies, or NoMemory.
    Hold {
        tag: Tag,
        target: Target,
    },
    /// Removes a tag from a snapshot (zfs-release(8)). A snapshot whose destroy is deferred is destroyed with its last tag, where neither a view
    /// nor a clone needs it. The reply is Done. It is refused with NotSnapshot where the target is not a snapshot's name, NoDataset where no
    /// snapshot has it, NoTag where it doesn't have the tag: the first of these that applies, or NoMemory.
    Release {
        tag: Tag,
        target: Target,
    },
    /// The tags of a snapshot in the order in which they were made (zfs-holds(8)). The reply is Names. It is refused with NotSnapshot where the
    /// target is not a snapshot's name, NoDataset where no snapshot has it: the first of these that applies, or NoMemory.
    Holds {
        target: Target,
    },
    /// Creates a bookmark of a snapshot. It keeps the snapshot's guid and creation group when the snapshot is destroyed (zfs-bookmark(8)). The
    /// reply is Done. It is refused with NotSnapshot where the target is not a snapshot's name, NoDataset where no snapshot has it, NotAncestor
    /// where the bookmark's name is of another file system than the snapshot's, Exists where there is a bookmark of that name, TooMany where the
    /// file system has 1,024 bookmarks: the first of these that applies, or NoMemory.
    Bookmark {
        target: Target,
        mark: MarkName,
    },
    /// The blocks of a dataset that an older snapshot of its lineage doesn't have, in bytes (zfsprops(7): written@snapshot). The reply is Value.
    /// It is refused with NoDataset where no dataset has the first name or no snapshot has the second, NotAncestor where the snapshot isn't
    /// before the dataset in its lineage.
    WrittenSince {
        target: Target,
        since: SnapName,
    },
    /// The blocks that would be freed by a destroy of a file system's snapshots from `first` to `last`, in bytes (zfs-destroy(8), -nv). The
    /// reply is Value. It is refused with NoDataset where one of the two doesn't exist, NotAncestor where the first is newer than the last,
    /// HasClones where a file system is a clone of one of these snapshots.
    WouldFree {
        name: DsName,
        first: Component,
        last: Component,
    },
    /// Sets a limit of a file system to an amount, or removes it (zfs-set(8)). The reply is Done. It is refused with NoDataset where no file
    /// system has the name, and then, where an amount is given, Quota, RefQuota or NoSpace where the limits of the pool would not hold
    /// afterwards: the first of these that applies, or NoMemory. The removal of a limit is never refused for the limits of the pool.
    Set {
        name: DsName,
        limit: Limit,
        amount: Option<Blocks>,
    },
    /// The stream of a snapshot: a full one, or, where a source is named, an incremental one with what is younger than the source (zfs-send(8),
    /// -i). A file system whose newest snapshot is the source gets this snapshot when it receives that stream. A source is an older snapshot of
    /// the snapshot's lineage, or a bookmark of its file system of a lower group. The reply is Stream. It is refused with NotSnapshot where the
    /// target is not a snapshot's name, NoDataset where no snapshot has it, NotAncestor where `from` is not such a source: the first of these
    /// that applies, or NoMemory.
    Send {
        target: Target,
        from: Option<Target>,
    },
    /// Receives a stream as a snapshot of this name, with the sender's guid (zfs-receive(8)). A full stream goes into a new file system. An
    /// incremental one goes into the file system whose newest snapshot is its source. `mode` says what else a receive may begin with. The reply is
    /// Done. It is refused with BadStream where the bytes are not a stream, where a full stream comes at `Origin`, and where an incremental one
    /// comes at `Replace`. Then follow:
    ///
    /// - for a full stream, Exists where the file system exists, NoParent where its parent doesn't;
    /// - for a full stream at `Replace`, NoDataset where the file system doesn't exist, Exists where it is a clone;
    /// - for an incremental stream, NoDataset where the file system doesn't exist, Exists where the snapshot does, WrongSource where the newest
    ///   snapshot isn't the source, Modified where the live map isn't that snapshot's and the mode isn't `Back`;
    /// - for an incremental stream at `Past`, NoDataset where the file system doesn't exist, WrongSource where none of its snapshots is the
    ///   source, Exists where the snapshot does and would stay;
    /// - for an incremental stream at `Origin`, NoDataset where the origin doesn't exist, Deferred where its destroy is deferred, WrongSource where
    ///   it isn't the source, and then what a full stream is refused with.
    ///
    /// Where snapshots would go, Busy follows where one of them has a tag or an open view, and HasClones where one has a clone. Then follow TooMany
    /// where there are 1,024 file systems and one is new, where there would be more than 65,536 snapshots, or the open group is the last one, and
    /// then Quota, RefQuota or NoSpace as a write is. The refusal is the first of these that applies, or NoMemory.
    Receive {
        snapshot: SnapName,
        bytes: Bytes,
        mode: Receiving,
    },
}

impl Request {
    /// Whether the other is the same request.
    pub fn same(&self, other: &Request) -> bool
        ensures { IsTrue result ↔ (self.now ≡ other.now) }
    {
        match (self, other) {
            (Request::Create { name: a }, Request::Create { name: b }) => a.same(b),
            (
                Request::Write {
                    target: t,
                    object: o,
                    block: k,
                    bytes: d,
                },
                Request::Write {
                    target: u,
                    object: p,
                    block: l,
                    bytes: e,
                },
            ) => t.same(u) && *o == *p && *k == *l && d.same(e),
            (
                Request::Punch {
                    target: t,
                    object: o,
                    block: k,
                },
                Request::Punch {
                    target: u,
                    object: p,
                    block: l,
                },
            ) => t.same(u) && *o == *p && *k == *l,
            (
                Request::FreeObject {
                    target: t,
                    object: o,
                },
                Request::FreeObject {
                    target: u,
                    object: p,
                },
            ) => t.same(u) && *o == *p,
            (
                Request::Snapshot {
                    names: n,
                    recursive: r,
                },
                Request::Snapshot {
                    names: m,
                    recursive: s,
                },
            ) => n.same(m) && *r == *s,
            (
                Request::Read {
                    target: t,
                    object: o,
                    block: k,
                },
                Request::Read {
                    target: u,
                    object: p,
                    block: l,
                },
            ) => t.same(u) && *o == *p && *k == *l,
            (
                Request::Get {
                    target: t,
                    property: p,
                },
                Request::Get {
                    target: u,
                    property: q,
                },
            ) => t.same(u) && *p == *q,
            (Request::PoolGet { property: p }, Request::PoolGet { property: q }) => *p == *q,
            (
                Request::Rollback {
                    target: t,
                    later: l,
                },
                Request::Rollback {
                    target: u,
                    later: m,
                },
            ) => t.same(u) && *l == *m,
            (
                Request::Destroy {
                    target: t,
                    recursive: r,
                    defer: d,
                },
                Request::Destroy {
                    target: u,
                    recursive: s,
                    defer: e,
                },
            ) => t.same(u) && *r == *s && *d == *e,
            (Request::Slice { count: n }, Request::Slice { count: m }) => *n == *m,
            (Request::List, Request::List) => true,
            (Request::Sync, Request::Sync) => true,
            (Request::Abandon, Request::Abandon) => true,
            (Request::OpenView { target: t }, Request::OpenView { target: u }) => t.same(u),
            (Request::Clone { target: t, name: a }, Request::Clone { target: u, name: b }) => {
                t.same(u) && a.same(b)
            }
            (Request::Promote { name: a }, Request::Promote { name: b }) => a.same(b),
            (Request::Rename { name: a, to: b }, Request::Rename { name: c, to: d }) => {
                a.same(c) && b.same(d)
            }
            (
                Request::RenameSnapshot {
                    snapshot: a,
                    to: b,
                    recursive: r,
                },
                Request::RenameSnapshot {
                    snapshot: c,
                    to: d,
                    recursive: s,
                },
            ) => a.same(c) && b.same(d) && *r == *s,
            (Request::CloseView { view: v }, Request::CloseView { view: w }) => *v == *w,
            (Request::Hold { tag: a, target: t }, Request::Hold { tag: b, target: u }) => {
                a.same(b) && t.same(u)
            }
            (Request::Release { tag: a, target: t }, Request::Release { tag: b, target: u }) => {
                a.same(b) && t.same(u)
            }
            (Request::Holds { target: t }, Request::Holds { target: u }) => t.same(u),
            (Request::Bookmark { target: t, mark: a }, Request::Bookmark { target: u, mark: b }) =>
                t.same(u) && a.same(b),
            (
                Request::WrittenSince {
                    target: t,
                    since: a,
                },
                Request::WrittenSince {
                    target: u,
                    since: b,
                },
            ) => t.same(u) && a.same(b),
            (
                Request::WouldFree {
                    name: n,
                    first: a,
                    last: b,
                },
                Request::WouldFree {
                    name: m,
                    first: c,
                    last: d,
                },
            ) => n.same(m) && a.same(c) && b.same(d),
            (
                Request::Set {
                    name: n,
                    limit: l,
                    amount: a,
                },
                Request::Set {
                    name: m,
                    limit: k,
                    amount: b,
                },
            ) => n.same(m) && *l == *k && *a == *b,
            (Request::Send { target: t, from: a }, Request::Send { target: u, from: b }) => t.same(
                u,
            ) && is_same_source(a, b),
            (
                Request::Receive {
                    snapshot: n,
                    bytes: a,
                    mode: f,
                },
                Request::Receive {
                    snapshot: m,
                    bytes: b,
                    mode: g,
                },
            ) => n.same(m) && a.same(b) && f.same(g),
            _ => false,
        }
    }
}

// Whether both name the same source, or both none.
fn is_same_source(one: &Option<Target>, other: &Option<Target>) -> bool
    ensures { IsTrue result ↔ (one.now ≡ other.now) }
{
    match (one, other) {
        (Some(a), Some(b)) => a.same(b),
        (None, None) => true,
        _ => false,
    }
}

//! The bookmarks of a file system by name.
ghost use Rattle.std.specs.Prelude.{◌≡◌, ◌↔◌, ◌⊎◌, ◌≤◌, true, false, Err, IfOk, IfErr, OnOk, OnErr, map};
ghost use Rattle.std.specs.Option.{option_map};
ghost use Rattle.std.specs.FinMap as finmap;
ghost use Rattle.std.specs.FinMap.{get, contains_key, entries, len};
ghost use Rattle.base.specs.declared.refusal.Refusal.{Refusal};
ghost use Rattle.model.specs.Properties.{bookmarks_in_order};
ghost use Rattle.snapshots.specs.Marks.{bookmark_of, entry_in, name_in, mark_limit, is_full, has_newer, without_newer, marks_in_order, alone};

use crate::bookmarks::mark::Mark;
use crate::bookmarks::order::{ordered, shared};
use crate::bookmarks::place::{any_newer, place, put};
use base::name::Component;
use base::number::Group;
use base::refusal::Refusal;
use model::snapshot_id::SnapshotId;
use std::alloc::Global;
use std::marker::Model;
use std::sync::Arc;

/// A file system has at most this many bookmarks (profile).
pub const BOOKMARK_LIMIT: usize = 1024;

/// The bookmarks of a file system, at most `BOOKMARK_LIMIT` of them (zfs-bookmark(8); the limit is profile). Contracts see the map from their
/// names to their guids and groups. They are kept in byte order of their names. Copies share the bookmarks, and keep the allocator.
pub struct Bookmarks {
    rows: Vec<Arc<Mark>>,
}

// Written by hand, so that it is proved once: a derived `Drop` is expanded anew in each crate that drops the type.
impl Drop for Bookmarks {
    fn drop(self) {
        let Bookmarks { rows } = self;
        drop(rows);
    }
}

impl Model for Bookmarks {
    ghost use Rattle.std.specs.Prelude.{map};
    ghost use Rattle.std.specs.FinMap.{from_sorted};
    ghost use Rattle.snapshots.specs.Marks.{Marks, marks_code, entry_in};
    ghost use Rattle.snapshots.specs.SoundMarks.{AreSound};

    ghost Value = { Marks };

    ghost coded = { marks_code };

    ghost view = { λ b. from_sorted (map entry_in b.rows.items) };

    ghost invariant = { λ b. AreSound (map entry_in b.rows.items) };
}

impl Bookmarks {
    /// No bookmark. It takes no memory. Constant time.
    pub fn new(alloc: Global) -> Bookmarks
        ensures { result ≡ finmap.empty }
    {
        Bookmarks {
            rows: Vec::new(alloc),
        }
    }

    /// A copy, which shares each bookmark. NoMemory where there is none for that. It costs their number.
    pub fn copy(&self) -> Result<Bookmarks, Refusal>
        ensures ok { IfOk result (λ b. b ≡ self.now) }
        ensures err { IfErr result (λ e. e ≡ Refusal.NoMemory) }
    {
        let rows = shared(*self.rows.allocator(), &self.rows)?;
        Ok(Bookmarks { rows })
    }

    /// How many bookmarks there are, at most `BOOKMARK_LIMIT`. Constant time.
    pub fn len(&self) -> usize
        ensures len { result ≡ len self.now }
        ensures few { len self.now ≤ mark_limit }
    {
        self.rows.len()
    }

    /// Whether there are `BOOKMARK_LIMIT` bookmarks, so that none can be added (profile). Constant time.
    pub fn is_full(&self) -> bool
        ensures { result ≡ is_full self.now }
    {
        self.len() >= BOOKMARK_LIMIT
    }

    /// The guid and the group of the bookmark of this name, or none where there is none. It costs the logarithm of their number.
    pub fn get(&self, name: &[u8]) -> Option<SnapshotId>
        ensures { option_map bookmark_of result ≡ get self.now name.now }
    {
        match place(&self.rows, name) {
            Ok(place) => Some(self.rows[place].snapshot),
            Err(_) => None,
        }
    }

    /// Whether there is a bookmark of this name. It costs the logarithm of their number.
    pub fn contains(&self, name: &[u8]) -> bool
        ensures { result ≡ contains_key self.now name.now }
    {
        place(&self.rows, name).is_ok()
    }

    /// All bookmarks, in byte order of their names. Constant time.
    pub fn as_slice(&self) -> &[Arc<Mark>]
        ensures { map entry_in result.now ≡ entries self.now }
    {
        self.rows.as_slice()
    }

    /// All bookmarks in the order in which they are listed: by group, and then by name (zfs-list(8); the order is profile). The answer shares
    /// each bookmark. NoMemory where there is none for that. It costs for each bookmark the logarithm of their number in comparisons, and at
    /// most a move of the pointers after it.
    pub fn in_order(&self) -> Result<Vec<Arc<Mark>>, Refusal>
        ensures ok { IfOk result (λ v. map entry_in v.items ≡ marks_in_order self.now) }
        ensures names { IfOk result (λ v. map name_in v.items ≡ bookmarks_in_order (alone self.now)) }
        ensures err { IfErr result (λ e. e ≡ Refusal.NoMemory) }
    {
        ordered(*self.rows.allocator(), &self.rows)
    }

    /// Adds a bookmark of this snapshot under this name (zfs-bookmark(8)). Exists where there is one of that name; else TooMany where there are
    /// `BOOKMARK_LIMIT` of them (profile); else NoMemory where there is none for it. After an error they are as they were. It costs the length
    /// of the name and the number of bookmarks.
    pub fn insert(&mut self, name: &Component, snapshot: SnapshotId) -> Result<(), Refusal>
        ensures ok { OnOk result (self.new ≡ finmap.insert self.old name.now (bookmark_of snapshot)) }
        ensures err { OnErr result (self.new ≡ self.old) }
        ensures there { (result ≡ Err Refusal.Exists) ↔ (contains_key self.old name.now ≡ true) }
        ensures full { (result ≡ Err Refusal.TooMany) ↔ ((contains_key self.old name.now ≡ false) × (is_full self.old ≡ true)) }
        ensures only { IfErr result (λ e. (e ≡ Refusal.Exists) ⊎ (e ≡ Refusal.TooMany) ⊎ (e ≡ Refusal.NoMemory)) }
    {
        if self.contains(name.as_bytes()) {
            return Err(Refusal::Exists);
        }
        if self.is_full() {
            return Err(Refusal::TooMany);
        }
        let alloc = *self.rows.allocator();
        put(alloc, &mut self.rows, name, snapshot)?;
        Ok(())
    }

    /// Removes the bookmark of this name (zfs-destroy(8)). NoDataset where there is none; then they are as they were. It takes no memory. It
    /// costs the number of bookmarks.
    pub fn remove(&mut self, name: &[u8]) -> Result<(), Refusal>
        ensures ok { OnOk result (self.new ≡ finmap.remove self.old name.now) }
        ensures err { OnErr result (self.new ≡ self.old) }
        ensures absent { (result ≡ Err Refusal.NoDataset) ↔ (contains_key self.old name.now ≡ false) }
        ensures only { IfErr result (λ e. e ≡ Refusal.NoDataset) }
    {
        let Ok(place) = place(&self.rows, name) else {
            return Err(Refusal::NoDataset);
        };
        let _gone = self.rows.remove(place);
        Ok(())
    }

    /// Whether there is a bookmark of a snapshot of a later group than this one. Such a bookmark prevents a rollback to this group without -r
    /// (zfs-rollback(8)). It costs the number of bookmarks.
    pub fn any_after(&self, group: Group) -> bool
        ensures { result ≡ has_newer self.now group.0 }
    {
        any_newer(&self.rows, group)
    }

    /// Removes the bookmarks of snapshots of later groups than this one, as a rollback to this group does (zfs-rollback(8), -r). It takes no
    /// memory. It costs the number of bookmarks.
    pub fn remove_after(&mut self, group: Group)
        ensures { self.new ≡ without_newer self.old group.0 }
    {
        self.rows.retain(|mark| mark.snapshot.group.0 <= group.0);
    }
}

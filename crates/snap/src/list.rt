//! The open views of a pool, by their numbers.
ghost use Rattle.std.specs.Prelude.{◌≡◌, ◌+◌, ◌<◌, ◌≤◌, ℕ, false, Some, IfOk, IfErr, map};
ghost use Rattle.std.specs.List.{list_any};
ghost use Rattle.std.specs.Option.{option_map};
ghost use Rattle.std.specs.FinMap as finmap;
ghost use Rattle.std.specs.FinMap.{get, insert, remove, len};
ghost use Rattle.base.specs.declared.refusal.Refusal.{Refusal};
ghost use Rattle.model.specs.World.{SnapId, same_id};
ghost use Rattle.model.specs.State.{is_viewed};
ghost use Rattle.model.specs.Ids.{snap_id};
ghost use Rattle.model.specs.Targets.{number_limit};
ghost use Rattle.snap.specs.Viewing.{is_full};

use crate::row::{Open, any_other_shows, any_shows, identities, shown};
use base::refusal::Refusal;
use model::snapshot_id::SnapshotId;
use std::alloc::Global;
use std::marker::Model;

/// At most this many views are open at a time (profile).
pub const VIEW_LIMIT: usize = 1024;

// The last number of a view (profile).
const LAST_NUMBER: u64 = 9223372036854775807;

/// The open views of a pool, each with the identity of the snapshot that it shows (profile). A view counts as a hold of its snapshot
/// (zfs-hold(8)). Contracts see the map from the numbers of the views to these identities, and the number of the next view.
///
/// Views are numbered in the order in which they are opened, from 1 to 2^63 - 1, and no number is used twice. The room for `VIEW_LIMIT` views is
/// taken once, so that opening and closing a view takes no memory.
pub struct Views {
    open: Vec<Open>,
    next: u64,
}

// Written by hand, so that it is proved once: a derived `Drop` is expanded anew in each crate that drops the type.
impl Drop for Views {
    fn drop(self) {
        let Views { open, next: _ } = self;
        drop(open);
    }
}

impl Model for Views {
    ghost use Rattle.std.specs.Prelude.{map};
    ghost use Rattle.std.specs.FinMap.{from_sorted};
    ghost use Rattle.snap.specs.Viewing.{Viewing, viewing_code};

    ghost Value = { Viewing };

    ghost coded = { viewing_code };

    ghost use Rattle.snap.specs.Entries.{entry_of};
    ghost use Rattle.snap.specs.Sound.{IsSound};

    ghost view = { λ v. record { opened = from_sorted (map entry_of v.open.items); next = v.next } };

    ghost invariant = { IsSound };
}

impl Views {
    /// No open view. The first one will have number 1. NoMemory where there is none for `VIEW_LIMIT` views. Constant time.
    pub fn new(alloc: Global) -> Result<Views, Refusal>
        ensures ok { IfOk result (λ v. v ≡ record { opened = finmap.empty; next = 1 }) }
        ensures err { IfErr result (λ e. e ≡ Refusal.NoMemory) }
    {
        let open = Vec::with_capacity(alloc, VIEW_LIMIT)?;
        Ok(Views { open, next: 1 })
    }

    /// How many views are open, at most `VIEW_LIMIT`. Constant time.
    pub fn len(&self) -> usize
        ensures len { result ≡ len self.now.opened }
        ensures few { len self.now.opened ≤ 1024 }
        ensures below { (n : ℕ) (id : SnapId) → get self.now.opened n ≡ Some id → n < self.now.next }
        ensures next { self.now.next ≤ number_limit + 1 }
    {
        self.open.len()
    }

    /// The number of the next view. Numbers begin at 1, and the last one is 2^63 - 1 (profile). Constant time.
    pub fn next(&self) -> u64
        ensures { result ≡ self.now.next }
    {
        self.next
    }

    /// Whether no view can be opened: `VIEW_LIMIT` of them are open, or the last number has been used. Constant time.
    pub fn is_full(&self) -> bool
        ensures { result ≡ is_full self.now }
    {
        self.len() >= VIEW_LIMIT || self.next > LAST_NUMBER
    }

    /// What the view of this number shows, or none where it isn't open. It costs the logarithm of the number of open views.
    pub fn find(&self, number: u64) -> Option<SnapshotId>
        ensures { option_map snap_id result ≡ get self.now.opened number }
    {
        shown(&self.open, number)
    }

    /// Whether an open view shows this snapshot, which then counts as held (zfs-hold(8)). It costs the number of open views.
    pub fn is_viewed(&self, id: SnapshotId) -> bool
        ensures { result ≡ is_viewed self.now.opened (snap_id id) }
    {
        any_shows(&self.open, id)
    }

    /// The identities of the snapshots that the open views show, one for each view. NoMemory where there is none for the list. It costs their
    /// number.
    pub fn viewed(&self, alloc: Global) -> Result<Vec<SnapshotId>, Refusal>
        ensures ok { IfOk result (λ ids. (id : SnapId) → list_any (same_id id) (map snap_id ids.items) ≡ is_viewed self.now.opened id) }
        ensures err { IfErr result (λ e. e ≡ Refusal.NoMemory) }
    {
        identities(alloc, &self.open)
    }

    /// Whether an open view other than that of this number shows this snapshot. It costs the number of open views.
    pub fn is_viewed_beside(&self, number: u64, id: SnapshotId) -> bool
        ensures { result ≡ is_viewed (remove self.now.opened number) (snap_id id) }
    {
        any_other_shows(&self.open, number, id)
    }

    /// Opens a view of this snapshot under the next number. `is_full` must be false. It takes no memory. Constant time.
    pub fn open(&mut self, id: SnapshotId)
        requires { is_full self.old ≡ false }
        ensures { self.new ≡ record { opened = insert self.old.opened self.old.next (snap_id id); next = self.old.next + 1 } }
    {
        self.open.push_reserved(Open {
            number: self.next,
            snapshot: id,
        });
        self.next += 1;
    }

    /// Closes the view of this number, and does nothing where it isn't open. It takes no memory. It costs the number of open views.
    pub fn close(&mut self, number: u64)
        ensures { self.new ≡ record self.old { opened = remove self.old.opened number } }
    {
        self.open.retain(|view| view.number != number);
    }
}

//! One bookmark of a file system.
ghost use Rattle.std.specs.Prelude.{◌≡◌, IfOk, IfErr};
ghost use Rattle.base.specs.declared.refusal.Refusal.{Refusal};
ghost use Rattle.base.specs.Names.{name_cmp};
ghost use Rattle.model.specs.Properties.{bookmark_cmp};
ghost use Rattle.snapshots.specs.Marks.{bookmark_of, entry_of, order_key};

use base::name::Component;
use base::refusal::Refusal;
use base::text::compare_bytes;
use model::snapshot_id::SnapshotId;
use std::cmp::Ordering;

/// A bookmark: its name within its file system, and the guid and the creation group of its snapshot, which it keeps after the snapshot is
/// destroyed (zfs-bookmark(8)).
#[derive(Drop)]
pub struct Mark {
    pub name: Component,
    pub snapshot: SnapshotId,
}

impl Mark {
    /// A bookmark of this snapshot, with a copy of this name. NoMemory where there is none for that. It costs the length of the name.
    pub(crate) fn new(name: &Component, snapshot: SnapshotId) -> Result<Mark, Refusal>
        ensures ok { IfOk result (λ m. entry_of m ≡ (name.now, bookmark_of snapshot)) }
        ensures err { IfErr result (λ e. e ≡ Refusal.NoMemory) }
    {
        let name = name.clone()?;
        Ok(Mark { name, snapshot })
    }

    /// How its name compares with another, byte by byte. It costs the shorter of them.
    pub(crate) fn compare(&self, name: &[u8]) -> Ordering
        ensures { result ≡ name_cmp self.now.name name.now }
    {
        compare_bytes(self.name.as_bytes(), name)
    }

    /// How it compares with another bookmark by their groups, and then by their names (profile). It costs the shorter name.
    pub(crate) fn compare_in_order(&self, other: &Mark) -> Ordering
        ensures { result ≡ bookmark_cmp (order_key (entry_of self.now)) (order_key (entry_of other.now)) }
    {
        match self.snapshot.group.cmp(&other.snapshot.group) {
            Ordering::Equal => self.compare(other.name.as_bytes()),
            unequal => unequal,
        }
    }
}

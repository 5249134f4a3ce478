//! What a destroy destroys.
ghost use Rattle.std.specs.Prelude.{◌≡◌, ◌↔◌, IsTrue, IfOk, IfErr};
ghost use Rattle.base.specs.declared.refusal.Refusal.{Refusal};
ghost use Rattle.model.specs.requests.Destroy.{destroy_target_of};

use crate::snap_names::SnapNames;
use base::name::{DsName, MarkName, Target};
use base::refusal::Refusal;
use std::alloc::Global;

/// What a destroy destroys (zfs-destroy(8)).
#[derive(Drop, Debug)]
pub enum DestroyTarget {
    FileSystem(DsName),
    /// The snapshots of these names, all or none of them. A name that stands twice counts once.
    Snapshots(SnapNames),
    Bookmark(MarkName),
}

impl DestroyTarget {
    /// The file system, the one snapshot or the bookmark of this name. NoMemory where there is no memory for a list of one name.
    pub fn of(alloc: Global, target: Target) -> Result<DestroyTarget, Refusal>
        ensures ok { IfOk result (λ named. named ≡ destroy_target_of target) }
        ensures err { IfErr result (λ e. e ≡ Refusal.NoMemory) }
    {
        Ok(match target {
            Target::FileSystem(name) => DestroyTarget::FileSystem(name),
            Target::Snapshot(name) => {
                let mut names = Vec::with_capacity(alloc, 1)?;
                names.push_reserved(name);
                DestroyTarget::Snapshots(SnapNames::from(names))
            }
            Target::Bookmark(name) => DestroyTarget::Bookmark(name),
        })
    }

    /// Whether the other is the same.
    pub fn same(&self, other: &DestroyTarget) -> bool
        ensures { IsTrue result ↔ (self.now ≡ other.now) }
    {
        match (self, other) {
            (DestroyTarget::FileSystem(a), DestroyTarget::FileSystem(b)) => a.same(b),
            (DestroyTarget::Snapshots(a), DestroyTarget::Snapshots(b)) => a.same(b),
            (DestroyTarget::Bookmark(a), DestroyTarget::Bookmark(b)) => a.same(b),
            _ => false,
        }
    }
}

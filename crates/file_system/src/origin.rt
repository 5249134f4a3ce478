//! The origin of a clone.
ghost use Rattle.std.specs.Prelude.{◌≡◌, IfOk, IfErr};
ghost use Rattle.std.specs.Arc.{arc_value};
ghost use Rattle.std.specs.Option.{option_map, option_copied};
ghost use Rattle.std.specs.FinSet.{len};
ghost use Rattle.base.specs.declared.refusal.Refusal.{Refusal};
ghost use Rattle.model.specs.Ids.{snap_id};
ghost use Rattle.model.specs.World.{id_of};
ghost use Rattle.file_system.specs.Origins.{blocks_below, group_below};

use base::number::Group;
use base::refusal::Refusal;
use model::snapshot_id::SnapshotId;
use snapshots::Snapshot;
use std::alloc::Global;
use std::sync::Arc;
use tree::Tree;

/// The origin of a clone: the identity of a snapshot, and its tree, which the origin shares with it (On-Disk Specification, chapter 4:
/// dd_clone_parent_obj; zfs-clone(8)). The identity stays the same when a promote moves the snapshot to another file system.
#[derive(Drop)]
pub struct Origin {
    snapshot: SnapshotId,
    tree: Tree,
}

impl Origin {
    /// The snapshot of this identity and with this tree as an origin. Constant time.
    pub fn new(snapshot: SnapshotId, tree: Tree) -> Origin
        ensures snapshot { result.snapshot ≡ snapshot }
        ensures tree { result.tree ≡ tree }
    {
        Origin { snapshot, tree }
    }

    /// The snapshot's identity. Constant time.
    pub fn id(&self) -> SnapshotId
        ensures { result ≡ self.now.snapshot }
    {
        self.snapshot
    }

    /// The snapshot's tree. Constant time.
    pub fn tree(&self) -> &Tree
        ensures { result.now ≡ self.now.tree }
    {
        &self.tree
    }
}

/// This snapshot as an origin, which shares its tree. NoMemory where there is none for it. Constant time.
pub fn origin_of(alloc: Global, snapshot: &Snapshot) -> Result<Arc<Origin>, Refusal>
    ensures snapshot { IfOk result (λ o. snap_id (arc_value o).snapshot ≡ id_of snapshot.now) }
    ensures tree { IfOk result (λ o. (arc_value o).tree ≡ snapshot.now.map) }
    ensures err { IfErr result (λ e. e ≡ Refusal.NoMemory) }
{
    let origin = Origin::new(snapshot.id(), snapshot.tree().copy()?);
    Ok(Arc::new(alloc, origin)?)
}

/// A reference to the origin, or None where there is none. Constant time.
pub fn origin_in(origin: &Option<Arc<Origin>>) -> Option<&Origin>
    ensures { option_copied result ≡ option_map arc_value origin.now }
{
    match origin {
        Some(origin) => Some(&**origin),
        None => None,
    }
}

/// Another `Arc` of the origin, or None where there is none. NoMemory where there is none for it. Constant time.
pub fn copy_of_origin(origin: &Option<Arc<Origin>>) -> Result<Option<Arc<Origin>>, Refusal>
    ensures ok { IfOk result (λ o. option_map arc_value o ≡ option_map arc_value origin.now) }
    ensures err { IfErr result (λ e. e ≡ Refusal.NoMemory) }
{
    match origin {
        Some(origin) => Ok(Some(Arc::try_clone(origin)?)),
        None => Ok(None),
    }
}

/// The creation group of the origin, or 0 where there is none. Constant time.
pub fn base_group(origin: Option<&Origin>) -> Group
    ensures { result.0 ≡ group_below (option_copied origin.entry) }
{
    match origin {
        Some(origin) => origin.id().group,
        None => Group(0),
    }
}

/// The number of blocks of the origin, or 0 where there is none. Constant time.
pub fn base_count(origin: Option<&Origin>) -> u32
    ensures { result ≡ len (blocks_below (option_copied origin.entry)) }
{
    match origin {
        Some(origin) => origin.tree().node_count(),
        None => 0,
    }
}

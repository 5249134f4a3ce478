//! The promote of a clone in the rows of a list of file systems.
ghost use Rattle.std.specs.Prelude.{◌≡◌, ◌≢◌, ◌≤◌, ◌<◌, IfErr, OnOk, OnErr, map, length};
ghost use Rattle.std.specs.Arc.{arc_value};
ghost use Rattle.base.specs.declared.refusal.Refusal.{Refusal};
ghost use Rattle.model.specs.Ids.{snap_id};
ghost use Rattle.datasets.specs.CloneNames.{promoted_set};
ghost use Rattle.datasets.specs.Promoted.{row_at, promoted_at};
ghost use Rattle.file_system.specs.Promotions.{promoted_row, demoted_row, CanPromote};

use crate::clones::CloneIndex;
use crate::row::own;
use base::meter::SegMeter;
use base::refusal::Refusal;
use file_system::FileSystem;
use model::snapshot_id::SnapshotId;
use std::alloc::Global;
use std::sync::Arc;

/// Promotes the clone in the row at `place`, whose origin is that snapshot of the row at `other`, in both rows and in the index of clones
/// (zfs-promote(8)). Where others share a row, a copy of it takes its place. NoMemory where there is none for it; then all are as they were. It
/// costs what `FileSystem::promotion` and `CloneIndex::promote` do.
pub(crate) fn promote_at(
    alloc: Global,
    rows: &mut [Arc<FileSystem>],
    place: usize,
    other: usize,
    origin: SnapshotId,
    clones: &mut CloneIndex,
    segments: &mut SegMeter,
) -> Result<(), Refusal>
    requires place { place < length rows.old }
    requires other { other < length rows.old }
    requires apart { place ≢ other }
    requires can { CanPromote (row_at (map arc_value rows.old) place) (row_at (map arc_value rows.old) other) (snap_id origin) }
    ensures rows { OnOk result (map arc_value rows.new ≡ promoted_at (map arc_value rows.old) place other (snap_id origin)) }
    ensures clones { OnOk result (clones.new ≡ promoted_set clones.old (row_at (map arc_value rows.old) place).name (row_at (map arc_value rows.old) other).name (snap_id origin) (row_at (map arc_value rows.old) other).system.origin) }
    ensures rows_stay { OnErr result (map arc_value rows.new ≡ map arc_value rows.old) }
    ensures clones_stay { OnErr result (clones.new ≡ clones.old) }
    ensures only { IfErr result (λ e. e ≡ Refusal.NoMemory) }
    ensures never_lower { segments.old ≤ segments.new }
{
    if place < other {
        let (low, high) = rows.split_at_mut(other);
        return promote_row(
            alloc,
            &mut low[place],
            &mut high[0],
            origin,
            clones,
            segments,
        );
    }
    let (low, high) = rows.split_at_mut(place);
    promote_row(
        alloc,
        &mut high[0],
        &mut low[other],
        origin,
        clones,
        segments,
    )
}

// Promotes the clone in the row `clone`, whose origin is that snapshot of the row `owner`. On error nothing has changed.
fn promote_row(
    alloc: Global,
    clone: &mut Arc<FileSystem>,
    owner: &mut Arc<FileSystem>,
    origin: SnapshotId,
    clones: &mut CloneIndex,
    segments: &mut SegMeter,
) -> Result<(), Refusal>
    requires { CanPromote (arc_value clone.old) (arc_value owner.old) (snap_id origin) }
    ensures promoted { OnOk result (arc_value clone.new ≡ promoted_row (arc_value clone.old) (arc_value owner.old) (snap_id origin)) }
    ensures demoted { OnOk result (arc_value owner.new ≡ demoted_row (arc_value clone.old) (arc_value owner.old) (snap_id origin)) }
    ensures clones { OnOk result (clones.new ≡ promoted_set clones.old (arc_value clone.old).name (arc_value owner.old).name (snap_id origin) (arc_value owner.old).system.origin) }
    ensures clone_stays { OnErr result (arc_value clone.new ≡ arc_value clone.old) }
    ensures owner_stays { OnErr result (arc_value owner.new ≡ arc_value owner.old) }
    ensures clones_stay { OnErr result (clones.new ≡ clones.old) }
    ensures only { IfErr result (λ e. e ≡ Refusal.NoMemory) }
    ensures never_lower { segments.old ≤ segments.new }
{
    let (line, owner_line) = clone.promotion(alloc, owner, origin, segments)?;
    let clone = own(clone, alloc)?;
    let owner = own(owner, alloc)?;
    clones.promote(origin, clone, owner)?;
    clone.set_lineage(line);
    owner.set_lineage(owner_line);
    Ok(())
}

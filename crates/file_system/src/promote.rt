//! The promote of a clone: it and the file system of its origin change places.
ghost use Rattle.std.specs.Prelude.{◌≡◌, ◌≤◌, ◌++◌, length, take, drop, IfOk, IfErr};
ghost use Rattle.std.specs.Arc.{arc_value};
ghost use Rattle.std.specs.Option.{option_map};
ghost use Rattle.base.specs.Map.{blocks};
ghost use Rattle.base.specs.declared.refusal.Refusal.{Refusal};
ghost use Rattle.model.specs.Ids.{snap_id};
ghost use Rattle.snapshots.specs.Index.{AreNamesOnce};
ghost use Rattle.file_system.specs.Counts.{AreLined};
ghost use Rattle.file_system.specs.Dead.{snaps_in, newest_blocks, AreAccounted};
ghost use Rattle.file_system.specs.Origins.{map_below, blocks_below, group_below};
ghost use Rattle.file_system.specs.Promotions.{promoted_row, demoted_row, with_lineage, CanPromote, IsLineageFor};

use crate::counts::{UsedBlocks, recounted};
use crate::file_system::FileSystem;
use crate::origin::{Origin, copy_of_origin, origin_in};
use crate::splice::place_of;
use base::meter::SegMeter;
use base::refusal::Refusal;
use model::snapshot_id::SnapshotId;
use snapshots::SnapshotList;
use std::alloc::Global;
use std::sync::Arc;

/// What a promote puts into a file system: its new snapshots, its new origin, if it has one, and its counts of blocks with these.
#[derive(Drop)]
pub struct Lineage {
    snapshots: Arc<SnapshotList>,
    origin: Option<Arc<Origin>>,
    counts: UsedBlocks,
}

// A list of the first `count` of these snapshots, and a list of the others. Names must be unique. Where there are no others, the first list is
// another `Arc` of `line`. NoMemory where there is none for it. Where there are others, it costs what `SnapshotList::split_at` does, and else
// constant time.
fn parted(
    alloc: Global,
    line: &Arc<SnapshotList>,
    count: usize,
) -> Result<(Arc<SnapshotList>, Arc<SnapshotList>), Refusal>
    requires there { count ≤ length (arc_value line.now) }
    requires once { AreNamesOnce (arc_value line.now) }
    ensures first { IfOk result (λ parts. arc_value parts.0 ≡ take count (arc_value line.now)) }
    ensures rest { IfOk result (λ parts. arc_value parts.1 ≡ drop count (arc_value line.now)) }
    ensures err { IfErr result (λ e. e ≡ Refusal.NoMemory) }
{
    if line.list().len() == count {
        let rest = Arc::new(alloc, SnapshotList::new(alloc))?;
        return Ok((Arc::try_clone(line)?, rest));
    }
    let (first, rest) = line.split_at(alloc, count)?;
    let first = Arc::new(alloc, first)?;
    Ok((first, Arc::new(alloc, rest)?))
}

// A list of these snapshots followed by the others. Names must be unique among all of them. Where there are no others, it is `line` itself.
// NoMemory where there is none for it. Where there are others, it costs what `SnapshotList::joined` does, and else constant time.
fn appended(
    alloc: Global,
    line: Arc<SnapshotList>,
    others: &SnapshotList,
) -> Result<Arc<SnapshotList>, Refusal>
    requires once { AreNamesOnce (arc_value line ++ others.now) }
    ensures ok { IfOk result (λ all. arc_value all ≡ arc_value line ++ others.now) }
    ensures err { IfErr result (λ e. e ≡ Refusal.NoMemory) }
{
    if others.list().len() == 0 {
        return Ok(line);
    }
    let all = line.joined(others)?;
    Ok(Arc::new(alloc, all)?)
}

impl FileSystem {
    /// What a promote puts into this clone, whose origin is that snapshot of `owner`, and into `owner` (zfs-promote(8)). The clone gets the
    /// snapshots of `owner` up to its origin, before its own, and the origin of `owner`. `owner` keeps its newer snapshots, and that snapshot
    /// becomes its origin. Each keeps its limits and its bookmarks. Both are as they were until `set_lineage`. No block is visited. Each dead
    /// list stays as it is, since each dataset still has the same dataset before it. The blocks used by the live map and by the snapshots of
    /// each are counted again. NoMemory where there is none for it, or where the snapshots of one have more blocks than a u64 counts. It costs
    /// the number of snapshots of both and the segments of their dead lists, for the counts. Where the origin isn't the newest snapshot of
    /// `owner`, or the clone has snapshots, it costs also for each snapshot of the smaller part the logarithm of their number and at most three
    /// chunks of an index.
    pub fn promotion(
        &self,
        alloc: Global,
        owner: &FileSystem,
        origin: SnapshotId,
        segments: &mut SegMeter,
    ) -> Result<(Lineage, Lineage), Refusal>
        requires { CanPromote self.now owner.now (snap_id origin) }
        ensures fits { IfOk result (λ lines. IsLineageFor self.now lines.0) }
        ensures promoted { IfOk result (λ lines. with_lineage self.now lines.0 ≡ promoted_row self.now owner.now (snap_id origin)) }
        ensures fits_owner { IfOk result (λ lines. IsLineageFor owner.now lines.1) }
        ensures demoted { IfOk result (λ lines. with_lineage owner.now lines.1 ≡ demoted_row self.now owner.now (snap_id origin)) }
        ensures err { IfErr result (λ e. e ≡ Refusal.NoMemory) }
        ensures never_lower { segments.old ≤ segments.new }
    {
        let kept = owner.snapshots.list();
        let (place, _count) = (place_of(kept, origin.group), kept.len());
        let (older, newer) = parted(alloc, &owner.snapshots, place + 1)?;
        let all = appended(alloc, older, &self.snapshots)?;
        let clone = self.line(all, &owner.origin, segments)?;
        let rest = owner.line(newer, &self.origin, segments)?;
        Ok((clone, rest))
    }

    /// Replaces its snapshots, its origin and its counts by those that `promotion` made for it. It costs constant time, and the drop of the
    /// former ones where they have no other owner.
    pub fn set_lineage(&mut self, line: Lineage)
        requires { IsLineageFor self.old line }
        ensures { self.new ≡ with_lineage self.old line }
    {
        self.snapshots = line.snapshots;
        self.origin = line.origin;
        self.counts = line.counts;
    }

    // The lineage of this file system with these snapshots and this origin. The newest of these snapshots, or else this origin, must have the
    // same blocks as the newest snapshot, or else the origin, of this file system has now. The blocks are counted again. NoMemory where there is
    // none for it, or where the snapshots have more blocks than a u64 counts. It costs the number of these snapshots, and the segments of all
    // their dead lists and of its own.
    fn line(
        &self,
        snapshots: Arc<SnapshotList>,
        origin: &Option<Arc<Origin>>,
        segments: &mut SegMeter,
    ) -> Result<Lineage, Refusal>
        requires accounted { AreAccounted (blocks_below (option_map arc_value origin.now)) (arc_value snapshots) }
        requires line { AreLined (map_below (option_map arc_value origin.now)) (group_below (option_map arc_value origin.now)) (snaps_in (arc_value snapshots)) self.now.system.live }
        requires newest { newest_blocks (blocks_below (option_map arc_value origin.now)) (snaps_in (arc_value snapshots)) ≡ newest_blocks (blocks self.now.below) self.now.system.snaps }
        ensures fits { IfOk result (λ l. IsLineageFor self.now l) }
        ensures snapshots { IfOk result (λ l. arc_value l.snapshots ≡ arc_value snapshots) }
        ensures origin { IfOk result (λ l. option_map arc_value l.origin ≡ option_map arc_value origin.now) }
        ensures err { IfErr result (λ e. e ≡ Refusal.NoMemory) }
        ensures never_lower { segments.old ≤ segments.new }
    {
        let counts = recounted(
            snapshots.list(),
            origin_in(origin),
            &self.live,
            &self.dead,
            segments,
        )?;
        let origin = copy_of_origin(origin)?;
        Ok(Lineage {
            snapshots,
            origin,
            counts,
        })
    }
}

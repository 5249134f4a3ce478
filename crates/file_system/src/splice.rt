//! The removal of a snapshot from a file system.
ghost use Rattle.std.specs.Prelude.{◌≡◌, ℕ, ◌+◌, ◌<◌, ◌≤◌, ◌==◌, [], Some, None, IsSome, IfOk, IfErr, length, take, nat_lt, slice_get};
ghost use Rattle.std.specs.List.{find, last_or};
ghost use Rattle.std.specs.Option.{option_copied, option_map};
ghost use Rattle.base.specs.declared.refusal.Refusal.{Refusal};
ghost use Rattle.model.specs.World.{id_of, same_id};
ghost use Rattle.model.specs.Ids.{snap_id};
ghost use Rattle.shared_list.specs.Around.{IsAround};
ghost use Rattle.world.specs.Worlds.{AreRising};
ghost use Rattle.file_system.specs.Dead.{snaps_in, AreUncut, IsPlain};
ghost use Rattle.file_system.specs.Origins.{blocks_below, group_below};
ghost use Rattle.file_system.specs.Splices.{AreJoined, CanJoin, IsNext};

use crate::origin::{Origin, base_group};
use crate::written::{group_of, written_over};
use base::meter::SegMeter;
use base::number::Group;
use base::refusal::Refusal;
use deadlist::deadlist::Deadlist;
use model::snapshot_id::SnapshotId;
use shared_list::{Around, SharedList};
use snapshots::Kept;
use std::alloc::Global;
use std::sync::Arc;

fn is_before(kept: &Kept, group: Group) -> bool
    ensures { result ≡ nat_lt kept.now.snapshot.group group.0 }
{
    kept.snapshot.group() < group
}

/// The place of the snapshot of this group, which must be there. It costs the logarithm of the number of snapshots, and a walk over their
/// chunks.
pub fn place_of(kept: &SharedList<Kept>, group: Group) -> usize
    requires rising { AreRising 0 (snaps_in kept.now) }
    requires there { IsSome (find (λ t. t.group == group.0) (snaps_in kept.now)) }
    ensures within { result < length kept.now }
    ensures is { option_map (λ k. k.snapshot.group) (slice_get kept.now result) ≡ Some group.0 }
{
    kept.partition_point(|kept: &Kept| is_before(kept, group))
}

/// The snapshot of this group, which must be there, with its neighbours. It costs the logarithm of the number of snapshots.
pub fn around_of(kept: &SharedList<Kept>, group: Group) -> Around<'_, Kept>
    requires rising { AreRising 0 (snaps_in kept.now) }
    requires there { IsSome (find (λ t. t.group == group.0) (snaps_in kept.now)) }
    ensures { (i : ℕ) × (option_map (λ k. k.snapshot.group) (slice_get kept.now i) ≡ Some group.0) × IsAround kept.now i result }
{
    kept.around(|kept: &Kept| is_before(kept, group))
}

/// The kept snapshot of this identity, or None. It costs the logarithm of the number of snapshots.
pub fn kept_of(kept: &SharedList<Kept>, id: SnapshotId) -> Option<&Kept>
    requires { AreRising 0 (snaps_in kept.now) }
    ensures { option_map (λ k. k.snapshot) (option_copied result) ≡ find (λ t. same_id (id_of t) (snap_id id)) (snaps_in kept.now) }
{
    let found = kept.first(|kept: &Kept| is_before(kept, id.group))?;
    if found.snapshot.id() == id {
        Some(found)
    } else {
        None
    }
}

/// The snapshot before that place, or None where that is the first place. It costs a walk over the chunks before it.
pub fn before(kept: &SharedList<Kept>, place: usize) -> Option<&Kept>
    requires { place ≤ length kept.now }
    ensures { option_copied result ≡ last_or None (take place kept.now) }
{
    if place == 0 {
        return None;
    }
    kept.get(place - 1)
}

/// The dead lists for a removal of the snapshot at that place: first the new dead list of the dataset after it, and then the list of the
/// snapshot's blocks that neither neighbour has. `next` is the dead list of the dataset after it so far, and `base` the group of the origin. No
/// list is cut. It costs for each list the square of the logarithm of the number of its entries, and where runs of entries are merged, the
/// entries of these runs. NoMemory where there is none for it.
pub fn joined(
    kept: &SharedList<Kept>,
    base: Group,
    place: usize,
    next: &Deadlist,
    segments: &mut SegMeter,
) -> Result<(Deadlist, Deadlist), Refusal>
    requires place { place < length kept.now }
    requires uncut { AreUncut kept.now }
    requires next { next.now.cuts ≡ [] }
    ensures ok { IfOk result (λ p. AreJoined base.0 kept.now place next.now.entries p.0.entries p.1.entries) }
    ensures plain { IfOk result (λ p. IsPlain p.0) }
    ensures err { IfErr result (λ e. e ≡ Refusal.NoMemory) }
    ensures never_lower { segments.old ≤ segments.new }
{
    let Some(gone) = kept.get(place) else {
        unreachable!()
    };
    let mut own = next.copy(segments)?;
    let lost = own.take_after(group_of(before(kept, place), base), segments)?;
    let mut all = gone.dead.copy(segments)?;
    match all.append(own, segments) {
        Ok(()) => Ok((all, lost)),
        Err((refusal, _own)) => Err(refusal),
    }
}

/// The kept snapshot after the one at that place, as it is once that one is removed, and the list of the removed snapshot's blocks that neither
/// neighbour has. `origin` is the origin of the file system. It costs what `joined` does, and the length of the next snapshot's name. NoMemory
/// where there is none for it.
pub fn joined_next(
    kept: &SharedList<Kept>,
    origin: Option<&Origin>,
    alloc: Global,
    place: usize,
    segments: &mut SegMeter,
) -> Result<(Kept, Deadlist), Refusal>
    requires { CanJoin (blocks_below (option_copied origin)) (group_below (option_copied origin)) kept.now place }
    ensures ok { IfOk result (λ p. IsNext (blocks_below (option_copied origin.entry)) kept.now place p.0 p.1.entries) }
    ensures err { IfErr result (λ e. e ≡ Refusal.NoMemory) }
    ensures never_lower { segments.old ≤ segments.new }
{
    let _count = kept.len();
    let Some(next) = kept.get(place + 1) else {
        unreachable!()
    };
    let (dead, lost) = joined(kept, base_group(origin), place, &next.dead, segments)?;
    let snapshot = next.snapshot.copy()?;
    let written = written_over(before(kept, place), origin, snapshot.tree(), &dead);
    let dead = Arc::new(alloc, dead)?;
    let next = Kept {
        snapshot,
        dead,
        written,
    };
    Ok((next, lost))
}

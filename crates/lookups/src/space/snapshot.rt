//! The blocks that only one snapshot has.
ghost use Rattle.std.specs.Prelude.{◌≡◌, ◌≤◌, ℕ, List, Some, IfOk, IfErr, OnOk, map};
ghost use Rattle.std.specs.Option.{option_map};
ghost use Rattle.base.specs.declared.refusal.Refusal.{Refusal};
ghost use Rattle.base.specs.Surveys.{IsIn};
ghost use Rattle.model.specs.Sums.{used_by_snap};
ghost use Rattle.model.specs.World.{id_of, snap_named};
ghost use Rattle.world.specs.Tables.{world_of};
ghost use Rattle.datasets.specs.CloneNames.{name_of};
ghost use Rattle.lookups.specs.Places.{IsPlace};
ghost use Rattle.lookups.specs.Alone.{IsCloneAbove, struck};

use base::meter::SegMeter;
use base::name::Member;
use base::refusal::Refusal;
use datasets::{Alone, CloneName, FileSystem, Snapshot, Table};
use std::alloc::Global;

/// How many blocks only the snapshot of this name has, and no other dataset, not even a clone of it (zfsprops(7): used); None where there is no
/// such snapshot. NoMemory where memory is refused; a snapshot without clones needs no memory. It costs the logarithms of the numbers of file
/// systems and of the snapshots of one, and about the square of the logarithm of the entries of the dead list of the dataset that follows the
/// snapshot. Where the snapshot has clones, it also costs the entries of that dead list that were born after the dataset before the snapshot, and
/// for each clone the entries of the dead list of its oldest dataset. The meter counts the segments of these lists, and the entries that a sum
/// looks at.
pub fn used_by_snapshot(
    alloc: Global,
    table: &Table,
    name: &Member,
    segments: &mut SegMeter,
) -> Result<Option<u32>, Refusal>
    ensures ok { IfOk result (λ n. n ≡ option_map (λ t. used_by_snap (world_of table.now) (id_of t)) (snap_named (world_of table.now) name.now)) }
    ensures err { IfErr result (λ e. e ≡ Refusal.NoMemory) }
    ensures never_lower { segments.old ≤ segments.new }
{
    table.facts();
    let Some((file_system, snapshot)) = table.snapshot_named(&name.file_system, &name.component)
    else {
        return Ok(None);
    };
    // For the prover alone: the snapshot has fewer than 2^32 blocks.
    let _most = snapshot.tree().node_count();
    let count = count_alone(alloc, table, file_system, snapshot, segments)?;
    Ok(Some(count as u32))
}

// How many blocks only this snapshot of this file system has, as `used_by_snapshot` says, at the same cost.
fn count_alone(
    alloc: Global,
    table: &Table,
    file_system: &FileSystem,
    snapshot: &Snapshot,
    segments: &mut SegMeter,
) -> Result<u64, Refusal>
    requires { IsPlace table.now file_system.now (Some snapshot.now) }
    ensures ok { IfOk result (λ n. n ≡ used_by_snap (world_of table.now) (id_of snapshot.now)) }
    ensures err { IfErr result (λ e. e ≡ Refusal.NoMemory) }
    ensures never_lower { segments.old ≤ segments.new }
{
    table.facts();
    let group = snapshot.group();
    let clones = table.clones_of(snapshot.id());
    if clones.len() == 0 {
        return Ok(file_system.alone_count(group, segments));
    }
    let mut alone = file_system.alone(alloc, group, segments)?;
    remove_all_of_clones(table, clones, &mut alone, segments)?;
    Ok(alone.len())
}

// Removes from `alone` the blocks that these clones still have. NoMemory where memory is refused. It costs the logarithm of the number of file
// systems for each, and what `FileSystem::strike` does.
fn remove_all_of_clones(
    table: &Table,
    clones: &[CloneName],
    alone: &mut Alone,
    segments: &mut SegMeter,
) -> Result<(), Refusal>
    requires { (n : List ℕ) → IsIn (map name_of clones.now) n → IsCloneAbove table.now alone.old n }
    ensures ok { OnOk result (alone.new ≡ struck table.now alone.old (map name_of clones.now)) }
    ensures err { IfErr result (λ e. e ≡ Refusal.NoMemory) }
    ensures never_lower { segments.old ≤ segments.new }
{
    table.facts();
    for clone in clones {
        let Some(file_system) = table.find(clone.name()) else {
            unreachable!()
        };
        file_system.strike(alone, segments)?;
    }
    Ok(())
}

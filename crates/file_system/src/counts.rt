//! The counts of blocks used by a file system's live map and by its snapshots.
ghost use Rattle.std.specs.Prelude.{◌≡◌, ◌≤◌, ◌+◌, map, IfOk, IfErr};
ghost use Rattle.std.specs.Option.{option_copied};
ghost use Rattle.std.specs.FinSet.{difference};
ghost use Rattle.base.specs.Map.{blocks};
ghost use Rattle.base.specs.Surveys.{dead_block};
ghost use Rattle.base.specs.declared.refusal.Refusal.{Refusal};
ghost use Rattle.world.specs.Deadlists.{Lists};
ghost use Rattle.file_system.specs.Counts.{IsCounted, IsRest, AreLined, upto_count};
ghost use Rattle.file_system.specs.Dead.{snaps_in, newest_blocks, AreAccounted};
ghost use Rattle.file_system.specs.Origins.{map_below, blocks_below, group_below};

use crate::dead::count_upto;
use crate::gone::{Asked, Side, count_gone};
use crate::origin::{Origin, base_count, base_group};
use base::meter::SegMeter;
use base::number::{Dead, Group};
use base::refusal::Refusal;
use deadlist::deadlist::Deadlist;
use shared_list::SharedList;
use snapshots::Kept;
use tree::Tree;

/// Two counts of blocks of a file system: those of its live map that its origin doesn't have (zfsprops(7): usedbydataset), and those of its
/// snapshots that neither the live map nor the origin has (zfsprops(7): usedbysnapshots).
#[derive(Clone, Copy)]
pub struct UsedBlocks {
    pub by_dataset: u32,
    pub by_snapshots: u64,
}

/// The counts after a live map drops some blocks: how many blocks it still shares with the origin, and how many blocks the snapshots have that
/// neither the live map nor the origin has.
#[derive(Clone, Copy)]
pub struct Rest {
    pub shared: u32,
    pub by_snapshots: u64,
}

/// The counts of a file system without a snapshot whose live map is that of its origin, or is empty. Constant time.
pub fn no_counts() -> UsedBlocks
    ensures by_dataset { result.by_dataset ≡ 0 }
    ensures by_snapshots { result.by_snapshots ≡ 0 }
{
    UsedBlocks {
        by_dataset: 0,
        by_snapshots: 0,
    }
}

/// The counts after a live map of `nodes` blocks drops the blocks `released`. `base` is the group of the origin, and `newest` that of the newest
/// snapshot. NoMemory where there are more blocks than a u64 counts. It costs the number of dropped blocks.
pub fn rest_of(
    counts: UsedBlocks,
    nodes: u32,
    released: &[Dead],
    base: Group,
    newest: Group,
) -> Result<Rest, Refusal>
    requires own { counts.by_dataset + upto_count base.0 released.now ≤ nodes }
    requires rising { upto_count base.0 released.now ≤ upto_count newest.0 released.now }
    ensures ok { IfOk result (IsRest counts nodes released.now base.0 newest.0) }
    ensures err { IfErr result (λ e. e ≡ Refusal.NoMemory) }
{
    let below = count_upto(released, base);
    let kept = (count_upto(released, newest) - below) as u64;
    let Some(by_snapshots) = counts.by_snapshots.checked_add(kept) else {
        return Err(Refusal::NoMemory);
    };
    let shared = nodes - counts.by_dataset - below as u32;
    Ok(Rest {
        shared,
        by_snapshots,
    })
}

/// The counts once the live map has `nodes` blocks, from the counts after its drops. Constant time.
pub fn counts_with(rest: Rest, nodes: u32) -> UsedBlocks
    requires { rest.shared ≤ nodes }
    ensures by_dataset { result.by_dataset + rest.shared ≡ nodes }
    ensures by_snapshots { result.by_snapshots ≡ rest.by_snapshots }
{
    UsedBlocks {
        by_dataset: nodes - rest.shared,
        by_snapshots: rest.by_snapshots,
    }
}

/// The counts of a file system with these snapshots, this live map and this origin, from the dead lists of the snapshots and of the live map
/// (zfsprops(7): usedbydataset, usedbysnapshots). NoMemory where there are more blocks than a u64 counts. It costs the number of snapshots, and
/// the segments of all the dead lists.
pub fn recounted(
    kept: &SharedList<Kept>,
    origin: Option<&Origin>,
    live: &Tree,
    dead: &Deadlist,
    segments: &mut SegMeter,
) -> Result<UsedBlocks, Refusal>
    requires accounted { AreAccounted (blocks_below (option_copied origin)) kept.now }
    requires dead { Lists (map dead_block dead.now.entries) (difference (newest_blocks (blocks_below (option_copied origin)) (snaps_in kept.now)) (blocks live.now)) }
    requires line { AreLined (map_below (option_copied origin)) (group_below (option_copied origin)) (snaps_in kept.now) live.now }
    ensures ok { IfOk result (IsCounted (map_below (option_copied origin.entry)) (snaps_in kept.now) live.now) }
    ensures err { IfErr result (λ e. e ≡ Refusal.NoMemory) }
    ensures never_lower { segments.old ≤ segments.new }
{
    let cut = base_group(origin);
    let dropped = count_gone(kept, dead, asked_of(Side::Upto, cut), segments);
    let by_snapshots = count_gone(kept, dead, asked_of(Side::After, cut), segments);
    if by_snapshots == u64::MAX {
        return Err(Refusal::NoMemory);
    }
    let below = u64::from(base_count(origin));
    let by_dataset = (u64::from(live.node_count()) + dropped - below) as u32;
    Ok(UsedBlocks {
        by_dataset,
        by_snapshots,
    })
}

// Asks for the entries on that side of the cut, in the dead lists of all datasets.
fn asked_of(side: Side, cut: Group) -> Asked
    ensures from { result.from ≡ None }
    ensures until { result.until ≡ None }
    ensures side { result.side ≡ side }
    ensures cut { result.cut ≡ cut }
{
    Asked {
        from: None,
        until: None,
        side,
        cut,
    }
}

//! Work on a dead list of 1,000,000 entries in 1,001 segments.
use base::number::{BlockNo, Dead, Group};
use base::refusal::Refusal;
use deadlist::deadlist::Deadlist;
use std::alloc::Global;
use tree_tests::ready::segment_meter;

/// A group at which the list is cut.
pub const AT_CUT: Group = Group(500_000);
/// A group between two cuts.
pub const BETWEEN_CUTS: Group = Group(500_500);

const ENTRIES: u64 = 1_000_000;

/// A list that is cut at each thousandth group.
fn cut_list(alloc: Global) -> Result<Deadlist, Refusal> {
    let mut list = Deadlist::new(alloc);
    for thousand in 1..=1000u64 {
        list.cut(Group(thousand * 1000), &mut segment_meter())?;
    }
    Ok(list)
}

/// The list with an entry of each birth group, in an order that jumps between the segments.
fn full_list(alloc: Global) -> Result<Deadlist, Refusal> {
    let mut list = cut_list(alloc)?;
    for entry in 0..ENTRIES {
        list.reserve(1, &mut segment_meter())?;
        list.push_reserved(Dead {
            block: BlockNo(entry as u32),
            birth: Group(entry * 7919 % ENTRIES + 1),
        });
    }
    Ok(list)
}

/// Fills a list in each round: how many entries were pushed.
pub fn push(alloc: Global, rounds: u32) -> Result<u64, Refusal> {
    let mut pushed = 0u64;
    for _ in 0..rounds {
        let list = full_list(alloc)?;
        pushed = pushed.saturating_add(list.space_upto(Group(ENTRIES), &mut segment_meter()));
    }
    Ok(pushed)
}

/// Copies a full list in each round: how many entries the copies have.
pub fn copy(alloc: Global, rounds: u32) -> Result<u64, Refusal> {
    let list = full_list(alloc)?;
    let mut copied = 0u64;
    for _ in 0..rounds {
        let copy = list.copy(&mut segment_meter())?;
        copied = copied.saturating_add(copy.space_after(Group(0), &mut segment_meter()));
    }
    Ok(copied)
}

/// Takes the entries born after a group out of a copy of a full list in each round: how many were taken.
pub fn take(alloc: Global, rounds: u32, after: Group) -> Result<u64, Refusal> {
    let list = full_list(alloc)?;
    let mut taken = 0u64;
    for _ in 0..rounds {
        let mut copy = list.copy(&mut segment_meter())?;
        let later = copy.take_after(after, &mut segment_meter())?;
        taken = taken.saturating_add(later.space_after(after, &mut segment_meter()));
    }
    Ok(taken)
}

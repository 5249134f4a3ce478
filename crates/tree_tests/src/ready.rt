//! Meters, and what a change asks of its caller, looked at as a test runs.
ghost use Rattle.std.specs.Prelude.{◌≡◌, ◌≤◌, Some, IfSome, IfOk, IsTrue, slice_get};
ghost use Rattle.tree.specs.Asking.{AreBornBy, AreAllocated};
ghost use Rattle.tree.specs.Updates.{IsBatch, IsOfTree, first_of, past_of};
ghost use Rattle.zalloc.specs.declared.BlockState.TheVariants.{Allocated};

use base::meter::{Meter, SegMeter};
use base::number::{Dead, Group};
use base::refusal::Refusal;
use std::alloc::Global;
use toll::Toll;
use tree::{Tree, Update};
use zalloc::{Allocator, BlockState};

/// A meter of nodes at zero.
pub fn meter() -> Meter
    ensures { result ≡ 0 }
{
    Meter::new(Toll::new())
}

/// A meter of segments at zero.
pub fn segment_meter() -> SegMeter
    ensures { result ≡ 0 }
{
    SegMeter::new(Toll::new())
}

/// The first leaf that an update covers and the one past its last, where it writes or punches a leaf, or punches an object.
fn extent(update: &Update) -> Option<(u32, u32)>
    ensures first { IfSome result (λ e. e.0 ≡ first_of update.now) }
    ensures past { IfSome result (λ e. e.1 ≡ past_of update.now) }
    ensures of_tree { IfSome result (λ e. IsOfTree update.now) }
{
    match update {
        Update::Write { leaf, .. } if *leaf < 1048576 => Some((*leaf, *leaf + 1)),
        Update::Punch(key) if key.level == 0 && key.index < 1048576 => {
            Some((key.index, key.index + 1))
        }
        Update::Punch(key) if key.level == 3 && key.index < 256 => {
            Some((key.index * 4096, key.index * 4096 + 4096))
        }
        _ => None,
    }
}

/// Whether the updates are a batch: of leaves that a tree can have, in rising order, none twice.
pub fn is_batch(updates: &[Update]) -> bool
    ensures { IsTrue result → IsBatch updates.now }
{
    let mut low = 0;
    for update in updates {
        let Some((first, past)) = extent(update) else {
            return false;
        };
        if first < low {
            return false;
        }
        low = past;
    }
    true
}

/// Whether a block was born up to the group, and its number is Allocated.
fn is_standing(block: Dead, allocator: &Allocator, group: Group) -> bool
    ensures born { IsTrue result → block.birth.0 ≤ group.0 }
    ensures allocated { IsTrue result → slice_get allocator.now block.block.0 ≡ Some Allocated }
{
    let is_born = block.birth.0 <= group.0;
    match allocator.state(block.block) {
        Some(BlockState::Allocated) => is_born,
        _ => false,
    }
}

/// Whether each block of a tree was born up to the group, and its number is Allocated. NoMemory where there is none to list the
/// blocks.
pub fn is_ready(
    alloc: Global,
    tree: &Tree,
    allocator: &Allocator,
    group: Group,
) -> Result<bool, Refusal>
    ensures born { IfOk result (λ ready. IsTrue ready → AreBornBy tree.now group.0) }
    ensures allocated { IfOk result (λ ready. IsTrue ready → AreAllocated tree.now allocator.now) }
{
    let blocks = tree.walk_after(alloc, Group(0), &mut meter())?;
    if blocks.len() != tree.node_count() as usize {
        return Ok(false);
    }
    for block in &blocks {
        if !is_standing(*block, allocator, group) {
            return Ok(false);
        }
    }
    Ok(true)
}

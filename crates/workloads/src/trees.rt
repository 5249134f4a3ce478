//! Work on trees that are written in one batch.
ghost use Rattle.std.specs.Prelude.{◌≤◌};

use base::number::Group;
use base::refusal::Refusal;
use std::alloc::Global;
use tree::{Draft, Tree, Update};
use tree_tests::ready::{is_batch, is_ready, meter};
use zalloc::{Allocator, MOST_BLOCKS};

const BATCH_LEAVES: u32 = 4096;

const WALKED_LEAVES: u32 = 1_048_576;

const BATCH_NUMBERS: u32 = 131_072;

/// Writes of the first leaves.
fn writes(alloc: Global, leaves: u32) -> Result<Vec<Update<'static>>, Refusal> {
    let mut updates = Vec::with_capacity(alloc, leaves as usize)?;
    for leaf in 0..leaves {
        updates.push(Update::Write {
            leaf,
            bytes: &[7; 512],
        })?;
    }
    Ok(updates)
}

/// A new tree, written in one batch with so many numbers to take. BadKey where the updates are no batch.
fn full_tree(alloc: Global, updates: &[Update], numbers: u32) -> Result<Tree, Refusal>
    requires { numbers ≤ MOST_BLOCKS }
{
    let allocator = Allocator::new(alloc, numbers)?;
    let mut tree = Tree::new();
    if !is_batch(updates) || !is_ready(alloc, &tree, &allocator, Group(1))? {
        return Err(Refusal::BadKey);
    }
    let mut draft = Draft::new(alloc);
    tree.draft(
        alloc,
        updates,
        Group(1),
        &allocator,
        &mut meter(),
        &mut draft,
    )?;
    tree.put(alloc, updates, Group(1), &mut draft, &mut meter())?;
    Ok(tree)
}

/// Makes a tree of 4,096 leaves in each round: how many blocks were made.
pub fn batch(alloc: Global, rounds: u32) -> Result<u64, Refusal> {
    let updates = writes(alloc, BATCH_LEAVES)?;
    let mut made = 0u64;
    for _ in 0..rounds {
        let tree = full_tree(alloc, &updates, BATCH_NUMBERS)?;
        made = made.saturating_add(u64::from(tree.node_count()));
    }
    Ok(made)
}

/// Walks a tree of 1,048,576 leaves in each round: how many blocks were listed.
pub fn walk(alloc: Global, rounds: u32) -> Result<u64, Refusal> {
    let tree = full_tree(alloc, &writes(alloc, WALKED_LEAVES)?, MOST_BLOCKS)?;
    let mut listed = 0u64;
    for _ in 0..rounds {
        let blocks = tree.walk_after(alloc, Group(0), &mut meter())?;
        listed = listed.saturating_add(blocks.len() as u64);
    }
    Ok(listed)
}

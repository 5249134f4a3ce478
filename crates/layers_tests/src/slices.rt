//! Blocks to be freed beside what was put in, counted by hand: each slice, and copies.
ghost use Rattle.std.specs.Prelude.{◌≡◌, ◌<◌, IfOk, IsTrue};
ghost use Rattle.std.specs.FinSet as set;
ghost use Rattle.base.specs.Map.{Block, blocks};
ghost use Rattle.world.specs.Blocks.{after};
ghost use Rattle.world.specs.Sets.{Has};
ghost use Rattle.layers_tests.specs.Rising.{AreRising};

use base::number::{BlockNo, Dead, Group, Key};
use base::refusal::Refusal;
use deadlist::deadlist::Deadlist;
use snap::{Freeing, Slice};
use std::alloc::Global;
use std::sync::Arc;
use tree::{Draft, Subtree, Tree, Update};
use tree_tests::ready::{is_batch, is_ready, meter, segment_meter};
use zalloc::{Allocator, BlockState};

/// The group that the tree's first leaf is of, and that of its other one.
const FIRST: Group = Group(5);

const SECOND: Group = Group(7);

/// The entries of a dead list that is older than the tree, and of one that is younger.
const OLD: [(u32, u64); 3] = [(60, 2), (61, 4), (62, 3)];

const YOUNG: [(u32, u64); 2] = [(70, 8), (71, 9)];

/// The keys of a tree with leaves 3 and 5000, as it is walked, each with the group that it was born in.
const KEYS: [(u8, u32, Group); 10] = [
    (5, 0, SECOND),
    (4, 0, SECOND),
    (3, 0, FIRST),
    (2, 0, FIRST),
    (1, 0, FIRST),
    (0, 3, FIRST),
    (3, 1, SECOND),
    (2, 19, SECOND),
    (1, 312, SECOND),
    (0, 5000, SECOND),
];

/// Takes the numbers of new blocks, if they are Free.
fn are_taken(numbers: &mut Allocator, taken: &[BlockNo]) -> bool {
    for number in taken {
        match numbers.state(*number) {
            Some(BlockState::Free) => numbers.take(*number),
            _ => return false,
        }
    }
    true
}

/// Puts updates in force, if they are a batch, in a group that begins with them.
fn are_put(
    alloc: Global,
    tree: &mut Tree,
    numbers: &mut Allocator,
    updates: &[Update],
    group: Group,
) -> Result<bool, Refusal> {
    if !is_batch(updates) || !is_ready(alloc, tree, numbers, group)? {
        return Ok(false);
    }
    let mut draft = Draft::new(alloc);
    tree.draft(alloc, updates, group, numbers, &mut meter(), &mut draft)?;
    tree.put(alloc, updates, group, &mut draft, &mut meter())?;
    Ok(are_taken(numbers, draft.taken.as_slice()))
}

/// Writes a leaf.
fn is_written(
    alloc: Global,
    tree: &mut Tree,
    numbers: &mut Allocator,
    leaf: u32,
    group: Group,
) -> Result<bool, Refusal> {
    let updates = [Update::Write {
        leaf,
        bytes: &[1; 512],
    }];
    are_put(alloc, tree, numbers, &updates, group)
}

/// A tree of two leaves, each written in a group of its own. BadKey where one can't be.
fn tree_of(alloc: Global) -> Result<Tree, Refusal> {
    let mut numbers = Allocator::new(alloc, 50)?;
    let mut tree = Tree::new();
    if !is_written(alloc, &mut tree, &mut numbers, 3, FIRST)?
        || !is_written(alloc, &mut tree, &mut numbers, 5000, SECOND)?
    {
        return Err(Refusal::BadKey);
    }
    Ok(tree)
}

fn dead_of(entry: (u32, u64)) -> Dead {
    Dead {
        block: BlockNo(entry.0),
        birth: Group(entry.1),
    }
}

fn list_of(alloc: Global, entries: &[(u32, u64)]) -> Result<Arc<Deadlist>, Refusal> {
    let mut list = Deadlist::new(alloc);
    for entry in entries {
        list.reserve(1, &mut segment_meter())?;
        list.push_reserved(dead_of(*entry));
    }
    Ok(Arc::new(alloc, list)?)
}

/// Adds the tree's blocks that were born after a group to the others, as it is walked.
fn add_blocks(tree: &Tree, cut: Group, blocks: &mut Vec<Dead>) -> Result<(), Refusal> {
    for (level, index, birth) in KEYS {
        let key = Key { level, index };
        if birth.0 > cut.0 {
            let cell = tree.read(key, &mut meter()).ok_or(Refusal::BadKey)?;
            let block = cell.block;
            blocks.push(Dead { block, birth })?;
        }
    }
    Ok(())
}

/// Whether a subtree is there whose top was born in this group.
fn is_born_in(top: Option<&Subtree>, birth: Group) -> bool {
    match top {
        Some(top) => top.block(&mut meter()).birth.0 == birth.0,
        None => false,
    }
}

/// Whether the tree has below its root one subtree, and below that an older one and another, as it is walked.
fn has_subtrees(tree: &Tree) -> Result<bool, Refusal> {
    let Some(top) = tree.top()? else {
        return Ok(false);
    };
    let Some(below) = top.child(0, &mut meter())? else {
        return Ok(false);
    };
    let are_first = is_born_in(Some(&top), SECOND) && is_born_in(Some(&below), SECOND);
    let are_below = is_born_in(below.child(0, &mut meter())?.as_ref(), FIRST)
        && is_born_in(below.child(1, &mut meter())?.as_ref(), SECOND);
    Ok(
        are_first
            && are_below
            && top.child(1, &mut meter())?.is_none()
            && below.child(2, &mut meter())?.is_none(),
    )
}

#[test]
fn subtrees_of_a_tree(rt: HostRuntime) {
    let tree = tree_of(rt.alloc()).expect(&rt, "memory for a tree");
    assert!(rt; has_subtrees(&tree) == Ok(true));
}

/// How many blocks of a tree were born after a group.
fn count_after(alloc: Global, tree: &Tree, cut: Group) -> Result<u64, Refusal>
    ensures { IfOk result (λ n. n ≡ set.len (after cut.0 (blocks tree.now))) }
{
    let _count = tree.node_count();
    let blocks = tree.walk_after(alloc, cut, &mut meter())?;
    Ok(blocks.as_slice().len() as u64)
}

/// Whether the entries' numbers rise, and they were born after one group and by another.
fn are_rising(list: &Deadlist, cut: u64, low: u64) -> bool
    ensures { IsTrue result → AreRising cut low 0 list.now.entries }
{
    let mut least = 0u64;
    for dead in list.iter(&mut segment_meter()) {
        let number = u64::from(dead.block.0);
        if number < least || dead.birth.0 <= cut || dead.birth.0 > low {
            return false;
        }
        least = number + 1;
    }
    true
}

/// What is to be freed, all of it born after a group. What is added was born by that group, so that it has no block that is there.
#[derive(Drop)]
struct Work {
    freeing: Freeing,
    low: u64,
    ghost young: { (b : Block) → Has freeing b → low < b.birth },
}

impl Work {
    fn new(alloc: Global) -> Work {
        Work {
            freeing: Freeing::new(alloc),
            low: u64::MAX,
        }
    }

    /// An equal one.
    fn copy(&self) -> Result<Work, Refusal> {
        let freeing = self.freeing.copy()?;
        let low = self.low;
        Ok(Work { freeing, low })
    }

    /// Adds the tree's blocks that were born after a group. BadKey where one is too young.
    fn add_tree(&mut self, alloc: Global, tree: &Tree, cut: Group) -> Result<(), Refusal> {
        let count = count_after(alloc, tree, cut)?;
        if cut.0 > self.low || count_after(alloc, tree, Group(self.low))? > 0 {
            return Err(Refusal::BadKey);
        }
        self.freeing.add_tree(tree, cut, count)?;
        self.low = cut.0;
        Ok(())
    }

    /// Adds a dead list's entries, which were born after a group and stand in order of their numbers. BadKey where they don't.
    fn add_dead(&mut self, list: Arc<Deadlist>, cut: Group) -> Result<(), Refusal> {
        if cut.0 > self.low || !are_rising(&list, cut.0, self.low) {
            return Err(Refusal::BadKey);
        }
        self.freeing.add_dead(list)?;
        self.low = cut.0;
        Ok(())
    }
}

fn add_entries(entries: &[(u32, u64)], blocks: &mut Vec<Dead>) -> Result<(), Refusal> {
    for entry in entries {
        blocks.push(dead_of(*entry))?;
    }
    Ok(())
}

/// The blocks of the old list, of the tree after a group, and of the young list: those that were added last come first.
fn blocks_of(alloc: Global, tree: &Tree, cut: Group) -> Result<Vec<Dead>, Refusal> {
    let mut blocks = Vec::new(alloc);
    add_entries(&OLD, &mut blocks)?;
    add_blocks(tree, cut, &mut blocks)?;
    add_entries(&YOUNG, &mut blocks)?;
    Ok(blocks)
}

/// The young list, the tree after a group, and the old list, added in this order.
fn work_of(alloc: Global, tree: &Tree, cut: Group) -> Result<Work, Refusal> {
    let mut work = Work::new(alloc);
    work.add_dead(list_of(alloc, &YOUNG)?, SECOND)?;
    work.add_tree(alloc, tree, cut)?;
    work.add_dead(list_of(alloc, &OLD)?, Group(1))?;
    Ok(work)
}

fn sliced(freeing: &Freeing, n: u64) -> Result<Slice, Refusal> {
    freeing.slice(n, &mut meter(), &mut segment_meter())
}

/// Whether these blocks are to be freed, in this order, and no other.
fn has(freeing: &Freeing, blocks: &[Dead]) -> Result<bool, Refusal> {
    let all = sliced(freeing, u64::MAX)?;
    let is_empty = all.rest.len() == 0 && sliced(&all.rest, 1)?.taken.is_empty();
    Ok(is_empty && all.taken.as_slice() == blocks && freeing.len() == blocks.len() as u64)
}

/// Whether a slice has so many of the blocks, or all where they are fewer, and the others are left.
fn is_sliced(freeing: &Freeing, n: usize, blocks: &[Dead]) -> Result<bool, Refusal> {
    let (low, high) = blocks.split_at(n.min(blocks.len()));
    let slice = sliced(freeing, n as u64)?;
    Ok(slice.taken.as_slice() == low && has(&slice.rest, high)? && has(freeing, blocks)?)
}

/// Whether so many blocks of the tree are younger than a group, and slices of each size are right.
fn are_sliced(alloc: Global, cut: Group, count: usize) -> Result<bool, Refusal> {
    let tree = tree_of(alloc)?;
    let blocks = blocks_of(alloc, &tree, cut)?;
    let work = work_of(alloc, &tree, cut)?;
    for n in 0..20usize {
        if !is_sliced(&work.freeing, n, &blocks)? {
            return Ok(false);
        }
    }
    Ok(blocks.len() == count.saturating_add(5))
}

#[test]
fn slices_have_the_youngest_blocks_of_a_tree(rt: HostRuntime) {
    for (cut, count) in [(4u64, 10usize), (5, 6), (6, 6), (7, 0)] {
        assert!(rt;
            are_sliced(rt.alloc(), Group(cut), count) == Ok(true),
            "after {cut}"
        );
    }
}

/// Whether slices of a size, one after the other, have all blocks.
fn is_freed_by(freeing: Freeing, n: usize, blocks: &[Dead]) -> Result<bool, Refusal> {
    let mut rest = freeing;
    for part in blocks.chunks(n.max(1)) {
        let slice = sliced(&rest, n as u64)?;
        if slice.taken.as_slice() != part {
            return Ok(false);
        }
        rest = slice.rest;
    }
    has(&rest, &[])
}

fn are_freed_by(alloc: Global, n: usize) -> Result<bool, Refusal> {
    let tree = tree_of(alloc)?;
    let blocks = blocks_of(alloc, &tree, FIRST)?;
    let work = work_of(alloc, &tree, FIRST)?;
    is_freed_by(work.freeing, n, &blocks)
}

#[test]
fn slices_in_turn_have_all_blocks(rt: HostRuntime) {
    for n in 1..12usize {
        assert!(rt; are_freed_by(rt.alloc(), n) == Ok(true), "by {n}");
    }
}

/// Whether a slice of all visits the tree's six younger blocks and one that is no younger, and the one segment of each list.
fn is_metered(alloc: Global) -> Result<bool, Refusal> {
    let tree = tree_of(alloc)?;
    let work = work_of(alloc, &tree, FIRST)?;
    let (mut nodes, mut segments) = (meter(), segment_meter());
    let _all = work.freeing.slice(20, &mut nodes, &mut segments)?;
    Ok(nodes.count() == 7 && segments.count() == 2)
}

#[test]
fn a_slice_is_metered(rt: HostRuntime) {
    assert!(rt; is_metered(rt.alloc()) == Ok(true));
}

/// Whether a copy stays as it was when more is added beside it, and slices of either leave both.
fn is_copied(alloc: Global) -> Result<bool, Refusal> {
    let tree = tree_of(alloc)?;
    let blocks = blocks_of(alloc, &tree, FIRST)?;
    let mut work = work_of(alloc, &tree, FIRST)?;
    let copy = work.copy()?;
    work.add_dead(list_of(alloc, &[(80, 1)])?, Group(0))?;
    let mut more = Vec::new(alloc);
    add_entries(&[(80, 1)], &mut more)?;
    more.extend_from_slice(&blocks)?;
    Ok(is_sliced(&work.freeing, 5, &more)? && is_sliced(&copy.freeing, 5, &blocks)?)
}

#[test]
fn a_copy_stays_as_it_was(rt: HostRuntime) {
    assert!(rt; is_copied(rt.alloc()) == Ok(true));
}

//! Trees as they are written into images.
ghost use Rattle.std.specs.Prelude.{IsTrue, OnOk};
ghost use Rattle.image.specs.Image.{IsOpen, AreAllOpen};
ghost use Rattle.tree.specs.Asking.{AllowsChange};

use crate::images::paths::{fresh, is_walked, leaf_of};
use base::number::{BlockNo, Group, Key};
use base::refusal::Refusal;
use image::{Image, blocks_of};
use std::alloc::Global;
use std::process::Abort;
use tree::{Block, Draft, Tree, Update};
use tree_tests::ready::{is_batch, is_ready, meter};
use zalloc::{Allocator, BlockState};

/// Asserts what a change in a group asks of its caller.
fn assert_asked(
    rt: &impl Abort,
    alloc: Global,
    tree: &Tree,
    updates: &[Update],
    group: Group,
    allocator: &Allocator,
) -> Result<(), Refusal>
    ensures { OnOk result (AllowsChange tree.now updates.now group.0 group.0 allocator.now) }
{
    assert!(rt; is_batch(updates));
    assert!(rt; is_ready(alloc, tree, allocator, group)?);
    Ok(())
}

/// Writes leaf 0 of a tree in a group.
fn change(
    rt: &impl Abort,
    alloc: Global,
    tree: &mut Tree,
    bytes: &[u8; 512],
    group: Group,
    allocator: &Allocator,
) -> Result<Draft, Refusal> {
    let updates = [Update::Write { leaf: 0, bytes }];
    assert_asked(rt, alloc, tree, &updates, group, allocator)?;
    let mut draft = Draft::new(alloc);
    tree.draft(alloc, &updates, group, allocator, &mut meter(), &mut draft)?;
    tree.put(alloc, &updates, group, &mut draft, &mut meter())?;
    Ok(draft)
}

/// Takes a number, if it is Free.
fn occupy(allocator: &mut Allocator, number: BlockNo) {
    match allocator.state(number) {
        Some(BlockState::Free) => allocator.take(number),
        _ => {}
    }
}

/// Whether a number may be written.
fn is_open(image: &Image, number: BlockNo) -> bool
    ensures { IsTrue result → IsOpen image.now.kept number.0 }
{
    match image.kept().state(number) {
        Some(BlockState::Free) => true,
        _ => false,
    }
}

/// Whether the number of each of these blocks may be.
fn are_open(image: &Image, blocks: &[(BlockNo, [u8; 512])]) -> bool
    ensures { IsTrue result → AreAllOpen image.now.kept blocks.now }
{
    for block in blocks {
        if !is_open(image, block.0) {
            return false;
        }
    }
    true
}

/// Writes leaf 0 of a tree in a group, and what that made into an image.
fn step(
    rt: &impl Abort,
    alloc: Global,
    tree: &mut Tree,
    image: &mut Image,
    byte: u8,
    group: Group,
    allocator: &mut Allocator,
) -> Result<(), Refusal> {
    let done = change(rt, alloc, tree, &leaf_of(byte), group, allocator)?;
    for number in done.taken.as_slice() {
        occupy(allocator, *number);
    }
    let blocks = blocks_of(alloc, tree, done.made.as_slice(), &mut meter())?;
    assert!(rt; blocks.len() == done.made.len() && are_open(image, blocks.as_slice()));
    image.write_all(blocks.as_slice());
    Ok(())
}

/// Whether the walk from the root of a tree gives leaf 0 with this byte alone.
fn holds(image: &Image, tree: &Tree, byte: u8) -> bool {
    match tree.root(&mut meter()) {
        Some(root) => is_walked(image, root, byte),
        None => false,
    }
}

/// The level of the block that a tree tells at a key of a level over leaf 0, or None where it is another kind of block.
fn level_told(tree: &Tree, level: u8) -> Option<u8> {
    match tree.block(Key { level, index: 0 }, &mut meter()) {
        Some(Block::Contents(_)) => Some(0),
        Some(Block::Pointers { level, roots: _ }) => Some(level),
        None => None,
    }
}

/// Whether a tree tells a block at each level over leaf 0, and where they are.
fn is_told(tree: &Tree) -> bool {
    let path = tree.path(0, &mut meter());
    let levels = (0..6u8).all(|level| level_told(tree, level) == Some(level)
        && path[level as usize].is_some());
    levels && path[5] == tree.root(&mut meter())
}

/// The image of a tree that two changes made, the second on a copy, has both.
#[test]
fn both_trees_are_walked(rt: HostRuntime) {
    let alloc = rt.alloc();
    let mut allocator = Allocator::new(alloc, 1000).expect(&rt, "memory for the states");
    let mut image = fresh(&rt, alloc);
    let mut tree = Tree::new();
    assert!(rt; tree.root(&mut meter()).is_none() && level_told(&tree, 5).is_none());
    step(
        &rt,
        alloc,
        &mut tree,
        &mut image,
        0x61,
        Group(1),
        &mut allocator,
    )
    .expect(&rt, "a change");
    let old = tree.copy().expect(&rt, "a copy");
    step(
        &rt,
        alloc,
        &mut tree,
        &mut image,
        0x62,
        Group(2),
        &mut allocator,
    )
    .expect(&rt, "a change");
    assert!(rt; holds(&image, &old, 0x61) && holds(&image, &tree, 0x62) && is_told(&tree));
}

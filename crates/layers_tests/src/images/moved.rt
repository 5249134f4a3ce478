//! A path that moves, as it is written by where its blocks were and are.
ghost use Rattle.std.specs.Prelude.{IsTrue};
ghost use Rattle.image.specs.PathWrites.{block_on, IsPathOpen, AreSourcesApart};
ghost use Rattle.layers_tests.specs.Split.{IsOld, IsNext};

use crate::images::paths::{TOP, fresh, is_walked, leaf_of, put_steps};
use base::number::{BlockNo, Group};
use image::Image;
use tree::Root;
use zalloc::BlockState;

/// The blocks before this number are those of the old path.
const LIMIT: u32 = 6;

/// Where the six blocks of a path are, from a number on.
fn path_from(first: u32, group: u64) -> [Option<Root>; 6] {
    let mut path = [None; 6];
    for level in 0..6 {
        path[level] = Some(Root {
            block: BlockNo((first % 900) + 5 - level as u32),
            birth: Group(group),
        });
    }
    path
}

/// Whether a block, if there is one, is one of the old path.
fn is_old(image: &Image, root: Option<Root>) -> bool
    ensures { IsTrue result → IsOld image.now.kept root }
{
    match root {
        Some(root) => root.block.0 < LIMIT && image.kept().state(root.block).is_some(),
        None => true,
    }
}

/// Whether a block, if there is one, is none of the old path, and may be written.
fn is_next(image: &Image, root: Option<Root>) -> bool
    ensures { IsTrue result → IsNext image.now.kept root }
{
    let Some(root) = root else {
        return true;
    };
    match image.kept().state(root.block) {
        Some(BlockState::Free) => root.block.0 >= LIMIT,
        _ => false,
    }
}

/// Whether a path moves from among the old blocks to numbers that may be written.
#[tactic(auto, using(crate::proofs::Splits::one_level))]
fn is_moved(image: &Image, before: &[Option<Root>; 6], after: &[Option<Root>; 6]) -> bool
    ensures open { IsTrue result → IsPathOpen image.now.kept (block_on before.now) (block_on after.now) }
    ensures apart { IsTrue result → AreSourcesApart (block_on before.now) (block_on after.now) }
{
    for level in 0..6 {
        if !is_old(image, before[level]) || !is_next(image, after[level]) {
            return false;
        }
    }
    true
}

/// Writes a path as it is after a move, if it may be written.
fn move_path(
    image: &mut Image,
    before: &[Option<Root>; 6],
    after: &[Option<Root>; 6],
    byte: u8,
) -> bool {
    let moves = is_moved(image, before, after);
    if moves {
        image.write_path(0, before, after, &leaf_of(byte));
    }
    moves
}

/// The old path stays, and the new one is its copy with another leaf.
#[test]
fn both_paths_are_walked(rt: HostRuntime) {
    let mut image = fresh(&rt, rt.alloc());
    let (before, after) = (path_from(0, 1), path_from(6, 2));
    let written = put_steps(&mut image, 0, 1, 0x61, 6)
        && move_path(&mut image, &before, &after, 0x62);
    let next = Root {
        block: BlockNo(6),
        birth: Group(2),
    };
    assert!(rt; written && is_walked(&image, TOP, 0x61) && is_walked(&image, next, 0x62));
}

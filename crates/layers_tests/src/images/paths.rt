//! Paths of blocks, as they are written and walked.
ghost use Rattle.std.specs.Prelude.{◌≡◌, length};
ghost use Rattle.tree.specs.Bytes.{IsOfTree};

use base::number::{BlockNo, Group};
use image::Image;
use std::alloc::Global;
use std::process::Abort;
use tree::{Block, Root};
use zalloc::BlockState;

/// The root of a path of six blocks, numbered from the root down.
pub const TOP: Root = Root {
    block: BlockNo(0),
    birth: Group(1),
};

/// The first pointer of its topmost block: to number 1, born in group 1, at level 4.
const POINTER: [u8; 32] = [
    0, 0, 0, 0, 0, 0, 0, 2, 0, 0, 0, 0, 0, 0, 0, 1, 0, 0, 0, 0, 0, 0, 0, 4, 0, 0, 0, 0, 0, 0, 0, 0,
];

/// An image of 1,000 blocks.
pub fn fresh(rt: &impl Abort, alloc: Global) -> Image
    ensures { length result.kept ≡ 1000 }
{
    Image::new(alloc, 1000).expect(rt, "memory for an image")
}

/// A leaf that begins with a byte, with zeros behind it.
pub fn leaf_of(byte: u8) -> [u8; 512] {
    let mut bytes = [0; 512];
    bytes[0] = byte;
    bytes
}

/// Writes a block at a number, if the kept states don't have it Allocated.
pub fn put(image: &mut Image, number: u32, block: &Block<'_>) -> bool
    requires { IsOfTree block.now }
    ensures { image.new.kept ≡ image.old.kept }
{
    match image.kept().state(BlockNo(number)) {
        Some(BlockState::Free) => {
            image.write(BlockNo(number), block);
            true
        }
        _ => false,
    }
}

/// Writes a block of a path, whose blocks are born in a group and numbered from one on: the leaf at step 0, the root at step 5.
pub fn put_step(image: &mut Image, first: u32, group: u64, byte: u8, step: u8) -> bool
    ensures { image.new.kept ≡ image.old.kept }
{
    if step > 5 || first > 900 {
        return false;
    }
    let number = first + 5 - u32::from(step);
    if step == 0 {
        return put(image, number, &Block::Contents(&leaf_of(byte)));
    }
    let mut roots = [None; 16];
    roots[0] = Some(Root {
        block: BlockNo(number + 1),
        birth: Group(group),
    });
    put(image, number, &Block::Pointers { level: step, roots })
}

/// Writes the first steps of a path.
pub fn put_steps(image: &mut Image, first: u32, group: u64, byte: u8, steps: u8) -> bool
    ensures { image.new.kept ≡ image.old.kept }
{
    let mut done = true;
    for step in 0..steps {
        done &= put_step(image, first, group, byte, step);
    }
    done
}

/// Whether the walk from a root gives leaf 0 with this byte and zeros, alone.
pub fn is_walked(image: &Image, root: Root, byte: u8) -> bool {
    match image.read_tree(Some(root)) {
        Ok(leaves) => match leaves.as_slice() {
            [leaf] => leaf.0 == 0 && leaf.1 == leaf_of(byte),
            _ => false,
        },
        Err(_) => false,
    }
}

/// Whether the walk from no root gives no leaf.
fn is_none_empty(image: &Image) -> bool {
    match image.read_tree(None) {
        Ok(leaves) => leaves.is_empty(),
        Err(_) => false,
    }
}

/// Whether these are six blocks, of which the first begins with that pointer and fifteen to no block.
fn are_six(bytes: &[u8]) -> bool {
    bytes.len() == 3072
        && bytes.starts_with(&POINTER)
        && bytes[32..512].iter().all(|byte| *byte == 0)
}

#[test]
fn a_path_is_walked(rt: HostRuntime) {
    let mut image = fresh(&rt, rt.alloc());
    assert!(rt; image.bytes().is_empty() && is_none_empty(&image) && image.keeps() == 0);
    let written = put_steps(&mut image, 0, 1, 0x61, 6);
    assert!(rt; written && are_six(image.bytes()) && is_walked(&image, TOP, 0x61));
}

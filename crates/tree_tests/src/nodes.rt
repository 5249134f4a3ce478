//! Nodes by themselves: a leaf, and a node with one leaf.
ghost use Rattle.std.specs.Prelude.{◌<◌, ◌≤◌, ◌^◌};

use crate::ready::meter;
use base::number::{BlockNo, Group};
use node::{
    Inner, Leaf, Level, Pair, Same, keep, kid_at, no_kids, owner_at, owner_count, owner_in,
    place_count, replace_kid, same_kid, span,
};
use std::alloc::Global;
use std::process::Abort;
use std::sync::Arc;

/// An owner of a leaf that is filled with a byte.
fn leaf_with(rt: &impl Abort, alloc: Global, byte: u8) -> Arc<Leaf> {
    Arc::new(alloc, Leaf::new(BlockNo(8), Group(5), [byte; 512])).expect(rt, "memory for a leaf")
}

/// A node with such a leaf at place 3, and nothing else.
fn node_with(rt: &impl Abort, alloc: Global, byte: u8) -> Inner<Leaf> {
    let mut kids = no_kids();
    replace_kid(&mut kids, 3, Some(leaf_with(rt, alloc, byte)));
    Inner::new(BlockNo(9), Group(6), kids)
}

/// Whether this block stands so far below the node, or none where that is None, and so many nodes are reached.
fn is_found(
    rt: &impl Abort,
    alloc: Global,
    depth: u32,
    at: u32,
    block: Option<BlockNo>,
    reached: u64,
) -> bool
    requires shallow { depth ≤ 5 }
    requires covered { at < 16 ^ depth }
{
    let mut meter = meter();
    let node = node_with(rt, alloc, 7);
    let found = match node.find(depth, at, &mut meter) {
        Some(cell) => block == Some(cell.block),
        None => block.is_none(),
    };
    drop(node);
    found && meter.count() == reached
}

#[test]
fn cells_below(rt: HostRuntime) {
    assert!(rt; is_found(&rt, rt.alloc(), 0, 0, Some(BlockNo(9)), 1));
    assert!(rt; is_found(&rt, rt.alloc(), 1, 3, Some(BlockNo(8)), 2));
    assert!(rt; is_found(&rt, rt.alloc(), 1, 4, None, 1));
}

/// Whether the bytes are a whole block of this one, or both are missing.
fn is_filled(bytes: Option<&[u8; 512]>, byte: Option<u8>) -> bool {
    match (bytes, byte) {
        (Some(bytes), Some(byte)) => *bytes == [byte; 512],
        (None, None) => true,
        _ => false,
    }
}

/// Whether a node's own cell and block are these.
fn is_cell<N: Level>(node: &N, block: u32, birth: u64, byte: Option<u8>) -> bool {
    let own = node.block();
    let cell = node.cell();
    own.block == BlockNo(block)
        && own.birth == Group(birth)
        && cell.block == own.block
        && cell.birth == own.birth
        && is_filled(cell.bytes, byte)
}

fn is_leaf_cell(rt: &impl Abort, alloc: Global) -> bool {
    is_cell(&*leaf_with(rt, alloc, 7), 8, 5, Some(7))
}

fn is_node_cell(rt: &impl Abort, alloc: Global) -> bool {
    is_cell(&node_with(rt, alloc, 7), 9, 6, None)
}

#[test]
fn own_cells(rt: HostRuntime) {
    assert!(rt; is_leaf_cell(&rt, rt.alloc()) && is_node_cell(&rt, rt.alloc()));
}

/// How many blocks of a leaf born in group 5 were born after a group.
fn gathered(rt: &impl Abort, alloc: Global, cut: Group) -> usize {
    let leaf = Leaf::new(BlockNo(8), Group(5), [7; 512]);
    let mut out = Vec::new(alloc);
    leaf.gather(cut, &mut out, &mut meter())
        .expect(rt, "memory for a block");
    out.len()
}

#[test]
fn leaf_is_gathered(rt: HostRuntime) {
    assert!(rt;
        gathered(&rt, rt.alloc(), Group(4)) == 1 && gathered(&rt, rt.alloc(), Group(5)) == 0
    );
}

/// Whether a place of the node has anything, as each look at it tells.
fn has_kid(rt: &impl Abort, alloc: Global, place: usize) -> bool
    requires { place < 16 }
{
    let node = Arc::new(alloc, node_with(rt, alloc, 7)).expect(rt, "memory for a node");
    let there = node.kid(place).is_some();
    let agree = node.owner(place).is_some() == there
        && owner_at(Some(&node), place).is_some() == there
        && node.place_count() == 16
        && owner_count(Some(&node)) == 16;
    drop(node);
    assert!(rt; agree);
    there
}

#[test]
fn places(rt: HostRuntime) {
    assert!(rt; has_kid(&rt, rt.alloc(), 3) && !has_kid(&rt, rt.alloc(), 2));
    assert!(rt; owner_count::<Leaf>(None) == 16);
}

/// The bytes of the leaves at the first four places, with 0 where there is none.
fn bytes_at(kids: &[Pair<Leaf>; 8]) -> [u8; 4] {
    let mut found = [0; 4];
    for place in 0..4 {
        if let Some(leaf) = kid_at(kids, place) {
            found[place] = leaf.bytes[0];
        }
    }
    found
}

/// Puts a leaf that is filled with a byte at a place, and answers the byte of the one that stood there.
fn put(
    rt: &impl Abort,
    alloc: Global,
    kids: &mut [Pair<Leaf>; 8],
    place: usize,
    byte: u8,
) -> Option<u8>
    requires { place < 16 }
{
    let gone = replace_kid(kids, place, Some(leaf_with(rt, alloc, byte)));
    gone.map(|leaf| leaf.bytes[0])
}

#[test]
fn pairs(rt: HostRuntime) {
    let mut kids = no_kids();
    assert!(rt; bytes_at(&kids) == [0, 0, 0, 0]);
    assert!(rt; put(&rt, rt.alloc(), &mut kids, 2, 7).is_none() && bytes_at(&kids) == [0, 0, 7, 0]);
    assert!(rt; put(&rt, rt.alloc(), &mut kids, 3, 8).is_none() && bytes_at(&kids) == [0, 0, 7, 8]);
    assert!(rt; put(&rt, rt.alloc(), &mut kids, 1, 9).is_none() && bytes_at(&kids) == [0, 9, 7, 8]);
    assert!(rt;
        put(&rt, rt.alloc(), &mut kids, 3, 5) == Some(8) && bytes_at(&kids) == [0, 9, 7, 5]
    );
    let gone = replace_kid(&mut kids, 2, None);
    assert!(rt; gone.is_some() && bytes_at(&kids) == [0, 9, 0, 5] && place_count(&kids) == 16);
    let copy = kids[1].copy().expect(&rt, "memory to share");
    let same = match copy {
        Pair::Right(leaf) => leaf.bytes[0] == 5,
        _ => false,
    };
    assert!(rt; same);
}

/// Whether one more owner of a leaf has the same leaf as a place with this byte.
fn is_kept_as(rt: &impl Abort, alloc: Global, byte: u8) -> bool {
    let slot = Some(leaf_with(rt, alloc, 7));
    let kept = keep(owner_in(&slot)).expect(rt, "memory to share");
    let other = Some(leaf_with(rt, alloc, byte));
    same_kid(owner_in(&kept), owner_in(&other))
}

/// Whether a node with leaves of sevens is the same as one with leaves of this byte.
fn is_like(rt: &impl Abort, alloc: Global, byte: u8) -> bool {
    node_with(rt, alloc, 7).same(&node_with(rt, alloc, byte))
}

#[test]
fn same_nodes(rt: HostRuntime) {
    assert!(rt;
        is_kept_as(&rt, rt.alloc(), 7)
            && !is_kept_as(&rt, rt.alloc(), 8)
            && is_like(&rt, rt.alloc(), 7)
            && !is_like(&rt, rt.alloc(), 8)
    );
}

#[test]
fn spans(rt: HostRuntime) {
    assert!(rt; span(0) == 1 && span(1) == 16 && span(2) == 256);
    assert!(rt; span(3) == 4096 && span(4) == 65536 && span(5) == 1048576);
}

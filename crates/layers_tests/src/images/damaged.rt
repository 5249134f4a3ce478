//! Images that are damaged, and bytes that are none.
use crate::images::paths::{TOP, fresh, put_steps};
use base::refusal::Refusal;
use image::Image;
use std::alloc::Global;
use std::process::Abort;

/// Sets a byte at a place.
fn set(bytes: &mut [u8], change: (usize, u8)) {
    if change.0 < bytes.len() {
        bytes[change.0] = change.1;
    }
}

/// What the walk of a path of six blocks is once two bytes of the topmost block were changed: the number of leaves, or the refusal.
fn damaged(
    rt: &impl Abort,
    alloc: Global,
    one: (usize, u8),
    other: (usize, u8),
) -> Result<usize, Refusal> {
    let mut image = fresh(rt, alloc);
    assert!(rt; put_steps(&mut image, 0, 1, 0x61, 6));
    let mut bytes = Vec::from_slice(alloc, image.bytes()).expect(rt, "memory for the bytes");
    bytes.resize(512000, 0).expect(rt, "memory for the bytes");
    set(&mut bytes, one);
    set(&mut bytes, other);
    let image = Image::from_bytes(bytes).expect(rt, "an image of these bytes");
    Ok(image.read_tree(Some(TOP))?.len())
}

/// Whether the bytes are refused as no image.
fn is_none(bytes: Vec<u8>) -> bool {
    match Image::from_bytes(bytes) {
        Ok(_) => false,
        Err(refusal) => refusal == Refusal::TooMany,
    }
}

#[test]
fn broken_pointers_are_refused(rt: HostRuntime) {
    let alloc = rt.alloc();
    // the level 3 for 4, the birth 2 for 1, the number field 1001, a byte of the tail, one of a pointer to no block
    for damage in [
        ((23, 3), (23, 3)),
        ((15, 2), (15, 2)),
        ((6, 3), (7, 233)),
        ((31, 1), (31, 1)),
        ((47, 1), (47, 1)),
    ] {
        assert!(rt; damaged(&rt, alloc, damage.0, damage.1) == Err(Refusal::BadStream));
    }
}

/// The number field 1000 names the last block, which was never written and so points to nothing.
#[test]
fn an_unwritten_block_has_no_leaf(rt: HostRuntime) {
    assert!(rt; damaged(&rt, rt.alloc(), (6, 3), (7, 232)) == Ok(0));
}

#[test]
fn other_sizes_are_no_image(rt: HostRuntime) {
    let alloc = rt.alloc();
    let mut bytes = Vec::new(alloc);
    bytes.resize(513, 0).expect(&rt, "memory for the bytes");
    assert!(rt; is_none(Vec::new(alloc)) && is_none(bytes));
}

//! Memory that is refused. Each test passes whichever allocation is the one that fails.
use crate::images::paths::{TOP, put_steps};
use base::refusal::Refusal;
use image::Image;
use std::alloc::Global;

/// Whether a walk gives one leaf, or is refused memory.
fn walked_or_refused(image: &Image) -> bool {
    match image.read_tree(Some(TOP)) {
        Ok(leaves) => leaves.len() == 1,
        Err(refusal) => refusal == Refusal::NoMemory,
    }
}

/// Whether an image of these bytes is there, or was refused memory.
fn read_or_refused(bytes: Vec<u8>) -> bool {
    match Image::from_bytes(bytes) {
        Ok(image) => walked_or_refused(&image),
        Err(refusal) => refusal == Refusal::NoMemory,
    }
}

/// Whether a path is written and walked, and its bytes are read, or memory was refused.
fn is_done_or_refused(alloc: Global) -> bool {
    let Ok(mut image) = Image::new(alloc, 1000) else {
        return true;
    };
    let fine = put_steps(&mut image, 0, 1, 0x61, 6) && walked_or_refused(&image);
    match Vec::from_slice(alloc, image.bytes()) {
        Ok(bytes) => fine && read_or_refused(bytes),
        Err(_) => fine,
    }
}

#[test]
fn refused_memory_is_told(rt: HostRuntime) {
    assert!(rt; is_done_or_refused(rt.alloc()));
}

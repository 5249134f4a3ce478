//! Images as a writer gets them.
use crate::images::paths::{TOP, fresh, is_walked, put_steps};
use image::Image;
use std::alloc::Global;
use std::process::Abort;

/// The bytes that an image writes.
fn written(rt: &impl Abort, alloc: Global, image: &Image) -> Vec<u8> {
    let mut bytes = Vec::new(alloc);
    image
        .write_to(&mut bytes)
        .expect(rt, "memory for the bytes");
    bytes
}

/// An image of 1,000 blocks of which six were written is 512,000 bytes, and the image that is read from them has the same path.
#[test]
fn an_image_is_read_back(rt: HostRuntime) {
    let mut image = fresh(&rt, rt.alloc());
    assert!(rt; image.block_count() == 1000 && put_steps(&mut image, 0, 1, 0x61, 6));
    let bytes = written(&rt, rt.alloc(), &image);
    assert!(rt; bytes.len() == 512000 && bytes.starts_with(image.bytes()));
    let read = Image::from_bytes(bytes).expect(&rt, "an image of these bytes");
    assert!(rt; read.block_count() == 1000 && is_walked(&read, TOP, 0x61));
}

/// One whose last block was never written has zeros there.
#[test]
fn a_new_image_is_zeros(rt: HostRuntime) {
    let bytes = written(&rt, rt.alloc(), &fresh(&rt, rt.alloc()));
    assert!(rt; bytes.len() == 512000 && bytes.iter().all(|byte| *byte == 0));
}

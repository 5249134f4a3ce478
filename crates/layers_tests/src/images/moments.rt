//! The last synced world at each moment of a step's writes.
ghost use Rattle.std.specs.Prelude.{◌≡◌, length};

use crate::images::paths::{TOP, fresh, is_walked, put_steps};
use base::number::{BlockNo, Group};
use image::Image;
use std::alloc::Global;
use std::process::Abort;
use tree::Root;
use zalloc::{Allocator, BlockState};

/// The root of the path that the step writes.
const NEXT: Root = Root {
    block: BlockNo(6),
    birth: Group(2),
};

/// Takes a number, if it is Free.
fn occupy(states: &mut Allocator, number: BlockNo)
    ensures { length states.new ≡ length states.old }
{
    match states.state(number) {
        Some(BlockState::Free) => states.take(number),
        _ => {}
    }
}

/// States of 1,000 numbers of which the first six are Allocated.
fn synced(rt: &impl Abort, alloc: Global) -> Allocator
    ensures { length result ≡ 1000 }
{
    let mut states = Allocator::new(alloc, 1000).expect(rt, "memory for the states");
    for number in 0..6 {
        occupy(&mut states, BlockNo(number));
    }
    states
}

/// An image whose kept states are those after a path was written and synced.
fn synced_image(rt: &impl Abort, alloc: Global) -> Image {
    let mut image = fresh(rt, alloc);
    assert!(rt; put_steps(&mut image, 0, 1, 0x61, 6));
    let before = image.keep(synced(rt, alloc));
    assert!(rt;
        image.keeps() == 1 && before.counts().free == 1000 && image.kept().counts().allocated == 6
    );
    image
}

#[test]
fn the_synced_path_is_walked_at_each_moment(rt: HostRuntime) {
    for moment in 0..7 {
        let mut image = synced_image(&rt, rt.alloc());
        let written = put_steps(&mut image, 6, 2, 0x62, moment);
        assert!(rt; written && is_walked(&image, TOP, 0x61));
        assert!(rt; is_walked(&image, NEXT, 0x62) == (moment == 6));
    }
}

/// The blocks that are kept aren't written.
#[test]
fn kept_blocks_are_refused(rt: HostRuntime) {
    let mut image = synced_image(&rt, rt.alloc());
    assert!(rt; !put_steps(&mut image, 0, 2, 0x62, 6) && is_walked(&image, TOP, 0x61));
}

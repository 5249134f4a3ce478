//! The elements of a spine, one after the other.
ghost use Rattle.std.specs.Prelude.{◌≡◌};
ghost use Rattle.shared_list.specs.Elements.{elements};
ghost use Rattle.shared_list.specs.Ahead.{ahead};

use crate::chunk::Chunk;
use std::sync::Arc;

/// An iterator over the elements of a spine, first to last, each in constant time. Contracts see the elements that are left as `ahead`.
#[derive(Drop)]
pub struct SpineIter<'a, T> {
    here: &'a [Arc<T>],
    chunks: &'a [Arc<Chunk<T>>],
}

impl<'a, T: Drop> SpineIter<'a, T> {
    pub(crate) fn new(chunks: &'a [Arc<Chunk<T>>]) -> SpineIter<'a, T>
        ensures { ahead result ≡ elements chunks.now }
    {
        SpineIter { here: &[], chunks }
    }
}

impl<'a, T: Drop> Iterator for SpineIter<'a, T> {
    type Item = &'a T;

    ghost use Rattle.std.specs.Iterator.{YieldsFirstRef, item_count};
    ghost use Rattle.shared_list.specs.Ahead.{ahead};

    ghost next_gives = { YieldsFirstRef ahead };

    ghost remaining = { item_count ahead };

    fn next(&mut self) -> Option<&'a T> {
        loop {
            if let [first, rest @ ..] = self.here {
                self.here = rest;
                return Some(first);
            }
            let [chunk, rest @ ..] = self.chunks else {
                return None;
            };
            self.here = chunk.items();
            self.chunks = rest;
        }
    }
}

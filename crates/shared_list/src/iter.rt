//! The elements of a shared list, one after the other.
ghost use Rattle.std.specs.Prelude.{◌≡◌};
ghost use Rattle.shared_list.specs.Ahead.{ahead};
ghost use Rattle.shared_list.specs.Elements.{flattened};
ghost use Rattle.shared_list.specs.Left.{left};

use crate::chunk::Chunk;
use crate::spine::SpineIter;
use std::sync::Arc;

/// An iterator over the elements of a shared list, first to last, each in constant time. Contracts see the elements that are left as `left`.
#[derive(Drop)]
pub struct Iter<'a, T> {
    here: &'a [Arc<T>],
    chunks: SpineIter<'a, Chunk<T>>,
}

impl<'a, T: Drop> Iter<'a, T> {
    pub(crate) fn new(chunks: SpineIter<'a, Chunk<T>>) -> Iter<'a, T>
        ensures { left result ≡ flattened (ahead chunks.entry) }
    {
        Iter { here: &[], chunks }
    }
}

impl<'a, T: Drop> Iterator for Iter<'a, T> {
    type Item = &'a T;

    ghost use Rattle.std.specs.Iterator.{YieldsFirstRef, item_count};
    ghost use Rattle.shared_list.specs.Left.{left};

    ghost next_gives = { YieldsFirstRef left };

    ghost remaining = { item_count left };

    fn next(&mut self) -> Option<&'a T> {
        loop {
            if let [first, rest @ ..] = self.here {
                self.here = rest;
                return Some(first);
            }
            let chunk = self.chunks.next()?;
            self.here = chunk.items();
        }
    }
}

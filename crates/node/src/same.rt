//! Comparisons of parts of a tree.
ghost use Rattle.std.specs.Prelude.{◌≡◌, ◌↔◌, IsTrue};
ghost use Rattle.node.specs.Node.{part_of_owner, shared_part};
ghost use Rattle.node.specs.Pairs.{places_in};
ghost use Rattle.node.specs.Shape.{forest_of};

use crate::leaf::Leaf;
use crate::node::{Inner, Level};
use crate::pair::{Pair, kid_at, place_count};
use std::sync::Arc;

/// A level whose nodes can be compared.
pub trait Same: Level {
    /// Whether the other node and those below it have the same cells at the same places.
    fn same(&self, other: &Self) -> bool
        ensures { IsTrue result ↔ (Self.part self.now ≡ Self.part other.now) };
}

/// Whether two places have equal nodes, or both have none.
pub fn same_kid<C: Same>(one: Option<&Arc<C>>, other: Option<&Arc<C>>) -> bool
    ensures { IsTrue result ↔ (part_of_owner C.part one.entry ≡ part_of_owner C.part other.entry) }
{
    match (one, other) {
        (Some(one), Some(other)) => one.same(other),
        (None, None) => true,
        _ => false,
    }
}

/// Whether both have equal nodes at all sixteen places.
fn same_kids<C: Same>(one: &[Pair<C>; 8], other: &[Pair<C>; 8]) -> bool
    ensures { IsTrue result ↔ (forest_of (shared_part C.part) (places_in one.now) ≡ forest_of (shared_part C.part) (places_in other.now)) }
{
    for place in 0..place_count(one) {
        if !same_kid(kid_at(one, place as usize), kid_at(other, place as usize)) {
            return false;
        }
    }
    true
}

impl Same for Leaf {
    fn same(&self, other: &Leaf) -> bool {
        self.block == other.block && self.birth == other.birth && self.bytes == other.bytes
    }
}

impl<C: Same> Same for Inner<C> {
    fn same(&self, other: &Inner<C>) -> bool {
        self.block == other.block && self.birth == other.birth && same_kids(&self.kids, &other.kids)
    }
}

//! The nodes, one type for each level.
ghost use Rattle.std.specs.Prelude.{◌≡◌, ℕ, ◌<◌, ◌≤◌, ◌+◌, ◌*◌, ◌/◌, ◌%◌, ◌-◌, ◌^◌, Option, Some, None, suc, OnOk, ◌++◌, length, slice_index_or, map};
ghost use Rattle.std.specs.Option.{option_map};
ghost use Rattle.base.specs.Counting.{counted};
ghost use Rattle.base.specs.Surveys.{dead_block};
ghost use Rattle.node.specs.Shape.{Part, cell_below, steps_below};
ghost use Rattle.node.specs.Cells.{cell_of, dead_of};
ghost use Rattle.node.specs.Kid.{IsSound};
ghost use Rattle.node.specs.Pairs.{places_in};
ghost use Rattle.node.specs.Walk.{born_after, part_blocks};

use crate::cell::Cell;
use crate::leaf::Leaf;
use crate::pair::{Pair, kid_at, place_count, read_counts};
use base::meter::Meter;
use base::number::{BlockNo, Dead, Group};
use std::alloc::AllocError;
use std::sync::Arc;

/// A node of one level, with the nodes below it.
pub trait Level {
    ghost part: { Self → Part };

    ghost height: { ℕ };

    /// The cell at the node's own key.
    fn cell(&self) -> Cell<'_>
        ensures { cell_of result ≡ (part self.now).cell };

    /// The cell `depth` levels below, at index `at` among the keys that the node covers on that level. None where there is no block. The meter
    /// counts each node on the way, this one included.
    fn find(&self, depth: u32, at: u32, meter: &mut Meter) -> Option<Cell<'_>>
        requires shallow { depth ≤ 5 }
        requires covered { at < 16 ^ depth }
        ensures found { option_map cell_of result ≡ cell_below depth (part self.now) at }
        ensures metered { meter.new ≡ counted meter.old (steps_below depth (part self.now) at) }
        ensures never_lower { meter.old ≤ meter.new };

    /// The node's own block.
    fn block(&self) -> Dead
        ensures { result ≡ dead_of (part self.now).cell };

    /// Adds to `out` the blocks of this part of the tree that were born after group `cut`, each before the blocks below it. Below a block that
    /// wasn't born after it, nothing is visited. The meter rises by at least one for each block that is added.
    fn gather(&self, cut: Group, out: &mut Vec<Dead>, meter: &mut Meter) -> Result<(), AllocError>
        requires sound { IsSound height (part self.now) }
        ensures gathered { OnOk result (map dead_block out.new.items ≡ map dead_block out.old.items ++ born_after cut.0 (part_blocks (part self.now))) }
        ensures metered { OnOk result (counted meter.old (length (born_after cut.0 (part_blocks (part self.now)))) ≤ meter.new) }
        ensures never_lower { meter.old ≤ meter.new };
}

/// A block by its number and birth.
pub(crate) fn dead(block: BlockNo, birth: Group) -> Dead
    ensures { result ≡ record { block = block; birth = birth } }
{
    Dead { block, birth }
}

/// Counts one more node.
#[tactic(auto, unfolding(base::specs::Counting::counted, base::specs::Counting::most))]
pub(crate) fn reach(meter: &mut Meter)
    ensures metered { meter.new ≡ counted meter.old 1 }
    ensures never_lower { meter.old ≤ meter.new }
{
    let _reached = meter.count();
    meter.add_one();
}

/// How many keys a node covers on the level `depth` below its own.
pub fn span(depth: u32) -> u32
    requires { depth ≤ 5 }
    ensures { result ≡ 16 ^ depth }
{
    1 << (4 * depth)
}

/// One step from a node down to a key: the place to descend to, and the key's index among those that this place covers.
pub fn step(depth: u32, at: u32) -> (usize, u32)
    requires deep { 0 < depth }
    requires shallow { depth ≤ 5 }
    requires covered { at < 16 ^ depth }
    ensures place { result.0 ≡ at / 16 ^ (depth - 1) }
    ensures within { result.0 < 16 }
    ensures rest { result.1 ≡ at % 16 ^ (depth - 1) }
    ensures rest_covered { result.1 < 16 ^ (depth - 1) }
{
    let span = span(depth - 1);
    ((at / span) as usize, at % span)
}

/// An indirect block, with its sixteen places.
pub struct Inner<C> {
    pub block: BlockNo,
    pub birth: Group,
    pub kids: [Pair<C>; 8],
}

// Written by hand, so that the owner counts of all nodes at its places are read before the first of them is decremented.
impl<C: Drop> Drop for Inner<C> {
    fn drop(self) {
        let Inner {
            block: _,
            birth: _,
            kids,
        } = self;
        read_counts(&kids);
        drop(kids);
    }
}

/// A root node, at level 5.
pub type Root = Inner<Inner<Inner<Inner<Inner<Leaf>>>>>;

impl<C> Inner<C> {
    /// An indirect block with these nodes at its sixteen places.
    pub fn new(block: BlockNo, birth: Group, kids: [Pair<C>; 8]) -> Inner<C>
        ensures { result ≡ record { block = block; birth = birth; kids = kids } }
    {
        Inner { block, birth, kids }
    }

    /// How many places a node has: 16.
    pub fn place_count(&self) -> u32
        ensures sixteen { result ≡ 16 }
        ensures all { length (places_in self.now.kids) ≡ 16 }
    {
        place_count(&self.kids)
    }

    /// The node at a place.
    pub fn kid(&self, place: usize) -> Option<&C>
        requires { place < 16 }
        ensures { option_map (λ k. k.now) result ≡ option_map (λ a. a.value) (slice_index_or (places_in self.now.kids) place None) }
    {
        match kid_at(&self.kids, place) {
            Some(kid) => Some(&**kid),
            None => None,
        }
    }

    /// The owner of the node at a place.
    pub fn owner(&self, place: usize) -> Option<&Arc<C>>
        requires { place < 16 }
        ensures { option_map (λ a. a.now) result ≡ slice_index_or (places_in self.now.kids) place None }
    {
        kid_at(&self.kids, place)
    }
}

impl<C: Level> Level for Inner<C> {
    ghost use Rattle.node.specs.Node.{inner_part};

    ghost part = { inner_part C.part };

    ghost use Rattle.std.specs.Prelude.{suc};

    ghost height = { suc C.height };

    fn cell(&self) -> Cell<'_> {
        Cell {
            block: self.block,
            birth: self.birth,
            bytes: None,
        }
    }

    fn find(&self, depth: u32, at: u32, meter: &mut Meter) -> Option<Cell<'_>> {
        meter.add_one();
        if depth == 0 {
            return Some(self.cell());
        }
        let (place, rest) = step(depth, at);
        match self.owner(place) {
            Some(kid) => kid.find(depth - 1, rest, meter),
            None => None,
        }
    }

    fn block(&self) -> Dead {
        dead(self.block, self.birth)
    }

    fn gather(&self, cut: Group, out: &mut Vec<Dead>, meter: &mut Meter) -> Result<(), AllocError> {
        reach(meter);
        if self.birth.0 <= cut.0 {
            return Ok(());
        }
        out.push(self.block())?;
        for place in 0..self.place_count() {
            if let Some(kid) = self.owner(place as usize) {
                kid.gather(cut, out, meter)?;
            }
        }
        Ok(())
    }
}

//! The blocks of a tree, as they are written.
ghost use Rattle.std.specs.Prelude.{◌≡◌, ℕ, ◌<◌, ◌≤◌, ◌-◌, ◌/◌, ◌^◌, IfSome, IfNone, Some, None, length, map, slice_index_or};
ghost use Rattle.std.specs.FinMap.{get};
ghost use Rattle.std.specs.Option.{OnSome, option_map};
ghost use Rattle.base.specs.Counting.{counted};
ghost use Rattle.base.specs.Map.{block_of};
ghost use Rattle.node.specs.Kid.{places};
ghost use Rattle.node.specs.Node.{inner_part};
ghost use Rattle.node.specs.Shape.{steps_below, cell_below};
ghost use Rattle.tree.specs.Bytes.{made_bytes, maybe_block, bytes_of, root_of, AreBirthsRising, IsOfTree};
ghost use Rattle.tree.specs.Reading.{key_over, present_on_path};
ghost use Rattle.tree.specs.Telling.{part_block, part_bytes, part_below};

use crate::block::{Block, Root};
use crate::build::reach;
use crate::tree::Tree;
use base::meter::Meter;
use base::number::{Dead, Key};
use node::{Inner, Leaf, Level, span, step};

/// The pointer to this block.
fn root_at(dead: Dead) -> Root
    ensures { result ≡ record { block = dead.block; birth = dead.birth } }
{
    Root {
        block: dead.block,
        birth: dead.birth,
    }
}

/// The pointers to the blocks directly below a node.
fn roots_below<C: Level>(node: &Inner<C>) -> [Option<Root>; 16]
    ensures told { map maybe_block result ≡ map (option_map part_block) (places (inner_part C.part node.now).below) }
    ensures sixteen { length result ≡ 16 }
{
    let mut roots = [None; 16];
    for place in 0..node.place_count() {
        if let Some(kid) = node.kid(place as usize) {
            roots[place as usize] = Some(root_at(kid.block()));
        }
    }
    roots
}

/// A level whose nodes give their blocks in the form in which they are written.
trait Tell: Level {
    /// The block `depth` levels below this node, at index `at` among the keys that the node covers on that level, or None where there is none.
    /// `level` is the node's own level.
    fn tell(&self, level: u8, depth: u32, at: u32, meter: &mut Meter) -> Option<Block<'_>>
        requires level { level ≡ Self.height }
        requires low { level ≤ 5 }
        requires shallow { depth ≤ level }
        requires covered { at < 16 ^ depth }
        ensures told { option_map made_bytes result ≡ option_map (part_bytes (level - depth)) (part_below depth (Self.part self.now) at) }
        ensures of_tree { IfSome result IsOfTree }
        ensures metered { meter.new ≡ counted meter.old (steps_below depth (Self.part self.now) at) }
        ensures never_lower { meter.old ≤ meter.new };

    /// Sets `path` to the pointers to the blocks on the path to a leaf, indexed by level, from this node down. `level` is the node's own level,
    /// and `at` is the leaf's index among those that the node covers. Before, `path` must be None at these levels.
    fn trace(&self, level: u8, at: u32, path: &mut [Option<Root>; 6], meter: &mut Meter)
        requires level { level ≡ Self.height }
        requires low { level ≤ 5 }
        requires covered { at < 16 ^ level }
        requires empty { (l : ℕ) → l ≤ level → slice_index_or path.old l None ≡ None }
        ensures traced { (l : ℕ) → l ≤ level → maybe_block (slice_index_or path.new l None) ≡ option_map block_of (cell_below (level - l) (Self.part self.now) (at / 16 ^ l)) }
        ensures above { (l : ℕ) → level < l → slice_index_or path.new l None ≡ slice_index_or path.old l None }
        ensures metered { meter.new ≡ counted meter.old (steps_below level (Self.part self.now) at) }
        ensures never_lower { meter.old ≤ meter.new };
}

impl Tell for Leaf {
    #[tactic(auto, unfolding(crate::specs::Bytes::made_bytes, crate::specs::Telling::part_bytes))]
    fn tell(&self, _level: u8, _depth: u32, _at: u32, meter: &mut Meter) -> Option<Block<'_>> {
        meter.add_one();
        Some(Block::Contents(&self.bytes))
    }

    fn trace(&self, level: u8, _at: u32, path: &mut [Option<Root>; 6], meter: &mut Meter) {
        meter.add_one();
        path[level as usize] = Some(root_at(self.block()));
    }
}

impl<C: Tell> Tell for Inner<C> {
    fn tell(&self, level: u8, depth: u32, at: u32, meter: &mut Meter) -> Option<Block<'_>> {
        meter.add_one();
        if depth == 0 {
            return Some(Block::Pointers {
                level,
                roots: roots_below(self),
            });
        }
        let (place, rest) = step(depth, at);
        match self.owner(place) {
            Some(kid) => kid.tell(level - 1, depth - 1, rest, meter),
            None => None,
        }
    }

    fn trace(&self, level: u8, at: u32, path: &mut [Option<Root>; 6], meter: &mut Meter) {
        meter.add_one();
        path[level as usize] = Some(root_at(self.block()));
        let (place, rest) = step(u32::from(level), at);
        match self.owner(place) {
            Some(kid) => kid.trace(level - 1, rest, path, meter),
            None => {}
        }
    }
}

impl Tree {
    /// The pointer to the topmost block, or None where the tree has no block. It costs one node, where there is one.
    pub fn root(&self, meter: &mut Meter) -> Option<Root>
        ensures root { maybe_block result ≡ root_of self.now }
        ensures rising { AreBirthsRising self.now }
        ensures metered { OnSome result (meter.new ≡ counted meter.old 1) }
        ensures unmetered { IfNone result (meter.new ≡ meter.old) }
        ensures never_lower { meter.old ≤ meter.new }
    {
        match &self.root {
            Some(root) => {
                reach(meter);
                Some(root_at(root.block()))
            }
            None => None,
        }
    }

    /// The block at a key as it is written, or None where there is none. It costs a step for each level from the root down.
    pub fn block(&self, key: Key, meter: &mut Meter) -> Option<Block<'_>>
        ensures told { option_map made_bytes result ≡ option_map (bytes_of self.now key) (get self.now key) }
        ensures of_tree { IfSome result IsOfTree }
        ensures metered { meter.new ≡ counted meter.old (present_on_path self.now key) }
        ensures never_lower { meter.old ≤ meter.new }
    {
        let _reached = meter.count();
        let Some(root) = &self.root else {
            return None;
        };
        if key.level > 5 {
            return None;
        }
        let depth = u32::from(5 - key.level);
        if key.index < span(depth) {
            root.tell(5, depth, key.index, meter)
        } else {
            None
        }
    }

    /// The pointers to the blocks on the path to a leaf, indexed by level, from the leaf at 0 to the root at 5; None at a level without a block.
    /// It costs a step for each level from the root down.
    pub fn path(&self, leaf: u32, meter: &mut Meter) -> [Option<Root>; 6]
        requires { leaf < 1048576 }
        ensures path { (l : ℕ) → l ≤ 5 → maybe_block (slice_index_or result l None) ≡ option_map block_of (get self.now (key_over leaf l)) }
        ensures metered { meter.new ≡ counted meter.old (present_on_path self.now (key_over leaf 0)) }
        ensures never_lower { meter.old ≤ meter.new }
    {
        let _reached = meter.count();
        let mut path = [None; 6];
        if let Some(root) = &self.root {
            root.trace(5, leaf, &mut path, meter);
        }
        path
    }
}

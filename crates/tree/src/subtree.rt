//! Parts of a tree at and below one key.
ghost use Rattle.std.specs.Prelude.{◌≡◌, ℕ, ◌+◌, ◌++◌, ◌<◌, ◌≤◌, ◌∷◌, Some, suc, IsSome, IfOk, OnOk, OnErr, IfSome, IfNone, length, reverse};
ghost use Rattle.std.specs.List.{cons_option, flat_map};
ghost use Rattle.std.specs.Option.{option_map, option_copied};
ghost use Rattle.std.specs.FinMap as finmap;
ghost use Rattle.std.specs.FinMap.{get};
ghost use Rattle.base.specs.Key.{IsKey};
ghost use Rattle.base.specs.Counting.{counted};
ghost use Rattle.base.specs.Map.{block_of};
ghost use Rattle.base.specs.Surveys.{dead_block};
ghost use Rattle.base.specs.declared.number.Key.{Key};
ghost use Rattle.base.specs.declared.refusal.Refusal.{Refusal};
ghost use Rattle.tree.specs.Branch.{child_of, child_key, branch_blocks, branches_below, AreOwnOrBelow};
ghost use Rattle.tree.specs.BranchParts.{branch_at, node_part, node_level, IsSoundBranch};
ghost use Rattle.node.specs.Kid.{IsSound};
ghost use Rattle.node.specs.Node.{leaf_part, inner_part, part_of_slot};
ghost use Rattle.node.specs.Cells.{dead_of};

use crate::build::reach;
use crate::tree::Tree;
use base::meter::Meter;
use base::number::{Dead, Group, Key};
use base::refusal::Refusal;
use node::{Inner, Leaf, Level, Root, keep};
use std::alloc::AllocError;
use std::marker::Model;
use std::sync::Arc;

/// A shared node of any level.
#[derive(Drop)]
pub(crate) enum Node {
    Leaf(Arc<Leaf>),
    First(Arc<Inner<Leaf>>),
    Second(Arc<Inner<Inner<Leaf>>>),
    Third(Arc<Inner<Inner<Inner<Leaf>>>>),
    Fourth(Arc<Inner<Inner<Inner<Inner<Leaf>>>>>),
    Root(Arc<Root>),
}

/// A part of a tree: the blocks at and below one key. It is one more owner of the node at that key. Contracts see the key, and the map of the
/// keys at and below it.
pub struct Subtree {
    key: Key,
    node: Node,
}

// Written by hand, so that it is proved once: a derived one is expanded anew in each crate that drops the type.
impl Drop for Subtree {
    fn drop(self) {
        let Subtree { key: _, node } = self;
        drop(node);
    }
}

impl Model for Subtree {
    ghost use Rattle.tree.specs.Branch.{Branch};
    ghost use Rattle.tree.specs.BranchCode.{branch_code};

    ghost Value = { Branch };

    ghost coded = { branch_code };

    ghost use Rattle.tree.specs.BranchParts.{branch_at, node_part, IsSoundBranch};

    ghost view = { λ s. branch_at s.key (node_part s.node) };

    ghost invariant = { λ s. IsSoundBranch s.key s.node };
}

/// A level whose nodes can be the top of a subtree.
trait Top: Level + Drop {
    /// This node as a node of any level.
    fn node(top: Arc<Self>) -> Node
        ensures same { node_part result ≡ Self.part top.value }
        ensures level { node_level result ≡ Self.height };
}

impl Top for Leaf {
    fn node(top: Arc<Leaf>) -> Node
        ensures same { node_part result ≡ leaf_part top.value }
        ensures level { node_level result ≡ 0 }
    {
        Node::Leaf(top)
    }
}

impl Top for Inner<Leaf> {
    fn node(top: Arc<Inner<Leaf>>) -> Node
        ensures same { node_part result ≡ inner_part leaf_part top.value }
        ensures level { node_level result ≡ 1 }
    {
        Node::First(top)
    }
}

impl Top for Inner<Inner<Leaf>> {
    fn node(top: Arc<Inner<Inner<Leaf>>>) -> Node
        ensures same { node_part result ≡ inner_part (inner_part leaf_part) top.value }
        ensures level { node_level result ≡ 2 }
    {
        Node::Second(top)
    }
}

impl Top for Inner<Inner<Inner<Leaf>>> {
    fn node(top: Arc<Inner<Inner<Inner<Leaf>>>>) -> Node
        ensures same { node_part result ≡ inner_part (inner_part (inner_part leaf_part)) top.value }
        ensures level { node_level result ≡ 3 }
    {
        Node::Third(top)
    }
}

impl Top for Inner<Inner<Inner<Inner<Leaf>>>> {
    fn node(top: Arc<Inner<Inner<Inner<Inner<Leaf>>>>>) -> Node
        ensures same { node_part result ≡ inner_part (inner_part (inner_part (inner_part leaf_part))) top.value }
        ensures level { node_level result ≡ 4 }
    {
        Node::Fourth(top)
    }
}

/// The subtree whose top is this node, at a place directly below a key; None where there is no node.
fn kid_of<C: Top>(kid: Option<Arc<C>>, key: Key, place: u32) -> Option<Subtree>
    requires key { IsKey key }
    requires level { key.level ≡ suc C.height }
    requires place { place < 16 }
    requires sound { IfSome (part_of_slot C.part kid) (IsSound C.height) }
    ensures { result ≡ option_map (branch_at (child_key key place)) (part_of_slot C.part kid) }
{
    match kid {
        Some(part) => Some(Subtree {
            key: Key {
                level: key.level - 1,
                index: 16 * key.index + place,
            },
            node: C::node(part),
        }),
        None => None,
    }
}

/// The subtree at a place directly below a node, by one more owner of its top; None where the place is empty.
fn child_at<C: Top>(node: &Inner<C>, key: Key, place: u32) -> Result<Option<Subtree>, AllocError>
    requires key { IsKey key }
    requires level { key.level ≡ suc C.height }
    requires place { place < 16 }
    requires sound { IsSound (suc C.height) (inner_part C.part node.now) }
    ensures { IfOk result (λ o. o ≡ child_of (branch_at key (inner_part C.part node.now)) place) }
{
    Ok(kid_of(keep(node.owner(place as usize))?, key, place))
}

/// Pushes a subtree, if there is one, onto the stack `tops`.
fn push_top(top: Option<Subtree>, tops: &mut Vec<Subtree>) -> Result<(), AllocError>
    ensures { OnOk result (reverse tops.new.items ≡ cons_option top (reverse tops.old.items)) }
{
    if let Some(top) = top {
        tops.push(top)?;
    }
    Ok(())
}

/// Pushes the subtrees directly below a node onto the stack `tops`, the last place first, by one more owner of each.
#[inline(never)]
fn push_below<C: Top>(node: &Inner<C>, key: Key, tops: &mut Vec<Subtree>) -> Result<(), AllocError>
    requires key { IsKey key }
    requires level { key.level ≡ suc C.height }
    requires sound { IsSound (suc C.height) (inner_part C.part node.now) }
    ensures { OnOk result (reverse tops.new.items ≡ branches_below (branch_at key (inner_part C.part node.now)) ++ reverse tops.old.items) }
{
    let mut place = 16;
    while place > 0 {
        place -= 1;
        push_top(child_at(node, key, place)?, tops)?;
    }
    Ok(())
}

impl Node {
    /// The node's own block.
    fn block(&self) -> Dead
        ensures { result ≡ dead_of (node_part self.now).cell }
    {
        match self {
            Node::Leaf(node) => node.block(),
            Node::First(node) => node.block(),
            Node::Second(node) => node.block(),
            Node::Third(node) => node.block(),
            Node::Fourth(node) => node.block(),
            Node::Root(node) => node.block(),
        }
    }

    /// One more owner of the same node.
    fn copy(&self) -> Result<Node, AllocError>
        ensures part { IfOk result (λ n. node_part n ≡ node_part self.now) }
        ensures level { IfOk result (λ n. node_level n ≡ node_level self.now) }
    {
        match self {
            Node::Leaf(node) => Ok(Node::Leaf(Arc::try_clone(node)?)),
            Node::First(node) => Ok(Node::First(Arc::try_clone(node)?)),
            Node::Second(node) => Ok(Node::Second(Arc::try_clone(node)?)),
            Node::Third(node) => Ok(Node::Third(Arc::try_clone(node)?)),
            Node::Fourth(node) => Ok(Node::Fourth(Arc::try_clone(node)?)),
            Node::Root(node) => Ok(Node::Root(Arc::try_clone(node)?)),
        }
    }
}

impl Tree {
    /// The whole tree as a subtree, by one more owner of its root, or None where it has no block. NoMemory where there is none for that.
    pub fn top(&self) -> Result<Option<Subtree>, Refusal>
        ensures key { IfOk result (λ top. IfSome top (λ s. s.key ≡ record { level = 5; index = 0 })) }
        ensures map { IfOk result (λ top. IfSome top (λ s. s.map ≡ self.now)) }
        ensures there { IfOk result (λ top. IfSome top (λ s. IsSome (get self.now s.key))) }
        ensures none { IfOk result (λ top. IfNone top (self.now ≡ finmap.empty)) }
        ensures err { OnErr result (result ≡ Err Refusal.NoMemory) }
    {
        let Some(root) = &self.root else {
            return Ok(None);
        };
        let root = Arc::try_clone(root)?;
        Ok(Some(Subtree {
            key: Key { level: 5, index: 0 },
            node: Node::Root(root),
        }))
    }
}

impl Subtree {
    /// An equal subtree, by one more owner of its top. No block is visited. NoMemory where there is none for that.
    pub fn copy(&self) -> Result<Subtree, Refusal>
        ensures ok { IfOk result (λ s. s ≡ self.now) }
        ensures err { OnErr result (result ≡ Err Refusal.NoMemory) }
    {
        let key = self.key;
        let node = self.node.copy()?;
        Ok(Subtree { key, node })
    }

    /// The block of its top. No block below is younger (On-Disk Specification, chapter 2). Each block below is in one of the subtrees directly
    /// below. It costs one node.
    pub fn block(&self, meter: &mut Meter) -> Dead
        ensures block { option_map block_of (get self.now.map self.now.key) ≡ Some (dead_block result) }
        ensures youngest { (k : Key) → IfSome (get self.now.map k) (λ c. c.birth ≤ result.birth.0) }
        ensures keys { AreOwnOrBelow self.now }
        ensures all { branch_blocks self.now ≡ dead_block result ∷ flat_map branch_blocks (branches_below self.now) }
        ensures metered { meter.new ≡ counted meter.old 1 }
        ensures never_lower { meter.old ≤ meter.new }
    {
        meter.add_one();
        self.node.block()
    }

    /// The subtree at a place directly below, by one more owner of its top, or None where the place is empty.
    fn below(&self, place: u32) -> Result<Option<Subtree>, AllocError>
        requires { place < 16 }
        ensures { IfOk result (λ child. child ≡ child_of self.now place) }
    {
        match &self.node {
            Node::Leaf(_) => Ok(None),
            Node::First(node) => child_at(node, self.key, place),
            Node::Second(node) => child_at(node, self.key, place),
            Node::Third(node) => child_at(node, self.key, place),
            Node::Fourth(node) => child_at(node, self.key, place),
            Node::Root(node) => child_at(node, self.key, place),
        }
    }

    /// The subtree at a place directly below, by one more owner of its top, or None where the place is empty. It costs one node, the top of this
    /// subtree. NoMemory where there is none for the owner.
    pub fn child(&self, place: u32, meter: &mut Meter) -> Result<Option<Subtree>, Refusal>
        requires { place < 16 }
        ensures ok { IfOk result (λ child. child ≡ child_of self.now place) }
        ensures metered { meter.new ≡ counted meter.old 1 }
        ensures never_lower { meter.old ≤ meter.new }
        ensures err { OnErr result (result ≡ Err Refusal.NoMemory) }
    {
        reach(meter);
        Ok(self.below(place)?)
    }

    /// Pushes the subtrees directly below onto the stack `tops`, the last place first, by one more owner of each.
    fn push_below(&self, tops: &mut Vec<Subtree>) -> Result<(), AllocError>
        ensures { OnOk result (reverse tops.new.items ≡ branches_below self.now ++ reverse tops.old.items) }
    {
        match &self.node {
            Node::Leaf(_) => Ok(()),
            Node::First(node) => push_below(node, self.key, tops),
            Node::Second(node) => push_below(node, self.key, tops),
            Node::Third(node) => push_below(node, self.key, tops),
            Node::Fourth(node) => push_below(node, self.key, tops),
            Node::Root(node) => push_below(node, self.key, tops),
        }
    }

    /// Removes the top, if it was born after group `cut`: answers its block, and pushes the subtrees directly below onto the stack `tops`, the
    /// last place first, so that the first place is popped next. None where the top wasn't born after the group; then no block below it was, and
    /// `tops` is unchanged. Each subtree below gets one more owner before the top is dropped. NoMemory where an owner was refused, or where
    /// there is none for `tops` to grow. Then some of the subtrees below may have been pushed: discard `tops`. It costs one node, with its
    /// sixteen places.
    pub fn peel(
        self,
        cut: Group,
        tops: &mut Vec<Subtree>,
        meter: &mut Meter,
    ) -> Result<Option<Dead>, Refusal>
        ensures block { IfOk result (λ peeled. IfSome peeled (λ d. option_map block_of (get self.map self.key) ≡ Some (dead_block d))) }
        ensures young { IfOk result (λ peeled. IfSome peeled (λ d. cut.0 < d.birth.0)) }
        ensures below { IfOk result (λ peeled. IfSome peeled (λ _. reverse tops.new.items ≡ branches_below self ++ reverse tops.old.items)) }
        ensures few { IfOk result (λ peeled. IfSome peeled (λ _. length tops.new.items ≤ length tops.old.items + 16)) }
        ensures all { IfOk result (λ peeled. IfSome peeled (λ d. branch_blocks self ≡ dead_block d ∷ flat_map branch_blocks (branches_below self))) }
        ensures old { IfOk result (λ peeled. IfNone peeled ((k : Key) → IfSome (get self.map k) (λ c. c.birth ≤ cut.0))) }
        ensures kept { IfOk result (λ peeled. IfNone peeled (tops.new.items ≡ tops.old.items)) }
        ensures metered { meter.new ≡ counted meter.old 1 }
        ensures never_lower { meter.old ≤ meter.new }
        ensures err { OnErr result (result ≡ Err Refusal.NoMemory) }
    {
        let block = self.block(meter);
        if block.birth.0 <= cut.0 {
            return Ok(None);
        }
        self.push_below(tops)?;
        Ok(Some(block))
    }

    /// The bytes of its top, if that is a leaf. It costs one node.
    pub fn bytes(&self, meter: &mut Meter) -> Option<&[u8; 512]>
        ensures leaf { self.now.key.level ≡ 0 → option_copied result ≡ option_map (λ c. c.bytes) (get self.now.map self.now.key) }
        ensures inner { 0 < self.now.key.level → result ≡ None }
        ensures metered { meter.new ≡ counted meter.old 1 }
        ensures never_lower { meter.old ≤ meter.new }
    {
        meter.add_one();
        match &self.node {
            Node::Leaf(leaf) => Some(&leaf.bytes),
            _ => None,
        }
    }
}

//! The blocks that are to be freed.
ghost use Rattle.std.specs.Prelude.{◌≡◌, ◌≤◌, length, min, IfOk, OnOk, OnErr};
ghost use Rattle.std.specs.FinSet as set;
ghost use Rattle.std.specs.FinSet.{union, difference};
ghost use Rattle.base.specs.Map.{blocks};
ghost use Rattle.base.specs.Surveys.{AreDifferent};
ghost use Rattle.base.specs.declared.refusal.Refusal.{Refusal};
ghost use Rattle.world.specs.Blocks.{after};
ghost use Rattle.world.specs.Sets.{AreDisjoint, IsSubset};
ghost use Rattle.snap.specs.Members.{dead_blocks, dead_set, members};

use crate::piece::{Piece, take_blocks};
use base::meter::{Meter, SegMeter};
use base::number::{Dead, Group};
use base::refusal::Refusal;
use deadlist::deadlist::Deadlist;
use shared_list::SharedList;
use std::alloc::Global;
use std::marker::Model;
use std::sync::Arc;
use tree::Tree;

/// Blocks that are to be freed (zpoolprops(7): freeing), as whole pieces: dead lists, and trees, each with a group that the blocks to be freed
/// were born after. Contracts see the set of the blocks.
pub struct Freeing {
    pieces: SharedList<Piece>,
    len: u64,
    alloc: Global,
}

// Written by hand, so that it is proved once: a derived `Drop` is expanded anew in each crate that drops the type.
impl Drop for Freeing {
    fn drop(self) {
        let Freeing {
            pieces,
            len: _,
            alloc: _,
        } = self;
        drop(pieces);
    }
}

impl Model for Freeing {
    ghost use Rattle.std.specs.Prelude.{◌≡◌, length};
    ghost use Rattle.std.specs.FinSet.{from_list};
    ghost use Rattle.base.specs.Codes.{blocks_code};
    ghost use Rattle.base.specs.Map.{BlockSet};
    ghost use Rattle.base.specs.Surveys.{AreDifferent};
    ghost use Rattle.snap.specs.Members.{members};

    ghost Value = { BlockSet };

    ghost coded = { blocks_code };

    ghost view = { λ f. from_list (members f.pieces) };

    ghost invariant = { λ f. AreDifferent (members f.pieces) × (f.len ≡ length (members f.pieces)) };
}

/// The blocks that a slice takes, and the rest without them.
#[derive(Drop)]
pub struct Slice {
    pub rest: Freeing,
    pub taken: Vec<Dead>,
}

impl Freeing {
    /// Nothing to be freed. Constant time; it takes no memory, and keeps the allocator.
    pub fn new(alloc: Global) -> Freeing
        ensures { result ≡ set.empty }
    {
        Freeing {
            pieces: SharedList::new(alloc),
            len: 0,
            alloc,
        }
    }

    /// How many blocks there are. Constant time.
    pub fn len(&self) -> u64
        ensures { result ≡ set.len self.now }
    {
        self.len
    }

    /// An equal one, which shares all pieces. It costs the chunks of pieces, and visits no block. NoMemory where memory is refused.
    pub fn copy(&self) -> Result<Freeing, Refusal>
        ensures ok { IfOk result (λ f. f ≡ self.now) }
        ensures err { OnErr result (result ≡ Err Refusal.NoMemory) }
    {
        let pieces = self.pieces.copy()?;
        Ok(Freeing {
            pieces,
            len: self.len,
            alloc: self.alloc,
        })
    }

    /// Adds the blocks of a tree that were born after the group `cut`; `count` must be their number. No block is visited. It costs one piece, or
    /// the last chunk of pieces where a copy shares that, and nothing where there is no such block. NoMemory where memory is refused, or where
    /// there are then more blocks than a u64 counts; then nothing is changed.
    pub fn add_tree(&mut self, tree: &Tree, cut: Group, count: u64) -> Result<(), Refusal>
        requires count { count ≡ set.len (after cut.0 (blocks tree.now)) }
        requires apart { AreDisjoint self.old (after cut.0 (blocks tree.now)) }
        ensures ok { OnOk result (self.new ≡ union self.old (after cut.0 (blocks tree.now))) }
        ensures unchanged { OnErr result (self.new ≡ self.old) }
        ensures err { OnErr result (result ≡ Err Refusal.NoMemory) }
    {
        let _count = tree.node_count();
        if count == 0 {
            return Ok(());
        }
        let Some(len) = self.len.checked_add(count) else {
            return Err(Refusal::NoMemory);
        };
        let Some(top) = tree.top()? else {
            return Ok(());
        };
        let mut tops = Vec::with_capacity(self.alloc, 1)?;
        tops.push_reserved(top);
        self.pieces.push(Piece::Trees { tops, cut })?;
        self.len = len;
        Ok(())
    }

    /// Adds the blocks of a dead list's entries. No entry is visited. It costs one piece, or the last chunk of pieces where a copy shares that,
    /// and nothing where there is no entry. NoMemory where memory is refused, or where there are then more blocks than a u64 counts; then
    /// nothing is changed.
    pub fn add_dead(&mut self, list: Arc<Deadlist>) -> Result<(), Refusal>
        requires once { AreDifferent (dead_blocks list.value.entries) }
        requires apart { AreDisjoint self.old (dead_set list.value.entries) }
        ensures ok { OnOk result (self.new ≡ union self.old (dead_set list.value.entries)) }
        ensures unchanged { OnErr result (self.new ≡ self.old) }
        ensures err { OnErr result (result ≡ Err Refusal.NoMemory) }
    {
        if list.len() == 0 {
            return Ok(());
        }
        let Some(len) = self.len.checked_add(list.len()) else {
            return Err(Refusal::NoMemory);
        };
        self.pieces.push(Piece::Dead { list, first: 0 })?;
        self.len = len;
        Ok(())
    }

    /// Takes `n` of the blocks, or all where there are fewer, from the pieces that were added last, in the order of their trees and lists. The
    /// answer has these blocks and the rest. NoMemory where memory is refused.
    ///
    /// It costs the chunks of pieces, of which it makes the last one anew. For a dead list it costs the entries that it takes, and a step for
    /// each segment and each full chunk before them; `segments` counts all segments of the list. For a tree it costs the nodes that it visits,
    /// each with its sixteen places, and `meter` counts these nodes. Over a series of slices, each of the rest of the one before, no node is
    /// visited twice. The visited nodes are those of the taken blocks, and tops that weren't born after their cut. Each such top is a tree's
    /// root, or one of the at most sixteen nodes below a taken block. So a single slice may visit more than sixteen nodes for a block that it
    /// takes. A tree with blocks left goes back as at most 7 pieces of at most 12 subtrees each. Each piece that is taken apart costs another
    /// reference to each of its subtrees.
    pub fn slice(
        &self,
        n: u64,
        meter: &mut Meter,
        segments: &mut SegMeter,
    ) -> Result<Slice, Refusal>
        ensures once { IfOk result (λ s. AreDifferent (dead_blocks s.taken.items)) }
        ensures within { IfOk result (λ s. IsSubset (dead_set s.taken.items) self.now) }
        ensures count { IfOk result (λ s. length s.taken.items ≡ min n (set.len self.now)) }
        ensures rest { IfOk result (λ s. s.rest ≡ difference self.now (dead_set s.taken.items)) }
        ensures err { OnErr result (result ≡ Err Refusal.NoMemory) }
        ensures never_lower { meter.old ≤ meter.new }
        ensures segments_never_lower { segments.old ≤ segments.new }
    {
        let wanted = n.min(self.len);
        let mut pieces = self.pieces.copy()?;
        let taken = take_blocks(&mut pieces, self.alloc, wanted, meter, segments)?;
        let rest = Freeing {
            pieces,
            len: self.len - wanted,
            alloc: self.alloc,
        };
        Ok(Slice { rest, taken })
    }
}

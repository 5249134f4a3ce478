//! Drafts of changes, before any node is made.
ghost use Rattle.std.specs.Prelude.{◌≡◌, ◌↔◌, ◌⊎◌, IsTrue, ◌+◌, ◌^◌, ◌<◌, ◌≤◌, [], IfErr, OnOk, length, false};
ghost use Rattle.base.specs.Counting.{counted};
ghost use Rattle.base.specs.declared.refusal.Refusal.{Refusal};
ghost use Rattle.batch.specs.Cost.{CountsDropped};
ghost use Rattle.batch.specs.Room.{AreAllocated, HasRoom, LacksRoom, IsNoSpaceOrNoMemory};
ghost use Rattle.batch.specs.Draft.{IsDraft};
ghost use Rattle.smallvec.specs.SmallVec.{IsSpilled};
ghost use Rattle.node.specs.Entries.{map_of};
ghost use Rattle.node.specs.Kid.{IsSoundKid};
ghost use Rattle.node.specs.Node.{root_part, root_forest, whole, part_of_node};
ghost use Rattle.batch.specs.Said.{said, AreInOrder};
ghost use Rattle.node.specs.Sound.{IsSoundTree};
ghost use Rattle.batch.specs.Touch.{touched, claims, released, dropped};
ghost use Rattle.batch.specs.Updates.{changes_of, IsBatch};

use crate::findings::findings_of;
use crate::numbers::{NewBlock, choose, fill, fresh_count};
use crate::update::{Update, write_count};
use crate::way::{number_way, way_of_write};
use base::meter::Meter;
use base::number::{BlockNo, Dead, Group};
use base::refusal::Refusal;
use node::Root;
use smallvec::SmallVec;
use std::alloc::Global;
use std::sync::Arc;
use zalloc::Allocator;

/// A change of a tree, from its draft until its blocks are settled. Whoever begins changes owns one draft and lends it, so that the blocks of a
/// path to one leaf, at most six, need no memory of their own and are not moved. Before the change is put in force, `made` goes from the last key
/// to the first.
pub struct Draft {
    /// Whether the change touches any key.
    pub touched: bool,
    /// How many blocks the tree has once it is done.
    pub count: u32,
    /// The blocks that it releases.
    pub released: SmallVec<Dead, 6>,
    /// The numbers to take.
    pub taken: SmallVec<BlockNo, 6>,
    /// The new blocks with their numbers.
    pub made: SmallVec<NewBlock, 6>,
}

// Written by hand, so that it is proved once: a derived one is expanded anew in each crate that drops the type.
impl Drop for Draft {
    fn drop(self) {
        let Draft {
            touched: _,
            count: _,
            released,
            taken,
            made,
        } = self;
        drop(released);
        drop(taken);
        drop(made);
    }
}

impl Draft {
    /// The draft of no change. It takes no memory.
    pub fn new(alloc: Global) -> Draft
        ensures touched { result.touched ≡ false }
        ensures count { result.count ≡ 0 }
        ensures released { result.released.items ≡ [] }
        ensures taken { result.taken.items ≡ [] }
        ensures made { result.made.items ≡ [] }
    {
        Draft {
            touched: false,
            count: 0,
            released: SmallVec::new(alloc),
            taken: SmallVec::new(alloc),
            made: SmallVec::new(alloc),
        }
    }

    /// Whether a list has more than six blocks, and so has taken memory.
    pub fn is_spilled(&self) -> bool
        ensures { IsTrue result ↔ (IsSpilled 6 self.now.released ⊎ (IsSpilled 6 self.now.taken ⊎ IsSpilled 6 self.now.made)) }
    {
        self.released.spilled() || self.taken.spilled() || self.made.spilled()
    }

    // Empties the lists.
    fn clear(&mut self)
        ensures released { self.new.released.items ≡ [] }
        ensures taken { self.new.taken.items ≡ [] }
        ensures made { self.new.made.items ≡ [] }
    {
        self.released.clear();
        self.taken.clear();
        self.made.clear();
    }

    // Sets whether any key is touched, and how many blocks a tree of `count` blocks has once these lists are done.
    fn counted(&mut self, touched: bool, count: u32)
        requires few { length self.old.released.items ≤ count }
        requires fits { count + length self.old.taken.items < 2 ^ 31 + length self.old.released.items }
        requires low { count < 2 ^ 31 }
        ensures touched { self.new.touched ≡ touched }
        ensures count { self.new.count + length self.old.released.items ≡ count + length self.old.taken.items }
        ensures released { self.new.released ≡ self.old.released }
        ensures taken { self.new.taken ≡ self.old.taken }
        ensures made { self.new.made ≡ self.old.made }
    {
        self.touched = touched;
        self.count = count - self.released.len() as u32 + self.taken.len() as u32;
    }
}

/// Makes `draft` the draft of a batch for a tree of `count` blocks. Blocks born from group `young` on are young: their numbers may be used for
/// new blocks. What the draft held before is forgotten, and at `Err` it holds anything. NoSpace where there are too few numbers for the new blocks,
/// NoMemory where there is no memory. A batch that writes a single leaf takes none. The meter rises by at least one for each block that the change
/// drops; at `Err` it is never lower.
pub fn draft_of(
    alloc: Global,
    root: &Option<Arc<Root>>,
    count: u32,
    updates: &[Update],
    young: Group,
    allocator: &Allocator,
    meter: &mut Meter,
    draft: &mut Draft,
) -> Result<(), Refusal>
    requires sound { IsSoundTree root.now count }
    requires batch { IsBatch updates.now }
    requires allocated { AreAllocated (map_of (root_forest root.now)) allocator.now }
    ensures ok { OnOk result (IsDraft (whole root.now) updates.now young.0 allocator.now draft.new) }
    ensures room { OnOk result (HasRoom (map_of (root_forest root.now)) (changes_of updates.now) young.0 allocator.now) }
    ensures no_space { result ≡ Err Refusal.NoSpace → LacksRoom (map_of (root_forest root.now)) (changes_of updates.now) young.0 allocator.now }
    ensures only { IfErr result IsNoSpaceOrNoMemory }
    ensures metered { OnOk result (CountsDropped (map_of (root_forest root.now)) (changes_of updates.now) meter.old meter.new) }
    ensures never_lower { meter.old ≤ meter.new }
{
    draft.clear();
    let room = write_count(updates).saturating_add(5);
    let mut blocks = [None; 6];
    if let Some(leaf) = way_of_write(root, updates, &mut blocks, meter) {
        number_way(&blocks, leaf, young, allocator, draft)?;
        draft.counted(true, count);
        return Ok(());
    }
    let (findings, touched) = findings_of(alloc, root, updates, room, young, meter)?;
    let need = fresh_count(&findings.claims);
    let taken = choose(alloc, allocator, &findings.released, young, need)?;
    let made = fill(alloc, &findings.claims, &taken)?;
    draft.released = SmallVec::from_vec(findings.released);
    draft.taken = SmallVec::from_vec(taken);
    draft.made = SmallVec::from_vec(made);
    draft.counted(touched, count);
    Ok(())
}

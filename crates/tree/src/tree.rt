//! A version of a tree, seen as the map from its present keys to their cells.
ghost use Rattle.std.specs.Prelude.{◌≡◌, ◌≤◌, IfOk, IfErr, OnOk, OnErr, map, length};
ghost use Rattle.std.specs.FinMap as finmap;
ghost use Rattle.base.specs.declared.refusal.Refusal.{Refusal};
ghost use Rattle.base.specs.Counting.{counted};
ghost use Rattle.base.specs.Surveys.{dead_block};
ghost use Rattle.batch.specs.Updates.{changes_of, IsBatch};
ghost use Rattle.node.specs.Unique.{IsUnique};
ghost use Rattle.tree.specs.Asking.{AreAllocated, IsNoSpaceOrNoMemory};
ghost use Rattle.tree.specs.Change.{AreReleased, HasRoom, LacksRoom, CountsDropped};
ghost use Rattle.tree.specs.Drafting.{IsDraftOf, CanPut, HasPut};
ghost use Rattle.tree.specs.Taking.{AllFree, takes};

use crate::renew::renew_root;
use base::meter::Meter;
use base::number::{BlockNo, Group};
use base::refusal::Refusal;
use batch::{Draft, Update, draft_of};
use node::{Root, keep, owner_in};
use std::alloc::Global;
use std::marker::Model;
use std::sync::Arc;
use zalloc::Allocator;

/// A dataset's tree of blocks. Contracts see the map from its present keys to their cells.
pub struct Tree {
    pub(crate) root: Option<Arc<Root>>,
    pub(crate) count: u32,
}

// Written by hand, so that it is proved once: a derived one is expanded anew in each crate that drops the type.
impl Drop for Tree {
    fn drop(self) {
        let Tree { root, count: _ } = self;
        drop(root);
    }
}

impl Model for Tree {
    ghost use Rattle.base.specs.Map.{Map};
    ghost use Rattle.base.specs.Codes.{map_code};

    ghost Value = { Map };

    ghost coded = { map_code };

    ghost use Rattle.node.specs.Node.{root_forest};
    ghost use Rattle.node.specs.Entries.{map_of};
    ghost use Rattle.node.specs.Sound.{IsSoundTree};

    ghost view = { λ t. map_of (root_forest t.root) };

    ghost invariant = { λ t. IsSoundTree t.root t.count };
}

/// Takes each number in turn. Each must be Free when its turn comes. It takes no memory, and costs how many numbers there are.
pub fn take_all(allocator: &mut Allocator, numbers: &[BlockNo])
    requires { AllFree allocator.old (map (λ b. b.0) numbers.now) }
    ensures { allocator.new ≡ takes allocator.old (map (λ b. b.0) numbers.now) }
{
    for number in numbers {
        allocator.take(*number);
    }
}

impl Tree {
    /// A tree without a block.
    pub fn new() -> Tree
        ensures { result ≡ finmap.empty }
    {
        Tree {
            root: None,
            count: 0,
        }
    }

    /// An equal tree, by one more owner of its root. No block is visited. NoMemory where there is none for that.
    pub fn copy(&self) -> Result<Tree, Refusal>
        ensures ok { IfOk result (λ t. t ≡ self.now) }
        ensures err { OnErr result (result ≡ Err Refusal.NoMemory) }
    {
        let root = keep(owner_in(&self.root))?;
        Ok(Tree {
            root,
            count: self.count,
        })
    }

    /// Drafts a batch of changes: `draft` becomes what it will make and what it will release, and forgets what it held before. No node is made
    /// yet: `put` applies the draft. Blocks born from group `young` on are young: their numbers may be used for new blocks. NoSpace where there
    /// are too few numbers for the new blocks, NoMemory where there is no memory. It costs the nodes on the paths to the changes, each with its
    /// sixteen places. The meter counts these nodes: it rises by at least one for each block that the change drops, and at `Err` is never lower.
    pub fn draft(
        &self,
        alloc: Global,
        updates: &[Update],
        young: Group,
        allocator: &Allocator,
        meter: &mut Meter,
        draft: &mut Draft,
    ) -> Result<(), Refusal>
        requires batch { IsBatch updates.now }
        requires allocated { AreAllocated self.now allocator.now }
        ensures ok { OnOk result (IsDraftOf self.now updates.now young.0 allocator.now draft.new) }
        ensures unique { IsUnique self.now }
        ensures released { OnOk result (AreReleased self.now (changes_of updates.now) young.0 (map dead_block draft.new.released.items)) }
        ensures room { OnOk result (HasRoom self.now (changes_of updates.now) young.0 allocator.now) }
        ensures no_space { result ≡ Err Refusal.NoSpace → LacksRoom self.now (changes_of updates.now) young.0 allocator.now }
        ensures only { IfErr result IsNoSpaceOrNoMemory }
        ensures metered { OnOk result (CountsDropped self.now (changes_of updates.now) meter.old meter.new) }
        ensures never_lower { meter.old ≤ meter.new }
    {
        draft_of(
            alloc, &self.root, self.count, updates, young, allocator, meter, draft,
        )
    }

    /// Applies a draft of a batch of changes: makes new blocks, born in `group`, for the changed leaves and for all their ancestors that stay
    /// (On-Disk Specification, chapter 3). A key whose block was born from the draft's `young` on keeps that block's number. The other new
    /// blocks have the numbers of young blocks that are released, and then Free ones. It takes no number in an allocator: the draft lists the
    /// numbers to take, and then its new blocks in the order of their keys. NoMemory where there is none for the nodes, and then the tree is
    /// unchanged. It costs the nodes on the paths to the
    /// changes, each with its sixteen places. A batch that is one write or one punch of a leaf changes in place the nodes that no other version
    /// of the tree shares. The meter counts the nodes that were there and the new ones; a key that has both is counted once. The meter rises by
    /// at least one for each block that the change drops, and for each that it makes; at `Err` it is never lower.
    pub fn put(
        &mut self,
        alloc: Global,
        updates: &[Update],
        group: Group,
        draft: &mut Draft,
        meter: &mut Meter,
    ) -> Result<(), Refusal>
        requires { CanPut self.old updates.now group.0 draft.old }
        ensures ok { OnOk result (HasPut self.old self.new updates.now group.0 draft.old draft.new) }
        ensures err { OnErr result (self.new ≡ self.old) }
        ensures only { OnErr result (result ≡ Err Refusal.NoMemory) }
        ensures metered { OnOk result (CountsDropped self.old (changes_of updates.now) meter.old meter.new) }
        ensures metered_made { OnOk result (counted meter.old (length draft.new.made.items) ≤ meter.new) }
        ensures never_lower { meter.old ≤ meter.new }
    {
        renew_root(
            &mut self.root,
            alloc,
            draft.touched,
            updates,
            group,
            draft.made.as_slice(),
            meter,
        )?;
        self.count = draft.count;
        draft.made.as_mut_slice().reverse();
        Ok(())
    }
}

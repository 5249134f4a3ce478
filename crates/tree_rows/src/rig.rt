//! A tree with the allocator of its numbers.
ghost use Rattle.std.specs.Prelude.{IfOk, IsTrue, map};
ghost use Rattle.base.specs.Surveys.{AreDifferent};
ghost use Rattle.tree.specs.Asking.{AllowsChange};
ghost use Rattle.tree.specs.Taking.{AllFree};

use base::meter::Meter;
use base::number::{BlockNo, Dead, Group};
use base::refusal::Refusal;
use row_machine::told::Told;
use std::alloc::Global;
use tree::{Draft, NewBlock, Tree, Update, take_all};
use tree_tests::ready::{is_batch, is_ready, meter};
use zalloc::{Allocator, BlockState};

/// A tree, and the numbers that it has.
#[derive(Drop)]
pub struct Rig {
    pub tree: Tree,
    pub allocator: Allocator,
}

/// The group in which a batch is put in force, and the first from which on blocks are young.
#[derive(Clone, Copy)]
pub struct When {
    pub group: Group,
    pub young: Group,
}

/// Releases the numbers of the blocks on one side of a group: those born from it on, or those born before. Whether each was Allocated.
fn release(allocator: &mut Allocator, blocks: &[Dead], young: Group, side: bool) -> bool {
    let mut are_released = true;
    for dead in blocks {
        if (dead.birth.0 >= young.0) == side && !release_one(allocator, dead.block) {
            are_released = false;
        }
    }
    are_released
}

fn release_one(allocator: &mut Allocator, number: BlockNo) -> bool {
    match allocator.state(number) {
        Some(BlockState::Allocated) => {
            allocator.release(number, false);
            true
        }
        _ => false,
    }
}

/// Whether these numbers can be taken in turn.
fn are_free(allocator: &Allocator, numbers: &[BlockNo]) -> bool
    requires { AreDifferent (map (λ b. b.0) numbers.now) }
    ensures { IsTrue result → AllFree allocator.now (map (λ b. b.0) numbers.now) }
{
    for number in numbers {
        match allocator.state(*number) {
            Some(BlockState::Free) => {}
            _ => return false,
        }
    }
    true
}

/// Whether the new blocks stand at their keys, born in the group.
fn are_made(tree: &Tree, made: &[NewBlock], group: Group) -> bool {
    for new in made {
        if !is_made(tree, *new, group) {
            return false;
        }
    }
    true
}

fn is_made(tree: &Tree, new: NewBlock, group: Group) -> bool {
    match tree.read(new.key, &mut meter()) {
        Some(cell) => cell.block == new.block && cell.birth == group,
        None => false,
    }
}

/// Puts a batch in force on a tree, with the nodes that the put reaches counted.
fn change(
    alloc: Global,
    tree: &mut Tree,
    updates: &[Update],
    when: When,
    allocator: &Allocator,
    nodes: &mut Meter,
) -> Result<Draft, Refusal>
    requires { AllowsChange tree.old updates.now when.group.0 when.young.0 allocator.now }
    ensures { IfOk result (λ done. AreDifferent (map (λ b. b.0) done.taken.items)) }
{
    let mut draft = Draft::new(alloc);
    tree.draft(
        alloc,
        updates,
        when.young,
        allocator,
        &mut meter(),
        &mut draft,
    )?;
    tree.put(alloc, updates, when.group, &mut draft, nodes)?;
    Ok(draft)
}

impl Rig {
    /// An equal one, whose tree shares its nodes.
    pub fn copy(&self) -> Result<Rig, Refusal> {
        let allocator = self.allocator.copy()?;
        Ok(Rig {
            tree: self.tree.copy()?,
            allocator,
        })
    }

    /// Whether a batch can be put in force: the updates are one, and no block of the tree is from a later group.
    fn is_asked(&self, alloc: Global, updates: &[Update], when: When) -> Result<bool, Refusal>
        ensures { IfOk result (λ is. IsTrue is → AllowsChange self.now.tree updates.now when.group.0 when.young.0 self.now.allocator) }
    {
        if when.young.0 > when.group.0
            || !is_batch(updates)
            || !is_ready(alloc, &self.tree, &self.allocator, when.group)?
        {
            return Ok(false);
        }
        Ok(true)
    }

    /// Takes and releases the numbers that a batch in force tells. Whether those that it takes are Free once the young blocks that it drops are
    /// released, and those that it releases were Allocated.
    fn is_settled(&mut self, released: &[Dead], taken: &[BlockNo], young: Group) -> bool
        requires { AreDifferent (map (λ b. b.0) taken.now) }
    {
        let are_released = release(&mut self.allocator, released, young, true);
        if !are_free(&self.allocator, taken) {
            return false;
        }
        take_all(&mut self.allocator, taken);
        release(&mut self.allocator, released, young, false) && are_released
    }

    /// Puts a batch in force: how many numbers it took, how many keys it made, and how many numbers it released. No where these aren't what a
    /// batch may take and release, or a new block doesn't stand at its key.
    pub fn put(
        &mut self,
        alloc: Global,
        updates: &[Update],
        when: When,
        nodes: &mut Meter,
    ) -> Result<Told, Refusal> {
        if !self.is_asked(alloc, updates, when)? {
            return Ok(Told::Absent);
        }
        let done = change(alloc, &mut self.tree, updates, when, &self.allocator, nodes)?;
        let is_right = self.is_settled(done.released.as_slice(), done.taken.as_slice(), when.young)
            && are_made(&self.tree, done.made.as_slice(), when.group);
        Ok(if is_right {
            Told::Three(
                done.taken.len() as u64,
                done.made.len() as u64,
                done.released.len() as u64,
            )
        } else {
            Told::Is(false)
        })
    }
}

//! The allocator: the state of every block number of a pool.
//!
//! A number is Free, Allocated or Waiting (profile). A number is Waiting when its block was released, but the number may be used again only
//! after the group is synced. The Free numbers are one set, and the Waiting ones another. A set is a bitmap with a bit for each number, in words
//! of 64, and above it two levels that say which words aren't zero. So a fragmented pool takes no more memory than another one, and a number is
//! found, taken and released in constant time.
#![tactic(auto)]

ghost use Rattle.std.specs.Prelude.{◌≡◌, ◌≢◌, ℕ, ◌+◌, ◌/◌, ◌<◌, ◌≤◌, ◌||◌, true, false, length, IfSome, IfNone, IfOk, IfErr, Some, slice_get, slice_set, map, count_by, if◌then◌else◌, replicate};
ghost use Rattle.zalloc.specs.States.{is_free, is_waiting, is_allocated, after_group};
ghost use Rattle.zalloc.specs.Sets.{IsKept, is_held, bit_in};
ghost use Rattle.zalloc.specs.Paired.{AreSameBut, NoneWaits};
ghost use Rattle.zalloc.specs.Tallies.{IsTaken};
ghost use Rattle.zalloc.specs.declared.BlockState.TheVariants.{Free, Allocated, Waiting};
ghost use Rattle.zalloc.specs.declared.set.TheConstants.{WINDOW};

mod bits;
mod numbers;
mod set;
mod touched;

use base::number::BlockNo;
use base::refusal::Refusal;
use bits::either;
pub use numbers::Numbers;
use set::{NumberSet, WINDOW};
use std::alloc::Global;
use std::fmt;
use std::marker::Model;
use touched::Touched;

/// The most numbers that a pool has (profile).
pub const MOST_BLOCKS: u32 = 4194304;

/// The state of a number.
#[derive(Clone, Copy, PartialEq, Eq, Debug)]
pub enum BlockState {
    /// No block has it: it may be taken.
    Free,
    /// A block has it.
    Allocated,
    /// Its block was released, and it becomes Free when the group ends.
    Waiting,
}

/// How many numbers are in each state. The three add up to the size of the pool.
#[derive(Clone, Copy, PartialEq, Eq, Debug)]
pub struct Counts {
    pub free: u32,
    pub allocated: u32,
    pub waiting: u32,
}

/// The state of each number below the size of the pool. Contracts see the list of the states.
///
/// The Free numbers are one set, and the Waiting ones another; every other number is Allocated. The Free set takes a bit for each number below
/// the greatest that was ever removed from it, and the Waiting set one for each number below the greatest that was ever added to it. Each takes
/// a 64th of that more for its upper levels. `new` and `copy` reserve the room for all numbers, and the operating system provides its pages when
/// they are first used. No other function takes memory.
pub struct Allocator {
    free: NumberSet,
    waiting: NumberSet,
    free_count: u32,
    waiting_count: u32,
}

// Written by hand, so that it is proved once: a derived one is expanded anew in each crate that drops the type.
impl Drop for Allocator {
    fn drop(self) {
        let Allocator {
            free,
            waiting,
            free_count: _,
            waiting_count: _,
        } = self;
        drop(free);
        drop(waiting);
    }
}

impl Model for Allocator {
    ghost use Rattle.std.specs.Prelude.{List};
    ghost use Rattle.zalloc.specs.declared.BlockState.{BlockState};

    ghost Value = { List BlockState };

    ghost use Rattle.zalloc.specs.Allocator.{IsCounted, states_from};

    ghost view = { λ a. states_from a.free a.waiting };

    ghost invariant = { IsCounted };
}

impl Allocator {
    /// An allocator of `n` numbers, at most `MOST_BLOCKS`, each Free, with room for everything that it will keep. NoMemory
    /// where the room was refused. Constant time.
    pub fn new(alloc: Global, n: u32) -> Result<Allocator, Refusal>
        requires { n ≤ MOST_BLOCKS }
        ensures ok { IfOk result (λ a. a ≡ replicate n Free) }
        ensures no_memory { IfErr result (λ r. r ≡ Refusal.NoMemory) }
    {
        let free = NumberSet::new(alloc, n, true)?;
        let waiting = NumberSet::new(alloc, n, false)?;
        Ok(Allocator {
            free,
            waiting,
            free_count: n,
            waiting_count: 0,
        })
    }

    /// Another allocator with the same states, and with the room that `new` reserves. NoMemory where the room was refused. Its time and memory
    /// are proportional to a 64th of the greatest number that was ever taken.
    pub fn copy(&self) -> Result<Allocator, Refusal>
        ensures ok { IfOk result (λ a. a ≡ self.now) }
        ensures no_memory { IfErr result (λ r. r ≡ Refusal.NoMemory) }
    {
        let free = self.free.copy()?;
        let waiting = self.waiting.copy()?;
        Ok(Allocator {
            free,
            waiting,
            free_count: self.free_count,
            waiting_count: self.waiting_count,
        })
    }

    /// The state of a number, or None where it is not below the size of the pool. Constant time.
    pub fn state(&self, b: BlockNo) -> Option<BlockState>
        ensures { result ≡ slice_get self.now b.0 }
    {
        if b.0 >= self.free.numbers() {
            None
        } else if self.free.contains(b.0) {
            Some(BlockState::Free)
        } else if self.waiting.contains(b.0) {
            Some(BlockState::Waiting)
        } else {
            Some(BlockState::Allocated)
        }
    }

    /// How many numbers are in each state. Constant time.
    pub fn counts(&self) -> Counts
        ensures free { result.free ≡ count_by is_free self.now }
        ensures waiting { result.waiting ≡ count_by is_waiting self.now }
        ensures allocated { result.allocated ≡ count_by is_allocated self.now }
    {
        Counts {
            free: self.free_count,
            allocated: self.free.numbers() - self.free_count - self.waiting_count,
            waiting: self.waiting_count,
        }
    }

    /// The least Free number not below `from`, or None where there is none. It reads at most 21 words. Constant time.
    pub fn find(&self, from: u32) -> Option<BlockNo>
        ensures found { IfSome result (λ b. slice_get self.now b.0 ≡ Some Free) }
        ensures not_below { IfSome result (λ b. from ≤ b.0) }
        ensures least { IfSome result (λ b. IsTaken self.now from b.0) }
        ensures within { IfSome result (λ b. b.0 < MOST_BLOCKS) }
        ensures none { IfNone result ((k : ℕ) → from ≤ k → slice_get self.now k ≢ Some Free) }
    {
        let number = self.free.next(from)?;
        Some(BlockNo(number))
    }

    /// Makes a Free number Allocated. Constant time, but for the words before the number's that aren't there yet, which it adds.
    pub fn take(&mut self, b: BlockNo)
        requires { slice_get self.old b.0 ≡ Some Free }
        ensures { self.new ≡ slice_set self.old b.0 Allocated }
    {
        self.free.remove(b.0);
        self.free_count -= 1;
    }

    /// Makes an Allocated number Waiting or Free. It costs as much as `take`.
    pub fn release(&mut self, b: BlockNo, wait: bool)
        requires { slice_get self.old b.0 ≡ Some Allocated }
        ensures { self.new ≡ slice_set self.old b.0 (if wait then Waiting else Free) }
    {
        if wait {
            self.waiting.insert(b.0);
            self.waiting_count += 1;
        } else {
            self.free.insert(b.0);
            self.free_count += 1;
        }
    }

    /// Makes each Waiting number Free. It costs the number of windows of 64 numbers that have a Waiting one, whatever the size of the pool.
    pub fn end_group(&mut self)
        ensures { self.new ≡ map after_group self.old }
    {
        free_all(&mut self.free, &mut self.waiting);
        self.free_count += self.waiting_count;
        self.waiting_count = 0;
    }

    /// Makes the states equal to those of `other`, from which they differ only in windows that were touched. It costs the number of these
    /// windows, whatever the size of the pool.
    fn catch_up(&mut self, other: &Allocator, touched: &Touched)
        requires len { length self.old ≡ length other.now }
        requires flags { length touched.now ≡ length self.old / WINDOW + 1 }
        requires same { AreSameBut touched.now self.old other.now }
        ensures { self.new ≡ other.now }
    {
        self.free.copy_windows(&other.free, touched.noted());
        self.waiting.copy_windows(&other.waiting, touched.noted());
        self.free_count = other.free_count;
        self.waiting_count = other.waiting_count;
    }

    /// Does what `catch_up` does, where neither allocator has a Waiting number. It copies only the Free set.
    fn catch_up_free(&mut self, other: &Allocator, touched: &Touched)
        requires len { length self.old ≡ length other.now }
        requires flags { length touched.now ≡ length self.old / WINDOW + 1 }
        requires same { AreSameBut touched.now self.old other.now }
        requires none { NoneWaits self.old }
        requires none_there { NoneWaits other.now }
        ensures { self.new ≡ other.now }
    {
        self.free.copy_windows(&other.free, touched.noted());
        self.free_count = other.free_count;
    }
}

/// How many numbers are in each state.
impl fmt::Debug for Allocator {
    fn fmt<W: fmt::Write>(&self, f: &mut fmt::Formatter<W>) -> fmt::Result {
        let counts = self.counts();
        f.debug_struct("Allocator")
            .field("free", &counts.free)
            .field("allocated", &counts.allocated)
            .field("waiting", &counts.waiting)
            .finish()
    }
}

/// Moves the Waiting numbers to the Free set, window by window.
fn free_all(free: &mut NumberSet, waiting: &mut NumberSet)
    requires free { IsKept free.old }
    requires waiting { IsKept waiting.old }
    requires same { waiting.old.numbers ≡ free.old.numbers }
    requires apart { (k : ℕ) → k < free.old.numbers → is_held free.old k ≡ true → is_held waiting.old k ≡ false }
    ensures free { IsKept free.new }
    ensures waiting { IsKept waiting.new }
    ensures numbers { free.new.numbers ≡ free.old.numbers }
    ensures same { waiting.new.numbers ≡ free.old.numbers }
    ensures moved { (k : ℕ) → k < free.old.numbers → is_held free.new k ≡ (is_held free.old k || is_held waiting.old k) }
    ensures emptied { (k : ℕ) → k < free.old.numbers → is_held waiting.new k ≡ false }
{
    let mut from = 0;
    while let Some(number) = waiting.next(from) {
        let window = number / WINDOW;
        free.write(window, either(free.word(window), waiting.word(window)));
        waiting.write(window, 0);
        from = (window + 1) * WINDOW;
    }
}

//! The states of a pool's numbers, now and after the last sync.
ghost use Rattle.std.specs.Prelude.{◌≡◌, ◌≢◌, ◌≤◌, ℕ, IfOk, IfErr, Some, length, slice_get, slice_set, map, if◌then◌else◌, replicate};
ghost use Rattle.zalloc.specs.States.{after_group};
ghost use Rattle.zalloc.specs.declared.BlockState.TheVariants.{Free, Allocated, Waiting};

use crate::touched::Touched;
use crate::{Allocator, MOST_BLOCKS};
use base::number::BlockNo;
use base::refusal::Refusal;
use std::alloc::Global;
use std::fmt;
use std::marker::Model;

/// The state of each number of a pool, now and at the end of the last group. Contracts see both lists of states.
///
/// It has two allocators, and keeps which windows of 64 numbers have changed since the last group ended. That takes one byte for each window,
/// and room for four more bytes each in a list of the changed ones. So ending a group, or going back to where it began, costs the number of
/// changed windows, whatever the size of the pool. `new` reserves all the room. An empty pool takes a byte for each 64 numbers.
pub struct Numbers {
    present: Allocator,
    synced: Allocator,
    touched: Touched,
}

// Written by hand, so that it is proved once: a derived one is expanded anew in each crate that drops the type.
impl Drop for Numbers {
    fn drop(self) {
        let Numbers {
            present,
            synced,
            touched,
        } = self;
        drop(present);
        drop(synced);
        drop(touched);
    }
}

impl Model for Numbers {
    ghost use Rattle.zalloc.specs.Numbers.{NumberStates};

    ghost Value = { NumberStates };

    ghost use Rattle.zalloc.specs.Paired.{IsPaired};

    ghost view = { λ m. record { present = m.present; synced = m.synced } };

    ghost invariant = { IsPaired };
}

impl Numbers {
    /// `n` numbers, at most `MOST_BLOCKS`, each Free now and after the last sync, with room for everything that will be kept. NoMemory where the
    /// room was refused. Its time is proportional to a 64th of `n`.
    pub fn new(alloc: Global, n: u32) -> Result<Numbers, Refusal>
        requires { n ≤ MOST_BLOCKS }
        ensures present { IfOk result (λ m. m.present ≡ replicate n Free) }
        ensures synced { IfOk result (λ m. m.synced ≡ replicate n Free) }
        ensures no_memory { IfErr result (λ r. r ≡ Refusal.NoMemory) }
    {
        let present = Allocator::new(alloc, n)?;
        let synced = Allocator::new(alloc, n)?;
        let touched = Touched::new(alloc, n)?;
        Ok(Numbers {
            present,
            synced,
            touched,
        })
    }

    /// The present states. Constant time.
    pub fn present(&self) -> &Allocator
        ensures { result.now ≡ self.now.present }
    {
        &self.present
    }

    /// The states at the end of the last group, one for each number. None is Waiting. Constant time.
    pub fn synced(&self) -> &Allocator
        ensures states { result.now ≡ self.now.synced }
        ensures len { length result.now ≡ length self.now.present }
        ensures none_waits { (k : ℕ) → slice_get result.now k ≢ Some Waiting }
    {
        &self.synced
    }

    /// Makes a Free number Allocated. It costs an `Allocator::take`, and takes no memory.
    pub fn take(&mut self, b: BlockNo)
        requires { slice_get self.old.present b.0 ≡ Some Free }
        ensures present { self.new.present ≡ slice_set self.old.present b.0 Allocated }
        ensures synced { self.new.synced ≡ self.old.synced }
    {
        self.touched.note(b.0);
        self.present.take(b);
    }

    /// Makes an Allocated number Waiting or Free. It costs an `Allocator::release`, and takes no memory.
    pub fn release(&mut self, b: BlockNo, wait: bool)
        requires { slice_get self.old.present b.0 ≡ Some Allocated }
        ensures present { self.new.present ≡ slice_set self.old.present b.0 (if wait then Waiting else Free) }
        ensures synced { self.new.synced ≡ self.old.synced }
    {
        self.touched.note(b.0);
        self.present.release(b, wait);
    }

    /// Makes each Waiting number Free, and the synced states equal to the present ones, as a sync does. `kept` is another allocator with the
    /// synced states, and gets the new ones too. It costs an `Allocator::end_group`, and two words for each window of 64 numbers that has
    /// changed since the last group ended. It takes no memory.
    pub fn end_group(&mut self, kept: &mut Allocator)
        requires { kept.old ≡ self.old.synced }
        ensures present { self.new.present ≡ map after_group self.old.present }
        ensures synced { self.new.synced ≡ map after_group self.old.present }
        ensures kept { kept.new ≡ map after_group self.old.present }
        ensures len { length kept.new ≡ length kept.old }
    {
        self.present.end_group();
        self.synced.catch_up_free(&self.present, &self.touched);
        kept.catch_up_free(&self.present, &self.touched);
        self.touched.clear();
    }

    /// Makes the present states equal to the synced ones, as an abandon does. It costs the number of windows of 64 numbers that have changed
    /// since the last group ended, and takes no memory.
    pub fn restore(&mut self)
        ensures present { self.new.present ≡ self.old.synced }
        ensures synced { self.new.synced ≡ self.old.synced }
    {
        self.present.catch_up(&self.synced, &self.touched);
        self.touched.clear();
    }
}

/// How many numbers are in each state, now and after the last group.
impl fmt::Debug for Numbers {
    fn fmt<W: fmt::Write>(&self, f: &mut fmt::Formatter<W>) -> fmt::Result {
        f.debug_struct("Numbers")
            .field("present", &self.present)
            .field("synced", &self.synced)
            .finish()
    }
}

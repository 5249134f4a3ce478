//! Entries in order of birth.
ghost use Rattle.std.specs.Prelude.{◌≡◌, ◌+◌, ◌-◌, ◌≤◌, ◌<◌, ◌++◌, length, filter, take, drop, IfOk, slice_index_or};
ghost use Rattle.std.specs.List.Sorted.{IsNonDecreasingBy, IsPermutation};
ghost use Rattle.base.specs.Counting.{counted};
ghost use Rattle.base.specs.declared.number.Dead.{Dead};
ghost use Rattle.deadlist.specs.Entries.{birth_of, is_after, is_upto, run_steps};

use base::meter::SegMeter;
use base::number::Dead;
use std::alloc::{AllocError, Global};
use std::marker::Model;
use std::sync::Arc;

/// A part of a run is copied where the shared list has more than this many times as many entries.
const SPARSE: usize = 4;

/// Entries in order of birth: a slice of a list that other runs may share. Contracts see the list of the entries.
#[derive(Drop)]
pub struct Run {
    shared: Arc<Vec<Dead>>,
    from: usize,
    to: usize,
}

impl Model for Run {
    ghost use Rattle.std.specs.Prelude.{◌≤◌, ◌-◌, List, take, drop, length};
    ghost use Rattle.std.specs.List.Sorted.{IsNonDecreasingBy};
    ghost use Rattle.base.specs.declared.number.Dead.{Dead};
    ghost use Rattle.deadlist.specs.Entries.{birth_of};

    ghost Value = { List Dead };

    ghost view = { λ r. take (r.to - r.from) (drop r.from r.shared.value.items) };

    ghost invariant = { λ r. (r.from ≤ r.to) × (r.to ≤ length r.shared.value.items) × IsNonDecreasingBy birth_of (take (r.to - r.from) (drop r.from r.shared.value.items)) };
}

impl Run {
    /// These entries, sorted by birth. It costs their number where they are already sorted, or are two sorted runs, and else their number times
    /// its logarithm.
    pub fn new(alloc: Global, mut entries: Vec<Dead>) -> Result<Run, AllocError>
        ensures { IfOk result (λ r. IsPermutation entries.items r) }
    {
        entries.sort_by_key(|dead| dead.birth.0)?;
        let to = entries.len();
        let shared = Arc::new(alloc, entries)?;
        Ok(Run {
            shared,
            from: 0,
            to,
        })
    }

    /// The entries of both, sorted by birth. It costs their number.
    pub fn merged(alloc: Global, first: &Run, second: &Run) -> Result<Run, AllocError>
        ensures { IfOk result (λ r. IsPermutation (first.now ++ second.now) r) }
    {
        let count = first.len().saturating_add(second.len());
        let mut entries = Vec::with_capacity(alloc, count)?;
        entries.extend_from_slice(first.as_slice())?;
        entries.extend_from_slice(second.as_slice())?;
        Run::new(alloc, entries)
    }

    /// How many entries it has. Constant time.
    pub fn len(&self) -> usize
        ensures { result ≡ length self.now }
    {
        self.to - self.from
    }

    /// Its entries. Constant time.
    pub fn as_slice(&self) -> &[Dead]
        ensures same { result.now ≡ self.now }
        ensures rising { IsNonDecreasingBy birth_of self.now }
    {
        let (_before, rest) = self.shared.as_slice().split_at(self.from);
        let (own, _after) = rest.split_at(self.to - self.from);
        own
    }

    /// An equal run, which shares the entries. Constant time.
    pub fn copy(&self) -> Result<Run, AllocError>
        ensures { IfOk result (λ r. r ≡ self.now) }
    {
        let shared = Arc::try_clone(&self.shared)?;
        Ok(Run {
            shared,
            from: self.from,
            to: self.to,
        })
    }

    // When the entry with that index was born. The meter counts the entry.
    fn birth_at(&self, at: usize, meter: &mut SegMeter) -> u64
        requires { at < length self.now }
        ensures birth { (d : Dead) → result ≡ birth_of (slice_index_or self.now at d) }
        ensures rising { IsNonDecreasingBy birth_of self.now }
        ensures metered { meter.new ≡ counted meter.old 1 }
        ensures never_lower { meter.old ≤ meter.new }
    {
        meter.add_one();
        self.as_slice()[at].birth.0
    }

    /// How many of its entries were born by the cut. It looks at an entry for each halving of their number, which the meter counts.
    pub fn count_upto(&self, cut: u64, meter: &mut SegMeter) -> usize
        ensures count { result ≡ length (filter (is_upto cut) self.now) }
        ensures looked { meter.new ≤ meter.old + run_steps self.now }
        ensures never_lower { meter.old ≤ meter.new }
    {
        let mut low = 0;
        let mut high = self.len();
        while low < high {
            let middle = low + (high - low) / 2;
            if self.birth_at(middle, meter) <= cut {
                low = middle + 1;
            } else {
                high = middle;
            }
        }
        low
    }

    // Where those born by the cut end.
    fn place_of(&self, cut: u64) -> usize
        ensures within { result ≤ length self.now }
        ensures low { take result self.now ≡ filter (is_upto cut) self.now }
        ensures high { drop result self.now ≡ filter (is_after cut) self.now }
    {
        self.as_slice().partition_point(|dead| dead.birth.0 <= cut)
    }

    // The entries from index `from` to `to`. They are shared, unless they are few compared with all the entries that sharing would keep in
    // memory.
    fn part(&self, alloc: Global, from: usize, to: usize) -> Result<Run, AllocError>
        requires order { from ≤ to }
        requires within { to ≤ length self.now }
        ensures { IfOk result (λ r. r ≡ take (to - from) (drop from self.now)) }
    {
        if to - from < self.shared.len() / SPARSE {
            return self.copied(alloc, from, to);
        }
        let shared = Arc::try_clone(&self.shared)?;
        Ok(Run {
            shared,
            from: self.from + from,
            to: self.from + to,
        })
    }

    // The entries from index `from` to `to`, copied.
    fn copied(&self, alloc: Global, from: usize, to: usize) -> Result<Run, AllocError>
        requires order { from ≤ to }
        requires within { to ≤ length self.now }
        ensures { IfOk result (λ r. r ≡ take (to - from) (drop from self.now)) }
    {
        let (_before, rest) = self.as_slice().split_at(from);
        let (own, _after) = rest.split_at(to - from);
        let entries = Vec::from_slice(alloc, own)?;
        let shared = Arc::new(alloc, entries)?;
        Ok(Run {
            shared,
            from: 0,
            to: to - from,
        })
    }

    /// The entries born by the cut, and those born after it. It costs the logarithm of their number, and sometimes a copy of the smaller part.
    pub fn divide(&self, alloc: Global, cut: u64) -> Result<(Run, Run), AllocError>
        ensures { IfOk result
            (λ p. (p.0 ≡ filter (is_upto cut) self.now) × (p.1 ≡ filter (is_after cut) self.now)) }
    {
        let (at, len) = (self.place_of(cut), self.len());
        let low = self.part(alloc, 0, at)?;
        let high = self.part(alloc, at, len)?;
        Ok((low, high))
    }
}

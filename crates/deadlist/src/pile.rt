//! The entries of one segment.
ghost use Rattle.std.specs.Prelude.{◌≡◌, ◌+◌, ◌^◌, ◌≤◌, ◌<◌, ◌++◌, ◌∷◌, [], length, filter, OnOk, IfOk, IfNone};
ghost use Rattle.std.specs.Option.{option_to_list};
ghost use Rattle.std.specs.List.Sorted.{IsPermutation};
ghost use Rattle.base.specs.Counting.{counted};
ghost use Rattle.deadlist.specs.Bits.{search_steps};
ghost use Rattle.deadlist.specs.Entries.{is_after, is_upto, run_entries, run_steps, runs_steps, AreHalved, last_length};

use crate::run::Run;
use base::meter::SegMeter;
use base::number::Dead;
use std::alloc::{AllocError, Global};
use std::marker::Model;

/// At least this many entries wait before they are sorted.
pub const FEW: usize = 64;

/// The entries of a segment: runs, each in order of birth, which copies share, and a tail that isn't shared, whose entries wait to be sorted.
/// Once settled, each run is more than twice as long as the next one, and the tail is short. So there are no more runs than the logarithm of the
/// number of entries. No entry was born before `low`, and none after `high`.
#[derive(Drop)]
pub struct Pile {
    runs: Vec<Run>,
    tail: Vec<Dead>,
    len: u64,
    low: u64,
    high: u64,
}

impl Model for Pile {
    ghost use Rattle.std.specs.Prelude.{◌≡◌, ◌+◌, ◌++◌, length};
    ghost use Rattle.deadlist.specs.Entries.{AreBornBy, AreBornFrom, run_entries, runs_steps};
    ghost use Rattle.deadlist.specs.Piled.{Piled};

    ghost Value = { Piled };

    ghost view = { λ p. record {
      entries = run_entries p.runs.items ++ p.tail.items;
      steps = runs_steps p.runs.items + length p.tail.items;
    } };

    ghost invariant = { λ p. (p.len ≡ length (run_entries p.runs.items ++ p.tail.items))
        × AreBornFrom p.low (run_entries p.runs.items ++ p.tail.items)
        × AreBornBy p.high (run_entries p.runs.items ++ p.tail.items) };
}

impl Pile {
    /// A pile without entries. It takes no memory.
    pub fn new(alloc: Global) -> Pile
        ensures entries { result.entries ≡ [] }
        ensures steps { result.steps ≡ 0 }
    {
        Pile {
            runs: Vec::new(alloc),
            tail: Vec::new(alloc),
            len: 0,
            low: u64::MAX,
            high: 0,
        }
    }

    /// How many entries it has.
    pub fn len(&self) -> u64
        ensures { result ≡ length self.now.entries }
    {
        self.len
    }

    /// An equal pile, which shares the runs.
    pub fn copy(&self, alloc: Global) -> Result<Pile, AllocError>
        ensures { IfOk result (λ p. p ≡ self.now) }
    {
        let mut runs = Vec::with_capacity(alloc, self.runs.len())?;
        for run in &self.runs {
            runs.push(run.copy()?)?;
        }
        let tail = Vec::from_slice(alloc, self.tail.as_slice())?;
        Ok(Pile {
            runs,
            tail,
            len: self.len,
            low: self.low,
            high: self.high,
        })
    }

    /// Adds an entry at the end.
    pub fn push(&mut self, dead: Dead) -> Result<(), AllocError>
        ensures ok { OnOk result (self.new.entries ≡ self.old.entries ++ dead ∷ []) }
    {
        let Some(len) = self.len.checked_add(1) else {
            return Err(AllocError);
        };
        self.tail.push(dead)?;
        self.len = len;
        self.low = self.low.min(dead.birth.0);
        self.high = self.high.max(dead.birth.0);
        Ok(())
    }

    /// The entries of both, in any order. It costs the runs and the tail of the pile with fewer entries.
    pub fn joined(self, other: Pile) -> Result<Pile, AllocError>
        ensures { IfOk result (λ p. IsPermutation (self.entries ++ other.entries) p.entries) }
    {
        if self.len < other.len {
            return other.united(self);
        }
        self.united(other)
    }

    // Its entries with those of the other. It costs the runs and the tail of the other.
    fn united(self, other: Pile) -> Result<Pile, AllocError>
        ensures { IfOk result (λ p. IsPermutation (self.entries ++ other.entries) p.entries) }
    {
        let Some(len) = self.len.checked_add(other.len) else {
            return Err(AllocError);
        };
        let (low, high) = (self.low.min(other.low), self.high.max(other.high));
        let (mut runs, mut tail) = (self.runs, self.tail);
        let (mut more, mut end) = (other.runs, other.tail);
        runs.append(&mut more)?;
        tail.append(&mut end)?;
        Ok(Pile {
            runs,
            tail,
            len,
            low,
            high,
        })
    }

    /// Its entries followed by those of the other, in their order. It costs the entries of the other.
    pub fn followed(self, other: &Pile) -> Result<Pile, AllocError>
        ensures entries { IfOk result (λ p. p.entries ≡ self.entries ++ other.now.entries) }
        ensures steps { IfOk result (λ p. p.steps ≤ self.steps + length other.now.entries) }
    {
        let Some(len) = self.len.checked_add(other.len) else {
            return Err(AllocError);
        };
        let (low, high) = (self.low.min(other.low), self.high.max(other.high));
        let (runs, tail) = (self.runs, self.tail);
        let tail = other.behind(tail)?;
        Ok(Pile {
            runs,
            tail,
            len,
            low,
            high,
        })
    }

    // These entries followed by its own.
    fn behind(&self, mut entries: Vec<Dead>) -> Result<Vec<Dead>, AllocError>
        ensures { IfOk result (λ v. v.items ≡ entries.items ++ self.now.entries) }
    {
        for run in &self.runs {
            entries.extend_from_slice(run.as_slice())?;
        }
        entries.extend_from_slice(self.tail.as_slice())?;
        Ok(entries)
    }

    /// The same entries in runs of which each is more than twice as long as the next one, with a short tail. It costs the runs and the tail, and
    /// the entries of runs that are merged. Over all pushes to a list of n entries, each entry is merged at most the logarithm of n times.
    pub fn settled(&self, alloc: Global) -> Result<Pile, AllocError>
        ensures entries { IfOk result (λ p. IsPermutation self.now.entries p.entries) }
        ensures steps { IfOk result (λ p. p.steps ≤ search_steps (length self.now.entries)) }
    {
        let mut runs = stacked(alloc, self.runs.as_slice())?;
        let tail = stack_many(alloc, &mut runs, self.tail.as_slice())?;
        Ok(Pile {
            runs,
            tail,
            len: self.len,
            low: self.low,
            high: self.high,
        })
    }

    /// The entries born by the cut, and those born after it. It costs the runs, in each the logarithm of its entries, and the tail.
    pub fn divide(&self, alloc: Global, cut: u64) -> Result<(Pile, Pile), AllocError>
        ensures entries { IfOk result
            (λ p. (p.0.entries ≡ filter (is_upto cut) self.now.entries)
            × (p.1.entries ≡ filter (is_after cut) self.now.entries)) }
        ensures steps { IfOk result
            (λ p. (p.0.steps ≤ self.now.steps) × (p.1.steps ≤ self.now.steps)) }
    {
        if self.high <= cut {
            return Ok((self.copy(alloc)?, Pile::new(alloc)));
        }
        if cut < self.low {
            return Ok((Pile::new(alloc), self.copy(alloc)?));
        }
        self.halves(alloc, cut)
    }

    // Divides the entries as `divide` does. It is for a cut that has entries on both sides.
    fn halves(&self, alloc: Global, cut: u64) -> Result<(Pile, Pile), AllocError>
        ensures entries { IfOk result
            (λ p. (p.0.entries ≡ filter (is_upto cut) self.now.entries)
            × (p.1.entries ≡ filter (is_after cut) self.now.entries)) }
        ensures steps { IfOk result
            (λ p. (p.0.steps ≤ self.now.steps) × (p.1.steps ≤ self.now.steps)) }
    {
        let _len = self.len;
        let (low_runs, high_runs) = divided(alloc, self.runs.as_slice(), cut)?;
        let (low_tail, high_tail) = dealt(alloc, self.tail.as_slice(), cut)?;
        let count = total(low_runs.as_slice()) + low_tail.len() as u64;
        let low = Pile {
            runs: low_runs,
            tail: low_tail,
            len: count,
            low: self.low,
            high: cut,
        };
        let high = Pile {
            runs: high_runs,
            tail: high_tail,
            len: self.len - count,
            low: cut.saturating_add(1),
            high: self.high,
        };
        Ok((low, high))
    }

    /// Its runs and its tail.
    pub fn runs(&self) -> (&[Run], &[Dead])
        ensures { run_entries result.0.now ++ result.1.now ≡ self.now.entries }
    {
        (self.runs.as_slice(), self.tail.as_slice())
    }

    /// How many entries were born by the cut. The meter counts each entry that it looks at: in each run the logarithm of its entries, and the
    /// tail. Where all entries are on one side of the cut it looks at none.
    pub fn count_upto(&self, cut: u64, meter: &mut SegMeter) -> u64
        ensures count { result ≡ length (filter (is_upto cut) self.now.entries) }
        ensures looked { meter.new ≤ meter.old + self.now.steps }
        ensures never_lower { meter.old ≤ meter.new }
    {
        if self.high <= cut {
            return self.len;
        }
        if cut < self.low {
            return 0;
        }
        self.counted_upto(cut, meter)
    }

    // How many entries were born by the cut, counted in the runs and the tail.
    fn counted_upto(&self, cut: u64, meter: &mut SegMeter) -> u64
        ensures count { result ≡ length (filter (is_upto cut) self.now.entries) }
        ensures looked { meter.new ≤ meter.old + self.now.steps }
        ensures never_lower { meter.old ≤ meter.new }
    {
        let _len = self.len;
        let mut count = 0;
        for run in &self.runs {
            count += run.count_upto(cut, meter) as u64;
        }
        let tail = self.tail.as_slice();
        count + (tail.len() as u64 - count_in(tail, cut, meter))
    }
}

/// How many entries these runs have.
fn total(runs: &[Run]) -> u64
    requires { length (run_entries runs.now) < 2 ^ 64 }
    ensures { result ≡ length (run_entries runs.now) }
{
    let mut total = 0;
    for run in runs {
        total += run.len() as u64;
    }
    total
}

/// Removes and answers the last of these runs, if it isn't more than twice as long as `len`.
fn pop_short(runs: &mut Vec<Run>, len: usize) -> Option<Run>
    ensures runs { runs.old.items ≡ runs.new.items ++ option_to_list result }
    ensures none { IfNone result (len + len < last_length (2 ^ 65) runs.old.items) }
{
    let last = runs.last()?;
    if last.len() / 2 > len {
        return None;
    }
    runs.pop()
}

/// Adds a run at the end. As long as the last run isn't more than twice as long as the new one, the two are merged first. On an error some runs
/// are lost.
fn stack(alloc: Global, runs: &mut Vec<Run>, run: Run) -> Result<(), AllocError>
    requires { AreHalved runs.old.items }
    ensures ok { OnOk result
        (IsPermutation (run_entries runs.old.items ++ run) (run_entries runs.new.items)) }
    ensures halved { OnOk result (AreHalved runs.new.items) }
{
    let mut run = run;
    while let Some(last) = pop_short(runs, run.len()) {
        run = Run::merged(alloc, &last, &run)?;
    }
    runs.push(run)?;
    Ok(())
}

/// Adds these entries to the runs as one more run, unless they are few, and answers those that still wait. On an error some runs are lost.
fn stack_many(alloc: Global, runs: &mut Vec<Run>, entries: &[Dead]) -> Result<Vec<Dead>, AllocError>
    requires { AreHalved runs.old.items }
    ensures entries { IfOk result (λ v. IsPermutation (run_entries runs.old.items ++ entries.now)
        (run_entries runs.new.items ++ v.items)) }
    ensures halved { OnOk result (AreHalved runs.new.items) }
    ensures few { IfOk result (λ v. length v.items < 64) }
{
    let own = Vec::from_slice(alloc, entries)?;
    if own.len() < FEW {
        return Ok(own);
    }
    let run = Run::new(alloc, own)?;
    stack(alloc, runs, run)?;
    Ok(Vec::new(alloc))
}

/// The same entries in runs of which each is more than twice as long as the next one.
fn stacked(alloc: Global, runs: &[Run]) -> Result<Vec<Run>, AllocError>
    ensures entries { IfOk result (λ v. IsPermutation (run_entries runs.now) (run_entries v.items)) }
    ensures halved { IfOk result (λ v. AreHalved v.items) }
{
    let mut stacked = Vec::with_capacity(alloc, runs.len())?;
    for run in runs {
        stack(alloc, &mut stacked, run.copy()?)?;
    }
    Ok(stacked)
}

/// Adds a run at the end, if it has an entry.
fn push_some(runs: &mut Vec<Run>, run: Run) -> Result<(), AllocError>
    ensures ok { OnOk result (run_entries runs.new.items ≡ run_entries runs.old.items ++ run) }
    ensures steps { OnOk result (runs_steps runs.new.items ≤ runs_steps runs.old.items + run_steps run) }
{
    if run.len() > 0 {
        runs.push(run)?;
    }
    Ok(())
}

/// The runs of entries born by the cut, and those of entries born after it.
fn divided(alloc: Global, runs: &[Run], cut: u64) -> Result<(Vec<Run>, Vec<Run>), AllocError>
    ensures entries { IfOk result
        (λ p. (run_entries p.0.items ≡ filter (is_upto cut) (run_entries runs.now))
        × (run_entries p.1.items ≡ filter (is_after cut) (run_entries runs.now))) }
    ensures steps { IfOk result (λ p. (runs_steps p.0.items ≤ runs_steps runs.now)
        × (runs_steps p.1.items ≤ runs_steps runs.now)) }
{
    let mut low = Vec::new(alloc);
    let mut high = Vec::new(alloc);
    for run in runs {
        let (first, rest) = run.divide(alloc, cut)?;
        push_some(&mut low, first)?;
        push_some(&mut high, rest)?;
    }
    Ok((low, high))
}

/// The entries born by the cut, and those born after it.
pub fn dealt(
    alloc: Global,
    entries: &[Dead],
    cut: u64,
) -> Result<(Vec<Dead>, Vec<Dead>), AllocError>
    ensures { IfOk result
        (λ p. (p.0.items ≡ filter (is_upto cut) entries.now)
        × (p.1.items ≡ filter (is_after cut) entries.now)) }
{
    let mut low = Vec::new(alloc);
    let mut high = Vec::new(alloc);
    for dead in entries {
        if dead.birth.0 <= cut {
            low.push(*dead)?;
        } else {
            high.push(*dead)?;
        }
    }
    Ok((low, high))
}

/// How many of the entries were born after the cut. The meter counts them all.
pub fn count_in(entries: &[Dead], cut: u64, meter: &mut SegMeter) -> u64
    ensures count { result ≡ length (filter (is_after cut) entries.now) }
    ensures few { result ≤ length entries.now }
    ensures looked { meter.new ≤ meter.old + length entries.now }
    ensures never_lower { meter.old ≤ meter.new }
{
    let mut count = 0;
    for dead in entries {
        if is_born_after(dead, cut, meter) {
            count += 1;
        }
    }
    count
}

// Whether the entry was born after the cut. The meter counts the entry.
fn is_born_after(dead: &Dead, cut: u64, meter: &mut SegMeter) -> bool
    ensures after { result ≡ is_after cut dead.now }
    ensures metered { meter.new ≡ counted meter.old 1 }
    ensures never_lower { meter.old ≤ meter.new }
{
    meter.add_one();
    dead.birth.0 > cut
}

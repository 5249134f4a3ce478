//! Additions of entries to the segments of their births, one by one or a whole segment at a time.
ghost use Rattle.std.specs.Prelude.{◌≡◌, ◌+◌, ◌≤◌, ◌<◌, ◌++◌, List, length, OnOk, IfOk, IsTrue};
ghost use Rattle.std.specs.List.Sorted.{IsPermutation};
ghost use Rattle.base.specs.declared.number.Dead.{Dead};
ghost use Rattle.deadlist.specs.Bits.{search_steps};
ghost use Rattle.deadlist.specs.Segments.{IsCut, AreBornFrom, AreBornByIf, AreAlike, FitsAt, entries_in, entries_of, cuts_of, most_steps, steps_of, with_cuts, pile_at, with_pile, last_with};
ghost use Rattle.deadlist.specs.Spans.{spans};

use crate::parts::{Parts, Segment};
use crate::pile::Pile;
use base::number::Dead;
use std::alloc::{AllocError, Global};

impl Parts {
    /// Adds each of these entries to the segment of its birth.
    pub fn place_all(&mut self, alloc: Global, entries: &[Dead]) -> Result<(), AllocError>
        requires { IsCut self.old }
        ensures entries { OnOk result
            (IsPermutation (entries_of self.old ++ entries.now) (entries_of self.new)) }
        ensures cuts { OnOk result (cuts_of self.new ≡ cuts_of self.old) }
        ensures cut { OnOk result (IsCut self.new) }
    {
        for dead in entries {
            self.place(alloc, *dead)?;
        }
        Ok(())
    }

    /// Adds each entry of a pile to the segment of its birth.
    fn place_pile(&mut self, alloc: Global, pile: &Pile) -> Result<(), AllocError>
        requires { IsCut self.old }
        ensures entries { OnOk result
            (IsPermutation (entries_of self.old ++ pile.now.entries) (entries_of self.new)) }
        ensures cuts { OnOk result (cuts_of self.new ≡ cuts_of self.old) }
        ensures cut { OnOk result (IsCut self.new) }
    {
        let (runs, tail) = pile.runs();
        for run in runs {
            self.place_all(alloc, run.as_slice())?;
        }
        self.place_all(alloc, tail)
    }

    /// Adds the entries of a pile to the segment with that index.
    fn put_pile(&mut self, alloc: Global, at: usize, pile: Pile) -> Result<(), AllocError>
        ensures closed { OnOk result (spans self.new.closed.items ≡ with_pile (spans self.old.closed.items) at
            (pile_at (spans self.new.closed.items) self.new.last.entries at)) }
        ensures last { OnOk result (self.new.last.entries ≡ last_with (spans self.old.closed.items) self.old.last.entries at
            (pile_at (spans self.new.closed.items) self.new.last.entries at)) }
        ensures pile { OnOk result (IsPermutation (pile_at (spans self.old.closed.items) self.old.last.entries at ++ pile.entries)
            (pile_at (spans self.new.closed.items) self.new.last.entries at)) }
    {
        let own = self.replace(at, Pile::new(alloc));
        let all = own.joined(pile)?;
        let _none = self.replace(at, all);
        Ok(())
    }

    /// Whether the segment with that index has no upper cut, or has it at `to` or later. Where `to` is None, only the last segment will do.
    fn ends_late(&self, at: usize, to: Option<u64>) -> bool
        ensures { IsTrue result
            → (q : List Dead) → AreBornByIf to q → FitsAt (spans self.now.closed.items) at q }
    {
        if at >= self.closed.len() {
            return true;
        }
        match to {
            Some(to) => to <= self.closed[at].upper.0,
            None => false,
        }
    }

    /// Adds a pile whose entries were born from `from` to `to`, or from `from` on where `to` is None. It is added whole where one segment takes
    /// all its entries.
    fn absorb(
        &mut self,
        alloc: Global,
        pile: Pile,
        from: u64,
        to: Option<u64>,
    ) -> Result<(), AllocError>
        requires cut { IsCut self.old }
        requires from { AreBornFrom from pile.entries }
        requires to { AreBornByIf to pile.entries }
        ensures entries { OnOk result
            (IsPermutation (entries_of self.old ++ pile.entries) (entries_of self.new)) }
        ensures cuts { OnOk result (cuts_of self.new ≡ cuts_of self.old) }
        ensures cut { OnOk result (IsCut self.new) }
    {
        let at = self.below(from);
        if self.ends_late(at, to) {
            return self.put_pile(alloc, at, pile);
        }
        self.place_pile(alloc, &pile)
    }

    /// Adds the cuts and entries of the other. Where the cuts agree, whole segments are added.
    pub fn merge(&mut self, alloc: Global, other: &Parts) -> Result<(), AllocError>
        requires cut { IsCut self.old }
        requires other { IsCut other.now }
        ensures entries { OnOk result
            (IsPermutation (entries_of self.old ++ entries_of other.now) (entries_of self.new)) }
        ensures cuts { OnOk result (cuts_of self.new ≡ with_cuts (cuts_of self.old) (cuts_of other.now)) }
        ensures cut { OnOk result (IsCut self.new) }
    {
        let mut from = 0;
        for segment in &other.closed {
            let to = segment.upper;
            self.cut(alloc, to)?;
            let pile = segment.pile.copy(alloc)?;
            self.absorb(alloc, pile, from, Some(to.0))?;
            from = to.0.saturating_add(1);
        }
        let last = other.last.copy(alloc)?;
        self.absorb(alloc, last, from, None)
    }

    /// A copy with these entries added, each to the segment of its birth, and with each segment settled.
    pub fn sorted(&self, alloc: Global, entries: &[Dead]) -> Result<Parts, AllocError>
        requires { IsCut self.now }
        ensures entries { IfOk result
            (λ p. IsPermutation (entries_of self.now ++ entries.now) (entries_of p)) }
        ensures cuts { IfOk result (λ p. cuts_of p ≡ cuts_of self.now) }
        ensures cut { IfOk result (λ p. IsCut p) }
        ensures steps { IfOk result (λ p. steps_of p ≤ search_steps (length (entries_of p))) }
    {
        let mut parts = self.copy(alloc)?;
        parts.place_all(alloc, entries)?;
        parts.settled(alloc)
    }

    /// The same entries and cuts, with each segment settled, as `Pile::settled` says.
    pub fn settled(&self, alloc: Global) -> Result<Parts, AllocError>
        requires { IsCut self.now }
        ensures entries { IfOk result (λ p. IsPermutation (entries_of self.now) (entries_of p)) }
        ensures cuts { IfOk result (λ p. cuts_of p ≡ cuts_of self.now) }
        ensures cut { IfOk result (λ p. IsCut p) }
        ensures steps { IfOk result (λ p. steps_of p ≤ search_steps (length (entries_of p))) }
    {
        let closed = settled_all(alloc, self.closed.as_slice())?;
        let last = self.last.settled(alloc)?;
        Ok(Parts { closed, last })
    }
}

/// The same segments, where the entries of each are in order.
fn settled_all(alloc: Global, segments: &[Segment]) -> Result<Vec<Segment>, AllocError>
    ensures alike { IfOk result (λ v. AreAlike (spans segments.now) (spans v.items)) }
    ensures steps { IfOk result
        (λ v. most_steps v.items ≤ search_steps (length (entries_in (spans segments.now)))) }
{
    let mut settled = Vec::with_capacity(alloc, segments.len())?;
    for segment in segments {
        let upper = segment.upper;
        let pile = segment.pile.settled(alloc)?;
        settled.push(Segment { upper, pile })?;
    }
    Ok(settled)
}

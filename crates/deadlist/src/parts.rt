//! Segments of a dead list.
ghost use Rattle.std.specs.Prelude.{◌≡◌, ◌+◌, ◌≤◌, ◌<◌, ◌++◌, ◌∷◌, [], filter, length, max, OnOk, OnErr, IfOk, IsOk, nat_le, nat_lt, true, false};
ghost use Rattle.std.specs.List.Sorted.{IsPermutation};
ghost use Rattle.deadlist.specs.Entries.{is_after, is_upto};
ghost use Rattle.deadlist.specs.Segments.{IsCut, entries_of, cuts_of, steps_of, ended, begun, has_cut, with_cut, without_cut, pile_at, with_pile, last_with};
ghost use Rattle.deadlist.specs.Spans.{spans};

use crate::pile::Pile;
use base::number::{Dead, Group};
use std::alloc::{AllocError, Global};
use std::mem;

/// The entries born by its upper cut and after the cut of the segment before it.
#[derive(Drop)]
pub struct Segment {
    pub upper: Group,
    pub pile: Pile,
}

/// Segments in order of their upper cuts, and the last segment, which has no upper cut.
#[derive(Drop)]
pub struct Parts {
    pub last: Pile,
    pub closed: Vec<Segment>,
}

impl Parts {
    /// One segment without entries. It takes no memory.
    pub fn new(alloc: Global) -> Parts
        ensures closed { result.closed.items ≡ [] }
        ensures last { result.last.entries ≡ [] }
        ensures steps { result.last.steps ≡ 0 }
    {
        Parts {
            closed: Vec::new(alloc),
            last: Pile::new(alloc),
        }
    }

    /// Equal segments, which share the runs.
    pub fn copy(&self, alloc: Global) -> Result<Parts, AllocError>
        ensures closed { IfOk result (λ p. p.closed.items ≡ self.now.closed.items) }
        ensures last { IfOk result (λ p. p.last ≡ self.now.last) }
    {
        let mut closed = Vec::with_capacity(alloc, self.closed.len())?;
        for segment in &self.closed {
            let upper = segment.upper;
            let pile = segment.pile.copy(alloc)?;
            closed.push(Segment { upper, pile })?;
        }
        let last = self.last.copy(alloc)?;
        Ok(Parts { closed, last })
    }

    /// How many segments end at the cut or before it.
    pub fn upto(&self, cut: u64) -> usize
        requires { IsCut self.now }
        ensures { result ≡ ended cut (spans self.now.closed.items) }
    {
        self.closed.as_slice().partition_point(|s| s.upper.0 <= cut)
    }

    /// How many segments end before the group.
    pub fn below(&self, group: u64) -> usize
        requires { IsCut self.now }
        ensures { result ≡ begun group (spans self.now.closed.items) }
    {
        self.closed
            .as_slice()
            .partition_point(|s| s.upper.0 < group)
    }

    /// The entries of the segment with that index.
    pub fn pile(&self, at: usize) -> &Pile
        ensures entries { result.now.entries ≡ pile_at (spans self.now.closed.items) self.now.last.entries at }
        ensures steps { result.now.steps ≤ steps_of self.now }
    {
        if at < self.closed.len() {
            &self.closed[at].pile
        } else {
            &self.last
        }
    }

    /// Replaces the entries of the segment with that index, and answers those that it had.
    pub fn replace(&mut self, at: usize, pile: Pile) -> Pile
        ensures closed { spans self.new.closed.items ≡ with_pile (spans self.old.closed.items) at pile.entries }
        ensures last { self.new.last.entries
            ≡ last_with (spans self.old.closed.items) self.old.last.entries at pile.entries }
        ensures old { result.entries ≡ pile_at (spans self.old.closed.items) self.old.last.entries at }
        ensures steps { steps_of self.new ≤ max (steps_of self.old) pile.steps }
    {
        if at < self.closed.len() {
            let segment = &mut self.closed[at];
            return mem::replace(&mut segment.pile, pile);
        }
        mem::replace(&mut self.last, pile)
    }

    /// Adds an entry to the segment with that index.
    fn put(&mut self, alloc: Global, at: usize, dead: Dead) -> Result<(), AllocError>
        ensures closed { OnOk result (spans self.new.closed.items ≡ with_pile (spans self.old.closed.items) at
            (pile_at (spans self.old.closed.items) self.old.last.entries at ++ dead ∷ [])) }
        ensures last { OnOk result (self.new.last.entries ≡ last_with (spans self.old.closed.items) self.old.last.entries at
            (pile_at (spans self.old.closed.items) self.old.last.entries at ++ dead ∷ [])) }
    {
        let mut pile = self.replace(at, Pile::new(alloc));
        pile.push(dead)?;
        let _none = self.replace(at, pile);
        Ok(())
    }

    /// Adds an entry to the segment of its birth.
    pub fn place(&mut self, alloc: Global, dead: Dead) -> Result<(), AllocError>
        requires { IsCut self.old }
        ensures entries { OnOk result
            (IsPermutation (entries_of self.old ++ dead ∷ []) (entries_of self.new)) }
        ensures cuts { OnOk result (cuts_of self.new ≡ cuts_of self.old) }
        ensures cut { OnOk result (IsCut self.new) }
    {
        let at = self.below(dead.birth.0);
        self.put(alloc, at, dead)
    }

    /// Whether there is a cut at this group. `at` is how many segments end at it or before it.
    pub fn stands(&self, at: usize, cut: u64) -> bool
        requires cut { IsCut self.now }
        requires at { at ≡ ended cut (spans self.now.closed.items) }
        ensures { result ≡ has_cut cut (spans self.now.closed.items) }
    {
        if at == 0 {
            return false;
        }
        self.closed[at - 1].upper.0 == cut
    }

    /// The entries of the segment that the cut may divide: those born by the cut, and those born after it. `at` is how many segments end at the
    /// cut or before it.
    fn divided(&self, alloc: Global, at: usize, cut: u64) -> Result<(Pile, Pile), AllocError>
        requires cut { IsCut self.now }
        requires at { at ≡ ended cut (spans self.now.closed.items) }
        ensures entries { IfOk result
            (λ p. (p.0.entries
            ≡ filter (is_upto cut) (pile_at (spans self.now.closed.items) self.now.last.entries at))
            × (p.1.entries
            ≡ filter (is_after cut) (pile_at (spans self.now.closed.items) self.now.last.entries at))) }
        ensures steps { IfOk result (λ p. (p.0.steps ≤ steps_of self.now) × (p.1.steps ≤ steps_of self.now)) }
    {
        let pile = self.pile(at);
        if self.stands(at, cut) {
            return Ok((Pile::new(alloc), pile.copy(alloc)?));
        }
        pile.divide(alloc, cut)
    }

    /// Removes the entries born after the cut, and answers them in segments by the cuts after it. On an error nothing is changed.
    pub fn take_after(&mut self, alloc: Global, cut: u64) -> Result<Parts, AllocError>
        requires { IsCut self.old }
        ensures kept { OnOk result (entries_of self.new ≡ filter (is_upto cut) (entries_of self.old)) }
        ensures kept_cuts { OnOk result
            (cuts_of self.new ≡ filter (λ c. nat_le c cut) (cuts_of self.old)) }
        ensures kept_cut { OnOk result (IsCut self.new) }
        ensures taken { IfOk result
            (λ p. entries_of p ≡ filter (is_after cut) (entries_of self.old)) }
        ensures taken_cuts { IfOk result
            (λ p. cuts_of p ≡ filter (λ c. nat_lt cut c) (cuts_of self.old)) }
        ensures taken_cut { IfOk result (λ p. IsCut p) }
        ensures kept_steps { OnOk result (steps_of self.new ≤ steps_of self.old) }
        ensures taken_steps { IfOk result (λ p. steps_of p ≤ steps_of self.old) }
        ensures err_closed { OnErr result (self.new.closed.items ≡ self.old.closed.items) }
        ensures err_last { OnErr result (self.new.last ≡ self.old.last) }
    {
        let at = self.upto(cut);
        let (low, high) = self.divided(alloc, at, cut)?;
        let closed = self.closed.split_off(at)?;
        let last = mem::replace(&mut self.last, low);
        let mut taken = Parts { closed, last };
        let _whole = taken.replace(0, high);
        Ok(taken)
    }

    /// Adds a cut, unless it is there already. On an error nothing is changed.
    pub fn cut(&mut self, alloc: Global, group: Group) -> Result<(), AllocError>
        requires { IsCut self.old }
        ensures entries { OnOk result (IsPermutation (entries_of self.old) (entries_of self.new)) }
        ensures cuts { OnOk result (cuts_of self.new ≡ with_cut group.0 (cuts_of self.old)) }
        ensures cut { OnOk result (IsCut self.new) }
        ensures steps { OnOk result (steps_of self.new ≤ steps_of self.old) }
        ensures stands { has_cut group.0 (spans self.old.closed.items) ≡ true → IsOk result }
        ensures err_closed { OnErr result (self.new.closed.items ≡ self.old.closed.items) }
        ensures err_last { OnErr result (self.new.last ≡ self.old.last) }
    {
        let at = self.upto(group.0);
        if self.stands(at, group.0) {
            return Ok(());
        }
        let (pile, high) = self.divided(alloc, at, group.0)?;
        self.closed.insert(at, Segment { upper: group, pile })?;
        let _whole = self.replace(at + 1, high);
        Ok(())
    }

    /// Removes a cut, if it is there. On an error nothing is changed.
    pub fn join(&mut self, alloc: Global, group: Group) -> Result<(), AllocError>
        requires { IsCut self.old }
        ensures entries { OnOk result (entries_of self.new ≡ entries_of self.old) }
        ensures cuts { OnOk result (cuts_of self.new ≡ without_cut group.0 (cuts_of self.old)) }
        ensures cut { OnOk result (IsCut self.new) }
        ensures steps { OnOk result (steps_of self.new ≤ steps_of self.old + length (entries_of self.old)) }
        ensures absent { has_cut group.0 (spans self.old.closed.items) ≡ false → IsOk result }
        ensures err_closed { OnErr result (self.new.closed.items ≡ self.old.closed.items) }
        ensures err_last { OnErr result (self.new.last ≡ self.old.last) }
    {
        let at = self.upto(group.0);
        if !self.stands(at, group.0) {
            return Ok(());
        }
        let low = self.pile(at - 1).copy(alloc)?;
        let whole = low.followed(self.pile(at))?;
        let _segment = self.closed.remove(at - 1);
        let _high = self.replace(at - 1, whole);
        Ok(())
    }
}

//! The entries of a dead list, one after the other.
ghost use Rattle.std.specs.Prelude.{◌≡◌, ◌+◌, ◌<◌, ◌++◌, ◌∷◌, [], drop, Option, None, Some, IsTrue, MatchOption, false};
ghost use Rattle.base.specs.declared.number.Dead.{Dead};
ghost use Rattle.deadlist.specs.Segments.{entries_of};
ghost use Rattle.deadlist.specs.Left.{left, left_here, left_beyond, unopened, unread};

use crate::parts::{Parts, Segment};
use crate::pile::Pile;
use crate::run::Run;
use base::number::Dead;

/// An iterator over the entries of a dead list.
#[derive(Drop)]
pub struct Iter<'a> {
    now: &'a [Dead],
    runs: &'a [Run],
    tail: &'a [Dead],
    closed: &'a [Segment],
    last: Option<&'a Pile>,
    fresh: Option<&'a [Dead]>,
}

impl<'a> Iter<'a> {
    pub(crate) fn new(parts: &'a Parts, fresh: &'a [Dead]) -> Iter<'a>
        ensures { left result ≡ entries_of parts.now ++ fresh.now }
    {
        Iter {
            now: &[],
            runs: &[],
            tail: &[],
            closed: parts.closed.as_slice(),
            last: Some(&parts.last),
            fresh: Some(fresh),
        }
    }

    /// Skips that many entries, or all that are left where they are fewer. It costs a step for each segment and each run of entries that it
    /// skips.
    pub(crate) fn pass(&mut self, count: u64)
        ensures { left self.new ≡ drop count (left self.old) }
    {
        let mut count = count;
        loop {
            count = self.pass_here(count);
            if count == 0 {
                return;
            }
            if !self.open_next() {
                return;
            }
        }
    }

    // Skips up to that many entries of the current segment, and answers how many are still to be skipped.
    fn pass_here(&mut self, count: u64) -> u64
        ensures left { drop result (left self.new) ≡ drop count (left self.old) }
        ensures here { 0 < result → left_here self.new ≡ [] }
        ensures unopened { unopened self.new ≡ unopened self.old }
    {
        let mut count = count;
        loop {
            let here = self.now;
            if let Some(rest) = here.get(count as usize..) {
                self.now = rest;
                return 0;
            }
            count -= here.len() as u64;
            self.now = &[];
            if !self.open_run() {
                return count;
            }
        }
    }

    // Goes on to the next run of the current segment, or to its tail, and answers whether there was one.
    fn open_run(&mut self) -> bool
        requires { self.old.now.now ≡ [] }
        ensures here { left_here self.new ≡ left_here self.old }
        ensures beyond { left_beyond self.new ≡ left_beyond self.old }
        ensures unopened { unopened self.new ≡ unopened self.old }
        ensures fewer { IsTrue result → unread self.new < unread self.old }
        ensures none { result ≡ false → left_here self.new ≡ [] }
    {
        if let [run, rest @ ..] = self.runs {
            self.now = run.as_slice();
            self.runs = rest;
            return true;
        }
        if self.tail.is_empty() {
            return false;
        }
        self.now = self.tail;
        self.tail = &[];
        true
    }

    // The next entry of the current segment.
    fn next_here(&mut self) -> Option<Dead>
        ensures here { MatchOption result ((left_here self.old ≡ []) × (left_here self.new ≡ []))
            (λ d. left_here self.old ≡ d ∷ left_here self.new) }
        ensures beyond { left_beyond self.new ≡ left_beyond self.old }
        ensures unopened { unopened self.new ≡ unopened self.old }
    {
        loop {
            if let [first, rest @ ..] = self.now {
                self.now = rest;
                return Some(*first);
            }
            if !self.open_run() {
                return None;
            }
        }
    }

    // Goes on to the next segment, once the current one has no entry left, and answers whether there was one.
    fn open_next(&mut self) -> bool
        requires { left_here self.old ≡ [] }
        ensures same { left self.new ≡ left self.old }
        ensures fewer { IsTrue result → unopened self.new < unopened self.old }
        ensures none { result ≡ false → left self.new ≡ [] }
    {
        if let [segment, rest @ ..] = self.closed {
            let (runs, tail) = segment.pile.runs();
            self.now = &[];
            self.runs = runs;
            self.tail = tail;
            self.closed = rest;
            return true;
        }
        if let Some(last) = self.last {
            let (runs, tail) = last.runs();
            self.now = &[];
            self.runs = runs;
            self.tail = tail;
            self.last = None;
            return true;
        }
        if let Some(fresh) = self.fresh {
            self.now = fresh;
            self.runs = &[];
            self.tail = &[];
            self.fresh = None;
            return true;
        }
        false
    }
}

impl Iterator for Iter<'_> {
    type Item = Dead;

    ghost use Rattle.std.specs.Iterator.{YieldsFirst, item_count};
    ghost use Rattle.deadlist.specs.Left.{left};

    ghost next_gives = { YieldsFirst left };

    ghost remaining = { item_count left };

    fn next(&mut self) -> Option<Dead> {
        loop {
            if let Some(dead) = self.next_here() {
                return Some(dead);
            }
            if !self.open_next() {
                return None;
            }
        }
    }
}

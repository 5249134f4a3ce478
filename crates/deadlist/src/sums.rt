//! How many entries were born by a cut and after it, from the sizes of segments.
ghost use Rattle.std.specs.Prelude.{◌≡◌, ◌+◌, ◌≤◌, ◌<◌, ◌^◌, ◌++◌, length, filter, take, drop};
ghost use Rattle.deadlist.specs.Entries.{is_after, is_upto};
ghost use Rattle.deadlist.specs.Segments.{IsCut, entries_in, entries_of, cuts_of, steps_of, reached_upto, reached_after};
ghost use Rattle.deadlist.specs.Spans.{spans};

use crate::parts::Parts;
use base::meter::SegMeter;

impl Parts {
    /// How many segments a sum of the entries born by the cut reaches: those that end at it or before it, and the one that it divides.
    pub fn reached_upto(&self, cut: u64) -> usize
        requires { IsCut self.now }
        ensures { result ≡ reached_upto cut (cuts_of self.now) }
    {
        let at = self.upto(cut);
        if self.stands(at, cut) {
            return at;
        }
        at + 1
    }

    /// How many segments a sum of the entries born after the cut reaches: those that end after it.
    pub fn reached_after(&self, cut: u64) -> usize
        requires { IsCut self.now }
        ensures { result ≡ reached_after cut (cuts_of self.now) }
    {
        self.closed.len() - self.upto(cut) + 1
    }

    /// How many entries the first `at` segments have.
    fn sum_before(&self, at: usize) -> u64
        requires at { at ≤ length self.now.closed.items }
        requires fits { length (entries_of self.now) < 2 ^ 64 }
        ensures { result ≡ length (entries_in (take at (spans self.now.closed.items))) }
    {
        let mut sum = 0;
        for i in 0..at {
            sum += self.closed[i].pile.len();
        }
        sum
    }

    /// How many entries the segments from index `at` on have.
    pub fn sum_from(&self, at: usize) -> u64
        requires at { at ≤ length self.now.closed.items }
        requires fits { length (entries_of self.now) < 2 ^ 64 }
        ensures { result ≡ length (entries_in (drop at (spans self.now.closed.items)) ++ self.now.last.entries) }
    {
        let mut sum = self.last.len();
        for i in at..self.closed.len() {
            sum += self.closed[i].pile.len();
        }
        sum
    }

    /// How many entries were born by the cut. The meter counts those that it looks at in the segment that the cut divides.
    pub fn sum_upto(&self, cut: u64, meter: &mut SegMeter) -> u64
        requires cut { IsCut self.now }
        requires fits { length (entries_of self.now) < 2 ^ 64 }
        ensures sum { result ≡ length (filter (is_upto cut) (entries_of self.now)) }
        ensures looked { meter.new ≤ meter.old + steps_of self.now }
        ensures never_lower { meter.old ≤ meter.new }
    {
        let at = self.upto(cut);
        let before = self.sum_before(at);
        if self.stands(at, cut) {
            return before;
        }
        before + self.pile(at).count_upto(cut, meter)
    }

    /// How many entries were born after the cut. The meter counts those that it looks at in the segment that the cut divides.
    pub fn sum_after(&self, cut: u64, meter: &mut SegMeter) -> u64
        requires cut { IsCut self.now }
        requires fits { length (entries_of self.now) < 2 ^ 64 }
        ensures sum { result ≡ length (filter (is_after cut) (entries_of self.now)) }
        ensures looked { meter.new ≤ meter.old + steps_of self.now }
        ensures never_lower { meter.old ≤ meter.new }
    {
        let at = self.upto(cut);
        let from = self.sum_from(at);
        if self.stands(at, cut) {
            return from;
        }
        from - self.pile(at).count_upto(cut, meter)
    }
}

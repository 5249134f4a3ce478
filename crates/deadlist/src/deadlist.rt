//! The dead list of a dataset.
ghost use Rattle.std.specs.Prelude.{◌≡◌, ◌+◌, ◌^◌, ◌≤◌, ◌<◌, ◌++◌, ◌∷◌, ◌⊎◌, [], length, filter, drop, max, OnOk, OnErr, IfOk, IfErr, IsOk, nat_le, nat_lt, ◌==◌, slice_get, if◌then◌else◌, true, false};
ghost use Rattle.std.specs.List.{list_any};
ghost use Rattle.std.specs.Option.{option_map};
ghost use Rattle.std.specs.List.Sorted.{IsPermutation, IsStrictlyIncreasing};
ghost use Rattle.base.specs.Counting.{counted};
ghost use Rattle.base.specs.declared.refusal.Refusal.TheVariants.{NoMemory};
ghost use Rattle.deadlist.specs.Bits.{search_steps};
ghost use Rattle.deadlist.specs.Entries.{is_after, is_upto};
ghost use Rattle.deadlist.specs.Left.{left};
ghost use Rattle.deadlist.specs.Segments.{with_cut, with_cuts, without_cut, reached_upto, reached_after};

use crate::iter::Iter;
use crate::parts::Parts;
use crate::pile::{FEW, count_in, dealt};
use base::meter::SegMeter;
use base::number::{Dead, Group};
use base::refusal::Refusal;
use std::alloc::{AllocError, Global};
use std::marker::Model;

/// The blocks that a dataset no longer has and the dataset before it still has, with their births (On-Disk Specification, chapter 4: dead
/// lists). Cuts divide the list into segments: a cut at a group divides the entries born by that group from those born after it. The cuts rise,
/// and the last segment has no upper cut.
///
/// The entries of the last segment are in order of birth, in runs of which each is more than twice as long as the next one. So dividing it at
/// any group costs about the square of the logarithm of its entries. New entries wait behind the segments; at most 63 wait after an `append`, or
/// after a `reserve` that has sorted entries in. A copy shares the runs, so that it costs the segments and the waiting entries. No entry was
/// born before `low`, and none after `high`, so that a count at a group that has all entries on one side looks into no segment.
///
/// Contracts see how many entries wait (`waiting`), and how many others a sum looks at, at most (`steps`). The meter of a sum counts both.
pub struct Deadlist {
    parts: Parts,
    count: u64,
    low: u64,
    high: u64,
    fresh: Vec<Dead>,
    alloc: Global,
}

// Written by hand, so that it is proved once: a derived one is expanded anew in each crate that drops the type.
impl Drop for Deadlist {
    fn drop(self) {
        let Deadlist {
            parts,
            count: _,
            low: _,
            high: _,
            fresh,
            alloc: _,
        } = self;
        drop(parts);
        drop(fresh);
    }
}

impl Model for Deadlist {
    ghost use Rattle.std.specs.Prelude.{◌≡◌, ◌++◌, ◌-◌, ◌^◌, min, length};
    ghost use Rattle.std.specs.Vec.{vec_len, vec_capacity};
    ghost use Rattle.deadlist.specs.Held.{Held};
    ghost use Rattle.deadlist.specs.Segments.{IsCut, AreBornFrom, AreBornBy, entries_of, cuts_of, steps_of};

    ghost Value = { Held };

    ghost view = { λ d. record {
      entries = entries_of d.parts ++ d.fresh.items;
      cuts = cuts_of d.parts;
      room = min (vec_capacity d.fresh - vec_len d.fresh) (2 ^ 64 - 1 - d.count);
      waiting = length d.fresh.items;
      steps = steps_of d.parts;
    } };

    ghost invariant = { λ d. IsCut d.parts × (d.count ≡ length (entries_of d.parts ++ d.fresh.items))
        × AreBornFrom d.low (entries_of d.parts ++ d.fresh.items)
        × AreBornBy d.high (entries_of d.parts ++ d.fresh.items) };
}

impl Deadlist {
    /// A list without entries and cuts. It takes no memory, and keeps the allocator.
    pub fn new(alloc: Global) -> Deadlist
        ensures entries { result.entries ≡ [] }
        ensures cuts { result.cuts ≡ [] }
        ensures waiting { result.waiting ≡ 0 }
        ensures steps { result.steps ≡ 0 }
    {
        Deadlist {
            parts: Parts::new(alloc),
            count: 0,
            low: u64::MAX,
            high: 0,
            fresh: Vec::new(alloc),
            alloc,
        }
    }

    /// An equal list, which shares the runs. It costs the segments with their runs, and the waiting entries. The meter counts all segments, also
    /// at an error. NoMemory where memory is refused.
    pub fn copy(&self, meter: &mut SegMeter) -> Result<Deadlist, Refusal>
        ensures entries { IfOk result (λ d. d.entries ≡ self.now.entries) }
        ensures cuts { IfOk result (λ d. d.cuts ≡ self.now.cuts) }
        ensures waiting { IfOk result (λ d. d.waiting ≡ self.now.waiting) }
        ensures steps { IfOk result (λ d. d.steps ≡ self.now.steps) }
        ensures err { IfErr result (λ e. e ≡ NoMemory) }
        ensures meter { meter.new ≡ counted meter.old (length self.now.cuts + 1) }
        ensures never_lower { meter.old ≤ meter.new }
    {
        reach(meter, self.segments());
        let parts = self.parts.copy(self.alloc)?;
        let fresh = Vec::from_slice(self.alloc, self.fresh.as_slice())?;
        Ok(Deadlist {
            parts,
            count: self.count,
            low: self.low,
            high: self.high,
            fresh,
            alloc: self.alloc,
        })
    }

    /// Makes room for that many pushes, until another call that changes the list. Once at least 64 entries wait, and at least as many as the
    /// list has segments, it also sorts these in: each costs a binary search over the cuts, and runs that are merged cost their entries. Then
    /// the meter counts all segments. NoMemory where memory is refused, or where the list with these pushes would have more entries than a u64
    /// counts; then nothing is changed.
    pub fn reserve(&mut self, n: usize, meter: &mut SegMeter) -> Result<(), Refusal>
        ensures entries { IsPermutation self.old.entries self.new.entries }
        ensures cuts { self.new.cuts ≡ self.old.cuts }
        ensures room { OnOk result (n ≤ self.new.room) }

        // Few wait then; and a sum looks at no more entries than before, or than about the square of the logarithm of all.
        ensures waiting { OnOk result (self.new.waiting ≤ max 63 (length self.old.cuts)) }
        ensures steps { OnOk result
            (self.new.steps ≤ max self.old.steps (search_steps (length self.old.entries))) }
        ensures unchanged { OnErr result (self.new ≡ self.old) }
        ensures err { IfErr result (λ e. e ≡ NoMemory) }

        // Either it reaches no segment, and the entries keep their order, or it reaches all segments.
        ensures meter { ((meter.new ≡ meter.old) × (self.new.entries ≡ self.old.entries))
            ⊎ (meter.new ≡ counted meter.old (length self.old.cuts + 1)) }
        ensures never_lower { meter.old ≤ meter.new }
    {
        if n as u64 > u64::MAX - self.count {
            return Err(Refusal::NoMemory);
        }
        let segments = self.segments();
        if self.fresh.len() < FEW.max(segments) {
            self.fresh.reserve(n)?;
            return Ok(());
        }
        reach(meter, segments);
        self.sort(n)?;
        Ok(())
    }

    // Sorts the waiting entries into their segments, and makes room for that many pushes.
    fn sort(&mut self, n: usize) -> Result<(), AllocError>
        requires { n + length self.old.entries < 2 ^ 64 }
        ensures entries { IsPermutation self.old.entries self.new.entries }
        ensures cuts { self.new.cuts ≡ self.old.cuts }
        ensures room { OnOk result (n ≤ self.new.room) }
        ensures waiting { OnOk result (self.new.waiting ≡ 0) }
        ensures steps { OnOk result (self.new.steps ≤ search_steps (length self.old.entries)) }
        ensures unchanged { OnErr result (self.new ≡ self.old) }
    {
        let sorted = self.parts.sorted(self.alloc, self.fresh.as_slice())?;
        self.fresh.reserve(n)?;
        self.fresh.clear();
        self.parts = sorted;
        Ok(())
    }

    /// Adds an entry. A `reserve` must have made room for it. It takes no memory. Constant time.
    pub fn push_reserved(&mut self, dead: Dead)
        requires { 0 < self.old.room }
        ensures entries { self.new.entries ≡ self.old.entries ++ dead ∷ [] }
        ensures cuts { self.new.cuts ≡ self.old.cuts }
        ensures room { self.new.room + 1 ≡ self.old.room }
        ensures waiting { self.new.waiting ≡ self.old.waiting + 1 }
        ensures steps { self.new.steps ≡ self.old.steps }
    {
        self.fresh.push_reserved(dead);
        self.count += 1;
        self.low = self.low.min(dead.birth.0);
        self.high = self.high.max(dead.birth.0);
    }

    /// Adds those of these entries that were born by the cut, in their order. A `reserve` must have made room for them. It takes no memory, and
    /// costs the number of all these entries.
    pub fn push_upto(&mut self, entries: &[Dead], cut: Group)
        requires { length (filter (is_upto cut.0) entries.now) ≤ self.old.room }
        ensures entries { self.new.entries ≡ self.old.entries ++ filter (is_upto cut.0) entries.now }
        ensures cuts { self.new.cuts ≡ self.old.cuts }
        ensures waiting { self.new.waiting
            ≡ self.old.waiting + length (filter (is_upto cut.0) entries.now) }
        ensures steps { self.new.steps ≡ self.old.steps }
    {
        for dead in entries {
            if dead.birth.0 <= cut.0 {
                self.push_reserved(*dead);
            }
        }
    }

    /// Adds the other list's entries and cuts: whole segments where the cuts agree, and else each entry by a binary search. It costs the
    /// segments of both lists with their runs, the waiting entries, which are sorted in where there are 64 or more, and the entries of runs that
    /// are merged. The meter counts the segments of both. NoMemory where memory is refused; then the other list is handed back, and both are
    /// unchanged.
    pub fn append(
        &mut self,
        other: Deadlist,
        meter: &mut SegMeter,
    ) -> Result<(), (Refusal, Deadlist)>
        ensures entries { OnOk result
            (IsPermutation (self.old.entries ++ other.entries) self.new.entries) }
        ensures cuts { OnOk result (self.new.cuts ≡ with_cuts self.old.cuts other.cuts) }
        ensures waiting { OnOk result (self.new.waiting ≤ 63) }
        ensures steps { OnOk result (self.new.steps ≤ search_steps (length self.new.entries)) }
        ensures unchanged { OnErr result (self.new ≡ self.old) }
        ensures returned { IfErr result (λ e. e.1 ≡ other) }
        ensures err { IfErr result (λ e. e.0 ≡ NoMemory) }
        ensures meter { meter.new
            ≡ counted meter.old ((length self.old.cuts + 1) + (length other.cuts + 1)) }
        ensures never_lower { meter.old ≤ meter.new }
    {
        reach(meter, self.segments());
        reach(meter, other.segments());
        match self.joined(&other) {
            Ok(()) => Ok(()),
            Err(_) => Err((Refusal::NoMemory, other)),
        }
    }

    // Adds the other list's entries and cuts; the other list stays as it is. On an error nothing is changed.
    fn joined(&mut self, other: &Deadlist) -> Result<(), AllocError>
        ensures entries { OnOk result
            (IsPermutation (self.old.entries ++ other.now.entries) self.new.entries) }
        ensures cuts { OnOk result (self.new.cuts ≡ with_cuts self.old.cuts other.now.cuts) }
        ensures waiting { OnOk result (self.new.waiting ≤ 63) }
        ensures steps { OnOk result (self.new.steps ≤ search_steps (length self.new.entries)) }
        ensures unchanged { OnErr result (self.new ≡ self.old) }
    {
        *self = self.both(other)?.with_few_waiting()?;
        Ok(())
    }

    // The same list, with the waiting entries sorted in where there are 64 or more.
    fn with_few_waiting(mut self) -> Result<Deadlist, AllocError>
        requires { self.steps ≤ search_steps (length self.entries) }
        ensures entries { IfOk result (λ d. IsPermutation self.entries d.entries) }
        ensures cuts { IfOk result (λ d. d.cuts ≡ self.cuts) }
        ensures waiting { IfOk result (λ d. d.waiting ≤ 63) }
        ensures steps { IfOk result (λ d. d.steps ≤ search_steps (length d.entries)) }
    {
        if self.fresh.len() < FEW {
            return Ok(self);
        }
        self.sort(0)?;
        Ok(self)
    }

    // A list with the entries and cuts of both. The waiting entries of both wait in it.
    fn both(&self, other: &Deadlist) -> Result<Deadlist, AllocError>
        ensures entries { IfOk result
            (λ d. IsPermutation (self.now.entries ++ other.now.entries) d.entries) }
        ensures cuts { IfOk result (λ d. d.cuts ≡ with_cuts self.now.cuts other.now.cuts) }
        ensures steps { IfOk result (λ d. d.steps ≤ search_steps (length d.entries)) }
    {
        let Some(count) = self.count.checked_add(other.count) else {
            return Err(AllocError);
        };
        let mut parts = self.parts.copy(self.alloc)?;
        parts.merge(self.alloc, &other.parts)?;
        let parts = parts.settled(self.alloc)?;
        let mut fresh = Vec::from_slice(self.alloc, self.fresh.as_slice())?;
        fresh.extend_from_slice(other.fresh.as_slice())?;
        Ok(Deadlist {
            parts,
            count,
            low: self.low.min(other.low),
            high: self.high.max(other.high),
            fresh,
            alloc: self.alloc,
        })
    }

    /// Removes the entries born after the cut, and answers them as a list; each of the two lists has the cuts on its side. It costs the segments
    /// that end after the cut, which the meter counts, a search in each run of the segment that the cut divides, the waiting entries, and
    /// sometimes a copy of the smaller of a run's two parts. NoMemory where memory is refused, and then nothing is changed.
    pub fn take_after(&mut self, cut: Group, meter: &mut SegMeter) -> Result<Deadlist, Refusal>
        ensures kept { OnOk result (self.new.entries ≡ filter (is_upto cut.0) self.old.entries) }
        ensures kept_cuts { OnOk result (self.new.cuts ≡ filter (λ c. nat_le c cut.0) self.old.cuts) }
        ensures taken { IfOk result (λ d. d.entries ≡ filter (is_after cut.0) self.old.entries) }
        ensures taken_cuts { IfOk result
            (λ d. d.cuts ≡ filter (λ c. nat_lt cut.0 c) self.old.cuts) }
        ensures kept_waiting { OnOk result (self.new.waiting ≤ self.old.waiting) }
        ensures kept_steps { OnOk result (self.new.steps ≤ self.old.steps) }
        ensures taken_waiting { IfOk result (λ d. d.waiting ≤ self.old.waiting) }
        ensures taken_steps { IfOk result (λ d. d.steps ≤ self.old.steps) }
        ensures unchanged { OnErr result (self.new ≡ self.old) }
        ensures err { IfErr result (λ e. e ≡ NoMemory) }
        ensures meter { meter.new ≡ counted meter.old (reached_after cut.0 self.old.cuts) }
        ensures never_lower { meter.old ≤ meter.new }
    {
        reach(meter, self.parts.reached_after(cut.0));
        let (kept, taken) = dealt(self.alloc, self.fresh.as_slice(), cut.0)?;
        let parts = self.parts.take_after(self.alloc, cut.0)?;
        let count = parts.sum_from(0) + taken.len() as u64;
        let (low, high) = (self.low.max(cut.0.saturating_add(1)), self.high);
        self.fresh = kept;
        self.count -= count;
        self.high = high.min(cut.0);
        Ok(Deadlist {
            parts,
            count,
            low,
            high,
            fresh: taken,
            alloc: self.alloc,
        })
    }

    /// How many entries were born after the cut, which is their space in blocks. It adds the segments' sizes; where the list doesn't have this
    /// cut, it also counts in the segment that the cut divides. The meter counts the segments that end after the cut, and each entry that the
    /// sum looks at: some in each run of the divided segment, and the waiting entries. It looks at none where the list's bounds of births show
    /// that all entries were born on one side of the cut.
    pub fn space_after(&self, cut: Group, meter: &mut SegMeter) -> u64
        ensures space { result ≡ length (filter (is_after cut.0) self.now.entries) }
        ensures reached { counted meter.old (reached_after cut.0 self.now.cuts) ≤ meter.new }
        ensures looked { meter.new
            ≤ meter.old + (reached_after cut.0 self.now.cuts + (self.now.steps + self.now.waiting)) }
        ensures never_lower { meter.old ≤ meter.new }
    {
        reach(meter, self.parts.reached_after(cut.0));
        self.count_after(cut.0, meter)
    }

    // How many entries were born after the cut. The meter counts those that it looks at.
    fn count_after(&self, cut: u64, meter: &mut SegMeter) -> u64
        ensures count { result ≡ length (filter (is_after cut) self.now.entries) }
        ensures looked { meter.new ≤ meter.old + (self.now.steps + self.now.waiting) }
        ensures never_lower { meter.old ≤ meter.new }
    {
        let count = self.count;
        if self.high <= cut {
            return 0;
        }
        if cut < self.low {
            return count;
        }
        let sum = self.parts.sum_after(cut, meter);
        sum + count_in(self.fresh.as_slice(), cut, meter)
    }

    /// How many entries were born by the cut, which is their space in blocks. It adds the segments' sizes; where the list doesn't have this cut,
    /// it also counts in the segment that the cut divides. The meter counts the segments that end at the cut or before it and the divided one,
    /// and each entry that the sum looks at: some in each run of the divided segment, and the waiting entries. It looks at none where the list's
    /// bounds of births show that all entries were born on one side of the cut.
    pub fn space_upto(&self, cut: Group, meter: &mut SegMeter) -> u64
        ensures space { result ≡ length (filter (is_upto cut.0) self.now.entries) }
        ensures reached { counted meter.old (reached_upto cut.0 self.now.cuts) ≤ meter.new }
        ensures looked { meter.new
            ≤ meter.old + (reached_upto cut.0 self.now.cuts + (self.now.steps + self.now.waiting)) }
        ensures never_lower { meter.old ≤ meter.new }
    {
        reach(meter, self.parts.reached_upto(cut.0));
        self.count_upto(cut.0, meter)
    }

    // How many entries were born by the cut. The meter counts those that it looks at.
    fn count_upto(&self, cut: u64, meter: &mut SegMeter) -> u64
        ensures count { result ≡ length (filter (is_upto cut) self.now.entries) }
        ensures looked { meter.new ≤ meter.old + (self.now.steps + self.now.waiting) }
        ensures never_lower { meter.old ≤ meter.new }
    {
        let count = self.count;
        if self.high <= cut {
            return count;
        }
        if cut < self.low {
            return 0;
        }
        let fresh = self.fresh.as_slice();
        let sum = self.parts.sum_upto(cut, meter);
        sum + (fresh.len() as u64 - count_in(fresh, cut, meter))
    }

    /// The entries, segment by segment, and then the waiting ones, which aren't sorted in yet. The meter counts all segments at once, however
    /// many entries are then read.
    pub fn iter(&self, meter: &mut SegMeter) -> Iter<'_>
        ensures entries { left result ≡ self.now.entries }
        ensures meter { meter.new ≡ counted meter.old (length self.now.cuts + 1) }
        ensures never_lower { meter.old ≤ meter.new }
    {
        reach(meter, self.segments());
        Iter::new(&self.parts, self.fresh.as_slice())
    }

    /// The entries of `iter` without the first `first` ones. It costs a step for each segment and each run that it skips. The meter counts all
    /// segments at once.
    pub fn iter_from(&self, first: u64, meter: &mut SegMeter) -> Iter<'_>
        ensures entries { left result ≡ drop first self.now.entries }
        ensures meter { meter.new ≡ counted meter.old (length self.now.cuts + 1) }
        ensures never_lower { meter.old ≤ meter.new }
    {
        let mut entries = self.iter(meter);
        entries.pass(first);
        entries
    }

    /// How many entries it has. Constant time.
    pub fn len(&self) -> u64
        ensures { result ≡ length self.now.entries }
    {
        self.count
    }

    /// How many segments it has: one more than it has cuts. The cuts rise.
    pub fn segments(&self) -> usize
        ensures count { result ≡ length self.now.cuts + 1 }
        ensures rising { IsStrictlyIncreasing self.now.cuts }
    {
        self.parts.closed.len() + 1
    }

    /// The group of the cut with that index, counted from the lowest, or None where there is no such cut. Constant time.
    pub fn cut_at(&self, index: usize) -> Option<Group>
        ensures { option_map (λ g. g.0) result ≡ slice_get self.now.cuts index }
    {
        let segment = self.parts.closed.get(index)?;
        Some(segment.upper)
    }

    /// Adds a cut at `group`, unless the list has it; then the meter counts the segment that the cut divides. It costs a search in each run of
    /// that segment and the waiting entries of that segment, and moves the segments behind it. NoMemory where memory is refused, and then
    /// nothing is changed. Where the list has the cut already it takes no memory.
    pub fn cut(&mut self, group: Group, meter: &mut SegMeter) -> Result<(), Refusal>
        ensures entries { IsPermutation self.old.entries self.new.entries }
        ensures cuts { OnOk result (self.new.cuts ≡ with_cut group.0 self.old.cuts) }
        ensures stands { list_any (λ c. c == group.0) self.old.cuts ≡ true → IsOk result }
        ensures room { self.new.room ≡ self.old.room }
        ensures waiting { self.new.waiting ≡ self.old.waiting }
        ensures steps { self.new.steps ≤ self.old.steps }
        ensures unchanged { OnErr result (self.new ≡ self.old) }
        ensures err { IfErr result (λ e. e ≡ NoMemory) }
        ensures meter { meter.new
            ≡ counted meter.old (if list_any (λ c. c == group.0) self.old.cuts then 0 else 1) }
        ensures never_lower { meter.old ≤ meter.new }
    {
        let _before = meter.count();
        let at = self.parts.upto(group.0);
        if !self.parts.stands(at, group.0) {
            meter.add_one();
        }
        self.parts.cut(self.alloc, group)?;
        Ok(())
    }

    /// Removes the cut at `group`, if the list has it; then the meter counts the two segments that become one. It costs the entries of the
    /// second, and moves the segments behind it. NoMemory where memory is refused, and then nothing is changed. Where the list doesn't have the
    /// cut it takes no memory.
    pub fn join(&mut self, group: Group, meter: &mut SegMeter) -> Result<(), Refusal>
        ensures entries { self.new.entries ≡ self.old.entries }
        ensures cuts { OnOk result (self.new.cuts ≡ without_cut group.0 self.old.cuts) }
        ensures absent { list_any (λ c. c == group.0) self.old.cuts ≡ false → IsOk result }
        ensures room { self.new.room ≡ self.old.room }
        ensures waiting { self.new.waiting ≡ self.old.waiting }
        ensures steps { self.new.steps ≤ self.old.steps + length self.old.entries }
        ensures unchanged { OnErr result (self.new ≡ self.old) }
        ensures err { IfErr result (λ e. e ≡ NoMemory) }
        ensures meter { meter.new
            ≡ counted meter.old (if list_any (λ c. c == group.0) self.old.cuts then 2 else 0) }
        ensures never_lower { meter.old ≤ meter.new }
    {
        let _before = meter.count();
        let at = self.parts.upto(group.0);
        if self.parts.stands(at, group.0) {
            reach(meter, 2);
        }
        self.parts.join(self.alloc, group)?;
        Ok(())
    }
}

/// Counts that many segments.
fn reach(meter: &mut SegMeter, segments: usize)
    ensures metered { meter.new ≡ counted meter.old segments }
    ensures never_lower { meter.old ≤ meter.new }
{
    let _before = meter.count();
    for _i in 0..segments {
        meter.add_one();
    }
}

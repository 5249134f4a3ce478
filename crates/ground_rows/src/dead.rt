//! Rows on dead lists.
ghost use Rattle.std.specs.Prelude.{◌≤◌, OnOk};

use base::meter::SegMeter;
use base::number::{BlockNo, Dead, Group};
use base::refusal::Refusal;
use deadlist::deadlist::Deadlist;
use row_machine::told::{Told, done, mixed};
use row_machine::words::{Words, place_of};
use std::alloc::{AllocError, Global};
use std::mem;
use toll::Toll;

/// What is done, in the order of `call`.
const CALLS: &str = "new,push,two,reserve,cut,join,take,append,copy,look,after,upto,cuts";

/// Four dead lists.
#[derive(Drop)]
pub struct DeadLists {
    alloc: Global,
    lists: Vec<Deadlist>,
}

fn meter() -> SegMeter {
    SegMeter::new(Toll::new())
}

fn dead_of(block: u32, birth: u64) -> Dead {
    Dead {
        block: BlockNo(block),
        birth: Group(birth),
    }
}

/// Makes room for pushes, and tells whether the meter counted no segment, or all.
fn reserved(list: &mut Deadlist, count: usize) -> Result<bool, Refusal>
    ensures { OnOk result (count ≤ list.new.room) }
{
    let mut meter = meter();
    list.reserve(count, &mut meter)?;
    Ok(meter.count() == 0 || meter.count() == list.segments() as u64)
}

fn is_metered(outcome: Result<bool, Refusal>) -> Told {
    match outcome {
        Ok(is) => Told::Is(is),
        Err(refusal) => Told::Refused(refusal),
    }
}

fn pushed(list: &mut Deadlist, block: u32, birth: u64) -> Result<bool, Refusal> {
    let is = reserved(list, 1)?;
    list.push_reserved(dead_of(block, birth));
    Ok(is)
}

/// Two pushes into room that was made at once.
fn two_pushed(list: &mut Deadlist, block: u32, one: u64, other: u64) -> Result<bool, Refusal> {
    let is = reserved(list, 2)?;
    list.push_reserved(dead_of(block, one));
    list.push_reserved(dead_of(block, other));
    Ok(is)
}

/// How many segments a call has reached that gives nothing.
fn reached(outcome: Result<(), Refusal>, meter: SegMeter) -> Told {
    match outcome {
        Ok(()) => Told::One(meter.count()),
        Err(refusal) => done(Err(refusal)),
    }
}

fn cut(list: &mut Deadlist, at: u64) -> Told {
    let mut meter = meter();
    let outcome = list.cut(Group(at), &mut meter);
    reached(outcome, meter)
}

fn joined(list: &mut Deadlist, at: u64) -> Told {
    let mut meter = meter();
    let outcome = list.join(Group(at), &mut meter);
    reached(outcome, meter)
}

/// How many entries there are, a sum of them in which their order doesn't count, and the segments reached.
fn look(list: &Deadlist) -> Told {
    let mut meter = meter();
    let (mut sum, mut count) = (0u64, 0u64);
    for dead in list.iter(&mut meter) {
        sum = sum.wrapping_add(mixed(u64::from(dead.block.0), dead.birth.0));
        count = count.saturating_add(1);
    }
    Told::Three(count, sum, meter.count())
}

/// How many cuts are at a group or before it, and whether one is there.
fn cuts_by(list: &Deadlist, at: u64) -> (u64, bool) {
    let (mut count, mut is_there) = (0u64, false);
    for index in 0..list.segments() {
        if let Some(cut) = list.cut_at(index) {
            if cut.0 <= at {
                count = count.saturating_add(1);
            }
            if cut.0 == at {
                is_there = true;
            }
        }
    }
    (count, is_there)
}

/// What a sum tells that reaches so many segments: its count, and these segments. The meter counts them, and some entries, none of them twice.
/// Where it counts fewer or more than that, what it counts is told in their place.
fn summed(list: &Deadlist, count: u64, segments: u64, meter: SegMeter) -> Told {
    let counted = meter.count();
    let is_within = segments <= counted && counted <= segments.saturating_add(list.len());
    Told::Two(count, if is_within { segments } else { counted })
}

/// A sum reaches the segments that end after the group.
fn after(list: &Deadlist, at: u64) -> Told {
    let mut meter = meter();
    let count = list.space_after(Group(at), &mut meter);
    let (passed, _) = cuts_by(list, at);
    let segments = (list.segments() as u64).saturating_sub(passed);
    summed(list, count, segments, meter)
}

/// A sum reaches the segments that end at the group or before it, and one more where there is no cut.
fn upto(list: &Deadlist, at: u64) -> Told {
    let mut meter = meter();
    let count = list.space_upto(Group(at), &mut meter);
    let (passed, is_there) = cuts_by(list, at);
    let segments = passed.saturating_add(u64::from(!is_there));
    summed(list, count, segments, meter)
}

/// How many segments there are, and a sum of the cuts from the lowest on.
fn cuts(list: &Deadlist) -> Told {
    let (mut sum, mut count) = (0u64, 0usize);
    for at in 0..list.segments() {
        if let Some(cut) = list.cut_at(at) {
            sum = mixed(sum, cut.0);
            count = count.saturating_add(1);
        }
    }
    Told::Three(list.segments() as u64, count as u64, sum)
}

impl DeadLists {
    pub fn new(alloc: Global) -> DeadLists {
        DeadLists {
            alloc,
            lists: Vec::new(alloc),
        }
    }

    fn taken(&mut self, register: u32) -> Deadlist {
        match self.lists.get_mut(register as usize) {
            Some(place) => mem::replace(place, Deadlist::new(self.alloc)),
            None => Deadlist::new(self.alloc),
        }
    }

    fn put(&mut self, register: u32, list: Deadlist) {
        if let Some(place) = self.lists.get_mut(register as usize) {
            *place = list;
        }
    }

    /// Makes room for four lists.
    fn made(&mut self) -> Result<(), AllocError> {
        for _ in self.lists.len()..4 {
            self.lists.push(Deadlist::new(self.alloc))?;
        }
        Ok(())
    }

    /// Carries out `CALL LIST ..`.
    pub fn row(&mut self, words: &mut Words) -> Told {
        let call = place_of(CALLS, words.word());
        let register = words.number();
        if self.made().is_err() {
            return Told::Refused(Refusal::NoMemory);
        }
        let mut list = self.taken(register);
        let told = if call < 7 {
            self.changed(call, &mut list, words)
        } else {
            self.joined_or_asked(call, &mut list, words)
        };
        self.put(register, list);
        told
    }

    fn changed(&mut self, call: u32, list: &mut Deadlist, words: &mut Words) -> Told {
        match call {
            1 => {
                *list = Deadlist::new(self.alloc);
                Told::Done
            }
            2 => {
                let block = words.number();
                is_metered(pushed(list, block, words.long()))
            }
            3 => {
                let (block, one) = (words.number(), words.long());
                is_metered(two_pushed(list, block, one, words.long()))
            }
            4 => is_metered(reserved(list, words.number() as usize)),
            5 => cut(list, words.long()),
            6 => joined(list, words.long()),
            _ => Told::Unknown,
        }
    }

    fn joined_or_asked(&mut self, call: u32, list: &mut Deadlist, words: &mut Words) -> Told {
        match call {
            7 => {
                let to = words.number();
                self.split(list, to, words.long())
            }
            8 => self.appended(list, words.number()),
            9 => self.copied(list, words.number()),
            10 => look(list),
            11 => after(list, words.long()),
            12 => upto(list, words.long()),
            13 => cuts(list),
            _ => Told::Unknown,
        }
    }

    /// Puts what was born after a group into another list.
    fn split(&mut self, list: &mut Deadlist, to: u32, at: u64) -> Told {
        let mut meter = meter();
        match list.take_after(Group(at), &mut meter) {
            Ok(later) => {
                self.put(to, later);
                Told::One(meter.count())
            }
            Err(refusal) => Told::Refused(refusal),
        }
    }

    /// Adds another list, which is empty then; where that is refused, it is as it was.
    fn appended(&mut self, list: &mut Deadlist, other: u32) -> Told {
        let mut meter = meter();
        let rest = self.taken(other);
        match list.append(rest, &mut meter) {
            Ok(()) => Told::One(meter.count()),
            Err((refusal, rest)) => {
                self.put(other, rest);
                Told::Refused(refusal)
            }
        }
    }

    fn copied(&mut self, list: &Deadlist, to: u32) -> Told {
        let mut meter = meter();
        match list.copy(&mut meter) {
            Ok(copy) => {
                self.put(to, copy);
                Told::One(meter.count())
            }
            Err(refusal) => Told::Refused(refusal),
        }
    }
}

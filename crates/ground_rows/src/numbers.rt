//! Rows on block numbers.
use base::number::BlockNo;
use base::refusal::Refusal;
use row_machine::told::{Told, done, mixed};
use row_machine::words::{Words, place_of};
use std::alloc::Global;
use std::mem;
use zalloc::{Allocator, BlockState, Counts, MOST_BLOCKS};

/// What is done, in the order of `call`.
const CALLS: &str = "new,take,release,wait,group,copy,state,find,counts,look,shown";

/// Two allocators, where they were made.
#[derive(Drop)]
pub struct Allocators {
    alloc: Global,
    one: Option<Allocator>,
    other: Option<Allocator>,
}

/// A number for a state: 1 Free, 2 Allocated, 3 Waiting, and 0 of no number.
pub fn state_of(state: Option<BlockState>) -> u64 {
    match state {
        Some(BlockState::Free) => 1,
        Some(BlockState::Allocated) => 2,
        Some(BlockState::Waiting) => 3,
        None => 0,
    }
}

pub fn taken(numbers: &mut Allocator, number: u32) -> Told {
    match numbers.state(BlockNo(number)) {
        Some(BlockState::Free) => {
            numbers.take(BlockNo(number));
            Told::Done
        }
        _ => Told::Absent,
    }
}

fn released(numbers: &mut Allocator, number: u32, wait: bool) -> Told {
    match numbers.state(BlockNo(number)) {
        Some(BlockState::Allocated) => {
            numbers.release(BlockNo(number), wait);
            Told::Done
        }
        _ => Told::Absent,
    }
}

/// The least Free number not below one, or 2 to the 32.
pub fn found(numbers: &Allocator, from: u32) -> u64 {
    match numbers.find(from) {
        Some(number) => u64::from(number.0),
        None => 1 << 32,
    }
}

pub fn counts(numbers: &Allocator) -> Told {
    let Counts {
        free,
        allocated,
        waiting,
    } = numbers.counts();
    Told::Three(u64::from(free), u64::from(allocated), u64::from(waiting))
}

/// A sum of the states of the numbers below one.
pub fn look(numbers: &Allocator, count: u32) -> u64 {
    let mut sum = 0;
    for number in 0..count {
        sum = mixed(sum, state_of(numbers.state(BlockNo(number))));
    }
    sum
}

/// Whether this text shows them.
fn is_shown(alloc: Global, numbers: &Allocator, text: &str) -> Told {
    match format!(in alloc; "{numbers:?}") {
        Ok(shown) => Told::Is(shown.as_str() == text),
        Err(_) => Told::Refused(Refusal::NoMemory),
    }
}

impl Allocators {
    pub fn new(alloc: Global) -> Allocators {
        Allocators {
            alloc,
            one: None,
            other: None,
        }
    }

    fn put(&mut self, register: u32, numbers: Allocator) {
        if register == 0 {
            self.one = Some(numbers);
        } else {
            self.other = Some(numbers);
        }
    }

    fn taken(&mut self, register: u32) -> Option<Allocator> {
        if register == 0 {
            mem::take(&mut self.one)
        } else {
            mem::take(&mut self.other)
        }
    }

    /// Carries out `CALL ALLOCATOR ..`.
    pub fn row(&mut self, words: &mut Words) -> Told {
        let call = place_of(CALLS, words.word());
        let register = words.number();
        if call == 1 {
            return self.made(register, words.number());
        }
        let Some(mut numbers) = self.taken(register) else {
            return Told::Absent;
        };
        let told = if call < 7 {
            self.changed(call, &mut numbers, words)
        } else {
            asked(self.alloc, call, &numbers, words)
        };
        self.put(register, numbers);
        told
    }

    fn made(&mut self, register: u32, count: u32) -> Told {
        if count > MOST_BLOCKS {
            return Told::Absent;
        }
        match Allocator::new(self.alloc, count) {
            Ok(numbers) => {
                self.put(register, numbers);
                Told::Done
            }
            Err(refusal) => Told::Refused(refusal),
        }
    }

    fn changed(&mut self, call: u32, numbers: &mut Allocator, words: &mut Words) -> Told {
        match call {
            2 => taken(numbers, words.number()),
            3 => released(numbers, words.number(), false),
            4 => released(numbers, words.number(), true),
            5 => {
                numbers.end_group();
                Told::Done
            }
            6 => self.copied(numbers, words.number()),
            _ => Told::Unknown,
        }
    }

    fn copied(&mut self, numbers: &Allocator, to: u32) -> Told {
        match numbers.copy() {
            Ok(copy) => {
                self.put(to, copy);
                Told::Done
            }
            Err(refusal) => done(Err(refusal)),
        }
    }
}

fn asked(alloc: Global, call: u32, numbers: &Allocator, words: &mut Words) -> Told {
    match call {
        7 => Told::One(state_of(numbers.state(BlockNo(words.number())))),
        8 => Told::One(found(numbers, words.number())),
        9 => counts(numbers),
        10 => Told::One(look(numbers, words.number())),
        11 => is_shown(alloc, numbers, words.rest),
        _ => Told::Unknown,
    }
}

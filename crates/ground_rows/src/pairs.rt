//! Rows on block numbers that have a synced state beside the present one.
use crate::numbers::{counts, found, look, state_of};
use base::number::BlockNo;
use base::refusal::Refusal;
use row_machine::told::Told;
use row_machine::words::{Words, place_of};
use std::alloc::Global;
use std::mem;
use zalloc::{Allocator, BlockState, MOST_BLOCKS, Numbers};

/// What is done, in the order of `call`.
const CALLS: &str = "new,turn,wait,take,release,group,restore,at,counts,look,shown";

/// Numbers in two states, and what the last group's end left in the place of a copy of the synced one.
#[derive(Drop)]
pub struct TwoStates {
    alloc: Global,
    numbers: Option<Numbers>,
    kept: Option<Allocator>,
}

/// Takes a Free number.
fn taken(numbers: &mut Numbers, number: u32) -> Told {
    match numbers.present().state(BlockNo(number)) {
        Some(BlockState::Free) => {
            numbers.take(BlockNo(number));
            Told::Done
        }
        _ => Told::Absent,
    }
}

/// Releases an Allocated number.
fn released(numbers: &mut Numbers, number: u32, wait: bool) -> Told {
    match numbers.present().state(BlockNo(number)) {
        Some(BlockState::Allocated) => {
            numbers.release(BlockNo(number), wait);
            Told::Done
        }
        _ => Told::Absent,
    }
}

/// Takes a Free number, or releases an Allocated one.
fn turned(numbers: &mut Numbers, number: u32, wait: bool) -> Told {
    match taken(numbers, number) {
        Told::Done => Told::Done,
        _ => released(numbers, number, wait),
    }
}

/// Ends a group, which a copy of the synced state follows.
fn ended(numbers: &mut Numbers) -> Result<Allocator, Refusal> {
    let mut kept = numbers.synced().copy()?;
    numbers.end_group(&mut kept);
    Ok(kept)
}

/// The state of a number, the least Free one not below it, and its synced state.
fn at(numbers: &Numbers, number: u32) -> Told {
    Told::Three(
        state_of(numbers.present().state(BlockNo(number))),
        found(numbers.present(), number),
        state_of(numbers.synced().state(BlockNo(number))),
    )
}

fn is_shown(alloc: Global, numbers: &Numbers, text: &str) -> Told {
    match format!(in alloc; "{numbers:?}") {
        Ok(shown) => Told::Is(shown.as_str() == text),
        Err(_) => Told::Refused(Refusal::NoMemory),
    }
}

impl TwoStates {
    pub fn new(alloc: Global) -> TwoStates {
        TwoStates {
            alloc,
            numbers: None,
            kept: None,
        }
    }

    /// Carries out `CALL ..`.
    pub fn row(&mut self, words: &mut Words) -> Told {
        let call = place_of(CALLS, words.word());
        if call == 1 {
            return self.made(words.number());
        }
        let Some(mut numbers) = mem::take(&mut self.numbers) else {
            return Told::Absent;
        };
        let told = if call < 8 {
            self.changed(call, &mut numbers, words)
        } else {
            self.asked(call, &numbers, words)
        };
        self.numbers = Some(numbers);
        told
    }

    fn made(&mut self, count: u32) -> Told {
        if count > MOST_BLOCKS {
            return Told::Absent;
        }
        match Numbers::new(self.alloc, count) {
            Ok(numbers) => {
                self.numbers = Some(numbers);
                Told::Done
            }
            Err(refusal) => Told::Refused(refusal),
        }
    }

    fn changed(&mut self, call: u32, numbers: &mut Numbers, words: &mut Words) -> Told {
        match call {
            2 => turned(numbers, words.number(), false),
            3 => turned(numbers, words.number(), true),
            4 => taken(numbers, words.number()),
            5 => released(numbers, words.number(), false),
            6 => self.grouped(numbers),
            7 => {
                numbers.restore();
                Told::Done
            }
            _ => Told::Unknown,
        }
    }

    fn grouped(&mut self, numbers: &mut Numbers) -> Told {
        match ended(numbers) {
            Ok(kept) => {
                self.kept = Some(kept);
                Told::Done
            }
            Err(refusal) => Told::Refused(refusal),
        }
    }

    /// A sum of the states of the numbers below one: now, as they were synced, and as what the last group's end left has them.
    fn looked_at(&self, numbers: &Numbers, count: u32) -> Told {
        let kept = match &self.kept {
            Some(kept) => look(kept, count),
            None => 0,
        };
        Told::Three(
            look(numbers.present(), count),
            look(numbers.synced(), count),
            kept,
        )
    }

    fn asked(&self, call: u32, numbers: &Numbers, words: &mut Words) -> Told {
        match call {
            8 => at(numbers, words.number()),
            9 => {
                if words.number() == 0 {
                    counts(numbers.present())
                } else {
                    counts(numbers.synced())
                }
            }
            10 => self.looked_at(numbers, words.number()),
            11 => is_shown(self.alloc, numbers, words.rest),
            _ => Told::Unknown,
        }
    }
}

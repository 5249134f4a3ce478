//! Rows on lists whose copies share what they have in common.
use base::refusal::Refusal;
use row_machine::told::{Told, done_or_refused, mixed};
use row_machine::words::{Words, place_of};
use shared_list::SharedList;
use std::alloc::{AllocError, Global};
use std::mem;
use std::sync::Arc;

/// What is done, in the order of `call`.
const CALLS: &str =
    "new,push,share,run,remove,thin,set,pop,split,append,copy,part,around,first,look";

/// Four lists of numbers.
#[derive(Drop)]
pub struct Lists {
    alloc: Global,
    lists: Vec<SharedList<u32>>,
}

fn pushed(list: &mut SharedList<u32>, number: u32) -> Told {
    done_or_refused(list.push(number))
}

/// Pushes by an owner.
fn shared(alloc: Global, list: &mut SharedList<u32>, number: u32) -> Told {
    match Arc::new(alloc, number) {
        Ok(item) => done_or_refused(list.push_shared(item)),
        Err(_) => Told::Refused(Refusal::NoMemory),
    }
}

fn run(list: &mut SharedList<u32>, first: u32, count: u32) -> Result<(), AllocError> {
    for number in 0..count {
        list.push(first.wrapping_add(number))?;
    }
    Ok(())
}

/// A number as a place in a list or at its end.
fn place(list: &SharedList<u32>, number: u32) -> usize {
    (number as usize)
        .checked_rem(list.len().saturating_add(1))
        .unwrap_or(0)
}

fn removed(list: &mut SharedList<u32>, at: usize) -> Told {
    if at >= list.len() {
        return Told::Absent;
    }
    done_or_refused(list.remove(at))
}

/// Removes so many from a place on.
fn thinned(list: &mut SharedList<u32>, at: usize, count: u32) -> Result<(), AllocError> {
    for _ in 0..count {
        if at < list.len() {
            list.remove(at)?;
        }
    }
    Ok(())
}

fn set(alloc: Global, list: &mut SharedList<u32>, at: usize, number: u32) -> Told {
    if at >= list.len() {
        return Told::Absent;
    }
    match Arc::new(alloc, number) {
        Ok(item) => done_or_refused(list.set_shared(at, item)),
        Err(_) => Told::Refused(Refusal::NoMemory),
    }
}

fn popped(list: &mut SharedList<u32>) -> Told {
    match list.pop_shared() {
        Ok(Some(item)) => Told::One(u64::from(*item)),
        Ok(None) => Told::Absent,
        Err(_) => Told::Refused(Refusal::NoMemory),
    }
}

/// A number, or 2 to the 32 where there is none.
fn or_past(number: Option<&u32>) -> u64 {
    match number {
        Some(number) => u64::from(*number),
        None => 1 << 32,
    }
}

/// Where the numbers below one end, in a list that rises.
fn parted(list: &SharedList<u32>, number: u32) -> Told {
    Told::One(list.partition_point(|x| *x < number) as u64)
}

fn around(list: &SharedList<u32>, number: u32) -> Told {
    let around = list.around(|x| *x < number);
    Told::Three(
        or_past(around.before),
        or_past(around.at),
        or_past(around.after),
    )
}

fn first(list: &SharedList<u32>, number: u32) -> Told {
    Told::One(or_past(list.first(|x| *x < number)))
}

/// The length, the last element, and a sum of all; 0 and no more where the list tells itself otherwise by its indices.
fn look(list: &SharedList<u32>) -> Told {
    let (mut sum, mut at) = (0u64, 0usize);
    for number in list.iter() {
        if list.get(at) != Some(number) {
            return Told::One(0);
        }
        sum = mixed(sum, u64::from(*number));
        at = at.saturating_add(1);
    }
    if at != list.len() || list.get(at).is_some() {
        return Told::One(0);
    }
    Told::Three(at as u64, or_past(list.last()), sum)
}

impl Lists {
    pub fn new(alloc: Global) -> Lists {
        Lists {
            alloc,
            lists: Vec::new(alloc),
        }
    }

    /// Takes a list out. It is empty where it was never put in.
    fn taken(&mut self, register: u32) -> SharedList<u32> {
        match self.lists.get_mut(register as usize) {
            Some(place) => mem::replace(place, SharedList::new(self.alloc)),
            None => SharedList::new(self.alloc),
        }
    }

    /// Puts a list in, where there is such a register.
    fn put(&mut self, register: u32, list: SharedList<u32>) {
        if let Some(place) = self.lists.get_mut(register as usize) {
            *place = list;
        }
    }

    /// Makes room for four lists.
    fn made(&mut self) -> Result<(), AllocError> {
        for _ in self.lists.len()..4 {
            self.lists.push(SharedList::new(self.alloc))?;
        }
        Ok(())
    }

    /// Carries out `CALL LIST ..`.
    pub fn row(&mut self, words: &mut Words) -> Told {
        let call = place_of(CALLS, words.word());
        let register = words.number();
        if self.made().is_err() {
            return Told::Refused(Refusal::NoMemory);
        }
        let mut list = self.taken(register);
        let told = if call < 9 {
            self.changed(call, &mut list, words)
        } else {
            self.joined_or_asked(call, &mut list, words)
        };
        self.put(register, list);
        told
    }

    /// A change of one list.
    fn changed(&mut self, call: u32, list: &mut SharedList<u32>, words: &mut Words) -> Told {
        match call {
            1 => {
                *list = SharedList::new(self.alloc);
                Told::Done
            }
            2 => pushed(list, words.number()),
            3 => shared(self.alloc, list, words.number()),
            4 => {
                let first = words.number();
                done_or_refused(run(list, first, words.number()))
            }
            5 => {
                let at = place(list, words.number());
                removed(list, at)
            }
            6 => {
                let at = place(list, words.number());
                done_or_refused(thinned(list, at, words.number()))
            }
            7 => {
                let at = place(list, words.number());
                set(self.alloc, list, at, words.number())
            }
            8 => popped(list),
            _ => Told::Unknown,
        }
    }

    /// A call of two lists, or a question.
    fn joined_or_asked(
        &mut self,
        call: u32,
        list: &mut SharedList<u32>,
        words: &mut Words,
    ) -> Told {
        match call {
            9 => {
                let to = words.number();
                let at = place(list, words.number());
                self.split(list, to, at)
            }
            10 => self.appended(list, words.number()),
            11 => self.copied(list, words.number()),
            12 => parted(list, words.number()),
            13 => around(list, words.number()),
            14 => first(list, words.number()),
            15 => look(list),
            _ => Told::Unknown,
        }
    }

    /// Puts what stands from an index on into another list.
    fn split(&mut self, list: &mut SharedList<u32>, to: u32, at: usize) -> Told {
        if at > list.len() {
            return Told::Absent;
        }
        match list.split_off(at) {
            Ok(rest) => {
                self.put(to, rest);
                Told::Done
            }
            Err(_) => Told::Refused(Refusal::NoMemory),
        }
    }

    /// Adds another list, which is empty then.
    fn appended(&mut self, list: &mut SharedList<u32>, other: u32) -> Told {
        let mut rest = self.taken(other);
        let outcome = list.append(&mut rest);
        self.put(other, rest);
        done_or_refused(outcome)
    }

    /// Puts a copy into another list.
    fn copied(&mut self, list: &SharedList<u32>, to: u32) -> Told {
        match list.copy() {
            Ok(copy) => {
                self.put(to, copy);
                Told::Done
            }
            Err(_) => Told::Refused(Refusal::NoMemory),
        }
    }
}

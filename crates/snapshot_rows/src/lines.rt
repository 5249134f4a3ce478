//! Rows on the snapshots of a file system in order, which are found by name too.
use crate::kept::{Found, kept_of, look, number_of};
use crate::own::Own;
use base::refusal::Refusal;
use row_machine::told::{Told, done_or_absent, mixed};
use row_machine::words::Words;
use snapshots::{Kept, SnapshotList};
use std::alloc::Global;

/// Two lines of snapshots, in which names may come again, and one in which each is one's own.
#[derive(Drop)]
pub struct Lines {
    alloc: Global,
    one: SnapshotList,
    other: SnapshotList,
    own: Own,
}

impl Found for SnapshotList {
    fn found(&self, name: &[u8]) -> Option<&Kept> {
        self.get(name)
    }
}

/// How many snapshots there are, the last, and a sum of all in their order.
fn all(line: &SnapshotList) -> Told {
    let (mut count, mut sum) = (0u64, 0u64);
    for kept in line.list().iter() {
        count = count.saturating_add(1);
        sum = mixed(sum, number_of(Some(kept)));
    }
    Told::Three(count, number_of(line.last()), sum)
}

/// Carries out `all` or `look PREFIX COUNT`.
fn ask(alloc: Global, line: &SnapshotList, call: &str, words: &mut Words) -> Result<Told, Refusal> {
    if call == "all" {
        return Ok(all(line));
    }
    look(alloc, line, words)
}

/// Carries out `put NAME GUID WRITTEN`, `take PLACE` or `splice PLACE NAME GUID WRITTEN`.
fn change(alloc: Global, own: &mut Own, call: &str, words: &mut Words) -> Result<bool, Refusal> {
    if call == "put" {
        return own.put(alloc, kept_of(alloc, words)?);
    }
    let place = words.number() as usize;
    if call == "take" {
        own.take_out(place)
    } else {
        own.splice(alloc, place, kept_of(alloc, words)?)
    }
}

impl Lines {
    pub fn new(alloc: Global) -> Lines {
        Lines {
            alloc,
            one: SnapshotList::new(alloc),
            other: SnapshotList::new(alloc),
            own: Own::new(alloc),
        }
    }

    fn at(&mut self, register: u32) -> &mut SnapshotList {
        if register == 0 {
            &mut self.one
        } else {
            &mut self.other
        }
    }

    /// Carries out `CALL LINE ..`.
    pub fn row(&mut self, words: &mut Words) -> Result<Told, Refusal> {
        let (alloc, call) = (self.alloc, words.word());
        let line = self.at(words.number());
        match call {
            "new" => {
                *line = SnapshotList::new(alloc);
                Ok(Told::Done)
            }
            "push" => {
                line.push(alloc, kept_of(alloc, words)?)?;
                Ok(Told::Done)
            }
            "copy" => {
                let copy = line.copy()?;
                *self.at(words.number()) = copy;
                Ok(Told::Done)
            }
            _ => ask(alloc, line, call, words),
        }
    }

    /// Carries out `CALL ..` on the line in which each name is one's own.
    pub fn own_row(&mut self, words: &mut Words) -> Result<Told, Refusal> {
        let (alloc, call) = (self.alloc, words.word());
        match call {
            "new" => {
                self.own = Own::new(alloc);
                Ok(Told::Done)
            }
            "copy" => {
                let copy = self.own.line().copy()?;
                *self.at(words.number()) = copy;
                Ok(Told::Done)
            }
            "all" | "look" => ask(alloc, self.own.line(), call, words),
            _ => Ok(done_or_absent(change(alloc, &mut self.own, call, words)?)),
        }
    }
}

//! Rows on tags, and on snapshots that have them.
use crate::kept::kept;
use crate::machine::shared;
use base::name::Tag;
use base::refusal::Refusal;
use row_machine::told::{Told, mixed, mixed_bytes};
use row_machine::words::Words;
use snapshots::holds::Holds;
use snapshots::{Kept, Snapshot};
use std::alloc::Global;
use std::sync::Arc;

/// Two lists of tags, and two snapshots, where they were made.
#[derive(Drop)]
pub struct Tags {
    alloc: Global,
    one: Holds,
    other: Holds,
    snapshot: Option<Snapshot>,
    copy: Option<Snapshot>,
}

/// A sum of tags in their order.
fn sum_of(tags: &[Vec<u8>]) -> u64 {
    let mut sum = 0u64;
    for tag in tags {
        sum = mixed(mixed_bytes(sum, tag.as_slice()), 256);
    }
    sum
}

/// How many tags there are, a sum of them, and 1 where there is none, 2 where there are as many as may be, and 0 else.
fn look(holds: &Holds) -> Told {
    let fill = if holds.is_empty() {
        1
    } else if holds.is_full() {
        2
    } else {
        0
    };
    Told::Three(holds.len() as u64, sum_of(holds.as_slice()), fill)
}

/// Carries out `add TAG`, `remove TAG` or `has TAG`.
fn change(
    alloc: Global,
    holds: &mut Holds,
    call: &str,
    words: &mut Words,
) -> Result<Told, Refusal> {
    let tag = words.text(alloc)?;
    match call {
        "add" => holds.add(&Tag::read(alloc, tag.as_bytes())?)?,
        "remove" => holds.remove(tag.as_bytes())?,
        _ => return Ok(Told::Is(holds.contains(tag.as_bytes()))),
    }
    Ok(Told::Done)
}

/// How many tags a snapshot has, a sum of them, and whether it is held; the first is told alone where the snapshot tells its tags otherwise.
fn look_at(alloc: Global, snapshot: &Snapshot) -> Result<Told, Refusal> {
    let holds = snapshot.holds(alloc)?;
    let sum = sum_of(holds.as_slice());
    let count = snapshot.tag_count() as u64;
    if sum != sum_of(snapshot.tags()) {
        return Ok(Told::One(count));
    }
    Ok(Told::Three(count, sum, u64::from(snapshot.is_held())))
}

impl Tags {
    pub fn new(alloc: Global) -> Tags {
        Tags {
            alloc,
            one: shared(Holds::new(alloc)),
            other: Holds::new(alloc),
            snapshot: None,
            copy: None,
        }
    }

    fn at(&mut self, register: u32) -> &mut Holds {
        if register == 0 {
            &mut self.one
        } else {
            &mut self.other
        }
    }

    /// Carries out `CALL TAGS ..`.
    pub fn row(&mut self, words: &mut Words) -> Result<Told, Refusal> {
        let (alloc, call) = (self.alloc, words.word());
        let holds = self.at(words.number());
        match call {
            "new" => {
                *holds = Holds::new(alloc);
                Ok(Told::Done)
            }
            "copy" => {
                let copy = holds.copy()?;
                *self.at(words.number()) = copy;
                Ok(Told::Done)
            }
            "look" => Ok(look(holds)),
            _ => change(alloc, holds, call, words),
        }
    }

    /// Carries out `new`, `tags TAGS`, `copy`, `look` or `copied`, where the last looks at the copy.
    pub fn kept_row(&mut self, words: &mut Words) -> Result<Told, Refusal> {
        match words.word() {
            "new" => self.make(),
            "tags" => self.set_tags(words.number()),
            "copy" => self.copy_snapshot(),
            "look" => looked(self.alloc, &self.snapshot),
            _ => looked(self.alloc, &self.copy),
        }
    }

    fn make(&mut self) -> Result<Told, Refusal> {
        let Kept { snapshot, .. } = kept(self.alloc, b"s", 7, 0)?;
        self.snapshot = Some(snapshot);
        Ok(Told::Done)
    }

    /// Gives the snapshot the tags of a list.
    fn set_tags(&mut self, register: u32) -> Result<Told, Refusal> {
        let holds = self.at(register).copy()?;
        let tags = Arc::new(self.alloc, holds)?;
        match &mut self.snapshot {
            Some(snapshot) => {
                snapshot.set_tags(tags);
                Ok(Told::Done)
            }
            None => Ok(Told::Absent),
        }
    }

    fn copy_snapshot(&mut self) -> Result<Told, Refusal> {
        match &self.snapshot {
            Some(snapshot) => {
                self.copy = Some(snapshot.copy()?);
                Ok(Told::Done)
            }
            None => Ok(Told::Absent),
        }
    }
}

fn looked(alloc: Global, snapshot: &Option<Snapshot>) -> Result<Told, Refusal> {
    match snapshot {
        Some(snapshot) => look_at(alloc, snapshot),
        None => Ok(Told::Absent),
    }
}

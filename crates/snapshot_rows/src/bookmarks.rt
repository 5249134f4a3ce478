//! Rows on bookmarks.
use crate::machine::shared;
use base::name::Component;
use base::number::{Group, Guid};
use base::refusal::Refusal;
use model::snapshot_id::SnapshotId;
use row_machine::told::{Told, mixed, mixed_bytes};
use row_machine::words::Words;
use snapshots::bookmarks::{Bookmarks, Mark};
use std::alloc::Global;
use std::sync::Arc;

/// Two lists of bookmarks.
#[derive(Drop)]
pub struct Marks {
    alloc: Global,
    one: Bookmarks,
    other: Bookmarks,
}

/// The snapshot of a group, whose guid is another number.
fn snapshot(group: u64) -> SnapshotId {
    SnapshotId {
        group: Group(group),
        guid: Guid(group ^ 64),
    }
}

/// A sum of bookmarks in their order.
fn sum_of(marks: &[Arc<Mark>]) -> u64 {
    let mut sum = 0u64;
    for mark in marks {
        let id = mark.snapshot;
        sum = mixed(mixed(sum, id.group.0), id.guid.0);
        sum = mixed_bytes(sum, mark.name.as_bytes());
    }
    sum
}

/// How many bookmarks there are, and sums of them by name and by group.
fn look(marks: &Bookmarks) -> Result<Told, Refusal> {
    let ordered = marks.in_order()?;
    Ok(Told::Three(
        marks.len() as u64,
        sum_of(marks.as_slice()),
        sum_of(ordered.as_slice()),
    ))
}

/// The group and the guid of a bookmark.
fn found(marks: &Bookmarks, name: &[u8]) -> Told {
    match marks.get(name) {
        Some(id) if marks.contains(name) => Told::Two(id.group.0, id.guid.0),
        Some(_) => Told::Unknown,
        None => Told::Is(marks.contains(name)),
    }
}

/// Carries out `put NAME GROUP`, `remove NAME` or `get NAME`.
fn change(
    alloc: Global,
    marks: &mut Bookmarks,
    call: &str,
    words: &mut Words,
) -> Result<Told, Refusal> {
    let name = words.text(alloc)?;
    match call {
        "put" => {
            let name = Component::read(alloc, name.as_bytes())?;
            marks.insert(&name, snapshot(words.long()))?;
        }
        "remove" => marks.remove(name.as_bytes())?,
        _ => return Ok(found(marks, name.as_bytes())),
    }
    Ok(Told::Done)
}

/// Carries out `cut GROUP`, which removes those after a group, or `after GROUP` and `full`, which ask.
fn cut_or_ask(marks: &mut Bookmarks, call: &str, words: &mut Words) -> Told {
    match call {
        "cut" => {
            marks.remove_after(Group(words.long()));
            Told::Done
        }
        "after" => Told::Is(marks.any_after(Group(words.long()))),
        _ => Told::Is(marks.is_full()),
    }
}

impl Marks {
    pub fn new(alloc: Global) -> Marks {
        Marks {
            alloc,
            one: shared(Bookmarks::new(alloc)),
            other: Bookmarks::new(alloc),
        }
    }

    fn at(&mut self, register: u32) -> &mut Bookmarks {
        if register == 0 {
            &mut self.one
        } else {
            &mut self.other
        }
    }

    /// Carries out `CALL MARKS ..`.
    pub fn row(&mut self, words: &mut Words) -> Result<Told, Refusal> {
        let (alloc, call) = (self.alloc, words.word());
        let marks = self.at(words.number());
        match call {
            "new" => {
                *marks = Bookmarks::new(alloc);
                Ok(Told::Done)
            }
            "copy" => {
                let copy = marks.copy()?;
                *self.at(words.number()) = copy;
                Ok(Told::Done)
            }
            "look" => look(marks),
            "cut" | "after" | "full" => Ok(cut_or_ask(marks, call, words)),
            _ => change(alloc, marks, call, words),
        }
    }
}

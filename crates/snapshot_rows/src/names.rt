//! Rows on snapshots by name alone.
use crate::kept::{Found, kept_of, look};
use base::refusal::Refusal;
use row_machine::told::{Told, done_or_absent};
use row_machine::words::Words;
use snapshots::{ByName, Kept};
use std::alloc::Global;
use std::sync::Arc;

/// Two sets of snapshots.
#[derive(Drop)]
pub struct Names {
    alloc: Global,
    one: ByName,
    other: ByName,
}

impl Found for ByName {
    fn found(&self, name: &[u8]) -> Option<&Kept> {
        self.get(name)
    }
}

/// Puts a snapshot in, if there is none of its name.
fn put(names: &mut ByName, kept: Arc<Kept>) -> Result<bool, Refusal> {
    if names.get(kept.snapshot.name().as_bytes()).is_some() {
        return Ok(false);
    }
    names.insert(kept)?;
    Ok(true)
}

/// Puts a snapshot in the place of the one of its name, if there is one.
fn replace(names: &mut ByName, kept: Arc<Kept>) -> Result<bool, Refusal> {
    if names.get(kept.snapshot.name().as_bytes()).is_none() {
        return Ok(false);
    }
    names.set(kept)?;
    Ok(true)
}

/// Takes a snapshot out, if it is there.
fn take_out(names: &mut ByName, name: &[u8]) -> Result<bool, Refusal> {
    if names.get(name).is_none() {
        return Ok(false);
    }
    names.remove(name)?;
    Ok(true)
}

/// Carries out `put NAME GUID WRITTEN`, `set NAME GUID WRITTEN` or `take NAME`.
fn change(
    alloc: Global,
    names: &mut ByName,
    call: &str,
    words: &mut Words,
) -> Result<bool, Refusal> {
    if call == "take" {
        return take_out(names, words.text(alloc)?.as_bytes());
    }
    let kept = Arc::new(alloc, kept_of(alloc, words)?)?;
    if call == "put" {
        put(names, kept)
    } else {
        replace(names, kept)
    }
}

impl Names {
    pub fn new(alloc: Global) -> Names {
        Names {
            alloc,
            one: ByName::new(alloc),
            other: ByName::new(alloc),
        }
    }

    fn at(&mut self, register: u32) -> &mut ByName {
        if register == 0 {
            &mut self.one
        } else {
            &mut self.other
        }
    }

    /// Carries out `CALL SET ..`.
    pub fn row(&mut self, words: &mut Words) -> Result<Told, Refusal> {
        let (alloc, call) = (self.alloc, words.word());
        let names = self.at(words.number());
        match call {
            "new" => {
                *names = ByName::new(alloc);
                Ok(Told::Done)
            }
            "look" => look(alloc, names, words),
            "copy" => {
                let copy = names.copy()?;
                *self.at(words.number()) = copy;
                Ok(Told::Done)
            }
            _ => Ok(done_or_absent(change(alloc, names, call, words)?)),
        }
    }
}

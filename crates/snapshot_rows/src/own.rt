//! The snapshots of a file system, each under a name of its own.
ghost use Rattle.std.specs.Prelude.{List};
ghost use Rattle.snapshots.specs.Index.{AreNamesOnce};

use base::refusal::Refusal;
use snapshots::{Kept, SnapshotList};
use std::alloc::Global;
use std::marker::Model;

/// Snapshots of one file system, each under a name of its own.
#[derive(Drop)]
pub struct Own {
    line: SnapshotList,
}

impl Model for Own {
    ghost use Rattle.std.specs.Prelude.{List};
    ghost use Rattle.std.specs.Coded.{coded_list};
    ghost use Rattle.snapshots.specs.declared.kept.Kept.{Kept};
    ghost use Rattle.snapshots.specs.contracts.kept.Kept.{the_row};
    ghost use Rattle.snapshots.specs.Index.{AreNamesOnce};

    ghost Value = { List Kept };

    ghost coded = { coded_list the_row.coded };

    ghost view = { λ o. o.line };

    ghost invariant = { λ o. AreNamesOnce o.line };
}

impl Own {
    pub fn new(alloc: Global) -> Own {
        Own {
            line: SnapshotList::new(alloc),
        }
    }

    pub fn line(&self) -> &SnapshotList {
        &self.line
    }

    /// Puts one behind the others, if none has its name.
    pub fn put(&mut self, alloc: Global, kept: Kept) -> Result<bool, Refusal> {
        if self.line.get(kept.snapshot.name().as_bytes()).is_some() {
            return Ok(false);
        }
        self.line.push(alloc, kept)?;
        Ok(true)
    }

    /// Takes out the one at that place, if there is one.
    pub fn take_out(&mut self, place: usize) -> Result<bool, Refusal> {
        if place >= self.line.list().len() {
            return Ok(false);
        }
        self.line.remove(place)?;
        Ok(true)
    }

    /// Takes out the one at that place, and puts this one in place of the one after it, if it has its name.
    pub fn splice(&mut self, alloc: Global, place: usize, next: Kept) -> Result<bool, Refusal> {
        if place >= self.line.list().len() {
            return Ok(false);
        }
        let Some(after) = self.line.list().get(place + 1) else {
            return Ok(false);
        };
        if after.snapshot.name().as_bytes() != next.snapshot.name().as_bytes() {
            return Ok(false);
        }
        self.line.splice(alloc, place, next)?;
        Ok(true)
    }
}

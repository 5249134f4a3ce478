//! Snapshots as rows have them, and what they tell.
use base::name::Component;
use base::number::{Group, Guid};
use base::refusal::Refusal;
use deadlist::deadlist::Deadlist;
use row_machine::told::{Told, mixed};
use row_machine::words::Words;
use snapshots::{Kept, Snapshot};
use std::alloc::Global;
use std::sync::Arc;
use tree::Tree;

/// A snapshot without a block, of this name and guid, and which is said to have so many blocks of its own.
pub fn kept(alloc: Global, name: &[u8], guid: u64, written: u32) -> Result<Kept, Refusal> {
    let name = Component::read(alloc, name)?;
    let snapshot = Snapshot::new(name, Tree::new(), Guid(guid), Group(1));
    let dead = Arc::new(alloc, Deadlist::new(alloc))?;
    Ok(Kept {
        snapshot,
        dead,
        written,
    })
}

/// The same of `NAME GUID WRITTEN`.
pub fn kept_of(alloc: Global, words: &mut Words) -> Result<Kept, Refusal> {
    let name = words.text(alloc)?;
    let guid = words.long();
    kept(alloc, name.as_bytes(), guid, words.number())
}

/// A number for a snapshot, or 0.
pub fn number_of(kept: Option<&Kept>) -> u64 {
    match kept {
        Some(kept) => mixed(kept.snapshot.guid().0, u64::from(kept.written)),
        None => 0,
    }
}

/// What finds a snapshot by its name.
pub trait Found {
    fn found(&self, name: &[u8]) -> Option<&Kept>;
}

/// How many of the names `PREFIX0`, `PREFIX1` and so on are found, and a sum of what they find.
pub fn look<F: Found>(alloc: Global, it: &F, words: &mut Words) -> Result<Told, Refusal> {
    let prefix = words.word();
    let count = words.number();
    let (mut found, mut sum) = (0u64, 0u64);
    for number in 0..count {
        let name = format!(in alloc; "{prefix}{number}")?;
        let told = number_of(it.found(name.as_bytes()));
        found = found.saturating_add(u64::from(told != 0));
        sum = mixed(sum, told);
    }
    Ok(Told::Two(found, sum))
}

//! Tables with file systems, snapshots, a clone and bookmarks.
use base::name::{DsName, MarkName, SnapName, Target};
use base::refusal::Refusal;
use datasets::Table;
use marks::bookmark;
use snap::clones::clone_snapshot;
use snap::{Guids, snapshot};
use std::alloc::Global;
use std::slice::from_ref;

/// The root and `p/a`.
fn with_child(alloc: Global) -> Result<Table, Refusal> {
    let child = DsName::read(alloc, b"p/a")?;
    let mut table = Table::new(alloc)?;
    if let Some(refusal) = table.create_refusal(&child) {
        return Err(refusal);
    }
    table.create(&child)?;
    Ok(table)
}

/// Takes a snapshot of this name, with this number of the counter.
fn take(alloc: Global, table: &mut Table, bytes: &[u8], next: u64) -> Result<(), Refusal> {
    let name = SnapName::read(alloc, bytes)?;
    let guids = Guids { pool: 7, next };
    snapshot(alloc, table, from_ref(&name), false, guids)?;
    Ok(())
}

/// Adds a clone `p/c` of this snapshot.
fn cloned(alloc: Global, table: &mut Table, bytes: &[u8]) -> Result<(), Refusal> {
    let origin = Target::read(alloc, bytes)?;
    let clone = DsName::read(alloc, b"p/c")?;
    clone_snapshot(table, &origin, &clone)
}

/// Makes a bookmark of this snapshot.
fn bookmark_named(
    alloc: Global,
    table: &mut Table,
    name: &[u8],
    mark: &[u8],
) -> Result<(), Refusal> {
    let target = Target::read(alloc, name)?;
    let mark = MarkName::read(alloc, mark)?;
    bookmark(alloc, table, &target, &mark)
}

/// `p/a` with the snapshots `s`, `t` and `u` of groups 1, 2 and 3, and a bookmark `b` of the first; and its clone `p/c` of the second with a
/// snapshot `v` of group 4, and a bookmark `w` of that.
pub fn with_history(alloc: Global) -> Result<Table, Refusal> {
    let mut table = with_child(alloc)?;
    take(alloc, &mut table, b"p/a@s", 1)?;
    bookmark_named(alloc, &mut table, b"p/a@s", b"p/a#b")?;
    take(alloc, &mut table, b"p/a@t", 2)?;
    cloned(alloc, &mut table, b"p/a@t")?;
    take(alloc, &mut table, b"p/a@u", 3)?;
    take(alloc, &mut table, b"p/c@v", 4)?;
    bookmark_named(alloc, &mut table, b"p/c@v", b"p/c#w")?;
    Ok(table)
}

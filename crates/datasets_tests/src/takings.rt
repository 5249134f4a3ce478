//! The snapshots of a request.
use crate::tables::{family, fresh};
use base::name::SnapName;
use base::number::Group;
use base::refusal::Refusal;
use datasets::Table;
use snap::{Guids, snapshot};
use std::alloc::Global;
use std::process::Abort;

fn snap_name(rt: &impl Abort, alloc: Global, bytes: &[u8]) -> SnapName {
    SnapName::read(alloc, bytes).expect(rt, "memory for a name")
}

fn names_of(rt: &impl Abort, alloc: Global, names: &[&[u8]]) -> Vec<SnapName> {
    let mut list = Vec::new(alloc);
    for bytes in names {
        let one = snap_name(rt, alloc, bytes);
        list.push(one).expect(rt, "memory for a list");
    }
    list
}

/// What a pool with id 7 takes of these names, from this number of its counter on.
fn taken(
    rt: &impl Abort,
    alloc: Global,
    table: &mut Table,
    names: &[&[u8]],
    recursive: bool,
    next: u64,
) -> Result<usize, Refusal> {
    let list = names_of(rt, alloc, names);
    snapshot(alloc, table, &list, recursive, Guids { pool: 7, next })
}

/// Whether the table is in this group, with so many snapshots.
fn is_at(table: &Table, group: Group, snapshots: usize) -> bool {
    table.group() == group && table.snapshot_count() == snapshots
}

#[test]
fn no_name_at_all(rt: HostRuntime) {
    let alloc = rt.alloc();
    let mut table = fresh(&rt, alloc);
    let count = taken(&rt, alloc, &mut table, &[], true, 1);
    let is_same = is_at(&table, Group(1), 0);
    drop(table);
    assert!(rt; count == Ok(0) && is_same);
}

/// Whether two guids are too many where one is left, the last one is taken, and none after it.
fn runs_out(rt: &impl Abort, alloc: Global, table: &mut Table) -> bool {
    let (one, two): ([&[u8]; 1], [&[u8]; 2]) = ([b"p@s"], [b"p@s", b"p/a@s"]);
    taken(rt, alloc, table, &two, false, 4294967295) == Err(Refusal::TooMany)
        && taken(rt, alloc, table, &one, false, 4294967296) == Err(Refusal::TooMany)
        && taken(rt, alloc, table, &one, false, 4294967295) == Ok(1)
}

#[test]
fn guids_run_out(rt: HostRuntime) {
    let alloc = rt.alloc();
    let mut table = family(&rt, alloc);
    let is_right = runs_out(&rt, alloc, &mut table);
    drop(table);
    assert!(rt; is_right);
}

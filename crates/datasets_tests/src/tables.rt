//! A table of datasets.
use base::name::DsName;
use base::refusal::Refusal;
use datasets::Table;
use std::alloc::Global;
use std::process::Abort;

fn name(rt: &impl Abort, alloc: Global, bytes: &[u8]) -> DsName {
    DsName::read(alloc, bytes).expect(rt, "memory for a name")
}

pub fn fresh(rt: &impl Abort, alloc: Global) -> Table {
    Table::new(alloc).expect(rt, "memory for a table")
}

fn copied(rt: &impl Abort, table: &Table) -> Table {
    table.copy().expect(rt, "memory for a copy")
}

/// Adds a file system of this name, or says why not.
fn created(table: &mut Table, named: &DsName) -> Result<(), Refusal> {
    if let Some(refusal) = table.create_refusal(named) {
        return Err(refusal);
    }
    table.create(named)
}

fn create(rt: &impl Abort, alloc: Global, table: &mut Table, bytes: &[u8]) {
    let named = name(rt, alloc, bytes);
    let created = created(table, &named);
    drop(named);
    created.expect(rt, "a file system");
}

fn has(rt: &impl Abort, alloc: Global, table: &Table, bytes: &[u8]) -> bool {
    let named = name(rt, alloc, bytes);
    table.find(&named).is_some()
}

/// The names of a family, in byte order.
const FAMILY: [&[u8]; 5] = [b"p", b"p/a", b"p/a-x", b"p/a/x", b"p/b"];

/// Those file systems, made in another order.
pub fn family(rt: &impl Abort, alloc: Global) -> Table {
    let mut table = fresh(rt, alloc);
    create(rt, alloc, &mut table, b"p/b");
    create(rt, alloc, &mut table, b"p/a");
    create(rt, alloc, &mut table, b"p/a/x");
    create(rt, alloc, &mut table, b"p/a-x");
    table
}

/// Whether the file systems have these names, in this order, and no block.
fn has_rows(table: &Table, wanted: &[&[u8]]) -> bool {
    let rows = table.file_systems();
    rows.len() == wanted.len()
        && rows.iter().zip(wanted).all(|(row, want)| row.name().as_bytes() == *want
            && row.live().node_count() == 0)
}

#[test]
fn copy_stays_as_it_was(rt: HostRuntime) {
    let alloc = rt.alloc();
    let mut table = family(&rt, alloc);
    let copy = copied(&rt, &table);
    create(&rt, alloc, &mut table, b"p/c");
    let is_created = has(&rt, alloc, &table, b"p/c");
    let is_as_it_was = has_rows(&copy, &FAMILY);
    drop(copy);
    drop(table);
    assert!(rt; is_created && is_as_it_was);
}

/// Where the table looks first once it was asked to look for this name.
fn near_after(rt: &impl Abort, alloc: Global, table: &mut Table, bytes: &[u8]) -> usize {
    let named = name(rt, alloc, bytes);
    table.look_at(&named);
    table.near()
}

/// Each stands at its place in byte order; a name that isn't there leaves the place as it was.
#[test]
fn looks_first_where_it_looked_last(rt: HostRuntime) {
    let alloc = rt.alloc();
    let mut table = family(&rt, alloc);
    let first = near_after(&rt, alloc, &mut table, b"p");
    let third = near_after(&rt, alloc, &mut table, b"p/a-x");
    let absent = near_after(&rt, alloc, &mut table, b"p/z");
    drop(table);
    assert!(rt; first == 0 && third == 2 && absent == 2);
}

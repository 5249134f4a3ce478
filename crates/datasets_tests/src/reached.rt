//! How much a question on space adds to the count of segments of dead lists.
use crate::history::with_history;
use base::meter::SegMeter;
use base::name::{SnapName, Target};
use base::refusal::Refusal;
use datasets::Table;
use lookups::space::written_since;
use std::alloc::Global;
use toll::Toll;

/// How much the count of segments rises, to tell what a dataset has written since a snapshot.
fn reached(alloc: Global, table: &Table, target: &[u8], since: &[u8]) -> Result<u64, Refusal> {
    let target = Target::read(alloc, target)?;
    let since = SnapName::read(alloc, since)?;
    let mut segments = SegMeter::new(Toll::new());
    let _blocks = written_since(table, &target, since.member(), &mut segments)?;
    Ok(segments.count())
}

/// Whether each dead list between is read once: those of `t`, `u` and the live map of `p/a`; that of `u` alone; and those of `t`, of `v` and of
/// the live map of `p/c`, which is a clone of `t`. No list is cut, so each counts as one segment. None has an entry, so there is none to look at.
fn reads_each_list_once(alloc: Global) -> Result<bool, Refusal> {
    let table = with_history(alloc)?;
    Ok(
        reached(alloc, &table, b"p/a", b"p/a@s")? == 3
            && reached(alloc, &table, b"p/a@u", b"p/a@t")? == 1
            && reached(alloc, &table, b"p/c", b"p/a@s")? == 3,
    )
}

#[test]
fn what_was_written_since_reads_each_list_once(rt: HostRuntime) {
    assert!(rt; reads_each_list_once(rt.alloc()) == Ok(true));
}

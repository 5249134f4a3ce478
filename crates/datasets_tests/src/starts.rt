//! What sends may start from.
use crate::history::with_history;
use base::meter::SegMeter;
use base::name::{DsName, SnapName};
use base::refusal::Refusal;
use datasets::Table;
use lookups::sources::sources_of;
use model::source::{Source, SourceName};
use snap::clones::promote;
use std::alloc::Global;
use toll::Toll;

/// That table with `p/c` promoted: it has `s` and `t` then.
fn with_promoted(alloc: Global) -> Result<Table, Refusal> {
    let mut table = with_history(alloc)?;
    let clone = DsName::read(alloc, b"p/c")?;
    let mut segments = SegMeter::new(Toll::new());
    promote(alloc, &mut table, &clone, &mut segments)?;
    Ok(table)
}

/// Adds the name of a source with its group, which has one digit, and a blank.
fn push_source(text: &mut Vec<u8>, source: &Source) -> Result<(), Refusal> {
    let (name, mark) = match &source.name {
        SourceName::Snapshot(name) => (name, b'@'),
        SourceName::Bookmark(name) => (name, b'#'),
    };
    text.extend_from_slice(name.file_system.as_bytes())?;
    text.push(mark)?;
    text.extend_from_slice(name.component.as_bytes())?;
    text.push(b'0' + (source.group.0 % 10) as u8)?;
    text.push(b' ')?;
    Ok(())
}

/// The names of these sources, each with its group, which has one digit, and a blank.
fn text_of(alloc: Global, sources: &[Source]) -> Result<Vec<u8>, Refusal> {
    let mut text = Vec::new(alloc);
    for source in sources {
        push_source(&mut text, source)?;
    }
    Ok(text)
}

/// Whether these are all sources of a send of this snapshot.
fn lists(alloc: Global, table: &Table, bytes: &[u8], wanted: &[u8]) -> Result<bool, Refusal> {
    let name = SnapName::read(alloc, bytes)?;
    let member = name.member();
    let Some(file_system) = table.find(&member.file_system) else {
        return Ok(false);
    };
    let Some(_) = file_system.snapshot_named(member.component.as_bytes()) else {
        return Ok(false);
    };
    let text = text_of(alloc, &sources_of(alloc, table, &name)?)?;
    Ok(text.as_slice() == wanted)
}

fn lists_promoted(alloc: Global) -> Result<bool, Refusal> {
    let table = with_promoted(alloc)?;
    Ok(
        lists(alloc, &table, b"p/a@u", b"p/c@t2 p/c@s1 p/a#b1 ")?
            && lists(alloc, &table, b"p/c@v", b"p/c@t2 p/c@s1 ")?,
    )
}

#[test]
fn promoted_sources_stand_in_order(rt: HostRuntime) {
    let is_right = lists_promoted(rt.alloc());
    assert!(rt; is_right == Ok(true));
}

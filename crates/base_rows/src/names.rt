//! Rows on names.
use base::name::{Component, DsName, MarkName, Member, SnapName, Tag, Target};
use base::refusal::Refusal;
use row_machine::told::Told;
use row_machine::words::Words;
use std::alloc::Global;

fn has_parts(member: &Member, parts: (&[u8], &[u8])) -> bool {
    member.file_system.as_bytes() == parts.0 && member.component.as_bytes() == parts.1
}

fn has_equal_copy(target: &Target) -> Result<bool, Refusal> {
    Ok(target.same(&target.clone()?))
}

/// Whether a name without parts is read as these bytes.
fn read_word(alloc: Global, kind: &str, bytes: &[u8]) -> Result<bool, Refusal> {
    match kind {
        "system" => Ok(DsName::read(alloc, bytes)?.as_bytes() == bytes),
        "component" => Ok(Component::read(alloc, bytes)?.as_bytes() == bytes),
        "tag" => Ok(Tag::read(alloc, bytes)?.as_bytes() == bytes),
        _ => has_equal_copy(&Target::read(alloc, bytes)?),
    }
}

/// Whether a name of this kind is read as these bytes, or as these parts of it.
fn read(alloc: Global, kind: &str, bytes: &[u8], parts: (&[u8], &[u8])) -> Result<bool, Refusal> {
    match kind {
        "snapshot" => Ok(has_parts(SnapName::read(alloc, bytes)?.member(), parts)),
        "bookmark" => Ok(has_parts(MarkName::read(alloc, bytes)?.member(), parts)),
        _ => read_word(alloc, kind, bytes),
    }
}

fn same_systems(alloc: Global, one: &[u8], other: &[u8]) -> Result<bool, Refusal> {
    let one = DsName::read(alloc, one)?;
    Ok(one.same(&DsName::read(alloc, other)?))
}

fn same_components(alloc: Global, one: &[u8], other: &[u8]) -> Result<bool, Refusal> {
    let one = Component::read(alloc, one)?;
    Ok(one.same(&Component::read(alloc, other)?))
}

fn same_tags(alloc: Global, one: &[u8], other: &[u8]) -> Result<bool, Refusal> {
    let one = Tag::read(alloc, one)?;
    Ok(one.same(&Tag::read(alloc, other)?))
}

fn same_snapshots(alloc: Global, one: &[u8], other: &[u8]) -> Result<bool, Refusal> {
    let one = SnapName::read(alloc, one)?;
    Ok(one.same(&SnapName::read(alloc, other)?))
}

fn same_bookmarks(alloc: Global, one: &[u8], other: &[u8]) -> Result<bool, Refusal> {
    let one = MarkName::read(alloc, one)?;
    Ok(one.same(&MarkName::read(alloc, other)?))
}

fn same_targets(alloc: Global, one: &[u8], other: &[u8]) -> Result<bool, Refusal> {
    let one = Target::read(alloc, one)?;
    Ok(one.same(&Target::read(alloc, other)?))
}

/// Whether a snapshot and a bookmark have the same parts.
fn same_members(alloc: Global, one: &[u8], other: &[u8]) -> Result<bool, Refusal> {
    let one = SnapName::read(alloc, one)?;
    Ok(one.member().same(MarkName::read(alloc, other)?.member()))
}

fn same(alloc: Global, kind: &str, one: &[u8], other: &[u8]) -> Result<bool, Refusal> {
    match kind {
        "system" => same_systems(alloc, one, other),
        "component" => same_components(alloc, one, other),
        "tag" => same_tags(alloc, one, other),
        "snapshot" => same_snapshots(alloc, one, other),
        "bookmark" => same_bookmarks(alloc, one, other),
        "target" => same_targets(alloc, one, other),
        _ => same_members(alloc, one, other),
    }
}

fn parts(alloc: Global, system: &[u8], component: &[u8]) -> Result<Member, Refusal> {
    let file_system = DsName::read(alloc, system)?;
    let component = Component::read(alloc, component)?;
    Ok(Member {
        file_system,
        component,
    })
}

fn made_snapshot(alloc: Global, system: &[u8], component: &[u8]) -> Result<bool, Refusal> {
    let made = SnapName::try_from(parts(alloc, system, component)?)?;
    Ok(has_parts(made.member(), (system, component)))
}

fn made_bookmark(alloc: Global, system: &[u8], component: &[u8]) -> Result<bool, Refusal> {
    let made = MarkName::try_from(parts(alloc, system, component)?)?;
    Ok(has_parts(made.member(), (system, component)))
}

/// Whether that is so, of `read KIND NAME [SYSTEM COMPONENT]`, `blank NAME NAME`, `same KIND NAME NAME`, `snapshot SYSTEM COMPONENT` or
/// `bookmark SYSTEM COMPONENT`. Of `blank`, it is whether a name with a blank is read as a file system's.
fn is_so(alloc: Global, words: &mut Words) -> Result<bool, Refusal> {
    let call = words.word();
    if call == "blank" {
        return read_word(alloc, "system", words.rest.as_bytes());
    }
    let (one, other) = (words.word(), words.word().as_bytes());
    let (third, fourth) = (words.word().as_bytes(), words.word().as_bytes());
    match call {
        "read" => read(alloc, one, other, (third, fourth)),
        "same" => same(alloc, one, other, third),
        "snapshot" => made_snapshot(alloc, one.as_bytes(), other),
        _ => made_bookmark(alloc, one.as_bytes(), other),
    }
}

/// What a row on names tells.
pub fn told(alloc: Global, words: &mut Words) -> Result<Told, Refusal> {
    Ok(Told::Is(is_so(alloc, words)?))
}

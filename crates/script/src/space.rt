//! Lines that ask for a property, and for the space that snapshots use.
ghost use Rattle.std.specs.Prelude.{◌≡◌, ◌++◌, ◌∷◌};
ghost use Rattle.std.specs.Option.{option_copied};
ghost use Rattle.base.specs.Reading.{Reads, snap_of};
ghost use Rattle.script.specs.Words.{property_of_word, word_within, file_system_of};
ghost use Rattle.script.specs.Meaning.{get_of, get_property_of, written_since_of, since_snap_of, since_word_of, would_free_of};
ghost use Rattle.script.specs.Reading.{words_left, Means};

use crate::spare::SpareTarget;
use crate::words::{three, two};
use base::name::{Component, DsName, NAME_LIMIT, SnapName, Target};
use base::refusal::Refusal;
use base::text::same_bytes;
use model::request::{Property, Request};
use std::alloc::Global;

/// Reads `get PROP TARGET` (zfs-get(8)). PROP may be `written@` followed by a snapshot's whole name, or by one component, which names a snapshot
/// of the target's file system (zfsprops(7)). BadLine where there aren't two operands or PROP isn't a property, BadName where a name is invalid
/// or the snapshot's whole name has more than 255 bytes, NoMemory where a name can't be allocated.
#[tactic(auto, unfolding(crate::specs::Meaning::get_of))]
pub(crate) fn get(
    alloc: Global,
    spare: &mut SpareTarget,
    operands: Option<&[u8]>,
) -> Result<Request, Refusal>
    ensures { Means result (get_of (words_left (option_copied operands.entry))) }
{
    let Some((property, target)) = two(operands) else {
        return Err(Refusal::BadLine);
    };
    match property.strip_prefix(b"written@") {
        Some(since) => get_written(alloc, spare, since, target),
        None => get_property(alloc, spare, property, target),
    }
}

// A request for a property with a fixed name.
#[inline(never)]
#[tactic(auto, unfolding(crate::specs::Meaning::get_property_of))]
fn get_property(
    alloc: Global,
    spare: &mut SpareTarget,
    property: &[u8],
    target: &[u8],
) -> Result<Request, Refusal>
    ensures { Means result (get_property_of property.now target.now) }
{
    let Some(property) = property_named(property) else {
        return Err(Refusal::BadLine);
    };
    let target = spare.target(alloc, target)?;
    Ok(Request::Get { target, property })
}

// A request for what was written since a snapshot. The snapshot is given by its whole name, if the word has an `@`, or else by its component.
#[tactic(auto, unfolding(crate::specs::Meaning::written_since_of))]
fn get_written(
    alloc: Global,
    spare: &mut SpareTarget,
    since: &[u8],
    target: &[u8],
) -> Result<Request, Refusal>
    ensures { Means result (written_since_of since.now target.now) }
{
    if since.contains(&b'@') {
        since_snap(alloc, spare, since, target)
    } else {
        since_word(alloc, spare, since, target)
    }
}

// A request for what was written since a snapshot that is given by its whole name.
#[inline(never)]
#[tactic(auto, unfolding(crate::specs::Meaning::since_snap_of))]
fn since_snap(
    alloc: Global,
    spare: &mut SpareTarget,
    since: &[u8],
    target: &[u8],
) -> Result<Request, Refusal>
    ensures { Means result (since_snap_of since.now target.now) }
{
    let since = SnapName::read(alloc, since)?;
    let target = spare.target(alloc, target)?;
    Ok(Request::WrittenSince { target, since })
}

// A request for what was written since a snapshot of the target's file system, which is given by its component.
#[inline(never)]
fn since_word(
    alloc: Global,
    spare: &mut SpareTarget,
    since: &[u8],
    target: &[u8],
) -> Result<Request, Refusal>
    ensures { Means result (since_word_of since.now target.now) }
{
    let target = spare.target(alloc, target)?;
    let since = whole_name(alloc, file_system_of(&target).as_bytes(), since)?;
    Ok(Request::WrittenSince { target, since })
}

// The file system that a target is or belongs to.
fn file_system_of(target: &Target) -> &DsName
    ensures { result.now ≡ file_system_of target.now }
{
    match target {
        Target::FileSystem(name) => name,
        Target::Snapshot(name) => &name.member().file_system,
        Target::Bookmark(name) => &name.member().file_system,
    }
}

// The snapshot whose name is a file system's name, an `@` and a word.
fn whole_name(alloc: Global, file_system: &[u8], word: &[u8]) -> Result<SnapName, Refusal>
    ensures { Reads result (snap_of (file_system.now ++ 64 ∷ word.now)) }
{
    let mut whole = Vec::new(alloc);
    whole.extend_from_slice(file_system)?;
    whole.push(b'@')?;
    whole.extend_from_slice(word)?;
    SnapName::read(alloc, whole.as_slice())
}

/// Reads `wouldfree NAME WORD WORD`; the words name the first and the last of a range of snapshots of a file system (zfs-destroy(8), -nv).
/// BadLine where there aren't three operands, BadName where a name is invalid or a snapshot's whole name would have more than 255 bytes, NoMemory
/// where a name can't be allocated.
#[inline(never)]
#[tactic(auto, unfolding(crate::specs::Meaning::would_free_of))]
pub(crate) fn would_free(alloc: Global, operands: Option<&[u8]>) -> Result<Request, Refusal>
    ensures { Means result (would_free_of (words_left (option_copied operands.entry))) }
{
    let Some((name, first, last)) = three(operands) else {
        return Err(Refusal::BadLine);
    };
    let name = DsName::read(alloc, name)?;
    let first = word_within(alloc, &name, first)?;
    let last = word_within(alloc, &name, last)?;
    Ok(Request::WouldFree { name, first, last })
}

// The component that names a snapshot of a file system. BadName also where the snapshot's whole name would have more than 255 bytes.
#[tactic(auto, unfolding(crate::specs::Words::word_within))]
fn word_within(alloc: Global, file_system: &DsName, word: &[u8]) -> Result<Component, Refusal>
    ensures { Reads result (word_within file_system.now word.now) }
{
    if file_system.as_bytes().len() + 1 + word.len() > NAME_LIMIT {
        return Err(Refusal::BadName);
    }
    Component::read(alloc, word)
}

#[tactic(auto, unfolding(crate::specs::Words::property_of_word))]
fn property_named(word: &[u8]) -> Option<Property>
    ensures { result ≡ property_of_word word.now }
{
    if same_bytes(word, b"used") {
        Some(Property::Used)
    } else if same_bytes(word, b"available") {
        Some(Property::Available)
    } else if same_bytes(word, b"referenced") {
        Some(Property::Referenced)
    } else if same_bytes(word, b"written") {
        Some(Property::Written)
    } else if same_bytes(word, b"usedbydataset") {
        Some(Property::UsedByDataset)
    } else if same_bytes(word, b"usedbysnapshots") {
        Some(Property::UsedBySnapshots)
    } else if same_bytes(word, b"usedbychildren") {
        Some(Property::UsedByChildren)
    } else if same_bytes(word, b"usedbyrefreservation") {
        Some(Property::UsedByRefReservation)
    } else if same_bytes(word, b"quota") {
        Some(Property::Quota)
    } else if same_bytes(word, b"refquota") {
        Some(Property::RefQuota)
    } else if same_bytes(word, b"reservation") {
        Some(Property::Reservation)
    } else if same_bytes(word, b"refreservation") {
        Some(Property::RefReservation)
    } else if same_bytes(word, b"guid") {
        Some(Property::Guid)
    } else if same_bytes(word, b"createtxg") {
        Some(Property::CreateTxg)
    } else if same_bytes(word, b"origin") {
        Some(Property::Origin)
    } else if same_bytes(word, b"clones") {
        Some(Property::Clones)
    } else if same_bytes(word, b"userrefs") {
        Some(Property::UserRefs)
    } else if same_bytes(word, b"defer_destroy") {
        Some(Property::DeferDestroy)
    } else {
        None
    }
}

//! Rows on refusals, limits, meters, bytes and blocks.
use base::data::Data;
use base::laws::{order_laws, rewrite_laws};
use base::limit::Blocks;
use base::meter::{Meter, SegMeter};
use base::refusal::Refusal;
use base::text::{Bytes, compare_bytes, same_bytes};
use row_machine::told::Told;
use row_machine::words::Words;
use std::alloc::{AllocError, Global};
use std::cmp::Ordering;
use toll::Toll;

/// All refusals, by their numbers.
const REFUSALS: [Refusal; 30] = [
    Refusal::BadName,
    Refusal::NoDataset,
    Refusal::Exists,
    Refusal::NoParent,
    Refusal::BadKey,
    Refusal::ReadOnly,
    Refusal::NotSnapshot,
    Refusal::Busy,
    Refusal::HasClones,
    Refusal::HasChildren,
    Refusal::NotNewest,
    Refusal::NotClone,
    Refusal::NameClash,
    Refusal::TagExists,
    Refusal::NoTag,
    Refusal::Deferred,
    Refusal::NotAncestor,
    Refusal::Quota,
    Refusal::RefQuota,
    Refusal::NoSpace,
    Refusal::TooMany,
    Refusal::BadStream,
    Refusal::WrongSource,
    Refusal::Modified,
    Refusal::NoMemory,
    Refusal::NoView,
    Refusal::IsRoot,
    Refusal::BadLine,
    Refusal::SessionFull,
    Refusal::TooManySeats,
];

/// The refusal at a place, counted from 1.
fn refusal_at(place: u64) -> Option<Refusal> {
    let refusal = REFUSALS.get(place.wrapping_sub(1) as usize)?;
    Some(*refusal)
}

/// The refusal at a place, where its number and its name are these.
fn refused(place: u64, name: &str) -> Told {
    match refusal_at(place) {
        Some(it) if u64::from(it.number()) == place && it.name() == name => Told::Refused(it),
        Some(_) => Told::Is(false),
        None => Told::Absent,
    }
}

/// Whether two refusals, by their places, are the same.
fn are_same(one: u64, other: u64) -> bool {
    match (refusal_at(one), refusal_at(other)) {
        (Some(one), Some(other)) => one.same(other),
        _ => false,
    }
}

/// What meters of nodes and of segments have counted after one step.
fn meters() -> Told {
    let mut nodes = Meter::new(Toll::new());
    nodes.add_one();
    let mut segments = SegMeter::new(Toll::new());
    segments.add_one();
    Told::Two(nodes.count(), segments.count())
}

/// A growth of a list, by `?`.
fn grown(alloc: Global) -> Result<Told, Refusal> {
    let mut bytes = Vec::new(alloc);
    bytes.push(1u8)?;
    Ok(Told::Done)
}

fn bytes_of(alloc: Global, items: &[u8]) -> Result<Bytes, Refusal> {
    Ok(Bytes::from(items.to_vec(alloc)?))
}

/// Whether bytes of their own are as they were given, the same as others, and equal to them.
fn bytes(alloc: Global, one: &[u8], other: &[u8]) -> Result<Told, Refusal> {
    let (ours, others) = (bytes_of(alloc, one)?, bytes_of(alloc, other)?);
    let is_given = u64::from(ours.as_slice() == one);
    let (is_same, is_equal) = (u64::from(ours.same(&others)), u64::from(ours == others));
    Ok(Told::Three(is_given, is_same, is_equal))
}

/// Whether bytes are the same where they stand, and 1, 2 or 3 where the first come before the others, are they, or come after.
fn compared(one: &[u8], other: &[u8]) -> Told {
    let order = match compare_bytes(one, other) {
        Ordering::Less => 1,
        Ordering::Equal => 2,
        Ordering::Greater => 3,
    };
    Told::Two(u64::from(same_bytes(one, other)), order)
}

/// Whether a block filled with a byte has just those bytes, and is the same as one filled with the other.
fn blocks(alloc: Global, one: u8, other: u8) -> Result<Told, Refusal> {
    let (ours, others) = (
        Data::new(alloc, &[one; 512])?,
        Data::new(alloc, &[other; 512])?,
    );
    let is_given = *ours.as_array() == [one; 512];
    Ok(Told::Two(u64::from(is_given), u64::from(ours.same(&others))))
}

/// The laws of orders and of rewriting, which are called once.
fn laws() -> Told {
    order_laws();
    rewrite_laws();
    Told::Done
}

/// What a row on bytes tells.
fn told_of_bytes(alloc: Global, call: &str, words: &mut Words) -> Result<Told, Refusal> {
    if call == "blocks" {
        let (one, other) = (words.long(), words.long());
        return blocks(alloc, (one & 255) as u8, (other & 255) as u8);
    }
    let (one, other) = (words.word().as_bytes(), words.word().as_bytes());
    if call == "bytes" {
        bytes(alloc, one, other)
    } else {
        Ok(compared(one, other))
    }
}

/// What a row on values tells.
pub fn told(alloc: Global, words: &mut Words) -> Result<Told, Refusal> {
    let call = words.word();
    match call {
        "refusal" => Ok(refused(words.long(), words.word())),
        "same" => Ok(Told::Is(are_same(words.long(), words.long()))),
        "memory" => Err(Refusal::from(AllocError)),
        "grown" => grown(alloc),
        "limit" => Ok(Told::One(Blocks::new(words.long())?.get())),
        "meters" => Ok(meters()),
        "laws" => Ok(laws()),
        _ => told_of_bytes(alloc, call, words),
    }
}

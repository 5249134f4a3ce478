//! What is asked of trees.
use crate::rig::{Rig, When};
use crate::updates::leaf_of;
use base::number::{BlockNo, Dead, Group, Key};
use base::refusal::Refusal;
use row_machine::told::{Told, mixed};
use row_machine::words::Words;
use std::alloc::Global;
use tree::{Draft, Tree, Update, objset};
use tree_tests::ready::{is_batch, is_ready, meter};
use zalloc::{Allocator, Counts};

/// The byte that fills a leaf, or 256 where it isn't full of one.
fn filler(bytes: &[u8; 512]) -> u64 {
    if *bytes == [bytes[0]; 512] {
        u64::from(bytes[0])
    } else {
        256
    }
}

/// The byte that fills a leaf, or 0 where there is none, and how many keys are met on the way to it.
fn read(tree: &Tree, leaf: u32) -> (u64, u64) {
    let mut meter = meter();
    let key = Key {
        level: 0,
        index: leaf,
    };
    let byte = match tree.read(key, &mut meter) {
        Some(cell) => cell.bytes.map_or(256, |bytes| filler(bytes)),
        None => 0,
    };
    (byte, meter.count())
}

/// The same of a block of an object. No where a block that there can't be was looked for.
fn block(tree: &Tree, object: u32, block: u32) -> Result<Told, Refusal> {
    let mut meter = meter();
    match objset::read(tree, object, block, &mut meter) {
        Ok(bytes) => Ok(Told::Two(bytes.map_or(0, |bytes| filler(bytes)), meter.count())),
        Err(refusal) if meter.count() == 0 => Err(refusal),
        Err(_) => Ok(Told::Is(false)),
    }
}

/// A sum of the groups in which blocks were born, in which their order doesn't count.
pub fn births(blocks: &[Dead]) -> u64 {
    let mut sum = 0u64;
    for dead in blocks {
        sum = sum.wrapping_add(mixed(1, dead.birth.0));
    }
    sum
}

/// How many blocks were born after a group, and a sum of their births.
fn walk(alloc: Global, tree: &Tree, cut: u64) -> Result<Told, Refusal> {
    let blocks = tree.walk_after(alloc, Group(cut), &mut meter())?;
    Ok(Told::Two(blocks.len() as u64, births(&blocks)))
}

/// How many blocks there are, how many numbers are Allocated, and a sum of the births of all blocks and of the bytes at the places.
fn look(alloc: Global, rig: &Rig) -> Result<Told, Refusal> {
    let blocks = rig.tree.walk_after(alloc, Group(0), &mut meter())?;
    let mut sum = births(&blocks);
    for place in 0..128 {
        sum = mixed(sum, read(&rig.tree, leaf_of(place)).0);
    }
    let allocated = u64::from(rig.allocator.counts().allocated);
    Ok(Told::Three(u64::from(rig.tree.node_count()), allocated, sum))
}

fn counts(allocator: &Allocator) -> Told {
    let Counts {
        free,
        allocated,
        waiting,
    } = allocator.counts();
    Told::Three(u64::from(free), u64::from(allocated), u64::from(waiting))
}

/// How many blocks a batch would drop, how many of these were born up to a group, and how many it would make.
fn forecast(alloc: Global, tree: &Tree, updates: &[Update], last: u64) -> Result<Told, Refusal> {
    if !is_batch(updates) {
        return Ok(Told::Absent);
    }
    let forecast = tree.forecast(alloc, updates, &mut meter())?;
    let mut old = 0u64;
    for dead in &forecast.dropped {
        if dead.birth.0 <= last {
            old = old.saturating_add(1);
        }
    }
    Ok(Told::Three(forecast.dropped.len() as u64, old, forecast.made as u64))
}

/// How many blocks there would be after a batch, how many numbers it would take, and how many it would let go. No where it would make another
/// number of blocks than that.
fn told_of(draft: &Draft, blocks: usize) -> Told {
    let is_touched = draft.touched == !(draft.made.is_empty() && draft.released.is_empty());
    let after = blocks
        .saturating_add(draft.taken.len())
        .saturating_sub(draft.released.len());
    if is_touched && after == draft.count as usize {
        Told::Three(
            u64::from(draft.count),
            draft.taken.len() as u64,
            draft.made.len() as u64,
        )
    } else {
        Told::Is(false)
    }
}

fn drafted(alloc: Global, rig: &Rig, updates: &[Update], when: When) -> Result<Told, Refusal> {
    let (tree, allocator) = (&rig.tree, &rig.allocator);
    if !is_batch(updates) || !is_ready(alloc, tree, allocator, when.group)? {
        return Ok(Told::Absent);
    }
    let mut draft = Draft::new(alloc);
    tree.draft(
        alloc,
        updates,
        when.young,
        allocator,
        &mut meter(),
        &mut draft,
    )?;
    Ok(told_of(&draft, tree.node_count() as usize))
}

/// Whether two trees are the same, as each of two ways to ask for it tells.
pub fn same(one: &Tree, other: &Tree) -> Told {
    Told::Two(u64::from(one.same(other)), u64::from(*one == *other))
}

/// Whether the numbers of two allocators have the same states.
pub fn are_same_numbers(one: &Allocator, other: &Allocator) -> bool {
    let Counts {
        free,
        allocated,
        waiting,
    } = one.counts();
    let count = free.saturating_add(allocated).saturating_add(waiting);
    for number in 0..count.saturating_add(1) {
        if one.state(BlockNo(number)) != other.state(BlockNo(number)) {
            return false;
        }
    }
    true
}

/// Carries out `read LEAF`, `block OBJECT BLOCK`, `walk GROUP`, `look`, `counts`, `forecast GROUP` or `draft`.
pub fn ask(
    alloc: Global,
    rig: &Rig,
    updates: &[Update],
    when: When,
    call: &str,
    words: &mut Words,
) -> Result<Told, Refusal> {
    match call {
        "read" => {
            let (byte, steps) = read(&rig.tree, words.number());
            Ok(Told::Two(byte, steps))
        }
        "block" => {
            let object = words.number();
            block(&rig.tree, object, words.number())
        }
        "walk" => walk(alloc, &rig.tree, words.long()),
        "look" => look(alloc, rig),
        "counts" => Ok(counts(&rig.allocator)),
        "forecast" => forecast(alloc, &rig.tree, updates, words.long()),
        "draft" => drafted(alloc, rig, updates, when),
        _ => Ok(Told::Unknown),
    }
}

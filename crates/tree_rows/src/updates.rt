//! Rows on a batch of updates.
ghost use Rattle.batch.specs.Said.{AreInOrder};
ghost use Rattle.std.specs.Prelude.{IsTrue};

use base::number::Key;
use base::refusal::Refusal;
use batch::{Word, is_idle, split_at_leaf, way_of, word_of};
use row_machine::told::Told;
use row_machine::words::Words;
use std::alloc::Global;
use tree::Update;
use tree::objset::{free_of, punch_of, write_of};
use tree_tests::ready::is_batch;

/// For each of these bytes a leaf that is filled with it.
static FILLED: [[u8; 512]; 16] = [
    [0; 512], [1; 512], [2; 512], [3; 512], [4; 512], [5; 512], [6; 512], [7; 512], [8; 512],
    [9; 512], [10; 512], [11; 512], [12; 512], [13; 512], [14; 512], [15; 512],
];

/// Updates for trees.
#[derive(Drop)]
pub struct Batch {
    alloc: Global,
    updates: Vec<Update<'static>>,
}

fn filled(byte: u32) -> &'static [u8; 512] {
    &FILLED[(byte % 16) as usize]
}

/// The leaf of a place: 32 in each of four parts of the tree, 9 leaves apart.
pub fn leaf_of(place: u32) -> u32 {
    place % 128 / 32 * 65536 + place % 32 * 9
}

/// A write of a place, or a punch of it for a byte above 15.
fn place_of(place: u32, byte: u32) -> Update<'static> {
    let leaf = leaf_of(place);
    if byte < 16 {
        Update::Write {
            leaf,
            bytes: filled(byte),
        }
    } else {
        Update::Punch(Key {
            level: 0,
            index: leaf,
        })
    }
}

/// The update of `write LEAF BYTE`, `punch LEVEL INDEX` or `place BASE OFFSET BYTE`, or of `block OBJECT BLOCK BYTE`, `hole OBJECT BLOCK` or
/// `free OBJECT`, where there is such a block or object. None where there is no such row.
fn update_of(call: &str, words: &mut Words) -> Result<Option<Update<'static>>, Refusal> {
    let first = words.number();
    Ok(Some(match call {
        "write" => Update::Write {
            leaf: first,
            bytes: filled(words.number()),
        },
        "punch" => Update::Punch(Key {
            level: (first & 255) as u8,
            index: words.number(),
        }),
        "place" => {
            let place = first.wrapping_add(words.number());
            place_of(place, words.number())
        }
        "block" => {
            let block = words.number();
            write_of(first, block, filled(words.number()))?
        }
        "hole" => punch_of(first, words.number())?,
        "free" => free_of(first)?,
        _ => return Ok(None),
    }))
}

/// Whether the updates are in order.
fn are_in_order(updates: &[Update]) -> bool
    ensures { IsTrue result → AreInOrder updates.now }
{
    is_batch(updates)
}

/// What they say of a leaf: the byte that fills it, or 256 for a hole.
fn said_of(updates: &[Update], leaf: u32) -> Told {
    if !are_in_order(updates) {
        return Told::Is(false);
    }
    match word_of(updates, leaf) {
        Word::Silent => Told::Absent,
        Word::Hole => Told::One(256),
        Word::Full(bytes) => Told::One(u64::from(bytes[0])),
    }
}

/// How many of them reach past the beginning of a leaf, and how many begin before it.
fn halves(updates: &[Update], leaf: u32) -> Told {
    if !are_in_order(updates) {
        return Told::Is(false);
    }
    let (after, before) = split_at_leaf(updates, leaf);
    Told::Two(after.len() as u64, before.len() as u64)
}

/// The place of a node on the way to the one leaf that they write or punch, and 1 where they write it.
fn way(updates: &[Update], level: u32, index: u32) -> Told {
    if level == 0 || level > 5 {
        return Told::Unknown;
    }
    match way_of(updates, level as u8, index) {
        Some(way) => Told::Two(u64::from(way.place), u64::from(way.writes)),
        None => Told::Absent,
    }
}

/// Carries out `said LEAF`, `halves LEAF`, `idle PRESENT` or `way LEVEL INDEX`.
fn ask(updates: &[Update], call: &str, words: &mut Words) -> Told {
    let first = words.number();
    match call {
        "said" => said_of(updates, first),
        "halves" => halves(updates, first),
        "idle" => Told::Is(is_idle(updates, first > 0)),
        _ => way(updates, first, words.number()),
    }
}

impl Batch {
    pub fn new(alloc: Global) -> Batch {
        Batch {
            alloc,
            updates: Vec::new(alloc),
        }
    }

    pub fn updates(&self) -> &[Update<'static>] {
        &self.updates
    }

    /// Carries out `CALL ..`.
    pub fn row(&mut self, words: &mut Words) -> Result<Told, Refusal> {
        let call = words.word();
        match call {
            "new" => {
                self.updates = Vec::new(self.alloc);
                Ok(Told::Done)
            }
            "said" | "halves" | "idle" | "way" => Ok(ask(&self.updates, call, words)),
            _ => self.add(call, words),
        }
    }

    fn add(&mut self, call: &str, words: &mut Words) -> Result<Told, Refusal> {
        match update_of(call, words)? {
            Some(update) => {
                self.updates.push(update)?;
                Ok(Told::Done)
            }
            None => Ok(Told::Unknown),
        }
    }
}

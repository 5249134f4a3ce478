//! Rows on a tree that is taken apart from the top.
use crate::looks::births;
use crate::trees::Trees;
use base::meter::Meter;
use base::number::{Dead, Group};
use base::refusal::Refusal;
use row_machine::told::Told;
use row_machine::words::Words;
use std::alloc::Global;
use tree::{Subtree, Tree};
use tree_tests::ready::meter;

/// The most nodes that are looked at.
const MOST: u32 = 100_000;

/// A whole tree as a subtree, and its blocks when it was taken.
#[derive(Drop)]
struct Top {
    subtree: Subtree,
    blocks: Vec<Dead>,
}

/// The top of a tree, where one was taken.
#[derive(Drop)]
pub struct Tops {
    alloc: Global,
    top: Option<Top>,
}

/// The blocks that come off a subtree, as far as it is younger than a group, each before those below it.
fn peel_all(
    alloc: Global,
    top: &Subtree,
    cut: Group,
    meter: &mut Meter,
) -> Result<Vec<Dead>, Refusal> {
    let mut out = Vec::new(alloc);
    let mut others = Vec::new(alloc);
    others.reserve(1)?;
    others.push_reserved(top.copy()?);
    for _ in 0..MOST {
        let Some(next) = others.pop() else {
            break;
        };
        if let Some(block) = next.peel(cut, &mut others, meter)? {
            out.push(block)?;
        }
    }
    Ok(out)
}

/// Whether these are the blocks that were born after a group, in the same order.
fn are_younger(peeled: &[Dead], blocks: &[Dead], cut: Group) -> bool {
    let mut at = 0usize;
    for dead in blocks {
        if dead.birth.0 > cut.0 {
            match peeled.get(at) {
                Some(other) if *other == *dead => at = at.saturating_add(1),
                _ => return false,
            }
        }
    }
    at == peeled.len()
}

/// How many blocks come off, a sum of their births, and how many nodes that reached, where all blocks came off. No where these aren't those that a
/// walk found.
fn peel(alloc: Global, top: &Top, cut: Group) -> Result<Told, Refusal> {
    let mut meter = meter();
    let peeled = peel_all(alloc, &top.subtree, cut, &mut meter)?;
    if !are_younger(&peeled, &top.blocks, cut) {
        return Ok(Told::Is(false));
    }
    let reached = if cut.0 == 0 { meter.count() } else { 0 };
    Ok(Told::Three(peeled.len() as u64, births(&peeled), reached))
}

fn top_of(alloc: Global, tree: &Tree) -> Result<Option<Top>, Refusal> {
    let blocks = tree.walk_after(alloc, Group(0), &mut meter())?;
    let Some(subtree) = tree.top()? else {
        return Ok(None);
    };
    Ok(Some(Top { subtree, blocks }))
}

impl Tops {
    pub fn new(alloc: Global) -> Tops {
        Tops { alloc, top: None }
    }

    /// Carries out `take TREE` or `peel GROUP`.
    pub fn row(&mut self, trees: &Trees, words: &mut Words) -> Result<Told, Refusal> {
        match words.word() {
            "take" => self.take(trees, words.number()),
            "peel" => self.peel(Group(words.long())),
            _ => Ok(Told::Unknown),
        }
    }

    fn take(&mut self, trees: &Trees, register: u32) -> Result<Told, Refusal> {
        let Some(rig) = trees.at(register) else {
            return Ok(Told::Absent);
        };
        let top = top_of(self.alloc, &rig.tree)?;
        let is_there = top.is_some();
        self.top = top;
        Ok(Told::Is(is_there))
    }

    fn peel(&self, cut: Group) -> Result<Told, Refusal> {
        match &self.top {
            Some(top) => peel(self.alloc, top, cut),
            None => Ok(Told::Absent),
        }
    }
}

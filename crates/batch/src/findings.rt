//! What a batch of changes does to a tree, found out before any node is made.
ghost use Rattle.std.specs.Prelude.{◌≡◌, ℕ, suc, ◌+◌, ◌-◌, ◌*◌, ◌/◌, ◌^◌, ◌<◌, ◌≤◌, ◌++◌, ◌⊎◌, IfOk, OnOk, IsTrue, Option, Some, None, true, false, slice_index_or, take, length, is_some, cond, if◌then◌else◌};
ghost use Rattle.base.specs.Counting.{counted};
ghost use Rattle.node.specs.Kid.{IsSoundKid, places_of};
ghost use Rattle.node.specs.Node.{inner_part, leaf_part, root_part, part_of_node, whole};
ghost use Rattle.batch.specs.Others.{HasOther};
ghost use Rattle.batch.specs.Said.{Said, said, AreInOrder, IsOneLeaf};
ghost use Rattle.batch.specs.Touch.{any_kid, later_first, touched, stays, claims, released, dropped, claim_of, let_go, own_block, young_one};
ghost use Rattle.batch.specs.Way.{way_claims, way_released};

use crate::update::{Update, Word, is_idle, split_at_leaf, way_of, word_of};
use base::meter::Meter;
use base::number::{Dead, Group, Key};
use node::{Inner, Leaf, Level, Root, span};
use std::alloc::{AllocError, Global};
use std::sync::Arc;

/// A key for which a batch makes a block. `kept` is the key's present block, where the new one keeps its number.
#[derive(Clone, Copy, Default, PartialEq, Eq, Debug)]
pub struct Claim {
    pub key: Key,
    pub kept: Option<Dead>,
}

/// What a batch does to a part of a tree: whether it is touched, and whether it is present afterwards.
#[derive(Clone, Copy, PartialEq, Eq, Debug)]
pub struct Fate {
    pub touched: bool,
    pub stays: bool,
}

/// The keys for which blocks are made, and the blocks that are released, each list from the last key to the first.
#[derive(Drop)]
pub struct Findings {
    pub claims: Vec<Claim>,
    pub released: Vec<Dead>,
}

/// The block, if it was born from group `young` on.
pub(crate) fn if_young(own: Option<Dead>, young: Group) -> Option<Dead>
    ensures { result ≡ young_one young.0 own }
{
    match own {
        Some(dead) => {
            if dead.birth.0 >= young.0 {
                Some(dead)
            } else {
                None
            }
        }
        None => None,
    }
}

/// Adds to the findings what becomes of a key with this fate, and of its present block `own`.
fn close(
    own: Option<Dead>,
    key: Key,
    fate: Fate,
    young: Group,
    findings: &mut Findings,
) -> Result<(), AllocError>
    ensures claims { OnOk result (findings.new.claims.items ≡ findings.old.claims.items ++ claim_of fate.touched fate.stays key young.0 own) }
    ensures released { OnOk result (findings.new.released.items ≡ findings.old.released.items ++ let_go fate.touched fate.stays young.0 own) }
{
    if !fate.touched {
        return Ok(());
    }
    let kept = if_young(own, young);
    if fate.stays {
        findings.claims.push(Claim { key, kept })?;
        if kept.is_some() {
            return Ok(());
        }
    }
    if let Some(dead) = own {
        findings.released.push(dead)?;
    }
    Ok(())
}

/// The block of a node that may be absent. The meter counts a node that is there.
#[tactic(auto, unfolding(base::specs::Counting::counted, base::specs::Counting::most))]
fn block_of<C: Level>(old: Option<&C>, meter: &mut Meter) -> Option<Dead>
    ensures block { result ≡ own_block (part_of_node C.part old.entry) }
    ensures metered { meter.new ≡ counted meter.old (if is_some old.entry then 1 else 0) }
    ensures never_lower { meter.old ≤ meter.new }
{
    let _reached = meter.count();
    match old {
        Some(node) => {
            meter.add_one();
            Some(node.block())
        }
        None => None,
    }
}

/// The node at a place of a node that may be absent.
fn kid_at<C: Level>(old: Option<&Inner<C>>, place: usize) -> Option<&C>
    requires { place < 16 }
    ensures { part_of_node C.part result ≡ slice_index_or (places_of (part_of_node (inner_part C.part) old.entry)) place None }
{
    match old {
        Some(node) => node.kid(place),
        None => None,
    }
}

/// How many places a node has: 16, also where it is absent.
fn place_count<C: Level>(old: Option<&Inner<C>>) -> u32
    ensures sixteen { result ≡ 16 }
    ensures all { length (places_of (part_of_node (inner_part C.part) old.entry)) ≡ 16 }
{
    match old {
        Some(node) => node.place_count(),
        None => 16,
    }
}

/// A level whose nodes can be surveyed for what a batch does to them.
pub trait Survey: Level {
    /// Adds to the findings what a batch does to a node and to those below it. The node is given by its level, and by its index among the nodes
    /// of that level. The meter rises by at least one for each block whose key is touched.
    fn survey(
        old: Option<&Self>,
        level: u8,
        index: u32,
        updates: &[Update],
        young: Group,
        findings: &mut Findings,
        meter: &mut Meter,
    ) -> Result<Fate, AllocError>
        requires level { level ≡ Self.height }
        requires within { (index + 1) * 16 ^ level ≤ 1048576 }
        requires low { level ≤ 5 }
        requires order { AreInOrder updates.now }
        requires sound { IsSoundKid Self.height (part_of_node Self.part old) }
        ensures touched { IfOk result (λ f. f.touched ≡ touched (said updates.now) Self.height index (part_of_node Self.part old.entry)) }
        ensures stays { IfOk result (λ f. f.stays ≡ stays (said updates.now) Self.height index (part_of_node Self.part old.entry)) }
        ensures claims { OnOk result (findings.new.claims.items ≡ findings.old.claims.items ++ claims (said updates.now) young.0 Self.height index (part_of_node Self.part old.entry)) }
        ensures released { OnOk result (findings.new.released.items ≡ findings.old.released.items ++ released (said updates.now) young.0 Self.height index (part_of_node Self.part old.entry)) }
        ensures metered { OnOk result (counted meter.old (length (dropped (said updates.now) young.0 Self.height index (part_of_node Self.part old.entry))) ≤ meter.new) }
        ensures never_lower { meter.old ≤ meter.new };

    /// Sets `blocks` to the present blocks of the keys on the path to a leaf, indexed by level, from this node's level down. It reaches only the
    /// nodes on the path, one for each level. The meter rises by at least one for each block.
    fn blocks_to(
        old: Option<&Self>,
        level: u8,
        leaf: u32,
        blocks: &mut [Option<Dead>; 6],
        meter: &mut Meter,
    )
        requires level { level ≡ Self.height }
        requires low { level ≤ 5 }
        requires sound { IsSoundKid Self.height (part_of_node Self.part old) }
        ensures claims { (s : ℕ → Said) (y : ℕ) → IsOneLeaf s leaf true → claims s y Self.height (leaf / 16 ^ level) (part_of_node Self.part old.entry) ≡ way_claims y leaf (take (suc Self.height) blocks.new) }
        ensures released { (s : ℕ → Said) (y : ℕ) → IsOneLeaf s leaf true → released s y Self.height (leaf / 16 ^ level) (part_of_node Self.part old.entry) ≡ way_released y (take (suc Self.height) blocks.new) }
        ensures metered { (s : ℕ → Said) (y : ℕ) → IsOneLeaf s leaf true → counted meter.old (length (dropped s y Self.height (leaf / 16 ^ level) (part_of_node Self.part old.entry))) ≤ meter.new }
        ensures never_lower { meter.old ≤ meter.new };
}

/// What becomes of a leaf.
fn leaf_fate(old: Option<&Leaf>, index: u32, updates: &[Update]) -> Fate
    requires { AreInOrder updates.now }
    ensures touched { result.touched ≡ touched (said updates.now) 0 index (part_of_node leaf_part old.entry) }
    ensures stays { result.stays ≡ stays (said updates.now) 0 index (part_of_node leaf_part old.entry) }
{
    let present = old.is_some();
    match word_of(updates, index) {
        Word::Silent => Fate {
            touched: false,
            stays: present,
        },
        Word::Hole => Fate {
            touched: present,
            stays: false,
        },
        Word::Full(_) => Fate {
            touched: true,
            stays: true,
        },
    }
}

/// What becomes of a key, given what becomes of the keys below it.
fn fate_above(below: Fate, present: bool) -> Fate
    ensures { result ≡ record { touched = below.touched; stays = cond below.touched below.stays present } }
{
    if below.touched {
        below
    } else {
        Fate {
            touched: false,
            stays: present,
        }
    }
}

impl Survey for Leaf {
    fn survey(
        old: Option<&Leaf>,
        level: u8,
        index: u32,
        updates: &[Update],
        young: Group,
        findings: &mut Findings,
        meter: &mut Meter,
    ) -> Result<Fate, AllocError> {
        let present = old.is_some();
        if is_idle(updates, present) {
            return Ok(Fate {
                touched: false,
                stays: present,
            });
        }
        let own = block_of(old, meter);
        let fate = leaf_fate(old, index, updates);
        close(own, Key { level, index }, fate, young, findings)?;
        Ok(fate)
    }

    fn blocks_to(
        old: Option<&Leaf>,
        level: u8,
        _leaf: u32,
        blocks: &mut [Option<Dead>; 6],
        meter: &mut Meter,
    ) {
        blocks[level as usize] = block_of(old, meter);
    }
}

/// Adds to the findings what a batch does at the places of a node, from the last place to the first. The nodes at the places have this level,
/// and their indices begin at `first`.
fn survey_kids<C: Survey>(
    old: Option<&Inner<C>>,
    level: u8,
    first: u32,
    updates: &[Update],
    young: Group,
    findings: &mut Findings,
    meter: &mut Meter,
) -> Result<Fate, AllocError>
    requires level { level ≡ C.height }
    requires within { (first + 16) * 16 ^ level ≤ 1048576 }
    requires low { level ≤ 5 }
    requires order { AreInOrder updates.now }
    requires sound { IsSoundKid (suc C.height) (part_of_node (inner_part C.part) old) }
    ensures touched { IfOk result (λ f. f.touched ≡ any_kid (touched (said updates.now) C.height) first (places_of (part_of_node (inner_part C.part) old.entry))) }
    ensures stays { IfOk result (λ f. f.stays ≡ any_kid (stays (said updates.now) C.height) first (places_of (part_of_node (inner_part C.part) old.entry))) }
    ensures claims { OnOk result (findings.new.claims.items ≡ findings.old.claims.items ++ later_first (claims (said updates.now) young.0 C.height) first (places_of (part_of_node (inner_part C.part) old.entry))) }
    ensures released { OnOk result (findings.new.released.items ≡ findings.old.released.items ++ later_first (released (said updates.now) young.0 C.height) first (places_of (part_of_node (inner_part C.part) old.entry))) }
    ensures metered { OnOk result (counted meter.old (length (later_first (dropped (said updates.now) young.0 C.height) first (places_of (part_of_node (inner_part C.part) old.entry)))) ≤ meter.new) }
    ensures never_lower { meter.old ≤ meter.new }
{
    let mut touched = false;
    let mut stays = false;
    let mut halves = (updates, updates);
    let span = span(u32::from(level));
    for back in 0..place_count(old) {
        let place = 15 - back;
        let index = first + place;
        halves = split_at_leaf(halves.1, index * span);
        let kid = kid_at(old, place as usize);
        let fate = C::survey(kid, level, index, halves.0, young, findings, meter)?;
        touched |= fate.touched;
        stays |= fate.stays;
    }
    Ok(Fate { touched, stays })
}

/// Whether a node stays, where a batch changes nothing below it but at one place. `stays` says whether the node at that place stays.
fn stays_beside<C: Level>(stays: bool, old: Option<&Inner<C>>, place: u32) -> bool
    ensures stays { IsTrue result → IsTrue stays ⊎ HasOther place (places_of (part_of_node (inner_part C.part) old.entry)) }
    ensures goes { result ≡ false → stays ≡ false }
    ensures alone { result ≡ false → (q : ℕ) → ¬ (q ≡ place) → slice_index_or (places_of (part_of_node (inner_part C.part) old.entry)) q None ≡ None }
{
    if stays {
        return true;
    }
    for at in 0..place_count(old) {
        if at != place && kid_at(old, at as usize).is_some() {
            return true;
        }
    }
    false
}

/// Adds to the findings what a batch does below a node. Where the batch writes or punches a single leaf, only the path to that leaf is surveyed.
fn survey_below<C: Survey>(
    old: Option<&Inner<C>>,
    level: u8,
    index: u32,
    updates: &[Update],
    young: Group,
    findings: &mut Findings,
    meter: &mut Meter,
) -> Result<Fate, AllocError>
    requires level { level ≡ suc C.height }
    requires within { (index + 1) * 16 ^ level ≤ 1048576 }
    requires low { level ≤ 5 }
    requires order { AreInOrder updates.now }
    requires sound { IsSoundKid (suc C.height) (part_of_node (inner_part C.part) old) }
    ensures touched { IfOk result (λ f. f.touched ≡ any_kid (touched (said updates.now) C.height) (16 * index) (places_of (part_of_node (inner_part C.part) old.entry))) }
    ensures stays { IfOk result (λ f. f.stays ≡ any_kid (stays (said updates.now) C.height) (16 * index) (places_of (part_of_node (inner_part C.part) old.entry))) }
    ensures claims { OnOk result (findings.new.claims.items ≡ findings.old.claims.items ++ later_first (claims (said updates.now) young.0 C.height) (16 * index) (places_of (part_of_node (inner_part C.part) old.entry))) }
    ensures released { OnOk result (findings.new.released.items ≡ findings.old.released.items ++ later_first (released (said updates.now) young.0 C.height) (16 * index) (places_of (part_of_node (inner_part C.part) old.entry))) }
    ensures metered { OnOk result (counted meter.old (length (later_first (dropped (said updates.now) young.0 C.height) (16 * index) (places_of (part_of_node (inner_part C.part) old.entry)))) ≤ meter.new) }
    ensures never_lower { meter.old ≤ meter.new }
{
    let first = 16 * index;
    let Some(way) = way_of(updates, level, index) else {
        return survey_kids(old, level - 1, first, updates, young, findings, meter);
    };
    let kid = kid_at(old, way.place as usize);
    let fate = C::survey(
        kid,
        level - 1,
        first + way.place,
        updates,
        young,
        findings,
        meter,
    )?;
    let stays = stays_beside(fate.stays, old, way.place);
    Ok(Fate {
        touched: fate.touched,
        stays,
    })
}

impl<C: Survey> Survey for Inner<C> {
    fn survey(
        old: Option<&Inner<C>>,
        level: u8,
        index: u32,
        updates: &[Update],
        young: Group,
        findings: &mut Findings,
        meter: &mut Meter,
    ) -> Result<Fate, AllocError> {
        let present = old.is_some();
        if is_idle(updates, present) {
            return Ok(Fate {
                touched: false,
                stays: present,
            });
        }
        let own = block_of(old, meter);
        let below = survey_below(old, level, index, updates, young, findings, meter)?;
        let fate = fate_above(below, present);
        close(own, Key { level, index }, fate, young, findings)?;
        Ok(fate)
    }

    fn blocks_to(
        old: Option<&Inner<C>>,
        level: u8,
        leaf: u32,
        blocks: &mut [Option<Dead>; 6],
        meter: &mut Meter,
    ) {
        let own = block_of(old, meter);
        let below = leaf / span(u32::from(level - 1));
        let place = below % 16;
        let kid = kid_at(old, place as usize);
        C::blocks_to(kid, level - 1, leaf, blocks, meter);
        blocks[level as usize] = own;
    }
}

/// The root, if there is one.
pub(crate) fn root_of(root: &Option<Arc<Root>>) -> Option<&Root>
    ensures { part_of_node root_part result ≡ whole root.now }
{
    match root {
        Some(a) => Some(&**a),
        None => None,
    }
}

/// What a batch does to a tree, and whether it touches any key. `room` is how many new blocks there is room for at first.
pub(crate) fn findings_of(
    alloc: Global,
    root: &Option<Arc<Root>>,
    updates: &[Update],
    room: usize,
    young: Group,
    meter: &mut Meter,
) -> Result<(Findings, bool), AllocError>
    requires order { AreInOrder updates.now }
    requires sound { IsSoundKid 5 (whole root.now) }
    ensures touched { IfOk result (λ p. p.1 ≡ touched (said updates.now) 5 0 (whole root.now)) }
    ensures claims { IfOk result (λ p. p.0.claims.items ≡ claims (said updates.now) young.0 5 0 (whole root.now)) }
    ensures released { IfOk result (λ p. p.0.released.items ≡ released (said updates.now) young.0 5 0 (whole root.now)) }
    ensures metered { OnOk result (counted meter.old (length (dropped (said updates.now) young.0 5 0 (whole root.now))) ≤ meter.new) }
    ensures never_lower { meter.old ≤ meter.new }
{
    let mut findings = Findings {
        claims: Vec::with_capacity(alloc, room)?,
        released: Vec::new(alloc),
    };
    let fate = Root::survey(root_of(root), 5, 0, updates, young, &mut findings, meter)?;
    Ok((findings, fate.touched))
}

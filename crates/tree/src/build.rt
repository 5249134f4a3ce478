//! The nodes that a batch of changes makes.
ghost use Rattle.std.specs.Prelude.{◌≡◌, suc, ◌+◌, ◌-◌, ◌*◌, ◌^◌, ◌<◌, ◌≤◌, IfOk, OnOk, IsTrue, Option, Some, None, is_some, false, slice_index_or, length, map};
ghost use Rattle.base.specs.Counting.{counted};
ghost use Rattle.base.specs.Surveys.{AreDifferent};
ghost use Rattle.node.specs.Kid.{IsSoundKid, places_of};
ghost use Rattle.node.specs.Node.{inner_part, part_of_owner, part_of_slot};
ghost use Rattle.node.specs.Pairs.{places_in};
ghost use Rattle.batch.specs.Said.{said, AreInOrder, IsWay};
ghost use Rattle.batch.specs.Touch.{any_kid, later_first, touched, stays, dropped};
ghost use Rattle.batch.specs.Build.{made_keys, parts, rebuilt, number_of, no_block, HasKeys};

use base::meter::Meter;
use base::number::{BlockNo, Group};
use batch::{NewBlock, Update, Way, Word, is_idle, split_at_leaf, way_of, word_of};
use node::{Inner, Leaf, Level, Pair, keep, no_kids, owner_at, owner_count, replace_kid, span};
use std::alloc::{AllocError, Global};
use std::sync::Arc;

/// A part of a tree after a batch: whether it was touched, whether it stays, and how many of the new blocks have been made so far.
#[derive(Drop)]
pub struct Built<C> {
    pub part: Option<Arc<C>>,
    pub touched: bool,
    pub stays: bool,
    pub next: usize,
}

/// The places of a node after a batch.
#[derive(Drop)]
struct BuiltKids<C> {
    kids: [Pair<C>; 8],
    touched: bool,
    stays: bool,
    next: usize,
}

/// The number of the new block at index `at` of the list, and the next index.
pub fn number_at(made: &[NewBlock], at: usize) -> (BlockNo, usize)
    requires { at < length made.now }
    ensures number { result.0 ≡ (slice_index_or made.now at no_block).block }
    ensures next { result.1 ≡ at + 1 }
{
    (made[at].block, at + 1)
}

/// Counts one more node.
#[tactic(auto, unfolding(base::specs::Counting::counted, base::specs::Counting::most))]
pub fn reach(meter: &mut Meter)
    ensures metered { meter.new ≡ counted meter.old 1 }
    ensures never_lower { meter.old ≤ meter.new }
{
    let _reached = meter.count();
    meter.add_one();
}

/// A level whose nodes can be rebuilt.
pub trait Build: Level + Drop {
    /// The part of a tree at and below one key, as it is after a batch. The key is given by its level, and by its index on that level. The new
    /// blocks have the numbers of `made` from index `next` on; `made` is sorted from the last key to the first. The meter rises by at least one
    /// for each block whose key is touched, and for each new one.
    fn build(
        alloc: Global,
        old: Option<&Arc<Self>>,
        level: u8,
        index: u32,
        updates: &[Update],
        group: Group,
        made: &[NewBlock],
        next: usize,
        meter: &mut Meter,
    ) -> Result<Built<Self>, AllocError>
        requires level { level ≡ Self.height }
        requires within { (index + 1) * 16 ^ level ≤ 1048576 }
        requires low { level ≤ 5 }
        requires order { AreInOrder updates.now }
        requires sound { IsSoundKid Self.height (part_of_owner Self.part old) }
        requires keys { HasKeys made.now next (made_keys (said updates.now) Self.height index (part_of_owner Self.part old)) }
        requires once { AreDifferent (map (λ b. b.key) made.now) }
        ensures part { IfOk result (λ b. part_of_slot Self.part b.part ≡ rebuilt (said updates.now) (number_of made.now) group.0 Self.height index (part_of_owner Self.part old.entry)) }
        ensures touched { IfOk result (λ b. b.touched ≡ touched (said updates.now) Self.height index (part_of_owner Self.part old.entry)) }
        ensures stays { IfOk result (λ b. b.stays ≡ stays (said updates.now) Self.height index (part_of_owner Self.part old.entry)) }
        ensures next { IfOk result (λ b. b.next ≡ next + length (made_keys (said updates.now) Self.height index (part_of_owner Self.part old.entry))) }
        ensures metered { OnOk result (counted meter.old (length (dropped (said updates.now) 0 Self.height index (part_of_owner Self.part old.entry))) ≤ meter.new) }
        ensures metered_made { IfOk result (λ b. counted meter.old (b.next - next) ≤ meter.new) }
        ensures never_lower { meter.old ≤ meter.new };
}

impl Build for Leaf {
    fn build(
        alloc: Global,
        old: Option<&Arc<Leaf>>,
        _level: u8,
        index: u32,
        updates: &[Update],
        group: Group,
        made: &[NewBlock],
        next: usize,
        meter: &mut Meter,
    ) -> Result<Built<Leaf>, AllocError> {
        reach(meter);
        let present = old.is_some();
        match word_of(updates, index) {
            Word::Silent => Ok(Built {
                part: keep(old)?,
                touched: false,
                stays: present,
                next,
            }),
            Word::Hole => Ok(Built {
                part: None,
                touched: present,
                stays: false,
                next,
            }),
            Word::Full(bytes) => {
                let (block, after) = number_at(made, next);
                Ok(Built {
                    part: Some(Arc::new(alloc, Leaf::new(block, group, *bytes))?),
                    touched: true,
                    stays: true,
                    next: after,
                })
            }
        }
    }
}

/// The part at a place below, as `build` makes it. Where the batch does nothing to it, no node of it is reached.
fn build_kid<C: Build>(
    alloc: Global,
    old: Option<&Arc<C>>,
    level: u8,
    index: u32,
    updates: &[Update],
    group: Group,
    made: &[NewBlock],
    next: usize,
    meter: &mut Meter,
) -> Result<Built<C>, AllocError>
    requires level { level ≡ C.height }
    requires within { (index + 1) * 16 ^ level ≤ 1048576 }
    requires low { level ≤ 5 }
    requires order { AreInOrder updates.now }
    requires sound { IsSoundKid C.height (part_of_owner C.part old) }
    requires keys { HasKeys made.now next (made_keys (said updates.now) C.height index (part_of_owner C.part old)) }
    requires once { AreDifferent (map (λ b. b.key) made.now) }
    ensures part { IfOk result (λ b. part_of_slot C.part b.part ≡ rebuilt (said updates.now) (number_of made.now) group.0 C.height index (part_of_owner C.part old.entry)) }
    ensures touched { IfOk result (λ b. b.touched ≡ touched (said updates.now) C.height index (part_of_owner C.part old.entry)) }
    ensures stays { IfOk result (λ b. b.stays ≡ stays (said updates.now) C.height index (part_of_owner C.part old.entry)) }
    ensures next { IfOk result (λ b. b.next ≡ next + length (made_keys (said updates.now) C.height index (part_of_owner C.part old.entry))) }
    ensures metered { OnOk result (counted meter.old (length (dropped (said updates.now) 0 C.height index (part_of_owner C.part old.entry))) ≤ meter.new) }
    ensures metered_made { IfOk result (λ b. counted meter.old (b.next - next) ≤ meter.new) }
    ensures never_lower { meter.old ≤ meter.new }
{
    let present = old.is_some();
    if is_idle(updates, present) {
        return Ok(Built {
            part: keep(old)?,
            touched: false,
            stays: present,
            next,
        });
    }
    C::build(alloc, old, level, index, updates, group, made, next, meter)
}

/// The places of a node as they are after a batch, made from the last place to the first. The nodes at the places have this level, and their
/// indices begin at `first`.
fn build_kids<C: Build>(
    alloc: Global,
    old: Option<&Arc<Inner<C>>>,
    level: u8,
    first: u32,
    updates: &[Update],
    group: Group,
    made: &[NewBlock],
    next: usize,
    meter: &mut Meter,
) -> Result<BuiltKids<C>, AllocError>
    requires level { level ≡ C.height }
    requires within { (first + 16) * 16 ^ level ≤ 1048576 }
    requires low { level ≤ 5 }
    requires order { AreInOrder updates.now }
    requires sound { IsSoundKid (suc C.height) (part_of_owner (inner_part C.part) old) }
    requires keys { HasKeys made.now next (later_first (made_keys (said updates.now) C.height) first (places_of (part_of_owner (inner_part C.part) old))) }
    requires once { AreDifferent (map (λ b. b.key) made.now) }
    ensures kids { IfOk result (λ b. map (part_of_slot C.part) (places_in b.kids) ≡ parts (rebuilt (said updates.now) (number_of made.now) group.0 C.height) first (places_of (part_of_owner (inner_part C.part) old.entry))) }
    ensures touched { IfOk result (λ b. b.touched ≡ any_kid (touched (said updates.now) C.height) first (places_of (part_of_owner (inner_part C.part) old.entry))) }
    ensures stays { IfOk result (λ b. b.stays ≡ any_kid (stays (said updates.now) C.height) first (places_of (part_of_owner (inner_part C.part) old.entry))) }
    ensures next { IfOk result (λ b. b.next ≡ next + length (later_first (made_keys (said updates.now) C.height) first (places_of (part_of_owner (inner_part C.part) old.entry)))) }
    ensures metered { OnOk result (counted meter.old (length (later_first (dropped (said updates.now) 0 C.height) first (places_of (part_of_owner (inner_part C.part) old.entry)))) ≤ meter.new) }
    ensures metered_made { IfOk result (λ b. counted meter.old (b.next - next) ≤ meter.new) }
    ensures never_lower { meter.old ≤ meter.new }
{
    let mut kids = no_kids();
    let mut any_touched = false;
    let mut any_stays = false;
    let mut at = next;
    let mut halves = (updates, updates);
    let span = span(u32::from(level));
    for back in 0..owner_count(old) {
        let place = 15 - back;
        let index = first + place;
        halves = split_at_leaf(halves.1, index * span);
        let kid = owner_at(old, place as usize);
        let built = build_kid(alloc, kid, level, index, halves.0, group, made, at, meter)?;
        any_touched |= built.touched;
        any_stays |= built.stays;
        at = built.next;
        replace_kid(&mut kids, place as usize, built.part);
    }
    Ok(BuiltKids {
        kids,
        touched: any_touched,
        stays: any_stays,
        next: at,
    })
}

/// A node that was absent, where a batch writes a single leaf below it. Only its place on the path to that leaf gets a node.
fn grow<C: Build>(
    alloc: Global,
    old: Option<&Arc<Inner<C>>>,
    way: Way,
    level: u8,
    index: u32,
    updates: &[Update],
    group: Group,
    made: &[NewBlock],
    next: usize,
    meter: &mut Meter,
) -> Result<Built<Inner<C>>, AllocError>
    requires absent { is_some old ≡ false }
    requires way { IsWay (said updates.now) (level - 1) index way.place way.writes }
    requires writes { IsTrue way.writes }
    requires level { level ≡ suc C.height }
    requires within { (index + 1) * 16 ^ level ≤ 1048576 }
    requires low { level ≤ 5 }
    requires order { AreInOrder updates.now }
    requires sound { IsSoundKid (suc C.height) (part_of_owner (inner_part C.part) old) }
    requires keys { HasKeys made.now next (made_keys (said updates.now) (suc C.height) index (part_of_owner (inner_part C.part) old)) }
    requires once { AreDifferent (map (λ b. b.key) made.now) }
    ensures part { IfOk result (λ b. part_of_slot (inner_part C.part) b.part ≡ rebuilt (said updates.now) (number_of made.now) group.0 (suc C.height) index (part_of_owner (inner_part C.part) old.entry)) }
    ensures touched { IfOk result (λ b. b.touched ≡ touched (said updates.now) (suc C.height) index (part_of_owner (inner_part C.part) old.entry)) }
    ensures stays { IfOk result (λ b. b.stays ≡ stays (said updates.now) (suc C.height) index (part_of_owner (inner_part C.part) old.entry)) }
    ensures next { IfOk result (λ b. b.next ≡ next + length (made_keys (said updates.now) (suc C.height) index (part_of_owner (inner_part C.part) old.entry))) }
    ensures metered { OnOk result (counted meter.old (length (dropped (said updates.now) 0 (suc C.height) index (part_of_owner (inner_part C.part) old.entry))) ≤ meter.new) }
    ensures metered_made { IfOk result (λ b. counted meter.old (b.next - next) ≤ meter.new) }
    ensures never_lower { meter.old ≤ meter.new }
{
    reach(meter);
    let mut kids = no_kids();
    let kid = owner_at(old, way.place as usize);
    let built = C::build(
        alloc,
        kid,
        level - 1,
        16 * index + way.place,
        updates,
        group,
        made,
        next,
        meter,
    )?;
    replace_kid(&mut kids, way.place as usize, built.part);
    let (block, after) = number_at(made, built.next);
    Ok(Built {
        part: Some(Arc::new(alloc, Inner::new(block, group, kids))?),
        touched: true,
        stays: true,
        next: after,
    })
}

impl<C: Build> Build for Inner<C> {
    fn build(
        alloc: Global,
        old: Option<&Arc<Inner<C>>>,
        level: u8,
        index: u32,
        updates: &[Update],
        group: Group,
        made: &[NewBlock],
        next: usize,
        meter: &mut Meter,
    ) -> Result<Built<Inner<C>>, AllocError> {
        let present = old.is_some();
        if is_idle(updates, present) {
            return Ok(Built {
                part: keep(old)?,
                touched: false,
                stays: present,
                next,
            });
        }
        if let Some(way) = way_of(updates, level, index) {
            if way.writes {
                if old.is_none() {
                    return grow(
                        alloc, old, way, level, index, updates, group, made, next, meter,
                    );
                }
            }
        }
        reach(meter);
        let below = build_kids(
            alloc,
            old,
            level - 1,
            16 * index,
            updates,
            group,
            made,
            next,
            meter,
        )?;
        if !below.touched {
            return Ok(Built {
                part: keep(old)?,
                touched: false,
                stays: present,
                next: below.next,
            });
        }
        if !below.stays {
            return Ok(Built {
                part: None,
                touched: true,
                stays: false,
                next: below.next,
            });
        }
        let (block, after) = number_at(made, below.next);
        Ok(Built {
            part: Some(Arc::new(alloc, Inner::new(block, group, below.kids))?),
            touched: true,
            stays: true,
            next: after,
        })
    }
}

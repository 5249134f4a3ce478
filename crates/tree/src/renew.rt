//! The nodes that a batch of changes makes. Nodes that have no other owner are changed in place.
ghost use Rattle.std.specs.Prelude.{◌≡◌, suc, ◌+◌, ◌-◌, ◌*◌, ◌^◌, ◌<◌, ◌≤◌, ◌/◌, ◌%◌, ◌⊎◌, IsTrue, IfOk, IfSome, IfNone, OnOk, OnErr, Some, None, true, length, map, slice_index_or, slice_set};
ghost use Rattle.std.specs.Option.{OnSome};
ghost use Rattle.base.specs.Counting.{counted};
ghost use Rattle.base.specs.Surveys.{AreDifferent};
ghost use Rattle.node.specs.Kid.{IsSoundKid};
ghost use Rattle.node.specs.Node.{inner_part, part_of_slot, whole};
ghost use Rattle.node.specs.Pairs.{left_of, right_of, side_of, places_in};
ghost use Rattle.batch.specs.Said.{said, AreInOrder, IsWay};
ghost use Rattle.batch.specs.Touch.{touched, stays, dropped};
ghost use Rattle.batch.specs.Build.{made_keys, rebuilt, number_of, HasKeys};
ghost use Rattle.batch.specs.Others.{HasOther};

use crate::build::{Build, number_at, reach};
use crate::copy::own;
use base::meter::Meter;
use base::number::Group;
use batch::{NewBlock, Update, Way, Word, way_of, word_of};
use node::{Inner, Leaf, Level, Pair, Root, kid_at, owner_in, replace_kid};
use std::alloc::{AllocError, Global};
use std::sync::Arc;

/// A level whose nodes can be changed in place.
pub trait Renew: Build {
    /// Applies a batch in place to the part of a tree at and below one key, which the batch touches. The key is given by its level, and by its
    /// index on that level. It answers the index in `made` after the numbers that it has used, and counts the same nodes as `build`. Where the
    /// batch writes or punches a single leaf, a node that stays is changed in place, however old it is, if it has no other owner; else `owner`
    /// gets a copy of the node, and the copy is changed. None where the part must be rebuilt, or goes. At None and at `Err` the part is
    /// unchanged.
    fn renew(
        owner: &mut Arc<Self>,
        alloc: Global,
        level: u8,
        index: u32,
        updates: &[Update],
        group: Group,
        made: &[NewBlock],
        next: usize,
        meter: &mut Meter,
    ) -> Result<Option<usize>, AllocError>
        requires level { level ≡ Self.height }
        requires within { (index + 1) * 16 ^ level ≤ 1048576 }
        requires low { level ≤ 5 }
        requires order { AreInOrder updates.now }
        requires sound { IsSoundKid Self.height (Some (Self.part owner.old.value)) }
        requires touched { touched (said updates.now) Self.height index (Some (Self.part owner.old.value)) ≡ true }
        requires keys { HasKeys made.now next (made_keys (said updates.now) Self.height index (Some (Self.part owner.old.value))) }
        requires once { AreDifferent (map (λ b. b.key) made.now) }
        ensures part { IfOk result (λ o. OnSome o (Some (Self.part owner.new.value) ≡ rebuilt (said updates.now) (number_of made.now) group.0 Self.height index (Some (Self.part owner.old.value)))) }
        ensures next { IfOk result (λ o. IfSome o (λ n. n ≡ next + length (made_keys (said updates.now) Self.height index (Some (Self.part owner.old.value))))) }
        ensures metered { IfOk result (λ o. OnSome o (counted meter.old (length (dropped (said updates.now) 0 Self.height index (Some (Self.part owner.old.value)))) ≤ meter.new)) }
        ensures metered_made { IfOk result (λ o. IfSome o (λ n. counted meter.old (n - next) ≤ meter.new)) }
        ensures never_lower { meter.old ≤ meter.new }
        ensures alike { IfOk result (λ o. IfNone o (Self.part owner.new.value ≡ Self.part owner.old.value)) }
        ensures same { OnErr result (Self.part owner.new.value ≡ Self.part owner.old.value) };
}

impl Renew for Leaf {
    fn renew(
        owner: &mut Arc<Leaf>,
        alloc: Global,
        level: u8,
        index: u32,
        updates: &[Update],
        group: Group,
        made: &[NewBlock],
        next: usize,
        meter: &mut Meter,
    ) -> Result<Option<usize>, AllocError> {
        if let Word::Full(bytes) = word_of(updates, index) {
            if let Some(leaf) = Arc::get_mut(owner) {
                reach(meter);
                let (block, after) = number_at(made, next);
                leaf.block = block;
                leaf.birth = group;
                leaf.bytes = *bytes;
                return Ok(Some(after));
            }
        }
        Ok(None)
    }
}

/// Whether a node is sure to stay after a batch that changes a single leaf below it: the batch writes the leaf, or there is a node at another
/// place than that on the path to the leaf.
fn surely_stays<C: Level>(node: &Inner<C>, way: Way) -> bool
    ensures { IsTrue result → IsTrue way.writes ⊎ HasOther way.place (places_in node.now.kids) }
{
    if way.writes {
        return true;
    }
    for at in 0..node.place_count() {
        if at != way.place && node.kid(at as usize).is_some() {
            return true;
        }
    }
    false
}

/// Changes the node at a place of a pair in place, as `renew` does: the left one where `place` is even, and else the right one. None, with the
/// pair unchanged, where there is no node.
fn renew_side<C: Renew>(
    pair: &mut Pair<C>,
    place: usize,
    alloc: Global,
    level: u8,
    index: u32,
    updates: &[Update],
    group: Group,
    made: &[NewBlock],
    next: usize,
    meter: &mut Meter,
) -> Result<Option<usize>, AllocError>
    requires level { level ≡ C.height }
    requires within { (index + 1) * 16 ^ level ≤ 1048576 }
    requires low { level ≤ 5 }
    requires order { AreInOrder updates.now }
    requires sound { IsSoundKid C.height (part_of_slot C.part (side_of pair.old (place % 2))) }
    requires touched { touched (said updates.now) C.height index (part_of_slot C.part (side_of pair.old (place % 2))) ≡ true }
    requires keys { HasKeys made.now next (made_keys (said updates.now) C.height index (part_of_slot C.part (side_of pair.old (place % 2)))) }
    requires once { AreDifferent (map (λ b. b.key) made.now) }
    ensures part { IfOk result (λ o. OnSome o (part_of_slot C.part (side_of pair.new (place % 2)) ≡ rebuilt (said updates.now) (number_of made.now) group.0 C.height index (part_of_slot C.part (side_of pair.old (place % 2))))) }
    ensures next { IfOk result (λ o. IfSome o (λ n. n ≡ next + length (made_keys (said updates.now) C.height index (part_of_slot C.part (side_of pair.old (place % 2)))))) }
    ensures metered { IfOk result (λ o. OnSome o (counted meter.old (length (dropped (said updates.now) 0 C.height index (part_of_slot C.part (side_of pair.old (place % 2))))) ≤ meter.new)) }
    ensures metered_made { IfOk result (λ o. IfSome o (λ n. counted meter.old (n - next) ≤ meter.new)) }
    ensures never_lower { meter.old ≤ meter.new }
    ensures alike { IfOk result (λ o. IfNone o (part_of_slot C.part (side_of pair.new (place % 2)) ≡ part_of_slot C.part (side_of pair.old (place % 2)))) }
    ensures same { OnErr result (part_of_slot C.part (side_of pair.new (place % 2)) ≡ part_of_slot C.part (side_of pair.old (place % 2))) }
    ensures left { ¬ (place % 2 ≡ 0) → left_of pair.new ≡ left_of pair.old }
    ensures right { place % 2 ≡ 0 → right_of pair.new ≡ right_of pair.old }
{
    match pair {
        Pair::Neither => Ok(None),
        Pair::Left(left) => {
            if place % 2 == 0 {
                C::renew(left, alloc, level, index, updates, group, made, next, meter)
            } else {
                Ok(None)
            }
        }
        Pair::Right(right) => {
            if place % 2 == 0 {
                Ok(None)
            } else {
                C::renew(
                    right, alloc, level, index, updates, group, made, next, meter,
                )
            }
        }
        Pair::Both(left, right) => {
            if place % 2 == 0 {
                C::renew(left, alloc, level, index, updates, group, made, next, meter)
            } else {
                C::renew(
                    right, alloc, level, index, updates, group, made, next, meter,
                )
            }
        }
    }
}

/// Applies a batch to the part at a place, which the batch touches. The part is changed in place where it can be, and else rebuilt.
fn renew_kid<C: Renew>(
    kids: &mut [Pair<C>; 8],
    place: usize,
    alloc: Global,
    level: u8,
    index: u32,
    updates: &[Update],
    group: Group,
    made: &[NewBlock],
    next: usize,
    meter: &mut Meter,
) -> Result<usize, AllocError>
    requires place { place < 16 }
    requires level { level ≡ C.height }
    requires within { (index + 1) * 16 ^ level ≤ 1048576 }
    requires low { level ≤ 5 }
    requires order { AreInOrder updates.now }
    requires sound { IsSoundKid C.height (part_of_slot C.part (slice_index_or (places_in kids.old) place None)) }
    requires touched { touched (said updates.now) C.height index (part_of_slot C.part (slice_index_or (places_in kids.old) place None)) ≡ true }
    requires keys { HasKeys made.now next (made_keys (said updates.now) C.height index (part_of_slot C.part (slice_index_or (places_in kids.old) place None))) }
    requires once { AreDifferent (map (λ b. b.key) made.now) }
    ensures part { OnOk result (part_of_slot C.part (slice_index_or (places_in kids.new) place None) ≡ rebuilt (said updates.now) (number_of made.now) group.0 C.height index (part_of_slot C.part (slice_index_or (places_in kids.old) place None))) }
    ensures next { IfOk result (λ n. n ≡ next + length (made_keys (said updates.now) C.height index (part_of_slot C.part (slice_index_or (places_in kids.old) place None)))) }
    ensures metered { OnOk result (counted meter.old (length (dropped (said updates.now) 0 C.height index (part_of_slot C.part (slice_index_or (places_in kids.old) place None)))) ≤ meter.new) }
    ensures metered_made { IfOk result (λ n. counted meter.old (n - next) ≤ meter.new) }
    ensures never_lower { meter.old ≤ meter.new }
    ensures same { OnErr result (part_of_slot C.part (slice_index_or (places_in kids.new) place None) ≡ part_of_slot C.part (slice_index_or (places_in kids.old) place None)) }
    ensures beside { places_in kids.new ≡ slice_set (places_in kids.old) place (slice_index_or (places_in kids.new) place None) }
{
    let pair = &mut kids[place / 2];
    let renewed = renew_side(
        pair, place, alloc, level, index, updates, group, made, next, meter,
    )?;
    if let Some(after) = renewed {
        return Ok(after);
    }
    let old = kid_at(kids, place);
    let built = C::build(alloc, old, level, index, updates, group, made, next, meter)?;
    replace_kid(kids, place, built.part);
    Ok(built.next)
}

/// Changes in place a node that stays. The batch writes or punches a single leaf, and one place of the node is on the path to it.
fn renew_node<C: Renew>(
    node: &mut Inner<C>,
    way: Way,
    alloc: Global,
    level: u8,
    index: u32,
    updates: &[Update],
    group: Group,
    made: &[NewBlock],
    next: usize,
    meter: &mut Meter,
) -> Result<usize, AllocError>
    requires way { IsWay (said updates.now) C.height index way.place way.writes }
    requires level { level ≡ suc C.height }
    requires within { (index + 1) * 16 ^ level ≤ 1048576 }
    requires low { level ≤ 5 }
    requires order { AreInOrder updates.now }
    requires sound { IsSoundKid (suc C.height) (Some (inner_part C.part node.old)) }
    requires touched { touched (said updates.now) (suc C.height) index (Some (inner_part C.part node.old)) ≡ true }
    requires stays { stays (said updates.now) (suc C.height) index (Some (inner_part C.part node.old)) ≡ true }
    requires keys { HasKeys made.now next (made_keys (said updates.now) (suc C.height) index (Some (inner_part C.part node.old))) }
    requires once { AreDifferent (map (λ b. b.key) made.now) }
    ensures part { OnOk result (Some (inner_part C.part node.new) ≡ rebuilt (said updates.now) (number_of made.now) group.0 (suc C.height) index (Some (inner_part C.part node.old))) }
    ensures next { IfOk result (λ n. n ≡ next + length (made_keys (said updates.now) (suc C.height) index (Some (inner_part C.part node.old)))) }
    ensures metered { OnOk result (counted meter.old (length (dropped (said updates.now) 0 (suc C.height) index (Some (inner_part C.part node.old)))) ≤ meter.new) }
    ensures metered_made { IfOk result (λ n. counted meter.old (n - next) ≤ meter.new) }
    ensures never_lower { meter.old ≤ meter.new }
    ensures same { OnErr result (inner_part C.part node.new ≡ inner_part C.part node.old) }
{
    reach(meter);
    let at = renew_kid(
        &mut node.kids,
        way.place as usize,
        alloc,
        level - 1,
        16 * index + way.place,
        updates,
        group,
        made,
        next,
        meter,
    )?;
    let (block, after) = number_at(made, at);
    node.block = block;
    node.birth = group;
    Ok(after)
}

impl<C: Renew> Renew for Inner<C> {
    fn renew(
        owner: &mut Arc<Inner<C>>,
        alloc: Global,
        level: u8,
        index: u32,
        updates: &[Update],
        group: Group,
        made: &[NewBlock],
        next: usize,
        meter: &mut Meter,
    ) -> Result<Option<usize>, AllocError> {
        if let Some(way) = way_of(updates, level, index) {
            if surely_stays(owner, way) {
                own(owner, alloc)?;
                if let Some(node) = Arc::get_mut(owner) {
                    let after = renew_node(
                        node, way, alloc, level, index, updates, group, made, next, meter,
                    )?;
                    return Ok(Some(after));
                }
            }
        }
        Ok(None)
    }
}

/// Replaces a root by that of the tree after a batch. At `Err` the tree is unchanged. The meter rises by at least one for each block whose key
/// is touched, and for each new one.
pub fn renew_root(
    root: &mut Option<Arc<Root>>,
    alloc: Global,
    is_touched: bool,
    updates: &[Update],
    group: Group,
    made: &[NewBlock],
    meter: &mut Meter,
) -> Result<(), AllocError>
    requires order { AreInOrder updates.now }
    requires sound { IsSoundKid 5 (whole root.old) }
    requires touched { is_touched ≡ touched (said updates.now) 5 0 (whole root.old) }
    requires keys { HasKeys made.now 0 (made_keys (said updates.now) 5 0 (whole root.old)) }
    requires once { AreDifferent (map (λ b. b.key) made.now) }
    ensures part { OnOk result (whole root.new ≡ rebuilt (said updates.now) (number_of made.now) group.0 5 0 (whole root.old)) }
    ensures metered { OnOk result (counted meter.old (length (dropped (said updates.now) 0 5 0 (whole root.old))) ≤ meter.new) }
    ensures metered_made { OnOk result (counted meter.old (length (made_keys (said updates.now) 5 0 (whole root.old))) ≤ meter.new) }
    ensures never_lower { meter.old ≤ meter.new }
    ensures same { OnErr result (whole root.new ≡ whole root.old) }
{
    if !is_touched {
        return Ok(());
    }
    if let Some(owner) = root {
        let renewed = Root::renew(owner, alloc, 5, 0, updates, group, made, 0, meter)?;
        if renewed.is_some() {
            return Ok(());
        }
    }
    let old = owner_in(root);
    let built = Root::build(alloc, old, 5, 0, updates, group, made, 0, meter)?;
    *root = built.part;
    Ok(())
}

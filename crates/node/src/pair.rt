//! The places of a node, in pairs.
ghost use Rattle.std.specs.Prelude.{◌≡◌, ◌%◌, ◌<◌, IfOk, None, length, replicate, slice_index_or, slice_set};
ghost use Rattle.std.specs.Option.{option_map};
ghost use Rattle.node.specs.Node.{part_of_slot};
ghost use Rattle.node.specs.Pairs.{left_of, right_of, side_of, places_in};

use crate::node::Level;
use std::alloc::AllocError;
use std::mem;
use std::sync::Arc;

/// The nodes at two neighbouring places. It takes three words, where two single places would take four.
#[derive(Drop)]
pub enum Pair<C> {
    Neither,
    Left(Arc<C>),
    Right(Arc<C>),
    Both(Arc<C>, Arc<C>),
}

impl<C> Pair<C> {
    /// The pair with these nodes at its places.
    fn of(left: Option<Arc<C>>, right: Option<Arc<C>>) -> Pair<C>
        ensures left { left_of result ≡ left }
        ensures right { right_of result ≡ right }
    {
        match (left, right) {
            (None, None) => Pair::Neither,
            (Some(left), None) => Pair::Left(left),
            (None, Some(right)) => Pair::Right(right),
            (Some(left), Some(right)) => Pair::Both(left, right),
        }
    }

    /// The nodes at the two places.
    fn sides(self) -> (Option<Arc<C>>, Option<Arc<C>>)
        ensures left { result.0 ≡ left_of self }
        ensures right { result.1 ≡ right_of self }
    {
        match self {
            Pair::Neither => (None, None),
            Pair::Left(left) => (Some(left), None),
            Pair::Right(right) => (None, Some(right)),
            Pair::Both(left, right) => (Some(left), Some(right)),
        }
    }

    /// The owner of the node at one of the two places: the left one where `place` is even, and else the right one.
    fn side(&self, place: usize) -> Option<&Arc<C>>
        ensures { option_map (λ a. a.now) result ≡ side_of self.now (place % 2) }
    {
        if place % 2 == 0 {
            match self {
                Pair::Left(left) => Some(left),
                Pair::Both(left, _) => Some(left),
                _ => None,
            }
        } else {
            match self {
                Pair::Right(right) => Some(right),
                Pair::Both(_, right) => Some(right),
                _ => None,
            }
        }
    }
}

impl<C: Level + Drop> Pair<C> {
    /// A pair that shares the same nodes, by one more owner of each.
    pub fn copy(&self) -> Result<Pair<C>, AllocError>
        ensures left { IfOk result (λ p. part_of_slot C.part (left_of p) ≡ part_of_slot C.part (left_of self.now)) }
        ensures right { IfOk result (λ p. part_of_slot C.part (right_of p) ≡ part_of_slot C.part (right_of self.now)) }
    {
        match self {
            Pair::Neither => Ok(Pair::Neither),
            Pair::Left(left) => Ok(Pair::Left(Arc::try_clone(left)?)),
            Pair::Right(right) => Ok(Pair::Right(Arc::try_clone(right)?)),
            Pair::Both(left, right) => {
                let left = Arc::try_clone(left)?;
                let right = Arc::try_clone(right)?;
                Ok(Pair::Both(left, right))
            }
        }
    }
}

/// Sixteen places without a node.
pub fn no_kids<C>() -> [Pair<C>; 8]
    ensures { places_in result ≡ replicate 16 None }
{
    [
        Pair::Neither,
        Pair::Neither,
        Pair::Neither,
        Pair::Neither,
        Pair::Neither,
        Pair::Neither,
        Pair::Neither,
        Pair::Neither,
    ]
}

/// Reads the owner counts of the nodes at the places, if the last two places both have one, as in a full node. The caller changes these counts
/// next. The reads wait for memory in parallel, while the changes would wait one after another; after the reads they find the counts in the
/// cache. It changes nothing.
pub fn read_counts<C>(kids: &[Pair<C>; 8]) {
    let Pair::Both(_, last) = &kids[7] else {
        return;
    };
    let mut most = Arc::strong_count(last);
    for pair in kids {
        if let Pair::Both(left, right) = pair {
            most = most
                .max(Arc::strong_count(left))
                .max(Arc::strong_count(right));
        }
    }
    if most == 0 {
        unreachable!()
    }
}

/// How many places eight pairs have: 16.
pub fn place_count<C>(kids: &[Pair<C>; 8]) -> u32
    ensures sixteen { result ≡ 16 }
    ensures all { length (places_in kids.now) ≡ 16 }
{
    16
}

/// The owner of the node at a place.
pub fn kid_at<C>(kids: &[Pair<C>; 8], place: usize) -> Option<&Arc<C>>
    requires { place < 16 }
    ensures { option_map (λ a. a.now) result ≡ slice_index_or (places_in kids.now) place None }
{
    kids[place / 2].side(place)
}

/// Replaces the node at a place by `kid`, and answers the former one.
pub fn replace_kid<C: Drop>(
    kids: &mut [Pair<C>; 8],
    place: usize,
    kid: Option<Arc<C>>,
) -> Option<Arc<C>>
    requires { place < 16 }
    ensures stood { result ≡ slice_index_or (places_in kids.old) place None }
    ensures stands { places_in kids.new ≡ slice_set (places_in kids.old) place kid }
{
    let pair = mem::replace(&mut kids[place / 2], Pair::Neither);
    let (left, right) = pair.sides();
    if place % 2 == 0 {
        kids[place / 2] = Pair::of(kid, right);
        left
    } else {
        kids[place / 2] = Pair::of(left, kid);
        right
    }
}

//! The elements around a place of a list.
ghost use Rattle.std.specs.Prelude.{◌≡◌, ◌+◌, None, Some, take, slice_get, IfSome};
ghost use Rattle.std.specs.List.{last_or};
ghost use Rattle.std.specs.Option.{option_copied};
ghost use Rattle.shared_list.specs.Around.{IsAround};
ghost use Rattle.shared_list.specs.Elements.{flattened};
ghost use Rattle.shared_list.specs.Places.{IsItem, place_index};

use crate::chunk::Chunk;
use crate::place::{Place, last_item};
use crate::spine::Spine;

/// The elements around a place of a list: the one before it, the one at it, and the one after it. Each is None where there is none.
#[derive(Drop)]
pub struct Around<'a, T> {
    pub before: Option<&'a T>,
    pub at: Option<&'a T>,
    pub after: Option<&'a T>,
}

/// The elements around a place; None is the place after all elements. It costs a walk over the groups, and one more for each neighbour in
/// another chunk.
pub(crate) fn around_place<T: Drop>(chunks: &Spine<Chunk<T>>, place: Option<Place>) -> Around<'_, T>
    requires { IfSome place (λ c. IsItem (λ v. v) chunks.now c.k c.at) }
    ensures { IsAround (flattened chunks.now) (place_index (λ v. v) chunks.now place) result }
{
    let Some(place) = place else {
        return Around {
            before: last_item(chunks),
            at: None,
            after: None,
        };
    };
    let chunk = chunks.at(place.k);
    Around {
        before: item_before(chunks, chunk, place),
        at: Some(chunk.get(place.at)),
        after: item_after(chunks, chunk, place),
    }
}

/// The element before a place of this chunk, or None where there is none. Constant time, or a walk over the groups where the place is the first
/// of its chunk.
fn item_before<'a, T: Drop>(
    chunks: &'a Spine<Chunk<T>>,
    chunk: &'a Chunk<T>,
    place: Place,
) -> Option<&'a T>
    requires place { IsItem (λ v. v) chunks.now place.k place.at }
    requires chunk { slice_get chunks.now place.k ≡ Some chunk.now }
    ensures { option_copied result ≡ last_or None (take (place_index (λ v. v) chunks.now (Some place)) (flattened chunks.now)) }
{
    if place.at > 0 {
        return Some(chunk.get(place.at - 1));
    }
    let k = place.k.checked_sub(1)?;
    Some(chunks.at(k).last())
}

/// The element after a place of this chunk, or None where there is none. Constant time, or a walk over the groups where the place is the last of
/// its chunk.
fn item_after<'a, T: Drop>(
    chunks: &'a Spine<Chunk<T>>,
    chunk: &'a Chunk<T>,
    place: Place,
) -> Option<&'a T>
    requires place { IsItem (λ v. v) chunks.now place.k place.at }
    requires chunk { slice_get chunks.now place.k ≡ Some chunk.now }
    ensures { option_copied result ≡ slice_get (flattened chunks.now) (place_index (λ v. v) chunks.now (Some place) + 1) }
{
    if place.at < chunk.len() - 1 {
        return Some(chunk.get(place.at + 1));
    }
    if chunks.len() - 1 <= place.k {
        return None;
    }
    Some(chunks.at(place.k + 1).first())
}

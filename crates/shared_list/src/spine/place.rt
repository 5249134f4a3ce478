//! The places of elements in the chunks of a spine.
ghost use Rattle.std.specs.Prelude.{◌≡◌, ◌+◌, ◌<◌, Some, Bool, length, take, slice_get, IfSome};
ghost use Rattle.std.specs.Arc.{arc_value};
ghost use Rattle.std.specs.Fn.{ComputesKey};
ghost use Rattle.shared_list.specs.Cuts.{IsCut};
ghost use Rattle.shared_list.specs.Elements.{elements};
ghost use Rattle.shared_list.specs.Places.{IsItem, ends, place_index};

use crate::chunk::Chunk;
use crate::cut::cut_of;
use crate::place::Place;
use std::sync::Arc;

/// The place of the element with that index. It costs a walk over the chunks before it.
pub(crate) fn place_of<T: Drop>(chunks: &[Arc<Chunk<T>>], index: usize) -> Place
    requires { index < length (elements chunks.now) }
    ensures place { IsItem arc_value chunks.now result.k result.at }
    ensures index { index ≡ length (elements (take result.k chunks.now)) + result.at }
{
    let mut at = index;
    for k in 0..chunks.len() {
        let len = chunks[k].len();
        if at < len {
            return Place { k, at };
        }
        at -= len;
    }
    unreachable!()
}

/// The element at a place. Constant time.
pub(crate) fn item_at<T: Drop>(chunks: &[Arc<Chunk<T>>], place: Place) -> &T
    requires { IsItem arc_value chunks.now place.k place.at }
    ensures { slice_get (elements chunks.now) (place_index arc_value chunks.now (Some place)) ≡ Some result.now }
{
    chunks[place.k].get(place.at)
}

/// The place of the first element that doesn't pass a test, or None where all pass. The elements that pass must come first. It costs the
/// logarithm of the number of elements.
pub(crate) fn point<T: Drop, P: Fn(&T) -> bool>(chunks: &[Arc<Chunk<T>>], test: &P) -> Option<Place>
    requires { P.IsAlwaysCallable test.now }
    ensures place { IfSome result (λ c. IsItem arc_value chunks.now c.k c.at) }
    ensures cut { (p : T → Bool) → ComputesKey P.FnMut p test.now → IsCut p (elements chunks.now) (place_index arc_value chunks.now result) }
{
    let k = cut_of(
        chunks,
        &|chunk: &Chunk<T>| -> bool
            requires { P.IsAlwaysCallable test.now }
            ensures { (p : T → Bool) → ComputesKey P.FnMut p test.entry.now → result ≡ ends p chunk.now }
        { chunk.ends_before(test) },
    );
    if k >= chunks.len() {
        return None;
    }
    let at = chunks[k].point(test);
    Some(Place { k, at })
}

/// How many elements are before a place, in chunks that have `len` elements in all. It costs a walk over the chunks before it.
pub(crate) fn index_of<T: Drop>(chunks: &[Arc<Chunk<T>>], place: Place, len: usize) -> usize
    requires place { IsItem arc_value chunks.now place.k place.at }
    requires len { len ≡ length (elements chunks.now) }
    ensures { result ≡ place_index arc_value chunks.now (Some place) }
{
    let mut before = 0;
    for k in 0..place.k {
        before += chunks[k].len();
    }
    before + place.at
}

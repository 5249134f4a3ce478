//! The places of elements in chunks.
ghost use Rattle.std.specs.Prelude.{◌≡◌, ◌+◌, ◌-◌, ◌<◌, ℕ, [], None, Some, true, false, Bool, length, take, slice_get, IfSome};
ghost use Rattle.std.specs.Fn.{ComputesKey};
ghost use Rattle.std.specs.List.Sorted.{IsPartitionedBy, IsPartitionPoint};
ghost use Rattle.std.specs.Option.{option_copied};
ghost use Rattle.shared_list.specs.Elements.{flattened};
ghost use Rattle.shared_list.specs.Places.{IsItem, ends, place_index};

use crate::chunk::Chunk;
use crate::spine::Spine;

/// The place of an element: the index of its chunk, and the element's index in the chunk.
#[derive(Clone, Copy)]
pub struct Place {
    pub k: usize,
    pub at: usize,
}

/// The place of the element with that index. It costs a walk over the chunks before it.
pub(crate) fn place_of<T: Drop>(chunks: &Spine<Chunk<T>>, index: usize) -> Place
    requires { index < length (flattened chunks.now) }
    ensures place { IsItem (λ v. v) chunks.now result.k result.at }
    ensures index { index ≡ length (flattened (take result.k chunks.now)) + result.at }
{
    let mut k = 0;
    let mut at = index;
    'chunk: for chunk in chunks.iter() {
        if at < chunk.len() {
            return Place { k, at };
        }
        at -= chunk.len();
        k += 1;
    }
    unreachable!()
}

/// The place of the last element, or None where there is none. Constant time.
pub(crate) fn last_place<T: Drop>(chunks: &Spine<Chunk<T>>) -> Option<Place>
    ensures place { IfSome result (λ p. IsItem (λ v. v) chunks.now p.k p.at) }
    ensures last { IfSome result (λ p. length (flattened chunks.now) ≡ length (flattened (take p.k chunks.now)) + (p.at + 1)) }
    ensures none { result ≡ None → flattened chunks.now ≡ [] }
{
    let at = chunks.last()?.len() - 1;
    let k = chunks.len() - 1;
    Some(Place { k, at })
}

/// The last element, or None where there is none. Constant time.
pub(crate) fn last_item<T: Drop>(chunks: &Spine<Chunk<T>>) -> Option<&T>
    ensures { option_copied result ≡ slice_get (flattened chunks.now) (length (flattened chunks.now) - 1) }
{
    Some(chunks.last()?.last())
}

/// The place of the first element that doesn't pass a test, or None where all pass. The elements that pass must come first. It costs the
/// logarithm of the number of elements, and a walk over the groups.
pub fn partition_point<T: Drop, P: Fn(&T) -> bool>(
    chunks: &Spine<Chunk<T>>,
    test: P,
) -> Option<Place>
    requires { P.IsAlwaysCallable test }
    ensures place { IfSome result (λ c. IsItem (λ v. v) chunks.now c.k c.at) }
    ensures partitioned { (p : T → Bool) → ComputesKey P.FnMut p test → IsPartitionedBy p (flattened chunks.now) → IsPartitionPoint (λ y. p y ≡ true) (λ y. p y ≡ false) (flattened chunks.now) (place_index (λ v. v) chunks.now result) }
{
    let (k, chunk) = chunks.point(
        &|chunk: &Chunk<T>| -> bool
            requires { P.IsAlwaysCallable test }
            ensures { (p : T → Bool) → ComputesKey P.FnMut p test → result ≡ ends p chunk.now }
        { chunk.ends_before(&test) },
    )?;
    let at = chunk.point(&test);
    Some(Place { k, at })
}

/// The first element that doesn't pass a test, or None where all pass. The elements that pass must come first. It costs the logarithm of the
/// number of elements.
pub fn first<T: Drop, P: Fn(&T) -> bool>(chunks: &Spine<Chunk<T>>, test: P) -> Option<&T>
    requires { P.IsAlwaysCallable test }
    ensures { (i : ℕ) × ((p : T → Bool) → ComputesKey P.FnMut p test → IsPartitionedBy p (flattened chunks.now) → IsPartitionPoint (λ y. p y ≡ true) (λ y. p y ≡ false) (flattened chunks.now) i) × (option_copied result ≡ slice_get (flattened chunks.now) i) }
{
    let chunk = chunks.first(
        &|chunk: &Chunk<T>| -> bool
            requires { P.IsAlwaysCallable test }
            ensures { (p : T → Bool) → ComputesKey P.FnMut p test → result ≡ ends p chunk.now }
        { chunk.ends_before(&test) },
    )?;
    Some(chunk.get(chunk.point(&test)))
}

/// The element at a place. It costs a walk over the groups.
pub fn item_at<T: Drop>(chunks: &Spine<Chunk<T>>, place: Place) -> &T
    requires { IsItem (λ v. v) chunks.now place.k place.at }
    ensures { slice_get (flattened chunks.now) (place_index (λ v. v) chunks.now (Some place)) ≡ Some result.now }
{
    chunks.at(place.k).get(place.at)
}

/// How many elements are before a place, in chunks that have `len` elements in all. It costs a walk over the chunks before it.
pub(crate) fn index_of<T: Drop>(chunks: &Spine<Chunk<T>>, place: Place, len: usize) -> usize
    requires place { IsItem (λ v. v) chunks.now place.k place.at }
    requires len { len ≡ length (flattened chunks.now) }
    ensures index { result ≡ place_index (λ v. v) chunks.now (Some place) }
    ensures within { result < len }
{
    let mut k = 0;
    let mut before = 0;
    'chunk: for chunk in chunks.iter() {
        if k == place.k {
            return before + place.at;
        }
        before += chunk.len();
        k += 1;
    }
    unreachable!()
}

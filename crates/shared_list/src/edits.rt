//! Edits of the chunks themselves, for callers that keep elements in an order of their own and find their places by it.
ghost use Rattle.std.specs.Prelude.{◌≡◌, ◌+◌, ◌-◌, ◌<◌, ◌≤◌, List, Some, ◌++◌, ◌∷◌, [], length, take, drop, insert, remove, slice_get, slice_set, IfOk, OnOk, OnErr};
ghost use Rattle.shared_list.specs.Elements.{flattened};
ghost use Rattle.shared_list.specs.Places.{IsPlace, IsItem};

use crate::change::Change;
use crate::chunk::{CHUNK, Chunk};
use crate::place::{Place, place_of};
use crate::spine::Spine;
use std::alloc::AllocError;
use std::sync::Arc;

/// Adds an element at the end, in a new chunk if the last one is full. It costs a walk over the groups if the last chunk and its group have no
/// other owner; else new versions of these two are made. AllocError where memory is refused; then the elements are unchanged.
pub fn push_item<T: Drop>(chunks: &mut Spine<Chunk<T>>, item: Arc<T>) -> Result<(), AllocError>
    ensures ok { OnOk result (flattened chunks.new ≡ flattened chunks.old ++ item.value ∷ []) }
    ensures err { OnErr result (flattened chunks.new ≡ flattened chunks.old) }
{
    if let Some(last) = chunks.last() {
        let at = last.len();
        if at < CHUNK {
            let end = chunks.len() - 1;
            chunks.change(end, Change::Put(at, item))?;
            return Ok(());
        }
    }
    let fresh = Chunk::one(chunks.allocator(), item)?;
    chunks.push_shared(fresh)
}

/// Inserts an element at index `at` of chunk `k`. It costs a walk over the groups. It is done in place if the chunk and its group have no other
/// owner and the chunk isn't full. A full chunk is split in two, in a copy of the spine with new versions of the groups that change. AllocError
/// where memory is refused; then the elements are unchanged.
pub fn insert_item<T: Drop>(
    chunks: &mut Spine<Chunk<T>>,
    k: usize,
    at: usize,
    item: Arc<T>,
) -> Result<(), AllocError>
    requires { IsPlace (λ v. v) chunks.old k at }
    ensures ok { OnOk result (flattened chunks.new ≡ insert (flattened chunks.old) (length (flattened (take k chunks.old)) + at) item.value) }
    ensures err { OnErr result (flattened chunks.new ≡ flattened chunks.old) }
{
    if chunks.at(k).len() < CHUNK {
        chunks.change(k, Change::Put(at, item))?;
        return Ok(());
    }
    let (low, high) = chunks.at(k).split_with(at, item)?;
    let both = with_two(chunks, k, low, high)?;
    *chunks = both;
    Ok(())
}

/// A copy in which two chunks replace chunk `k`.
fn with_two<T: Drop>(
    chunks: &Spine<Chunk<T>>,
    k: usize,
    low: Arc<Chunk<T>>,
    high: Arc<Chunk<T>>,
) -> Result<Spine<Chunk<T>>, AllocError>
    requires { k < length chunks.now }
    ensures { IfOk result (λ s. s ≡ slice_set (insert chunks.now (k + 1) high.value) k low.value) }
{
    let mut copy = chunks.copy()?;
    prove!(k < chunks.len());
    copy.insert_shared(k + 1, high)?;
    copy.set_shared(k, low)?;
    Ok(copy)
}

/// Replaces the element at index `at` of chunk `k`. It costs a walk over the groups. It is done in place if the chunk and its group have no
/// other owner; else new versions of these two are made. AllocError where memory is refused; then the elements are unchanged.
pub fn set_item<T: Drop>(
    chunks: &mut Spine<Chunk<T>>,
    k: usize,
    at: usize,
    item: Arc<T>,
) -> Result<(), AllocError>
    requires { IsItem (λ v. v) chunks.old k at }
    ensures ok { OnOk result (flattened chunks.new ≡ slice_set (flattened chunks.old) (length (flattened (take k chunks.old)) + at) item.value) }
    ensures err { OnErr result (flattened chunks.new ≡ flattened chunks.old) }
{
    chunks.change(k, Change::Set(at, item))?;
    Ok(())
}

/// Removes and answers the element at index `at` of chunk `k`, as `remove_item` does, but doesn't merge neighbouring chunks.
pub(crate) fn take_item<T: Drop>(
    chunks: &mut Spine<Chunk<T>>,
    k: usize,
    at: usize,
) -> Result<Arc<T>, AllocError>
    requires { IsItem (λ v. v) chunks.old k at }
    ensures ok { OnOk result (flattened chunks.new ≡ remove (flattened chunks.old) (length (flattened (take k chunks.old)) + at)) }
    ensures item { IfOk result (λ a. slice_get (flattened chunks.old) (length (flattened (take k chunks.old)) + at) ≡ Some a.value) }
    ensures err { OnErr result (flattened chunks.new ≡ flattened chunks.old) }
{
    let chunk = chunks.at(k);
    let item = chunk.owner(at)?;
    if chunk.len() > 1 {
        chunks.change(k, Change::Take(at))?;
        return Ok(item);
    }
    chunks.remove(k)?;
    Ok(item)
}

/// Removes and answers the element at index `at` of chunk `k`. It costs a walk over the groups. It is done in place if the chunk and its group
/// have no other owner; else new versions of these two are made. A chunk that is emptied is removed. Neighbouring chunks that fit in one are
/// merged, in a copy of the spine with new versions of the groups that change, unless memory for it is refused, which is not an error.
/// AllocError where memory is refused for the removal; then the elements are unchanged.
pub fn remove_item<T: Drop>(
    chunks: &mut Spine<Chunk<T>>,
    k: usize,
    at: usize,
) -> Result<Arc<T>, AllocError>
    requires { IsItem (λ v. v) chunks.old k at }
    ensures ok { OnOk result (flattened chunks.new ≡ remove (flattened chunks.old) (length (flattened (take k chunks.old)) + at)) }
    ensures item { IfOk result (λ a. slice_get (flattened chunks.old) (length (flattened (take k chunks.old)) + at) ≡ Some a.value) }
    ensures err { OnErr result (flattened chunks.new ≡ flattened chunks.old) }
{
    let item = take_item(chunks, k, at)?;
    join(chunks, k.saturating_add(1));
    join(chunks, k);
    Ok(item)
}

/// Merges chunk `k` with the one before it, if they fit in one chunk and there is memory for it.
pub(crate) fn join<T: Drop>(chunks: &mut Spine<Chunk<T>>, k: usize)
    ensures { flattened chunks.new ≡ flattened chunks.old }
{
    if k == 0 || k >= chunks.len() {
        return;
    }
    if chunks.at(k - 1).len() + chunks.at(k).len() > CHUNK {
        return;
    }
    if let Ok(fewer) = with_joined(chunks, k) {
        *chunks = fewer;
    }
}

/// A copy in which one chunk replaces chunk `k` and the one before it. The two must fit in one chunk.
fn with_joined<T: Drop>(chunks: &Spine<Chunk<T>>, k: usize) -> Result<Spine<Chunk<T>>, AllocError>
    requires some { 0 < k }
    requires k { k < length chunks.now }
    requires fits { (v w : List T) → slice_get chunks.now (k - 1) ≡ Some v → slice_get chunks.now k ≡ Some w → length v + length w ≤ 64 }
    ensures { IfOk result (λ s. flattened s ≡ flattened chunks.now) }
{
    let whole = chunks.at(k - 1).joined(chunks.at(k))?;
    let mut copy = chunks.copy()?;
    copy.set_shared(k - 1, whole)?;
    copy.remove(k)?;
    Ok(copy)
}

/// Keeps the elements before that index, and answers the chunks of the others.
pub(crate) fn cut_off<T: Drop>(
    chunks: &mut Spine<Chunk<T>>,
    index: usize,
) -> Result<Spine<Chunk<T>>, AllocError>
    requires { index < length (flattened chunks.old) }
    ensures ok { OnOk result (flattened chunks.new ≡ take index (flattened chunks.old)) }
    ensures rest { IfOk result (λ s. flattened s ≡ drop index (flattened chunks.old)) }
    ensures err { OnErr result (flattened chunks.new ≡ flattened chunks.old) }
{
    let Place { k, at } = place_of(chunks, index);
    if at == 0 {
        let rest = chunks.split_off(k)?;
        return Ok(rest);
    }
    let (low, high) = chunks.at(k).split(at)?;
    let mut front = chunks.copy()?;
    let mut rest = front.split_off(k)?;
    rest.set_shared(0, high)?;
    front.push_shared(low)?;
    *chunks = front;
    Ok(rest)
}

/// Moves the chunks of `other` to the end of `chunks`.
pub(crate) fn pour<T: Drop>(
    chunks: &mut Spine<Chunk<T>>,
    other: &mut Spine<Chunk<T>>,
) -> Result<(), AllocError>
    ensures ok { OnOk result (flattened chunks.new ≡ flattened chunks.old ++ flattened other.old) }
    ensures emptied { OnOk result (other.new ≡ []) }
    ensures err { OnErr result (flattened chunks.new ≡ flattened chunks.old) }
    ensures other_err { OnErr result (other.new ≡ other.old) }
{
    let seam = chunks.len();
    chunks.append(other)?;
    join(chunks, seam);
    Ok(())
}

//! Edits of the chunks of a spine.
ghost use Rattle.std.specs.Prelude.{◌≡◌, ◌<◌, List, Some, ◌+◌, ◌++◌, ◌∷◌, [], length, take, drop, insert, remove, slice_get, slice_set, IfOk, OnOk, OnErr};
ghost use Rattle.std.specs.Arc.{arc_value};
ghost use Rattle.shared_list.specs.Changes.{CanChange, changed};
ghost use Rattle.shared_list.specs.Elements.{elements};
ghost use Rattle.shared_list.specs.Places.{IsPlace, IsItem, place_index};

use crate::change::{Change, change_within};
use crate::chunk::{CHUNK, Chunk, put_in, set_in, take_from};
use crate::place::Place;
use crate::spine::place::place_of;
use std::alloc::{AllocError, Global};
use std::sync::Arc;

/// One more owner of each chunk. It costs their number. AllocError where memory is refused.
pub(crate) fn copied<T: Drop>(
    alloc: Global,
    chunks: &[Arc<Chunk<T>>],
) -> Result<Vec<Arc<Chunk<T>>>, AllocError>
    ensures { IfOk result (λ v. elements v.items ≡ elements chunks.now) }
{
    let mut owners = Vec::with_capacity(alloc, chunks.len())?;
    for chunk in chunks {
        owners.push(Arc::try_clone(chunk)?)?;
    }
    Ok(owners)
}

/// Adds an element at the end, in a new chunk if the last one is full. If the last chunk has no other owner, it takes constant time, but for a
/// growth of the vector of pointers; else a new chunk replaces it. AllocError where memory is refused; then the elements are unchanged.
pub(crate) fn push_item<T: Drop>(
    chunks: &mut Vec<Arc<Chunk<T>>>,
    item: Arc<T>,
) -> Result<(), AllocError>
    ensures ok { OnOk result (elements chunks.new.items ≡ elements chunks.old.items ++ item.value ∷ []) }
    ensures err { OnErr result (elements chunks.new.items ≡ elements chunks.old.items) }
{
    let count = chunks.len();
    if count > 0 && chunks[count - 1].len() < CHUNK {
        let at = chunks[count - 1].len();
        put_in(&mut chunks[count - 1], at, item)?;
        return Ok(());
    }
    let fresh = Chunk::one(*chunks.allocator(), item)?;
    chunks.push(fresh)?;
    Ok(())
}

/// Inserts an element at index `at` of chunk `k`. It costs at most one chunk. It is done in place if the chunk has no other owner and isn't
/// full. A full chunk is split in two, which moves the pointers to the chunks behind it. AllocError where memory is refused; then the elements
/// are unchanged.
pub(crate) fn insert_item<T: Drop>(
    chunks: &mut Vec<Arc<Chunk<T>>>,
    k: usize,
    at: usize,
    item: Arc<T>,
) -> Result<(), AllocError>
    requires { IsPlace arc_value chunks.old.items k at }
    ensures ok { OnOk result (elements chunks.new.items ≡ insert (elements chunks.old.items) (length (elements (take k chunks.old.items)) + at) item.value) }
    ensures err { OnErr result (elements chunks.new.items ≡ elements chunks.old.items) }
{
    if chunks[k].len() < CHUNK {
        put_in(&mut chunks[k], at, item)?;
        return Ok(());
    }
    let (low, high) = chunks[k].split_with(at, item)?;
    chunks.insert(k + 1, high)?;
    chunks[k] = low;
    Ok(())
}

/// Replaces the element at index `at` of chunk `k`. It is done in place if the chunk has no other owner; else a new chunk replaces it.
/// AllocError where memory is refused; then the elements are unchanged.
pub(crate) fn set_item<T: Drop>(
    chunks: &mut Vec<Arc<Chunk<T>>>,
    k: usize,
    at: usize,
    item: Arc<T>,
) -> Result<(), AllocError>
    requires { IsItem arc_value chunks.old.items k at }
    ensures ok { OnOk result (elements chunks.new.items ≡ slice_set (elements chunks.old.items) (length (elements (take k chunks.old.items)) + at) item.value) }
    ensures err { OnErr result (elements chunks.new.items ≡ elements chunks.old.items) }
{
    set_in(&mut chunks[k], at, item)?;
    Ok(())
}

/// Removes and answers the element at index `at` of chunk `k`, as `remove_item` does, but doesn't merge neighbouring chunks. Constant time in
/// the last chunk, if that has no other owner.
pub(crate) fn take_item<T: Drop>(
    chunks: &mut Vec<Arc<Chunk<T>>>,
    k: usize,
    at: usize,
) -> Result<Arc<T>, AllocError>
    requires { IsItem arc_value chunks.old.items k at }
    ensures ok { OnOk result (elements chunks.new.items ≡ remove (elements chunks.old.items) (length (elements (take k chunks.old.items)) + at)) }
    ensures item { IfOk result (λ a. slice_get (elements chunks.old.items) (length (elements (take k chunks.old.items)) + at) ≡ Some a.value) }
    ensures err { OnErr result (elements chunks.new.items ≡ elements chunks.old.items) }
{
    if chunks[k].len() > 1 {
        let item = take_from(&mut chunks[k], at)?;
        return Ok(item);
    }
    let item = chunks[k].owner(at)?;
    let _gone = chunks.remove(k);
    Ok(item)
}

/// Removes and answers the element at index `at` of chunk `k`. It costs at most three chunks. The chunk is changed in place if it has no other
/// owner. A chunk that is emptied is removed, and neighbouring chunks that fit in one are merged, unless memory for it is refused, which is not
/// an error. AllocError where memory is refused for the removal; then the elements are unchanged.
pub(crate) fn remove_item<T: Drop>(
    chunks: &mut Vec<Arc<Chunk<T>>>,
    k: usize,
    at: usize,
) -> Result<Arc<T>, AllocError>
    requires { IsItem arc_value chunks.old.items k at }
    ensures ok { OnOk result (elements chunks.new.items ≡ remove (elements chunks.old.items) (length (elements (take k chunks.old.items)) + at)) }
    ensures item { IfOk result (λ a. slice_get (elements chunks.old.items) (length (elements (take k chunks.old.items)) + at) ≡ Some a.value) }
    ensures err { OnErr result (elements chunks.new.items ≡ elements chunks.old.items) }
{
    let item = take_item(chunks, k, at)?;
    join(chunks, k.saturating_add(1));
    join(chunks, k);
    Ok(item)
}

/// Merges chunk `k` with the one before it, if they fit in one chunk and there is memory for it.
pub(crate) fn join<T: Drop>(chunks: &mut Vec<Arc<Chunk<T>>>, k: usize)
    ensures { elements chunks.new.items ≡ elements chunks.old.items }
{
    if k == 0 || k >= chunks.len() {
        return;
    }
    if chunks[k - 1].len() + chunks[k].len() > CHUNK {
        return;
    }
    if let Ok(whole) = chunks[k - 1].joined(&chunks[k]) {
        chunks[k - 1] = whole;
        let _joined = chunks.remove(k);
    }
}

/// Keeps the elements before that index, and answers the chunks of the others.
pub(crate) fn cut_off<T: Drop>(
    chunks: &mut Vec<Arc<Chunk<T>>>,
    index: usize,
) -> Result<Vec<Arc<Chunk<T>>>, AllocError>
    requires { index < length (elements chunks.old.items) }
    ensures ok { OnOk result (elements chunks.new.items ≡ take index (elements chunks.old.items)) }
    ensures rest { IfOk result (λ v. elements v.items ≡ drop index (elements chunks.old.items)) }
    ensures err { OnErr result (elements chunks.new.items ≡ elements chunks.old.items) }
{
    let Place { k, at } = place_of(chunks, index);
    if at == 0 {
        let rest = chunks.split_off(k)?;
        return Ok(rest);
    }
    let (low, high) = chunks[k].split(at)?;
    let mut rest = chunks.split_off(k)?;
    rest[0] = high;
    chunks.push_reserved(low);
    Ok(rest)
}

/// Moves the chunks of `other` to the end of `chunks`.
pub(crate) fn pour<T: Drop>(
    chunks: &mut Vec<Arc<Chunk<T>>>,
    other: &mut Vec<Arc<Chunk<T>>>,
) -> Result<(), AllocError>
    ensures ok { OnOk result (elements chunks.new.items ≡ elements chunks.old.items ++ elements other.old.items) }
    ensures emptied { OnOk result (other.new.items ≡ []) }
    ensures err { OnErr result (elements chunks.new.items ≡ elements chunks.old.items) }
    ensures other_err { OnErr result (other.new.items ≡ other.old.items) }
{
    let seam = chunks.len();
    chunks.append(other)?;
    join(chunks, seam);
    Ok(())
}

/// Changes the chunk at a place of these groups: in place if neither it nor its group has another owner.
pub(crate) fn change_deep<T: Drop>(
    groups: &mut Vec<Arc<Chunk<Chunk<T>>>>,
    place: Place,
    change: Change<T>,
) -> Result<(), AllocError>
    requires place { IsItem arc_value groups.old.items place.k place.at }
    requires can { (v : List T) → slice_get (elements groups.old.items) (place_index arc_value groups.old.items (Some place)) ≡ Some v → CanChange v change }
    ensures ok { OnOk result ((v : List T) → slice_get (elements groups.old.items) (place_index arc_value groups.old.items (Some place)) ≡ Some v → elements groups.new.items ≡ slice_set (elements groups.old.items) (place_index arc_value groups.old.items (Some place)) (changed v change)) }
    ensures err { OnErr result (elements groups.new.items ≡ elements groups.old.items) }
{
    change_within(&mut groups[place.k], place.at, change)?;
    Ok(())
}

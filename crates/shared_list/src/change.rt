//! Changes of a chunk, and of a chunk within a group.
ghost use Rattle.std.specs.Prelude.{◌≡◌, ◌<◌, List, Some, length, slice_get, slice_set, IfOk, OnOk, OnErr};
ghost use Rattle.shared_list.specs.Changes.{CanChange, changed};

use crate::chunk::{Chunk, put_in, set_in, take_from};
use std::alloc::AllocError;
use std::sync::Arc;

/// One change of a chunk.
#[derive(Drop)]
pub(crate) enum Change<T> {
    /// Inserts an element, which gets that index.
    Put(usize, Arc<T>),
    /// Replaces the element with that index.
    Set(usize, Arc<T>),
    /// Removes the element with that index. There must be more than one.
    Take(usize),
}

/// A new chunk, which is this one after a change.
fn made_anew<T: Drop>(chunk: &Chunk<T>, change: Change<T>) -> Result<Arc<Chunk<T>>, AllocError>
    requires { CanChange chunk.now change }
    ensures { IfOk result (λ c. c.value ≡ changed chunk.now change) }
{
    match change {
        Change::Put(at, item) => chunk.with(at, item),
        Change::Set(at, item) => chunk.with_other(at, item),
        Change::Take(at) => chunk.without(at),
    }
}

/// Changes a chunk: in place if it has no other owner, and else a new chunk replaces it.
fn change_in<T: Drop>(place: &mut Arc<Chunk<T>>, change: Change<T>) -> Result<(), AllocError>
    requires { CanChange place.old.value change }
    ensures ok { OnOk result (place.new.value ≡ changed place.old.value change) }
    ensures err { OnErr result (place.new.value ≡ place.old.value) }
{
    match change {
        Change::Put(at, item) => put_in(place, at, item),
        Change::Set(at, item) => set_in(place, at, item),
        Change::Take(at) => {
            let _gone = take_from(place, at)?;
            Ok(())
        }
    }
}

/// Changes the chunk with index j of a group: in place if neither the chunk nor the group has another owner, and else new versions replace them.
pub(crate) fn change_within<T: Drop>(
    place: &mut Arc<Chunk<Chunk<T>>>,
    j: usize,
    change: Change<T>,
) -> Result<(), AllocError>
    requires j { j < length place.old.value }
    requires can { (v : List T) → slice_get place.old.value j ≡ Some v → CanChange v change }
    ensures ok { OnOk result ((v : List T) → slice_get place.old.value j ≡ Some v → place.new.value ≡ slice_set place.old.value j (changed v change)) }
    ensures err { OnErr result (place.new.value ≡ place.old.value) }
{
    if let Some(group) = Arc::get_mut(place) {
        change_at(group, j, change)?;
        return Ok(());
    }
    let chunk = made_anew(place.get(j), change)?;
    let whole = place.with_other(j, chunk)?;
    *place = whole;
    Ok(())
}

/// Changes the chunk with index j of a group that has no other owner.
fn change_at<T: Drop>(
    group: &mut Chunk<Chunk<T>>,
    j: usize,
    change: Change<T>,
) -> Result<(), AllocError>
    requires j { j < length group.old }
    requires can { (v : List T) → slice_get group.old j ≡ Some v → CanChange v change }
    ensures ok { OnOk result ((v : List T) → slice_get group.old j ≡ Some v → group.new ≡ slice_set group.old j (changed v change)) }
    ensures err { OnErr result (group.new ≡ group.old) }
{
    change_in(&mut group.items[j], change)?;
    Ok(())
}

//! Elements in chunks that copies share: one level of a shared list.
ghost use Rattle.std.specs.Prelude.{◌≡◌, ◌-◌, ◌<◌, ◌≤◌, ◌++◌, ◌∷◌, ℕ, List, Some, None, Bool, [], length, take, drop, insert, remove, slice_get, slice_set, IfSome, IfOk, OnOk, OnErr};
ghost use Rattle.std.specs.Fn.{ComputesKey};
ghost use Rattle.std.specs.Option.{option_copied};
ghost use Rattle.shared_list.specs.Ahead.{ahead};
ghost use Rattle.shared_list.specs.Changes.{CanChange, changed};
ghost use Rattle.shared_list.specs.Cuts.{IsCut};
ghost use Rattle.shared_list.specs.Elements.{elements};

mod edits;
mod iter;
mod place;

use crate::change::Change;
use crate::chunk::Chunk;
use crate::place::Place;
use edits::{change_deep, copied, cut_off, insert_item, pour, push_item, remove_item, set_item};
pub use iter::SpineIter;
use place::{index_of, item_at, place_of, point};
use std::alloc::{AllocError, Global};
use std::marker::Model;
use std::sync::Arc;

/// Owners of elements, in order, in chunks of 1 to 64 (profile), which copies share. Contracts see the list of the elements' values. A shared
/// list keeps its own chunks in a spine. Where a cost is a walk, it is a walk over the chunks, about a 64th of the elements.
#[derive(Drop)]
pub struct Spine<T> {
    chunks: Vec<Arc<Chunk<T>>>,
    len: usize,
}

impl<T> Model for Spine<T> {
    ghost use Rattle.std.specs.Prelude.{◌≡◌, List, length};
    ghost use Rattle.shared_list.specs.Elements.{elements};

    ghost Value = { List T };

    ghost view = { λ s. elements s.chunks.items };

    ghost invariant = { λ s. s.len ≡ length (elements s.chunks.items) };
}

impl<T: Drop> Spine<T> {
    /// A spine without elements. It takes no memory, and keeps the allocator.
    pub fn new(alloc: Global) -> Spine<T>
        ensures { result ≡ [] }
    {
        Spine {
            chunks: Vec::new(alloc),
            len: 0,
        }
    }

    /// How many elements there are. Constant time.
    pub fn len(&self) -> usize
        ensures { result ≡ length self.now }
    {
        self.len
    }

    /// The allocator that it was made with.
    pub(crate) fn allocator(&self) -> Global {
        *self.chunks.allocator()
    }

    /// The element with that index, which must be below the length. It costs a walk, or constant time where there is only one chunk.
    pub(crate) fn at(&self, index: usize) -> &T
        requires { index < length self.now }
        ensures { slice_get self.now index ≡ Some result.now }
    {
        if self.chunks.len() == 1 {
            return self.chunks[0].get(index);
        }
        let place = place_of(&self.chunks, index);
        item_at(&self.chunks, place)
    }

    /// The last element, or None where there is none. Constant time.
    pub(crate) fn last(&self) -> Option<&T>
        ensures { option_copied result ≡ slice_get self.now (length self.now - 1) }
    {
        let k = self.chunks.len().checked_sub(1)?;
        Some(self.chunks[k].last())
    }

    /// The first element that doesn't pass a test, or None where all pass. The elements that pass must come first. It costs the logarithm of the
    /// number of elements.
    pub(crate) fn first<P: Fn(&T) -> bool>(&self, test: &P) -> Option<&T>
        requires { P.IsAlwaysCallable test.now }
        ensures { (i : ℕ) × ((p : T → Bool) → ComputesKey P.FnMut p test.now → IsCut p self.now i) × (option_copied result ≡ slice_get self.now i) }
    {
        let place = point(&self.chunks, test)?;
        Some(item_at(&self.chunks, place))
    }

    /// The element that `first` answers, with its index. It costs a walk more than `first`.
    pub(crate) fn point<P: Fn(&T) -> bool>(&self, test: &P) -> Option<(usize, &T)>
        requires { P.IsAlwaysCallable test.now }
        ensures item { IfSome result (λ r. slice_get self.now r.0 ≡ Some r.1.now) }
        ensures cut { (p : T → Bool) → ComputesKey P.FnMut p test.now → IfSome result (λ r. IsCut p self.now r.0) }
        ensures none { (p : T → Bool) → ComputesKey P.FnMut p test.now → result ≡ None → IsCut p self.now (length self.now) }
    {
        let place = point(&self.chunks, test)?;
        let k = index_of(&self.chunks, place, self.len);
        Some((k, item_at(&self.chunks, place)))
    }

    /// The elements, first to last. Constant time, and constant time for each element.
    pub(crate) fn iter(&self) -> SpineIter<'_, T>
        ensures { ahead result ≡ self.now }
    {
        SpineIter::new(&self.chunks)
    }

    /// An equal spine, by one more owner of each chunk. AllocError where memory is refused.
    pub fn copy(&self) -> Result<Spine<T>, AllocError>
        ensures { IfOk result (λ s. s ≡ self.now) }
    {
        let alloc = *self.chunks.allocator();
        let chunks = copied(alloc, &self.chunks)?;
        let len = self.len;
        Ok(Spine { chunks, len })
    }

    /// Adds an element at the end. Constant time if the last chunk has no other owner; else a new chunk replaces it. AllocError where memory is
    /// refused or there are as many elements as a usize counts; then the spine is unchanged.
    pub(crate) fn push_shared(&mut self, item: Arc<T>) -> Result<(), AllocError>
        ensures ok { OnOk result (self.new ≡ self.old ++ item.value ∷ []) }
        ensures err { OnErr result (self.new ≡ self.old) }
    {
        let Some(len) = self.len.checked_add(1) else {
            return Err(AllocError);
        };
        push_item(&mut self.chunks, item)?;
        self.len = len;
        Ok(())
    }

    /// Inserts an element at that index, which must be at most the length. It costs a walk, and makes at most two new chunks. AllocError where
    /// memory is refused or there are as many elements as a usize counts; then the spine is unchanged.
    pub(crate) fn insert_shared(&mut self, index: usize, item: Arc<T>) -> Result<(), AllocError>
        requires { index ≤ length self.old }
        ensures ok { OnOk result (self.new ≡ insert self.old index item.value) }
        ensures err { OnErr result (self.new ≡ self.old) }
    {
        if index == self.len {
            return self.push_shared(item);
        }
        let Some(len) = self.len.checked_add(1) else {
            return Err(AllocError);
        };
        let Place { k, at } = place_of(&self.chunks, index);
        insert_item(&mut self.chunks, k, at, item)?;
        self.len = len;
        Ok(())
    }

    /// Replaces the element with that index, which must be below the length. It costs a walk, and makes at most one new chunk. AllocError where
    /// memory is refused; then the spine is unchanged.
    pub(crate) fn set_shared(&mut self, index: usize, item: Arc<T>) -> Result<(), AllocError>
        requires { index < length self.old }
        ensures ok { OnOk result (self.new ≡ slice_set self.old index item.value) }
        ensures err { OnErr result (self.new ≡ self.old) }
    {
        let Place { k, at } = place_of(&self.chunks, index);
        set_item(&mut self.chunks, k, at, item)
    }

    /// Removes the element with that index, which must be below the length. It costs a walk, and makes at most three new chunks. AllocError
    /// where memory is refused; then the spine is unchanged.
    pub(crate) fn remove(&mut self, index: usize) -> Result<(), AllocError>
        requires { index < length self.old }
        ensures ok { OnOk result (self.new ≡ remove self.old index) }
        ensures err { OnErr result (self.new ≡ self.old) }
    {
        let Place { k, at } = place_of(&self.chunks, index);
        let _gone = remove_item(&mut self.chunks, k, at)?;
        self.len -= 1;
        Ok(())
    }

    /// Keeps the elements before that index, which must be at most the length, and answers the others. It costs a walk, and makes at most two
    /// new chunks. AllocError where memory is refused; then the spine is unchanged.
    pub(crate) fn split_off(&mut self, index: usize) -> Result<Spine<T>, AllocError>
        requires { index ≤ length self.old }
        ensures ok { OnOk result (self.new ≡ take index self.old) }
        ensures rest { IfOk result (λ s. s ≡ drop index self.old) }
        ensures err { OnErr result (self.new ≡ self.old) }
    {
        if index == self.len {
            return Ok(Spine::new(*self.chunks.allocator()));
        }
        let chunks = cut_off(&mut self.chunks, index)?;
        let len = self.len - index;
        self.len = index;
        Ok(Spine { chunks, len })
    }

    /// Moves all elements of the other to the end of this one, and leaves it empty. It costs a walk over the other's chunks, and makes at most
    /// one new chunk. AllocError where memory is refused or the two have more elements together than a usize counts; then both are unchanged.
    pub(crate) fn append(&mut self, other: &mut Spine<T>) -> Result<(), AllocError>
        ensures ok { OnOk result (self.new ≡ self.old ++ other.old) }
        ensures emptied { OnOk result (other.new ≡ []) }
        ensures err { OnErr result (self.new ≡ self.old) }
        ensures other_err { OnErr result (other.new ≡ other.old) }
    {
        let Some(len) = self.len.checked_add(other.len) else {
            return Err(AllocError);
        };
        pour(&mut self.chunks, &mut other.chunks)?;
        self.len = len;
        other.len = 0;
        Ok(())
    }
}

impl<T: Drop> Spine<Chunk<T>> {
    /// Changes the chunk with index k, which must be below the length. It costs a walk. It is done in place if neither that chunk nor its group
    /// has another owner; else new versions replace them. AllocError where memory is refused; then the spine is unchanged.
    pub(crate) fn change(&mut self, k: usize, change: Change<T>) -> Result<(), AllocError>
        requires k { k < length self.old }
        requires can { (v : List T) → slice_get self.old k ≡ Some v → CanChange v change }
        ensures ok { OnOk result ((v : List T) → slice_get self.old k ≡ Some v → self.new ≡ slice_set self.old k (changed v change)) }
        ensures err { OnErr result (self.new ≡ self.old) }
    {
        let place = place_of(&self.chunks, k);
        change_deep(&mut self.chunks, place, change)?;
        Ok(())
    }
}

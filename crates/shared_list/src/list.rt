//! The shared list.
ghost use Rattle.std.specs.Prelude.{◌≡◌, ◌-◌, ◌<◌, ◌≤◌, ◌++◌, ◌∷◌, ◌↔◌, ℕ, [], None, true, false, Bool, length, take, drop, remove, slice_get, slice_set, IfOk, OnOk, OnErr};
ghost use Rattle.std.specs.Arc.{arc_value};
ghost use Rattle.std.specs.Fn.{ComputesKey};
ghost use Rattle.std.specs.List.Sorted.{IsPartitionedBy, IsPartitionPoint};
ghost use Rattle.std.specs.Option.{option_copied, option_map, option_to_list};
ghost use Rattle.shared_list.specs.Around.{IsAround};
ghost use Rattle.shared_list.specs.Elements.{flattened};
ghost use Rattle.shared_list.specs.Left.{left};

use crate::around::{Around, around_place};
use crate::chunk::Chunk;
use crate::edits::{cut_off, pour, push_item, remove_item, set_item, take_item};
use crate::iter::Iter;
use crate::place::{
    Place, first, index_of, item_at, last_item, last_place, partition_point, place_of,
};
use crate::spine::Spine;
use std::alloc::{AllocError, Global};
use std::marker::Model;
use std::sync::Arc;

/// Elements in order. Contracts see the plain list of their values.
///
/// The elements are in chunks of 1 to 64, and the chunks in groups of 1 to 64 (profile), which copies share. No element is ever cloned. A copy
/// takes one more owner of each group. A change makes at most three new chunks, each by one more owner of each of its elements, and new versions
/// of their groups, each by one more owner of each of its chunks. `push`, `pop_shared`, `set_shared` and `remove` change a chunk in place if no
/// copy shares it. A push fills the last chunk before it begins another. `remove` and `append` merge two neighbouring chunks that fit in one,
/// unless memory for it is refused, which is not an error. `split_off` can leave a chunk that isn't full on each side of the cut. So no contract
/// says how many chunks there are. Where they are full, a group has 4,096 elements.
///
/// Each element takes memory of its own, and a pointer in each chunk that has it. Each chunk takes a pointer in each group that has it. A call
/// that is refused memory answers AllocError, and changes no list.
#[derive(Drop)]
pub struct SharedList<T> {
    chunks: Spine<Chunk<T>>,
    len: usize,
}

impl<T> Model for SharedList<T> {
    ghost use Rattle.std.specs.Prelude.{◌≡◌, List, length};
    ghost use Rattle.shared_list.specs.Elements.{flattened};

    ghost Value = { List T };

    ghost view = { λ s. flattened s.chunks };

    ghost invariant = { λ s. s.len ≡ length (flattened s.chunks) };
}

impl<T: Drop> SharedList<T> {
    /// A list without elements. It takes no memory, and keeps the allocator.
    pub fn new(alloc: Global) -> SharedList<T>
        ensures { result ≡ [] }
    {
        SharedList {
            chunks: Spine::new(alloc),
            len: 0,
        }
    }

    /// How many elements there are. Constant time.
    pub fn len(&self) -> usize
        ensures { result ≡ length self.now }
    {
        self.len
    }

    /// The element with that index, counted from 0, or None where the list ends before it. It costs a walk over the chunks before it. To read
    /// all elements, use `iter`.
    pub fn get(&self, index: usize) -> Option<&T>
        ensures { option_copied result ≡ slice_get self.now index }
    {
        if index >= self.len {
            return None;
        }
        let place = place_of(&self.chunks, index);
        Some(item_at(&self.chunks, place))
    }

    /// The last element, or None where there is none. Constant time.
    pub fn last(&self) -> Option<&T>
        ensures { option_copied result ≡ slice_get self.now (length self.now - 1) }
    {
        last_item(&self.chunks)
    }

    /// The index of the first element that doesn't pass a test, or the length where all pass. The elements that pass must come first. It costs
    /// the logarithm of the number of elements, and a walk over the chunks before that one.
    pub fn partition_point<P: Fn(&T) -> bool>(&self, test: P) -> usize
        requires { P.IsAlwaysCallable test }
        ensures bound { result ≤ length self.now }
        ensures partitioned { (p : T → Bool) → ComputesKey P.FnMut p test → IsPartitionedBy p self.now → IsPartitionPoint (λ y. p y ≡ true) (λ y. p y ≡ false) self.now result }
    {
        match partition_point(&self.chunks, test) {
            Some(place) => index_of(&self.chunks, place, self.len),
            None => self.len,
        }
    }

    /// The first element that doesn't pass a test, or None where all pass. The elements that pass must come first. It costs the logarithm of the
    /// number of elements.
    pub fn first<P: Fn(&T) -> bool>(&self, test: P) -> Option<&T>
        requires { P.IsAlwaysCallable test }
        ensures { (i : ℕ) × ((p : T → Bool) → ComputesKey P.FnMut p test → IsPartitionedBy p self.now → IsPartitionPoint (λ y. p y ≡ true) (λ y. p y ≡ false) self.now i) × (option_copied result ≡ slice_get self.now i) }
    {
        first(&self.chunks, test)
    }

    /// The first element that doesn't pass a test, with the one before it and the one after it; each is None where there is none. The elements
    /// that pass must come first. It costs the logarithm of the number of elements, and at most four walks over the groups.
    pub fn around<P: Fn(&T) -> bool>(&self, test: P) -> Around<'_, T>
        requires { P.IsAlwaysCallable test }
        ensures { (i : ℕ) × ((p : T → Bool) → ComputesKey P.FnMut p test → IsPartitionedBy p self.now → IsPartitionPoint (λ y. p y ≡ true) (λ y. p y ≡ false) self.now i) × IsAround self.now i result }
    {
        around_place(&self.chunks, partition_point(&self.chunks, test))
    }

    /// The elements, first to last. Constant time, and constant time for each element.
    pub fn iter(&self) -> Iter<'_, T>
        ensures { left result ≡ self.now }
    {
        Iter::new(self.chunks.iter())
    }

    /// An equal list, by one more owner of each group. It costs the number of groups, and not that of chunks or elements. AllocError where
    /// memory is refused.
    pub fn copy(&self) -> Result<SharedList<T>, AllocError>
        ensures { IfOk result (λ l. l ≡ self.now) }
    {
        let chunks = self.chunks.copy()?;
        let len = self.len;
        Ok(SharedList { chunks, len })
    }

    /// Adds an element at the end, in a new chunk if the last one is full. If the last chunk and its group have no other owner, it costs a walk
    /// over the groups, and sometimes the growth of a vector of pointers; else new versions of these two are made. AllocError where memory is
    /// refused or there are as many elements as a usize counts; then the list is unchanged, and the element is dropped.
    pub fn push(&mut self, value: T) -> Result<(), AllocError>
        ensures ok { OnOk result (self.new ≡ self.old ++ value ∷ []) }
        ensures err { OnErr result (self.new ≡ self.old) }
    {
        let item = Arc::new(self.chunks.allocator(), value)?;
        self.push_shared(item)
    }

    /// Adds an element, which may have other owners, at the end, as `push` does.
    pub fn push_shared(&mut self, item: Arc<T>) -> Result<(), AllocError>
        ensures ok { OnOk result (self.new ≡ self.old ++ item.value ∷ []) }
        ensures err { OnErr result (self.new ≡ self.old) }
    {
        let Some(len) = self.len.checked_add(1) else {
            return Err(AllocError);
        };
        push_item(&mut self.chunks, item)?;
        self.len = len;
        Ok(())
    }

    /// Removes the element with that index, which must be below the length. It costs a walk over the chunks before it, and makes at most three
    /// new chunks, with their groups. It makes none if the chunk and its group have no other owner and no neighbour fits in one chunk with it.
    /// AllocError where memory is refused; then the list is unchanged.
    pub fn remove(&mut self, index: usize) -> Result<(), AllocError>
        requires { index < length self.old }
        ensures ok { OnOk result (self.new ≡ remove self.old index) }
        ensures err { OnErr result (self.new ≡ self.old) }
    {
        let Place { k, at } = place_of(&self.chunks, index);
        let _gone = remove_item(&mut self.chunks, k, at)?;
        self.len -= 1;
        Ok(())
    }

    /// Removes and answers the last element, or None where there is none. It costs a walk over the groups if the last chunk and its group have
    /// no other owner; else new versions of these two are made. AllocError where memory is refused; then the list is unchanged.
    pub fn pop_shared(&mut self) -> Result<Option<Arc<T>>, AllocError>
        ensures ok { IfOk result (λ o. self.old ≡ self.new ++ option_to_list (option_map arc_value o)) }
        ensures none { IfOk result (λ o. (o ≡ None) ↔ (self.old ≡ [])) }
        ensures err { OnErr result (self.new ≡ self.old) }
    {
        let Some(place) = last_place(&self.chunks) else {
            return Ok(None);
        };
        let item = take_item(&mut self.chunks, place.k, place.at)?;
        self.len -= 1;
        Ok(Some(item))
    }

    /// Replaces the element with that index, which must be below the length, by one that may have other owners. It costs a walk over the chunks
    /// before it. It is done in place if the chunk and its group have no other owner; else new versions of these two are made. AllocError where
    /// memory is refused; then the list is unchanged.
    pub fn set_shared(&mut self, index: usize, item: Arc<T>) -> Result<(), AllocError>
        requires { index < length self.old }
        ensures ok { OnOk result (self.new ≡ slice_set self.old index item.value) }
        ensures err { OnErr result (self.new ≡ self.old) }
    {
        let Place { k, at } = place_of(&self.chunks, index);
        set_item(&mut self.chunks, k, at, item)
    }

    /// Keeps the elements before that index, which must be at most the length, and answers the others. It costs a walk over the chunks before it
    /// and over the groups, and makes at most two new chunks, and some groups. AllocError where memory is refused; then the list is unchanged.
    pub fn split_off(&mut self, index: usize) -> Result<SharedList<T>, AllocError>
        requires { index ≤ length self.old }
        ensures ok { OnOk result (self.new ≡ take index self.old) }
        ensures rest { IfOk result (λ l. l ≡ drop index self.old) }
        ensures err { OnErr result (self.new ≡ self.old) }
    {
        if index == self.len {
            return Ok(SharedList::new(self.chunks.allocator()));
        }
        let chunks = cut_off(&mut self.chunks, index)?;
        let len = self.len - index;
        self.len = index;
        Ok(SharedList { chunks, len })
    }

    /// Moves all elements of the other list to the end of this one, and leaves it empty. It costs the number of the groups of both, and makes at
    /// most one new chunk, and some groups. AllocError where memory is refused or the two have more elements together than a usize counts; then
    /// both lists are unchanged.
    pub fn append(&mut self, other: &mut SharedList<T>) -> Result<(), AllocError>
        ensures ok { OnOk result (self.new ≡ self.old ++ other.old) }
        ensures emptied { OnOk result (other.new ≡ []) }
        ensures err { OnErr result (self.new ≡ self.old) }
        ensures other_err { OnErr result (other.new ≡ other.old) }
    {
        let Some(len) = self.len.checked_add(other.len) else {
            return Err(AllocError);
        };
        pour(&mut self.chunks, &mut other.chunks)?;
        self.len = len;
        other.len = 0;
        Ok(())
    }
}

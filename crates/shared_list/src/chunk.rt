//! Chunks of a list. A chunk is changed only while it has a single owner.
ghost use Rattle.std.specs.Prelude.{◌≡◌, Some, ◌+◌, ◌-◌, ◌<◌, ◌≤◌, ◌++◌, ◌∷◌, [], false, Bool, length, take, drop, insert, remove, slice_get, slice_set, IfOk, OnOk, OnErr};
ghost use Rattle.std.specs.Fn.{ComputesKey};
ghost use Rattle.shared_list.specs.Cuts.{IsCut};
ghost use Rattle.shared_list.specs.Elements.{values};
ghost use Rattle.shared_list.specs.Places.{ends};

use crate::cut::cut_of;
use std::alloc::{AllocError, Global};
use std::marker::Model;
use std::sync::Arc;

/// How many elements a full chunk has (profile).
pub(crate) const CHUNK: usize = 64;

/// How many elements the first chunk keeps when a full one is split in two (profile).
const HALF: usize = 32;

/// 1 to `CHUNK` elements. Other chunks may own each of them too.
#[derive(Drop)]
pub struct Chunk<T> {
    pub(crate) items: Vec<Arc<T>>,
}

impl<T> Model for Chunk<T> {
    ghost use Rattle.std.specs.Prelude.{◌<◌, ◌≤◌, List, length};
    ghost use Rattle.shared_list.specs.Elements.{values};

    ghost Value = { List T };

    ghost view = { λ c. values c.items.items };

    ghost invariant = { λ c. (0 < length (values c.items.items)) × (length (values c.items.items) ≤ 64) };
}

impl<T: Drop> Chunk<T> {
    /// A chunk of one element.
    pub(crate) fn one(alloc: Global, item: Arc<T>) -> Result<Arc<Chunk<T>>, AllocError>
        ensures { IfOk result (λ c. c.value ≡ item.value ∷ []) }
    {
        let mut items = Vec::with_capacity(alloc, 1)?;
        items.push_reserved(item);
        Ok(Arc::new(alloc, Chunk { items })?)
    }

    /// How many elements it has.
    pub(crate) fn len(&self) -> usize
        ensures len { result ≡ length self.now }
        ensures some { 0 < result }
        ensures most { result ≤ CHUNK }
    {
        self.items.len()
    }

    /// The element with that index.
    pub(crate) fn get(&self, index: usize) -> &T
        requires { index < length self.now }
        ensures { slice_get self.now index ≡ Some result.now }
    {
        &self.items[index]
    }

    /// A new chunk with its elements and one more, which gets that index.
    #[tactic(auto, using(crate::proofs::Chunks::mapped))]
    pub(crate) fn with(&self, at: usize, item: Arc<T>) -> Result<Arc<Chunk<T>>, AllocError>
        requires room { length self.now < CHUNK }
        requires at { at ≤ length self.now }
        ensures { IfOk result (λ c. c.value ≡ insert self.now at item.value) }
    {
        let alloc = *self.items.allocator();
        let mut items = Vec::with_capacity(alloc, room_for(self.items.len() + 1))?;
        share(&mut items, &self.items[..at])?;
        items.push(item)?;
        share(&mut items, &self.items[at..])?;
        Ok(Arc::new(alloc, Chunk { items })?)
    }

    // Inserts an element at that index.
    fn put(&mut self, at: usize, item: Arc<T>) -> Result<(), AllocError>
        requires room { length self.old < CHUNK }
        requires at { at ≤ length self.old }
        ensures ok { OnOk result (self.new ≡ insert self.old at item.value) }
        ensures err { OnErr result (self.new ≡ self.old) }
    {
        self.items.insert(at, item)?;
        Ok(())
    }

    /// A new chunk with its elements, without the one with that index.
    #[tactic(auto, using(crate::proofs::Chunks::mapped))]
    pub(crate) fn without(&self, index: usize) -> Result<Arc<Chunk<T>>, AllocError>
        requires index { index < length self.now }
        requires more { 1 < length self.now }
        ensures { IfOk result (λ c. c.value ≡ remove self.now index) }
    {
        let alloc = *self.items.allocator();
        let mut items = Vec::with_capacity(alloc, room_for(self.items.len() - 1))?;
        share(&mut items, &self.items[..index])?;
        share(&mut items, &self.items[index + 1..])?;
        Ok(Arc::new(alloc, Chunk { items })?)
    }

    // Removes and answers the element with that index.
    fn take(&mut self, at: usize) -> Arc<T>
        requires at { at < length self.old }
        requires more { 1 < length self.old }
        ensures rest { self.new ≡ remove self.old at }
        ensures item { slice_get self.old at ≡ Some result.value }
    {
        self.items.remove(at)
    }

    /// A new chunk with its elements, where this one replaces the one with that index.
    #[tactic(auto, using(crate::proofs::Chunks::mapped))]
    pub(crate) fn with_other(&self, at: usize, item: Arc<T>) -> Result<Arc<Chunk<T>>, AllocError>
        requires { at < length self.now }
        ensures { IfOk result (λ c. c.value ≡ slice_set self.now at item.value) }
    {
        let alloc = *self.items.allocator();
        let mut items = Vec::with_capacity(alloc, room_for(self.items.len()))?;
        share(&mut items, &self.items)?;
        items[at] = item;
        Ok(Arc::new(alloc, Chunk { items })?)
    }

    // Replaces the element with that index by this one.
    fn replace(&mut self, at: usize, item: Arc<T>)
        requires { at < length self.old }
        ensures { self.new ≡ slice_set self.old at item.value }
    {
        self.items[at] = item;
    }

    /// One more owner of the element with that index.
    pub(crate) fn owner(&self, at: usize) -> Result<Arc<T>, AllocError>
        requires { at < length self.now }
        ensures { IfOk result (λ a. slice_get self.now at ≡ Some a.value) }
    {
        Ok(Arc::try_clone(&self.items[at])?)
    }

    /// Two new chunks: one with its elements before that index, and one with the others.
    #[tactic(auto, using(crate::proofs::Chunks::mapped))]
    pub(crate) fn split(&self, index: usize) -> Result<(Arc<Chunk<T>>, Arc<Chunk<T>>), AllocError>
        requires some { 0 < index }
        requires index { index < length self.now }
        ensures { IfOk result (λ p. (p.0.value ≡ take index self.now) × (p.1.value ≡ drop index self.now)) }
    {
        let alloc = *self.items.allocator();
        let mut low = Vec::with_capacity(alloc, room_for(index))?;
        share(&mut low, &self.items[..index])?;
        let low = Arc::new(alloc, Chunk { items: low })?;
        let mut high = Vec::with_capacity(alloc, room_for(self.items.len() - index))?;
        share(&mut high, &self.items[index..])?;
        let high = Arc::new(alloc, Chunk { items: high })?;
        Ok((low, high))
    }

    /// Two new chunks with its elements and one more, which gets that index. This chunk must be full.
    pub(crate) fn split_with(
        &self,
        at: usize,
        item: Arc<T>,
    ) -> Result<(Arc<Chunk<T>>, Arc<Chunk<T>>), AllocError>
        requires full { length self.now ≡ CHUNK }
        requires at { at ≤ length self.now }
        ensures { IfOk result (λ p. p.0.value ++ p.1.value ≡ insert self.now at item.value) }
    {
        let (mut low, mut high) = self.split(HALF)?;
        if at <= HALF {
            put_in(&mut low, at, item)?;
            return Ok((low, high));
        }
        put_in(&mut high, at - HALF, item)?;
        Ok((low, high))
    }

    /// A new chunk with its elements, followed by those of the other.
    pub(crate) fn joined(&self, other: &Chunk<T>) -> Result<Arc<Chunk<T>>, AllocError>
        requires { length self.now + length other.now ≤ CHUNK }
        ensures { IfOk result (λ c. c.value ≡ self.now ++ other.now) }
    {
        let alloc = *self.items.allocator();
        let mut items = Vec::with_capacity(alloc, room_for(self.items.len() + other.items.len()))?;
        share(&mut items, &self.items)?;
        share(&mut items, &other.items)?;
        Ok(Arc::new(alloc, Chunk { items })?)
    }

    /// The first element. Constant time.
    pub(crate) fn first(&self) -> &T
        ensures { slice_get self.now 0 ≡ Some result.now }
    {
        &self.items[0]
    }

    /// The last element. Constant time.
    pub fn last(&self) -> &T
        ensures { slice_get self.now (length self.now - 1) ≡ Some result.now }
    {
        &self.items[self.items.len() - 1]
    }

    /// Whether the last element passes a test. Constant time.
    pub(crate) fn ends_before<P: Fn(&T) -> bool>(&self, test: &P) -> bool
        requires { P.IsAlwaysCallable test.now }
        ensures { (p : T → Bool) → ComputesKey P.FnMut p test.now → result ≡ ends p self.now }
    {
        test(self.last())
    }

    /// The index of the first element that doesn't pass a test. The elements that pass must come first, and the last element must not pass: it
    /// isn't tested. It costs the logarithm of their number.
    pub(crate) fn point<P: Fn(&T) -> bool>(&self, test: &P) -> usize
        requires { P.IsAlwaysCallable test.now }
        ensures within { result < length self.now }
        ensures cut { (p : T → Bool) → ComputesKey P.FnMut p test.now → ends p self.now ≡ false → IsCut p self.now result }
    {
        cut_of(&self.items[..self.items.len() - 1], test)
    }

    /// The owners of its elements.
    pub fn items(&self) -> &[Arc<T>]
        ensures { values result.now ≡ self.now }
    {
        &self.items
    }
}

/// The capacity of a new chunk with this many elements. There are only a few sizes (profile), so that a new chunk can reuse the memory of the
/// last one that was freed, and a few more elements fit without a reallocation.
fn room_for(len: usize) -> usize {
    match len {
        0..=4 => 8,
        5..=12 => 16,
        13..=28 => 32,
        _ => CHUNK,
    }
}

/// Adds one more owner of each item at the end.
fn share<T: Drop>(to: &mut Vec<Arc<T>>, items: &[Arc<T>]) -> Result<(), AllocError>
    ensures { OnOk result (values to.new.items ≡ values to.old.items ++ values items.now) }
{
    for item in items {
        to.push(Arc::try_clone(item)?)?;
    }
    Ok(())
}

/// Inserts an element into a chunk at that index: in place if the chunk has no other owner, and else in a new chunk, which replaces it.
pub(crate) fn put_in<T: Drop>(
    place: &mut Arc<Chunk<T>>,
    at: usize,
    item: Arc<T>,
) -> Result<(), AllocError>
    requires room { length place.old.value < CHUNK }
    requires at { at ≤ length place.old.value }
    ensures ok { OnOk result (place.new.value ≡ insert place.old.value at item.value) }
    ensures err { OnErr result (place.new.value ≡ place.old.value) }
{
    if let Some(chunk) = Arc::get_mut(place) {
        return chunk.put(at, item);
    }
    let whole = place.with(at, item)?;
    *place = whole;
    Ok(())
}

/// Replaces the element with that index of a chunk: in place if the chunk has no other owner, and else in a new chunk, which replaces it.
pub(crate) fn set_in<T: Drop>(
    place: &mut Arc<Chunk<T>>,
    at: usize,
    item: Arc<T>,
) -> Result<(), AllocError>
    requires { at < length place.old.value }
    ensures ok { OnOk result (place.new.value ≡ slice_set place.old.value at item.value) }
    ensures err { OnErr result (place.new.value ≡ place.old.value) }
{
    if let Some(chunk) = Arc::get_mut(place) {
        chunk.replace(at, item);
        return Ok(());
    }
    let whole = place.with_other(at, item)?;
    *place = whole;
    Ok(())
}

/// Removes and answers the element with that index of a chunk, which must have more than one. It is done in place if the chunk has no other
/// owner, and else a new chunk replaces it.
pub(crate) fn take_from<T: Drop>(place: &mut Arc<Chunk<T>>, at: usize) -> Result<Arc<T>, AllocError>
    requires at { at < length place.old.value }
    requires more { 1 < length place.old.value }
    ensures ok { OnOk result (place.new.value ≡ remove place.old.value at) }
    ensures item { IfOk result (λ a. slice_get place.old.value at ≡ Some a.value) }
    ensures err { OnErr result (place.new.value ≡ place.old.value) }
{
    if let Some(chunk) = Arc::get_mut(place) {
        return Ok(chunk.take(at));
    }
    let item = place.owner(at)?;
    let rest = place.without(at)?;
    *place = rest;
    Ok(item)
}

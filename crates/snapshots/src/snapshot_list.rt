//! The snapshots of one file system.
ghost use Rattle.std.specs.Prelude.{◌≡◌, ◌-◌, ◌+◌, ◌<◌, ◌++◌, ◌∷◌, [], ℕ, None, Some, List, length, remove, IfOk, IfErr, IfSome, IsSome, OnOk, OnErr, slice_get, slice_set};
ghost use Rattle.std.specs.Option.{option_copied, option_map};
ghost use Rattle.std.specs.Arc.{arc_value};
ghost use Rattle.std.specs.List.{find};
ghost use Rattle.base.specs.declared.refusal.Refusal.{Refusal};
ghost use Rattle.base.specs.Names.{same_name};
ghost use Rattle.snapshots.specs.declared.kept.Kept.{Kept};
ghost use Rattle.snapshots.specs.Index.{IsIndex, AreNamesOnce};

use crate::by_name::ByName;
use crate::kept::Kept;
use base::name::Component;
use base::refusal::Refusal;
use base::text::same_bytes;
use shared_list::SharedList;
use std::alloc::Global;
use std::marker::Model;
use std::sync::Arc;

/// The snapshots of one file system in order of their creation groups, with an index by name. Contracts see the list of them. Copies share the
/// snapshots.
///
/// Where memory for the index is refused, a snapshot is added nevertheless, and the list has no index from then on. A name is then found by a
/// walk over the list.
pub struct SnapshotList {
    pub(crate) kept: SharedList<Kept>,
    pub(crate) by_name: Option<ByName>,
}

// Written by hand, so that it is proved once: a derived `Drop` is expanded anew in each crate that drops the type.
impl Drop for SnapshotList {
    fn drop(self) {
        let SnapshotList { kept, by_name } = self;
        drop(kept);
        drop(by_name);
    }
}

impl Model for SnapshotList {
    ghost use Rattle.std.specs.Prelude.{List};
    ghost use Rattle.std.specs.Coded.{coded_list};
    ghost use Rattle.snapshots.specs.declared.kept.Kept.{Kept};
    ghost use Rattle.snapshots.specs.contracts.kept.Kept.{the_row};
    ghost use Rattle.snapshots.specs.Index.{IsIndex};

    ghost Value = { List Kept };

    ghost coded = { coded_list the_row.coded };

    ghost view = { λ l. l.kept };

    ghost invariant = { λ l. IsIndex l.by_name l.kept };
}

impl SnapshotList {
    /// An empty list. It takes no memory, and keeps the allocator.
    pub fn new(alloc: Global) -> SnapshotList
        ensures { result ≡ [] }
    {
        SnapshotList {
            kept: SharedList::new(alloc),
            by_name: Some(ByName::new(alloc)),
        }
    }

    /// An equal list, which shares each group of chunks. It costs at most a 1,024th of the number of snapshots. NoMemory where there is none for
    /// that.
    pub fn copy(&self) -> Result<SnapshotList, Refusal>
        ensures ok { IfOk result (λ l. l ≡ self.now) }
        ensures err { IfErr result (λ e. e ≡ Refusal.NoMemory) }
    {
        let kept = self.kept.copy()?;
        let by_name = copy_of_index(&self.by_name)?;
        Ok(SnapshotList { kept, by_name })
    }

    /// All snapshots, in order of their creation groups. Constant time.
    pub fn list(&self) -> &SharedList<Kept>
        ensures { result.now ≡ self.now }
    {
        &self.kept
    }

    /// The newest snapshot, or None where there is none. Constant time.
    pub fn last(&self) -> Option<&Kept>
        ensures { option_copied result ≡ slice_get self.now (length self.now - 1) }
    {
        self.kept.last()
    }

    /// The first snapshot of that name, or None where there is none. It costs the logarithm of the number of snapshots, or, where there is no
    /// index, their number.
    pub fn get(&self, name: &[u8]) -> Option<&Kept>
        ensures { option_copied result ≡ find (λ k. same_name k.snapshot.name name.now) self.now }
    {
        match &self.by_name {
            Some(index) => index.get(name),
            None => walk(&self.kept, name),
        }
    }

    /// Adds a snapshot at the end. It costs the logarithm of the number of snapshots, and at most a chunk of the list and one of the index,
    /// which are changed in place where no copy shares them. NoMemory where there is none for it; then all are as they were.
    pub fn push(&mut self, alloc: Global, kept: Kept) -> Result<(), Refusal>
        ensures ok { OnOk result (self.new ≡ self.old ++ kept ∷ []) }
        ensures err { OnErr result (self.new ≡ self.old) }
        ensures only { IfErr result (λ e. e ≡ Refusal.NoMemory) }
    {
        let kept = Arc::new(alloc, kept)?;
        self.kept.push_shared(Arc::try_clone(&kept)?)?;
        index(&mut self.by_name, kept);
        Ok(())
    }

    /// Removes the snapshot at that place, counted from 0. Names must be unique. It costs the number of chunks, which is at most a 32nd of the
    /// number of snapshots, the length of its name, and at most three chunks of the list and of the index. NoMemory where there is none for it;
    /// then all are as they were.
    pub fn remove(&mut self, place: usize) -> Result<(), Refusal>
        requires there { place < length self.old }
        requires once { AreNamesOnce self.old }
        ensures ok { OnOk result (self.new ≡ remove self.old place) }
        ensures err { OnErr result (self.new ≡ self.old) }
        ensures only { IfErr result (λ e. e ≡ Refusal.NoMemory) }
    {
        let name = name_at(&self.kept, place)?;
        self.kept.remove(place)?;
        forget(&mut self.by_name, name.as_bytes());
        Ok(())
    }

    /// Replaces the snapshot at that place, counted from 0, with this one, which has the same name. Names must be unique. It costs the logarithm
    /// of the number of snapshots, a walk over the chunks, and at most a chunk of the list and one of the index, which are changed in place
    /// where no copy shares them. NoMemory where there is none for it; then all are as they were.
    pub fn set(&mut self, alloc: Global, place: usize, kept: Kept) -> Result<(), Refusal>
        requires same { option_map (λ k. k.snapshot.name) (slice_get self.old place) ≡ Some kept.snapshot.name }
        requires once { AreNamesOnce self.old }
        ensures ok { OnOk result (self.new ≡ slice_set self.old place kept) }
        ensures err { OnErr result (self.new ≡ self.old) }
        ensures only { IfErr result (λ e. e ≡ Refusal.NoMemory) }
    {
        let kept = Arc::new(alloc, kept)?;
        self.kept.set_shared(place, Arc::try_clone(&kept)?)?;
        replace(&mut self.by_name, kept);
        Ok(())
    }

    /// Replaces the snapshot at that place, counted from 0, with this one, whose name none of them has. Names must be unique. It costs the length of
    /// the name that goes, the logarithm of the number of snapshots, a walk over the chunks, and at most a chunk of the list and five of the index,
    /// which are changed in place where no copy shares them. NoMemory where there is none for it; then all are as they were.
    pub fn rename(&mut self, alloc: Global, place: usize, kept: Kept) -> Result<(), Refusal>
        requires there { place < length self.old }
        requires once { AreNamesOnce self.old }
        requires free { find (λ k. same_name k.snapshot.name kept.snapshot.name) self.old ≡ None }
        ensures ok { OnOk result (self.new ≡ slice_set self.old place kept) }
        ensures err { OnErr result (self.new ≡ self.old) }
        ensures only { IfErr result (λ e. e ≡ Refusal.NoMemory) }
    {
        let old_name = name_at(&self.kept, place)?;
        let kept = Arc::new(alloc, kept)?;
        self.kept.set_shared(place, Arc::try_clone(&kept)?)?;
        forget(&mut self.by_name, old_name.as_bytes());
        index(&mut self.by_name, kept);
        Ok(())
    }

    /// Removes the snapshot at that place, counted from 0, and replaces the one after it with `next`, which has the same name as that one. Names
    /// must be unique. It costs the number of chunks, which is at most a 32nd of the number of snapshots, and at most three chunks of the list
    /// and of the index. NoMemory where there is none for it; then all are as they were.
    pub fn splice(&mut self, alloc: Global, place: usize, next: Kept) -> Result<(), Refusal>
        requires next { option_map (λ k. k.snapshot.name) (slice_get self.old (place + 1)) ≡ Some next.snapshot.name }
        requires once { AreNamesOnce self.old }
        ensures ok { OnOk result (self.new ≡ slice_set (remove self.old place) place next) }
        ensures err { OnErr result (self.new ≡ self.old) }
        ensures only { IfErr result (λ e. e ≡ Refusal.NoMemory) }
    {
        let name = name_at(&self.kept, place)?;
        let next = Arc::new(alloc, next)?;
        let mut kept = self.kept.copy()?;
        kept.remove(place)?;
        kept.set_shared(place, Arc::try_clone(&next)?)?;
        forget(&mut self.by_name, name.as_bytes());
        replace(&mut self.by_name, next);
        self.kept = kept;
        Ok(())
    }
}

// A copy of the name of the snapshot at that place, which must be there. It costs a walk over the chunks before it, and the length of the name.
fn name_at(kept: &SharedList<Kept>, place: usize) -> Result<Component, Refusal>
    requires { place < length kept.now }
    ensures ok { IfOk result (λ n. option_map (λ k. k.snapshot.name) (slice_get kept.now place) ≡ Some n) }
    ensures err { IfErr result (λ e. e ≡ Refusal.NoMemory) }
{
    let Some(kept) = kept.get(place) else {
        unreachable!()
    };
    Ok(kept.snapshot.name().clone()?)
}

// An equal index, which shares the chunks.
pub(crate) fn copy_of_index(by_name: &Option<ByName>) -> Result<Option<ByName>, Refusal>
    ensures ok { IfOk result (λ b. b ≡ by_name.now) }
    ensures err { IfErr result (λ e. e ≡ Refusal.NoMemory) }
{
    match by_name {
        Some(index) => Ok(Some(index.copy()?)),
        None => Ok(None),
    }
}

// The first of these snapshots that has this name. It costs their number.
fn walk<'a>(kept: &'a SharedList<Kept>, name: &[u8]) -> Option<&'a Kept>
    ensures { option_copied result ≡ find (λ k. same_name k.snapshot.name name.now) kept.now }
{
    kept.iter()
        .find(|kept| same_bytes(kept.snapshot.name().as_bytes(), name))
}

// Adds a snapshot to an index of other snapshots. It comes after them in the list, or it comes before them and none of them has its name. Where
// the index has a snapshot of this name, that one stays. Where memory is refused, the index is dropped (None).
pub(crate) fn index(by_name: &mut Option<ByName>, kept: Arc<Kept>)
    ensures behind { (ks : List Kept) → IsIndex by_name.old ks → IsIndex by_name.new (ks ++ arc_value kept ∷ []) }
    ensures before { (ks : List Kept) → find (λ k. same_name k.snapshot.name (arc_value kept).snapshot.name) ks ≡ None → IsIndex by_name.old ks → IsIndex by_name.new (arc_value kept ∷ ks) }
{
    let Some(index) = by_name else {
        return;
    };
    if index.insert(kept).is_err() {
        *by_name = None;
    }
}

// Removes the snapshot of this name, which must be there, from the index. Where memory is refused, the index is dropped (None).
pub(crate) fn forget(by_name: &mut Option<ByName>, name: &[u8])
    requires { IfSome by_name.old (λ index. IsSome (find (λ k. same_name k.snapshot.name name.now) index)) }
    ensures { (ks : List Kept) (place : ℕ) → option_map (λ k. k.snapshot.name) (slice_get ks place) ≡ Some name.now → AreNamesOnce ks → IsIndex by_name.old ks → IsIndex by_name.new (remove ks place) }
{
    let Some(index) = by_name else {
        return;
    };
    if index.remove(name).is_err() {
        *by_name = None;
    }
}

// Replaces the snapshot of the same name, which must be there, in the index. Where memory is refused, the index is dropped (None).
fn replace(by_name: &mut Option<ByName>, kept: Arc<Kept>)
    requires { IfSome by_name.old (λ index. IsSome (find (λ k. same_name k.snapshot.name (arc_value kept).snapshot.name) index)) }
    ensures { (ks : List Kept) (place : ℕ) → option_map (λ k. k.snapshot.name) (slice_get ks place) ≡ Some (arc_value kept).snapshot.name → AreNamesOnce ks → IsIndex by_name.old ks → IsIndex by_name.new (slice_set ks place (arc_value kept)) }
{
    let Some(index) = by_name else {
        return;
    };
    if index.set(kept).is_err() {
        *by_name = None;
    }
}

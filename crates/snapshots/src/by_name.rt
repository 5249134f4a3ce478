//! Kept snapshots by name.
ghost use Rattle.std.specs.Prelude.{◌≡◌, [], None, Some, true, false, IsTrue, IsSome, IfSome, if◌then◌else◌, ℕ, List, IfOk, IfErr, OnOk, OnErr};
ghost use Rattle.std.specs.List.{find};
ghost use Rattle.std.specs.Option.{option_copied, option_or};
ghost use Rattle.shared_list.specs.Elements.{flattened};
ghost use Rattle.shared_list.specs.Places.{IsItem, place_index};
ghost use Rattle.base.specs.declared.refusal.Refusal.{Refusal};
ghost use Rattle.base.specs.Names.{same_name};
ghost use Rattle.snapshots.specs.Heads.{name_head};
ghost use Rattle.snapshots.specs.Order.{IsPlaceFor, if_named, is_below, is_named, names_rise};

use crate::head::{head_of, is_lower, is_same};
use crate::kept::Kept;
use base::refusal::Refusal;
use shared_list::edits::{insert_item, push_item, remove_item, set_item};
use shared_list::place::{Place, first, item_at, partition_point};
use shared_list::{Chunk, Spine};
use std::alloc::Global;
use std::marker::Model;
use std::sync::Arc;

/// An index of the kept snapshots of one file system by name. Contracts see the list of them in strictly rising byte order of their names, so
/// that each name occurs once. The snapshots are stored in chunks of 1 to 64, and the chunks in groups of 1 to 64 (profile). Copies share the
/// groups.
#[derive(Drop)]
pub struct ByName {
    chunks: Spine<Chunk<Kept>>,
}

impl Model for ByName {
    ghost use Rattle.std.specs.Prelude.{IsTrue, List};
    ghost use Rattle.shared_list.specs.Elements.{flattened};
    ghost use Rattle.std.specs.Coded.{coded_list};
    ghost use Rattle.snapshots.specs.declared.kept.Kept.{Kept};
    ghost use Rattle.snapshots.specs.contracts.kept.Kept.{the_row};
    ghost use Rattle.snapshots.specs.Order.{names_rise};

    ghost Value = { List Kept };

    ghost coded = { coded_list the_row.coded };

    ghost view = { λ s. flattened s.chunks };

    ghost invariant = { λ s. IsTrue (names_rise (flattened s.chunks)) };
}

impl ByName {
    /// An empty index. It takes no memory, and keeps the allocator.
    pub fn new(alloc: Global) -> ByName
        ensures { result ≡ [] }
    {
        ByName {
            chunks: Spine::new(alloc),
        }
    }

    /// An equal index, which shares each group. It costs a 4,096th of the number of snapshots, or a 1,024th where they were inserted between
    /// others. NoMemory where memory is refused.
    pub fn copy(&self) -> Result<ByName, Refusal>
        ensures ok { IfOk result (λ b. b ≡ self.now) }
        ensures err { IfErr result (λ e. e ≡ Refusal.NoMemory) }
    {
        let chunks = self.chunks.copy()?;
        Ok(ByName { chunks })
    }

    /// The snapshot of that name, or None where there is none. It costs the logarithm of their number.
    pub fn get(&self, name: &[u8]) -> Option<&Kept>
        ensures { option_copied result ≡ find (λ k. same_name k.snapshot.name name.now) self.now }
    {
        let kept = nearest(&self.chunks, name)?;
        if has_name(kept, name) {
            return Some(kept);
        }
        None
    }

    /// Inserts a snapshot. Where the index has one of this name, that one stays. It costs the logarithm of the number of snapshots, a few walks
    /// over the groups, and at most two chunks and their groups; a chunk is changed in place where it and its group have no other owner and it
    /// isn't full. NoMemory where memory is refused; then all is as it was.
    pub fn insert(&mut self, kept: Arc<Kept>) -> Result<(), Refusal>
        ensures ok { OnOk result ((name : List ℕ) → find (λ k. same_name k.snapshot.name name) self.new ≡ option_or (find (λ k. same_name k.snapshot.name name) self.old) (if same_name kept.value.snapshot.name name then Some kept.value else None)) }
        ensures err { OnErr result (self.new ≡ self.old) }
        ensures only { IfErr result (λ e. e ≡ Refusal.NoMemory) }
    {
        let name = name_of(&kept);
        let Some(place) = place_of(&self.chunks, name) else {
            push_item(&mut self.chunks, kept)?;
            return Ok(());
        };
        if has_name(item_at(&self.chunks, place), name) {
            return Ok(());
        }
        insert_item(&mut self.chunks, place.k, place.at, kept)?;
        Ok(())
    }

    /// Replaces the snapshot of the same name, which must be there. It costs what `get` does. The chunk and its group are changed in place where
    /// they have no other owner; else new ones take their place. NoMemory where memory is refused; then all is as it was.
    pub fn set(&mut self, kept: Arc<Kept>) -> Result<(), Refusal>
        requires { IsSome (find (λ k. same_name k.snapshot.name kept.value.snapshot.name) self.old) }
        ensures ok { OnOk result ((name : List ℕ) → find (λ k. same_name k.snapshot.name name) self.new ≡ (if same_name kept.value.snapshot.name name then Some kept.value else find (λ k. same_name k.snapshot.name name) self.old)) }
        ensures err { OnErr result (self.new ≡ self.old) }
        ensures only { IfErr result (λ e. e ≡ Refusal.NoMemory) }
    {
        let Some(place) = place_of(&self.chunks, name_of(&kept)) else {
            unreachable!()
        };
        set_item(&mut self.chunks, place.k, place.at, kept)?;
        Ok(())
    }

    /// Removes the snapshot of that name, which must be there. It costs what `get` does, and at most three chunks and their groups. NoMemory
    /// where memory is refused; then all is as it was.
    pub fn remove(&mut self, name: &[u8]) -> Result<(), Refusal>
        requires { IsSome (find (λ k. same_name k.snapshot.name name.now) self.old) }
        ensures ok { OnOk result ((other : List ℕ) → find (λ k. same_name k.snapshot.name other) self.new ≡ (if same_name name.now other then None else find (λ k. same_name k.snapshot.name other) self.old)) }
        ensures err { OnErr result (self.new ≡ self.old) }
        ensures only { IfErr result (λ e. e ≡ Refusal.NoMemory) }
    {
        let Some(place) = place_of(&self.chunks, name) else {
            unreachable!()
        };
        let _gone = remove_item(&mut self.chunks, place.k, place.at)?;
        Ok(())
    }
}

// Whether the snapshot's name is below `name` in byte order. `head` is the head of `name`.
fn is_below_name(kept: &Kept, name: &[u8], head: u64) -> bool
    requires { head ≡ name_head name.now }
    ensures { result ≡ is_below name.now kept.now }
{
    let snapshot = &kept.snapshot;
    is_lower(snapshot.name().as_bytes(), snapshot.head(), name, head)
}

fn has_name(kept: &Kept, name: &[u8]) -> bool
    ensures { result ≡ is_named name.now kept.now }
{
    let snapshot = &kept.snapshot;
    is_same(
        snapshot.name().as_bytes(),
        snapshot.head(),
        name,
        head_of(name),
    )
}

// The bytes of the snapshot's name.
fn name_of(kept: &Arc<Kept>) -> &[u8]
    ensures { result.now ≡ kept.now.value.snapshot.name }
{
    kept.snapshot.name().as_bytes()
}

/// The first snapshot whose name isn't below `name`, or None where every name is below it.
fn nearest<'a>(chunks: &'a Spine<Chunk<Kept>>, name: &[u8]) -> Option<&'a Kept>
    requires { IsTrue (names_rise (flattened chunks.now)) }
    ensures { find (is_named name.now) (flattened chunks.now) ≡ if_named name.now (option_copied result) }
{
    let head = head_of(name);
    first(chunks, |kept: &Kept| is_below_name(kept, name, head))
}

/// The place of the first snapshot whose name isn't below `name`, or None where every name is below it.
fn place_of(chunks: &Spine<Chunk<Kept>>, name: &[u8]) -> Option<Place>
    requires { IsTrue (names_rise (flattened chunks.now)) }
    ensures item { IfSome result (λ p. IsItem (λ v. v) chunks.now p.k p.at) }
    ensures place { IsPlaceFor name.now (flattened chunks.now) (place_index (λ v. v) chunks.now result) }
{
    let head = head_of(name);
    partition_point(chunks, |kept: &Kept| is_below_name(kept, name, head))
}

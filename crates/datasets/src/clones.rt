//! The clones among file systems, by their origins.
ghost use Rattle.std.specs.Prelude.{◌≡◌, ◌+◌, ◌<◌, ◌≤◌, IfOk, IfErr, OnOk, OnErr, map, vec_len, vec_capacity};
ghost use Rattle.std.specs.Arc.{arc_value};
ghost use Rattle.std.specs.FinMap as finmap;
ghost use Rattle.std.specs.FinMap.{entries};
ghost use Rattle.std.specs.Option.{option_map};
ghost use Rattle.std.specs.Ordering.{is_lt};
ghost use Rattle.base.specs.declared.refusal.Refusal.{Refusal};
ghost use Rattle.model.specs.Ids.{snap_id};
ghost use Rattle.model.specs.World.{same_id};
ghost use Rattle.datasets.specs.CloneNames.{id_cmp, key_cmp, key_of, key_in, name_of, set_of, with_origin, without_origin, promoted_set, names_in, IsInOrder, IsCloneAt, IsCloneGap};

use base::name::DsName;
use base::refusal::Refusal;
use base::text::compare_bytes;
use file_system::FileSystem;
use model::snapshot_id::SnapshotId;
use std::alloc::Global;
use std::cmp::Ordering;
use std::marker::Model;
use std::sync::Arc;

/// A clone: its origin, and its name (zfsprops(7): origin, clones).
#[derive(Drop)]
pub struct CloneName {
    pub(crate) origin: SnapshotId,
    pub(crate) name: Arc<DsName>,
}

impl CloneName {
    /// The clone's name. Constant time.
    pub fn name(&self) -> &DsName
        ensures { result.now ≡ name_of self.now }
    {
        &self.name
    }

    // An equal entry, which shares the name. NoMemory where there is none for it.
    fn copy(&self) -> Result<CloneName, Refusal>
        ensures ok { IfOk result (λ c. key_of c ≡ key_of self.now) }
        ensures err { IfErr result (λ e. e ≡ Refusal.NoMemory) }
    {
        let name = Arc::try_clone(&self.name)?;
        Ok(CloneName {
            origin: self.origin,
            name,
        })
    }

    // Compares it with a clone of this origin and this name: by origin, and then by name.
    fn compare(&self, origin: SnapshotId, name: &[u8]) -> Ordering
        ensures { result ≡ key_cmp (key_of self.now) (snap_id origin, name.now) }
    {
        match self.origin.cmp(&origin) {
            Ordering::Equal => compare_bytes(self.name.as_bytes(), name),
            other => other,
        }
    }
}

// Whether its origin sorts before that snapshot.
fn is_before(clone: &CloneName, id: SnapshotId) -> bool
    ensures { result ≡ is_lt (id_cmp (key_of clone.now).0 (snap_id id)) }
{
    clone.origin.cmp(&id).is_lt()
}

// Whether its origin is that snapshot.
fn has_origin(clone: &CloneName, id: SnapshotId) -> bool
    ensures { result ≡ same_id (snap_id id) (key_of clone.now).0 }
{
    id == clone.origin
}

// The place of the clone of this origin and name, or, as Err, the place where it would be inserted.
fn place(clones: &[CloneName], origin: SnapshotId, name: &[u8]) -> Result<usize, usize>
    requires { IsInOrder clones.now }
    ensures found { IfOk result (IsCloneAt (map key_in clones.now) (snap_id origin, name.now)) }
    ensures absent { IfErr result (IsCloneGap (map key_in clones.now) (snap_id origin, name.now)) }
{
    clones.binary_search_by(|clone| clone.compare(origin, name))
}

// A copy of these entries, which shares the names. NoMemory where there is none for that.
fn shared(alloc: Global, clones: &[CloneName]) -> Result<Vec<CloneName>, Refusal>
    ensures ok { IfOk result (λ v. map key_in v.items ≡ map key_in clones.now) }
    ensures err { IfErr result (λ e. e ≡ Refusal.NoMemory) }
{
    let mut copies = Vec::with_capacity(alloc, clones.len())?;
    for clone in clones {
        copies.push_reserved(clone.copy()?);
    }
    Ok(copies)
}

// Inserts a clone of that origin in its place. Does nothing where there is no origin, or the clone is there already. There must be room for one
// more entry. It costs their number.
fn put(entries: &mut Vec<CloneName>, origin: Option<SnapshotId>, name: Arc<DsName>)
    requires order { IsInOrder entries.old.items }
    requires room { vec_len entries.old < vec_capacity entries.old }
    ensures order { IsInOrder entries.new.items }
    ensures set { set_of entries.new.items ≡ with_origin (set_of entries.old.items) (arc_value name) (option_map snap_id origin) }
    ensures len { vec_len entries.new ≤ vec_len entries.old + 1 }
    ensures capacity { vec_capacity entries.old ≤ vec_capacity entries.new }
{
    let Some(origin) = origin else {
        return;
    };
    if let Err(place) = place(&*entries, origin, name.as_bytes()) {
        let Ok(()) = entries.insert(place, CloneName { origin, name }) else {
            unreachable!()
        };
    }
}

// Removes the clone of that origin and this name. Does nothing where there is no origin, or no such clone. It costs the number of entries.
fn leave_from(entries: &mut Vec<CloneName>, origin: Option<SnapshotId>, name: &DsName)
    requires order { IsInOrder entries.old.items }
    ensures order { IsInOrder entries.new.items }
    ensures set { set_of entries.new.items ≡ without_origin (set_of entries.old.items) name.now (option_map snap_id origin) }
    ensures len { vec_len entries.new ≤ vec_len entries.old }
    ensures capacity { vec_capacity entries.new ≡ vec_capacity entries.old }
{
    let Some(origin) = origin else {
        return;
    };
    if let Ok(place) = place(&*entries, origin, name.as_bytes()) {
        let _gone = entries.remove(place);
    }
}

/// An index of clones, sorted by origin, and for one origin by name in byte order. Contracts see it as the set of its pairs of an origin and a
/// name. Copies share the names.
#[derive(Drop)]
pub(crate) struct CloneIndex {
    entries: Vec<CloneName>,
}

impl Model for CloneIndex {
    ghost use Rattle.std.specs.Prelude.{map};
    ghost use Rattle.std.specs.FinMap.{from_sorted};
    ghost use Rattle.datasets.specs.CloneNames.{CloneSet, clone_set_code, key_in, IsInOrder};

    ghost Value = { CloneSet };

    ghost coded = { clone_set_code };

    ghost view = { λ i. from_sorted (map key_in i.entries.items) };

    ghost invariant = { λ i. IsInOrder i.entries.items };
}

impl CloneIndex {
    /// An empty index. Constant time.
    pub(crate) fn new(alloc: Global) -> CloneIndex
        ensures { result ≡ finmap.empty }
    {
        CloneIndex {
            entries: Vec::new(alloc),
        }
    }

    /// An equal index, which shares the names. NoMemory where there is none for that. It costs the number of clones.
    pub(crate) fn copy(&self) -> Result<CloneIndex, Refusal>
        ensures ok { IfOk result (λ i. i ≡ self.now) }
        ensures err { IfErr result (λ e. e ≡ Refusal.NoMemory) }
    {
        let entries = shared(*self.entries.allocator(), &self.entries)?;
        Ok(CloneIndex { entries })
    }

    /// The clones of that snapshot, in byte order of their names (zfsprops(7): clones). It costs the logarithm of the number of clones.
    pub(crate) fn of(&self, id: SnapshotId) -> &[CloneName]
        ensures { map name_of result.now ≡ names_in (snap_id id) (entries self.now) }
    {
        let entries: &[CloneName] = &self.entries;
        let (_before, from) = entries.split_at(entries.partition_point(|clone| is_before(
            clone, id,
        )));
        let (those, _after) = from.split_at(from.partition_point(|clone| has_origin(clone, id)));
        those
    }

    /// Adds a clone of that origin. Does nothing where there is no origin, or the clone is there already. NoMemory where there is none for it;
    /// then the index is as it was. It costs the number of clones.
    pub(crate) fn enter(
        &mut self,
        origin: Option<SnapshotId>,
        name: &Arc<DsName>,
    ) -> Result<(), Refusal>
        ensures ok { OnOk result (self.new ≡ with_origin self.old (arc_value name.now) (option_map snap_id origin)) }
        ensures err { OnErr result (self.new ≡ self.old) }
        ensures only { IfErr result (λ e. e ≡ Refusal.NoMemory) }
    {
        let Some(origin) = origin else {
            return Ok(());
        };
        if let Err(place) = place(&self.entries, origin, name.as_bytes()) {
            let name = Arc::try_clone(name)?;
            self.entries.insert(place, CloneName { origin, name })?;
        }
        Ok(())
    }

    /// Removes the clone of that origin and this name. Does nothing where there is no origin, or no such clone. It costs the number of clones.
    pub(crate) fn leave(&mut self, origin: Option<SnapshotId>, name: &DsName)
        ensures { self.new ≡ without_origin self.old name.now (option_map snap_id origin) }
    {
        leave_from(&mut self.entries, origin, name);
    }

    /// Promotes `clone`, whose origin is that snapshot of `owner` (zfs-promote(8)): the clone gets the origin of `owner`, if it has one, and
    /// that snapshot becomes the origin of `owner`. NoMemory where there is none for it; then the index is as it was. It costs the number of
    /// clones.
    pub(crate) fn promote(
        &mut self,
        origin: SnapshotId,
        clone: &FileSystem,
        owner: &FileSystem,
    ) -> Result<(), Refusal>
        ensures ok { OnOk result (self.new ≡ promoted_set self.old clone.now.name owner.now.name (snap_id origin) owner.now.system.origin) }
        ensures err { OnErr result (self.new ≡ self.old) }
        ensures only { IfErr result (λ e. e ≡ Refusal.NoMemory) }
    {
        let above = owner.origin();
        let clone_name = Arc::try_clone(clone.owned_name())?;
        let owner_name = Arc::try_clone(owner.owned_name())?;
        self.entries.reserve(2)?;
        leave_from(&mut self.entries, above, owner.name());
        put(&mut self.entries, Some(origin), owner_name);
        leave_from(&mut self.entries, Some(origin), clone.name());
        put(&mut self.entries, above, clone_name);
        Ok(())
    }
}

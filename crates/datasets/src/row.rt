//! The rows of a list of file systems, which other lists may share.
ghost use Rattle.std.specs.Prelude.{◌≡◌, ◌+◌, ◌<◌, ◌≤◌, ◌++◌, Some, None, IsSome, IfSome, IfNone, slice_get, IfOk, IfErr, OnOk, map, length, vec_len, vec_capacity};
ghost use Rattle.std.specs.Arc.{arc_value};
ghost use Rattle.std.specs.Borrow.{sem};
ghost use Rattle.std.specs.List.{find, insert};
ghost use Rattle.base.specs.Surveys.{IsIn};
ghost use Rattle.base.specs.declared.refusal.Refusal.{Refusal};
ghost use Rattle.model.specs.World.{id_of, same_id};
ghost use Rattle.model.specs.Ids.{snap_id};
ghost use Rattle.world.specs.Worlds.{AreRising};
ghost use Rattle.datasets.specs.Owned.{LendsRow};
ghost use Rattle.file_system.specs.Rows.{Row};

use base::refusal::Refusal;
use file_system::FileSystem;
use model::snapshot_id::SnapshotId;
use std::alloc::Global;
use std::sync::Arc;

// Adds another `Arc` of each of these rows to `owners`, which must have room for them. NoMemory where there is none for one. It costs their
// number.
fn share(rows: &[Arc<FileSystem>], owners: &mut Vec<Arc<FileSystem>>) -> Result<(), Refusal>
    requires { vec_len owners.old + length rows.now ≤ vec_capacity owners.old }
    ensures items { OnOk result (map arc_value owners.new.items ≡ map arc_value owners.old.items ++ map arc_value rows.now) }
    ensures len { OnOk result (vec_len owners.new ≡ vec_len owners.old + length rows.now) }
    ensures capacity { vec_capacity owners.new ≡ vec_capacity owners.old }
    ensures err { IfErr result (λ e. e ≡ Refusal.NoMemory) }
{
    for row in rows {
        owners.push_reserved(Arc::try_clone(row)?);
    }
    Ok(())
}

/// Another `Arc` of each of these rows, in a vector with room for no more. NoMemory where there is none for that. It costs their number.
pub(crate) fn shared(
    alloc: Global,
    rows: &[Arc<FileSystem>],
) -> Result<Vec<Arc<FileSystem>>, Refusal>
    ensures ok { IfOk result (λ v. map arc_value v.items ≡ map arc_value rows.now) }
    ensures room { IfOk result (λ v. vec_capacity v ≡ length rows.now) }
    ensures err { IfErr result (λ e. e ≡ Refusal.NoMemory) }
{
    let mut owners = Vec::with_capacity(alloc, rows.len())?;
    share(rows, &mut owners)?;
    Ok(owners)
}

/// Inserts a row at this place among others. There must be room for it. It costs their number.
pub(crate) fn put(rows: &mut Vec<Arc<FileSystem>>, place: usize, added: Arc<FileSystem>)
    requires room { vec_len rows.old < vec_capacity rows.old }
    requires within { place ≤ vec_len rows.old }
    ensures { rows.new.items ≡ insert rows.old.items place added }
{
    let Ok(()) = rows.insert(place, added) else {
        unreachable!()
    };
}

/// Lends a row's file system for a change. Where the row has other owners, a copy takes its place first. NoMemory where there is none for that;
/// then the row is as it was. Constant time.
pub(crate) fn own(row: &mut Arc<FileSystem>, alloc: Global) -> Result<&mut FileSystem, Refusal>
    ensures* writes_back { sem 𝓛 (LendsRow row.entry result) }
    ensures value { IfOk result (λ f. f.now ≡ arc_value row.old) }
    ensures only { IfErr result (λ e. e ≡ Refusal.NoMemory) }
{
    if Arc::strong_count(row) != 1 {
        let copy = row.copy()?;
        *row = Arc::new(alloc, copy)?;
    }
    match Arc::get_mut(row) {
        Some(file_system) => Ok(file_system),
        None => Err(Refusal::NoMemory),
    }
}

/// The place of the first row that has the snapshot of this identity, or None where no row has it. It costs for each row the logarithm of the
/// number of its snapshots.
pub(crate) fn owner_place(rows: &[Arc<FileSystem>], id: SnapshotId) -> Option<usize>
    requires { (r : Row) → IsIn (map arc_value rows.now) r → AreRising 0 r.system.snaps }
    ensures within { IfSome result (λ place. place < length rows.now) }
    ensures is { IfSome result (λ place. (r : Row) → slice_get (map arc_value rows.now) place ≡ Some r → IsSome (find (λ t. same_id (id_of t) (snap_id id)) r.system.snaps)) }
    ensures none { IfNone result ((r : Row) → IsIn (map arc_value rows.now) r → find (λ t. same_id (id_of t) (snap_id id)) r.system.snaps ≡ None) }
{
    for (place, row) in rows.iter().enumerate() {
        if row.snapshot_of(id).is_some() {
            return Some(place);
        }
    }
    None
}

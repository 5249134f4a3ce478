//! Open views in rising order of their numbers.
ghost use Rattle.std.specs.Prelude.{◌≡◌, ◌==◌, ◌&&◌, not, map, IsTrue, IfOk, IfErr};
ghost use Rattle.std.specs.List.{list_any};
ghost use Rattle.std.specs.Option.{option_map};
ghost use Rattle.std.specs.Ordering.{nat_cmp};
ghost use Rattle.std.specs.FinMap.{find, is_sorted};
ghost use Rattle.base.specs.declared.refusal.Refusal.{Refusal};
ghost use Rattle.model.specs.World.{same_id};
ghost use Rattle.model.specs.Ids.{snap_id};
ghost use Rattle.snap.specs.Entries.{entry_of};

use base::refusal::Refusal;
use model::snapshot_id::SnapshotId;
use std::alloc::Global;

/// An open view: its number, and the identity of the snapshot that it shows.
#[derive(Clone, Copy)]
pub struct Open {
    pub number: u64,
    pub snapshot: SnapshotId,
}

// Whether the view shows this snapshot. Constant time.
fn shows(view: &Open, id: SnapshotId) -> bool
    ensures { result ≡ same_id (snap_id id) (snap_id view.now.snapshot) }
{
    id == view.snapshot
}

/// The identities of the snapshots that the views show. NoMemory where there is none for the list. It costs their number.
pub fn identities(alloc: Global, views: &[Open]) -> Result<Vec<SnapshotId>, Refusal>
    ensures ok { IfOk result (λ ids. ids.items ≡ map (λ v. v.snapshot) views.now) }
    ensures err { IfErr result (λ e. e ≡ Refusal.NoMemory) }
{
    let mut ids = Vec::with_capacity(alloc, views.len())?;
    for view in views {
        ids.push_reserved(view.snapshot);
    }
    Ok(ids)
}

/// Whether one of the views shows this snapshot. It costs their number.
pub fn any_shows(views: &[Open], id: SnapshotId) -> bool
    ensures { result ≡ list_any (λ v. same_id (snap_id id) (snap_id v.snapshot)) views.now }
{
    views.iter().any(|view| shows(view, id))
}

/// Whether one of the views that has another number shows this snapshot. It costs their number.
pub fn any_other_shows(views: &[Open], number: u64, id: SnapshotId) -> bool
    ensures { result ≡ list_any (λ v. not (v.number == number) && same_id (snap_id id) (snap_id v.snapshot)) views.now }
{
    views
        .iter()
        .any(|view| view.number != number && shows(view, id))
}

/// What the view of this number shows, or none where there is no such view. It costs the logarithm of the number of views.
pub fn shown(views: &[Open], number: u64) -> Option<SnapshotId>
    requires { IsTrue (is_sorted nat_cmp (map entry_of views.now)) }
    ensures { option_map snap_id result ≡ find nat_cmp number (map entry_of views.now) }
{
    match views.binary_search_by_key(&number, |view| view.number) {
        Ok(place) => Some(views[place].snapshot),
        Err(_) => None,
    }
}

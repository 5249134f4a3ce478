//! What a dataset has written since a snapshot of its lineage.
ghost use Rattle.std.specs.Prelude.{◌≡◌, ◌≤◌, ◌-◌, Some, None, IfSome, IfNone, IfOk, IfErr, OnOk, nat_lt, true, false};
ghost use Rattle.std.specs.Option.{option_map, option_map_or, option_copied};
ghost use Rattle.std.specs.FinSet.{len};
ghost use Rattle.base.specs.Map.{blocks};
ghost use Rattle.model.specs.Ids.{snap_id};
ghost use Rattle.lookups.specs.Places.{dataset_at, map_at, IsPlace, IsHome};
ghost use Rattle.lookups.specs.Since.{since_refusal, written_named, is_before, IsDeadSince, HasReached, HasReachedNamed};
ghost use Rattle.model.specs.World.{same_id};

use crate::space::place::dataset_named;
use base::meter::SegMeter;
use base::name::{DsName, Member, Target};
use base::number::Group;
use base::refusal::Refusal;
use datasets::{FileSystem, Snapshot, Table};
use model::snapshot_id::SnapshotId;

/// How many blocks a dataset has that an older snapshot of its lineage hasn't (zfsprops(7): written@snapshot). NoDataset exactly where the
/// target isn't a dataset that is there or there is no such snapshot; else NotAncestor exactly where the snapshot isn't an older one of the
/// dataset's lineage (the order is profile). It costs the logarithms of the numbers of file systems and of the snapshots of one. For each file
/// system of the lineage down to the snapshot's it also costs the lookup of its origin, the number of its snapshots, and for each dead list of
/// these that is of the lineage about the square of the logarithm of its entries; a dead list is read once. The meter counts the one segment of
/// each list that is read, and the entries that its sum looks at.
pub fn written_since(
    table: &Table,
    target: &Target,
    since: &Member,
    segments: &mut SegMeter,
) -> Result<u32, Refusal>
    ensures ok { IfOk result (λ n. written_named table.now target.now since.now ≡ Some n) }
    ensures can { OnOk result (since_refusal table.now target.now since.now ≡ None) }
    ensures refused { IfSome (since_refusal table.now target.now since.now) (λ e. result ≡ Err e) }
    ensures only { IfErr result (λ e. since_refusal table.now target.now since.now ≡ Some e) }
    ensures meter { IfOk result (λ n. HasReachedNamed table.now target.now since.now (segments.new - segments.old)) }
    ensures never_lower { segments.old ≤ segments.new }
{
    table.facts();
    let Some((file_system, dataset)) = dataset_named(table, target) else {
        return Err(Refusal::NoDataset);
    };
    let Some((owner, snapshot)) = table.snapshot_named(&since.file_system, &since.component) else {
        return Err(Refusal::NoDataset);
    };
    let id = snapshot.id();
    let Some(gone) = gone_since(table, file_system, dataset, owner.name(), id, segments) else {
        return Err(Refusal::NotAncestor);
    };
    let (count, since) = (
        count_of(file_system, dataset),
        count_of(owner, Some(snapshot)),
    );
    Ok((u64::from(count) + gone - u64::from(since)) as u32)
}

// How many blocks the snapshot has, or the live map where there is none. Constant time.
fn count_of(file_system: &FileSystem, dataset: Option<&Snapshot>) -> u32
    ensures { result ≡ len (blocks (map_at file_system.now (option_copied dataset.entry))) }
{
    match dataset {
        Some(snapshot) => snapshot.tree().node_count(),
        None => file_system.live().node_count(),
    }
}

// Whether both identities are of one snapshot.
fn is_same(id: SnapshotId, other: SnapshotId) -> bool
    ensures { result ≡ same_id (snap_id id) (snap_id other) }
{
    id == other
}

// Whether a dataset comes after `group`: a snapshot of the group `until`, or the live map where that is none. Constant time.
fn is_after(until: Option<Group>, group: Group) -> bool
    ensures { result ≡ option_map_or (nat_lt group.0) (option_map (λ g. g.0) until) true }
{
    match until {
        Some(until) => group.0 < until.0,
        None => true,
    }
}

// The snapshot's group, and none for the live map. Constant time.
fn group_at(dataset: Option<&Snapshot>) -> Option<Group>
    ensures { option_map (λ g. g.0) result ≡ option_map (λ u. u.group) (option_copied dataset.entry) }
{
    match dataset {
        Some(snapshot) => Some(snapshot.group()),
        None => None,
    }
}

// Counts the entries born by the group of the snapshot `since` in the dead lists of the datasets after it up to this one, at most the greatest
// u64. None where `since`, a snapshot of `owner`, isn't an older one of the dataset's lineage. The walk goes down from the dataset's file system
// to that of its origin and so on. It costs what `written_since` does, and the meter counts what it does there.
fn gone_since(
    table: &Table,
    file_system: &FileSystem,
    dataset: Option<&Snapshot>,
    owner: &DsName,
    since: SnapshotId,
    segments: &mut SegMeter,
) -> Option<u64>
    requires place { IsPlace table.now file_system.now (option_copied dataset) }
    requires home { IsHome table.now owner.now (snap_id since) }
    ensures some { IfSome result (IsDeadSince table.now (dataset_at file_system.now (option_copied dataset.entry)) (snap_id since)) }
    ensures none { IfNone result (is_before table.now (dataset_at file_system.now (option_copied dataset.entry)) (snap_id since) ≡ false) }
    ensures meter { IfSome result (λ n. HasReached table.now (dataset_at file_system.now (option_copied dataset.entry)) (snap_id since) (segments.new - segments.old)) }
    ensures never_lower { segments.old ≤ segments.new }
{
    table.facts();
    let group = since.group;
    let (mut passed, mut until) = (file_system, group_at(dataset));
    let mut gone: u64 = 0;
    'lineage: while !passed.is_named(owner.as_bytes()) {
        let origin = passed.origin()?;
        let rest = passed.gone_upto(None, until, group, segments);
        gone = gone.saturating_add(rest);
        if origin.group.0 <= group.0 {
            return if is_same(origin, since) {
                Some(gone)
            } else {
                None
            };
        }
        let (next, _) = table.snapshot_of(origin)?;
        passed = next;
        until = Some(origin.group);
    }
    if !is_after(until, group) {
        return None;
    }
    let rest = passed.gone_upto(Some(group), until, group, segments);
    Some(gone.saturating_add(rest))
}

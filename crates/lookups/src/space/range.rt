//! The blocks that only the snapshots of a range have.
ghost use Rattle.std.specs.Prelude.{◌≡◌, ◌<◌, ◌≤◌, ◌+◌, ◌^◌, OnErr, if◌then◌else◌, Some, None, IfSome, IfOk, IfErr, OnOk, nat_lt};
ghost use Rattle.std.specs.List.{find, list_any};
ghost use Rattle.std.specs.Option.{option_map};
ghost use Rattle.std.specs.FinSet.{len};
ghost use Rattle.base.specs.Names.{same_name};
ghost use Rattle.model.specs.World.{union_of};
ghost use Rattle.model.specs.Sums.{would_free};
ghost use Rattle.world.specs.Tables.{world_of};
ghost use Rattle.world.specs.Worlds.{AreRising};
ghost use Rattle.datasets.specs.Origins.{origin_group};
ghost use Rattle.limits.specs.Space.{newest_group};
ghost use Rattle.lookups.specs.Ranges.{IsRange, range_ids, range_reach, range_refusal, has_clone_between, group_after, older_than};

use base::meter::SegMeter;
use base::name::{Component, DsName};
use base::number::Group;
use base::refusal::Refusal;
use datasets::{FileSystem, Snapshot, Table};

/// How many blocks the destroy of a range of a file system's snapshots would free, from `first` to `last`, both included (zfs-destroy(8), -nv).
/// Nothing is changed. NoDataset exactly where one of the two isn't there, else NotAncestor exactly where the first is newer than the last, else
/// HasClones exactly where one of the range has a clone (the order is profile). It costs the logarithm of the number of file systems, the number
/// of this one's snapshots, for each of the range the logarithm of the number of clones, and for each dead list that is read about the square of
/// the logarithm of its entries. Those are the dead lists of the snapshots of the range except the first, and that of the dataset after the
/// range; each is read once. The first one's isn't read, since its blocks were there before the range. The meter counts the one segment of each
/// list that is read, and the entries that its sum looks at.
pub fn would_free(
    table: &Table,
    name: &DsName,
    first: &Component,
    last: &Component,
    segments: &mut SegMeter,
) -> Result<u64, Refusal>
    requires few { len (union_of (world_of table.now)) < 2 ^ 32 }
    ensures ok { IfOk result (λ n. n ≡ would_free (world_of table.now) (range_ids table.now name.now first.now last.now)) }
    ensures can { OnOk result (range_refusal table.now name.now first.now last.now ≡ None) }
    ensures refused { IfSome (range_refusal table.now name.now first.now last.now) (λ e. result ≡ Err e) }
    ensures only { IfErr result (λ e. range_refusal table.now name.now first.now last.now ≡ Some e) }
    ensures meter { OnOk result (segments.new ≤ segments.old + range_reach table.now name.now first.now last.now) }
    ensures unread { OnErr result (segments.new ≡ segments.old) }
    ensures never_lower { segments.old ≤ segments.new }
{
    table.facts();
    let (file_system, oldest, _last, around) = range_of(table, name, first, last)?;
    Ok(file_system.gone_after(Some(oldest), around.next, around.before, segments))
}

// What is around a range of a file system's snapshots. `before` is the group of the newest older snapshot, or else of the origin, and 0 where
// there is neither; `next` is the group of the oldest newer snapshot; `is_cloned` tells whether a snapshot of the range has a clone.
#[derive(Clone, Copy)]
struct Around {
    before: Group,
    next: Option<Group>,
    is_cloned: bool,
}

// The file system of this name, the groups of the first and the last snapshot of the range, and what is around it. The refusals are those of
// `would_free`. The cost is that of `would_free` without the dead lists.
fn range_of<'a>(
    table: &'a Table,
    name: &DsName,
    first: &Component,
    last: &Component,
) -> Result<(&'a FileSystem, Group, Group, Around), Refusal>
    ensures ok { IfOk result (λ p. IsRange table.now name.now first.now last.now p.0.now p.1.0 p.2.0) }
    ensures before { IfOk result (λ p. p.3.before.0 ≡ newest_group (origin_group p.0.now.system.origin) (older_than p.1.0 p.0.now.system.snaps)) }
    ensures next { IfOk result (λ p. option_map (λ g. g.0) p.3.next ≡ group_after p.2.0 p.0.now.system.snaps) }
    ensures refused { IfErr result (λ e. range_refusal table.now name.now first.now last.now ≡ Some e) }
{
    table.facts();
    let Some(file_system) = table.find(name) else {
        return Err(Refusal::NoDataset);
    };
    let Some(first) = group_of(file_system, first) else {
        return Err(Refusal::NoDataset);
    };
    let Some(last) = group_of(file_system, last) else {
        return Err(Refusal::NoDataset);
    };
    if last.0 < first.0 {
        return Err(Refusal::NotAncestor);
    }
    let around = look_around(table, file_system, first, last);
    if around.is_cloned {
        return Err(Refusal::HasClones);
    }
    Ok((file_system, first, last, around))
}

// The creation group of the snapshot of this name within a file system, or none. It costs the logarithm of the number of its snapshots.
fn group_of(file_system: &FileSystem, component: &Component) -> Option<Group>
    ensures { option_map (λ g. g.0) result ≡ option_map (λ t. t.group) (find (λ t. same_name t.name component.now) file_system.now.system.snaps) }
{
    let snapshot = file_system.snapshot_named(component.as_bytes())?;
    Some(snapshot.group())
}

// Whether the snapshot is of the range from the group `first` to the group `last`, and has a clone. It costs the logarithm of the number of
// clones.
fn has_clone_between(table: &Table, snapshot: &Snapshot, first: Group, last: Group) -> bool
    ensures { result ≡ has_clone_between table.now first.0 last.0 snapshot.now }
{
    first.0 <= snapshot.group().0 && snapshot.group().0 <= last.0 && table.has_clone(snapshot.id())
}

// What is around the range from the group `first` to the group `last`. It costs the number of the file system's snapshots up to the end of the
// range, and for each of the range the logarithm of the number of clones.
fn look_around(table: &Table, file_system: &FileSystem, first: Group, last: Group) -> Around
    requires rising { AreRising (origin_group file_system.now.system.origin) file_system.now.system.snaps }
    requires order { first.0 ≤ last.0 }
    ensures before { result.before.0 ≡ newest_group (origin_group file_system.now.system.origin) (older_than first.0 file_system.now.system.snaps) }
    ensures next { option_map (λ g. g.0) result.next ≡ group_after last.0 file_system.now.system.snaps }
    ensures cloned { result.is_cloned ≡ list_any (has_clone_between table.now first.0 last.0) file_system.now.system.snaps }
{
    let mut around = Around {
        before: base_of(file_system),
        next: None,
        is_cloned: false,
    };
    for kept in file_system.snapshots().iter() {
        let group = kept.snapshot.group();
        if last.0 < group.0 {
            return Around {
                before: around.before,
                next: Some(group),
                is_cloned: around.is_cloned,
            };
        }
        around = Around {
            before: older(around.before, group, first),
            next: None,
            is_cloned: around.is_cloned | has_clone_between(table, &kept.snapshot, first, last),
        };
    }
    around
}

// `group` where it is before the first group of a range, and else `before`. Constant time.
fn older(before: Group, group: Group, first: Group) -> Group
    ensures { result.0 ≡ (if nat_lt group.0 first.0 then group.0 else before.0) }
{
    if group.0 < first.0 { group } else { before }
}

// The creation group of a file system's origin, and 0 where it has none. Constant time.
fn base_of(file_system: &FileSystem) -> Group
    ensures { result.0 ≡ origin_group file_system.now.system.origin }
{
    match file_system.origin() {
        Some(origin) => origin.group,
        None => Group(0),
    }
}

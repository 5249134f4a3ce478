//! The values of properties of file systems, snapshots and bookmarks.
ghost use Rattle.std.specs.Prelude.{◌≡◌, ◌≤◌, ◌<◌, ◌*◌, ◌-◌, ◌^◌, true, false, Some, IsSome, IfOk, IfErr, map};
ghost use Rattle.std.specs.Option.{option_copied, option_map, unwrap_or};
ghost use Rattle.std.specs.List.{join_with_byte};
ghost use Rattle.std.specs.FinMap.{get};
ghost use Rattle.std.specs.FinSet.{len};
ghost use Rattle.base.specs.declared.refusal.Refusal.{Refusal};
ghost use Rattle.base.specs.Map.{blocks};
ghost use Rattle.snapshots.specs.Marks.{bookmark_of};
ghost use Rattle.datasets.specs.Dead.{newest_blocks, written_from};
ghost use Rattle.datasets.specs.CloneNames.{name_of};
ghost use Rattle.model.specs.Ids.{snap_id};
ghost use Rattle.model.specs.Properties.{text_of_snap, bookmark_value};
ghost use Rattle.model.specs.Sums.{size_without, used_of, used_by_children};
ghost use Rattle.model.specs.World.{clones_of, union_of};
ghost use Rattle.model.specs.declared.reply.Value.{Value};
ghost use Rattle.model.specs.declared.request.Property.{Property};
ghost use Rattle.model.specs.requests.Get.{live_needs_memory, snap_needs_memory, needs_memory};
ghost use Rattle.world.specs.Tables.{world_of};
ghost use Rattle.lookups.specs.Accounted.{IsAccounted};
ghost use Rattle.lookups.specs.Named.{amount_value, live_value, origin_value, snapshot_value, value_in, value_named, is_used, reads_lists};

use crate::names::member_text;
use crate::space::{used, used_by_children, used_by_snapshot};
use crate::trees::bookmark_named;
use base::limit::Blocks;
use base::meter::SegMeter;
use base::name::{DsName, Member, Target};
use base::refusal::Refusal;
use base::text::Bytes;
use datasets::{CloneName, FileSystem, Table};
use limits::Ledger;
use model::limits::Limit;
use model::reply::Value;
use model::request::Property;
use model::snapshot_id::SnapshotId;
use std::alloc::Global;

// The name in print of the snapshot of this identity; empty where there is none. NoMemory where memory is refused. It costs the number of file
// systems times the logarithm of that of the snapshots of one.
fn text_of_snapshot(alloc: Global, table: &Table, id: SnapshotId) -> Result<Bytes, Refusal>
    ensures ok { IfOk result (λ text. text ≡ text_of_snap (world_of table.now) (snap_id id)) }
    ensures err { IfErr result (λ e. e ≡ Refusal.NoMemory) }
{
    match table.snapshot_of(id) {
        Some((file_system, snapshot)) => member_text(
            alloc,
            file_system.name().as_bytes(),
            b'@',
            snapshot.name().as_bytes(),
        ),
        None => Ok(Bytes::from(Vec::new(alloc))),
    }
}

// The names of these clones, joined by commas. NoMemory where memory is refused. It costs the names.
fn joined_names(alloc: Global, clones: &[CloneName]) -> Result<Bytes, Refusal>
    ensures ok { IfOk result (λ text. text ≡ join_with_byte 44 (map name_of clones.now)) }
    ensures err { IfErr result (λ e. e ≡ Refusal.NoMemory) }
{
    let mut text = Vec::new(alloc);
    let Some((first, others)) = clones.split_first() else {
        return Ok(Bytes::from(text));
    };
    text.extend_from_slice(first.name().as_bytes())?;
    for clone in others {
        text.push(b',')?;
        text.extend_from_slice(clone.name().as_bytes())?;
    }
    Ok(Bytes::from(text))
}

// The names of the clones of the snapshot of this identity in byte order, joined by commas (zfsprops(7): clones); empty where it has none.
// NoMemory where memory is refused. It costs the logarithm of the number of clones, and the names.
fn clones_text(alloc: Global, table: &Table, id: SnapshotId) -> Result<Bytes, Refusal>
    ensures ok { IfOk result (λ text. text ≡ join_with_byte 44 (clones_of (world_of table.now) (snap_id id))) }
    ensures err { IfErr result (λ e. e ≡ Refusal.NoMemory) }
{
    joined_names(alloc, table.clones_of(id))
}

// The origin of a file system of the table, where it is a clone. NoMemory where memory for its text is refused. It costs what `text_of_snapshot`
// does.
fn value_of_origin(alloc: Global, table: &Table, file_system: &FileSystem) -> Result<Value, Refusal>
    ensures ok { IfOk result (λ value. value ≡ origin_value table.now file_system.now.system.origin) }
    ensures err { IfErr result (λ e. e ≡ Refusal.NoMemory) }
{
    match file_system.origin() {
        Some(origin) => Ok(Value::Named(text_of_snapshot(alloc, table, origin)?)),
        None => Ok(Value::NotApplicable),
    }
}

// How many blocks the file system of this name uses together with all its descendants. With a ledger it costs the logarithm of the number of
// file systems, and else that number.
fn used_in(table: &Table, ledger: Option<&Ledger>, name: &DsName) -> u64
    requires there { IsSome (get table.now.file_systems name.now) }
    requires accounted { IsAccounted table.now (option_copied ledger) }
    requires few { len (union_of (world_of table.now)) < 2 ^ 32 }
    ensures is { result ≡ used_of (world_of table.now) name.now }
    ensures small { result < 2 ^ 55 }
{
    match ledger {
        Some(ledger) => ledger.used(table, name),
        None => u64::from(used(table, name)),
    }
}

// How many blocks the descendants of the file system of this name use (zfsprops(7): usedbychildren). It costs what `used_in` does.
fn used_by_children_in(table: &Table, ledger: Option<&Ledger>, name: &DsName) -> u64
    requires there { IsSome (get table.now.file_systems name.now) }
    requires accounted { IsAccounted table.now (option_copied ledger) }
    requires few { len (union_of (world_of table.now)) < 2 ^ 32 }
    ensures is { result ≡ used_by_children (world_of table.now) name.now }
    ensures small { result < 2 ^ 55 }
{
    match ledger {
        Some(ledger) => ledger.used_by_children(table, name),
        None => u64::from(used_by_children(table, name)),
    }
}

// A limit in bytes, and 0 where there is none.
fn value_of_limit(limit: Option<Blocks>) -> Value
    ensures { result ≡ amount_value limit }
{
    match limit {
        Some(amount) => Value::Size(512 * amount.get()),
        None => Value::Size(0),
    }
}

// The part of a file system's refreservation that isn't written yet, in blocks, and 0 where it has none. Constant time.
fn unwritten(file_system: &FileSystem) -> u64
    ensures is { result ≡ unwrap_or file_system.now.system.limits.refreservation 0 - size_without (blocks file_system.now.system.live) (newest_blocks (blocks file_system.now.below) file_system.now.system.snaps) }
    ensures small { result < 2 ^ 55 }
{
    match file_system.limits().get(Limit::RefReservation) {
        Some(amount) => amount
            .get()
            .saturating_sub(u64::from(file_system.written())),
        None => 0,
    }
}

// A property of a file system of the table, to which `room` blocks are available. A property that only snapshots have is NotApplicable. NoMemory
// only for `origin`, where memory for its text is refused. Constant time, but `used` and `usedbychildren` cost what `used_in` does, and `origin`
// what `value_of_origin` does.
fn value_of_live(
    alloc: Global,
    table: &Table,
    ledger: Option<&Ledger>,
    file_system: &FileSystem,
    property: Property,
    room: u64,
) -> Result<Value, Refusal>
    requires there { get table.now.file_systems file_system.now.name ≡ Some file_system.now.system }
    requires accounted { IsAccounted table.now (option_copied ledger) }
    requires few { len (union_of (world_of table.now)) < 2 ^ 32 }
    requires small { room < 2 ^ 55 }
    ensures ok { IfOk result (λ value. value ≡ live_value table.now room file_system.now property) }
    ensures err { IfErr result (λ e. (live_needs_memory property ≡ true) × (e ≡ Refusal.NoMemory)) }
{
    match property {
        Property::Used => Ok(many_bytes(used_in(table, ledger, file_system.name()))),
        Property::Available => Ok(many_bytes(room)),
        Property::Referenced => Ok(in_bytes(file_system.live().node_count())),
        Property::Written => Ok(in_bytes(file_system.written())),
        Property::UsedByDataset => Ok(in_bytes(file_system.used_by_dataset())),
        Property::UsedBySnapshots => Ok(in_bytes(file_system.used_by_snapshots() as u32)),
        Property::UsedByChildren => {
            let children = used_by_children_in(table, ledger, file_system.name());
            Ok(many_bytes(children))
        }
        Property::UsedByRefReservation => Ok(many_bytes(unwritten(file_system))),
        Property::Quota => Ok(value_of_limit(file_system.limits().get(Limit::Quota))),
        Property::RefQuota => Ok(value_of_limit(file_system.limits().get(Limit::RefQuota))),
        Property::Reservation => {
            Ok(value_of_limit(file_system.limits().get(Limit::Reservation)))
        }
        Property::RefReservation => {
            Ok(value_of_limit(file_system.limits().get(Limit::RefReservation)))
        }
        Property::Origin => value_of_origin(alloc, table, file_system),
        Property::Guid
        | Property::CreateTxg
        | Property::Clones
        | Property::UserRefs
        | Property::DeferDestroy => Ok(Value::NotApplicable),
    }
}

// How many bytes of blocks the snapshot of this name within a file system has that the snapshot before it, or else the origin, hasn't; none
// where there is no such snapshot (zfsprops(7): written).
fn written_within(file_system: &FileSystem, component: &[u8]) -> Option<Value>
    ensures { result ≡ option_map (λ n. Value.Size (512 * n)) (written_from (blocks file_system.now.below) file_system.now.system.snaps component.now) }
{
    file_system.written_at(component).map(in_bytes)
}

// A property other than `used` of the snapshot of this name within its file system of the table, or none where there is no such snapshot.
// NoMemory only for `clones`, where memory for their names is refused.
fn value_within(
    alloc: Global,
    table: &Table,
    file_system: &FileSystem,
    component: &[u8],
    property: Property,
) -> Result<Option<Value>, Refusal>
    requires { ¬ (property ≡ Property.Used) }
    ensures ok { IfOk result (λ value. value ≡ snapshot_value table.now file_system.now component.now property) }
    ensures err { IfErr result (λ e. (snap_needs_memory property ≡ true) × (e ≡ Refusal.NoMemory)) }
{
    if let Property::Written = property {
        return Ok(written_within(file_system, component));
    }
    let Some(snapshot) = file_system.snapshot_named(component) else {
        return Ok(None);
    };
    let value = match property {
        Property::Used | Property::Written => unreachable!(),
        Property::Referenced => in_bytes(snapshot.tree().node_count()),
        Property::Guid => Value::Number(snapshot.guid().0),
        Property::CreateTxg => Value::Number(snapshot.group().0),
        Property::Clones => Value::Named(clones_text(alloc, table, snapshot.id())?),
        Property::UserRefs => Value::Number(snapshot.tag_count() as u64),
        Property::DeferDestroy => Value::Truth(snapshot.is_deferred()),
        Property::Available
        | Property::UsedByDataset
        | Property::UsedBySnapshots
        | Property::UsedByChildren
        | Property::UsedByRefReservation
        | Property::Quota
        | Property::RefQuota
        | Property::Reservation
        | Property::RefReservation
        | Property::Origin => Value::NotApplicable,
    };
    Ok(Some(value))
}

// A property of the snapshot of this name, or none where there is no such snapshot. NoMemory only where memory is refused for the names of its
// clones, or for the count of what it uses. It costs the logarithm of the number of file systems, and that of the number of its file system's
// snapshots. Beside that `clones` costs what `clones_text` does, and `used` what `used_by_snapshot` does.
fn value_of_snapshot(
    alloc: Global,
    table: &Table,
    member: &Member,
    property: Property,
    segments: &mut SegMeter,
) -> Result<Option<Value>, Refusal>
    ensures ok { IfOk result (λ value. value ≡ value_in table.now member.now property) }
    ensures err { IfErr result (λ e. (snap_needs_memory property ≡ true) × (e ≡ Refusal.NoMemory)) }
    ensures unread { is_used property ≡ false → segments.new ≡ segments.old }
    ensures never_lower { segments.old ≤ segments.new }
{
    if let Property::Used = property {
        return Ok(used_by_snapshot(alloc, table, member, segments)?.map(in_bytes));
    }
    let Some(file_system) = table.find(&member.file_system) else {
        return Ok(None);
    };
    value_within(
        alloc,
        table,
        file_system,
        member.component.as_bytes(),
        property,
    )
}

/// A property of the dataset or bookmark of this name, or none where there is none. `room` is how many blocks are available to it. NoMemory only
/// where memory is refused for the text of a file system's `origin` or of a snapshot's `clones`, or for the count of what a snapshot uses. It costs
/// the logarithm of the number of file systems, and for a snapshot also that of the number of its file system's snapshots. Beside that `origin`
/// costs the number of file systems times the logarithm of that of the snapshots of one; `clones` their names; `used` and `usedbychildren` of a
/// file system the number of file systems, or with a ledger its logarithm; and `used` of a snapshot what `used_by_snapshot` does. Only that last
/// one reads dead lists.
pub fn value_named(
    alloc: Global,
    table: &Table,
    ledger: Option<&Ledger>,
    target: &Target,
    property: Property,
    room: u64,
    segments: &mut SegMeter,
) -> Result<Option<Value>, Refusal>
    requires accounted { IsAccounted table.now (option_copied ledger) }
    requires few { len (union_of (world_of table.now)) < 2 ^ 32 }
    requires small { room < 2 ^ 55 }
    ensures ok { IfOk result (λ value. value ≡ value_named table.now room target.now property) }
    ensures err { IfErr result (λ e. (needs_memory target.now property ≡ true) × (e ≡ Refusal.NoMemory)) }
    ensures unread { reads_lists target.now property ≡ false → segments.new ≡ segments.old }
    ensures never_lower { segments.old ≤ segments.new }
{
    match target {
        Target::FileSystem(name) => match table.find(name) {
            Some(found) => Ok(Some(value_of_live(alloc, table, ledger, found, property, room)?)),
            None => Ok(None),
        },
        Target::Snapshot(name) => {
            value_of_snapshot(alloc, table, name.member(), property, segments)
        }
        Target::Bookmark(name) => {
            Ok(bookmark_named(table, name.member()).map(|mark| value_of_mark(mark, property)))
        }
    }
}

// A property of a bookmark, which keeps its snapshot's guid and creation group (zfsprops(7), zfs-bookmark(8)). Constant time.
#[tactic(auto, unfolding(model::specs::Properties::bookmark_value))]
fn value_of_mark(mark: SnapshotId, property: Property) -> Value
    ensures { result ≡ bookmark_value (bookmark_of mark) property }
{
    match property {
        Property::Guid => Value::Number(mark.guid.0),
        Property::CreateTxg => Value::Number(mark.group.0),
        _ => Value::NotApplicable,
    }
}

/// A number of blocks in bytes, 512 a block.
pub fn in_bytes(blocks: u32) -> Value
    ensures { result ≡ Value.Size (512 * blocks) }
{
    Value::Size(512 * (blocks as u64))
}

// A number of blocks in bytes, 512 a block. The number may be more than a pool has.
fn many_bytes(blocks: u64) -> Value
    requires { blocks < 2 ^ 55 }
    ensures { result ≡ Value.Size (512 * blocks) }
{
    Value::Size(512 * blocks)
}

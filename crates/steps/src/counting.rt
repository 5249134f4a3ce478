//! Properties of datasets and of the pool, and questions on the space of datasets.
ghost use Rattle.std.specs.Prelude.{◌≡◌, ◌<◌, ◌≤◌, ◌^◌};
ghost use Rattle.std.specs.FinSet as set;
ghost use Rattle.model.specs.State.{State};
ghost use Rattle.model.specs.Step.{Step};
ghost use Rattle.model.specs.Sums.{free_of};
ghost use Rattle.model.specs.World.{union_of};
ghost use Rattle.model.specs.declared.request.Request.{Request};
ghost use Rattle.world.specs.Tables.{world_of};
ghost use Rattle.steps.specs.Edits.{datasets_of};
ghost use Rattle.steps.specs.Steady.{IsSteady};
ghost use Rattle.lookups.specs.Accounted.{IsAccounted};
ghost use Rattle.steps.specs.Reached.{HasRead};
ghost use Rattle.steps.specs.Limiting.{IsStateWith};
ghost use Rattle.steps.specs.Counted.{IsCountOf};

use crate::asking::room_asked;
use base::meter::SegMeter;
use base::name::{Component, DsName, SnapName, Target};
use base::refusal::Refusal;
use datasets::Table;
use limits::{Ledger, Space};
use lookups::{in_bytes, value_named};
use model::reply::{Reply, Value};
use model::request::{PoolProperty, Property};
use std::alloc::Global;
use zalloc::Counts;

// Replies with a property of a dataset or a bookmark.
pub(crate) fn get(
    alloc: Global,
    ledger: &Option<Ledger>,
    table: &Table,
    space: Space,
    free: u32,
    target: &Target,
    property: Property,
    segments: &mut SegMeter,
    reply: &mut Reply,
)
    requires own { IsAccounted table.now ledger.now }
    requires few { set.len (union_of (world_of table.now)) < 2 ^ 32 }
    ensures step { (s : State) → IsStateWith s table.now space → free ≡ free_of s → Step s (Request.Get target.now property) reply.new s }
    ensures segments { HasRead table.now (Request.Get target.now property) reply.new segments.old segments.new }
    ensures never_lower { segments.old ≤ segments.new }
{
    let room = room_asked(ledger, table, space, free, target, property);
    let value = value_named(
        alloc,
        table,
        ledger.as_ref(),
        target,
        property,
        room,
        segments,
    );
    match value {
        Ok(Some(value)) => *reply = Reply::Value(value),
        Ok(None) => *reply = Reply::Refused(Refusal::NoDataset),
        Err(refusal) => *reply = Reply::Refused(refusal),
    }
}

// Replies with how many bytes of blocks a dataset has that an older snapshot of its lineage hasn't.
pub(crate) fn written_since(
    table: &Table,
    target: &Target,
    since: &SnapName,
    segments: &mut SegMeter,
    reply: &mut Reply,
)
    ensures step { (s : State) → IsSteady s → datasets_of s ≡ table.now → Step s (Request.WrittenSince target.now since.now) reply.new s }
    ensures segments { HasRead table.now (Request.WrittenSince target.now since.now) reply.new segments.old segments.new }
    ensures never_lower { segments.old ≤ segments.new }
{
    let written = lookups::space::written_since(table, target, since.member(), segments);
    match written {
        Ok(blocks) => *reply = Reply::Value(in_bytes(blocks)),
        Err(refusal) => *reply = Reply::Refused(refusal),
    }
}

// Replies with how many bytes of blocks would be freed with a file system's snapshots from `first` to `last`.
pub(crate) fn would_free(
    table: &Table,
    name: &DsName,
    first: &Component,
    last: &Component,
    segments: &mut SegMeter,
    reply: &mut Reply,
)
    requires few { set.len (union_of (world_of table.now)) < 2 ^ 32 }
    ensures step { (s : State) → IsSteady s → datasets_of s ≡ table.now → Step s (Request.WouldFree name.now first.now last.now) reply.new s }
    ensures segments { HasRead table.now (Request.WouldFree name.now first.now last.now) reply.new segments.old segments.new }
    ensures never_lower { segments.old ≤ segments.new }
{
    let freed = lookups::space::would_free(table, name, first, last, segments);
    match freed {
        Ok(blocks) => *reply = Reply::Value(in_bytes(blocks as u32)),
        Err(refusal) => *reply = Reply::Refused(refusal),
    }
}

// Replies with a property of the pool.
pub(crate) fn pool_get(
    table: &Table,
    space: Space,
    counts: Counts,
    property: PoolProperty,
    reply: &mut Reply,
)
    ensures { (s : State) → IsStateWith s table.now space → IsCountOf s counts → Step s (Request.PoolGet property) reply.new s }
{
    match property {
        PoolProperty::Size => *reply = Reply::Value(in_bytes(space.size)),
        PoolProperty::Allocated => *reply = Reply::Value(in_bytes(counts.allocated)),
        PoolProperty::Free => *reply = Reply::Value(in_bytes(counts.free)),
        PoolProperty::Freeing => *reply = Reply::Value(in_bytes(freeing_in(space))),
        PoolProperty::Waiting => *reply = Reply::Value(in_bytes(counts.waiting)),
        PoolProperty::Group => *reply = Reply::Value(Value::Number(table.group().0)),
    }
}

// How many blocks are to be freed: at most as many as the pool has. Constant time.
fn freeing_in(space: Space) -> u32
    ensures { space.freeing ≤ space.size → result ≡ space.freeing }
{
    space.freeing.min(u64::from(space.size)) as u32
}

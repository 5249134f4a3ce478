//! The reply to a request that only reads.
ghost use Rattle.std.specs.Prelude.{◌≡◌, ◌≤◌, ◌<◌, ◌^◌, None, true, false};
ghost use Rattle.std.specs.FinSet as set;
ghost use Rattle.model.specs.State.{State};
ghost use Rattle.model.specs.Step.{Step};
ghost use Rattle.model.specs.World.{union_of};
ghost use Rattle.model.specs.requests.{rule_of};
ghost use Rattle.world.specs.Tables.{world_of};
ghost use Rattle.lookups.specs.Accounted.{IsAccounted};
ghost use Rattle.steps.specs.Limiting.{IsStateWith};
ghost use Rattle.steps.specs.Counted.{IsCountOf};
ghost use Rattle.steps.specs.Reached.{reaches_nodes, HasRead};

use crate::counting::{get, pool_get, would_free, written_since};
use crate::naming::{holds, list, read};
use crate::sending::send;
use base::meter::{Meter, SegMeter};
use datasets::Table;
use limits::{Ledger, Space};
use model::reply::Reply;
use model::request::Request;
use std::alloc::Global;
use zalloc::Counts;

/// Replaces `reply` with the reply to a request that only reads, as the definition of its step says. The pool has these datasets, `space` beside
/// them, and `counts` blocks in each state. The refusals are those of the request, or NoMemory where it takes memory and that is refused. A read
/// costs the path, and takes no memory. A list and the tags of a snapshot cost the names. A property costs the lookup of the name, and some cost
/// more: `origin` the number of file systems times the logarithm of that of the snapshots of one; `clones` their names; `used` and
/// `usedbychildren` of a file system the number of file systems; and `used` of a snapshot what `lookups::space::used_by_snapshot` does. What was
/// written since a snapshot costs what `lookups::space::written_since` does, and what a range of snapshots would free what
/// `lookups::space::would_free` does; these two visit no block and take no memory. A send costs what `lookups::sources::start_of` and
/// `lookups::stream_bytes` do.
pub fn answer(
    alloc: Global,
    ledger: &Option<Ledger>,
    table: &Table,
    space: Space,
    counts: Counts,
    request: &Request,
    meter: &mut Meter,
    segments: &mut SegMeter,
    reply: &mut Reply,
)
    requires reads { (rule_of request.now None).only_reads ≡ true }
    requires own { IsAccounted table.now ledger.now }
    requires few { set.len (union_of (world_of table.now)) < 2 ^ 32 }
    ensures step { (s : State) → IsStateWith s table.now space → IsCountOf s counts → Step s request.now reply.new s }
    ensures nodes { reaches_nodes request.now ≡ false → meter.new ≡ meter.old }
    ensures never_lower { meter.old ≤ meter.new }
    ensures segments { HasRead table.now request.now reply.new segments.old segments.new }
    ensures segments_never_lower { segments.old ≤ segments.new }
{
    match request {
        Request::Read {
            target,
            object,
            block,
        } => read(table, target, *object, *block, meter, reply),
        Request::Get { target, property } => get(
            alloc,
            ledger,
            table,
            space,
            counts.free,
            target,
            *property,
            segments,
            reply,
        ),
        Request::WrittenSince { target, since } => {
            written_since(table, target, since, segments, reply)
        }
        Request::WouldFree { name, first, last } => {
            would_free(table, name, first, last, segments, reply)
        }
        Request::PoolGet { property } => pool_get(table, space, counts, *property, reply),
        Request::List => list(alloc, table, reply),
        Request::Holds { target } => holds(alloc, table, target, reply),
        Request::Send { target, from } => send(alloc, table, target, from.as_ref(), meter, reply),
        _ => unreachable!(),
    }
}

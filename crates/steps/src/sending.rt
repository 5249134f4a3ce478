//! Sends of snapshots.
ghost use Rattle.std.specs.Option.{option_copied};
ghost use Rattle.std.specs.Prelude.{◌≡◌, ◌≤◌};
ghost use Rattle.model.specs.declared.request.Request.{Request};
ghost use Rattle.model.specs.State.{State};
ghost use Rattle.model.specs.Step.{Step};
ghost use Rattle.steps.specs.Edits.{datasets_of};
ghost use Rattle.steps.specs.Steady.{IsSteady};

use base::meter::Meter;
use base::name::Target;
use base::refusal::Refusal;
use datasets::Table;
use lookups::sources::start_of;
use lookups::stream_bytes;
use model::reply::Reply;
use std::alloc::Global;

// Replies with the stream of a send of the snapshot of this name from this source, or of a full send where there is none; or with the refusal.
// It costs what `lookups::sources::start_of` and `lookups::stream_bytes` do.
pub(crate) fn send(
    alloc: Global,
    table: &Table,
    target: &Target,
    from: Option<&Target>,
    meter: &mut Meter,
    reply: &mut Reply,
)
    ensures step { (s : State) → IsSteady s → datasets_of s ≡ table.now → Step s (Request.Send target.now (option_copied from.entry)) reply.new s }
    ensures never_lower { meter.old ≤ meter.new }
{
    let start = match start_of(table, target, from) {
        Ok(start) => start,
        Err(refusal) => {
            *reply = Reply::Refused(refusal);
            return;
        }
    };
    let Target::Snapshot(name) = target else {
        unreachable!()
    };
    let Some(snapshot) = table.snapshot(name.member()) else {
        unreachable!()
    };
    let sent = stream_bytes(
        alloc,
        snapshot.tree(),
        start.source(),
        start.group,
        snapshot.guid(),
        meter,
    );
    match sent {
        Ok(bytes) => *reply = Reply::Stream(bytes),
        Err(refusal) => *reply = Reply::Refused(refusal),
    }
}

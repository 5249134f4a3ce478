//! What a receive makes of a pool, before anything of the pool is changed (zfs-receive(8)): all that can fail is done here.
ghost use Rattle.std.specs.Prelude.{◌≤◌, IfOk, IfErr};
ghost use Rattle.stream.specs.Spelling.{IsStream};
ghost use Rattle.model.specs.declared.request.Request.{Request};
ghost use Rattle.model.specs.declared.reply.Reply.{Reply};
ghost use Rattle.model.specs.State.{State};
ghost use Rattle.model.specs.Step.{Step};
ghost use Rattle.steps.specs.Intakes.{IsUnread, IsPresent, IsIntakeOf};

use crate::fitting::ask_limits;
use base::failing::Counted;
use base::meter::{Meter, SegMeter};
use base::name::SnapName;
use base::number::Group;
use base::refusal::Refusal;
use datasets::Table;
use model::receiving::Receiving;
use receives::{begin, finish, updates_of};
use removals::WorkingCopy;
use snap::{Freeing, Views};
use std::alloc::Global;
use stream::{Stream, StreamFault, read_stream};
use tree::Draft;
use zalloc::Allocator;

/// The parts of a pool that a receive reads.
#[derive(Clone, Copy)]
pub struct Present<'a> {
    pub table: &'a Table,
    pub freeing: &'a Freeing,
    pub views: &'a Views,
    /// The group that the last sync opened.
    pub synced: Group,
    pub allocator: &'a Allocator,
    /// How many blocks the pool has.
    pub size: u32,
    /// Whether a file system may have a limit.
    pub is_limited: bool,
}

/// What a receive of these bytes as a snapshot of this name makes of a pool (zfs-receive(8)): the datasets, and what is to be freed. The pool
/// stays as it is; once the result is put in place, it has made the receive's step with the reply Done. Before that, the blocks that `draft` then
/// names are to be released, and its numbers to be taken. BadStream where the bytes are no stream; else what `receives::begin` refuses; else
/// the first limit that would be broken with all records applied: Quota, else RefQuota, else NoSpace (zfsprops(7): quota, refquota, reservation;
/// the order is profile); or NoMemory where memory is refused. It costs the bytes, the number of file systems, the chunks of pieces that are to
/// be freed, the change, and what `receives::begin` and `receives::finish` do; where a file system may have a limit, the change is looked at
/// twice, and the check costs the number of file systems times its logarithm.
pub fn intake_of(
    alloc: Global,
    present: Present,
    name: &SnapName,
    bytes: &[u8],
    mode: &Receiving,
    meter: &mut Meter,
    segments: &mut SegMeter,
    draft: &mut Draft,
) -> Result<WorkingCopy, Refusal>
    requires { (s : State) × IsPresent s present }
    ensures ok { (s : State) → IsPresent s present.entry → IfOk result (λ i. IsIntakeOf s name.now bytes.now mode.now i draft.new) }
    ensures err { (s : State) → IsPresent s present.entry → IfErr result (λ e. Step s (Request.Receive name.now bytes.now mode.now) (Reply.Refused e) s) }
    ensures never_lower { meter.old ≤ meter.new }
    ensures segments_never_lower { segments.old ≤ segments.new }
{
    let stream = stream_in(alloc, bytes)?;
    let edit = begin(
        alloc,
        present.table,
        present.freeing,
        present.views,
        name,
        &stream,
        mode,
        segments,
    )?;
    let updates = updates_of(alloc, stream.records())?;
    ask_limits(alloc, present, &edit, name, updates.as_slice(), meter)?;
    let WorkingCopy { mut to, freeing } = edit;
    finish(
        alloc,
        &mut to,
        name,
        stream.target(),
        updates.as_slice(),
        present.synced,
        present.allocator,
        meter,
        segments,
        draft,
    )?;
    Ok(WorkingCopy { to, freeing })
}

// The stream that these bytes spell. BadStream where they spell none; else NoMemory where memory for its records is refused (zfs-receive(8); the
// bytes are profile). It costs their number.
fn stream_in(alloc: Global, bytes: &[u8]) -> Result<Stream, Refusal>
    ensures ok { IfOk result (IsStream bytes.now) }
    ensures err { IfErr result (IsUnread bytes.now) }
{
    match read_stream(alloc, &mut Counted::new(bytes)) {
        Ok(stream) => Ok(stream),
        Err(StreamFault::Bad) => Err(Refusal::BadStream),
        Err(_) => Err(Refusal::NoMemory),
    }
}

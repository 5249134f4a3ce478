//! The stream of a send, as bytes.
ghost use Rattle.std.specs.Prelude.{◌≡◌, ◌≤◌, IfOk, OnErr};
ghost use Rattle.base.specs.declared.refusal.Refusal.{Refusal};
ghost use Rattle.stream.specs.Spelling.{spell, guid_number};
ghost use Rattle.laws.specs.Laws.{sending_of};

use crate::walk::records;
use base::failing::Counted;
use base::meter::Meter;
use base::number::{Group, Guid};
use base::refusal::Refusal;
use base::text::Bytes;
use std::alloc::Global;
use stream::{Stream, write_stream};
use tree::Tree;

/// The stream of a send of the blocks of a tree that were born after the group `since` (zfs-send(8)). It has the guids of its two snapshots,
/// that of the source being none for a full send, and what [`records`] gives. NoMemory where memory is refused. It costs what `records` does,
/// and the bytes; the records and the bytes are in memory at once.
pub fn stream_bytes(
    alloc: Global,
    tree: &Tree,
    source: Option<Guid>,
    since: Group,
    target: Guid,
    meter: &mut Meter,
) -> Result<Bytes, Refusal>
    ensures ok { IfOk result (λ b. b ≡ spell (sending_of (guid_number source) target.0 tree.now since.0)) }
    ensures err { OnErr result (result ≡ Err Refusal.NoMemory) }
    ensures never_lower { meter.old ≤ meter.new }
{
    let stream = Stream::new(source, target, records(alloc, tree, since, meter)?);
    let mut writer = Counted::new(Vec::new(alloc));
    match write_stream(&stream, &mut writer) {
        Ok(()) => Ok(Bytes::from(writer.inner)),
        Err(_) => Err(Refusal::NoMemory),
    }
}

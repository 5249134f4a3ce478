//! The records of a stream as one batch of updates.
ghost use Rattle.std.specs.Prelude.{◌≡◌, IfOk, IfErr};
ghost use Rattle.std.specs.List.{All};
ghost use Rattle.base.specs.declared.refusal.Refusal.{Refusal};
ghost use Rattle.batch.specs.Updates.{IsBatch, changes_of};
ghost use Rattle.stream.specs.Records.{changes_of as changes_of_records};
ghost use Rattle.stream.specs.Spelling.{IsRecord, AreApartFrom};
ghost use Rattle.receives.specs.Updates.{record_of};

use base::refusal::Refusal;
use batch::Update;
use std::alloc::Global;
use stream::Record;

/// What a record that was read does to a live tree, with the bytes of a write lent by the record.
fn update_of(read: &Record) -> Update<'_>
    ensures { record_of result ≡ read.now }
{
    match read {
        Record::Write { leaf, bytes } => Update::Write {
            leaf: *leaf,
            bytes: bytes.as_array(),
        },
        Record::Free(key) => Update::Punch(*key),
    }
}

/// The records of a stream, which are in order and don't overlap, as one batch of updates of a live tree (zfs-receive(8)). A write lends the
/// record's bytes, so each update takes a few words. NoMemory where memory is refused. It costs their number.
pub fn updates_of(alloc: Global, records: &[Record]) -> Result<Vec<Update<'_>>, Refusal>
    requires each { All IsRecord records.now }
    requires apart { AreApartFrom 0 records.now }
    ensures batch { IfOk result (λ us. IsBatch us.items) }
    ensures changes { IfOk result (λ us. changes_of us.items ≡ changes_of_records records.now) }
    ensures err { IfErr result (λ e. e ≡ Refusal.NoMemory) }
{
    let mut updates = Vec::with_capacity(alloc, records.len())?;
    for record in records {
        updates.push(update_of(record))?;
    }
    Ok(updates)
}

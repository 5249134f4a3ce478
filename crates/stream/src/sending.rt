//! The contents of a stream, and why a stream could not be written or read.
ghost use Rattle.std.specs.Prelude.{◌≡◌};
ghost use Rattle.base.specs.Failing.{HasRisen};

use crate::record::Record;
use base::number::Guid;
use std::marker::Model;
use thiserror::Error;

/// A send stream: the guids of its two snapshots, and the records that lead from the one to the other (zfs-send(8)). A full stream has no
/// source. Contracts see the two guids, where the source's is 0 for a full stream, and the list of records.
pub struct Stream {
    source: Guid,
    target: Guid,
    records: Vec<Record>,
}

// Written by hand, so that it is proved once: a derived one is expanded anew in each crate that drops the type.
impl Drop for Stream {
    fn drop(self) {
        let Stream {
            source: _,
            target: _,
            records,
        } = self;
        drop(records);
    }
}

impl Model for Stream {
    ghost use Rattle.stream.specs.Spelling.{Sending};

    ghost Value = { Sending };

    ghost view = { λ s. record { source = s.source.0; target = s.target.0; records = s.records.items } };
}

impl Stream {
    ghost use Rattle.stream.specs.Spelling.{Sending, source_guid, guid_number};

    /// A stream of these records. They are not checked here: the reader refuses a stream that breaks the rules.
    pub fn new(source: Option<Guid>, target: Guid, records: Vec<Record>) -> Stream
        ensures { result ≡ record { source = guid_number source; target = target.0; records = records.items } }
    {
        Stream {
            source: source.unwrap_or(Guid(0)),
            target,
            records,
        }
    }

    /// A stream with guids of these numbers. A source of 0 stands for no source.
    pub(crate) fn of_guids(source: u64, target: u64, records: Vec<Record>) -> Stream
        ensures { result ≡ record { source = source; target = target; records = records.items } }
    {
        Stream {
            source: Guid(source),
            target: Guid(target),
            records,
        }
    }

    /// The guid of the snapshot that the records are applied to, or None for a full stream.
    pub fn source(&self) -> Option<Guid>
        ensures { result ≡ source_guid self.now.source }
    {
        if self.source.0 == 0 {
            None
        } else {
            Some(self.source)
        }
    }

    /// The number of the source's guid, 0 for a full stream.
    pub(crate) fn source_number(&self) -> u64
        ensures { result ≡ self.now.source }
    {
        self.source.0
    }

    /// The guid of the snapshot that was sent.
    pub fn target(&self) -> Guid
        ensures { result.0 ≡ self.now.target }
    {
        self.target
    }

    /// The records, in the order of the leaves that they cover.
    pub fn records(&self) -> &[Record]
        ensures { result.now ≡ self.now.records }
    {
        self.records.as_slice()
    }
}

/// Why a stream could not be written or read.
#[derive(Clone, Copy, PartialEq, Eq, Debug, Error)]
pub enum StreamFault {
    /// The bytes are not those of a stream.
    #[error("no stream")]
    Bad,
    /// There was no memory.
    #[error("no memory")]
    NoMemory,
    /// The reader or writer failed.
    #[error("input or output failed")]
    Device,
}

/// The fault of a call that could not go on: Device where the count of failures rose in it, and else NoMemory.
pub(crate) fn fault_of(before: u64, after: u64) -> StreamFault
    ensures device { result ≡ StreamFault.Device → HasRisen before after }
    ensures memory { result ≡ StreamFault.NoMemory → ¬ HasRisen before after }
    ensures bad { ¬ (result ≡ StreamFault.Bad) }
{
    if before < after || after == u64::MAX {
        StreamFault::Device
    } else {
        StreamFault::NoMemory
    }
}

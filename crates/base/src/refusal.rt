//! Why a request was refused.
ghost use Rattle.std.specs.Prelude.{◌≡◌, ◌↔◌, IsTrue};
ghost use Rattle.base.specs.Refusals.{number_of, name_of};

use std::alloc::{AllocError, AllocFailed};
use std::fmt;

/// Why a request was refused, with its number. Each variant says when it comes, and what helps. A refused request has changed nothing. Where
/// several refusals apply, the reply is the first in the order that the request's own documentation gives (the order is profile).
#[derive(Clone, Copy, PartialEq, Eq, Debug)]
pub enum Refusal {
    /// A word is not a name of the kind that is needed there, or a new whole name would be over 255 bytes (zfs(8); the limit is profile). Give a
    /// name that the readers of module `name` accept; shorten names before a promote or a recursive snapshot.
    BadName = 1,
    /// Nothing has this name, or the request reads blocks of a bookmark, which has no blocks.
    NoDataset = 2,
    /// The name is taken, or a list names one file system twice. A full stream can be received into a new file system only.
    Exists = 3,
    /// The parent of the new file system doesn't exist. Create it first (zfs-create(8), without -p).
    NoParent = 4,
    /// An object's number over 255, or a block's number within its object over 4,095 (profile).
    BadKey = 5,
    /// A write to a snapshot. Write to its file system, or to a clone of it.
    ReadOnly = 6,
    /// The name of a file system or bookmark, where a snapshot's name is needed.
    NotSnapshot = 7,
    /// A snapshot that would be destroyed has a tag or an open view, or a view is open at an abandon. Release the tags and close the views, or
    /// make it a deferred destroy.
    Busy = 8,
    /// A snapshot that would be destroyed has a clone that would stay. Destroy or promote the clone, or make it a deferred destroy.
    HasClones = 9,
    /// A file system that would be destroyed has snapshots, or file systems below it. Destroy it recursively.
    HasChildren = 10,
    /// A rollback past newer snapshots or bookmarks. A recursive rollback destroys them.
    NotNewest = 11,
    /// A promote of a file system that has no origin.
    NotClone = 12,
    /// A promote would move a snapshot to the clone, and the clone already has a snapshot of that name. Destroy one of the two.
    NameClash = 13,
    /// A hold of a snapshot that has the tag already.
    TagExists = 14,
    /// A release of a tag that the snapshot doesn't have.
    NoTag = 15,
    /// A hold, a clone or a view of a snapshot whose destroy is deferred.
    Deferred = 16,
    /// The source of a send, or the snapshot of a `written@`, isn't older in the lineage of the dataset; or a bookmark would belong to another
    /// file system than its snapshot.
    NotAncestor = 17,
    /// A file system or one above it would use more, with its descendants, than its quota.
    Quota = 18,
    /// A live map would have more blocks than its file system's refquota.
    RefQuota = 19,
    /// The pool has too few blocks for all that are used, reserved, to be freed and waiting. A destroy gives space back only after a slice and
    /// then a sync.
    NoSpace = 20,
    /// A limit is reached: of file systems, snapshots, bookmarks, tags, open views or pools (profile).
    TooMany = 21,
    /// The bytes are not a stream: they are cut short or changed, or more bytes follow its end. Nothing was received.
    BadStream = 22,
    /// The newest snapshot of the file system isn't the one that the stream starts from.
    WrongSource = 23,
    /// The file system was written to since its newest snapshot. A forced receive discards those writes.
    Modified = 24,
    /// Memory was refused. Nothing has changed, and the request can be made again.
    NoMemory = 25,
    /// No view of this number is open.
    NoView = 26,
    /// A destroy of the pool's root file system.
    IsRoot = 27,
    /// A line that doesn't have the form of any command (profile).
    BadLine = 28,
    /// A session has made as many calls as it was opened for (profile). Close it, and open another on its pool.
    SessionFull = 29,
    /// A session has given out all of its 64 seats (profile). Share them.
    TooManySeats = 30,
}

impl Refusal {
    /// Its number, from 1 to 30.
    pub fn number(self) -> u8
        ensures { result ≡ number_of self }
    {
        self as u8
    }

    /// Whether the other is the same refusal.
    pub fn same(self, other: Refusal) -> bool
        ensures { IsTrue result ↔ (self ≡ other) }
    {
        self.number() == other.number()
    }

    /// Its name, as printed.
    pub fn name(self) -> &'static str
        ensures { result.now ≡ name_of self }
    {
        match self {
            Refusal::BadName => "BadName",
            Refusal::NoDataset => "NoDataset",
            Refusal::Exists => "Exists",
            Refusal::NoParent => "NoParent",
            Refusal::BadKey => "BadKey",
            Refusal::ReadOnly => "ReadOnly",
            Refusal::NotSnapshot => "NotSnapshot",
            Refusal::Busy => "Busy",
            Refusal::HasClones => "HasClones",
            Refusal::HasChildren => "HasChildren",
            Refusal::NotNewest => "NotNewest",
            Refusal::NotClone => "NotClone",
            Refusal::NameClash => "NameClash",
            Refusal::TagExists => "TagExists",
            Refusal::NoTag => "NoTag",
            Refusal::Deferred => "Deferred",
            Refusal::NotAncestor => "NotAncestor",
            Refusal::Quota => "Quota",
            Refusal::RefQuota => "RefQuota",
            Refusal::NoSpace => "NoSpace",
            Refusal::TooMany => "TooMany",
            Refusal::BadStream => "BadStream",
            Refusal::WrongSource => "WrongSource",
            Refusal::Modified => "Modified",
            Refusal::NoMemory => "NoMemory",
            Refusal::NoView => "NoView",
            Refusal::IsRoot => "IsRoot",
            Refusal::BadLine => "BadLine",
            Refusal::SessionFull => "SessionFull",
            Refusal::TooManySeats => "TooManySeats",
        }
    }
}

impl fmt::Display for Refusal {
    fn fmt<W: fmt::Write>(&self, f: &mut fmt::Formatter<W>) -> fmt::Result {
        write!(f, "{} {}", self.number(), self.name())
    }
}

impl From<AllocError> for Refusal {
    ghost use Rattle.std.specs.Prelude.{◌≡◌};
    ghost use Rattle.base.specs.declared.refusal.Refusal.TheVariants.{NoMemory};

    ghost from_gives = { λ _ r. r ≡ NoMemory };

    fn from(_error: AllocError) -> Refusal {
        Refusal::NoMemory
    }
}

impl<T: Drop> From<AllocFailed<T>> for Refusal {
    ghost use Rattle.std.specs.Prelude.{◌≡◌};
    ghost use Rattle.base.specs.declared.refusal.Refusal.TheVariants.{NoMemory};

    ghost from_gives = { λ _ r. r ≡ NoMemory };

    fn from(_error: AllocFailed<T>) -> Refusal {
        Refusal::NoMemory
    }
}

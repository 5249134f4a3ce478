//! Modes of a receive.
ghost use Rattle.std.specs.Prelude.{◌≡◌, ◌↔◌, IsTrue};

use base::name::SnapName;

/// What the file system of a received snapshot is before the stream's records change it (zfs-receive(8)).
#[derive(Drop, PartialEq, Eq, Debug)]
pub enum Receiving {
    /// A full stream makes a new file system. An incremental one goes into the file system whose newest snapshot is its source, and which hasn't
    /// changed since.
    Plain,
    /// As `Plain`, but a file system that has changed since its newest snapshot is rolled back to it first (-F).
    Back,
    /// As `Back`, but an incremental stream's source may be an older snapshot. The file system is rolled back to it, and newer snapshots and
    /// bookmarks are destroyed (-F).
    Past,
    /// An incremental stream from this snapshot makes a new file system, which is a clone of it (-o origin).
    Origin(SnapName),
    /// A full stream replaces a file system that is there (-F). Its contents, snapshots and bookmarks are destroyed. Its limits and the file
    /// systems below it stay.
    Replace,
}

impl Receiving {
    /// Whether the other is the same.
    pub fn same(&self, other: &Receiving) -> bool
        ensures { IsTrue result ↔ (self.now ≡ other.now) }
    {
        match (self, other) {
            (Receiving::Plain, Receiving::Plain) => true,
            (Receiving::Back, Receiving::Back) => true,
            (Receiving::Past, Receiving::Past) => true,
            (Receiving::Origin(a), Receiving::Origin(b)) => a.same(b),
            (Receiving::Replace, Receiving::Replace) => true,
            _ => false,
        }
    }
}

//! The sources of incremental sends.

use base::name::Member;
use base::number::{Group, Guid};

/// The two parts of a source's name: that of a snapshot or of a bookmark (zfs-send(8), -i). Their total length isn't limited here, as it is in a
/// name that is read.
#[derive(Drop, PartialEq, Eq, Debug)]
pub enum SourceName {
    Snapshot(Member),
    Bookmark(Member),
}

/// A snapshot or a bookmark that a send may start from: its name, its guid and its creation group (zfs-send(8), -i).
#[derive(Drop, PartialEq, Eq, Debug)]
pub struct Source {
    pub name: SourceName,
    pub guid: Guid,
    pub group: Group,
}

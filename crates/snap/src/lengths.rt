//! Names that would be too long under another name of their file system.
ghost use Rattle.std.specs.Prelude.{◌≡◌};
ghost use Rattle.std.specs.List.{list_any};
ghost use Rattle.model.specs.requests.Rollback.{snaps_upto};
ghost use Rattle.world.specs.Worlds.{AreRising};
ghost use Rattle.snapshots.specs.Marks.{name_in};
ghost use Rattle.model.specs.Lengths.{is_long, any_long, has_long};

use base::name::{Component, NAME_LIMIT};
use base::number::Group;
use datasets::FileSystem;
use snapshots::bookmarks::Mark;
use std::sync::Arc;

/// Whether the whole name of a snapshot or a bookmark, as `p/a@s`, has more than 255 bytes where the name of its file system has `length` bytes
/// (zfs(8); the limit is profile). Constant time.
pub(crate) fn is_long(length: usize, component: &Component) -> bool
    ensures { result ≡ is_long length component.now }
{
    length >= NAME_LIMIT || component.as_bytes().len() >= NAME_LIMIT - length
}

/// Whether a snapshot of `owner` of that group or an earlier one would have too long a name under a file system's name of `length` bytes. It costs
/// the number of these snapshots.
pub(crate) fn any_long_upto(owner: &FileSystem, group: Group, length: usize) -> bool
    requires { AreRising 0 owner.now.system.snaps }
    ensures { result ≡ any_long length (snaps_upto owner.now.system group.0) }
{
    for kept in owner.snapshots().iter() {
        if kept.snapshot.group() > group {
            return false;
        }
        if is_long(length, kept.snapshot.name()) {
            return true;
        }
    }
    false
}

// Whether a snapshot of the file system would have too long a name under a file system's name of `length` bytes. It costs their number.
fn any_long_snapshot(file_system: &FileSystem, length: usize) -> bool
    ensures { result ≡ any_long length file_system.now.system.snaps }
{
    for kept in file_system.snapshots().iter() {
        if is_long(length, kept.snapshot.name()) {
            return true;
        }
    }
    false
}

// Whether one of these bookmarks would have too long a name under a file system's name of `length` bytes. It costs their number.
fn any_long_mark(marks: &[Arc<Mark>], length: usize) -> bool
    ensures { result ≡ list_any (λ a. is_long length (name_in a)) marks.now }
{
    marks.iter().any(|mark| is_long(length, &mark.name))
}

/// Whether a name of `length` bytes would be too long for the file system, or lead to too long a name of a snapshot or a bookmark of it. It costs
/// the number of its snapshots and bookmarks.
pub(crate) fn has_long(file_system: &FileSystem, length: usize) -> bool
    ensures { result ≡ has_long length file_system.now.system }
{
    length > NAME_LIMIT
        || any_long_snapshot(file_system, length)
        || any_long_mark(file_system.bookmarks().as_slice(), length)
}

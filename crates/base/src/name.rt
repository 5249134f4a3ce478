//! Names of file systems, snapshots, bookmarks and tags (zfs(8)), and their readers, which accept exactly the names of their kind.

mod checks;
mod member;
mod target;
mod words;

pub use checks::NAME_LIMIT;
pub use member::{MarkName, Member, SnapName};
pub use target::Target;
pub use words::{Component, DsName, Tag};

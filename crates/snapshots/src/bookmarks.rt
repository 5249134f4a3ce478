//! The bookmarks of a file system (zfs-bookmark(8)).

mod list;
mod mark;
mod order;
mod place;

pub use list::{BOOKMARK_LIMIT, Bookmarks};
pub use mark::Mark;

//! Removals from the datasets of a pool: destroys and rollbacks, and what is to be freed after them.
//!
//! Each removal changes the table and what it has to free, and at `Err` both are as they were (zfs-destroy(8), zfs-rollback(8);
//! zpool-features(7): async_destroy). The destroy of one file system whose origin stays, and that of a bookmark, change the table in place: all
//! that can fail comes before the first change. Every other removal works on an edit, which is a copy of both and replaces them at the end.
#![tactic(auto)]

mod bookmark;
mod cloned;
mod close;
mod destroying;
mod emptied;
mod family;
mod found;
mod gone;
mod held;
mod rolling;
mod sweep;
mod working_copy;

pub use bookmark::remove_newer_bookmarks;
pub use close::close_view;
pub use destroying::destroy;
pub use emptied::empty_one;
pub use rolling::{refusal_after, roll_back, rollback};
pub use working_copy::WorkingCopy;

//! Lists whose copies share memory.
//!
//! A list has its elements in chunks of at most 64, and its chunks in groups of at most 64. A copy shares all of them, and a change replaces a
//! few of them by new ones (copy on write). So versions that differ little take little more memory than one.
#![tactic(auto)]

mod around;
mod change;
mod chunk;
mod cut;
pub mod edits;
mod iter;
mod list;
pub mod place;
mod spine;

pub use around::Around;
pub use chunk::Chunk;
pub use iter::Iter;
pub use list::SharedList;
pub use spine::{Spine, SpineIter};

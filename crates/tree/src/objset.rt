//! Objects of a dataset, over its tree of blocks.
//!
//! A dataset has objects 0 to 255, and an object has blocks 0 to 4095 of 512 bytes (profile). Block `i` of object `o` is the leaf
//! `4096 * o + i` of the tree (On-Disk Specification, chapter 3). A block that isn't there is a hole.

mod leaf;
mod reading;
mod updates;

pub use leaf::{BLOCK_LIMIT, OBJECT_LIMIT, leaf_of};
pub use reading::read;
pub use updates::{free_of, punch_of, write_of};

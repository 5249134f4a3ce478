//! The image of a pool: the blocks of its trees as bytes, what a change of a live map writes into it, and where the roots of the datasets are.
//!
//! An image is 512 bytes for each number of the pool, all zero at first. A block of level 0 holds its contents; a block above holds
//! sixteen pointers of 32 bytes (profile, after the block pointers of the On-Disk Specification, chapter 2):
//!
//! | Bytes of a pointer | Meaning |
//! |---|---|
//! | 0 to 7 | number plus 1, big-endian; 0 where there is no block |
//! | 8 to 15 | birth group, big-endian |
//! | 16 to 23 | level of the block pointed to, big-endian |
//! | 24 to 31 | zero |
//!
//! A pointer to no block is 32 zero bytes. A freed block's bytes stay until its number is written again.
//!
//! The bytes are private to the module `image`, where only `write`, `point` and `copy_block` change them. Each changes the bytes of a single
//! number, which must not be protected, as `Image` says. Functions that write more, such as `write_all` and `write_path`, call these.
//!
//! What a change of a live map writes is told as [`Writes`], and [`write_down`] writes it. For one update that is the path to its leaf: where its
//! blocks were before the update ([`ChangedPath::begin`]), and where they are after it ([`writes_after`]). For a change of many leaves it is each
//! new block ([`blocks_in`]). [`roots_of`] lists where each dataset begins, and [`Image::read_tree`] reads a dataset from its root.
#![tactic(auto)]

mod block_bytes;
mod contents;
mod image;
mod laws;
mod many;
mod new_blocks;
mod output;
mod path;
mod roots;
mod walk;
mod writes;

pub use block_bytes::ZEROS;
pub use contents::Contents;
pub use image::Image;
pub use laws::{image_laws, root_laws};
pub use new_blocks::blocks_of;
pub use roots::{DatasetRoot, roots_of};
pub use writes::{ChangedPath, Writes, blocks_in, write_down, writes_after};

//! A pool of blocks with its file systems and snapshots, which answers one request after another.
//!
//! A pool keeps the present world and the one that the last sync left, and the state of each block number. It has file systems
//! with their snapshots, clones and bookmarks, and with quotas and reservations.
//!
//! Beside the worlds it keeps an image: each of their blocks as 512 bytes at its number. At each moment, also within a step, each dataset of the
//! world that the last sync left can be walked in the image from its root.
//!
//! Each request that changes a world has one function. It changes the world in place and returns an effect: what is left to be done outside the
//! world. `apply` passes it the present world, `prepare` a copy, and both settle the effect in the same way.
#![tactic(auto)]

mod ahead;
mod changing;
mod destroying;
mod effect;
mod image_laws;
mod keep;
mod kind;
mod limiting;
mod performing;
mod pool;
mod receiving;
mod snapping;
mod syncing;
mod viewing;
mod worlds;

pub use image::DatasetRoot;
pub use image_laws::pool_image_laws;
pub use pool::{Pool, Ready};
pub use zalloc::MOST_BLOCKS;

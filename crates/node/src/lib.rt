//! The nodes of a tree of blocks: a leaf, or an indirect block with sixteen places for nodes of the level below.
//!
//! A node may have many owners, since versions of a tree share the nodes that they have in common.
#![tactic(auto)]

mod cell;
mod leaf;
mod node;
mod owner;
mod pair;
mod same;

pub use cell::Cell;
pub use leaf::Leaf;
pub use node::{Inner, Level, Root, span, step};
pub use owner::{keep, owner_at, owner_count, owner_in};
pub use pair::{Pair, kid_at, no_kids, place_count, read_counts, replace_kid};
pub use same::{Same, same_kid};

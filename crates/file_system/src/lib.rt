//! One file system: its live tree, its snapshots and its origin, with their dead lists.
#![tactic(auto)]

mod alone;
mod counts;
mod dead;
mod file_system;
mod gone;
mod lost;
mod mark;
mod origin;
mod promote;
mod splice;
mod written;

pub use alone::Alone;
pub use file_system::FileSystem;
pub use lost::Lost;
pub use promote::Lineage;
pub use snapshots::{Kept, Snapshot};

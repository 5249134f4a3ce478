//! Batches of updates, and their drafts: which keys a batch touches, which blocks it releases, and which numbers the new blocks have, before any
//! node is made.
#![tactic(auto)]

mod draft;
mod findings;
mod forecast;
mod numbers;
mod update;
mod way;

pub use draft::{Draft, draft_of};
pub use forecast::{Forecast, forecast_of};
pub use numbers::NewBlock;
pub use update::{Update, Way, Word, is_idle, split_at_leaf, way_of, word_of};

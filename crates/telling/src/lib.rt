//! What programs of rows share: the words of a row, texts of what it tells, script lines by themselves, and pools compared by their blocks.
#![tactic(auto)]

pub mod blocks;
pub mod dropped;
pub mod lines;
pub mod replies;
pub mod told;
pub mod words;

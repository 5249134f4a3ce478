//! Rows on the books of sessions that have ended, and on the pools that they leave. `session_rows` lists them.
#![tactic(auto)]

pub mod ended;
pub mod fresh;
mod left;

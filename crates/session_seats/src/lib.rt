//! The rows of one seat of a session: its calls and batches, its views, and its turns as a worker. `session_rows` lists them.
#![tactic(auto)]

mod calling;
mod gates;
pub mod sitter;
pub mod table;
mod viewing;
mod working;

//! Requests, replies, and the definitions of what each request does to a pool.
#![tactic(auto)]

pub mod destroy_target;
pub mod entry;
pub mod limits;
pub mod names;
pub mod receiving;
pub mod reply;
pub mod request;
pub mod sight;
pub mod snap_names;
pub mod snapshot_id;
pub mod source;

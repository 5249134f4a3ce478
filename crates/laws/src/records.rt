//! The laws of the records of a send: applied to the contents of one map, they give the contents of another.
//!
//! Its functions have no bodies: their contracts are the laws. Other crates cite its `proofs/` too.

mod theorem;

pub use theorem::{dataset_send_laws, receive_laws, send_laws};

//! Pools behind handles, for C: the calls of the C interface with typed answers. `yuzgont_c` exports each of them.
//!
//! Each call of a [`YuzPool`] takes the pool out of the handle, makes one call of a [`host::Host`] and puts the pool back. Its contract is that of
//! the call: the pool has made a step, or is unchanged. On a handle without a pool a call answers NoPool, and the handle stays without one; only
//! `YuzPool::create` makes a pool there, and `YuzPool::free` does nothing. Nothing here waits or takes a lock.
#![tactic(auto)]

mod answer;
mod asking;
mod calls;
mod handle;
pub mod host;
mod pieces;
mod slot;

pub use answer::Answer;
pub use handle::YuzPool;

//! A return to the last sync.
use crate::asking::{ask, is_done, is_full_of, write};
use std::alloc::Global;
use yuzgont::{Pool, Refusal, Reply, Request};

/// Whether an abandon brings back the block of the last sync.
pub fn goes_back(alloc: Global) -> Result<bool, Refusal> {
    let mut pool = Pool::create(alloc, 1, 1000)?;
    let seen = is_back(alloc, &mut pool);
    drop(pool);
    seen
}

fn is_back(alloc: Global, pool: &mut Pool) -> Result<bool, Refusal> {
    let is_synced = is_written(alloc, pool, 97)? && opens(alloc, pool, 2);
    let is_gone = is_written(alloc, pool, 98)? && is_done(alloc, pool, Request::Abandon);
    Ok(is_synced && is_gone && is_full_of(alloc, pool, b"p", 97)?)
}

// Whether a write of blocks full of this byte is done.
fn is_written(alloc: Global, pool: &mut Pool, byte: u8) -> Result<bool, Refusal> {
    let request = write(alloc, 0, 0, byte)?;
    Ok(is_done(alloc, pool, request))
}

// Whether a sync opens this group.
fn opens(alloc: Global, pool: &mut Pool, group: u64) -> bool {
    let reply = ask(alloc, pool, Request::Sync);
    let is_it = reply.same(&Reply::Group(group));
    drop(reply);
    is_it
}

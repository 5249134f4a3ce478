//! A pool with requests.
use crate::asking::{is_done, is_full_of, write};
use std::alloc::Global;
use yuzgont::{Pool, Refusal};

/// Whether a block is read as it was written.
pub fn writes_and_reads(alloc: Global) -> Result<bool, Refusal> {
    let mut pool = Pool::create(alloc, 1, 1000)?;
    let seen = is_read(alloc, &mut pool);
    drop(pool);
    seen
}

fn is_read(alloc: Global, pool: &mut Pool) -> Result<bool, Refusal> {
    let first = write(alloc, 0, 0, 97)?;
    Ok(is_done(alloc, pool, first) && is_full_of(alloc, pool, b"p", 97)?)
}

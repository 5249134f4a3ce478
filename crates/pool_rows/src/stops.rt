//! A step that is stopped after each block that it writes.
use crate::walks::{WorldWalk, walk_of};
use base::refusal::Refusal;
use image::Image;
use model::reply::Reply;
use model::request::Request;
use pool::{DatasetRoot, Pool};
use std::alloc::{AllocError, Global};
use telling::dropped::drop_reply;
use telling::lines::requests_of;

/// A copy of these bytes, in memory of its own.
fn copied(alloc: Global, bytes: &[u8]) -> Result<Vec<u8>, AllocError> {
    let mut copy = Vec::with_capacity(alloc, bytes.len())?;
    copy.extend_from_slice(bytes)?;
    Ok(copy)
}

/// Puts a block where the bytes have another one, and tells whether they had.
fn put(bytes: &mut [u8], at: usize, block: &[u8]) -> bool {
    let Some(end) = at.checked_add(block.len()) else {
        return false;
    };
    if end > bytes.len() || &bytes[at..end] == block {
        return false;
    }
    bytes[at..end].copy_from_slice(block);
    true
}

/// The refusal of a request that is done, if it is refused.
fn refusal_of(alloc: Global, pool: &mut Pool, request: &Request) -> Option<Refusal> {
    let mut reply = Reply::Done;
    pool.apply(alloc, request, &mut reply);
    let refusal = match &reply {
        Reply::Refused(refusal) => Some(*refusal),
        _ => None,
    };
    drop_reply(reply);
    refusal
}

/// Whether these roots walk to the same in an image of these bytes.
fn is_as_before(
    alloc: Global,
    bytes: &[u8],
    roots: &[DatasetRoot],
    before: WorldWalk,
) -> Result<bool, Refusal> {
    let image = Image::from_bytes(copied(alloc, bytes)?)?;
    Ok(walk_of(roots, &image)?.is(before))
}

/// How many blocks stand in `after` and not in an image that was stopped, where after each of them these roots walk to what they did before;
/// None where they don't.
fn written(
    alloc: Global,
    mut stopped: Vec<u8>,
    after: &[u8],
    roots: &[DatasetRoot],
    before: WorldWalk,
) -> Result<Option<u64>, Refusal> {
    stopped.resize(after.len(), 0)?;
    let mut count = 0u64;
    for (number, block) in after.chunks(512).enumerate() {
        if put(&mut stopped, number.saturating_mul(512), block) {
            count = count.saturating_add(1);
            if !is_as_before(alloc, &stopped, roots, before)? {
                return Ok(None);
            }
        }
    }
    Ok(Some(count))
}

/// How many blocks a request writes, where each stop leaves the last synced world as it was.
fn blocks_of(alloc: Global, pool: &mut Pool, request: &Request) -> Result<Option<u64>, Refusal> {
    let roots = pool.roots(alloc, true)?;
    let before = walk_of(&roots, pool.image())?;
    let stopped = copied(alloc, pool.image().bytes())?;
    if let Some(refusal) = refusal_of(alloc, pool, request) {
        return Err(refusal);
    }
    written(alloc, stopped, pool.image().bytes(), &roots, before)
}

/// The same of what a line asks. BadLine where it asks nothing.
pub fn stops(alloc: Global, pool: &mut Pool, line: &str) -> Result<Option<u64>, Refusal> {
    let requests = requests_of(alloc, line)?;
    match requests.as_slice() {
        [request] => blocks_of(alloc, pool, request),
        _ => Err(Refusal::BadLine),
    }
}

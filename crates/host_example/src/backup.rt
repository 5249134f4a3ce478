//! A send from one pool received by another.
use crate::asking::{ask, is_done, is_full_of, snapshot, write};
use std::alloc::Global;
use yuzgont::{Bytes, Pool, Receiving, Refusal, Reply, Request, SnapName, Target};

/// Whether a snapshot of one pool is there in another.
pub fn is_received(alloc: Global) -> Result<bool, Refusal> {
    let mut live = Pool::create(alloc, 1, 1000)?;
    let stream = sent(alloc, &mut live);
    drop(live);
    let bytes = stream?;
    let mut backup = Pool::create(alloc, 2, 1000)?;
    let seen = has_received(alloc, &mut backup, bytes);
    drop(backup);
    seen
}

// The stream of a snapshot of a block.
fn sent(alloc: Global, live: &mut Pool) -> Result<Bytes, Refusal> {
    if !is_taken(alloc, live)? {
        return Err(Refusal::NoSpace);
    }
    let target = Target::read(alloc, b"p@monday")?;
    stream_of(ask(alloc, live, Request::Send { target, from: None }))
}

// Whether a block is written, and a snapshot taken of it.
fn is_taken(alloc: Global, live: &mut Pool) -> Result<bool, Refusal> {
    let first = write(alloc, 0, 0, 97)?;
    if !is_done(alloc, live, first) {
        return Ok(false);
    }
    let monday = snapshot(alloc, b"p@monday")?;
    Ok(is_done(alloc, live, monday))
}

// The stream of a reply.
fn stream_of(reply: Reply) -> Result<Bytes, Refusal> {
    match reply {
        Reply::Stream(bytes) => Ok(bytes),
        Reply::Refused(why) => Err(why),
        other => {
            drop(other);
            Err(Refusal::BadStream)
        }
    }
}

// Whether a stream makes a file system with that block.
fn has_received(alloc: Global, backup: &mut Pool, bytes: Bytes) -> Result<bool, Refusal> {
    let receive = Request::Receive {
        snapshot: SnapName::read(alloc, b"p/copy@monday")?,
        bytes,
        mode: Receiving::Plain,
    };
    Ok(is_done(alloc, backup, receive) && is_full_of(alloc, backup, b"p/copy@monday", 97)?)
}

//! Requests that the examples share.
use std::alloc::Global;
use yuzgont::{Data, Pool, Refusal, Reply, Request, SnapName, SnapNames, Target};

/// The reply to a request.
pub fn ask(alloc: Global, pool: &mut Pool, request: Request) -> Reply {
    let mut reply = Reply::Done;
    pool.apply(alloc, &request, &mut reply);
    drop(request);
    reply
}

/// Whether a request is done.
pub fn is_done(alloc: Global, pool: &mut Pool, request: Request) -> bool {
    let reply = ask(alloc, pool, request);
    let done = reply.same(&Reply::Done);
    drop(reply);
    done
}

/// Whether block 0 of object 0 of a dataset is full of this byte.
pub fn is_full_of(alloc: Global, pool: &mut Pool, name: &[u8], byte: u8) -> Result<bool, Refusal> {
    let target = Target::read(alloc, name)?;
    let read = Request::Read {
        target,
        object: 0,
        block: 0,
    };
    let reply = ask(alloc, pool, read);
    let is_it = reply.same(&Reply::Data(Some([byte; 512])));
    drop(reply);
    Ok(is_it)
}

/// A write to the root, of a block full of this byte.
pub fn write(alloc: Global, object: u32, block: u32, byte: u8) -> Result<Request, Refusal> {
    Ok(Request::Write {
        target: Target::read(alloc, b"p")?,
        object,
        block,
        bytes: Data::new(alloc, &[byte; 512])?,
    })
}

/// A snapshot of this name.
pub fn snapshot(alloc: Global, name: &[u8]) -> Result<Request, Refusal> {
    let name = SnapName::read(alloc, name)?;
    Ok(Request::Snapshot {
        names: SnapNames::from(vec![in alloc; name]?),
        recursive: false,
    })
}

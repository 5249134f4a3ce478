//! Receives in each mode. A script's lines have two of them.
use base::name::SnapName;
use base::refusal::Refusal;
use base::text::Bytes;
use model::receiving::Receiving;
use model::reply::Reply;
use model::request::Request;
use pool::Pool;
use std::alloc::{AllocError, Global};
use telling::dropped::{drop_reply, drop_request};
use telling::replies::tell_reply;
use telling::told::tell_refusal;
use telling::words::parted;

/// The mode of a word. The name of a snapshot is that of an origin.
fn mode_of(alloc: Global, word: &str) -> Result<Receiving, Refusal> {
    match word {
        "plain" => Ok(Receiving::Plain),
        "back" => Ok(Receiving::Back),
        "past" => Ok(Receiving::Past),
        "replace" => Ok(Receiving::Replace),
        _ => Ok(Receiving::Origin(SnapName::read(alloc, word.as_bytes())?)),
    }
}

/// The bytes that hexadecimal digits say.
fn bytes_of(alloc: Global, digits: &str) -> Result<Bytes, Refusal> {
    match hex::decode(alloc, digits.as_bytes()) {
        Ok(bytes) => Ok(Bytes::from(bytes)),
        Err(_) => Err(Refusal::NoMemory),
    }
}

/// The receive of `MODE SNAP HEX`.
fn request_of(alloc: Global, words: &str) -> Result<Request, Refusal> {
    let (mode, rest) = parted(words);
    let (snapshot, digits) = parted(rest);
    let mode = mode_of(alloc, mode)?;
    let snapshot = SnapName::read(alloc, snapshot.as_bytes())?;
    let bytes = bytes_of(alloc, digits)?;
    Ok(Request::Receive {
        snapshot,
        bytes,
        mode,
    })
}

/// Receives what the words say, and tells the reply.
pub fn take(
    alloc: Global,
    pool: &mut Pool,
    words: &str,
    told: &mut Vec<u8>,
) -> Result<(), AllocError> {
    match request_of(alloc, words) {
        Ok(request) => {
            let mut reply = Reply::Done;
            pool.apply(alloc, &request, &mut reply);
            drop_request(request);
            let outcome = tell_reply(alloc, &reply, told);
            drop_reply(reply);
            outcome
        }
        Err(refusal) => tell_refusal(alloc, told, refusal),
    }
}

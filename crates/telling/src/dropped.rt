//! Requests and replies that are let go. What lets go of one in its own body is proved with all its kinds laid out there, which takes long: so it
//! is done here, once.
use model::reply::Reply;
use model::request::Request;
use std::mem;

pub fn drop_request(request: Request) {
    drop(request);
}

pub fn drop_reply(reply: Reply) {
    drop(reply);
}

/// Puts a reply in the place of another.
pub fn put_reply(place: &mut Reply, reply: Reply) {
    drop_reply(mem::replace(place, reply));
}

//! Script lines: what a caller replies, and what they ask.
use crate::dropped::drop_request;
use model::reply::Reply;
use model::request::Request;
use script::run::{Caller, answer_line};
use script::spare::SpareTarget;
use std::alloc::{AllocError, Global};

/// Keeps the requests that it is asked.
struct Collector {
    requests: Vec<Request>,
}

/// Adds a request; whether there was memory for it. `push` would hand a request back, and its proof takes two minutes.
fn keep(requests: &mut Vec<Request>, request: Request) -> bool {
    if requests.reserve(1).is_err() {
        drop_request(request);
        return false;
    }
    requests.push_reserved(request);
    true
}

impl Caller for Collector {
    ghost asks = { λ _ _ _ _. Unit {0} };

    fn ask(&mut self, request: Request, _reply: &mut Reply, _spare: &mut SpareTarget) -> bool {
        keep(&mut self.requests, request)
    }
}

/// Asks a line of a caller, and tells its reply.
pub fn ask<C: Caller>(
    alloc: Global,
    caller: &mut C,
    line: &str,
    told: &mut Vec<u8>,
) -> Result<(), AllocError> {
    let mut reply = Vec::new(alloc);
    if answer_line(alloc, caller, line.as_bytes(), &mut reply).is_err() {
        return Err(AllocError);
    }
    let _line_feed = reply.pop();
    told.extend_from_slice(&reply)
}

/// Asks a line of a caller that tells its reply itself.
pub fn ask_silently<C: Caller>(
    alloc: Global,
    caller: &mut C,
    line: &str,
) -> Result<(), AllocError> {
    let mut reply = Vec::new(alloc);
    match answer_line(alloc, caller, line.as_bytes(), &mut reply) {
        Ok(_) => Ok(()),
        Err(_) => Err(AllocError),
    }
}

fn collect(alloc: Global, collector: &mut Collector, lines: &str) -> Result<(), AllocError> {
    for line in lines.split("; ") {
        ask_silently(alloc, collector, line)?;
    }
    Ok(())
}

/// What the lines between semicolons ask, without those that ask nothing.
pub fn requests_of(alloc: Global, lines: &str) -> Result<Vec<Request>, AllocError> {
    let mut collector = Collector {
        requests: Vec::new(alloc),
    };
    let outcome = collect(alloc, &mut collector, lines);
    let Collector { requests } = collector;
    match outcome {
        Ok(()) => Ok(requests),
        Err(why) => {
            drop(requests);
            Err(why)
        }
    }
}

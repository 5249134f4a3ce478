//! Script lines, asked of a pool in one of its ways.
use crate::destroys::destroy_of;
use crate::renames::{rename_of, snapshot_rename_of};
use base::refusal::Refusal;
use model::reply::Reply;
use model::request::Request;
use pool::Pool;
use script::run::Caller;
use script::spare::SpareTarget;
use std::alloc::{AllocError, Global};
use telling::dropped::{drop_reply, drop_request, put_reply};
use telling::lines::{ask, requests_of};
use telling::replies::tell_reply;
use telling::told::{tell, tell_refusal};
use telling::words::parted;

/// How a request is answered.
#[derive(Clone, Copy)]
pub enum Way {
    /// By `apply`.
    AtOnce,
    /// By `prepare`, which is left, and then by `prepare` and `commit`.
    InTwo,
    /// By `prepare`, which is left.
    Left,
}

/// A pool, and how it is asked.
pub struct AskedPool {
    alloc: Global,
    pub pool: Pool,
    way: Way,
}

// Written by hand, so that it is proved once: a derived `Drop` is laid out wherever a value goes out of scope.
impl Drop for AskedPool {
    fn drop(self) {
        let AskedPool {
            alloc: _,
            pool,
            way: _,
        } = self;
        drop(pool);
    }
}

impl Caller for AskedPool {
    ghost asks = { λ _ _ _ _. Unit {0} };

    fn ask(&mut self, request: Request, reply: &mut Reply, _spare: &mut SpareTarget) -> bool {
        match self.way {
            Way::AtOnce => self.pool.apply(self.alloc, &request, reply),
            Way::InTwo => in_two(self.alloc, &mut self.pool, &request, reply),
            Way::Left => left(self.alloc, &mut self.pool, &request, reply),
        }
        drop_request(request);
        true
    }
}

/// Prepares a request and leaves it. The reply is the one that was prepared.
fn left(alloc: Global, pool: &mut Pool, request: &Request, reply: &mut Reply) {
    let (prepared, ready) = pool.prepare(alloc, request);
    drop(ready);
    put_reply(reply, prepared);
}

/// Prepares a request and leaves it, and then prepares it again and does it.
fn in_two(alloc: Global, pool: &mut Pool, request: &Request, reply: &mut Reply) {
    left(alloc, pool, request, reply);
    let (prepared, ready) = pool.prepare(alloc, request);
    pool.commit(ready);
    put_reply(reply, prepared);
}

impl AskedPool {
    pub fn new(alloc: Global, pool: Pool) -> AskedPool {
        AskedPool {
            alloc,
            pool,
            way: Way::AtOnce,
        }
    }

    /// Asks a line in a way, and tells its reply. A line that begins with `destroys` is a destroy of several snapshots, and one that begins with
    /// `rename` or `rename_snapshot` is a rename of a file system or of a snapshot.
    pub fn ask_line(&mut self, way: Way, line: &str, told: &mut Vec<u8>) -> Result<(), AllocError> {
        self.way = way;
        let (word, words) = parted(line);
        match word {
            "destroys" => self.ask_request(destroy_of(self.alloc, words), told),
            "rename" => self.ask_request(rename_of(self.alloc, words), told),
            "rename_snapshot" => self.ask_request(snapshot_rename_of(self.alloc, words), told),
            _ => ask(self.alloc, self, line, told),
        }
    }

    /// Asks a request, and tells its reply, or why the words of a row say none.
    fn ask_request(
        &mut self,
        request: Result<Request, Refusal>,
        told: &mut Vec<u8>,
    ) -> Result<(), AllocError> {
        match request {
            Ok(request) => {
                let mut reply = Reply::Done;
                self.ask(request, &mut reply, &mut SpareTarget::default());
                let outcome = tell_reply(self.alloc, &reply, told);
                drop_reply(reply);
                outcome
            }
            Err(refusal) => tell_refusal(self.alloc, told, refusal),
        }
    }

    /// Runs the lines between semicolons as a list, and tells the replies.
    pub fn run_list(&mut self, lines: &str, told: &mut Vec<u8>) -> Result<(), AllocError> {
        let requests = requests_of(self.alloc, lines)?;
        let replies = self.pool.run(self.alloc, &requests);
        drop(requests);
        match replies {
            Ok(replies) => tell_replies(self.alloc, &replies, told),
            Err(refusal) => tell_refusal(self.alloc, told, refusal),
        }
    }
}

fn tell_replies(alloc: Global, replies: &[Reply], told: &mut Vec<u8>) -> Result<(), AllocError> {
    let mut between = "";
    for reply in replies {
        tell(told, between)?;
        tell_reply(alloc, reply, told)?;
        between = "; ";
    }
    Ok(())
}

/// Whether two lines between semicolons ask the same; None where there aren't two that ask.
pub fn are_same(alloc: Global, lines: &str) -> Result<Option<bool>, AllocError> {
    let requests = requests_of(alloc, lines)?;
    Ok(match requests.as_slice() {
        [one, other] => Some(one.same(other)),
        _ => None,
    })
}

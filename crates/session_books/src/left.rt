//! Rows on the pool and the history that a book has left.
use model::entry::{Entry, KeptReply};
use model::reply::Reply;
use model::request::Request;
use script::run::Caller;
use script::spare::SpareTarget;
use session::{Closed, Pool};
use std::alloc::{AllocError, Global};
use std::sync::Arc;
use telling::blocks::are_alike;
use telling::dropped::{drop_reply, drop_request};
use telling::lines::{ask, ask_silently};
use telling::replies::{lacks_memory, tell_kept};
use telling::told::{tell, tell_number, tell_refusal, tell_whether};
use telling::words::placed;

/// A pool that is asked.
#[derive(Drop)]
struct PoolCaller<'p> {
    alloc: Global,
    pool: &'p mut Pool,
}

impl Caller for PoolCaller<'_> {
    ghost asks = { λ _ _ _ _. Unit {0} };

    fn ask(&mut self, request: Request, reply: &mut Reply, _spare: &mut SpareTarget) -> bool {
        self.pool.apply(self.alloc, &request, reply);
        drop_request(request);
        true
    }
}

/// Looks whether an entry's request is the one that is asked.
#[derive(Drop)]
struct Comparer<'e> {
    entry: &'e Entry,
    is_same: bool,
}

impl Caller for Comparer<'_> {
    ghost asks = { λ _ _ _ _. Unit {0} };

    fn ask(&mut self, request: Request, _reply: &mut Reply, _spare: &mut SpareTarget) -> bool {
        self.is_same = self.entry.request.same(&request);
        drop_request(request);
        true
    }
}

/// What the pool replies to a line.
pub fn apply(
    alloc: Global,
    pool: &mut Pool,
    line: &str,
    told: &mut Vec<u8>,
) -> Result<(), AllocError> {
    ask(alloc, &mut PoolCaller { alloc, pool }, line, told)
}

/// The reply that stands in the entry of `NUMBER LINE`, where its request is what the line asks.
pub fn entry(
    alloc: Global,
    history: &[Arc<Entry>],
    rest: &str,
    told: &mut Vec<u8>,
) -> Result<(), AllocError> {
    let (place, line) = placed(rest);
    let Some(entry) = history.get(place) else {
        return tell(told, "none");
    };
    let mut comparer = Comparer {
        entry,
        is_same: false,
    };
    ask_silently(alloc, &mut comparer, line)?;
    if comparer.is_same {
        tell_kept(alloc, &entry.reply, told)
    } else {
        tell(told, "other")
    }
}

/// The seat and the reply of each entry, with `; ` behind it.
pub fn history(
    alloc: Global,
    history: &[Arc<Entry>],
    told: &mut Vec<u8>,
) -> Result<(), AllocError> {
    for entry in history {
        tell_number(alloc, told, u64::from(entry.seat))?;
        tell(told, " ")?;
        tell_kept(alloc, &entry.reply, told)?;
        tell(told, "; ")?;
    }
    Ok(())
}

fn is_want_of_memory(reply: &KeptReply) -> bool {
    match reply.other() {
        Some(reply) => lacks_memory(reply),
        None => false,
    }
}

/// Whether a pool replies to an entry's request as there. It is asked again where memory was refused to it, and not asked where the entry's reply
/// is want of memory.
fn is_answered(alloc: Global, pool: &mut Pool, entry: &Entry) -> bool {
    if is_want_of_memory(&entry.reply) {
        return true;
    }
    let mut reply = Reply::Done;
    pool.apply(alloc, &entry.request, &mut reply);
    if lacks_memory(&reply) {
        pool.apply(alloc, &entry.request, &mut reply);
    }
    let is_same = entry.reply.is(&reply);
    drop_reply(reply);
    is_same
}

fn is_replayed(alloc: Global, pool: &mut Pool, history: &[Arc<Entry>]) -> bool {
    for entry in history {
        if !is_answered(alloc, pool, entry) {
            return false;
        }
    }
    true
}

/// Whether a fresh pool that is asked the whole history gives the same replies; and whether it comes to the same blocks.
pub fn replay(
    alloc: Global,
    blocks: u32,
    closed: &Closed,
    told: &mut Vec<u8>,
) -> Result<(), AllocError> {
    let Ok(mut pool) = Pool::create(alloc, 1, blocks) else {
        return Err(AllocError);
    };
    let is_same = is_replayed(alloc, &mut pool, &closed.history);
    let alike = are_alike(alloc, &pool, &closed.pool);
    drop(pool);
    tell_whether(told, is_same)?;
    tell(told, " ")?;
    match alike {
        Ok(is_so) => tell_whether(told, is_so),
        Err(refusal) => tell_refusal(alloc, told, refusal),
    }
}

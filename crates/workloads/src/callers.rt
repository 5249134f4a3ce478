//! Callers of a session.
ghost use Rattle.std.specs.Prelude.{◌≡◌};

use crate::batches::batched;
use crate::writes::write_of;
use base::refusal::Refusal;
use model::reply::Reply;
use session::{Opening, Pool, Seat, Session};
use std::alloc::Global;
use std::mem;
use std::sync::Wait;
use std::thread::{Threads, join};

/// Who calls a session.
#[derive(Clone, Copy)]
pub enum Callers {
    /// One, each write a call.
    One,
    /// Four in threads of their own, each write a call.
    Four,
    /// Four in threads of their own, sixteen writes a batch.
    FourBatched,
}

/// How many of so many writes a session has done. The session isn't taken apart, since the program ends.
pub fn called<K: Opening + Send + Sync, R: Threads + Wait + Sync>(
    rt: &R,
    alloc: Global,
    pool: Pool,
    calls: u32,
    callers: Callers,
) -> Result<u32, Refusal>
    requires opening { pool.state ≡ K.opening }
    requires limit { calls ≡ K.limit }
{
    let session: Session<K> = match Session::open(alloc, pool, u64::from(calls)) {
        Ok(session) => session,
        Err((refusal, pool)) => {
            drop(pool);
            return Err(refusal);
        }
    };
    let done = match callers {
        Callers::One => by_one(rt, alloc, &session, 0, 1, calls),
        Callers::Four => by_four(rt, alloc, &session, calls, false),
        Callers::FourBatched => by_four(rt, alloc, &session, calls, true),
    };
    mem::forget(session);
    done
}

/// Four callers, each of every fourth write.
fn by_four<K: Opening + Send + Sync, R: Threads + Wait + Sync>(
    rt: &R,
    alloc: Global,
    session: &Session<K>,
    calls: u32,
    in_batches: bool,
) -> Result<u32, Refusal> {
    let (low, high) = join(
        rt,
        || by_two(rt, alloc, session, 0, calls, in_batches),
        || by_two(rt, alloc, session, 2, calls, in_batches),
    );
    Ok(low?.saturating_add(high?))
}

fn by_two<K: Opening + Send + Sync, R: Threads + Wait + Sync>(
    rt: &R,
    alloc: Global,
    session: &Session<K>,
    first: u32,
    calls: u32,
    in_batches: bool,
) -> Result<u32, Refusal> {
    let next = first.saturating_add(1);
    let (one, other) = join(
        rt,
        || one_of_four(rt, alloc, session, first, calls, in_batches),
        || one_of_four(rt, alloc, session, next, calls, in_batches),
    );
    Ok(one?.saturating_add(other?))
}

fn one_of_four<K: Opening, R: Wait>(
    rt: &R,
    alloc: Global,
    session: &Session<K>,
    first: u32,
    calls: u32,
    in_batches: bool,
) -> Result<u32, Refusal> {
    if in_batches {
        batched(rt, alloc, session, first, 4, calls)
    } else {
        by_one(rt, alloc, session, first, 4, calls)
    }
}

/// A caller, of every `step`th write from one on.
fn by_one<K: Opening, R: Wait>(
    rt: &R,
    alloc: Global,
    session: &Session<K>,
    first: u32,
    step: u32,
    calls: u32,
) -> Result<u32, Refusal> {
    let mut seat = session.seat(alloc, rt)?;
    let mut done: u32 = 0;
    let mut number = first;
    for _ in 0..calls {
        if number >= calls {
            break;
        }
        if is_written(rt, alloc, session, &mut seat, number)? {
            done = done.saturating_add(1);
        }
        number = number.saturating_add(step);
    }
    mem::forget(seat);
    Ok(done)
}

fn is_written<K: Opening, R: Wait>(
    rt: &R,
    alloc: Global,
    session: &Session<K>,
    seat: &mut Seat<K>,
    number: u32,
) -> Result<bool, Refusal> {
    let request = write_of(alloc, number)?;
    let receipt = session.call(alloc, rt, seat, request)?;
    let done = receipt.entry.reply.is(&Reply::Done);
    drop(receipt);
    Ok(done)
}

//! Callers of a session, in batches.
use crate::writes::write_of;
use base::refusal::Refusal;
use model::reply::Reply;
use model::request::Request;
use session::{Opening, Receipt, Seat, Session, Turns};
use std::alloc::Global;
use std::mem;
use std::sync::Wait;

/// How many writes a batch has, but for the last one.
const BATCH: u32 = 16;

/// A caller, of every `step`th write from one on, sixteen a batch.
pub fn batched<K: Opening, R: Wait>(
    rt: &R,
    alloc: Global,
    session: &Session<K>,
    first: u32,
    step: u32,
    calls: u32,
) -> Result<u32, Refusal> {
    let mut seat = session.seat(alloc, rt)?;
    let done = by_batches(rt, alloc, session, &mut seat, first, step, calls);
    mem::forget(seat);
    done
}

/// The same with a seat.
fn by_batches<K: Opening, R: Wait>(
    rt: &R,
    alloc: Global,
    session: &Session<K>,
    seat: &mut Seat<K>,
    first: u32,
    step: u32,
    calls: u32,
) -> Result<u32, Refusal> {
    let mut done: u32 = 0;
    let mut number = first;
    for _ in 0..calls {
        if number >= calls {
            break;
        }
        let writes = writes_from(alloc, number, step, calls)?;
        done = done.saturating_add(done_of(rt, alloc, session, seat, writes)?);
        number = number.saturating_add(step.saturating_mul(BATCH));
    }
    Ok(done)
}

/// Every `step`th write from one on, sixteen or as many as are left.
fn writes_from(alloc: Global, first: u32, step: u32, calls: u32) -> Result<Vec<Request>, Refusal> {
    let mut writes = Vec::with_capacity(alloc, BATCH as usize)?;
    let mut number = first;
    for _ in 0..BATCH {
        if number >= calls {
            break;
        }
        add(alloc, &mut writes, number)?;
        number = number.saturating_add(step);
    }
    Ok(writes)
}

/// Adds the write with this number.
fn add(alloc: Global, writes: &mut Vec<Request>, number: u32) -> Result<(), Refusal> {
    writes.reserve(1)?;
    writes.push_reserved(write_of(alloc, number)?);
    Ok(())
}

/// How many of these writes were done.
fn done_of<K: Opening, R: Wait>(
    rt: &R,
    alloc: Global,
    session: &Session<K>,
    seat: &mut Seat<K>,
    writes: Vec<Request>,
) -> Result<u32, Refusal> {
    let mut gate = Turns::new(writes.len() as u64);
    let receipts: Vec<Receipt> = session.batch(alloc, rt, seat, writes, &mut gate)?;
    let done = count_of(&receipts);
    drop(receipts);
    Ok(done)
}

/// How many of these calls were answered that they are done.
fn count_of(receipts: &[Receipt]) -> u32 {
    let mut done: u32 = 0;
    for receipt in receipts {
        if receipt.entry.reply.is(&Reply::Done) {
            done = done.saturating_add(1);
        }
    }
    done
}

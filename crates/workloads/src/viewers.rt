//! Readers of a view, alone and beside a writer.
ghost use Rattle.std.specs.Prelude.{◌≡◌};
ghost use Rattle.session.specs.declared.book.book.TheConstants.{CALL_LIMIT};

use crate::writes::{place_of, write_of};
use base::name::{SnapName, Target};
use base::refusal::Refusal;
use model::request::Request;
use model::snap_names::SnapNames;
use session::{CALL_LIMIT, OpenedView, Opening, Pool, Seat, Session, View};
use std::alloc::Global;
use std::mem;
use std::sync::Wait;
use std::sync::atomic::{AtomicBool, Ordering};
use std::thread::{Threads, join};

/// How many blocks are written before the snapshot.
const WRITTEN: u32 = 100_000;

/// How many blocks the writer writes at most.
const WRITES: u32 = 800_000;

/// How many of so many reads four threads have done together, through one view of a snapshot of 100,000 leaves; beside a writer that
/// goes on as long as they read, or alone.
pub fn viewed<K: Opening + Send + Sync, R: Threads + Wait + Sync>(
    rt: &R,
    alloc: Global,
    pool: Pool,
    reads: u32,
    beside: bool,
) -> Result<u32, Refusal>
    requires opening { pool.state ≡ K.opening }
    requires limit { CALL_LIMIT ≡ K.limit }
{
    let session: Session<K> = match Session::open(alloc, pool, CALL_LIMIT) {
        Ok(session) => session,
        Err((refusal, pool)) => {
            drop(pool);
            return Err(refusal);
        }
    };
    let mut seat = session.seat(alloc, rt)?;
    let done = by_view(rt, alloc, &session, &mut seat, reads, beside);
    mem::forget(seat);
    mem::forget(session);
    done
}

fn by_view<K: Opening + Send + Sync, R: Threads + Wait + Sync>(
    rt: &R,
    alloc: Global,
    session: &Session<K>,
    seat: &mut Seat<K>,
    reads: u32,
    beside: bool,
) -> Result<u32, Refusal> {
    writes(rt, alloc, session, seat, WRITTEN, &AtomicBool::new(false))?;
    let view = view_of(rt, alloc, session, seat)?;
    let done = if beside {
        beside_a_writer(rt, alloc, session, &view, reads)
    } else {
        Ok(by_four(rt, &view, reads))
    };
    mem::forget(view);
    done
}

fn beside_a_writer<K: Opening + Send + Sync, R: Threads + Wait + Sync>(
    rt: &R,
    alloc: Global,
    session: &Session<K>,
    view: &View<K>,
    reads: u32,
) -> Result<u32, Refusal> {
    let ended = AtomicBool::new(false);
    let ended = &ended;
    let (done, wrote) = join(
        rt,
        || reads_and_ends(rt, view, reads, ended),
        || writes_beside(rt, alloc, session, ended),
    );
    wrote?;
    Ok(done)
}

fn reads_and_ends<K: Opening + Send + Sync, R: Threads + Wait + Sync>(
    rt: &R,
    view: &View<K>,
    reads: u32,
    ended: &AtomicBool,
) -> u32 {
    let done = by_four(rt, view, reads);
    ended.store(true, Ordering::SeqCst);
    done
}

/// Writes by a seat of its own, until the flag is set.
fn writes_beside<K: Opening, R: Wait>(
    rt: &R,
    alloc: Global,
    session: &Session<K>,
    ended: &AtomicBool,
) -> Result<(), Refusal> {
    let mut seat = session.seat(alloc, rt)?;
    let wrote = writes(rt, alloc, session, &mut seat, WRITES, ended);
    mem::forget(seat);
    wrote
}

/// So many writes, until the flag is set.
fn writes<K: Opening, R: Wait>(
    rt: &R,
    alloc: Global,
    session: &Session<K>,
    seat: &mut Seat<K>,
    count: u32,
    ended: &AtomicBool,
) -> Result<(), Refusal> {
    for number in 0..count {
        if ended.load(Ordering::SeqCst) {
            break;
        }
        let request = write_of(alloc, number)?;
        let receipt = session.call(alloc, rt, seat, request)?;
        drop(receipt);
    }
    Ok(())
}

/// A view of a snapshot that is taken now. NoView where the pool refuses it.
fn view_of<K: Opening, R: Wait>(
    rt: &R,
    alloc: Global,
    session: &Session<K>,
    seat: &mut Seat<K>,
) -> Result<View<K>, Refusal> {
    let taken = snapshot(alloc)?;
    let receipt = session.call(alloc, rt, seat, taken)?;
    drop(receipt);
    let target = Target::read(alloc, b"p@s")?;
    opened(session.open_view(alloc, rt, seat, target)?)
}

/// A snapshot of the root.
fn snapshot(alloc: Global) -> Result<Request, Refusal> {
    let name = SnapName::read(alloc, b"p@s")?;
    Ok(Request::Snapshot {
        names: SnapNames::from(vec![in alloc; name]?),
        recursive: false,
    })
}

/// The view, or NoView where the pool refused it.
fn opened<K: Opening>(outcome: OpenedView<K>) -> Result<View<K>, Refusal> {
    match outcome {
        OpenedView::Opened(view, receipt) => {
            drop(receipt);
            Ok(view)
        }
        OpenedView::Refused(receipt) => {
            drop(receipt);
            Err(Refusal::NoView)
        }
    }
}

/// Four readers, each of every fourth read.
fn by_four<K: Opening + Send + Sync, R: Threads + Wait + Sync>(
    rt: &R,
    view: &View<K>,
    reads: u32,
) -> u32 {
    let (low, high) = join(
        rt,
        || by_two(rt, view, 0, reads),
        || by_two(rt, view, 2, reads),
    );
    low.saturating_add(high)
}

fn by_two<K: Opening + Send + Sync, R: Threads + Wait + Sync>(
    rt: &R,
    view: &View<K>,
    first: u32,
    reads: u32,
) -> u32 {
    let next = first.saturating_add(1);
    let (one, other) = join(
        rt,
        || by_one(view, first, reads),
        || by_one(view, next, reads),
    );
    one.saturating_add(other)
}

/// How many of every fourth of so many reads find a block, from one on.
fn by_one<K: Opening>(view: &View<K>, first: u32, reads: u32) -> u32 {
    let mut done: u32 = 0;
    let mut number = first;
    for _ in 0..reads {
        if number >= reads {
            break;
        }
        let (object, block) = place_of(number % WRITTEN);
        if let Ok(Some(_)) = view.read(object, block) {
            done = done.saturating_add(1);
        }
        number = number.saturating_add(4);
    }
    done
}

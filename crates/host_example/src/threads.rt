//! A session with four threads, and a view read beside writers.
ghost use Rattle.std.specs.Prelude.{◌≡◌};

use crate::asking::{snapshot, write};
use std::alloc::Global;
use std::sync::Wait;
use std::thread::{Threads, join};
use yuzgont::{
    Book, ClosedView, OpenedView, Opening, Pool, Refusal, Request, Seat, Session, Target, View,
};

/// How many calls the session takes.
pub const CALLS: u64 = 1_000;

/// How many blocks a writer writes.
const WRITES: u32 = 100;

/// How many calls the history of a session has that three writers and a reader shared; Busy where the reader saw what was written beside it.
pub fn four_threads<K: Opening + Send + Sync, R: Threads + Wait + Sync>(
    rt: &R,
    alloc: Global,
    pool: Pool,
) -> Result<u64, Refusal>
    requires opening { pool.state ≡ K.opening }
    requires limit { CALLS ≡ K.limit }
{
    let session: Session<K> = match Session::open(alloc, pool, CALLS) {
        Ok(session) => session,
        Err((refusal, pool)) => {
            drop(pool);
            return Err(refusal);
        }
    };
    let outcome = seats_of(rt, alloc, &session);
    let book = session.end();
    match outcome {
        Ok(seats) => calls_of(book, seats),
        Err(refusal) => {
            drop(book);
            Err(refusal)
        }
    }
}

// How many calls a history has. The book compares each seat's receipts with it.
fn calls_of<K: Opening>(book: Book<K>, seats: Vec<Seat<K>>) -> Result<u64, Refusal> {
    match book.close(seats) {
        Ok(closed) => {
            let calls = closed.history.len() as u64;
            drop(closed);
            Ok(calls)
        }
        Err((refusal, book, seats)) => {
            drop(book);
            drop(seats);
            Err(refusal)
        }
    }
}

// The seats of all four, once the threads have ended.
fn seats_of<K: Opening + Send + Sync, R: Threads + Wait + Sync>(
    rt: &R,
    alloc: Global,
    session: &Session<K>,
) -> Result<Vec<Seat<K>>, Refusal> {
    let mut own = session.seat(alloc, rt)?;
    let outcome = beside_a_view(rt, alloc, session, &mut own);
    with_seat(outcome, own)
}

// The seats, and one more.
fn with_seat<K: Opening>(
    outcome: Result<Vec<Seat<K>>, Refusal>,
    seat: Seat<K>,
) -> Result<Vec<Seat<K>>, Refusal> {
    let mut seats = outcome?;
    seats.reserve(1)?;
    seats.push_reserved(seat);
    Ok(seats)
}

// The seats of three writers beside a view, which is closed then.
fn beside_a_view<K: Opening + Send + Sync, R: Threads + Wait + Sync>(
    rt: &R,
    alloc: Global,
    session: &Session<K>,
    own: &mut Seat<K>,
) -> Result<Vec<Seat<K>>, Refusal> {
    let view = view_of(rt, alloc, session, own)?;
    let (seats, is_same) = join(
        rt,
        || three_writers(rt, alloc, session),
        || sees_monday(&view),
    );
    let_go(session.close_view(alloc, rt, own, view));
    if is_same {
        return seats;
    }
    drop(seats);
    Err(Refusal::Busy)
}

// Drops what closing a view gives back.
fn let_go<K: Opening>(outcome: ClosedView<K>) {
    match outcome {
        ClosedView::Closed(receipt) => drop(receipt),
        ClosedView::Refused(receipt, view) => {
            drop(receipt);
            drop(view);
        }
        ClosedView::NotRun(_, view) => drop(view),
    }
}

fn three_writers<K: Opening + Send + Sync, R: Threads + Wait + Sync>(
    rt: &R,
    alloc: Global,
    session: &Session<K>,
) -> Result<Vec<Seat<K>>, Refusal> {
    let (two, third) = join(
        rt,
        || two_writers(rt, alloc, session),
        || writer(rt, alloc, session, 3),
    );
    with_seat(two, third?)
}

fn two_writers<K: Opening + Send + Sync, R: Threads + Wait + Sync>(
    rt: &R,
    alloc: Global,
    session: &Session<K>,
) -> Result<Vec<Seat<K>>, Refusal> {
    let (first, second) = join(
        rt,
        || writer(rt, alloc, session, 1),
        || writer(rt, alloc, session, 2),
    );
    let one = with_seat(Ok(Vec::new(alloc)), first?);
    with_seat(one, second?)
}

// A view of a snapshot in which block 0 of object 0 is full of the byte 97.
fn view_of<K: Opening, R: Wait>(
    rt: &R,
    alloc: Global,
    session: &Session<K>,
    seat: &mut Seat<K>,
) -> Result<View<K>, Refusal> {
    call(rt, alloc, session, seat, write(alloc, 0, 0, 97)?)?;
    call(rt, alloc, session, seat, snapshot(alloc, b"p@monday")?)?;
    let target = Target::read(alloc, b"p@monday")?;
    opened(session.open_view(alloc, rt, seat, target)?)
}

// The view, or NoView where the pool refused it.
fn opened<K: Opening>(outcome: OpenedView<K>) -> Result<View<K>, Refusal> {
    match outcome {
        OpenedView::Opened(view, receipt) => {
            drop(receipt);
            Ok(view)
        }
        OpenedView::Refused(receipt) => {
            drop(receipt);
            Err(Refusal::NoView)
        }
    }
}

// A call whose receipt the seat keeps.
fn call<K: Opening, R: Wait>(
    rt: &R,
    alloc: Global,
    session: &Session<K>,
    seat: &mut Seat<K>,
    request: Request,
) -> Result<(), Refusal> {
    let receipt = session.call(alloc, rt, seat, request)?;
    drop(receipt);
    Ok(())
}

// A writer's seat, once it has written over the block of the view and an object of its own.
fn writer<K: Opening, R: Wait>(
    rt: &R,
    alloc: Global,
    session: &Session<K>,
    number: u8,
) -> Result<Seat<K>, Refusal> {
    let mut seat = session.seat(alloc, rt)?;
    write_all(rt, alloc, session, &mut seat, number)?;
    Ok(seat)
}

fn write_all<K: Opening, R: Wait>(
    rt: &R,
    alloc: Global,
    session: &Session<K>,
    seat: &mut Seat<K>,
    number: u8,
) -> Result<(), Refusal> {
    call(rt, alloc, session, seat, write(alloc, 0, 0, number)?)?;
    for block in 0..WRITES {
        let own = write(alloc, u32::from(number), block, number)?;
        call(rt, alloc, session, seat, own)?;
    }
    Ok(())
}

// Whether a view shows its block as it was, however often it is read.
fn sees_monday<K: Opening>(view: &View<K>) -> bool {
    for _ in 0..1000 {
        match view.read(0, 0) {
            Ok(Some(bytes)) if bytes[0] == 97 => {}
            _ => return false,
        }
    }
    true
}

//! A script that runs beside workers.
ghost use Rattle.std.specs.Prelude.{◌≡◌, ◌<◌, ◌≤◌, ℕ, List, [], ◌∷◌, IfSome};
ghost use Rattle.session.specs.declared.book.book.TheConstants.{CALL_LIMIT};
ghost use Rattle.model.specs.declared.request.Request.TheVariants.{Sync as ToSync, Slice as ToSlice};
ghost use Rattle.runner.specs.Beside.{Gains, HasHistory, RanBeside, AreWorkers, AsksOnly};
ghost use Rattle.runner.specs.Status.{RanTo};

use crate::run::{print_fault, run_on};
use crate::seated::{Seated, Shared};
use crate::turns::{Lines, WorkerTurns};
use base::failing::Failing;
use script::run::{Caller, ScriptFault};
use session::{Book, CALL_LIMIT, Opening, Pool, Seat, Session};
use std::alloc::Global;
use std::io::{BufRead, Write};
use std::mem;
use std::sync::Wait;
use std::thread::{Threads, join_mut};

/// How many blocks the destroyer frees at a time (profile).
const SLICE: u64 = 64;

/// The workers' seats.
#[derive(Drop)]
struct Workers<K: Opening> {
    syncer: Seat<K>,
    destroyer: Seat<K>,
}

/// Runs a script on a session of a pool, beside a syncer and a destroyer, and returns the exit status as `run_args` does. Each worker may make
/// one request for each line. At the return all threads have ended. Neither the pool nor the history is freed, since the program ends after its
/// run.
pub(crate) fn run_beside<K, T, R, W, E>(
    rt: &T,
    alloc: Global,
    pool: Pool,
    stop: bool,
    reader: &mut R,
    writer: &mut W,
    errors: &mut E,
) -> u8
where
    K: Opening + Send + Sync,
    T: Threads + Wait + Sync,
    R: BufRead + Failing,
    W: Write + Failing,
    E: Write,
    requires opening { pool.state ≡ K.opening }
    requires limit { CALL_LIMIT ≡ K.limit }
    ensures ran { result < 2 → RanBeside K.opening stop (R.remaining reader.old) (W.contents writer.old) (W.contents writer.new) result }
    ensures fault { 2 ≤ result → result ≡ 3 }
{
    let Some((session, script, mut workers)) = opened::<K, T>(rt, alloc, pool) else {
        return print_fault(errors, ScriptFault::NoMemory);
    };
    let shared = Shared {
        session,
        lines: Lines::new(),
    };
    let (status, script) = run_seated(
        rt,
        alloc,
        &shared,
        script,
        &mut workers,
        stop,
        reader,
        writer,
        errors,
    );
    let Shared { session, lines: _ } = shared;
    if status >= 2 {
        mem::forget(session);
        return 3;
    }
    close(alloc, session.end(), script, workers, status, errors)
}

/// A session of a pool, the script's seat, which has no receipts yet, and the workers' seats. None where there is no memory.
fn opened<K: Opening, T: Wait>(
    rt: &T,
    alloc: Global,
    pool: Pool,
) -> Option<(Session<K>, Seat<K>, Workers<K>)>
    requires opening { pool.state ≡ K.opening }
    requires limit { CALL_LIMIT ≡ K.limit }
    ensures new { IfSome result (λ r. r.1.receipts ≡ []) }
    ensures workers { IfSome result (λ r. AreWorkers r.2.syncer r.2.destroyer) }
{
    let session: Session<K> = match Session::open(alloc, pool, CALL_LIMIT) {
        Ok(session) => session,
        Err((_, pool)) => {
            mem::forget(pool);
            return None;
        }
    };
    let script = session.seat(alloc, rt).ok()?;
    let syncer = session.seat(alloc, rt).ok()?;
    let destroyer = session.seat(alloc, rt).ok()?;
    Some((session, script, Workers { syncer, destroyer }))
}

/// Runs the script on its seat, beside the workers, and returns the exit status and the seat. Views that are still open are dropped without being
/// closed.
fn run_seated<K, T, R, W, E>(
    rt: &T,
    alloc: Global,
    shared: &Shared<K>,
    seat: Seat<K>,
    workers: &mut Workers<K>,
    stop: bool,
    reader: &mut R,
    writer: &mut W,
    errors: &mut E,
) -> (u8, Seat<K>)
where
    K: Opening + Send + Sync,
    T: Threads + Wait + Sync,
    R: BufRead + Failing,
    W: Write + Failing,
    E: Write,
    ensures ran { result.0 < 2 → (held : List ℕ) × RanTo Gains stop (R.remaining reader.old) (W.contents writer.old) (W.contents writer.new)
        (record { seat = seat; held = [] }) (record { seat = result.1; held = held }) result.0 }
    ensures workers { AreWorkers workers.old.syncer workers.old.destroyer → AreWorkers workers.new.syncer workers.new.destroyer }
{
    let mut caller = Seated {
        alloc,
        rt,
        shared,
        seat,
        views: Vec::new(alloc),
    };
    let status = run_threads(
        rt,
        alloc,
        shared,
        workers,
        &mut caller,
        stop,
        reader,
        writer,
        errors,
    );
    let Seated {
        alloc: _,
        rt: _,
        shared: _,
        seat,
        views,
    } = caller;
    for view in views {
        let _number = view.forget();
    }
    (status, seat)
}

/// Runs the script in this thread and the workers in others, and returns the exit status once all have ended.
fn run_threads<'a, C, K, T, R, W, E>(
    rt: &'a T,
    alloc: Global,
    shared: &'a Shared<K>,
    workers: &'a mut Workers<K>,
    caller: &'a mut C,
    stop: bool,
    reader: &'a mut R,
    writer: &'a mut W,
    errors: &'a mut E,
) -> u8
where
    C: Caller,
    K: Opening + Send + Sync,
    T: Threads + Wait + Sync,
    R: BufRead + Failing,
    W: Write + Failing,
    E: Write,
    ensures ran { result < 2 → RanTo C.asks stop (R.remaining reader.old) (W.contents writer.old) (W.contents writer.new) caller.old caller.new result }
    ensures workers { AreWorkers workers.old.syncer workers.old.destroyer → AreWorkers workers.new.syncer workers.new.destroyer }
{
    let (_, status) = join_mut(
        rt,
        &mut || -> ()
            ensures { AreWorkers workers.entry.now.syncer workers.entry.now.destroyer → AreWorkers workers.exit.now.syncer workers.exit.now.destroyer }
        { run_workers(rt, alloc, shared, workers) },
        &mut || -> u8
            ensures { result < 2 → RanTo C.asks stop (R.remaining reader.entry.now) (W.contents writer.entry.now) (W.contents writer.exit.now) caller.entry.now caller.exit.now result }
        {
            run_lines(
                rt,
                alloc,
                &shared.lines,
                caller,
                stop,
                reader,
                writer,
                errors,
            )
        },
    );
    status
}

/// Runs the script, and then lets the workers end. Returns the exit status.
fn run_lines<C: Caller, T: Wait, R: BufRead + Failing, W: Write + Failing, E: Write>(
    rt: &T,
    alloc: Global,
    lines: &Lines,
    caller: &mut C,
    stop: bool,
    reader: &mut R,
    writer: &mut W,
    errors: &mut E,
) -> u8
    ensures ran { result < 2 → RanTo C.asks stop (R.remaining reader.old) (W.contents writer.old) (W.contents writer.new) caller.old caller.new result }
{
    let status = run_on(alloc, caller, stop, reader, writer, errors);
    lines.end(rt);
    status
}

/// Runs both workers until the script has ended. A worker that finds no room or no memory ends earlier.
fn run_workers<K: Opening + Send + Sync, T: Threads + Wait + Sync>(
    rt: &T,
    alloc: Global,
    shared: &Shared<K>,
    workers: &mut Workers<K>,
)
    ensures { AreWorkers workers.old.syncer workers.old.destroyer → AreWorkers workers.new.syncer workers.new.destroyer }
{
    let Workers { syncer, destroyer } = workers;
    join_mut(
        rt,
        &mut || -> ()
            ensures { AsksOnly ToSync syncer.entry.now → AsksOnly ToSync syncer.exit.now }
        { run_syncer(rt, alloc, shared, syncer) },
        &mut || -> ()
            ensures { AsksOnly (ToSlice 64) destroyer.entry.now → AsksOnly (ToSlice 64) destroyer.exit.now }
        { run_destroyer(rt, alloc, shared, destroyer) },
    );
}

/// Requests only syncs, one for each turn.
fn run_syncer<K: Opening, T: Wait>(rt: &T, alloc: Global, shared: &Shared<K>, seat: &mut Seat<K>)
    ensures { AsksOnly ToSync seat.old → AsksOnly ToSync seat.new }
{
    let mut turns = WorkerTurns::new(rt, &shared.lines);
    let _ = shared.session.run_syncer(alloc, rt, seat, &mut turns);
}

/// Requests only slices of `SLICE` blocks, one for each turn.
fn run_destroyer<K: Opening, T: Wait>(rt: &T, alloc: Global, shared: &Shared<K>, seat: &mut Seat<K>)
    ensures { AsksOnly (ToSlice 64) seat.old → AsksOnly (ToSlice 64) seat.new }
{
    let mut turns = WorkerTurns::new(rt, &shared.lines);
    let _ = shared
        .session
        .run_destroyer(alloc, rt, seat, SLICE, &mut turns);
}

/// The exit status, if the receipts of all seats match the history. Else 3, after a fault's line: the receipts don't match, or there is no memory
/// for the list of seats.
fn close<K: Opening, E: Write>(
    alloc: Global,
    book: Book<K>,
    script: Seat<K>,
    workers: Workers<K>,
    status: u8,
    errors: &mut E,
) -> u8
    requires { status < 2 }
    ensures same { result < 2 → result ≡ status }
    ensures history { result < 2 → HasHistory K.opening (script ∷ workers.syncer ∷ workers.destroyer ∷ []) }
    ensures fault { 2 ≤ result → result ≡ 3 }
{
    let Workers { syncer, destroyer } = workers;
    let Ok(seats) = vec![in alloc; script, syncer, destroyer] else {
        mem::forget(book);
        return print_fault(errors, ScriptFault::NoMemory);
    };
    match book.close(seats) {
        Ok(closed) => {
            mem::forget(closed);
            status
        }
        Err(back) => {
            mem::forget(back);
            print_unclosed(errors)
        }
    }
}

/// Prints that the seats' receipts don't match the history, and returns the exit status 3.
fn print_unclosed<E: Write>(errors: &mut E) -> u8
    ensures { result ≡ 3 }
{
    let _ = errors.write_all(b"zfsp: the receipts are not the history\n");
    3
}

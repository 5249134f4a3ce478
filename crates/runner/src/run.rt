//! Runs of the program.
ghost use Rattle.std.specs.Prelude.{◌≡◌, ◌<◌, ◌≤◌, ◌↔◌, IsTrue, IfSome, true, false};
ghost use Rattle.std.specs.Option.{option_copied};
ghost use Rattle.model.specs.State.{fresh_state};
ghost use Rattle.runner.specs.Args.{is_bad};
ghost use Rattle.runner.specs.Beside.{RanBeside};
ghost use Rattle.runner.specs.Serving.{Serves};
ghost use Rattle.runner.specs.Status.{RanAs, RanTo};

use crate::args::Args;
use crate::beside::run_beside;
use crate::caller::PoolCaller;
use base::failing::Failing;
use base::refusal::Refusal;
use script::run::{Caller, ScriptFault, run_script};
use session::Pool;
use std::alloc::Global;
use std::io::{BufRead, Write};
use std::marker::Brand;
use std::mem;
use std::sync::Wait;
use std::thread::Threads;

/// Runs a script on a fresh pool, and returns the exit status (profile). It is 0 where the script ran to its end; 1 where a line was refused and
/// the command line asks to stop there; 2 for a bad command line, after the usage line on `errors`; and 3, after a fault's line on `errors`, where
/// a read or a write failed or there was no memory. Replies go to `writer`. A failed write to `errors` is ignored. The pool isn't freed, since
/// the program ends after its run.
///
/// Where the command line asks for workers, the script has one seat of a session of `CALL_LIMIT` calls. A syncer and a destroyer, with slices of
/// 64 blocks, have the other seats; each may make one request for each line, in a thread of its own. A line whose request finds no room in the
/// session, or no memory, gets that refusal as its reply. At the return all threads have ended, and the receipts of all seats have been compared
/// with the history; where they don't match, the status is 3, after a fault's line.
pub fn run_args<T, R, W, E>(
    rt: &T,
    alloc: Global,
    args: Option<&Args>,
    reader: &mut R,
    writer: &mut W,
    errors: &mut E,
) -> u8
where
    T: Threads + Wait + Sync,
    R: BufRead + Failing,
    W: Write + Failing,
    E: Write + Failing,
    ensures usage { (result ≡ 2) ↔ IsTrue (is_bad (option_copied args.entry)) }
    ensures most { result ≤ 3 }
    ensures ran { result < 2 → IfSome (option_copied args.entry) (λ a. a.workers ≡ false → RanAs Serves a.stop (R.remaining reader.old)
        (W.contents writer.old) (W.contents writer.new) (fresh_state a.id a.blocks) result) }
    ensures beside { result < 2 → IfSome (option_copied args.entry) (λ a. a.workers ≡ true → RanBeside (fresh_state a.id a.blocks) a.stop
        (R.remaining reader.old) (W.contents writer.old) (W.contents writer.new) result) }
{
    let Some(args) = args else {
        return print_usage(errors);
    };
    match Pool::create(alloc, args.id, args.blocks) {
        Ok(pool) => run_pool(rt, alloc, args, pool, reader, writer, errors),
        Err(Refusal::NoMemory) => print_fault(errors, ScriptFault::NoMemory),
        Err(_) => print_usage(errors),
    }
}

/// Runs a script on a pool, beside workers where the command line asks for them, and returns the exit status.
fn run_pool<T, R, W, E>(
    rt: &T,
    alloc: Global,
    args: &Args,
    pool: Pool,
    reader: &mut R,
    writer: &mut W,
    errors: &mut E,
) -> u8
where
    T: Threads + Wait + Sync,
    R: BufRead + Failing,
    W: Write + Failing,
    E: Write,
    ensures ran { result < 2 → args.now.workers ≡ false → RanAs Serves args.now.stop (R.remaining reader.old) (W.contents writer.old) (W.contents writer.new) pool.state result }
    ensures beside { result < 2 → args.now.workers ≡ true → RanBeside pool.state args.now.stop (R.remaining reader.old) (W.contents writer.old) (W.contents writer.new) result }
    ensures fault { 2 ≤ result → result ≡ 3 }
{
    if args.workers {
        run_beside::<Brand, T, R, W, E>(rt, alloc, pool, args.stop, reader, writer, errors)
    } else {
        run_alone(alloc, pool, args.stop, reader, writer, errors)
    }
}

/// Runs a script on a pool without workers, and returns the exit status.
fn run_alone<R: BufRead + Failing, W: Write + Failing, E: Write>(
    alloc: Global,
    pool: Pool,
    stop: bool,
    reader: &mut R,
    writer: &mut W,
    errors: &mut E,
) -> u8
    ensures ran { result < 2 → RanAs Serves stop (R.remaining reader.old) (W.contents writer.old) (W.contents writer.new) pool.state result }
    ensures fault { 2 ≤ result → result ≡ 3 }
{
    let mut caller = PoolCaller { alloc, pool };
    let status = run_on(alloc, &mut caller, stop, reader, writer, errors);
    mem::forget(caller);
    status
}

/// Runs a script on a caller, and returns the exit status.
pub(crate) fn run_on<C: Caller, R: BufRead + Failing, W: Write + Failing, E: Write>(
    alloc: Global,
    caller: &mut C,
    stop: bool,
    reader: &mut R,
    writer: &mut W,
    errors: &mut E,
) -> u8
    ensures ran { result < 2 → RanTo C.asks stop (R.remaining reader.old) (W.contents writer.old) (W.contents writer.new) caller.old caller.new result }
    ensures fault { 2 ≤ result → result ≡ 3 }
{
    let failures = writer.failures();
    let outcome = run_script(alloc, caller, reader, writer, stop);
    let flushed = writer.flush();
    match outcome {
        Ok(refused) => match flushed {
            Ok(()) => u8::from(refused && stop),
            Err(_) => print_fault(errors, ScriptFault::of_counts(failures, writer.failures())),
        },
        Err(fault) => print_fault(errors, fault),
    }
}

/// Prints the usage line, and returns the exit status 2.
pub fn print_usage<E: Write>(errors: &mut E) -> u8
    ensures { result ≡ 2 }
{
    let _ = errors.write_all(b"usage: zfsp [-e] [-w] BLOCKS POOLID [SCRIPT]\n");
    2
}

/// Prints why a run ended, and returns the exit status 3.
pub fn print_fault<E: Write>(errors: &mut E, fault: ScriptFault) -> u8
    ensures { result ≡ 3 }
{
    let _ = writeln!(errors, "zfsp: {fault}");
    3
}

//! What a host does with the crate `yuzgont`: the examples of its page. Each prints a line.
#![tactic(auto)]

mod asking;
mod backup;
mod requests;
mod scripts;
mod threads;
mod way_back;

use std::alloc::Global;
use std::marker::Brand;
use std::process::ExitCode;
use std::sync::Wait;
use std::thread::Threads;
use yuzgont::{Pool, Refusal};

/// What the examples saw, a number each.
struct Seen {
    requests: bool,
    calls: u64,
    backup: bool,
    way_back: bool,
    lines: usize,
}

fn run_examples<R: Threads + Wait + Sync>(rt: &R, alloc: Global) -> Result<Seen, Refusal> {
    let calls = threads::four_threads::<Brand, _>(rt, alloc, Pool::create(alloc, 1, 10_000)?)?;
    Ok(Seen {
        requests: requests::writes_and_reads(alloc)?,
        calls,
        backup: backup::is_received(alloc)?,
        way_back: way_back::goes_back(alloc)?,
        lines: scripts::answers(alloc)?,
    })
}

fn main(rt: HostRuntime) -> ExitCode {
    let Ok(seen) = run_examples(&rt, rt.alloc()) else {
        return ExitCode::from(3);
    };
    let Seen {
        requests,
        calls,
        backup,
        way_back,
        lines,
    } = seen;
    let told = println!(rt;
        "a block is read as it was written: {requests}\n{calls} calls by four threads, each once in the history\na send is received by another pool: {backup}\nwhat came after the last sync is gone: {way_back}\na script of {lines} lines is answered"
    );
    if told.is_ok() {
        ExitCode::SUCCESS
    } else {
        ExitCode::from(3)
    }
}

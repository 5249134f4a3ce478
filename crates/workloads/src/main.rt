//! Work for the benchmarks that no script asks for: `workloads NAME COUNT ..` does each named work so many times, and prints for each a line:
//! how many entries, blocks, numbers or calls it has reached.
//!
//! - `push`, `copy`, `take-at-cut` and `take-between` are of dead lists, `batch` and `walk` of trees, `take-and-release` of block numbers.
//! - `apply`, `one`, `four` and `batches` write so many blocks of 512 bytes to a fresh pool: the pool alone, one caller of a session, four callers
//!   in threads of their own, and these four with sixteen writes a batch.
//! - `views` and `beside` read a snapshot of 100,000 blocks so often through a view, by four threads, alone or beside a fifth that writes as long
//!   as they read.
//!
//! Status 2 is a bad command line, 3 want of memory or a failed write.
#![tactic(auto)]

mod batches;
mod callers;
mod lists;
mod numbers;
mod trees;
mod viewers;
mod writes;

use crate::callers::Callers;
use base::refusal::Refusal;
use session::Pool;
use std::alloc::Global;
use std::env;
use std::marker::Brand;
use std::process::ExitCode;
use std::sync::Wait;
use std::thread::Threads;

/// How many blocks a pool has.
const BLOCKS: u32 = 4_194_304;

/// How many works a command line may name: with more, status 2 comes after these.
const MOST_WORKS: usize = 8;

/// What to do.
#[derive(Clone, Copy)]
enum Work {
    Push,
    Copy,
    TakeAtCut,
    TakeBetween,
    Batch,
    Walk,
    TakeAndRelease,
    Apply,
    Session(Callers),
    Viewers { beside: bool },
}

impl Work {
    fn named(name: &str) -> Option<Work> {
        match name {
            "push" => Some(Work::Push),
            "copy" => Some(Work::Copy),
            "take-at-cut" => Some(Work::TakeAtCut),
            "take-between" => Some(Work::TakeBetween),
            "batch" => Some(Work::Batch),
            "walk" => Some(Work::Walk),
            "take-and-release" => Some(Work::TakeAndRelease),
            "apply" => Some(Work::Apply),
            "one" => Some(Work::Session(Callers::One)),
            "four" => Some(Work::Session(Callers::Four)),
            "batches" => Some(Work::Session(Callers::FourBatched)),
            "views" => Some(Work::Viewers { beside: false }),
            "beside" => Some(Work::Viewers { beside: true }),
            _ => None,
        }
    }

    /// Does it so many times: how much was reached.
    fn run<R: Threads + Wait + Sync>(
        self,
        rt: &R,
        alloc: Global,
        count: u32,
    ) -> Result<u64, Refusal> {
        match self {
            Work::Push => lists::push(alloc, count),
            Work::Copy => lists::copy(alloc, count),
            Work::TakeAtCut => lists::take(alloc, count, lists::AT_CUT),
            Work::TakeBetween => lists::take(alloc, count, lists::BETWEEN_CUTS),
            Work::Batch => trees::batch(alloc, count),
            Work::Walk => trees::walk(alloc, count),
            Work::TakeAndRelease => numbers::take_and_release(alloc, count),
            Work::Apply => {
                let pool = fresh_pool(alloc)?;
                Ok(u64::from(writes::applied(alloc, pool, count)?))
            }
            Work::Session(callers) => {
                let pool = fresh_pool(alloc)?;
                let done = callers::called::<Brand, _>(rt, alloc, pool, count, callers)?;
                Ok(u64::from(done))
            }
            Work::Viewers { beside } => {
                let pool = fresh_pool(alloc)?;
                let done = viewers::viewed::<Brand, _>(rt, alloc, pool, count, beside)?;
                Ok(u64::from(done))
            }
        }
    }
}

/// The pool that a work on sessions begins with.
fn fresh_pool(alloc: Global) -> Result<Pool, Refusal> {
    Pool::create(alloc, 1, BLOCKS)
}

fn main(rt: HostRuntime) -> ExitCode {
    let Ok(mut words) = env::args(&rt) else {
        return ExitCode::from(3);
    };
    let _program = words.next();
    for _ in 0..MOST_WORKS {
        let Some(name) = words.next() else {
            return ExitCode::SUCCESS;
        };
        let count = match words.next() {
            Some(count) => count.as_str().parse().ok(),
            None => None,
        };
        let (Some(work), Some(count)) = (Work::named(name.as_str()), count) else {
            return ExitCode::from(2);
        };
        let Ok(reached) = work.run(&rt, rt.alloc(), count) else {
            return ExitCode::from(3);
        };
        if println!(rt; "{reached}").is_err() {
            return ExitCode::from(3);
        }
    }
    match words.next() {
        Some(_) => ExitCode::from(2),
        None => ExitCode::SUCCESS,
    }
}

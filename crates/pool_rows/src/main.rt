//! Rows for a pool, of what no script shows: a step that is prepared and left, a list of requests, and the blocks of its image.
//!
//! Each line of the standard input is a row, or a comment that begins with `#`, or empty. A row begins with the number of a pool, 0 or 1, and
//! what it tells is printed as a line. LINE is a line of a script, which tells its reply.
//!
//! | Row | Meaning |
//! |---|---|
//! | `0 make 1 1000` | the pool is a fresh one with this id and so many blocks |
//! | `0 apply LINE` | by `Pool::apply` |
//! | `0 two LINE` | by `Pool::prepare`, which is left, and then by `prepare` and `commit` |
//! | `0 left LINE` | by `prepare`, which is left |
//! | `0 list LINE; LINE` | by `Pool::run`: the replies, with `; ` between them |
//! | `0 destroys [-r] [-d] SNAP ..` | by `Pool::apply`, a destroy of the snapshots of a list, which may be empty; behind `apply`, `two` and `left` it stands for a LINE |
//! | `0 rename NAME TO` | the same with a rename of a file system |
//! | `0 rename_snapshot NAME TO [-r]` | the same with a rename of a snapshot, whose name is whole; the new one is a component |
//! | `0 take MODE SNAP HEX` | a receive in a mode: `plain`, `back`, `past`, `replace`, or the name of the snapshot that is to be its origin |
//! | `0 stops LINE` | how many blocks the line writes, where an image that was stopped after any of them has the datasets of the last synced world as they were; or `no` |
//! | `0 walks now`, `0 walks last` | how many datasets the present or the last synced world has, how many leaves their walks in the image find, and a sum of all |
//! | `0 root` | the birth of the first dataset's root, the digits of its first pointer behind the block's number, and how many bytes behind that pointer aren't zero |
//! | `0 keeps` | how often the image was told the numbers that it keeps, which is once a sync |
//! | `0 meters` | how many nodes of trees the pool's requests have reached, and how many segments and entries of dead lists |
//! | `0 alike` | whether the other pool has the same blocks at the same numbers, in both worlds |
//! | `0 same LINE; LINE` | whether two lines ask the same |
//!
//! `bench/pool_rows.py` tells the same by plain values, but for `meters`, whose numbers are in `rows/`. Status 3 is want of memory for a line, or
//! a failed read or write.
#![tactic(auto)]

mod asked;
mod destroys;
mod pools;
mod renames;
mod root;
mod stops;
mod takes;
mod walks;

use pools::Pools;
use std::io;
use std::io::Write;
use std::process::ExitCode;

/// Runs the rows of the standard input.
fn run(rt: &HostRuntime) -> io::Result<()> {
    let mut pools = Pools::new(rt.alloc());
    let mut told = Vec::new(rt.alloc());
    let mut output = rt.stdout();
    for line in rt.lines(rt.alloc()) {
        let line = line?;
        let row = line.as_str();
        if !row.is_empty() && !row.starts_with('#') {
            told.clear();
            pools.row(row, &mut told)?;
            told.push(b'\n')?;
            output.write_all(&told)?;
        }
    }
    Ok(())
}

fn main(rt: HostRuntime) -> ExitCode {
    match run(&rt) {
        Ok(()) => ExitCode::SUCCESS,
        Err(_) => ExitCode::from(3),
    }
}

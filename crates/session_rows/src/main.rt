//! Rows for sessions: calls of several seats, batches, views, workers and threads, and the end of a session.
//!
//! Each line of the standard input is a row, or a comment that begins with `#`, or empty. What a row tells is printed as a line. LINE is a line of
//! a script; what it tells is the number of its entry and its reply.
//!
//! | Row | Meaning |
//! |---|---|
//! | `open 1000 20` | a session begins, of a fresh pool of so many blocks, with room for so many calls; and a book that begins alike |
//! | `seat` | one seat more; they are numbered from 0 on |
//! | `call 0 LINE` | seat 0 calls |
//! | `batch 0 9 LINE; LINE` | a batch of seat 0 at a gate of nine turns: the replies, and how many turns are left, of at most ten |
//! | `stand 0 0 1 9 LINE; LINE` | the same at a gate that raises flag 0 and waits for flag 1 at each turn: whether it came |
//! | `raise 0 1`, `wait 0 1` | seat 0 raises flag 1, or waits for it |
//! | `view 0 p@s` | seat 0 opens a view; a seat's views are numbered from 0 on |
//! | `look 0 1 9 0 5` | what view 1 of seat 0 shows nine times of block 5 of object 0 |
//! | `send 0 1`, `send 0 1 p@r` | the stream of view 1 of seat 0, of all or from a source on |
//! | `unview 0 1` | seat 0 closes its view 1; the last one takes its place, and one that is handed back becomes the last |
//! | `forget 0 1` | view 1 of seat 0 is given up, and its number in the pool told |
//! | `lend 0 1`, `unlend 0` | view 1 of seat 0 is lent to all rows; the one that was lent last becomes the last of seat 0 |
//! | `see 0 2 9 0 5` | what the lent view 2 shows to seat 0, as `look` |
//! | `sync 0 3` | seat 0 is the syncer for three turns: how many requests ran, and why it ended early |
//! | `free 0 4 3` | seat 0 is the destroyer for three turns, with slices of four blocks |
//! | `drop 1` | seat 1 is dropped |
//! | `together` | the rows up to `then` are carried out in threads, those of each seat in one; they tell seat by seat |
//! | `end` | the session is ended; the rows behind it are on its book |
//! | `other` | the rows behind it are on the other book |
//! | `seat`, `enter 1 LINE`, `room` | the book gives a seat, runs a call, tells how many it takes |
//! | `close 1 0` | the book is closed with these seats: `closed`, or the refusal |
//! | `give` | the book is given up |
//! | `apply LINE` | what the pool replies that was left last |
//! | `entry 3 LINE` | the reply that stands in entry 3 of its history, where that is of this line |
//! | `history` | the seat and the reply of each entry |
//! | `replay` | whether a fresh pool that is asked the history gives the same replies, and whether it comes to the same blocks |
//!
//! `bench/session_rows.py` tells the same by plain values. Status 3 is want of memory for a line, or a failed read or write.
#![tactic(auto)]

mod input;
mod sections;
mod sitting;

use input::Rows;
use std::io;
use std::io::Write;
use std::process::ExitCode;
use std::sync::Wait;
use std::thread::Threads;

/// Runs the rows of the standard input, whose sessions wait by `waiter`.
fn run<R: Threads + Wait + Sync>(rt: &HostRuntime, waiter: &R) -> io::Result<()> {
    let mut lines = Vec::new(rt.alloc());
    for line in rt.lines(rt.alloc()) {
        lines.push(line?)?;
    }
    let (mut rows, mut told) = (Rows::new(&lines), Vec::new(rt.alloc()));
    let outcome = sections::run(waiter, rt.alloc(), &mut rows, &mut told);
    rt.stdout().write_all(&told)?;
    outcome?;
    Ok(())
}

fn main(rt: HostRuntime) -> ExitCode {
    match run(&rt, &rt) {
        Ok(()) => ExitCode::SUCCESS,
        Err(_) => ExitCode::from(3),
    }
}

//! A session for each section of the rows, with a book beside it that begins alike.
ghost use Rattle.std.specs.Prelude.{◌≡◌};
ghost use Rattle.model.specs.State.{fresh_state};

use crate::input::Rows;
use crate::sitting::seated;
use base::refusal::Refusal;
use session::{Opening, Session};
use session_books::ended::Ended;
use session_books::fresh::fresh_session;
use session_seats::sitter::Sitter;
use session_seats::table::Table;
use std::alloc::{AllocError, Global};
use std::marker::Brand;
use std::sync::Wait;
use std::sync::atomic::AtomicBool;
use std::thread::Threads;
use telling::told::{end_line, tell, tell_refusal};
use telling::words::numbered;

/// Runs all rows, each section from its `open BLOCKS LIMIT` on.
pub fn run<R: Threads + Wait + Sync>(
    rt: &R,
    alloc: Global,
    rows: &mut Rows,
    told: &mut Vec<u8>,
) -> Result<(), AllocError> {
    for _ in 0..u32::MAX {
        let Some(row) = rows.next() else {
            return Ok(());
        };
        match row.strip_prefix("open ") {
            Some(sizes) => open(rt, alloc, sizes, rows, told)?,
            None => tell(told, "unknown\n")?,
        }
    }
    Ok(())
}

/// Runs the section of a session of `BLOCKS LIMIT`.
fn open<R: Threads + Wait + Sync>(
    rt: &R,
    alloc: Global,
    sizes: &str,
    rows: &mut Rows,
    told: &mut Vec<u8>,
) -> Result<(), AllocError> {
    let (blocks, limit) = numbered(sizes);
    let (limit, _) = numbered(limit);
    let blocks = (blocks & 0xffff_ffff) as u32;
    section::<Brand, R>(rt, alloc, blocks, limit, rows, told)
}

/// Runs the section of a session with room for so many calls, and of a book beside it.
fn section<K: Opening + Send + Sync, R: Threads + Wait + Sync>(
    rt: &R,
    alloc: Global,
    blocks: u32,
    limit: u64,
    rows: &mut Rows,
    told: &mut Vec<u8>,
) -> Result<(), AllocError>
    requires opening { fresh_state 1 blocks ≡ K.opening }
    requires limit { limit ≡ K.limit }
{
    let mut ended: Ended<K> = Ended::new(alloc, blocks);
    let outcome = match ended.add_fresh(blocks, limit) {
        Ok(()) => beside(rt, alloc, blocks, limit, &mut ended, rows, told),
        Err(refusal) => refused(alloc, told, refusal),
    };
    drop(ended);
    outcome
}

fn refused(alloc: Global, told: &mut Vec<u8>, refusal: Refusal) -> Result<(), AllocError> {
    tell_refusal(alloc, told, refusal)?;
    end_line(told)
}

/// Opens the session beside the book, and runs the section.
fn beside<K: Opening + Send + Sync, R: Threads + Wait + Sync>(
    rt: &R,
    alloc: Global,
    blocks: u32,
    limit: u64,
    ended: &mut Ended<K>,
    rows: &mut Rows,
    told: &mut Vec<u8>,
) -> Result<(), AllocError>
    requires opening { fresh_state 1 blocks ≡ K.opening }
    requires limit { limit ≡ K.limit }
{
    match fresh_session(alloc, blocks, limit) {
        Ok(session) => sat(rt, alloc, session, ended, rows, told),
        Err(refusal) => refused(alloc, told, refusal),
    }
}

/// Carries out the rows on a session, and then those on its book.
fn sat<K: Opening + Send + Sync, R: Threads + Wait + Sync>(
    rt: &R,
    alloc: Global,
    session: Session<K>,
    ended: &mut Ended<K>,
    rows: &mut Rows,
    told: &mut Vec<u8>,
) -> Result<(), AllocError> {
    let outcome = begun(rt, alloc, &session, &mut ended.sitters, rows, told);
    ended.end(session)?;
    outcome?;
    on_books(ended, rows, told)
}

fn begun<K: Opening + Send + Sync, R: Threads + Wait + Sync>(
    rt: &R,
    alloc: Global,
    session: &Session<K>,
    sitters: &mut Vec<Sitter<K>>,
    rows: &mut Rows,
    told: &mut Vec<u8>,
) -> Result<(), AllocError> {
    let flags = [AtomicBool::new(false), AtomicBool::new(false)];
    let table = Table {
        rt,
        alloc,
        session,
        flags: &flags,
    };
    tell(told, "ok\n")?;
    seated(&table, sitters, rows, told)
}

/// The rows behind a session, up to the next.
fn on_books<K: Opening>(
    ended: &mut Ended<K>,
    rows: &mut Rows,
    told: &mut Vec<u8>,
) -> Result<(), AllocError> {
    for _ in 0..u32::MAX {
        let Some(row) = rows.next_unless("open") else {
            return Ok(());
        };
        ended.row(row, told)?;
    }
    Ok(())
}

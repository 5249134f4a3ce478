//! The turns of a worker.
use crate::table::Table;
use base::refusal::Refusal;
use session::{Opening, Seat, Turns};
use std::alloc::{AllocError, Global};
use std::sync::Wait;
use telling::told::{tell, tell_number, tell_refusal};
use telling::words::numbered;

/// The syncer's work for `TURNS`.
pub fn sync<K: Opening, R: Wait>(
    table: &Table<K, R>,
    seat: &mut Seat<K>,
    turns: &str,
    told: &mut Vec<u8>,
) -> Result<(), AllocError> {
    let mut gate = Turns::new(numbered(turns).0);
    let work = table
        .session
        .run_syncer(table.alloc, table.rt, seat, &mut gate);
    tell_work(table.alloc, work, told)
}

/// The destroyer's work of `COUNT TURNS`.
pub fn free<K: Opening, R: Wait>(
    table: &Table<K, R>,
    seat: &mut Seat<K>,
    rest: &str,
    told: &mut Vec<u8>,
) -> Result<(), AllocError> {
    let (count, turns) = numbered(rest);
    let mut gate = Turns::new(numbered(turns).0);
    let work = table
        .session
        .run_destroyer(table.alloc, table.rt, seat, count, &mut gate);
    tell_work(table.alloc, work, told)
}

/// Tells how many of a worker's requests ran, and why it ended early.
fn tell_work(
    alloc: Global,
    work: (u64, Option<Refusal>),
    told: &mut Vec<u8>,
) -> Result<(), AllocError> {
    tell_number(alloc, told, work.0)?;
    match work.1 {
        Some(refusal) => {
            tell(told, " ")?;
            tell_refusal(alloc, told, refusal)
        }
        None => Ok(()),
    }
}

//! Calls and batches.
use crate::gates::{Standing, turns_left};
use crate::table::{Table, tell_called, tell_receipt};
use session::{Gate, Opening, Receipt, Seat, Turns};
use std::alloc::{AllocError, Global};
use std::sync::Wait;
use telling::lines::requests_of;
use telling::told::{tell, tell_number, tell_refusal, tell_whether};
use telling::words::numbered;

/// A call of a line.
pub fn call<K: Opening, R: Wait>(
    table: &Table<K, R>,
    seat: &mut Seat<K>,
    line: &str,
    told: &mut Vec<u8>,
) -> Result<(), AllocError> {
    let mut requests = requests_of(table.alloc, line)?;
    let Some(request) = requests.pop() else {
        return tell(told, "none");
    };
    let called = table.session.call(table.alloc, table.rt, seat, request);
    tell_called(table.alloc, called, told)
}

/// A batch of `TURNS LINE; LINE`.
pub fn batch<K: Opening, R: Wait>(
    table: &Table<K, R>,
    seat: &mut Seat<K>,
    rest: &str,
    told: &mut Vec<u8>,
) -> Result<(), AllocError> {
    let (turns, lines) = numbered(rest);
    let mut gate = Turns::new(turns);
    batch_at(table, seat, lines, &mut gate, told)?;
    tell_number(table.alloc, told, turns_left(&mut gate))
}

/// A batch of `RAISED AWAITED TURNS LINE; LINE`.
pub fn stand<K: Opening, R: Wait>(
    table: &Table<K, R>,
    seat: &mut Seat<K>,
    rest: &str,
    told: &mut Vec<u8>,
) -> Result<(), AllocError> {
    let (raised, rest) = table.flag(rest);
    let (awaited, rest) = table.flag(rest);
    let (turns, lines) = numbered(rest);
    let (Some(raised), Some(awaited)) = (raised, awaited) else {
        return tell(told, "none");
    };
    let mut gate = Standing {
        raised,
        awaited,
        was_seen: false,
        turns,
        is_stopped: false,
    };
    batch_at(table, seat, lines, &mut gate, told)?;
    tell_whether(told, gate.was_seen)
}

fn batch_at<K: Opening, R: Wait, G: Gate>(
    table: &Table<K, R>,
    seat: &mut Seat<K>,
    lines: &str,
    gate: &mut G,
    told: &mut Vec<u8>,
) -> Result<(), AllocError> {
    let requests = requests_of(table.alloc, lines)?;
    match table
        .session
        .batch(table.alloc, table.rt, seat, requests, gate)
    {
        Ok(receipts) => tell_receipts(table.alloc, &receipts, told),
        Err(refusal) => {
            tell_refusal(table.alloc, told, refusal)?;
            tell(told, "; ")
        }
    }
}

fn tell_receipts(
    alloc: Global,
    receipts: &[Receipt],
    told: &mut Vec<u8>,
) -> Result<(), AllocError> {
    for receipt in receipts {
        tell_receipt(alloc, receipt, told)?;
        tell(told, "; ")?;
    }
    Ok(())
}

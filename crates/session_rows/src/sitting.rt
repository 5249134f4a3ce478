//! Rows on a session, up to its end.
use crate::input::Rows;
use session::{Opening, View};
use session_seats::sitter::Sitter;
use session_seats::table::Table;
use std::alloc::AllocError;
use std::sync::Wait;
use std::thread::{Threads, for_each_mut};
use telling::told::{end_line, tell, tell_refusal};
use telling::words::{parted, placed};

/// Carries out rows on a session up to `end`.
pub fn seated<K: Opening + Send + Sync, R: Threads + Wait + Sync>(
    table: &Table<K, R>,
    sitters: &mut Vec<Sitter<K>>,
    rows: &mut Rows,
    told: &mut Vec<u8>,
) -> Result<(), AllocError> {
    let mut lent = Vec::new(table.alloc);
    for _ in 0..u32::MAX {
        let row = rows.next().unwrap_or("end");
        let (word, rest) = parted(row);
        match word {
            "end" => return Ok(()),
            "seat" => seat(table, sitters, told)?,
            "lend" => lend(sitters, &mut lent, rest, told)?,
            "unlend" => unlend(sitters, &mut lent, rest, told)?,
            "together" => {
                let lines = rows.up_to("then");
                together(table, sitters, &lent, lines);
                tell_all(sitters, told)?;
            }
            _ => one(table, sitters, &lent, row, told)?,
        }
    }
    Ok(())
}

fn seat<K: Opening, R: Wait>(
    table: &Table<K, R>,
    sitters: &mut Vec<Sitter<K>>,
    told: &mut Vec<u8>,
) -> Result<(), AllocError> {
    sitters.reserve(1)?;
    match table.session.seat(table.alloc, table.rt) {
        Ok(seat) => {
            sitters.push_reserved(Sitter::new(table.alloc, seat));
            tell(told, "ok\n")
        }
        Err(refusal) => {
            tell_refusal(table.alloc, told, refusal)?;
            end_line(told)
        }
    }
}

/// The row of one seat, `WORD SEAT ..`.
fn one<K: Opening, R: Wait>(
    table: &Table<K, R>,
    sitters: &mut [Sitter<K>],
    lent: &[View<K>],
    row: &str,
    told: &mut Vec<u8>,
) -> Result<(), AllocError> {
    let (word, rest) = parted(row);
    let (place, rest) = placed(rest);
    match sitters.get_mut(place) {
        Some(sitter) => {
            sitter.row(table, lent, word, rest)?;
            tell_one(sitter, told)
        }
        None => tell(told, "none\n"),
    }
}

/// Tells what a seat's rows have told.
fn tell_one<K: Opening>(sitter: &mut Sitter<K>, told: &mut Vec<u8>) -> Result<(), AllocError> {
    if sitter.is_faulty {
        return Err(AllocError);
    }
    told.extend_from_slice(&sitter.told)?;
    sitter.told.clear();
    Ok(())
}

fn tell_all<K: Opening>(sitters: &mut [Sitter<K>], told: &mut Vec<u8>) -> Result<(), AllocError> {
    for sitter in sitters {
        tell_one(sitter, told)?;
    }
    Ok(())
}

/// Carries out the rows of all seats at once, each seat's in a thread of its own.
fn together<K: Opening + Send + Sync, R: Threads + Wait + Sync>(
    table: &Table<K, R>,
    sitters: &mut [Sitter<K>],
    lent: &[View<K>],
    lines: &[String],
) {
    for_each_mut(
        table.rt,
        sitters,
        64,
        &|seat, sitter: &mut Sitter<K>| sitter.run(table, lent, lines, seat),
    );
}

/// Lends a view, by `SEAT VIEW`, to all rows.
fn lend<K: Opening>(
    sitters: &mut [Sitter<K>],
    lent: &mut Vec<View<K>>,
    rest: &str,
    told: &mut Vec<u8>,
) -> Result<(), AllocError> {
    let (seat, rest) = placed(rest);
    let (place, _) = placed(rest);
    lent.reserve(1)?;
    match sitters.get_mut(seat) {
        Some(sitter) if place < sitter.views.len() => {
            lent.push_reserved(sitter.views.swap_remove(place));
            tell(told, "ok\n")
        }
        _ => tell(told, "none\n"),
    }
}

/// Hands the view that was lent last to a seat.
fn unlend<K: Opening>(
    sitters: &mut [Sitter<K>],
    lent: &mut Vec<View<K>>,
    rest: &str,
    told: &mut Vec<u8>,
) -> Result<(), AllocError> {
    let Some(sitter) = sitters.get_mut(placed(rest).0) else {
        return tell(told, "none\n");
    };
    sitter.views.reserve(1)?;
    match lent.pop() {
        Some(view) => {
            sitter.views.push_reserved(view);
            tell(told, "ok\n")
        }
        None => tell(told, "none\n"),
    }
}

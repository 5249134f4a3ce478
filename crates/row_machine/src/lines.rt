//! Lines, and what each tells.
use crate::told::Told;
use crate::words::Words;

/// What carries out rows.
pub trait Rows {
    /// Carries out a row on things of a kind.
    fn row(&mut self, kind: &str, words: &mut Words) -> Told;
}

/// How many rows were carried out, and a sum of what they told.
#[derive(Clone, Copy)]
struct Tally {
    rows: u64,
    sum: u64,
}

/// The next number of a sequence that looks random.
fn next(seed: u64) -> u64 {
    seed.wrapping_mul(6_364_136_223_846_793_005)
        .wrapping_add(1_442_695_040_888_963_407)
}

/// One of the steps between semicolons, by a number.
fn one_of(steps: &str, number: u64) -> &str {
    let count = steps.split("; ").count() as u64;
    let place = number.checked_rem(count).unwrap_or(0);
    steps.split("; ").nth(place as usize).unwrap_or("")
}

/// What a line tells.
pub fn line_of<R: Rows>(rows: &mut R, line: &str) -> Told {
    if let Some(repeated) = line.strip_prefix("for ") {
        return repeat(rows, repeated);
    }
    match line.strip_prefix("walk ") {
        Some(steps) => walk(rows, steps),
        None => row_of(rows, line, 0),
    }
}

/// The rows of `0 62 2: ROWS` for each of the numbers, which rise by two.
fn repeat<R: Rows>(rows: &mut R, line: &str) -> Told {
    let Some((numbers, step)) = line.split_once(": ") else {
        return Told::Unknown;
    };
    let mut words = Words {
        rest: numbers,
        number: 0,
    };
    let (mut number, last, rise) = (words.long(), words.long(), words.long());
    let mut tally = Tally { rows: 0, sum: 0 };
    for _ in 0..u32::MAX {
        if number > last {
            break;
        }
        tally = step_of(rows, step, number, tally);
        number = number.saturating_add(rise);
    }
    Told::Two(tally.rows, tally.sum)
}

/// So many of the steps of `1 300: STEP; STEP`.
fn walk<R: Rows>(rows: &mut R, line: &str) -> Told {
    let Some((numbers, steps)) = line.split_once(": ") else {
        return Told::Unknown;
    };
    let mut words = Words {
        rest: numbers,
        number: 0,
    };
    let (mut seed, count) = (words.long(), words.number());
    let mut tally = Tally { rows: 0, sum: 0 };
    for _ in 0..count {
        seed = next(seed);
        tally = step_of(rows, one_of(steps, seed >> 40), seed >> 33, tally);
    }
    Told::Two(tally.rows, tally.sum)
}

/// Carries out the rows of a step.
fn step_of<R: Rows>(rows: &mut R, step: &str, number: u64, before: Tally) -> Tally {
    let mut tally = before;
    for row in step.split(" & ") {
        let told = row_of(rows, row, number);
        tally.rows = tally.rows.saturating_add(1);
        tally.sum = told.added(tally.sum);
    }
    tally
}

/// Carries out a row, whose kind stands before its dot.
fn row_of<R: Rows>(rows: &mut R, row: &str, number: u64) -> Told {
    let Some((kind, rest)) = row.split_once('.') else {
        return Told::Unknown;
    };
    rows.row(kind, &mut Words { rest, number })
}

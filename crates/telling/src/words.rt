//! The words of a row.

/// A row's first word, and the others.
pub fn parted(row: &str) -> (&str, &str) {
    row.split_once(' ').unwrap_or((row, ""))
}

/// The first word as a number, which is the greatest where it is none, and the others.
pub fn numbered(row: &str) -> (u64, &str) {
    let (word, rest) = parted(row);
    (word.parse::<u64>().unwrap_or(u64::MAX), rest)
}

/// The first word as a place in a list, and the others.
pub fn placed(row: &str) -> (usize, &str) {
    let (number, rest) = numbered(row);
    (number as usize, rest)
}

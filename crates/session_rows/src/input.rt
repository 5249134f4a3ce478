//! Rows, one after another.
use telling::words::parted;

/// The rows that are left of some lines.
#[derive(Drop)]
pub struct Rows<'t> {
    rest: &'t [String],
}

impl<'t> Rows<'t> {
    pub fn new(lines: &'t [String]) -> Rows<'t> {
        Rows { rest: lines }
    }

    /// The next row, which is no comment.
    pub fn next(&mut self) -> Option<&'t str> {
        for _ in 0..self.rest.len() {
            let (first, rest) = self.rest.split_first()?;
            self.rest = rest;
            let row = first.as_str();
            if !row.is_empty() && !row.starts_with('#') {
                return Some(row);
            }
        }
        None
    }

    /// The next row, unless its first word is this one.
    pub fn next_unless(&mut self, word: &str) -> Option<&'t str> {
        let rest = self.rest;
        let row = self.next()?;
        if parted(row).0 == word {
            self.rest = rest;
            return None;
        }
        Some(row)
    }

    /// The lines up to the next that is this word, which is left out.
    pub fn up_to(&mut self, word: &str) -> &'t [String] {
        let lines = self.rest;
        for at in 0..lines.len() {
            if lines[at].as_str() == word {
                self.rest = &lines[at + 1..];
                return &lines[..at];
            }
        }
        self.rest = &[];
        lines
    }
}

//! The words of a row.
use std::alloc::{AllocError, Global};

/// The words of a row that are left, and the number that stands for `{}`.
#[derive(Drop)]
pub struct Words<'t> {
    pub rest: &'t str,
    pub number: u64,
}

impl<'t> Words<'t> {
    /// The next word, which is empty where there is none.
    pub fn word(&mut self) -> &'t str {
        match self.rest.split_once(' ') {
            Some((word, rest)) => {
                self.rest = rest;
                word
            }
            None => {
                let word = self.rest;
                self.rest = "";
                word
            }
        }
    }

    /// The number that stands for braces: the row's for `{}`, its rest by 40 for `{%40}`, and a number below 40 that it chooses for `{40}`.
    fn chosen(&self, inner: &str) -> u64 {
        if inner.is_empty() {
            return self.number;
        }
        match inner.strip_prefix("%") {
            Some(most) => self.number.checked_rem(long_of(most)).unwrap_or(0),
            None => (self.number >> 8).checked_rem(long_of(inner)).unwrap_or(0),
        }
    }

    /// The next word as a number, which is the greatest where it is none.
    pub fn long(&mut self) -> u64 {
        let word = self.word();
        match word.strip_prefix("{") {
            Some(inner) => self.chosen(inner.trim_end_matches('}')),
            None => long_of(word),
        }
    }

    /// The same, below 2 to the 32.
    pub fn number(&mut self) -> u32 {
        (self.long() & 0xffff_ffff) as u32
    }

    /// The next word, with a number in the place of its braces, where it has any.
    pub fn text(&mut self, alloc: Global) -> Result<String, AllocError> {
        let word = self.word();
        let Some((head, rest)) = word.split_once('{') else {
            return String::from_str(alloc, word);
        };
        let (inner, tail) = rest.split_once('}').unwrap_or((rest, ""));
        let number = self.chosen(inner);
        format!(in alloc; "{head}{number}{tail}")
    }
}

fn long_of(word: &str) -> u64 {
    word.parse::<u64>().unwrap_or(u64::MAX)
}

/// The place of a word in a text of words between commas, counted from 1; 0 where it isn't there.
pub fn place_of(words: &str, word: &str) -> u32 {
    let mut place = 0u32;
    for other in words.split(',') {
        place = place.saturating_add(1);
        if other == word {
            return place;
        }
    }
    0
}

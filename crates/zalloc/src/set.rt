//! A set of numbers, with a bit for each.
ghost use Rattle.std.specs.Prelude.{◌≡◌, ◌≢◌, ℕ, ◌+◌, ◌*◌, ◌/◌, ◌%◌, ◌<◌, ◌≤◌, ◌⊎◌, true, false, length, slice_index, IfSome, IfNone, IfOk, Some, vec_capacity};
ghost use Rattle.std.specs.List.{Contains};
ghost use Rattle.zalloc.specs.Bits.{is_one, IsEven};
ghost use Rattle.zalloc.specs.Sets.{word_at as word_in, bit_in, has_one, is_held, Tells, HasNone, IsFirst, IsKept, IsPut, IsWritten, AreSame};

use crate::MOST_BLOCKS;
use crate::bits::{even, has, least, lowest, put, with, without};
use std::alloc::{AllocError, Global};

/// How many numbers a window has, and for how many words of a level one word of the level above has bits.
pub const WINDOW: u32 = 64;

/// A set of numbers below `numbers`.
///
/// The numbers are divided into windows of 64. `words` has a word for each window, with a bit for each of its numbers. `groups` has a bit for
/// each word of `words`, which says whether any bit of that word is one, and `tops` has such a bit for each word of `groups`. So a search for
/// the next number of the set reads one or two words of `words` and of `groups`, and at most 17 of `tops`. A word past the end of a level's list
/// counts as `fill`, whose bits are all one or all zero. So a set that begins full or empty uses memory only for the words up to the last one
/// that has changed, in the room that `new` reserves. In the last window, the bits from `numbers` on have no meaning.
#[derive(Drop)]
pub struct NumberSet {
    numbers: u32,
    fill: u64,
    words: Vec<u64>,
    groups: Vec<u64>,
    tops: Vec<u64>,
}

impl NumberSet {
    /// The set of all numbers below `numbers`, or the empty set.
    pub fn new(alloc: Global, numbers: u32, full: bool) -> Result<NumberSet, AllocError>
        requires { numbers ≤ MOST_BLOCKS }
        ensures kept { IfOk result IsKept }
        ensures numbers { IfOk result (λ s. s.numbers ≡ numbers) }
        ensures held { IfOk result (λ s. (k : ℕ) → is_held s k ≡ full) }
    {
        let windows = numbers / WINDOW;
        let groups = windows / WINDOW;
        let tops = groups / WINDOW;
        Ok(NumberSet {
            numbers,
            fill: even(full),
            words: Vec::with_capacity(alloc, windows as usize + 1)?,
            groups: Vec::with_capacity(alloc, groups as usize + 1)?,
            tops: Vec::with_capacity(alloc, tops as usize + 1)?,
        })
    }

    /// A copy of the set, with as much room.
    pub fn copy(&self) -> Result<NumberSet, AllocError>
        requires { IsKept self.now }
        ensures kept { IfOk result IsKept }
        ensures same { IfOk result (AreSame self.now) }
    {
        Ok(NumberSet {
            numbers: self.numbers,
            fill: self.fill,
            words: copy_words(&self.words)?,
            groups: copy_words(&self.groups)?,
            tops: copy_words(&self.tops)?,
        })
    }

    /// The bound: each number is below it.
    pub fn numbers(&self) -> u32
        ensures { result ≡ self.now.numbers }
    {
        self.numbers
    }

    /// The first number of the set from `from` on.
    pub fn next(&self, from: u32) -> Option<u32>
        requires { IsKept self.now }
        ensures found { IfSome result (IsFirst self.now.fill self.now.words.items from) }
        ensures within { IfSome result (λ k. k < self.now.numbers) }
        ensures none { IfNone result ((k : ℕ) → from ≤ k → k < self.now.numbers → is_held self.now k ≡ false) }
    {
        if self.numbers <= from {
            return None;
        }
        let number = self.next_bit(from)?;
        if number < self.numbers {
            Some(number)
        } else {
            None
        }
    }

    // The first bit that is one, at `from` or after it. It may be a bit of the last window past `numbers`.
    fn next_bit(&self, from: u32) -> Option<u32>
        requires kept { IsKept self.now }
        requires within { from < self.now.numbers }
        ensures found { IfSome result (IsFirst self.now.fill self.now.words.items from) }
        ensures none { IfNone result (HasNone self.now.fill self.now.words.items from) }
    {
        if let Some(bit) = first_in_word(&self.words, from, self.fill) {
            return Some(bit);
        }
        let window = self.next_window(from / WINDOW + 1)?;
        Some(first_of_word(&self.words, window, self.fill))
    }

    // The first window, at `from` or after it, that has a bit that is one.
    fn next_window(&self, from: u32) -> Option<u32>
        requires kept { IsKept self.now }
        requires within { from ≤ MOST_BLOCKS / WINDOW + 1 }
        ensures found { IfSome result (IsFirst self.now.fill self.now.groups.items from) }
        ensures few { IfSome result (λ w. w < MOST_BLOCKS) }
        ensures none { IfNone result (HasNone self.now.fill self.now.groups.items from) }
    {
        if let Some(window) = first_in_word(&self.groups, from, self.fill) {
            return Some(window);
        }
        let group = next_by_word(&self.tops, from / WINDOW + 1, self.fill)?;
        Some(first_of_word(&self.groups, group, self.fill))
    }

    /// Whether a number is in the set.
    pub fn contains(&self, number: u32) -> bool
        ensures { result ≡ is_held self.now number }
    {
        has(self.word(number / WINDOW), number % WINDOW)
    }

    /// The bits of a window's numbers.
    pub fn word(&self, window: u32) -> u64
        ensures { result ≡ word_in self.now.fill self.now.words.items window }
    {
        word_at(&self.words, window, self.fill)
    }

    /// Sets the bits of a window's numbers to those of a word.
    pub fn write(&mut self, window: u32, word: u64)
        requires kept { IsKept self.old }
        requires within { window < self.old.numbers / WINDOW + 1 }
        ensures kept { IsKept self.new }
        ensures written { IsWritten window word self.old self.new }
    {
        let before = self.word(window);
        if before == word {
            return;
        }
        put_word(&mut self.words, window, word, self.fill);
        if (before != 0) == (word != 0) {
            return;
        }
        let group = window / WINDOW;
        put_bit(&mut self.groups, window, word != 0, self.fill);
        let some = word_at(&self.groups, group, self.fill) != 0;
        put_bit(&mut self.tops, group, some, self.fill);
    }

    /// Makes the set equal to `other`, which has the same bound, and from which it differs only in these windows. It costs a `write` for each
    /// window.
    pub fn copy_windows(&mut self, other: &NumberSet, windows: &[u32])
        requires kept { IsKept self.old }
        requires numbers { self.old.numbers ≡ other.now.numbers }
        requires within { (i : ℕ) → i < length windows.now → slice_index windows.now i < self.old.numbers / WINDOW + 1 }
        requires same { (k : ℕ) → k < self.old.numbers → (is_held self.old k ≡ is_held other.now k) ⊎ Contains windows.now (k / WINDOW) }
        ensures kept { IsKept self.new }
        ensures same { AreSame other.now self.new }
    {
        for window in windows {
            self.write(*window, other.word(*window));
        }
    }

    /// Adds a number.
    pub fn insert(&mut self, number: u32)
        requires kept { IsKept self.old }
        requires within { number < self.old.numbers }
        ensures kept { IsKept self.new }
        ensures put { IsPut number true self.old self.new }
    {
        let window = number / WINDOW;
        self.write(window, with(self.word(window), number % WINDOW));
    }

    /// Removes a number.
    pub fn remove(&mut self, number: u32)
        requires kept { IsKept self.old }
        requires within { number < self.old.numbers }
        ensures kept { IsKept self.new }
        ensures put { IsPut number false self.old self.new }
    {
        let window = number / WINDOW;
        self.write(window, without(self.word(window), number % WINDOW));
    }
}

/// A word of a level, or `fill` where the word isn't there yet.
fn word_at(words: &[u64], index: u32, fill: u64) -> u64
    ensures { result ≡ word_in fill words.now index }
{
    match words.get(index as usize) {
        Some(word) => *word,
        None => fill,
    }
}

/// Sets a word of a level. The words before it that aren't there yet are added as `fill`.
fn put_word(words: &mut Vec<u64>, index: u32, word: u64, fill: u64)
    requires { index < vec_capacity words.old }
    ensures here { word_in fill words.new.items index ≡ word }
    ensures there { (i : ℕ) → i ≢ index → word_in fill words.new.items i ≡ word_in fill words.old.items i }
    ensures room { vec_capacity words.new ≡ vec_capacity words.old }
{
    while words.len() <= index as usize {
        words.push_reserved(fill);
    }
    words[index as usize] = word;
}

/// Sets a bit of a level, as `put_word` sets its word.
fn put_bit(words: &mut Vec<u64>, at: u32, bit: bool, fill: u64)
    requires { at / WINDOW < vec_capacity words.old }
    ensures here { bit_in fill words.new.items at ≡ bit }
    ensures there { (k : ℕ) → k ≢ at → bit_in fill words.new.items k ≡ bit_in fill words.old.items k }
    ensures others { (i : ℕ) → i ≢ at / WINDOW → word_in fill words.new.items i ≡ word_in fill words.old.items i }
    ensures room { vec_capacity words.new ≡ vec_capacity words.old }
{
    let index = at / WINDOW;
    let word = put(word_at(words, index, fill), at % WINDOW, bit);
    put_word(words, index, word, fill);
}

/// The first bit that is one, at `from` or after it, in the word of `from`.
fn first_in_word(words: &[u64], from: u32, fill: u64) -> Option<u32>
    ensures found { IfSome result (IsFirst fill words.now from) }
    ensures same { IfSome result (λ k. k / WINDOW ≡ from / WINDOW) }
    ensures none { IfNone result ((i : ℕ) → from ≤ i → i / WINDOW ≡ from / WINDOW → bit_in fill words.now i ≡ false) }
{
    let index = from / WINDOW;
    match lowest(word_at(words, index, fill), from % WINDOW) {
        Some(bit) => Some(index * WINDOW + bit),
        None => None,
    }
}

/// The first bit that is one, of a word that is not zero.
fn first_of_word(words: &[u64], index: u32, fill: u64) -> u32
    requires some { has_one (word_in fill words.now index) ≡ true }
    requires few { index < MOST_BLOCKS }
    ensures first { IsFirst fill words.now (index * WINDOW) result }
    ensures same { result / WINDOW ≡ index }
{
    index * WINDOW + least(word_at(words, index, fill))
}

/// The first bit of a level that is one, at `from` or after it. It searches word by word.
fn next_by_word(words: &[u64], from: u32, fill: u64) -> Option<u32>
    requires fill { IsEven fill }
    requires few { from < MOST_BLOCKS / WINDOW }
    requires short { length words.now < MOST_BLOCKS / WINDOW / WINDOW }
    ensures found { IfSome result (IsFirst fill words.now from) }
    ensures few { IfSome result (λ k. k < MOST_BLOCKS / WINDOW) }
    ensures none { IfNone result (HasNone fill words.now from) }
{
    let mut start = from;
    while ((start / WINDOW) as usize) < words.len() {
        if let Some(bit) = first_in_word(words, start, fill) {
            return Some(bit);
        }
        start = (start / WINDOW + 1) * WINDOW;
    }
    if fill == 0 { None } else { Some(start) }
}

/// A copy of the words, with as much room.
fn copy_words(words: &Vec<u64>) -> Result<Vec<u64>, AllocError>
    ensures items { IfOk result (λ v. v.items ≡ words.now.items) }
    ensures room { IfOk result (λ v. vec_capacity v ≡ vec_capacity words.now) }
{
    let mut copies = Vec::with_capacity(*words.allocator(), words.capacity())?;
    for word in words {
        copies.push_reserved(*word);
    }
    Ok(copies)
}

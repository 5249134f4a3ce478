//! The windows in which numbers have changed.
ghost use Rattle.std.specs.Prelude.{◌≡◌, ℕ, ◌+◌, ◌/◌, ◌<◌, ◌≤◌, Some, true, false, IfOk, slice_get, slice_set, slice_index, length, replicate, vec_capacity, []};
ghost use Rattle.std.specs.List.{Contains};

use crate::MOST_BLOCKS;
use crate::set::WINDOW;
use std::alloc::{AllocError, Global};
use std::marker::Model;

/// The windows of which a number was noted. Contracts see for each window whether one of its numbers was.
///
/// It takes one byte for each window, and room for four more bytes each in the list of those that were noted. Only `new` takes memory.
#[derive(Drop)]
pub struct Touched {
    flags: Vec<bool>,
    noted: Vec<u32>,
}

impl Model for Touched {
    ghost use Rattle.std.specs.Prelude.{List, Bool};

    ghost Value = { List Bool };

    ghost use Rattle.zalloc.specs.Touched.{IsNoted};

    ghost view = { λ t. t.flags.items };

    ghost invariant = { IsNoted };
}

impl Touched {
    /// The windows of this many numbers, none of them noted.
    pub fn new(alloc: Global, numbers: u32) -> Result<Touched, AllocError>
        requires { numbers ≤ MOST_BLOCKS }
        ensures { IfOk result (λ t. t ≡ replicate (numbers / WINDOW + 1) false) }
    {
        let windows = (numbers / WINDOW + 1) as usize;
        let flags = vec![in alloc; false; windows]?;
        let noted = Vec::with_capacity(alloc, windows)?;
        Ok(Touched { flags, noted })
    }

    /// Notes the window of a number. Constant time.
    pub fn note(&mut self, number: u32)
        requires { number / WINDOW < length self.old }
        ensures { self.new ≡ slice_set self.old (number / WINDOW) true }
    {
        let window = number / WINDOW;
        if !self.flags[window as usize] {
            self.flags[window as usize] = true;
            self.noted.push_reserved(window);
        }
    }

    /// The list of the windows that were noted.
    pub fn noted(&self) -> &[u32]
        ensures all { (w : ℕ) → slice_get self.now w ≡ Some true → Contains result.now w }
        ensures within { (i : ℕ) → i < length result.now → slice_index result.now i < length self.now }
    {
        self.noted.as_slice()
    }

    /// Forgets all noted windows. It costs their number, and not the number of all windows.
    pub fn clear(&mut self)
        ensures { self.new ≡ replicate (length self.old) false }
    {
        unflag(&mut self.flags, &mut self.noted);
    }
}

/// Clears the flags of the windows in the list, and empties the list. Each window that has its flag is in the list.
fn unflag(flags: &mut Vec<bool>, noted: &mut Vec<u32>)
    requires { (w : ℕ) → slice_get flags.old.items w ≡ Some true → Contains noted.old.items w }
    ensures flags { flags.new.items ≡ replicate (length flags.old.items) false }
    ensures emptied { noted.new.items ≡ [] }
    ensures room { vec_capacity noted.new ≡ vec_capacity noted.old }
{
    while let Some(window) = noted.pop() {
        if (window as usize) < flags.len() {
            flags[window as usize] = false;
        }
    }
}

//! Gates of batches, and rows on the flags by which threads wait for one another.
use crate::table::Table;
use session::{Gate, Opening, Turns};
use std::alloc::AllocError;
use std::sync::Wait;
use std::sync::atomic::{AtomicBool, Ordering};
use std::thread::yield_now;
use telling::told::{tell, tell_whether};

/// How long a batch stands once the flag that it waits for is raised.
const PAUSE: u32 = 1000;

/// A gate that raises a flag when a batch stands at it, and lets it on some time after another is raised.
#[derive(Drop)]
pub struct Standing<'f> {
    pub raised: &'f AtomicBool,
    pub awaited: &'f AtomicBool,
    pub was_seen: bool,
    pub turns: u64,
    pub is_stopped: bool,
}

impl Gate for Standing<'_> {
    ghost left = { λ g. g.turns };

    ghost stopped = { λ g. g.is_stopped };

    fn turn(&mut self) -> bool {
        if self.turns == 0 || self.is_stopped {
            self.is_stopped = true;
            return false;
        }
        self.raised.store(true, Ordering::SeqCst);
        self.was_seen = comes_to_be_set(self.awaited);
        pause();
        self.turns -= 1;
        true
    }
}

fn pause() {
    for _ in 0..PAUSE {
        yield_now();
    }
}

/// Whether a flag is set within a million looks.
fn comes_to_be_set(flag: &AtomicBool) -> bool {
    for _ in 0..1_000_000u32 {
        if flag.load(Ordering::SeqCst) {
            return true;
        }
        yield_now();
    }
    false
}

/// How many turns a gate has left, of ten that it is asked for.
pub fn turns_left(gate: &mut Turns) -> u64 {
    let mut turns: u64 = 0;
    for _ in 0..10u8 {
        if gate.turn() {
            turns = turns.saturating_add(1);
        }
    }
    turns
}

/// Raises a flag.
pub fn raise<K: Opening, R: Wait>(
    table: &Table<K, R>,
    flag: &str,
    told: &mut Vec<u8>,
) -> Result<(), AllocError> {
    if let (Some(flag), _) = table.flag(flag) {
        flag.store(true, Ordering::SeqCst);
    }
    tell(told, "ok")
}

/// Waits for a flag.
pub fn wait<K: Opening, R: Wait>(
    table: &Table<K, R>,
    flag: &str,
    told: &mut Vec<u8>,
) -> Result<(), AllocError> {
    let is_set = match table.flag(flag) {
        (Some(flag), _) => comes_to_be_set(flag),
        _ => false,
    };
    tell_whether(told, is_set)
}

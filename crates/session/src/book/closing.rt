//! The end of a session: all seats' receipts are compared with the history.
ghost use Rattle.std.specs.Prelude.{◌≡◌, ◌+◌, ◌<◌, ◌≤◌, ◌==◌, ◌↔◌, ◌∷◌, List, ℕ, map, IsTrue, IsOk, IfOk, IfErr, All, count_by, MatchOption};
ghost use Rattle.std.specs.Arc.{arc_value};
ghost use Rattle.session.specs.History.{IsLegal};
ghost use Rattle.session.specs.Receipts.{Placed};
ghost use Rattle.session.specs.Whole.{IsWhole, IsAnswered, of_seat};

use crate::book::book::Book;
use crate::book::opening::Opening;
use crate::book::seat::{Receipt, Seat};
use base::refusal::Refusal;
use model::entry::Entry;
use pool::Pool;
use std::marker::PhantomData;
use std::sync::Arc;

/// What a session leaves: the pool, and the whole history. The entry with number k is at index k. There is a state at the place of each entry, as
/// `history_laws` says.
#[derive(Drop)]
pub struct Closed {
    pub pool: Pool,
    pub history: Vec<Arc<Entry>>,
}

impl<K: Opening> Book<K> {
    /// Compares all seats' receipts with the history, and returns the pool and the history. Busy, with the book and the seats handed back, where
    /// a seat is missing or given twice, or where the receipts don't match the history: each entry once, at its number and in its seat's order.
    /// Entries are compared by value, and the seats may come in any order. It allocates nothing, and takes time in proportion to the seats times
    /// the history.
    pub fn close(self, seats: Vec<Seat<K>>) -> Result<Closed, (Refusal, Book<K>, Vec<Seat<K>>)>
        ensures exact { IsOk result ↔ IsWhole self.seats self.history seats.items }
        ensures run { IfOk result (λ c. IsLegal K.opening (map arc_value c.history.items) c.pool.state) }
        ensures history { IfOk result (λ c. map arc_value c.history.items ≡ self.history) }
        ensures pool { IfOk result (λ c. c.pool.state ≡ self.pool) }
        ensures answered { IfOk result (λ c. IsAnswered (map arc_value c.history.items) seats.items) }
        ensures back { IfErr result (λ e. (e.0 ≡ Refusal.Busy) × (e.1 ≡ self) × (e.2 ≡ seats)) }
    {
        if !is_whole(self.seats, self.history.as_slice(), seats.as_slice()) {
            return Err((Refusal::Busy, self, seats));
        }
        Ok(self.give_up())
    }

    /// Returns the pool and the history without comparing any receipt: for a session that has lost a seat, which `close` would always answer
    /// Busy. The history is a run to the pool's state in this case too, and has the calls of the lost seats. The receipts of a seat that is left
    /// can be looked up in it. Constant time.
    pub fn give_up(self) -> Closed
        ensures run { IsLegal K.opening (map arc_value result.history.items) result.pool.state }
        ensures history { map arc_value result.history.items ≡ self.history }
        ensures pool { result.pool.state ≡ self.pool }
    {
        let Book {
            pool,
            history,
            limit: _,
            seats: _,
            of: PhantomData,
        } = self;
        Closed { pool, history }
    }
}

// Whether the seats together have exactly the receipts of the whole history.
fn is_whole<K: Opening>(given: u32, history: &[Arc<Entry>], seats: &[Seat<K>]) -> bool
    ensures { IsTrue result ↔ IsWhole given (map arc_value history.now) seats.now }
{
    if !all_there(given, seats) {
        return false;
    }
    if !all_named(given, history) {
        return false;
    }
    all_own(history, seats)
}

// Whether each seat from 1 to this number is there exactly once.
fn all_there<K: Opening>(given: u32, seats: &[Seat<K>]) -> bool
    ensures { IsTrue result ↔ ((i : ℕ) → i < given → count_by (λ s. s.number == i + 1) seats.now ≡ 1) }
{
    for i in 0..given {
        if count_of(i + 1, seats) != 1 {
            return false;
        }
    }
    true
}

// How many of the seats have this number.
fn count_of<K: Opening>(number: u32, seats: &[Seat<K>]) -> usize
    ensures { result ≡ count_by (λ s. s.number == number) seats.now }
{
    seats.iter().filter(|s| s.number == number).count()
}

// Whether each entry belongs to a seat that was given.
fn all_named(given: u32, history: &[Arc<Entry>]) -> bool
    ensures { IsTrue result ↔ All (λ e. (0 < e.seat) × (e.seat ≤ given)) (map arc_value history.now) }
{
    for entry in history {
        if entry.seat == 0 || entry.seat > given {
            return false;
        }
    }
    true
}

// Whether each seat's receipts are those of its entries.
fn all_own<K: Opening>(history: &[Arc<Entry>], seats: &[Seat<K>]) -> bool
    ensures { IsTrue result ↔ All (λ s. s.receipts ≡ of_seat s.number 0 (map arc_value history.now)) seats.now }
{
    for seat in seats {
        if !has_own(history, seat.number, seat.receipts.as_slice()) {
            return false;
        }
    }
    true
}

// Whether these are exactly the receipts for the entries of this seat, in order.
fn has_own(history: &[Arc<Entry>], number: u32, receipts: &[Receipt]) -> bool
    ensures { IsTrue result ↔ (receipts.now ≡ of_seat number 0 (map arc_value history.now)) }
{
    let mut rest = receipts;
    'entries: for (k, entry) in history.iter().enumerate() {
        if entry.seat == number {
            match after_one(rest, k as u64, entry) {
                Some(more) => rest = more,
                None => return false,
            }
        }
    }
    rest.is_empty()
}

// The receipts after the first, where the first is for this entry with this number; else None.
fn after_one<'a>(receipts: &'a [Receipt], number: u64, entry: &Entry) -> Option<&'a [Receipt]>
    ensures { MatchOption result ((rs : List Placed) → receipts.now ≡ record { number = number; entry = entry.now } ∷ rs → ⊥) (λ more. receipts.now ≡ record { number = number; entry = entry.now } ∷ more.now) }
{
    match receipts {
        [r, more @ ..] if r.number == number && r.entry.same(entry) => Some(more),
        _ => None,
    }
}

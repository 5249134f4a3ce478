//! Rows on the book of a session that has ended, and on the pool that it leaves.
ghost use Rattle.std.specs.Prelude.{◌≡◌};
ghost use Rattle.model.specs.State.{fresh_state};

use crate::fresh::fresh_book;
use crate::left;
use base::refusal::Refusal;
use session::{Book, Call, Closed, Entered, Opening, Seat, Session, enter_call};
use session_seats::sitter::Sitter;
use session_seats::table::tell_called;
use std::alloc::{AllocError, Global};
use telling::lines::requests_of;
use telling::told::{end_line, tell, tell_number, tell_refusal};
use telling::words::{parted, placed};

/// Books, of which the last is asked, with all seats, and what was closed, of which the last is asked too.
pub struct Ended<K: Opening> {
    alloc: Global,
    blocks: u32,
    books: Vec<Book<K>>,
    pub sitters: Vec<Sitter<K>>,
    left: Vec<Closed>,
}

// Written by hand, so that it is proved once: a derived `Drop` is expanded again in each crate that drops the type.
impl<K: Opening> Drop for Ended<K> {
    fn drop(self) {
        let Ended {
            alloc: _,
            blocks: _,
            books,
            sitters,
            left,
        } = self;
        drop(left);
        drop(sitters);
        drop(books);
    }
}

/// Tells what became of a call, and whether it has opened a view.
fn tell_entered(
    alloc: Global,
    entered: Result<Entered, Refusal>,
    told: &mut Vec<u8>,
) -> Result<(), AllocError> {
    match entered {
        Ok(Entered { receipt, viewed }) => {
            let is_viewed = viewed.is_some();
            drop(viewed);
            tell_called(alloc, Ok(receipt), told)?;
            tell(told, if is_viewed { " viewed" } else { "" })
        }
        Err(refusal) => tell_refusal(alloc, told, refusal),
    }
}

impl<K: Opening> Ended<K> {
    /// No books, whose pools have so many blocks, and no seats.
    pub fn new(alloc: Global, blocks: u32) -> Ended<K> {
        Ended {
            alloc,
            blocks,
            books: Vec::new(alloc),
            sitters: Vec::new(alloc),
            left: Vec::new(alloc),
        }
    }

    /// Adds a book of a fresh pool.
    pub fn add_fresh(&mut self, blocks: u32, limit: u64) -> Result<(), Refusal>
        requires opening { fresh_state 1 blocks ≡ K.opening }
        requires limit { limit ≡ K.limit }
    {
        let book = fresh_book(self.alloc, blocks, limit)?;
        self.add(book)?;
        Ok(())
    }

    /// Adds the book of a session, which ends.
    pub fn end(&mut self, session: Session<K>) -> Result<(), AllocError> {
        self.add(session.end())
    }

    fn add(&mut self, book: Book<K>) -> Result<(), AllocError> {
        if self.books.reserve(1).is_err() {
            drop(book);
            return Err(AllocError);
        }
        self.books.push_reserved(book);
        Ok(())
    }

    /// Carries out a row.
    pub fn row(&mut self, row: &str, told: &mut Vec<u8>) -> Result<(), AllocError> {
        let (word, rest) = parted(row);
        match word {
            "other" => self.other(told),
            "seat" => self.seat(told),
            "enter" => self.enter(rest, told),
            "room" => self.room(told),
            "close" => self.close(rest, told),
            "give" => self.give(told),
            _ => self.left_row(word, rest, told),
        }?;
        end_line(told)
    }

    fn left_row(&mut self, word: &str, rest: &str, told: &mut Vec<u8>) -> Result<(), AllocError> {
        let (alloc, blocks) = (self.alloc, self.blocks);
        let Some(closed) = self.left.last_mut() else {
            return tell(told, "none");
        };
        match word {
            "apply" => left::apply(alloc, &mut closed.pool, rest, told),
            "entry" => left::entry(alloc, &closed.history, rest, told),
            "history" => left::history(alloc, &closed.history, told),
            "replay" => left::replay(alloc, blocks, closed, told),
            _ => tell(told, "unknown"),
        }
    }

    /// Goes on with the other book, where there are two.
    fn other(&mut self, told: &mut Vec<u8>) -> Result<(), AllocError> {
        self.books.reverse();
        tell(told, "ok")
    }

    fn seat(&mut self, told: &mut Vec<u8>) -> Result<(), AllocError> {
        self.sitters.reserve(1)?;
        let Some(book) = self.books.last_mut() else {
            return tell(told, "none");
        };
        match book.give_seat(self.alloc) {
            Ok(seat) => {
                self.sitters.push_reserved(Sitter::new(self.alloc, seat));
                tell(told, "ok")
            }
            Err(refusal) => tell_refusal(self.alloc, told, refusal),
        }
    }

    fn room(&mut self, told: &mut Vec<u8>) -> Result<(), AllocError> {
        match self.books.last() {
            Some(book) => tell_number(self.alloc, told, book.room() as u64),
            None => tell(told, "none"),
        }
    }

    /// Enters the call of `SEAT LINE`.
    fn enter(&mut self, rest: &str, told: &mut Vec<u8>) -> Result<(), AllocError> {
        let (place, line) = placed(rest);
        let (Some(book), Some(sitter)) = (self.books.last_mut(), self.sitters.get_mut(place)) else {
            return tell(told, "none");
        };
        match &mut sitter.seat {
            Some(seat) => enter_line(self.alloc, book, seat, line, told),
            None => tell(told, "none"),
        }
    }

    /// Closes the book with the seats of these numbers.
    fn close(&mut self, numbers: &str, told: &mut Vec<u8>) -> Result<(), AllocError> {
        self.left.reserve(1)?;
        let given = taken(self.alloc, &mut self.sitters, numbers)?;
        let Some(book) = self.books.pop() else {
            drop(given);
            return tell(told, "none");
        };
        match book.close(given) {
            Ok(closed) => {
                self.left.push_reserved(closed);
                tell(told, "closed")
            }
            Err((refusal, book, given)) => {
                self.books.push_reserved(book);
                put_back(&mut self.sitters, numbers, given);
                tell_refusal(self.alloc, told, refusal)
            }
        }
    }

    fn give(&mut self, told: &mut Vec<u8>) -> Result<(), AllocError> {
        self.left.reserve(1)?;
        match self.books.pop() {
            Some(book) => {
                self.left.push_reserved(book.give_up());
                tell(told, "given")
            }
            None => tell(told, "none"),
        }
    }
}

/// Enters the call of a line.
fn enter_line<K: Opening>(
    alloc: Global,
    book: &mut Book<K>,
    seat: &mut Seat<K>,
    line: &str,
    told: &mut Vec<u8>,
) -> Result<(), AllocError> {
    let mut requests = requests_of(alloc, line)?;
    let Some(request) = requests.pop() else {
        return tell(told, "none");
    };
    let entered = match Call::new(alloc, seat, request) {
        Ok(call) => enter_call(alloc, book, seat, call),
        Err(refusal) => Err(refusal),
    };
    tell_entered(alloc, entered, told)
}

/// The seats of these numbers, in their order.
fn taken<K: Opening>(
    alloc: Global,
    sitters: &mut [Sitter<K>],
    numbers: &str,
) -> Result<Vec<Seat<K>>, AllocError> {
    let mut given = Vec::new(alloc);
    for word in numbers.split(' ') {
        given.reserve(1)?;
        if let Some(sitter) = sitters.get_mut(placed(word).0)
            && let Some(seat) = sitter.seat.take()
        {
            given.push_reserved(seat);
        }
    }
    Ok(given)
}

/// Puts seats back under the numbers by which they were taken.
fn put_back<K: Opening>(sitters: &mut [Sitter<K>], numbers: &str, given: Vec<Seat<K>>) {
    for (seat, word) in given.into_iter().zip(numbers.split(' ')) {
        match sitters.get_mut(placed(word).0) {
            Some(sitter) => sitter.seat = Some(seat),
            None => drop(seat),
        }
    }
}

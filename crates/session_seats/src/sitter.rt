//! Who sits at a session: a seat, the views that it has opened, and what its rows tell.
use crate::calling::{batch, call, stand};
use crate::gates::{raise, wait};
use crate::table::Table;
use crate::viewing::{close_view, forget, look_at, open_view, send};
use crate::working::{free, sync};
use session::{Opening, Seat, View};
use std::alloc::{AllocError, Global};
use std::sync::Wait;
use telling::told::{end_line, tell};
use telling::words::{numbered, parted};

/// A seat, which may have been handed on, and its views.
pub struct Sitter<K: Opening> {
    pub seat: Option<Seat<K>>,
    pub views: Vec<View<K>>,
    pub told: Vec<u8>,
    /// Whether memory was refused to what a row tells.
    pub is_faulty: bool,
}

// Written by hand, so that it is proved once: a derived `Drop` is expanded again in each crate that drops the type.
impl<K: Opening> Drop for Sitter<K> {
    fn drop(self) {
        let Sitter {
            seat,
            views,
            told,
            is_faulty: _,
        } = self;
        drop(told);
        drop(views);
        drop(seat);
    }
}

impl<K: Opening> Sitter<K> {
    pub fn new(alloc: Global, seat: Seat<K>) -> Sitter<K> {
        Sitter {
            seat: Some(seat),
            views: Vec::new(alloc),
            told: Vec::new(alloc),
            is_faulty: false,
        }
    }

    /// Carries out those of some rows that are this seat's.
    pub fn run<R: Wait>(
        &mut self,
        table: &Table<K, R>,
        lent: &[View<K>],
        lines: &[String],
        seat: usize,
    ) {
        for line in lines {
            let (word, rest) = parted(line.as_str());
            let (number, rest) = numbered(rest);
            if number == seat as u64 && !self.is_faulty {
                self.is_faulty = self.row(table, lent, word, rest).is_err();
            }
        }
    }

    /// Carries out a row.
    pub fn row<R: Wait>(
        &mut self,
        table: &Table<K, R>,
        lent: &[View<K>],
        word: &str,
        rest: &str,
    ) -> Result<(), AllocError> {
        match word {
            "look" => look_at(table.alloc, &self.views, rest, &mut self.told),
            "see" => look_at(table.alloc, lent, rest, &mut self.told),
            "send" => send(table.alloc, &self.views, rest, &mut self.told),
            "forget" => forget(table.alloc, &mut self.views, rest, &mut self.told),
            "raise" => raise(table, rest, &mut self.told),
            "wait" => wait(table, rest, &mut self.told),
            "drop" => self.give_up(),
            _ => self.seated_row(table, word, rest),
        }?;
        end_line(&mut self.told)
    }

    fn give_up(&mut self) -> Result<(), AllocError> {
        self.seat = None;
        tell(&mut self.told, "ok")
    }

    /// Carries out a row that the seat asks of the session.
    fn seated_row<R: Wait>(
        &mut self,
        table: &Table<K, R>,
        word: &str,
        rest: &str,
    ) -> Result<(), AllocError> {
        let Some(seat) = &mut self.seat else {
            return tell(&mut self.told, "none");
        };
        match word {
            "call" => call(table, seat, rest, &mut self.told),
            "batch" => batch(table, seat, rest, &mut self.told),
            "stand" => stand(table, seat, rest, &mut self.told),
            "sync" => sync(table, seat, rest, &mut self.told),
            "free" => free(table, seat, rest, &mut self.told),
            "view" => open_view(table, seat, &mut self.views, rest, &mut self.told),
            "unview" => close_view(table, seat, &mut self.views, rest, &mut self.told),
            _ => tell(&mut self.told, "unknown"),
        }
    }
}

//! Callers' seats, and their receipts.
use crate::book::opening::Opening;
use model::entry::Entry;
use std::marker::{Model, PhantomData};
use std::sync::Arc;

/// The place of a call in the history: its number, from 0, and the entry there. Contracts see the number and the entry.
pub struct Receipt {
    pub number: u64,
    pub entry: Arc<Entry>,
}

// Written by hand, so that it is proved once: a derived `Drop` is expanded again in each crate that drops the type.
impl Drop for Receipt {
    fn drop(self) {
        let Receipt { number: _, entry } = self;
        drop(entry);
    }
}

impl Model for Receipt {
    ghost use Rattle.std.specs.Arc.{arc_value};
    ghost use Rattle.session.specs.Receipts.{Placed, placed_code};

    ghost Value = { Placed };

    ghost coded = { placed_code };

    ghost view = { λ r. record { number = r.number; entry = arc_value r.entry } };
}

/// The right to make calls, which belongs to one caller at a time. It keeps a receipt for each of its calls, in their order. Contracts see its
/// number, 1 to 64, and the receipts.
pub struct Seat<K: Opening> {
    pub(crate) number: u32,
    pub(crate) receipts: Vec<Receipt>,
    pub(crate) of: PhantomData<K>,
}

// Written by hand, so that it is proved once: a derived `Drop` is expanded again in each crate that drops the type.
impl<K: Opening> Drop for Seat<K> {
    fn drop(self) {
        let Seat {
            number: _,
            receipts,
            of: _,
        } = self;
        drop(receipts);
    }
}

impl<K: Opening> Model for Seat<K> {
    ghost use Rattle.session.specs.Receipts.{Kept, kept_code};

    ghost Value = { Kept };

    ghost coded = { kept_code };

    ghost view = { λ s. record { number = s.number; receipts = s.receipts.items } };
}

//! What carries out rows.
use crate::dead::DeadLists;
use crate::lists::Lists;
use crate::numbers::Allocators;
use crate::pairs::TwoStates;
use row_machine::lines::Rows;
use row_machine::told::Told;
use row_machine::words::Words;
use std::alloc::Global;

/// All that rows speak of.
#[derive(Drop)]
pub struct Machine {
    lists: Lists,
    numbers: Allocators,
    pair: TwoStates,
    dead: DeadLists,
}

impl Machine {
    pub fn new(alloc: Global) -> Machine {
        Machine {
            lists: Lists::new(alloc),
            numbers: Allocators::new(alloc),
            pair: TwoStates::new(alloc),
            dead: DeadLists::new(alloc),
        }
    }
}

impl Rows for Machine {
    fn row(&mut self, kind: &str, words: &mut Words) -> Told {
        match kind {
            "list" => self.lists.row(words),
            "number" => self.numbers.row(words),
            "states" => self.pair.row(words),
            "dead" => self.dead.row(words),
            _ => Told::Unknown,
        }
    }
}

//! What carries out rows.
use crate::tops::Tops;
use crate::trees::Trees;
use crate::updates::Batch;
use row_machine::lines::Rows;
use row_machine::told::{Told, told_or_refused};
use row_machine::words::Words;
use std::alloc::Global;

/// All that rows speak of.
#[derive(Drop)]
pub struct Machine {
    batch: Batch,
    trees: Trees,
    tops: Tops,
}

impl Machine {
    pub fn new(alloc: Global) -> Machine {
        Machine {
            batch: Batch::new(alloc),
            trees: Trees::new(alloc),
            tops: Tops::new(alloc),
        }
    }
}

impl Rows for Machine {
    fn row(&mut self, kind: &str, words: &mut Words) -> Told {
        told_or_refused(match kind {
            "batch" => self.batch.row(words),
            "tree" => self.trees.row(self.batch.updates(), words),
            "top" => self.tops.row(&self.trees, words),
            _ => Ok(Told::Unknown),
        })
    }
}

//! What carries out rows.
use crate::bookmarks::Marks;
use crate::lines::Lines;
use crate::names::Names;
use crate::tags::Tags;
use row_machine::lines::Rows;
use row_machine::told::{Told, told_or_refused};
use row_machine::words::Words;
use std::alloc::Global;

/// All that rows speak of.
#[derive(Drop)]
pub struct Machine {
    names: Names,
    lines: Lines,
    tags: Tags,
    marks: Marks,
}

/// A value that can be held by several threads, where its type allows that.
pub fn shared<T: Send + Sync>(it: T) -> T {
    it
}

impl Machine {
    pub fn new(alloc: Global) -> Machine {
        Machine {
            names: Names::new(alloc),
            lines: Lines::new(alloc),
            tags: Tags::new(alloc),
            marks: Marks::new(alloc),
        }
    }
}

impl Rows for Machine {
    fn row(&mut self, kind: &str, words: &mut Words) -> Told {
        told_or_refused(match kind {
            "byname" => self.names.row(words),
            "line" => self.lines.row(words),
            "own" => self.lines.own_row(words),
            "tag" => self.tags.row(words),
            "kept" => self.tags.kept_row(words),
            "mark" => self.marks.row(words),
            _ => Ok(Told::Unknown),
        })
    }
}

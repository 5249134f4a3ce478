//! Rows on trees.
use crate::looks::{are_same_numbers, ask, same};
use crate::rig::{Rig, When};
use base::number::Group;
use base::refusal::Refusal;
use row_machine::told::Told;
use row_machine::words::Words;
use std::alloc::Global;
use tree::{Tree, Update};
use tree_tests::ready::meter;
use zalloc::{Allocator, MOST_BLOCKS};

/// Three trees, where they were made, the group in which batches are put in force, and how many nodes the last one reached.
#[derive(Drop)]
pub struct Trees {
    alloc: Global,
    one: Option<Rig>,
    other: Option<Rig>,
    third: Option<Rig>,
    group: u64,
    reached: u64,
}

impl Trees {
    pub fn new(alloc: Global) -> Trees {
        Trees {
            alloc,
            one: None,
            other: None,
            third: None,
            group: 1,
            reached: 0,
        }
    }

    pub fn at(&self, register: u32) -> Option<&Rig> {
        match register {
            0 => self.one.as_ref(),
            1 => self.other.as_ref(),
            _ => self.third.as_ref(),
        }
    }

    fn place(&mut self, register: u32) -> &mut Option<Rig> {
        match register {
            0 => &mut self.one,
            1 => &mut self.other,
            _ => &mut self.third,
        }
    }

    /// The present group, where blocks are young that were born in it or in so many groups before it.
    fn when(&self, back: u64) -> When {
        When {
            group: Group(self.group),
            young: Group(self.group.saturating_sub(back)),
        }
    }

    /// Carries out `CALL ..`.
    pub fn row(&mut self, updates: &[Update], words: &mut Words) -> Result<Told, Refusal> {
        let call = words.word();
        match call {
            "group" => {
                self.group = words.long();
                Ok(Told::Done)
            }
            "later" => {
                self.group = self.group.saturating_add(1);
                Ok(Told::Done)
            }
            "reached" => Ok(Told::One(self.reached)),
            _ => self.tree_row(call, updates, words),
        }
    }

    /// Carries out `CALL TREE ..`.
    fn tree_row(
        &mut self,
        call: &str,
        updates: &[Update],
        words: &mut Words,
    ) -> Result<Told, Refusal> {
        let register = words.number();
        match call {
            "new" => self.make(register, words.number()),
            "copy" => self.copy(register, words.number()),
            "drop" => {
                *self.place(register) = None;
                Ok(Told::Done)
            }
            "put" => self.put(register, updates, words.long()),
            "same" | "numbers" => Ok(self.compare(call, register, words.number())),
            _ => self.ask(call, register, updates, words),
        }
    }

    fn make(&mut self, register: u32, numbers: u32) -> Result<Told, Refusal> {
        if numbers > MOST_BLOCKS {
            return Ok(Told::Absent);
        }
        let allocator = Allocator::new(self.alloc, numbers)?;
        *self.place(register) = Some(Rig {
            tree: Tree::new(),
            allocator,
        });
        Ok(Told::Done)
    }

    fn copy(&mut self, register: u32, to: u32) -> Result<Told, Refusal> {
        let Some(rig) = self.at(register) else {
            return Ok(Told::Absent);
        };
        let copy = rig.copy()?;
        *self.place(to) = Some(copy);
        Ok(Told::Done)
    }

    fn put(&mut self, register: u32, updates: &[Update], back: u64) -> Result<Told, Refusal> {
        let (alloc, when) = (self.alloc, self.when(back));
        let mut nodes = meter();
        let Some(rig) = self.place(register) else {
            return Ok(Told::Absent);
        };
        let told = rig.put(alloc, updates, when, &mut nodes)?;
        self.reached = nodes.count();
        Ok(told)
    }

    fn compare(&self, call: &str, register: u32, other: u32) -> Told {
        let (Some(one), Some(other)) = (self.at(register), self.at(other)) else {
            return Told::Absent;
        };
        if call == "same" {
            same(&one.tree, &other.tree)
        } else {
            Told::Is(are_same_numbers(&one.allocator, &other.allocator))
        }
    }

    fn ask(
        &self,
        call: &str,
        register: u32,
        updates: &[Update],
        words: &mut Words,
    ) -> Result<Told, Refusal> {
        match self.at(register) {
            Some(rig) => ask(self.alloc, rig, updates, self.when(0), call, words),
            None => Ok(Told::Absent),
        }
    }
}

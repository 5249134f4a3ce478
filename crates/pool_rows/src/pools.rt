//! What carries out rows.
use crate::asked::{AskedPool, Way, are_same};
use crate::root::tell_root;
use crate::stops::stops;
use crate::takes::take;
use crate::walks::walked;
use base::refusal::Refusal;
use pool::Pool;
use std::alloc::{AllocError, Global};
use telling::blocks::are_alike;
use telling::told::{tell, tell_number, tell_refusal, tell_whether};
use telling::words::parted;

/// The pools that rows speak of.
pub struct Pools {
    alloc: Global,
    pools: Vec<AskedPool>,
}

impl Drop for Pools {
    fn drop(self) {
        let Pools { alloc: _, pools } = self;
        drop(pools);
    }
}

impl Pools {
    pub fn new(alloc: Global) -> Pools {
        Pools {
            alloc,
            pools: Vec::new(alloc),
        }
    }

    /// Carries out a row, and tells what it is to tell.
    pub fn row(&mut self, row: &str, told: &mut Vec<u8>) -> Result<(), AllocError> {
        let (number, row) = parted(row);
        let (word, rest) = parted(row);
        let place = usize::from(number == "1");
        match word {
            "make" => self.make(place, rest, told),
            "alike" => self.alike(told),
            "same" => self.same(rest, told),
            "destroys" | "rename" | "rename_snapshot" => self.asked(place, "apply", row, told),
            _ => self.asked(place, word, rest, told),
        }
    }

    /// Makes a pool of `ID BLOCKS`.
    fn make(&mut self, place: usize, sizes: &str, told: &mut Vec<u8>) -> Result<(), AllocError> {
        let (id, blocks) = parted(sizes);
        let (id, blocks) = (
            id.parse::<u32>().unwrap_or(0),
            blocks.parse::<u32>().unwrap_or(0),
        );
        match Pool::create(self.alloc, id, blocks) {
            Ok(pool) => {
                self.put(place, AskedPool::new(self.alloc, pool))?;
                tell(told, "ok")
            }
            Err(refusal) => tell_refusal(self.alloc, told, refusal),
        }
    }

    /// Puts a pool in the place of another, or behind all.
    fn put(&mut self, place: usize, pool: AskedPool) -> Result<(), AllocError> {
        if self.pools.reserve(1).is_err() {
            drop(pool);
            return Err(AllocError);
        }
        let is_there = place < self.pools.len();
        self.pools.push_reserved(pool);
        if is_there {
            drop(self.pools.swap_remove(place));
        }
        Ok(())
    }

    fn alike(&self, told: &mut Vec<u8>) -> Result<(), AllocError> {
        let outcome = match self.pools.as_slice() {
            [one, other] => are_alike(self.alloc, &one.pool, &other.pool),
            _ => Err(Refusal::BadLine),
        };
        tell_outcome(self.alloc, told, outcome)
    }

    /// Whether the two lines of `LINE; LINE` ask the same.
    fn same(&self, lines: &str, told: &mut Vec<u8>) -> Result<(), AllocError> {
        match are_same(self.alloc, lines)? {
            Some(is_same) => tell_whether(told, is_same),
            None => tell(told, "none"),
        }
    }

    /// A row on one pool.
    fn asked(
        &mut self,
        place: usize,
        word: &str,
        rest: &str,
        told: &mut Vec<u8>,
    ) -> Result<(), AllocError> {
        let alloc = self.alloc;
        let Some(asked) = self.pools.get_mut(place) else {
            return tell(told, "none");
        };
        match word {
            "apply" => asked.ask_line(Way::AtOnce, rest, told),
            "two" => asked.ask_line(Way::InTwo, rest, told),
            "left" => asked.ask_line(Way::Left, rest, told),
            "list" => asked.run_list(rest, told),
            "take" => take(alloc, &mut asked.pool, rest, told),
            "stops" => tell_stops(alloc, &mut asked.pool, rest, told),
            "walks" => tell_walks(alloc, &asked.pool, rest == "last", told),
            "root" => tell_root(alloc, &asked.pool, told),
            "keeps" => tell_number(alloc, told, asked.pool.image().keeps()),
            "meters" => tell_meters(alloc, &asked.pool, told),
            _ => tell(told, "unknown"),
        }
    }
}

fn tell_outcome(
    alloc: Global,
    told: &mut Vec<u8>,
    outcome: Result<bool, Refusal>,
) -> Result<(), AllocError> {
    match outcome {
        Ok(is_so) => tell_whether(told, is_so),
        Err(refusal) => tell_refusal(alloc, told, refusal),
    }
}

fn tell_stops(
    alloc: Global,
    pool: &mut Pool,
    line: &str,
    told: &mut Vec<u8>,
) -> Result<(), AllocError> {
    match stops(alloc, pool, line) {
        Ok(Some(blocks)) => tell_number(alloc, told, blocks),
        Ok(None) => tell(told, "no"),
        Err(refusal) => tell_refusal(alloc, told, refusal),
    }
}

fn tell_meters(alloc: Global, pool: &Pool, told: &mut Vec<u8>) -> Result<(), AllocError> {
    let (nodes, segments) = pool.meters();
    tell_number(alloc, told, nodes)?;
    tell(told, " ")?;
    tell_number(alloc, told, segments)
}

fn tell_walks(
    alloc: Global,
    pool: &Pool,
    last: bool,
    told: &mut Vec<u8>,
) -> Result<(), AllocError> {
    match walked(alloc, pool, last) {
        Ok(found) => found.tell(alloc, told),
        Err(refusal) => tell_refusal(alloc, told, refusal),
    }
}

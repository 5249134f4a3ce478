//! The leaves.
ghost use Rattle.std.specs.Prelude.{◌≡◌};

use crate::cell::Cell;
use crate::node::{Level, dead, reach};
use base::meter::Meter;
use base::number::{BlockNo, Dead, Group};
use std::alloc::AllocError;

/// A data block.
#[derive(Drop)]
pub struct Leaf {
    pub block: BlockNo,
    pub birth: Group,
    pub bytes: [u8; 512],
}

impl Leaf {
    /// A leaf with these bytes.
    pub fn new(block: BlockNo, birth: Group, bytes: [u8; 512]) -> Leaf
        ensures { result ≡ record { block = block; birth = birth; bytes = bytes } }
    {
        Leaf {
            block,
            birth,
            bytes,
        }
    }
}

impl Level for Leaf {
    ghost use Rattle.node.specs.Node.{leaf_part};

    ghost part = { leaf_part };

    ghost height = { 0 };

    fn cell(&self) -> Cell<'_> {
        Cell {
            block: self.block,
            birth: self.birth,
            bytes: Some(&self.bytes),
        }
    }

    fn find(&self, depth: u32, _at: u32, meter: &mut Meter) -> Option<Cell<'_>> {
        meter.add_one();
        if depth == 0 { Some(self.cell()) } else { None }
    }

    fn block(&self) -> Dead {
        dead(self.block, self.birth)
    }

    #[tactic(auto, unfolding(crate::specs::Walk::born_after, base::specs::Counting::counted, base::specs::Counting::most))]
    fn gather(&self, cut: Group, out: &mut Vec<Dead>, meter: &mut Meter) -> Result<(), AllocError> {
        reach(meter);
        if self.birth.0 > cut.0 {
            out.push(self.block())?;
        }
        Ok(())
    }
}

//! Receives of streams.
ghost use Rattle.std.specs.Prelude.{◌≡◌, ◌≤◌, IfOk, OnErr};
ghost use Rattle.model.specs.declared.request.Request.{Request};
ghost use Rattle.pool.specs.Pools.{state_in, IsHeld};
ghost use Rattle.pool.specs.Effects.{IsPerformed, WritesBlocks};

use crate::effect::{Effect, Performed};
use crate::keep::{Keep, Meters, Spare};
use crate::worlds::World;
use base::name::SnapName;
use base::text::Bytes;
use image::{Writes, blocks_in};
use model::receiving::Receiving;
use removals::WorkingCopy;
use std::alloc::Global;
use steps::{Present, intake_of, recount};

impl Keep {
    /// Receives a stream. At `Err` the world is unchanged. It costs what `steps::intake_of` does, and what `blocks_in` does for the new blocks.
    pub(crate) fn receive(
        &self,
        alloc: Global,
        world: &mut World,
        snapshot: &SnapName,
        bytes: &Bytes,
        mode: &Receiving,
        meters: &mut Meters,
        spare: &mut Spare,
    ) -> Performed<'static>
        requires { IsHeld self.now world.old }
        ensures performed { IsPerformed (state_in self.now world.old) self.now.numbers.present world.new (Request.Receive snapshot.now bytes.now mode.now) result }
        ensures blocks { IfOk result WritesBlocks }
        ensures unchanged { OnErr result (world.new ≡ world.old) }
        ensures never_lower { meters.old.blocks ≤ meters.new.blocks }
        ensures segments_never_lower { meters.old.segments ≤ meters.new.segments }
    {
        let present = Present {
            table: &world.table,
            freeing: &world.freeing,
            views: &self.views,
            synced: self.last.table.group(),
            allocator: self.numbers.present(),
            size: self.size,
            is_limited: world.ledger.is_some(),
        };
        let mut draft = spare.draft(alloc)?;
        let intake = intake_of(
            alloc,
            present,
            snapshot,
            bytes.as_slice(),
            mode,
            &mut meters.blocks,
            &mut meters.segments,
            &mut draft,
        )?;
        let WorkingCopy { to, freeing } = intake;
        let name = &snapshot.member().file_system;
        let blocks = blocks_in(alloc, &to, name, draft.made.as_slice(), &mut meters.blocks)?;
        let writes = Writes::Each { blocks };
        world.table = to;
        world.freeing = freeing;
        recount(&mut world.ledger, &world.table, name);
        Ok(Effect::Blocks(draft, writes))
    }
}

//! Syncs, slices, and abandons, which go back to the last synced world.
ghost use Rattle.std.specs.Prelude.{◌≡◌, ◌≤◌, OnErr};
ghost use Rattle.model.specs.declared.request.Request.{Request};
ghost use Rattle.pool.specs.Pools.{state_in, IsHeld};
ghost use Rattle.pool.specs.Effects.{IsPerformed};

use crate::effect::{Effect, Performed};
use crate::keep::{Keep, Meters};
use crate::worlds::{World, copy_of};
use base::meter::SegMeter;
use base::refusal::Refusal;
use datasets::LAST_GROUP;
use removals::WorkingCopy;
use snap::Slice;
use std::alloc::Global;
use steps::renew;

impl Keep {
    /// Closes the open group: a copy of the world, in the next group, becomes the last synced one when the effect is settled. TooMany where the
    /// open group is `LAST_GROUP`, else NoMemory where the copy can't be allocated. At `Err` the world is unchanged. It costs what `World::copy`
    /// does, and the number of open views.
    pub(crate) fn sync(&self, alloc: Global, world: &mut World) -> Performed<'static>
        requires { IsHeld self.now world.old }
        ensures performed { IsPerformed (state_in self.now world.old) self.now.numbers.present world.new Request.Sync result }
        ensures unchanged { OnErr result (world.new ≡ world.old) }
    {
        if world.table.group().0 >= LAST_GROUP {
            return Err(Refusal::TooMany);
        }
        let viewed = self.views.viewed(alloc)?;
        let mut last = world.copy()?;
        last.table.close_group();
        let kept = Box::new(alloc, last)?;
        world.table.close_group();
        Ok(Effect::Synced(kept, viewed))
    }

    /// Replaces the datasets of this world, and the blocks to be freed, by those of the last sync, and removes the snapshots that only a view had
    /// kept. Busy where a view is open. At `Err` the world is unchanged. It costs what `WorkingCopy::of` does, the number of file systems times
    /// its logarithm where one has a limit, and for each snapshot that a view showed at the last sync what `WorkingCopy::sweep` does.
    pub(crate) fn abandon(
        &self,
        alloc: Global,
        world: &mut World,
        segments: &mut SegMeter,
    ) -> Performed<'static>
        requires { IsHeld self.now world.old }
        ensures performed { IsPerformed (state_in self.now world.old) self.now.numbers.present world.new Request.Abandon result }
        ensures unchanged { OnErr result (world.new ≡ world.old) }
        ensures never_lower { segments.old ≤ segments.new }
    {
        if self.views.len() > 0 {
            return Err(Refusal::Busy);
        }
        let mut edit = WorkingCopy::of(&self.last.table, &self.last.freeing)?;
        edit.sweep(alloc, &self.views, &self.viewed, segments)?;
        let ledger = copy_of(&self.last.ledger)?;
        edit.put(&mut world.table, &mut world.freeing);
        world.ledger = ledger;
        renew(&mut world.ledger, &world.table);
        Ok(Effect::Abandoned)
    }

    /// Takes up to `count` blocks out of the blocks to be freed. At `Err` the world is unchanged. It costs what `Freeing::slice` does.
    pub(crate) fn slice(
        &self,
        world: &mut World,
        count: u64,
        meters: &mut Meters,
    ) -> Performed<'static>
        requires { IsHeld self.now world.old }
        ensures performed { IsPerformed (state_in self.now world.old) self.now.numbers.present world.new (Request.Slice count) result }
        ensures unchanged { OnErr result (world.new ≡ world.old) }
        ensures never_lower { meters.old.blocks ≤ meters.new.blocks }
        ensures segments_never_lower { meters.old.segments ≤ meters.new.segments }
    {
        let slice = world
            .freeing
            .slice(count, &mut meters.blocks, &mut meters.segments)?;
        let Slice { rest, taken } = slice;
        world.freeing = rest;
        Ok(Effect::Taken(taken))
    }
}

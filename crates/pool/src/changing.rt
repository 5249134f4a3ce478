//! Writes, punches and freed objects.
ghost use Rattle.std.specs.Prelude.{◌≡◌, ◌≤◌, [], ◌∷◌, Err, IfOk, OnErr};
ghost use Rattle.base.specs.declared.name.target.Target.{Target};
ghost use Rattle.tree.specs.Updates.{IsBatch};
ghost use Rattle.model.specs.declared.request.Request.{Request};
ghost use Rattle.model.specs.declared.reply.Reply.{Reply};
ghost use Rattle.model.specs.Step.{Step};
ghost use Rattle.pool.specs.Asked.{Asks};
ghost use Rattle.pool.specs.Pools.{state_in, IsHeld};
ghost use Rattle.pool.specs.Effects.{IsPerformed, WritesBlocks};

use crate::effect::{Effect, Performed};
use crate::keep::{Keep, Meters, Spare};
use crate::worlds::World;
use base::name::{DsName, Target};
use base::refusal::Refusal;
use image::writes_after;
use std::alloc::Global;
use std::slice::from_ref;
use steps::{ask_change, live_name, settle};
use tree::Update;

impl Keep {
    /// Applies an update to the live tree of a file system, once the limits hold with it. Settling the effect releases the blocks that the update
    /// drops, takes the numbers of the new blocks, and writes these into the image. At `Err` the world is unchanged. It costs the path to the
    /// leaf, or the object's nodes.
    pub(crate) fn change<'a>(
        &self,
        alloc: Global,
        world: &mut World,
        target: &Target,
        update: Result<Update<'a>, Refusal>,
        meters: &mut Meters,
        spare: &mut Spare,
    ) -> Performed<'a>
        requires held { IsHeld self.now world.old }
        requires batch { IfOk update (λ u. IsBatch (u ∷ [])) }
        ensures performed { (q : Request) → Asks q target.now update.entry → IsPerformed (state_in self.now world.old) self.now.numbers.present world.new q result }
        ensures blocks { IfOk result WritesBlocks }
        ensures unchanged { OnErr result (world.new ≡ world.old) }
        ensures never_lower { meters.old.blocks ≤ meters.new.blocks }
        ensures segments_never_lower { meters.old.segments ≤ meters.new.segments }
    {
        let name = live_name(&world.table, target)?;
        let update = match update {
            Ok(update) => update,
            Err(refusal) => return Err(self.outside_the_limits(world, name, refusal)),
        };
        let group = world.table.group();
        let synced = self.last.table.group();
        let outlook = ask_change(
            &world.ledger,
            alloc,
            &world.table,
            self.space(world.freeing.len()),
            synced,
            name,
            &update,
            &mut meters.blocks,
        )?;
        let mut path = spare.path(alloc)?;
        let mut draft = spare.draft(alloc)?;
        path.begin(&world.table, name, &update, &mut meters.blocks);
        world.table.apply_live(
            name,
            alloc,
            from_ref(&update),
            synced,
            self.numbers.present(),
            &mut meters.blocks,
            &mut meters.segments,
            &mut draft,
        )?;
        settle(&mut world.ledger, &world.table, name, outlook);
        let writes = writes_after(group, &update, path, draft.made.as_slice());
        Ok(Effect::Blocks(draft, writes))
    }

    // The refusal where an object or block number is outside its limits, so that there is no update. NoDataset takes precedence over it.
    fn outside_the_limits(&self, world: &World, name: &DsName, refusal: Refusal) -> Refusal
        requires { IsHeld self.now world.now }
        ensures { (q : Request) → Asks q (Target.FileSystem name.now) (Err refusal) → Step (state_in self.now world.now) q (Reply.Refused result) (state_in self.now world.now) }
    {
        match world.table.find(name) {
            Some(_) => refusal,
            None => Refusal::NoDataset,
        }
    }
}

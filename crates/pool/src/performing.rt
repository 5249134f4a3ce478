//! The change of a world that a request asks for.
ghost use Rattle.std.specs.Prelude.{◌≡◌, ◌≢◌, ◌≤◌, ◌⊎◌, None, IfOk, OnErr, true, false};
ghost use Rattle.image.specs.Stored.{changes_maps};
ghost use Rattle.pool.specs.Pools.{state_in, IsHeld};
ghost use Rattle.pool.specs.Kinds.{kind_of};
ghost use Rattle.pool.specs.Effects.{IsPerformed, WritesBlocks};
ghost use Rattle.pool.specs.Reached.{changes_blocks, reaches_lists};
ghost use Rattle.pool.specs.declared.kind.Kind.{Kind};

use crate::effect::Performed;
use crate::keep::{Keep, Meters, Spare};
use crate::worlds::World;
use model::request::Request;
use std::alloc::Global;
use tree::objset::{free_of, punch_of, write_of};

impl Keep {
    /// Changes this world by a request that changes one, and returns the effect, which is left to be settled. At `Err` the world is unchanged,
    /// but for one case: where the request checks the limits of the changed world, and the world has a ledger, it may have changed, and the
    /// caller discards it. A change takes its draft and path from `spare`, and leaves them in its effect.
    pub(crate) fn perform<'a>(
        &self,
        alloc: Global,
        world: &mut World,
        request: &'a Request,
        meters: &mut Meters,
        spare: &mut Spare,
    ) -> Performed<'a>
        requires held { IsHeld self.now world.old }
        requires no_question { kind_of request.now ≢ Kind.Question }
        requires no_view { kind_of request.now ≢ Kind.View }
        ensures performed { IsPerformed (state_in self.now world.old) self.now.numbers.present world.new request.now result }
        ensures blocks { changes_maps request.now ≡ true → IfOk result WritesBlocks }
        ensures nodes { changes_blocks request.now ≡ false → meters.new.blocks ≡ meters.old.blocks }
        ensures segments { reaches_lists request.now ≡ false → meters.new.segments ≡ meters.old.segments }
        ensures never_lower { meters.old.blocks ≤ meters.new.blocks }
        ensures segments_never_lower { meters.old.segments ≤ meters.new.segments }
        ensures unchanged { OnErr result ((kind_of request.now ≡ Kind.Change) ⊎ (world.old.ledger ≡ None) → world.new ≡ world.old) }
    {
        match request {
            Request::Create { name } => self.create(world, name),
            Request::Set {
                name,
                limit,
                amount,
            } => self.set(alloc, world, name, *limit, *amount),
            Request::Write {
                target,
                object,
                block,
                bytes,
            } => {
                let update = write_of(*object, *block, bytes.as_array());
                self.change(alloc, world, target, update, meters, spare)
            }
            Request::Punch {
                target,
                object,
                block,
            } => self.change(
                alloc,
                world,
                target,
                punch_of(*object, *block),
                meters,
                spare,
            ),
            Request::FreeObject { target, object } => {
                self.change(alloc, world, target, free_of(*object), meters, spare)
            }
            Request::Snapshot { names, recursive } => {
                self.snapshot(alloc, world, names, *recursive)
            }
            Request::Rollback { target, later } => {
                self.rollback(alloc, world, target, *later, &mut meters.segments)
            }
            Request::Clone { target, name } => self.clone_snapshot(world, target, name),
            Request::Promote { name } => self.promote(alloc, world, name, &mut meters.segments),
            Request::Rename { name, to } => self.rename(alloc, world, name, to),
            Request::RenameSnapshot {
                snapshot,
                to,
                recursive,
            } => self.rename_snapshot(alloc, world, snapshot.member(), to, *recursive),
            Request::Destroy {
                target,
                recursive,
                defer,
            } => self.destroy(
                alloc,
                world,
                target,
                *recursive,
                *defer,
                &mut meters.segments,
            ),
            Request::Hold { tag, target } => self.hold(alloc, world, tag, target),
            Request::Release { tag, target } => self.release(
                alloc,
                world,
                tag,
                target,
                &mut meters.segments,
            ),
            Request::Bookmark { target, mark } => self.bookmark(alloc, world, target, mark),
            Request::Receive {
                snapshot,
                bytes,
                mode,
            } => self.receive(alloc, world, snapshot, bytes, mode, meters, spare),
            Request::CloseView { view } => self.close(alloc, world, *view, &mut meters.segments),
            Request::Slice { count } => self.slice(world, *count, meters),
            Request::Sync => self.sync(alloc, world),
            Request::Abandon => self.abandon(alloc, world, &mut meters.segments),
            _ => unreachable!(),
        }
    }
}

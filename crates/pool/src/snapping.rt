//! Creations, renames and snapshots, and what stands on snapshots: clones, promotes, holds and bookmarks.
ghost use Rattle.std.specs.Prelude.{◌≡◌, ◌≤◌, None, OnErr};
ghost use Rattle.model.specs.declared.request.Request.{Request};
ghost use Rattle.pool.specs.Pools.{state_in, IsHeld};
ghost use Rattle.pool.specs.Effects.{IsPerformed};

use crate::effect::{Effect, Performed};
use crate::keep::Keep;
use crate::worlds::World;
use base::meter::SegMeter;
use base::name::{Component, DsName, MarkName, Member, Tag, Target};
use marks::{bookmark, hold, release, rename_snapshot};
use model::snap_names::SnapNames;
use snap::clones::{clone_snapshot, promote, rename};
use snap::{Guids, snapshot};
use std::alloc::Global;
use steps::recount;

impl Keep {
    /// Creates a file system of this name. At `Err` the world is unchanged. It costs what `Table::create` does.
    pub(crate) fn create(&self, world: &mut World, name: &DsName) -> Performed<'static>
        requires { IsHeld self.now world.old }
        ensures performed { IsPerformed (state_in self.now world.old) self.now.numbers.present world.new (Request.Create name.now) result }
        ensures unchanged { OnErr result (world.new ≡ world.old) }
    {
        if let Some(refusal) = world.table.create_refusal(name) {
            return Err(refusal);
        }
        world.table.create(name)?;
        recount(&mut world.ledger, &world.table, name);
        Ok(Effect::Nothing)
    }

    /// Takes snapshots of these names, then checks the limits of the changed world. At `Err` the world is unchanged if it has no ledger; a world
    /// with a ledger may have changed, and the caller discards it. It costs what `snap::snapshot` does.
    pub(crate) fn snapshot(
        &self,
        alloc: Global,
        world: &mut World,
        names: &SnapNames,
        recursive: bool,
    ) -> Performed<'static>
        requires { IsHeld self.now world.old }
        ensures performed { IsPerformed (state_in self.now world.old) self.now.numbers.present world.new (Request.Snapshot names.now recursive) result }
        ensures unchanged { OnErr result (world.old.ledger ≡ None → world.new ≡ world.old) }
    {
        let guids = Guids {
            pool: self.id,
            next: self.next_guid,
        };
        let count = snapshot(alloc, &mut world.table, names.as_slice(), recursive, guids)?;
        if count == 0 {
            return Ok(Effect::Nothing);
        }
        match self.over(world) {
            Some(refusal) => Err(refusal),
            None => Ok(Effect::Guids(self.next_guid + count as u64)),
        }
    }

    /// Adds a clone of the snapshot that the target names. At `Err` the world is unchanged. It costs what `snap::clones::clone_snapshot` does.
    pub(crate) fn clone_snapshot(
        &self,
        world: &mut World,
        target: &Target,
        name: &DsName,
    ) -> Performed<'static>
        requires { IsHeld self.now world.old }
        ensures performed { IsPerformed (state_in self.now world.old) self.now.numbers.present world.new (Request.Clone target.now name.now) result }
        ensures unchanged { OnErr result (world.new ≡ world.old) }
    {
        clone_snapshot(&mut world.table, target, name)?;
        recount(&mut world.ledger, &world.table, name);
        Ok(Effect::Nothing)
    }

    /// Promotes the clone of this name, then checks the limits of the changed world. At `Err` the world is unchanged if it has no ledger; a world
    /// with a ledger may have changed, and the caller discards it. It costs what `snap::clones::promote` does.
    pub(crate) fn promote(
        &self,
        alloc: Global,
        world: &mut World,
        name: &DsName,
        segments: &mut SegMeter,
    ) -> Performed<'static>
        requires { IsHeld self.now world.old }
        ensures performed { IsPerformed (state_in self.now world.old) self.now.numbers.present world.new (Request.Promote name.now) result }
        ensures unchanged { OnErr result (world.old.ledger ≡ None → world.new ≡ world.old) }
        ensures never_lower { segments.old ≤ segments.new }
    {
        promote(alloc, &mut world.table, name, segments)?;
        match self.over(world) {
            Some(refusal) => Err(refusal),
            None => Ok(Effect::Nothing),
        }
    }

    /// Renames the file system of this name with all below it, then checks the limits of the changed world. At `Err` the world is unchanged if it
    /// has no ledger; a world with a ledger may have changed, and the caller discards it. It costs what `snap::clones::rename` does.
    pub(crate) fn rename(
        &self,
        alloc: Global,
        world: &mut World,
        name: &DsName,
        to: &DsName,
    ) -> Performed<'static>
        requires { IsHeld self.now world.old }
        ensures performed { IsPerformed (state_in self.now world.old) self.now.numbers.present world.new (Request.Rename name.now to.now) result }
        ensures unchanged { OnErr result (world.old.ledger ≡ None → world.new ≡ world.old) }
    {
        rename(alloc, &mut world.table, name, to)?;
        match self.over(world) {
            Some(refusal) => Err(refusal),
            None => Ok(Effect::Nothing),
        }
    }

    /// Renames a snapshot, and with `recursive` those of its name below. At `Err` the world is unchanged. It costs what `marks::rename_snapshot` does.
    pub(crate) fn rename_snapshot(
        &self,
        alloc: Global,
        world: &mut World,
        name: &Member,
        to: &Component,
        recursive: bool,
    ) -> Performed<'static>
        requires { IsHeld self.now world.old }
        ensures performed { IsPerformed (state_in self.now world.old) self.now.numbers.present world.new (Request.RenameSnapshot name.now to.now recursive) result }
        ensures unchanged { OnErr result (world.new ≡ world.old) }
    {
        rename_snapshot(alloc, &mut world.table, &self.views, name, to, recursive)?;
        Ok(Effect::Nothing)
    }

    /// Adds a hold with this tag to a snapshot. At `Err` the world is unchanged. It costs what `marks::hold` does.
    pub(crate) fn hold(
        &self,
        alloc: Global,
        world: &mut World,
        tag: &Tag,
        target: &Target,
    ) -> Performed<'static>
        requires { IsHeld self.now world.old }
        ensures performed { IsPerformed (state_in self.now world.old) self.now.numbers.present world.new (Request.Hold tag.now target.now) result }
        ensures unchanged { OnErr result (world.new ≡ world.old) }
    {
        hold(alloc, &mut world.table, target, tag)?;
        Ok(Effect::Nothing)
    }

    /// Releases the hold with this tag on a snapshot. At `Err` the world is unchanged. It costs what `marks::release` does.
    pub(crate) fn release(
        &self,
        alloc: Global,
        world: &mut World,
        tag: &Tag,
        target: &Target,
        segments: &mut SegMeter,
    ) -> Performed<'static>
        requires { IsHeld self.now world.old }
        ensures performed { IsPerformed (state_in self.now world.old) self.now.numbers.present world.new (Request.Release tag.now target.now) result }
        ensures unchanged { OnErr result (world.new ≡ world.old) }
        ensures never_lower { segments.old ≤ segments.new }
    {
        release(
            alloc,
            &mut world.table,
            &mut world.freeing,
            &self.views,
            target,
            tag,
            segments,
        )?;
        let Target::Snapshot(name) = target else {
            unreachable!()
        };
        recount(&mut world.ledger, &world.table, &name.member().file_system);
        Ok(Effect::Nothing)
    }

    /// Makes a bookmark of a snapshot. At `Err` the world is unchanged. It costs what `marks::bookmark` does.
    pub(crate) fn bookmark(
        &self,
        alloc: Global,
        world: &mut World,
        target: &Target,
        mark: &MarkName,
    ) -> Performed<'static>
        requires { IsHeld self.now world.old }
        ensures performed { IsPerformed (state_in self.now world.old) self.now.numbers.present world.new (Request.Bookmark target.now mark.now) result }
        ensures unchanged { OnErr result (world.new ≡ world.old) }
    {
        bookmark(alloc, &mut world.table, target, mark)?;
        Ok(Effect::Nothing)
    }
}

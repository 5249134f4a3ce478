//! Destroys and rollbacks.
ghost use Rattle.std.specs.Prelude.{◌≡◌, ◌≤◌, ◌<◌, ◌^◌, ℕ, List, [], ◌∷◌, true, false, None, OnErr};
ghost use Rattle.std.specs.FinSet as set;
ghost use Rattle.base.specs.declared.name.member.Member.{Member};
ghost use Rattle.base.specs.declared.name.target.Target.{Target};
ghost use Rattle.model.specs.declared.destroy_target.DestroyTarget.{DestroyTarget};
ghost use Rattle.model.specs.World.{union_of};
ghost use Rattle.world.specs.Tables.{Datasets, world_of};
ghost use Rattle.limits.specs.Limits.{IsUnlimited};
ghost use Rattle.removals.specs.Families.{has_deferred_origin};
ghost use Rattle.steps.specs.Handed.{IsAccounted};
ghost use Rattle.steps.specs.Limiting.{CanRecount};
ghost use Rattle.model.specs.declared.request.Request.{Request};
ghost use Rattle.pool.specs.Pools.{state_in, IsHeld};
ghost use Rattle.pool.specs.Effects.{IsPerformed};

use crate::effect::{Effect, Performed};
use crate::keep::Keep;
use crate::worlds::World;
use base::meter::SegMeter;
use base::name::Target;
use datasets::Table;
use model::destroy_target::DestroyTarget;
use removals::{destroy, rollback};
use std::alloc::Global;
use steps::{Ledger, recount, renew};

impl Keep {
    /// Destroys what the target names. At `Err` the world is unchanged. It costs what `removals::destroy` does.
    pub(crate) fn destroy(
        &self,
        alloc: Global,
        world: &mut World,
        target: &DestroyTarget,
        recursive: bool,
        defer: bool,
        segments: &mut SegMeter,
    ) -> Performed<'static>
        requires { IsHeld self.now world.old }
        ensures performed { IsPerformed (state_in self.now world.old) self.now.numbers.present world.new (Request.Destroy target.now recursive defer) result }
        ensures unchanged { OnErr result (world.new ≡ world.old) }
        ensures never_lower { segments.old ≤ segments.new }
    {
        let alone = is_alone(&world.table, target, recursive);
        destroy(
            alloc,
            &mut world.table,
            &mut world.freeing,
            &self.views,
            target,
            recursive,
            defer,
            segments,
        )?;
        world.table.facts();
        follow_destroy(&mut world.ledger, &world.table, target, alone);
        Ok(Effect::Nothing)
    }

    /// Rolls a file system back to the snapshot that the target names, then checks the limits of the changed world. At `Err` the world is
    /// unchanged if it has no ledger; a world with a ledger may have changed, and the caller discards it. It costs what `removals::rollback`
    /// does.
    pub(crate) fn rollback(
        &self,
        alloc: Global,
        world: &mut World,
        target: &Target,
        later: bool,
        segments: &mut SegMeter,
    ) -> Performed<'static>
        requires { IsHeld self.now world.old }
        ensures performed { IsPerformed (state_in self.now world.old) self.now.numbers.present world.new (Request.Rollback target.now later) result }
        ensures unchanged { OnErr result (world.old.ledger ≡ None → world.new ≡ world.old) }
        ensures never_lower { segments.old ≤ segments.new }
    {
        rollback(
            alloc,
            &mut world.table,
            &mut world.freeing,
            &self.views,
            target,
            later,
            segments,
        )?;
        match self.over(world) {
            Some(refusal) => Err(refusal),
            None => Ok(Effect::Nothing),
        }
    }
}

// Whether a destroy of the target is certain to change no file system but those that the target names: the destroy isn't recursive, and the target
// isn't a clone, since with a clone its deferred origin may be destroyed. It costs the logarithm of the number of file systems.
fn is_alone(table: &Table, target: &DestroyTarget, recursive: bool) -> bool
    ensures one { result ≡ true → recursive ≡ false }
    ensures origin { result ≡ true → (name : List ℕ) → target.now ≡ DestroyTarget.FileSystem name → has_deferred_origin table.now name ≡ false }
{
    if recursive {
        return false;
    }
    let DestroyTarget::FileSystem(name) = target else {
        return true;
    };
    match table.find(name) {
        Some(file_system) => file_system.origin().is_none(),
        None => true,
    }
}

// Updates the ledger after a destroy of this target, to that of these datasets. `alone` says that the destroy changed one file system only. It
// allocates nothing. It costs what `recount` does for one file system, nothing for a bookmark, and otherwise what `renew` does.
fn follow_destroy(ledger: &mut Option<Ledger>, table: &Table, target: &DestroyTarget, alone: bool)
    requires system { (name : List ℕ) → target.now ≡ DestroyTarget.FileSystem name → alone ≡ true → (old : Datasets) × CanRecount old table.now name ledger.old }
    requires snapshot { (m : Member) → target.now ≡ DestroyTarget.Snapshots (m ∷ []) → alone ≡ true → (old : Datasets) × CanRecount old table.now m.file_system ledger.old }
    requires bookmark { (m : Member) → target.now ≡ DestroyTarget.Bookmark m → IsAccounted table.now ledger.old }
    requires unlimited { ledger.old ≡ None → IsUnlimited table.now.file_systems }
    requires few { set.len (union_of (world_of table.now)) < 2 ^ 32 }
    ensures { IsAccounted table.now ledger.new }
{
    match target {
        DestroyTarget::Snapshots(names) if alone => match names.as_slice() {
            [name] => recount(ledger, table, &name.member().file_system),
            _ => renew(ledger, table),
        },
        DestroyTarget::FileSystem(name) if alone => recount(ledger, table, name),
        DestroyTarget::Bookmark(_) => {}
        _ => renew(ledger, table),
    }
}

//! Views of a pool's snapshots.
ghost use Rattle.std.specs.Prelude.{◌≡◌, ◌≤◌, ◌<◌, ◌^◌, ℕ, List, Some, None, IfOk, IfErr, OnErr};
ghost use Rattle.std.specs.FinSet as set;
ghost use Rattle.model.specs.declared.request.Request.{Request};
ghost use Rattle.model.specs.declared.reply.Reply.{Reply};
ghost use Rattle.model.specs.Ids.{snap_id};
ghost use Rattle.model.specs.Step.{Step};
ghost use Rattle.model.specs.World.{union_of};
ghost use Rattle.world.specs.Tables.{Datasets, world_of};
ghost use Rattle.limits.specs.Limits.{IsUnlimited};
ghost use Rattle.steps.specs.Edits.{viewing};
ghost use Rattle.steps.specs.Handed.{IsAccounted};
ghost use Rattle.steps.specs.Limiting.{CanRecount};
ghost use Rattle.pool.specs.Pools.{state_in, IsHeld};
ghost use Rattle.pool.specs.Effects.{IsPerformed};
ghost use Rattle.pool.specs.Plans.{CanOpen};

use crate::effect::{Effect, Performed};
use crate::keep::Keep;
use crate::worlds::World;
use base::meter::SegMeter;
use base::name::{DsName, Target};
use base::refusal::Refusal;
use datasets::Table;
use model::sight::Sight;
use model::snapshot_id::SnapshotId;
use removals::close_view;
use std::alloc::Global;
use std::sync::Arc;
use steps::{Ledger, recount, sources_of};

impl Keep {
    /// The snapshot that a new view of this name shows, and what the view shows of it. NotSnapshot where the name isn't that of a snapshot, else
    /// NoDataset where there is no such snapshot, else Deferred where its destroy is deferred, else TooMany where no more views can be opened,
    /// else NoMemory where what it shows can't be allocated. It costs what `sources::sources_of` does.
    pub(crate) fn next_view_of(
        &self,
        alloc: Global,
        world: &World,
        target: &Target,
    ) -> Result<(SnapshotId, Sight), Refusal>
        requires { IsHeld self.now world.now }
        ensures can { IfOk result (λ p. CanOpen (state_in self.now world.now) (snap_id p.0)) }
        ensures ok { IfOk result (λ p. Step (state_in self.now world.now) (Request.OpenView target.now) (Reply.Opened self.now.views.next p.1) (viewing (state_in self.now world.now) (snap_id p.0))) }
        ensures err { IfErr result (λ e. Step (state_in self.now world.now) (Request.OpenView target.now) (Reply.Refused e) (state_in self.now world.now)) }
    {
        let Target::Snapshot(name) = target else {
            return Err(Refusal::NotSnapshot);
        };
        let Some(snapshot) = world.table.snapshot(name.member()) else {
            return Err(Refusal::NoDataset);
        };
        if snapshot.is_deferred() {
            return Err(Refusal::Deferred);
        }
        if self.views.is_full() {
            return Err(Refusal::TooMany);
        }
        let tree = snapshot.tree().copy()?;
        let sources = Arc::new(alloc, sources_of(alloc, &world.table, name)?)?;
        Ok((
            snapshot.id(),
            Sight::new(tree, snapshot.guid(), snapshot.group(), sources),
        ))
    }

    /// Closes the view with this number, and removes what was kept for this view alone. NoView where no open view has the number. At `Err` the
    /// world is unchanged. It costs the number of open views and what `removals::close_view` does.
    pub(crate) fn close(
        &self,
        alloc: Global,
        world: &mut World,
        number: u64,
        segments: &mut SegMeter,
    ) -> Performed<'static>
        requires { IsHeld self.now world.old }
        ensures performed { IsPerformed (state_in self.now world.old) self.now.numbers.present world.new (Request.CloseView number) result }
        ensures unchanged { OnErr result (world.new ≡ world.old) }
        ensures never_lower { segments.old ≤ segments.new }
    {
        if self.views.find(number).is_none() {
            return Err(Refusal::NoView);
        }
        let gone = close_view(
            alloc,
            &mut world.table,
            &mut world.freeing,
            &self.views,
            number,
            segments,
        )?;
        world.table.facts();
        follow_close(&mut world.ledger, &world.table, &gone);
        Ok(Effect::Closed(number))
    }
}

// Updates the ledger after a view was closed, to that of these datasets. `gone` names the file system that lost a snapshot by this, if one did.
// It allocates nothing, and costs what `recount` does where a snapshot went.
fn follow_close(ledger: &mut Option<Ledger>, table: &Table, gone: &Option<DsName>)
    requires some { (name : List ℕ) → gone.now ≡ Some name → (old : Datasets) × CanRecount old table.now name ledger.old }
    requires none { gone.now ≡ None → IsAccounted table.now ledger.old }
    requires unlimited { ledger.old ≡ None → IsUnlimited table.now.file_systems }
    requires few { set.len (union_of (world_of table.now)) < 2 ^ 32 }
    ensures { IsAccounted table.now ledger.new }
{
    if let Some(name) = gone {
        recount(ledger, table, name);
    }
}

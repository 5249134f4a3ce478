//! The limits of file systems, as requests are checked against them.
ghost use Rattle.std.specs.Prelude.{◌≡◌, ◌<◌, ◌^◌, None, OnErr, count_by};
ghost use Rattle.std.specs.FinSet as set;
ghost use Rattle.zalloc.specs.States.{is_waiting};
ghost use Rattle.model.specs.declared.request.Request.{Request};
ghost use Rattle.model.specs.State.{State};
ghost use Rattle.model.specs.Step.{Step};
ghost use Rattle.model.specs.World.{union_of};
ghost use Rattle.world.specs.Tables.{world_of};
ghost use Rattle.limits.specs.Limits.{IsUnlimited};
ghost use Rattle.steps.specs.Handed.{IsAccounted};
ghost use Rattle.steps.specs.Limiting.{IsOver};
ghost use Rattle.pool.specs.Pools.{state_in, shown_in, IsHeld, IsSound};
ghost use Rattle.pool.specs.Effects.{IsPerformed};
ghost use Rattle.pool.specs.Kinds.{kind_of};
ghost use Rattle.pool.specs.Reached.{IsMetered};
ghost use Rattle.pool.specs.declared.kind.Kind.{Kind};

use crate::effect::{Effect, Performed};
use crate::keep::{Keep, Meters};
use crate::worlds::World;
use base::limit::Blocks;
use base::name::DsName;
use base::refusal::Refusal;
use model::limits::Limit;
use model::reply::Reply;
use model::request::Request;
use std::alloc::Global;
use steps::{Space, answer, over, with_limit};

impl Keep {
    /// The pool's size, the given number of blocks to be freed, and the number of waiting blocks: what a limit depends on beside the file
    /// systems. Constant time.
    pub(crate) fn space(&self, freeing: u64) -> Space
        ensures size { result.size ≡ self.now.size }
        ensures freeing { result.freeing ≡ freeing }
        ensures waiting { result.waiting ≡ count_by is_waiting self.now.numbers.present }
    {
        let waiting = self.numbers.present().counts().waiting;
        Space {
            size: self.size,
            freeing,
            waiting: u64::from(waiting),
        }
    }

    /// The limit that is broken in a world that a request has changed, if one is; the ledger is updated to the world's datasets. A world without
    /// a ledger has no limits. It costs the number of file systems times its logarithm; without a ledger, nothing.
    pub(crate) fn over(&self, world: &mut World) -> Option<Refusal>
        requires unlimited { world.old.ledger ≡ None → IsUnlimited world.old.table.file_systems }
        requires few { set.len (union_of (world_of world.old.table)) < 2 ^ 32 }
        ensures same { world.new ≡ record world.old { ledger = world.new.ledger } }
        ensures ledger { IsAccounted world.old.table world.new.ledger }
        ensures none { world.old.ledger ≡ None → result ≡ None }
        ensures bare { world.old.ledger ≡ None → world.new.ledger ≡ None }
        ensures over { (s : State) → IsSound s self.now.numbers.present → s.size ≡ self.now.size → (world.old.ledger ≡ None → IsUnlimited s.now.file_systems) → IsOver s world.old.table (set.len world.old.freeing) result }
    {
        let space = self.space(world.freeing.len());
        over(&mut world.ledger, &world.table, space)
    }

    /// Writes the reply to a request that only reads into `reply`. It costs what `steps::answer` does.
    pub(crate) fn asked(
        &self,
        alloc: Global,
        world: &World,
        request: &Request,
        meters: &mut Meters,
        reply: &mut Reply,
    )
        requires held { IsHeld self.now world.now }
        requires question { kind_of request.now ≡ Kind.Question }
        ensures step { Step (state_in self.now world.now) request.now reply.new (state_in self.now world.now) }
        ensures metered { IsMetered (shown_in self.now world.now meters.old) request.now reply.new (shown_in self.now world.now meters.new) }
    {
        let space = self.space(world.freeing.len());
        answer(
            alloc,
            &world.ledger,
            &world.table,
            space,
            self.numbers.present().counts(),
            request,
            &mut meters.blocks,
            &mut meters.segments,
            reply,
        )
    }

    /// Sets a limit of a file system. At `Err` the world is unchanged. It costs what `steps::with_limit` does.
    pub(crate) fn set(
        &self,
        alloc: Global,
        world: &mut World,
        name: &DsName,
        limit: Limit,
        amount: Option<Blocks>,
    ) -> Performed<'static>
        requires { IsHeld self.now world.old }
        ensures performed { IsPerformed (state_in self.now world.old) self.now.numbers.present world.new (Request.Set name.now limit amount) result }
        ensures unchanged { OnErr result (world.new ≡ world.old) }
    {
        let space = self.space(world.freeing.len());
        let (to, ledger) = with_limit(alloc, &world.table, space, name, limit, amount)?;
        world.table = to;
        world.ledger = Some(ledger);
        Ok(Effect::Nothing)
    }
}

//! The pool and its steps.
ghost use Rattle.std.specs.Prelude.{◌≡◌, ◌≢◌, ◌<◌, ◌≤◌, ◌*◌, ◌⊎◌, ◌↔◌, [], None, Err, true, IfOk, IfErr, map, replicate, if◌then◌else◌};
ghost use Rattle.std.specs.FinMap.{len};
ghost use Rattle.base.specs.declared.refusal.Refusal.{Refusal};
ghost use Rattle.tree.specs.Ahead.{many_blocks, present_on_paths};
ghost use Rattle.model.specs.State.{fresh_state};
ghost use Rattle.model.specs.Step.{Step};
ghost use Rattle.model.specs.Run.{Run};
ghost use Rattle.datasets.specs.Rows.{live_of};
ghost use Rattle.pool.specs.Ahead.{leaves_in};
ghost use Rattle.pool.specs.Applied.{IsBetween, IsApplied, AreApplied};
ghost use Rattle.pool.specs.Kinds.{kind_of};
ghost use Rattle.pool.specs.Reached.{IsMetered};
ghost use Rattle.image.specs.StepWrites.{writes_nothing, AreStepWrites, StepWrites};
ghost use Rattle.pool.specs.Images.{keeps_after};
ghost use Rattle.pool.specs.Plans.{state_after_plan, writes_of_plan, keeps_after_plan, CanDo};
ghost use Rattle.pool.specs.Pools.{state_in, shown_in, IsHeld};
ghost use Rattle.image.specs.Roots.{shown_root, roots_in};
ghost use Rattle.pool.specs.declared.kind.Kind.{Kind};

use crate::ahead::{look, read_ahead};
use crate::effect::Effect;
use crate::keep::{Keep, Meters, Spare};
use crate::kind::{Kind, changed_name, kind_of};
use crate::worlds::World;
use base::meter::{Meter, SegMeter};
use base::name::DsName;
use base::refusal::Refusal;
use image::{DatasetRoot, Image, roots_of};
use model::reply::Reply;
use model::request::{ObjectBlock, Request};
use model::snapshot_id::SnapshotId;
use snap::Views;
use std::alloc::Global;
use std::marker::Model;
use std::snapshot::Snapshot;
use toll::Toll;
use zalloc::{MOST_BLOCKS, Numbers};

/// A pool of blocks with its file systems and snapshots. Contracts see its state, the state of each block number, and its image.
pub struct Pool {
    present: World,
    keep: Keep,
    meters: Meters,
    spare: Spare,
}

// Written by hand, so that it is proved once: a derived `Drop` is expanded again in each crate that drops the type.
impl Drop for Pool {
    fn drop(self) {
        let Pool {
            present,
            keep,
            meters,
            spare,
        } = self;
        drop(present);
        drop(keep);
        drop(meters);
        drop(spare);
    }
}

impl Model for Pool {
    ghost use Rattle.pool.specs.Shown.{Shown, shown_code};
    ghost use Rattle.pool.specs.Pools.{shown_in, IsHeld};

    ghost Value = { Shown };

    ghost coded = { shown_code };

    ghost view = { λ p. shown_in p.keep p.present p.meters };

    ghost invariant = { λ p. IsHeld p.keep p.present };
}

// What a prepared step will do.
#[derive(Drop)]
pub(crate) enum Plan {
    Nothing,
    Open { snapshot: SnapshotId },
    Put { to: World, effect: Effect<'static> },
}

/// A prepared step, with the pool on which it was prepared. To drop it changes nothing.
#[derive(Drop)]
pub struct Ready {
    plan: Plan,
    from: Snapshot<Pool>,
}

impl Model for Ready {
    ghost use Rattle.pool.specs.Shown.{Leap, leap_code};
    ghost use Rattle.pool.specs.Plans.{state_after_plan, writes_of_plan, keeps_after_plan, CanDo};

    ghost Value = { Leap };

    ghost coded = { leap_code };

    ghost view = { λ r. record { from = r.from.value; to = state_after_plan r.from.value.state r.plan; writes = writes_of_plan r.from.value.image.bytes r.plan; keeps = keeps_after_plan r.from.value.image.keeps r.plan } };

    ghost invariant = { λ r. CanDo r.from.value.state r.from.value.numbers r.plan };
}

impl Pool {
    /// A pool with this id and this many blocks, all free. It has the root file system alone, which is empty, in group 1, and an image that is
    /// all zero. BadName for id 0, else TooMany for no block or more than `MOST_BLOCKS`, else NoMemory where the blocks' bytes and states can't
    /// be allocated.
    pub fn create(alloc: Global, id: u32, blocks: u32) -> Result<Pool, Refusal>
        ensures ok { IfOk result (λ p. p.state ≡ fresh_state id blocks) }
        ensures meters { IfOk result (λ p. (p.nodes ≡ 0) × (p.segments ≡ 0)) }
        ensures between { IfOk result IsBetween }
        ensures zeros { IfOk result (λ p. p.image.bytes ≡ replicate (512 * blocks) 0) }
        ensures keeps { IfOk result (λ p. p.image.keeps ≡ 0) }
        ensures bad_name { (result ≡ Err Refusal.BadName) ↔ (id ≡ 0) }
        ensures too_many { (result ≡ Err Refusal.TooMany) ↔ ((0 < id) × ((blocks < 1) ⊎ (MOST_BLOCKS < blocks))) }
        ensures only { IfErr result (λ e. (e ≡ Refusal.BadName) ⊎ ((e ≡ Refusal.TooMany) ⊎ (e ≡ Refusal.NoMemory))) }
    {
        if id == 0 {
            return Err(Refusal::BadName);
        }
        if blocks < 1 || blocks > MOST_BLOCKS {
            return Err(Refusal::TooMany);
        }
        let pool = Pool::fresh(alloc, id, blocks)?;
        pool.facts();
        Ok(pool)
    }

    fn fresh(alloc: Global, id: u32, blocks: u32) -> Result<Pool, Refusal>
        requires { blocks ≤ MOST_BLOCKS }
        ensures ok { IfOk result (λ p. p.state ≡ fresh_state id blocks) }
        ensures meters { IfOk result (λ p. (p.nodes ≡ 0) × (p.segments ≡ 0)) }
        ensures zeros { IfOk result (λ p. p.image.bytes ≡ replicate (512 * blocks) 0) }
        ensures keeps { IfOk result (λ p. p.image.keeps ≡ 0) }
        ensures only { IfErr result (λ e. e ≡ Refusal.NoMemory) }
    {
        let numbers = Numbers::new(alloc, blocks)?;
        let image = Image::new(alloc, blocks)?;
        let _nothing = image.bytes();
        let present = World::new(alloc)?;
        let last = present.copy()?;
        let views = Views::new(alloc)?;
        let keep = Keep {
            last,
            viewed: Vec::new(alloc),
            views,
            next_guid: 1,
            size: blocks,
            id,
            numbers,
            image,
        };
        let meters = Meters {
            blocks: Meter::new(Toll::new()),
            segments: SegMeter::new(Toll::new()),
        };
        Ok(Pool {
            present,
            keep,
            meters,
            spare: Spare::new(),
        })
    }

    /// Prepares a step: it makes the reply, and allocates all that the request needs. The state is unchanged until `commit`. A request that
    /// changes file systems changes a copy of them, which costs one reference count for each file system. In addition a request costs what
    /// `apply` says, and a write costs a copy of its bytes. A request that only reads, and one that opens a view, copy no file systems. Nothing
    /// is written into the image yet; a request that is refused or only reads leaves nothing to write.
    pub fn prepare(&mut self, alloc: Global, request: &Request) -> (Reply, Ready)
        ensures same { self.new.state ≡ self.old.state }
        ensures same_numbers { self.new.numbers ≡ self.old.numbers }
        ensures same_image { self.new.image ≡ self.old.image }
        ensures from { result.1.from ≡ self.new }
        ensures none { writes_nothing request.now result.0 ≡ true → result.1.writes ≡ [] }
        ensures keeps { result.1.keeps ≡ keeps_after request.now result.0 self.old.image.keeps }
        ensures metered { IsMetered self.old request.now result.0 self.new }
        ensures step { Step self.old.state request.now result.0 result.1.to }
        ensures between { IsBetween self.old }
    {
        self.facts();
        let (reply, plan) = self.planned(alloc, request);
        let from = Snapshot::of(self);
        (reply, Ready { plan, from })
    }

    fn planned(&mut self, alloc: Global, request: &Request) -> (Reply, Plan)
        ensures same { self.new.state ≡ self.old.state }
        ensures same_numbers { self.new.numbers ≡ self.old.numbers }
        ensures same_image { self.new.image ≡ self.old.image }
        ensures metered { IsMetered self.old request.now result.0 self.new }
        ensures can { CanDo self.old.state self.old.numbers result.1 }
        ensures none { writes_nothing request.now result.0 ≡ true → writes_of_plan self.old.image.bytes result.1 ≡ [] }
        ensures keeps { keeps_after_plan self.old.image.keeps result.1 ≡ keeps_after request.now result.0 self.old.image.keeps }
        ensures step { Step self.old.state request.now result.0 (state_after_plan self.old.state result.1) }
    {
        match kind_of(request) {
            Kind::Question => {
                let mut reply = Reply::Done;
                self.keep.asked(alloc, &self.present, request, &mut self.meters, &mut reply);
                (reply, Plan::Nothing)
            }
            Kind::View => self.viewed(alloc, request),
            Kind::Change => self.drafted(alloc, request),
            Kind::Asking => self.drafted(alloc, request),
        }
    }

    // Plans the opening of a view.
    fn viewed(&self, alloc: Global, request: &Request) -> (Reply, Plan)
        requires { kind_of request.now ≡ Kind.View }
        ensures can { CanDo self.now.state self.now.numbers result.1 }
        ensures none { writes_of_plan self.now.image.bytes result.1 ≡ [] }
        ensures keeps { keeps_after_plan self.now.image.keeps result.1 ≡ keeps_after request.now result.0 self.now.image.keeps }
        ensures step { Step self.now.state request.now result.0 (state_after_plan self.now.state result.1) }
    {
        let Request::OpenView { target } = request else {
            unreachable!()
        };
        match self.keep.next_view_of(alloc, &self.present, target) {
            Ok((snapshot, sight)) => (
                Reply::Opened(self.keep.views.next(), sight),
                Plan::Open { snapshot },
            ),
            Err(refusal) => (Reply::Refused(refusal), Plan::Nothing),
        }
    }

    // Applies a request to a copy of the present world.
    fn drafted(&mut self, alloc: Global, request: &Request) -> (Reply, Plan)
        requires no_question { kind_of request.now ≢ Kind.Question }
        requires no_view { kind_of request.now ≢ Kind.View }
        ensures same { self.new.state ≡ self.old.state }
        ensures same_numbers { self.new.numbers ≡ self.old.numbers }
        ensures same_image { self.new.image ≡ self.old.image }
        ensures metered { IsMetered self.old request.now result.0 self.new }
        ensures can { CanDo self.old.state self.old.numbers result.1 }
        ensures none { writes_nothing request.now result.0 ≡ true → writes_of_plan self.old.image.bytes result.1 ≡ [] }
        ensures keeps { keeps_after_plan self.old.image.keeps result.1 ≡ keeps_after request.now result.0 self.old.image.keeps }
        ensures step { Step self.old.state request.now result.0 (state_after_plan self.old.state result.1) }
    {
        let mut to = match self.present.copy() {
            Ok(to) => to,
            Err(refusal) => return (Reply::Refused(refusal), Plan::Nothing),
        };
        let (meters, spare) = (&mut self.meters, &mut self.spare);
        let performed = self.keep.perform(alloc, &mut to, request, meters, spare);
        let effect = match performed {
            Ok(effect) => effect,
            Err(refusal) => return (Reply::Refused(refusal), Plan::Nothing),
        };
        let effect = match effect.owned(alloc) {
            Ok(effect) => effect,
            Err(refusal) => return (Reply::Refused(refusal), Plan::Nothing),
        };
        let mut reply = Reply::Done;
        effect.tell(&mut reply);
        (reply, Plan::Put { to, effect })
    }

    /// Does the step that was just prepared, and writes its blocks into the image, one after the other. At each moment of this the datasets that
    /// the last sync left can be walked. It allocates nothing. It costs the blocks that it releases, takes and writes. A sync costs the waiting
    /// numbers, and what only the previously synced world reached. A sync and an abandon cost the numbers that have changed since the last sync.
    pub fn commit(&mut self, ready: Ready)
        requires { ready.from ≡ self.old }
        ensures to { self.new.state ≡ ready.to }
        ensures writes { AreStepWrites self.old.state ready.to ready.writes self.old.image self.new.image }
        ensures keeps { self.new.image.keeps ≡ ready.keeps }
        ensures nodes { self.new.nodes ≡ self.old.nodes }
        ensures segments { self.new.segments ≡ self.old.segments }
        ensures between { IsBetween self.new }
    {
        self.carry_out(ready);
        self.facts();
    }

    // Does the step that was prepared.
    fn carry_out(&mut self, ready: Ready)
        requires { ready.from ≡ self.old }
        ensures to { self.new.state ≡ ready.to }
        ensures writes { AreStepWrites self.old.state ready.to ready.writes self.old.image self.new.image }
        ensures keeps { self.new.image.keeps ≡ ready.keeps }
        ensures nodes { self.new.nodes ≡ self.old.nodes }
        ensures segments { self.new.segments ≡ self.old.segments }
    {
        let _group = self.present.table.group();
        let Ready { plan, from } = ready;
        match plan {
            Plan::Nothing => {}
            Plan::Open { snapshot } => self.keep.views.open(snapshot),
            Plan::Put { to, effect } => {
                self.present = to;
                self.keep.settle(effect, &mut self.spare);
            }
        }
    }

    /// One step: the request is done, or refused with the state unchanged. The reply is written over `reply`. Since a reply has room for a
    /// block's bytes, a caller that uses one `reply` for many requests saves moves. Changes of file systems are made in place, with two
    /// exceptions. A recursive destroy, several snapshots, a rollback and a receive are made on a copy, which costs one reference count for each
    /// file system. So are a snapshot and a promote where a file system has a limit. Finding a name costs the logarithm of the number of file
    /// systems; for a snapshot also that of the number of its file system's snapshots. A write or a punch costs the path to its leaf, and freeing
    /// an object its nodes. A sync and an abandon cost one reference count for each file system. Each other change costs what the function says
    /// that makes it, such as `Table::create`, `snap::clones::promote` or `removals::destroy`. A request that only reads costs what
    /// `steps::answer` says, and the opening of a view what `sources::sources_of` does. The blocks that a change makes are written into the
    /// image, one after the other, and nothing else is. At each moment of this the datasets that the last sync left can be walked.
    pub fn apply(&mut self, alloc: Global, request: &Request, reply: &mut Reply)
        ensures step { Step self.old.state request.now reply.new self.new.state }
        ensures applied { IsApplied self.old request.now reply.new self.new }
        ensures between { IsBetween self.new }
    {
        self.facts();
        make_done(reply);
        self.look_at(request);
        self.take(alloc, request, reply);
        self.facts();
    }

    /// Reads the nodes on the paths to the first sixteen of these blocks of a live file system, side by side. A read or write of one of them that
    /// follows finds its nodes in the processor's cache, where it would wait for memory once for each level. So a host that knows its next
    /// requests gains time by it in a large file system. It changes nothing, the meters included, and takes no memory. It costs the logarithm of
    /// the number of file systems, and at most six nodes a block. Returns how many nodes it read: none where there is no such file system, or
    /// where its live map has fewer than 4,096 blocks, which a cache has.
    pub fn read_ahead(&self, name: &DsName, blocks: &[ObjectBlock]) -> u32
        ensures small { len (live_of self.now.state.now.file_systems name.now) < many_blocks → result ≡ 0 }
        ensures all { many_blocks ≤ len (live_of self.now.state.now.file_systems name.now) → result ≡ present_on_paths (live_of self.now.state.now.file_systems name.now) (leaves_in 16 blocks.now) }
        ensures few { result ≤ 96 }
    {
        read_ahead(&self.present.table, name, blocks)
    }

    // What holds for a pool between two steps. It makes the pool's invariant known to the proof, and reads nothing.
    fn facts(&self)
        ensures { IsBetween self.now }
    {
        let _group = self.present.table.group();
    }

    // Tells the table to look first at the file system of a request. Checking the request, doing it and writing its blocks each look up this
    // name.
    fn look_at(&mut self, request: &Request)
        ensures { self.new ≡ self.old }
    {
        if let Some(name) = changed_name(request) {
            self.present.table.look_at(name);
        }
    }

    // The step itself. It is done in place, but for two kinds of requests that are prepared and committed: the opening of a view, and, where a
    // ledger is kept, a request that checks limits after its change.
    fn take(&mut self, alloc: Global, request: &Request, reply: &mut Reply)
        requires { reply.old ≡ Reply.Done }
        ensures step { Step self.old.state request.now reply.new self.new.state }
        ensures metered { IsMetered self.old request.now reply.new self.new }
        ensures writes { StepWrites self.old.state request.now reply.new self.new.state self.old.image self.new.image }
        ensures keeps { self.new.image.keeps ≡ keeps_after request.now reply.new self.old.image.keeps }
    {
        let _group = self.present.table.group();
        match kind_of(request) {
            Kind::Question => {
                self.keep
                    .asked(alloc, &self.present, request, &mut self.meters, reply)
            }
            Kind::View => *reply = self.prepared(alloc, request),
            Kind::Change => in_place(
                alloc,
                &mut self.present,
                &mut self.keep,
                request,
                &mut self.meters,
                &mut self.spare,
                reply,
            ),
            Kind::Asking => {
                if self.present.ledger.is_some() {
                    *reply = self.prepared(alloc, request);
                    return;
                }
                in_place(
                    alloc,
                    &mut self.present,
                    &mut self.keep,
                    request,
                    &mut self.meters,
                    &mut self.spare,
                    reply,
                )
            }
        }
    }

    #[inline(never)]
    fn prepared(&mut self, alloc: Global, request: &Request) -> Reply
        ensures step { Step self.old.state request.now result self.new.state }
        ensures metered { IsMetered self.old request.now result self.new }
        ensures writes { StepWrites self.old.state request.now result self.new.state self.old.image self.new.image }
        ensures keeps { self.new.image.keeps ≡ keeps_after request.now result self.old.image.keeps }
    {
        let (reply, ready) = self.prepare(alloc, request);
        self.commit(ready);
        reply
    }

    /// How many nodes of trees and how many segments of dead lists were reached since the pool was made. The second number also counts each entry
    /// of a dead list that a sum looks at. A count stops at the greatest u64. A request that only reads reaches nodes where it reads a block or
    /// makes a stream. A request that changes the world reaches nodes where it changes the contents of a live map, or frees blocks. So a snapshot,
    /// a clone, a promote and any request for a property reach none. A request that only reads adds no more to the second number than the contract
    /// of `steps::answer` says. Constant time.
    pub fn meters(&self) -> (u64, u64)
        ensures { result ≡ (self.now.nodes, self.now.segments) }
    {
        (self.meters.blocks.count(), self.meters.segments.count())
    }

    /// The blocks of the present datasets and of those that the last sync left, as bytes, each at its number. Constant time.
    pub fn image(&self) -> &Image
        ensures same { result.now ≡ self.now.image }
        ensures between { IsBetween self.now }
    {
        self.facts();
        &self.keep.image
    }

    /// The roots of the present datasets, or, where `last` is true, of those that the last sync left. The file systems come in byte order of
    /// their names; for each, the root of its live tree comes first, then those of its snapshots, the oldest first. `Image::read_tree` reads a
    /// dataset from its root. NoMemory where the roots or their names can't be allocated. It costs the names, and a node for each dataset, which the
    /// pool's counts leave out.
    pub fn roots(&self, alloc: Global, last: bool) -> Result<Vec<DatasetRoot>, Refusal>
        ensures ok { IfOk result (λ roots. map shown_root roots.items ≡ roots_in (if last then self.now.state.last else self.now.state.now).file_systems) }
        ensures err { IfErr result (λ e. e ≡ Refusal.NoMemory) }
    {
        let mut meter = Meter::new(Toll::new());
        if last {
            return Ok(roots_of(alloc, &self.keep.last.table, &mut meter)?);
        }
        Ok(roots_of(alloc, &self.present.table, &mut meter)?)
    }

    /// Does one step for each request, in order, and returns the replies. For requests that follow in the list it reads ahead. NoMemory where the
    /// list of replies can't be allocated; no step is done then.
    pub fn run(&mut self, alloc: Global, requests: &[Request]) -> Result<Vec<Reply>, Refusal>
        ensures ok { IfOk result (λ replies. Run self.old.state requests.now replies.items self.new.state) }
        ensures applied { IfOk result (λ replies. AreApplied self.old requests.now replies.items self.new) }
        ensures between { IsBetween self.new }
        ensures err { IfErr result (λ e. (e ≡ Refusal.NoMemory) × (self.new ≡ self.old)) }
    {
        self.facts();
        let mut replies = Vec::with_capacity(alloc, requests.len())?;
        let mut next_look = 0;
        for request in requests {
            let at = replies.len();
            if at == next_look {
                next_look = at + look(&self.present.table, &requests[at..]);
            }
            let mut reply = Reply::Done;
            self.apply(alloc, request, &mut reply);
            replies.push_reserved(reply);
        }
        Ok(replies)
    }
}

// Sets the reply to Done.
fn make_done(reply: &mut Reply)
    ensures { reply.new ≡ Reply.Done }
{
    match reply {
        Reply::Done => {}
        _ => clear(reply),
    }
}

// Replaces another reply by Done. This is the cold path, in a function of its own: a reply takes room on the stack, and a function fills its
// whole stack frame with zeros first.
#[inline(never)]
fn clear(reply: &mut Reply)
    ensures { reply.new ≡ Reply.Done }
{
    *reply = Reply::Done;
}

// One step on the present world itself. A refusal leaves the world unchanged.
fn in_place(
    alloc: Global,
    world: &mut World,
    keep: &mut Keep,
    request: &Request,
    meters: &mut Meters,
    spare: &mut Spare,
    reply: &mut Reply,
)
    requires held { IsHeld keep.old world.old }
    requires kind { (kind_of request.now ≡ Kind.Change) ⊎ ((kind_of request.now ≡ Kind.Asking) × (world.old.ledger ≡ None)) }
    requires done { reply.old ≡ Reply.Done }
    ensures held { IsHeld keep.new world.new }
    ensures step { Step (state_in keep.old world.old) request.now reply.new (state_in keep.new world.new) }
    ensures metered { IsMetered (shown_in keep.old world.old meters.old) request.now reply.new (shown_in keep.new world.new meters.new) }
    ensures writes { StepWrites (state_in keep.old world.old) request.now reply.new (state_in keep.new world.new) keep.old.image keep.new.image }
    ensures keeps { keep.new.image.keeps ≡ keeps_after request.now reply.new keep.old.image.keeps }
{
    let _group = world.table.group();
    match keep.perform(alloc, world, request, meters, spare) {
        Ok(effect) => {
            effect.tell(reply);
            keep.settle(effect, spare);
        }
        Err(refusal) => *reply = Reply::Refused(refusal),
    }
}

//! What a request leaves to be done after its world has changed.
ghost use Rattle.std.specs.Prelude.{◌≡◌, IfOk, IfErr};
ghost use Rattle.base.specs.declared.refusal.Refusal.{Refusal};
ghost use Rattle.model.specs.declared.reply.Reply.{Reply};
ghost use Rattle.pool.specs.Effects.{reply_of};

use crate::worlds::World;
use base::number::Dead;
use base::refusal::Refusal;
use image::Writes;
use model::reply::Reply;
use model::snapshot_id::SnapshotId;
use std::alloc::Global;
use tree::Draft;

/// What a request that has changed a world leaves to be done outside the world.
#[derive(Drop)]
pub(crate) enum Effect<'a> {
    /// Nothing: the reachable blocks are the same.
    Nothing,
    /// The guid counter becomes this number.
    Guids(u64),
    /// A live map has changed: the blocks that its draft names are released, its numbers taken, and blocks written into the image. The draft is
    /// boxed, so that a move of an effect doesn't copy it.
    Blocks(Box<Draft>, Writes<'a>),
    /// These blocks were taken out of the blocks to be freed, and are released.
    Taken(Vec<Dead>),
    /// The world is synced: this world becomes the last synced one, and these are the snapshots that the open views show. Waiting numbers become
    /// free, and the image protects the blocks that are allocated then. The world is boxed, so that a move of an effect doesn't copy it.
    Synced(Box<World>, Vec<SnapshotId>),
    /// The world is the last synced one again: each number has its state of the last sync.
    Abandoned,
    /// The view with this number is closed.
    Closed(u64),
}

/// The outcome of a request: its effect, or why it is refused.
pub(crate) type Performed<'a> = Result<Effect<'a>, Refusal>;

impl Effect<'_> {
    /// Replaces the reply Done by the reply to the request. Constant time.
    #[inline(always)]
    pub(crate) fn tell(&self, reply: &mut Reply)
        requires { reply.old ≡ Reply.Done }
        ensures { reply.new ≡ reply_of self.now }
    {
        match self {
            Effect::Taken(taken) => *reply = Reply::Count(taken.len() as u64),
            Effect::Synced(last, _) => *reply = Reply::Group(last.table.group().0),
            _ => {}
        }
    }

    /// The same effect; bytes that are lent are copied. NoMemory where they can't be copied.
    pub(crate) fn owned(self, alloc: Global) -> Result<Effect<'static>, Refusal>
        ensures ok { IfOk result (λ e. e ≡ self.entry) }
        ensures err { IfErr result (λ e. e ≡ Refusal.NoMemory) }
    {
        Ok(match self {
            Effect::Nothing => Effect::Nothing,
            Effect::Guids(next) => Effect::Guids(next),
            Effect::Blocks(draft, writes) => Effect::Blocks(draft, writes.owned(alloc)?),
            Effect::Taken(taken) => Effect::Taken(taken),
            Effect::Synced(last, viewed) => Effect::Synced(last, viewed),
            Effect::Abandoned => Effect::Abandoned,
            Effect::Closed(number) => Effect::Closed(number),
        })
    }
}

//! The state of a pool other than its present world.
ghost use Rattle.std.specs.Prelude.{◌≡◌, Ok, Some, None, IfSome, map};
ghost use Rattle.base.specs.Surveys.{dead_block};
ghost use Rattle.model.specs.Ids.{snap_id};
ghost use Rattle.removals.specs.Requests.{IsSweptBut};
ghost use Rattle.steps.specs.Settles.{AllAllocated, releases};
ghost use Rattle.tree.specs.Taking.{takes, AllFree};
ghost use Rattle.pool.specs.Pools.{state_in, world_in, synced_numbers, AreBelow, IsKept};
ghost use Rattle.pool.specs.Effects.{effected, numbers_after, image_after, MaySettle};
ghost use Rattle.pool.specs.Spares.{HoldsMemory, path_of};

use crate::effect::Effect;
use crate::worlds::World;
use base::meter::{Meter, SegMeter};
use base::number::{BlockNo, Dead, Group};
use image::{ChangedPath, Image, Writes, write_down};
use model::snapshot_id::SnapshotId;
use snap::Views;
use std::alloc::{AllocError, Global};
use tree::Draft;
use zalloc::Numbers;

/// All that a pool keeps beside its present world.
pub(crate) struct Keep {
    /// The world that the last sync left.
    pub(crate) last: World,
    /// The snapshots that views showed at the last sync: a view may be all that a deferred destroy of one of them waits for.
    pub(crate) viewed: Vec<SnapshotId>,
    pub(crate) views: Views,
    pub(crate) next_guid: u64,
    /// How many blocks the pool has.
    pub(crate) size: u32,
    pub(crate) id: u32,
    pub(crate) numbers: Numbers,
    /// The blocks of the present world and of the last synced one, as bytes.
    pub(crate) image: Image,
}

// Written by hand, so that it is proved once: a derived `Drop` is expanded again in each crate that drops the type.
impl Drop for Keep {
    fn drop(self) {
        let Keep {
            last,
            viewed,
            views,
            next_guid: _,
            size: _,
            id: _,
            numbers,
            image,
        } = self;
        drop(last);
        drop(viewed);
        drop(views);
        drop(numbers);
        drop(image);
    }
}

/// How many nodes and segments were reached since the pool was made. An entry that a sum looks at counts as a segment.
pub(crate) struct Meters {
    pub(crate) blocks: Meter,
    pub(crate) segments: SegMeter,
}

// Written by hand, for the reason given at `Keep`'s `Drop`.
impl Drop for Meters {
    fn drop(self) {
        let Meters { blocks, segments } = self;
        drop(blocks);
        drop(segments);
    }
}

/// What a change of a live map needs beside its world, kept from the last one, so that the next takes no memory for it.
#[derive(Drop)]
pub(crate) struct Spare {
    draft: Option<Box<Draft>>,
    path: Option<Box<ChangedPath>>,
}

impl Spare {
    pub(crate) fn new() -> Spare {
        Spare {
            draft: None,
            path: None,
        }
    }

    /// The spare draft, or a new one.
    pub(crate) fn draft(&mut self, alloc: Global) -> Result<Box<Draft>, AllocError>
        ensures kept { IfSome self.old.draft (λ d. result ≡ Ok d) }
        ensures gone { self.new.draft ≡ None }
        ensures path { self.new.path ≡ self.old.path }
    {
        match self.draft.take() {
            Some(draft) => Ok(draft),
            None => Ok(Box::new(alloc, Draft::new(alloc))?),
        }
    }

    /// The spare path, or a new one.
    pub(crate) fn path(&mut self, alloc: Global) -> Result<Box<ChangedPath>, AllocError>
        ensures kept { IfSome self.old.path (λ p. result ≡ Ok p) }
        ensures gone { self.new.path ≡ None }
        ensures draft { self.new.draft ≡ self.old.draft }
    {
        match self.path.take() {
            Some(path) => Ok(path),
            None => Ok(Box::new(alloc, ChangedPath::new())?),
        }
    }

    /// Keeps these for the next change; a draft whose lists have taken memory goes.
    fn keep(&mut self, draft: Box<Draft>, writes: Writes<'_>)
        ensures draft { (HoldsMemory draft.value → ⊥) → self.new.draft ≡ Some draft }
        ensures path { IfSome (path_of writes.entry) (λ p. self.new.path ≡ Some p) }
    {
        if !draft.is_spilled() {
            self.draft = Some(draft);
        }
        if let Writes::OnPath { path, .. } = writes {
            self.path = Some(path);
        }
    }
}

impl Keep {
    /// Settles the effect of a request, once its world is in place. Nothing else changes the states of the numbers, or the image. It allocates
    /// nothing, and costs what `Pool::commit` says. What a change can leave for the next one goes to `spare`.
    pub(crate) fn settle(&mut self, effect: Effect<'_>, spare: &mut Spare)
        requires may { MaySettle (world_in self.old.last) self.old.size self.old.numbers.present effect }
        requires synced { self.old.numbers.synced ≡ synced_numbers self.old.size (world_in self.old.last) }
        requires image { self.old.image.kept ≡ synced_numbers self.old.size (world_in self.old.last) }
        ensures state { (w : World) → state_in self.new w ≡ effected (state_in self.old w) effect.entry }
        ensures numbers { self.new.numbers.present ≡ numbers_after (world_in self.old.last) self.old.size self.old.numbers.present effect.entry }
        ensures synced { self.new.numbers.synced ≡ synced_numbers self.new.size (world_in self.new.last) }
        ensures image { self.new.image ≡ image_after self.old.size self.old.image effect.entry }
        ensures swept { IsSweptBut self.old.last.table (map snap_id self.old.viewed.items) → IsSweptBut self.new.last.table (map snap_id self.new.viewed.items) }
        ensures kept { IsKept self.old.last → IsKept self.new.last }
        ensures below { AreBelow self.old.views.opened self.old.views.next → AreBelow self.new.views.opened self.new.views.next }
    {
        match effect {
            Effect::Nothing => {}
            Effect::Guids(next) => self.next_guid = next,
            Effect::Blocks(draft, writes) => {
                let group = self.last.table.group();
                release_all(&mut self.numbers, draft.released.as_slice(), group);
                take_all(&mut self.numbers, draft.taken.as_slice());
                write_down(&mut self.image, &writes);
                spare.keep(draft, writes);
            }
            Effect::Taken(taken) => release_all(&mut self.numbers, &taken, self.last.table.group()),
            Effect::Synced(last, viewed) => {
                self.last = Box::into_inner(last);
                self.viewed = viewed;
                self.image.keep_synced(&mut self.numbers);
            }
            Effect::Abandoned => self.numbers.restore(),
            Effect::Closed(number) => self.views.close(number),
        }
    }
}

// Releases each of these blocks. The number of a block born before the group waits for the next sync; that of another is free at once.
fn release_all(numbers: &mut Numbers, released: &[Dead], group: Group)
    requires { AllAllocated group.0 numbers.old.present (map dead_block released.now) }
    ensures present { numbers.new.present ≡ releases group.0 numbers.old.present (map dead_block released.now) }
    ensures synced { numbers.new.synced ≡ numbers.old.synced }
{
    for dead in released {
        numbers.release(dead.block, dead.birth.0 < group.0);
    }
}

// Takes each of these numbers for a block.
fn take_all(numbers: &mut Numbers, taken: &[BlockNo])
    requires { AllFree numbers.old.present (map (λ n. n.0) taken.now) }
    ensures present { numbers.new.present ≡ takes numbers.old.present (map (λ n. n.0) taken.now) }
    ensures synced { numbers.new.synced ≡ numbers.old.synced }
{
    for number in taken {
        numbers.take(*number);
    }
}

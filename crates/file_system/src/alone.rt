//! The blocks of a snapshot that no neighbour has.
ghost use Rattle.std.specs.Prelude.{◌≡◌, ◌≤◌, ◌==◌, ◌<◌, IsSome, IfOk, IfErr, OnOk, OnErr};
ghost use Rattle.std.specs.List.{find};
ghost use Rattle.std.specs.Option.{option_copied};
ghost use Rattle.std.specs.FinSet.{len, difference};
ghost use Rattle.base.specs.Map.{Block, blocks};
ghost use Rattle.base.specs.declared.refusal.Refusal.{Refusal};
ghost use Rattle.world.specs.Sets.{Has};
ghost use Rattle.file_system.specs.Alone.{entries_of, HasJust};
ghost use Rattle.file_system.specs.Splices.{AreAbove, lost_from, oldest_blocks};

use crate::file_system::FileSystem;
use crate::origin::{base_group, origin_in};
use crate::splice::around_of;
use crate::written::group_of;
use base::meter::SegMeter;
use base::number::{Dead, Group};
use base::refusal::Refusal;
use deadlist::deadlist::Deadlist;
use snapshots::Kept;
use std::alloc::Global;
use std::collections::BTreeSet;
use std::marker::Model;

/// Blocks of a snapshot that neither the dataset before it nor the one after it has. Contracts see the set of them.
#[derive(Drop)]
pub struct Alone {
    blocks: Vec<Dead>,
    alloc: Global,
}

impl Model for Alone {
    ghost use Rattle.std.specs.Prelude.{map};
    ghost use Rattle.std.specs.FinSet.{from_list};
    ghost use Rattle.base.specs.Codes.{blocks_code};
    ghost use Rattle.base.specs.Map.{BlockSet};
    ghost use Rattle.base.specs.Surveys.{AreDifferent, dead_block};

    ghost Value = { BlockSet };

    ghost coded = { blocks_code };

    ghost view = { λ a. from_list (map dead_block a.blocks.items) };

    ghost invariant = { λ a. AreDifferent (map dead_block a.blocks.items) };
}

impl Alone {
    /// The number of blocks. Constant time.
    pub fn len(&self) -> u64
        ensures { result ≡ len self.now }
    {
        self.blocks.len() as u64
    }
}

// The dead list of the snapshot, or `dead`, that of the live map, where there is no snapshot. Constant time.
fn dead_of<'a>(kept: Option<&'a Kept>, dead: &'a Deadlist) -> &'a Deadlist
    ensures { result.now.entries ≡ entries_of (option_copied kept.entry) dead.now.entries }
{
    match kept {
        Some(kept) => &kept.dead,
        None => dead,
    }
}

// The entries of a dead list. NoMemory where there is none for them. It costs their number.
fn entries_of(alloc: Global, dead: &Deadlist, segments: &mut SegMeter) -> Result<Vec<Dead>, Refusal>
    ensures ok { IfOk result (λ v. v.items ≡ dead.now.entries) }
    ensures err { IfErr result (λ e. e ≡ Refusal.NoMemory) }
    ensures never_lower { segments.old ≤ segments.new }
{
    let mut entries = Vec::new(alloc);
    for dead in dead.iter(segments) {
        entries.push(dead)?;
    }
    Ok(entries)
}

// The entries of a dead list as a set. NoMemory where there is none for them. It costs their number times the logarithm of it.
fn set_of(
    alloc: Global,
    dead: &Deadlist,
    segments: &mut SegMeter,
) -> Result<BTreeSet<Dead>, Refusal>
    ensures ok { IfOk result (λ s. HasJust s dead.now.entries) }
    ensures err { IfErr result (λ e. e ≡ Refusal.NoMemory) }
    ensures never_lower { segments.old ≤ segments.new }
{
    let mut entries = BTreeSet::new(alloc);
    for dead in dead.iter(segments) {
        if entries.insert(dead).is_err() {
            return Err(Refusal::NoMemory);
        }
    }
    Ok(entries)
}

impl FileSystem {
    /// The blocks of the snapshot of this group, which must be there, that neither the dataset before it nor the one after it has. A destroy of
    /// the snapshot frees them, unless a clone of it has them (zfs-destroy(8): -n). NoMemory where there is none for them. It costs the
    /// logarithm of the number of snapshots, about the square of the logarithm of the number of entries of the next dead list, and the number of
    /// these blocks.
    pub fn alone(
        &self,
        alloc: Global,
        group: Group,
        segments: &mut SegMeter,
    ) -> Result<Alone, Refusal>
        requires there { IsSome (find (λ t. t.group == group.0) self.now.system.snaps) }
        requires above { AreAbove self.now.below self.now.system }
        ensures ok { IfOk result (λ a. a ≡ lost_from (blocks self.now.below) self.now.system.snaps self.now.system.live group.0) }
        ensures err { IfErr result (λ e. e ≡ Refusal.NoMemory) }
        ensures never_lower { segments.old ≤ segments.new }
    {
        let around = around_of(self.snapshots.list(), group);
        let since = group_of(around.before, base_group(origin_in(&self.origin)));
        let mut dead = dead_of(around.after, &self.dead).copy(segments)?;
        let lost = dead.take_after(since, segments)?;
        let blocks = entries_of(alloc, &lost, segments)?;
        Ok(Alone { blocks, alloc })
    }

    /// The number of blocks that `alone` answers (zfsprops(7): used). It takes no memory. It costs the logarithm of the number of snapshots, and
    /// about the square of the logarithm of the number of entries of the next dead list.
    pub fn alone_count(&self, group: Group, segments: &mut SegMeter) -> u64
        requires there { IsSome (find (λ t. t.group == group.0) self.now.system.snaps) }
        requires above { AreAbove self.now.below self.now.system }
        ensures count { result ≡ len (lost_from (blocks self.now.below) self.now.system.snaps self.now.system.live group.0) }
        ensures never_lower { segments.old ≤ segments.new }
    {
        let around = around_of(self.snapshots.list(), group);
        let since = group_of(around.before, base_group(origin_in(&self.origin)));
        dead_of(around.after, &self.dead).space_after(since, segments)
    }

    /// Removes from `alone` the blocks that the oldest dataset of this clone has: its first snapshot, or else its live map (zfs-destroy(8): -n).
    /// All blocks of `alone` must be the origin's. NoMemory where there is none for it; then `alone` is as it was. It costs for each entry of
    /// the oldest dead list, and for each block of `alone`, the logarithm of the number of these entries.
    pub fn strike(&self, alone: &mut Alone, segments: &mut SegMeter) -> Result<(), Refusal>
        requires { (b : Block) → Has alone.old b → Has (blocks self.now.below) b }
        ensures ok { OnOk result (alone.new ≡ difference alone.old (oldest_blocks self.now.system.live self.now.system.snaps)) }
        ensures err { OnErr result (alone.new ≡ alone.old) }
        ensures only { IfErr result (λ e. e ≡ Refusal.NoMemory) }
        ensures never_lower { segments.old ≤ segments.new }
    {
        let dead = dead_of(self.snapshots.list().get(0), &self.dead);
        let gone = set_of(alone.alloc, dead, segments)?;
        alone.blocks.retain(|dead| gone.contains(dead));
        Ok(())
    }
}

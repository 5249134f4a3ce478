//! The end of a receive: the records are applied and kept as a snapshot.
ghost use Rattle.std.specs.Prelude.{◌≡◌, ◌≤◌, ℕ, IfOk, IfErr, OnOk, Err};
ghost use Rattle.base.specs.declared.number.Key.{Key};
ghost use Rattle.base.specs.declared.refusal.Refusal.{Refusal};
ghost use Rattle.tree.specs.Asking.{IsNoSpaceOrNoMemory};
ghost use Rattle.tree.specs.Change.{HasRoom, LacksRoom, CountsDropped};
ghost use Rattle.tree.specs.Updates.{changes_of};
ghost use Rattle.datasets.specs.Rows.{live_of};
ghost use Rattle.datasets.specs.Writes.{young_of, AllowsWrite};
ghost use Rattle.world.specs.Tables.{world_of};
ghost use Rattle.receives.specs.Ends.{CanFinish, HasReceived, finished};

use base::meter::{Meter, SegMeter};
use base::name::SnapName;
use base::number::{Group, Guid};
use base::refusal::Refusal;
use datasets::Table;
use std::alloc::Global;
use tree::{Draft, Update};
use zalloc::Allocator;

/// Applies the updates of a stream to the live tree of the file system that a receive began with, and keeps the live map as the snapshot of this
/// name with the sender's guid, which closes the open group (zfs-receive(8); that the guid is the sender's, and groups, are profile). `synced`
/// is the group that the last sync opened. The draft then names the numbers of the new blocks, which aren't taken from the allocator yet, and those
/// of the blocks dropped by the tree that no snapshot has. NoSpace where the Free numbers and those of the dropped young blocks are too few,
/// else NoMemory where memory is refused, or where the snapshots would have more blocks than a u64 counts. On error, discard the table. It costs
/// the logarithm of the number of file systems, and the change; where another table shares this one's snapshots, also a 1,024th of their number.
pub fn finish(
    alloc: Global,
    table: &mut Table,
    name: &SnapName,
    target: Guid,
    updates: &[Update],
    synced: Group,
    allocator: &Allocator,
    meter: &mut Meter,
    segments: &mut SegMeter,
    draft: &mut Draft,
) -> Result<(), Refusal>
    requires can { CanFinish table.old name.now }
    requires writes { AllowsWrite table.old updates.now synced.0 allocator.now }
    ensures ok { OnOk result (HasReceived table.old table.new name.now target.0 (changes_of updates.now) synced.0 allocator.now draft.new) }
    ensures after { OnOk result ((number : Key → ℕ) × (world_of table.new ≡ finished table.old name.now target.0 (changes_of updates.now) number)) }
    ensures room { OnOk result (HasRoom (live_of table.old.file_systems name.now.file_system) (changes_of updates.now) (young_of table.old name.now.file_system synced.0) allocator.now) }
    ensures no_space { result ≡ Err Refusal.NoSpace → LacksRoom (live_of table.old.file_systems name.now.file_system) (changes_of updates.now) (young_of table.old name.now.file_system synced.0) allocator.now }
    ensures only { IfErr result IsNoSpaceOrNoMemory }
    ensures metered { OnOk result (CountsDropped (live_of table.old.file_systems name.now.file_system) (changes_of updates.now) meter.old meter.new) }
    ensures never_lower { meter.old ≤ meter.new }
    ensures segments_never_lower { segments.old ≤ segments.new }
{
    let name = name.member();
    table.apply_live(
        &name.file_system,
        alloc,
        updates,
        synced,
        allocator,
        meter,
        segments,
        draft,
    )?;
    table.facts();
    table.keep_live(alloc, &name.file_system, &name.component, target)?;
    Ok(())
}

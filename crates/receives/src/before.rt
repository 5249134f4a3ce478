//! The datasets that a receive begins with.
ghost use Rattle.std.specs.Prelude.{◌≡◌, ◌≤◌, ◌⊎◌, Some, None, IsSome, IfSome, IfOk, IfErr, OnOk};
ghost use Rattle.base.specs.declared.refusal.Refusal.{Refusal};
ghost use Rattle.model.specs.State.{Views as OpenViews};
ghost use Rattle.model.specs.World.{empty_file_system, union_of, snap_named};
ghost use Rattle.model.specs.requests.Create.{create_refusal};
ghost use Rattle.world.specs.Sets.{AreDisjoint};
ghost use Rattle.world.specs.Tables.{world_of, with_system};
ghost use Rattle.removals.specs.Edits.{HasLost};
ghost use Rattle.receives.specs.Ends.{CanFinish};
ghost use Rattle.receives.specs.Requests.{begun, cloned, receive_refusal};

use crate::going::{back_past, forced_back, replaced};
use crate::refused::receive_refusal;
use base::meter::SegMeter;
use base::name::{DsName, Member, SnapName};
use base::refusal::Refusal;
use datasets::Table;
use model::receiving::Receiving;
use removals::WorkingCopy;
use snap::{Freeing, Views};
use std::alloc::Global;
use stream::Stream;

/// The datasets that a receive of this stream as a snapshot of this name begins with: those that are there, and for a full stream a new file
/// system. By the mode the file system may go back to its newest snapshot or to the stream's source, be a clone of that, or be emptied. The blocks
/// that it loses are to be freed. The table and what it has to free stay as they are. Refused is what `receive_refusal` says, else NoMemory where
/// memory is refused, or as `Table::rollback` says (zfs-receive(8), -F, -o origin; the order and numbers are profile). It costs the number of file
/// systems, the chunks of pieces that are to be freed and the logarithm of the number of the file system's snapshots. Where the file system goes
/// back or is emptied it also costs the number of its snapshots with the segments of their dead lists, the number of its bookmarks, and for each
/// snapshot that goes what its destroy costs and the number of open views. No block is visited.
pub fn begin(
    alloc: Global,
    table: &Table,
    freeing: &Freeing,
    views: &Views,
    name: &SnapName,
    stream: &Stream,
    mode: &Receiving,
    segments: &mut SegMeter,
) -> Result<WorkingCopy, Refusal>
    requires apart { AreDisjoint (union_of (world_of table.now)) freeing.now }
    ensures ok { IfOk result (λ e. e.to ≡ begun table.now name.now.file_system stream.now mode.now) }
    ensures lost { IfOk result (λ e. HasLost table.now freeing.now e.to e.freeing) }
    ensures ready { IfOk result (λ e. CanFinish e.to name.now) }
    ensures can { OnOk result (receive_refusal table.now views.now.opened name.now stream.now mode.now ≡ None) }
    ensures refused { IfSome (receive_refusal table.now views.now.opened name.now stream.now mode.now) (λ e. result ≡ Err e) }
    ensures only { IfErr result (λ e. (receive_refusal table.now views.now.opened name.now stream.now mode.now ≡ Some e) ⊎ (e ≡ Refusal.NoMemory)) }
    ensures never_lower { segments.old ≤ segments.new }
{
    table.facts();
    let name = name.member();
    if let Some(refusal) = receive_refusal(table, views, name, stream, mode) {
        return Err(refusal);
    }
    start(alloc, table, freeing, name, stream, mode, segments)
}

// Does what `begin` does, after its refusals were checked. NoMemory where memory is refused, or as `Table::rollback` says. It costs what `begin`
// does.
fn start(
    alloc: Global,
    table: &Table,
    freeing: &Freeing,
    name: &Member,
    stream: &Stream,
    mode: &Receiving,
    segments: &mut SegMeter,
) -> Result<WorkingCopy, Refusal>
    requires apart { AreDisjoint (union_of (world_of table.now)) freeing.now }
    requires can { (views : OpenViews) × (receive_refusal table.now views name.now stream.now mode.now ≡ None) }
    ensures ok { IfOk result (λ e. e.to ≡ begun table.now name.now.file_system stream.now mode.now) }
    ensures lost { IfOk result (λ e. HasLost table.now freeing.now e.to e.freeing) }
    ensures err { IfErr result (λ e. e ≡ Refusal.NoMemory) }
    ensures never_lower { segments.old ≤ segments.new }
{
    let name = &name.file_system;
    let Some(source) = stream.source() else {
        return match mode {
            Receiving::Replace => replaced(alloc, table, freeing, name, segments),
            _ => with_new(table, freeing, name),
        };
    };
    match mode {
        Receiving::Back => forced_back(alloc, table, freeing, name, segments),
        Receiving::Past => back_past(alloc, table, freeing, name, source, segments),
        Receiving::Origin(origin) => with_clone(table, freeing, name, origin.member()),
        Receiving::Plain | Receiving::Replace => WorkingCopy::of(table, freeing),
    }
}

// The datasets with a new file system of this name. The refusals of its creation were checked before. NoMemory where memory is refused. It costs
// the number of file systems, the length of the name and the chunks of pieces that are to be freed.
fn with_new(table: &Table, freeing: &Freeing, name: &DsName) -> Result<WorkingCopy, Refusal>
    requires apart { AreDisjoint (union_of (world_of table.now)) freeing.now }
    requires can { create_refusal table.now.file_systems name.now ≡ None }
    ensures ok { IfOk result (λ e. e.to ≡ with_system table.now name.now empty_file_system) }
    ensures lost { IfOk result (λ e. HasLost table.now freeing.now e.to e.freeing) }
    ensures err { IfErr result (λ e. e ≡ Refusal.NoMemory) }
{
    let mut edit = WorkingCopy::of(table, freeing)?;
    edit.to.create(name)?;
    Ok(edit)
}

// The datasets with a clone of this snapshot, which is there, under this name. The refusals of its creation were checked before. NoMemory where
// memory is refused. It costs the number of file systems, the length of the name, the chunks of pieces that are to be freed, and the logarithm of
// the number of the origin's snapshots.
fn with_clone(
    table: &Table,
    freeing: &Freeing,
    name: &DsName,
    origin: &Member,
) -> Result<WorkingCopy, Refusal>
    requires apart { AreDisjoint (union_of (world_of table.now)) freeing.now }
    requires can { create_refusal table.now.file_systems name.now ≡ None }
    requires there { IsSome (snap_named (world_of table.now) origin.now) }
    ensures ok { IfOk result (λ e. e.to ≡ cloned table.now name.now origin.now) }
    ensures lost { IfOk result (λ e. HasLost table.now freeing.now e.to e.freeing) }
    ensures err { IfErr result (λ e. e ≡ Refusal.NoMemory) }
{
    table.facts();
    let mut edit = WorkingCopy::of(table, freeing)?;
    edit.to.add_clone(name, origin)?;
    Ok(edit)
}

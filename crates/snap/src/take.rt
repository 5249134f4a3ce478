//! Takes snapshots that no check refuses.
ghost use Rattle.std.specs.Prelude.{◌≡◌, ◌+◌, ◌<◌, ◌≤◌, [], ◌∷◌, false, IfOk, IfErr, OnOk, OnErr, length};
ghost use Rattle.base.specs.declared.refusal.Refusal.{Refusal};
ghost use Rattle.model.specs.Targets.{guid_limit};
ghost use Rattle.model.specs.requests.Snapshot.{guid_by, has_no_room_for};
ghost use Rattle.world.specs.Tables.{world_of};
ghost use Rattle.world.specs.Takings.{AreTakable};
ghost use Rattle.datasets.specs.Snapshots.{taken_of};

use crate::Guids;
use crate::named::Named;
use base::name::Member;
use base::number::Guid;
use base::refusal::Refusal;
use datasets::Table;
use std::alloc::Global;

// The guid of the snapshot at this place of a request. Constant time.
fn guid_at(guids: Guids, place: usize) -> Guid
    requires { guids.next + place ≤ guid_limit }
    ensures { result.0 ≡ guid_by guids.pool (guids.next + place) }
{
    Guid(u64::from(guids.pool) * 4294967296 + guids.next + place as u64)
}

/// A copy of the table with a snapshot of each of these names, of which there must be one or more. The snapshots are of the open group, which is
/// closed in the copy. `table` is unchanged. NoMemory where there is none for it. It costs the number of file systems, and for each name the
/// logarithm of that and a 1,024th of the snapshots that its file system had.
pub fn take_all(alloc: Global, table: &Table, all: &[Named], guids: Guids) -> Result<Table, Refusal>
    requires takable { AreTakable table.now.file_systems all.now }
    requires some { 0 < length all.now }
    requires room { has_no_room_for (world_of table.now) guids.next (length all.now) ≡ false }
    ensures ok { IfOk result (λ to. to ≡ taken_of table.now (guid_by guids.pool guids.next) all.now) }
    ensures err { IfErr result (λ e. e ≡ Refusal.NoMemory) }
{
    let group = table.group();
    table.facts();
    let mut to = table.copy()?;
    to.close_group();
    for (place, name) in all.iter().enumerate() {
        let guid = guid_at(guids, place);
        to.take_snapshot(alloc, name.file_system, name.component, guid, group)?;
    }
    Ok(to)
}

/// Takes one snapshot, of this name, in this table in the open group, which is then closed. NoMemory where there is none for it, and then the
/// table is as it was. It costs the logarithm of the number of file systems; and where another table shares the snapshots of this one, a 1,024th
/// of their number.
pub fn take_one(
    alloc: Global,
    table: &mut Table,
    name: &Member,
    guids: Guids,
) -> Result<(), Refusal>
    requires takable { AreTakable table.old.file_systems (name.now ∷ []) }
    requires room { has_no_room_for (world_of table.old) guids.next 1 ≡ false }
    ensures ok { OnOk result (table.new ≡ taken_of table.old (guid_by guids.pool guids.next) (name.now ∷ [])) }
    ensures err { OnErr result (table.new ≡ table.old) }
    ensures only { IfErr result (λ e. e ≡ Refusal.NoMemory) }
{
    table.facts();
    let guid = guid_at(guids, 0);
    table.keep_live(alloc, &name.file_system, &name.component, guid)
}

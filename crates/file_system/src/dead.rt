//! Changes of a live tree and of its dead list.
ghost use Rattle.std.specs.Prelude.{◌≡◌, ◌≤◌, ◌<◌, length, filter, IfOk, IfErr, OnOk, OnErr};
ghost use Rattle.std.specs.Arc.{arc_value};
ghost use Rattle.std.specs.List.Sorted.{IsPermutation};
ghost use Rattle.base.specs.declared.refusal.Refusal.{Refusal};
ghost use Rattle.deadlist.specs.Entries.{is_upto};
ghost use Rattle.tree.specs.Drafting.{CanPut, HasPut};
ghost use Rattle.file_system.specs.Dead.{HasGained, IsPlain};

use base::meter::{Meter, SegMeter};
use base::number::{Dead, Group};
use base::refusal::Refusal;
use deadlist::deadlist::Deadlist;
use std::alloc::Global;
use std::sync::Arc;
use tree::{Draft, Tree, Update};

/// Fewer blocks than these go onto a dead list in place.
const FEW: usize = 64;

/// The number of entries that were born no later than the group. It costs their number.
pub fn count_upto(entries: &[Dead], newest: Group) -> usize
    ensures { result ≡ length (filter (is_upto newest.0) entries.now) }
{
    entries
        .iter()
        .filter(|dead| dead.birth.0 <= newest.0)
        .count()
}

/// Applies a draft of a batch of changes to a live tree. The dropped blocks that were born no later than the group of the newest snapshot go
/// onto the dead list. The list is changed in place where it has no other owner and fewer than 64 blocks go onto it; else a longer copy, of which
/// few entries wait, takes its place. NoMemory where there is none for the nodes or the list; then the tree is as it was, and so is the list
/// except for the order of its entries. It costs what `Tree::put` does, whose nodes the meter counts, and the number of dropped blocks. Where a
/// block goes onto the list, it sometimes costs the list's segments too.
pub fn put(
    dead: &mut Arc<Deadlist>,
    live: &mut Tree,
    alloc: Global,
    updates: &[Update],
    group: Group,
    draft: &mut Draft,
    newest: Group,
    meter: &mut Meter,
    segments: &mut SegMeter,
) -> Result<(), Refusal>
    requires can { CanPut live.old updates.now group.0 draft.old }
    requires plain { IsPlain (arc_value dead.old) }
    ensures ok { OnOk result (HasPut live.old live.new updates.now group.0 draft.old draft.new) }
    ensures dead { OnOk result (HasGained (arc_value dead.old).entries (arc_value dead.new).entries draft.old.released.items newest.0) }
    ensures plain { IsPlain (arc_value dead.new) }
    ensures err { OnErr result (live.new ≡ live.old) }
    ensures dead_err { OnErr result (IsPermutation (arc_value dead.old).entries (arc_value dead.new).entries) }
    ensures only { OnErr result (result ≡ Err Refusal.NoMemory) }
    ensures never_lower { meter.old ≤ meter.new }
    ensures segments_never_lower { segments.old ≤ segments.new }
{
    let few = count_upto(draft.released.as_slice(), newest);
    if few == 0 {
        return live.put(alloc, updates, group, draft, meter);
    }
    if let Some(list) = Arc::get_mut(dead) {
        return put_onto(
            list, live, alloc, updates, group, draft, newest, meter, segments,
        );
    }
    let longer = longer(dead, draft.released.as_slice(), newest, segments)?;
    let longer = Arc::new(alloc, longer)?;
    live.put(alloc, updates, group, draft, meter)?;
    *dead = longer;
    Ok(())
}

// Does what `put` does, with a dead list that has no other owner.
fn put_onto(
    list: &mut Deadlist,
    live: &mut Tree,
    alloc: Global,
    updates: &[Update],
    group: Group,
    draft: &mut Draft,
    newest: Group,
    meter: &mut Meter,
    segments: &mut SegMeter,
) -> Result<(), Refusal>
    requires can { CanPut live.old updates.now group.0 draft.old }
    requires plain { IsPlain list.old }
    ensures ok { OnOk result (HasPut live.old live.new updates.now group.0 draft.old draft.new) }
    ensures dead { OnOk result (HasGained list.old.entries list.new.entries draft.old.released.items newest.0) }
    ensures plain { IsPlain list.new }
    ensures err { OnErr result (live.new ≡ live.old) }
    ensures dead_err { OnErr result (IsPermutation list.old.entries list.new.entries) }
    ensures only { OnErr result (result ≡ Err Refusal.NoMemory) }
    ensures never_lower { meter.old ≤ meter.new }
    ensures segments_never_lower { segments.old ≤ segments.new }
{
    let few = count_upto(draft.released.as_slice(), newest);
    if few >= FEW {
        let longer = longer(list, draft.released.as_slice(), newest, segments)?;
        live.put(alloc, updates, group, draft, meter)?;
        *list = longer;
        return Ok(());
    }
    list.reserve(few, segments)?;
    live.put(alloc, updates, group, draft, meter)?;
    list.push_upto(draft.released.as_slice(), newest);
    Ok(())
}

// A copy of a dead list with those of the released blocks that were born no later than the group. Few of its entries wait.
fn longer(
    dead: &Deadlist,
    released: &[Dead],
    newest: Group,
    segments: &mut SegMeter,
) -> Result<Deadlist, Refusal>
    requires { IsPlain dead.now }
    ensures ok { IfOk result (λ d. HasGained dead.now.entries d.entries released.now newest.0) }
    ensures plain { IfOk result IsPlain }
    ensures only { IfErr result (λ e. e ≡ Refusal.NoMemory) }
    ensures never_lower { segments.old ≤ segments.new }
{
    let mut list = dead.copy(segments)?;
    list.reserve(count_upto(released, newest), segments)?;
    list.push_upto(released, newest);
    list.reserve(0, segments)?;
    Ok(list)
}

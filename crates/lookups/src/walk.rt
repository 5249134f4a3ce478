//! The records of a send, by a walk from the top of a tree.
ghost use Rattle.std.specs.Prelude.{◌≡◌, ◌≤◌, ℕ, true, false, Some, IfOk, OnOk, OnErr, IfSome};
ghost use Rattle.base.specs.Key.{IsKey};
ghost use Rattle.base.specs.declared.refusal.Refusal.{Refusal};
ghost use Rattle.stream.specs.Records.{records_since};
ghost use Rattle.laws.specs.Records.{leaf_key};
ghost use Rattle.lookups.specs.Walk.{AddsSent, IsYoung, IsOld, IsAt};

use base::data::Data;
use base::meter::Meter;
use base::number::{Group, Key};
use base::refusal::Refusal;
use std::alloc::Global;
use stream::Record;
use tree::{Subtree, Tree};

/// The records of a send of the blocks of a tree that were born after the group `since`, 0 for a full send (zfs-send(8), -i): a write for each
/// leaf born after it, and a free for each absent place directly below a block born after it, in the order of their first leaves. The records of
/// an empty tree are one free of everything. NoMemory where memory is refused. It costs the nodes born after the group, each with its sixteen
/// places, and the memory of the records.
pub fn records(
    alloc: Global,
    tree: &Tree,
    since: Group,
    meter: &mut Meter,
) -> Result<Vec<Record>, Refusal>
    ensures ok { IfOk result (λ rs. rs.items ≡ records_since tree.now since.0) }
    ensures err { OnErr result (result ≡ Err Refusal.NoMemory) }
    ensures never_lower { meter.old ≤ meter.new }
{
    let mut records = Vec::new(alloc);
    let root = Key { level: 5, index: 0 };
    add_sent(alloc, tree.top()?, root, since, &mut records, meter)?;
    Ok(records)
}

/// Whether a top was born after the group.
fn is_young(top: &Subtree, since: Group, meter: &mut Meter) -> bool
    ensures young { result ≡ true → IsYoung since.0 top.now }
    ensures old { result ≡ false → IsOld since.0 top.now }
    ensures never_lower { meter.old ≤ meter.new }
{
    since.0 < top.block(meter).birth.0
}

/// Adds the write of a leaf: the only record of it in a send since a group before its birth.
fn add_leaf(
    alloc: Global,
    top: &Subtree,
    leaf: u32,
    records: &mut Vec<Record>,
    meter: &mut Meter,
) -> Result<(), Refusal>
    requires { IsAt (leaf_key leaf) top.now }
    ensures ok { OnOk result ((t : ℕ) → IsYoung t top.now → AddsSent t (leaf_key leaf) (Some top.now) records.old.items records.new.items) }
    ensures err { OnErr result (result ≡ Err Refusal.NoMemory) }
    ensures never_lower { meter.old ≤ meter.new }
{
    let Some(bytes) = top.bytes(meter) else {
        return Ok(());
    };
    let bytes = Data::new(alloc, bytes)?;
    records.push(Record::Write { leaf, bytes })?;
    Ok(())
}

/// Adds the records of the block at a key and of all below it, or the free of the key where there is no block.
fn add_sent(
    alloc: Global,
    part: Option<Subtree>,
    key: Key,
    since: Group,
    records: &mut Vec<Record>,
    meter: &mut Meter,
) -> Result<(), Refusal>
    requires is_key { IsKey key }
    requires there { IfSome part (IsAt key) }
    ensures ok { OnOk result (AddsSent since.0 key part records.old.items records.new.items) }
    ensures err { OnErr result (result ≡ Err Refusal.NoMemory) }
    ensures never_lower { meter.old ≤ meter.new }
{
    let Some(top) = part else {
        records.push(Record::Free(key))?;
        return Ok(());
    };
    if !is_young(&top, since, meter) {
        return Ok(());
    }
    if key.level == 0 {
        return add_leaf(alloc, &top, key.index, records, meter);
    }
    for place in 0..16u32 {
        let child = Key {
            level: key.level - 1,
            index: 16 * key.index + place,
        };
        add_sent(
            alloc,
            top.child(place, meter)?,
            child,
            since,
            records,
            meter,
        )?;
    }
    Ok(())
}

//! Holds of snapshots.
ghost use Rattle.std.specs.Prelude.{◌≡◌, ◌⊎◌, ◌++◌, ◌∷◌, [], Some, None, IfSome, IfOk, IfErr, OnOk, OnErr};
ghost use Rattle.std.specs.Arc.{arc_value};
ghost use Rattle.std.specs.List.{list_any};
ghost use Rattle.base.specs.declared.refusal.Refusal.{Refusal};
ghost use Rattle.snapshots.specs.Tags.{has_tag};
ghost use Rattle.base.specs.Names.{same_name};
ghost use Rattle.marks.specs.Requests.{held_in, hold_refusal, tag_refusal};

use crate::place::placed;
use base::name::{Tag, Target};
use base::refusal::Refusal;
use datasets::{Snapshot, Table};
use snapshots::holds::{Holds, TAG_LIMIT};
use std::alloc::Global;
use std::sync::Arc;

/// Appends this tag to those of the snapshot that the target names (zfs-hold(8), without -r; the order is profile). Refused are NotSnapshot
/// where the target isn't the name of a snapshot, else NoDataset where there is no such snapshot, else Deferred where its destroy is deferred,
/// else TagExists where it has the tag, else TooMany where it has 256 tags; else NoMemory where memory is refused (the order and the limit are
/// profile). At `Err` the table is as it was. It costs the logarithms of the numbers of file systems and of snapshots, a walk over the chunks of
/// the snapshots of one, and the bytes of the snapshot's tags, of which there are at most 256.
pub fn hold(alloc: Global, table: &mut Table, target: &Target, tag: &Tag) -> Result<(), Refusal>
    ensures ok { OnOk result (table.new ≡ held_in table.old tag.now target.now) }
    ensures can { OnOk result (hold_refusal table.old tag.now target.now ≡ None) }
    ensures refused { IfSome (hold_refusal table.old tag.now target.now) (λ e. result ≡ Err e) }
    ensures unchanged { OnErr result (table.new ≡ table.old) }
    ensures only { IfErr result (λ e. (hold_refusal table.old tag.now target.now ≡ Some e) ⊎ (e ≡ Refusal.NoMemory)) }
{
    let snapshot = placed(table, target)?;
    let id = snapshot.id();
    let tags = tags_with(alloc, snapshot, tag)?;
    let Target::Snapshot(name) = target else {
        unreachable!()
    };
    table.set_tags(alloc, &name.member().file_system, id, tags)
}

// The tags of the snapshot, and this one behind them. The refusals are those of `refusal_at`; else NoMemory where memory is refused. It costs
// the bytes of the tags.
fn tags_with(alloc: Global, snapshot: &Snapshot, tag: &Tag) -> Result<Arc<Holds>, Refusal>
    ensures ok { IfOk result (λ tags. arc_value tags ≡ snapshot.now.tags ++ tag.now ∷ []) }
    ensures can { OnOk result (tag_refusal snapshot.now tag.now ≡ None) }
    ensures refused { IfSome (tag_refusal snapshot.now tag.now) (λ e. result ≡ Err e) }
    ensures only { IfErr result (λ e. (tag_refusal snapshot.now tag.now ≡ Some e) ⊎ (e ≡ Refusal.NoMemory)) }
{
    if let Some(refusal) = refusal_at(snapshot, tag) {
        return Err(refusal);
    }
    let mut tags = snapshot.holds(alloc)?;
    tags.add(tag)?;
    Ok(Arc::new(alloc, tags)?)
}

// The refusal of this tag for the snapshot, if any: Deferred where its destroy is deferred, else TagExists where it has the tag, else TooMany
// where it has 256 tags. It costs the number of its tags.
fn refusal_at(snapshot: &Snapshot, tag: &Tag) -> Option<Refusal>
    ensures { result ≡ tag_refusal snapshot.now tag.now }
{
    if snapshot.is_deferred() {
        return Some(Refusal::Deferred);
    }
    if has_tag(snapshot, tag) {
        return Some(Refusal::TagExists);
    }
    if snapshot.tag_count() >= TAG_LIMIT {
        return Some(Refusal::TooMany);
    }
    None
}

// Whether the snapshot has this tag. It costs the number of its tags.
fn has_tag(snapshot: &Snapshot, tag: &Tag) -> bool
    ensures { result ≡ has_tag snapshot.now.tags tag.now }
{
    any_is(snapshot.tags(), tag)
}

// Whether one of the tags is this one. It costs their number.
fn any_is(tags: &[Vec<u8>], tag: &Tag) -> bool
    ensures { result ≡ list_any (λ v. same_name tag.now v.items) tags.now }
{
    tags.iter().any(|other| is_same(tag, other))
}

// Whether the two tags are equal. It costs their length.
fn is_same(tag: &Tag, other: &Vec<u8>) -> bool
    ensures { result ≡ same_name tag.now other.now.items }
{
    tag.as_bytes() == other.as_slice()
}

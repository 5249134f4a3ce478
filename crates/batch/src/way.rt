//! What the write of a single leaf does to the keys on the path to it.
ghost use Rattle.std.specs.Prelude.{◌≡◌, ℕ, ◌+◌, ◌<◌, ◌≤◌, ◌++◌, IfOk, IfErr, IfSome, IfNone, OnOk, List, [], ◌∷◌, length, count_by, true};
ghost use Rattle.std.specs.List.{filter_map};
ghost use Rattle.base.specs.Counting.{counted};
ghost use Rattle.base.specs.declared.refusal.Refusal.{Refusal};
ghost use Rattle.batch.specs.Build.{is_fresh};
ghost use Rattle.batch.specs.declared.findings.Claim.{Claim};
ghost use Rattle.batch.specs.Numbers.{frees_from};
ghost use Rattle.batch.specs.Room.{IsNoSpaceOrNoMemory};
ghost use Rattle.batch.specs.Said.{said, AreInOrder, IsOneLeaf};
ghost use Rattle.batch.specs.Touch.{claims, released, dropped, let_go, young_one};
ghost use Rattle.batch.specs.Way.{way_claims, way_released, IsNumbered};
ghost use Rattle.node.specs.Kid.{IsSoundKid};
ghost use Rattle.node.specs.Node.{root_part, whole, part_of_node};
ghost use Rattle.zalloc.specs.States.{is_free};

use crate::draft::Draft;
use crate::findings::{Survey, if_young, root_of};
use crate::numbers::NewBlock;
use crate::update::{Update, one_leaf};
use base::meter::Meter;
use base::number::{Dead, Group, Key};
use base::refusal::Refusal;
use node::Root;
use std::alloc::{AllocError, Global};
use std::sync::Arc;
use zalloc::Allocator;

/// How many keys are on the path to a leaf: its own, and one at each of the five levels above (On-Disk Specification, chapter 3; the number is
/// profile).
pub(crate) const WAY: usize = 6;

/// If the updates are the write of a single leaf, answers that leaf, and sets `blocks` to the present blocks of the keys on the path to it,
/// indexed by level. The meter rises by at least one for each of these blocks. None for any other updates; then `blocks` and the meter are
/// unchanged.
pub(crate) fn way_of_write(
    root: &Option<Arc<Root>>,
    updates: &[Update],
    blocks: &mut [Option<Dead>; 6],
    meter: &mut Meter,
) -> Option<u32>
    requires sound { IsSoundKid 5 (whole root.now) }
    requires order { AreInOrder updates.now }
    ensures one { IfSome result (λ leaf. IsOneLeaf (said updates.now) leaf true) }
    ensures within { IfSome result (λ leaf. leaf < 1048576) }
    ensures claims { IfSome result (λ leaf. (y : ℕ) → claims (said updates.now) y 5 0 (whole root.now) ≡ way_claims y leaf blocks.new) }
    ensures released { IfSome result (λ leaf. (y : ℕ) → released (said updates.now) y 5 0 (whole root.now) ≡ way_released y blocks.new) }
    ensures metered { IfSome result (λ leaf. (y : ℕ) → counted meter.old (length (dropped (said updates.now) y 5 0 (whole root.now))) ≤ meter.new) }
    ensures never_lower { meter.old ≤ meter.new }
    ensures none { IfNone result ((leaf : ℕ) → ¬ (IsOneLeaf (said updates.now) leaf true)) }
    ensures same_blocks { IfNone result (blocks.new ≡ blocks.old) }
    ensures same_meter { IfNone result (meter.new ≡ meter.old) }
{
    let Some((leaf, true)) = one_leaf(updates) else {
        return None;
    };
    Root::blocks_to(root_of(root), 5, leaf, blocks, meter);
    Some(leaf)
}

impl Draft {
    /// Adds a key on the path to a leaf that is written. Its new block has the number of its block `own` where that is young, and else the first
    /// Free number from `from` on; then `own` is released. Returns the number from which to search for the next one.
    fn add(
        &mut self,
        key: Key,
        own: Option<Dead>,
        young: Group,
        allocator: &Allocator,
        from: u32,
    ) -> Result<u32, Refusal>
        ensures numbered { IfOk result (λ next. (cs : List Claim) → IsNumbered cs allocator.now from self.old → IsNumbered (cs ++ record { key = key; kept = young_one young.0 own } ∷ []) allocator.now next self.new) }
        ensures released { OnOk result (self.new.released.items ≡ self.old.released.items ++ let_go true true young.0 own) }
        ensures no_space { result ≡ Err Refusal.NoSpace → (frees_from from allocator.now ≡ []) × (young_one young.0 own ≡ None) }
        ensures only { IfErr result IsNoSpaceOrNoMemory }
    {
        if let Some(kept) = if_young(own, young) {
            self.made.push(NewBlock {
                key,
                block: kept.block,
            })?;
            return Ok(from);
        }
        let Some(block) = allocator.find(from) else {
            return Err(Refusal::NoSpace);
        };
        if let Some(dead) = own {
            self.released.push(dead)?;
        }
        self.taken.push(block)?;
        self.made.push(NewBlock { key, block })?;
        Ok(block.0 + 1)
    }
}

/// Adds to an empty draft the keys on the path to a leaf that is written. `blocks` are the blocks that the keys have now, indexed by level. NoSpace
/// where there are too few Free numbers.
pub(crate) fn number_way(
    blocks: &[Option<Dead>; 6],
    leaf: u32,
    young: Group,
    allocator: &Allocator,
    draft: &mut Draft,
) -> Result<(), Refusal>
    requires released { draft.old.released.items ≡ [] }
    requires taken { draft.old.taken.items ≡ [] }
    requires made { draft.old.made.items ≡ [] }
    ensures numbered { OnOk result ((next : ℕ) × IsNumbered (way_claims young.0 leaf blocks.now) allocator.now next draft.new) }
    ensures released { OnOk result (draft.new.released.items ≡ way_released young.0 blocks.now) }
    ensures no_space { result ≡ Err Refusal.NoSpace → count_by is_free allocator.now < count_by is_fresh (way_claims young.0 leaf blocks.now) }
    ensures only { IfErr result IsNoSpaceOrNoMemory }
{
    let mut from = 0;
    let mut index = leaf;
    for level in 0..6u8 {
        let key = Key { level, index };
        from = draft.add(key, blocks[level as usize], young, allocator, from)?;
        index /= 16;
    }
    Ok(())
}

/// The blocks that are present on the path to a leaf, as a list.
pub(crate) fn present(alloc: Global, blocks: &[Option<Dead>; 6]) -> Result<Vec<Dead>, AllocError>
    ensures { IfOk result (λ v. v.items ≡ filter_map (λ o. o) blocks.now) }
{
    let mut out = Vec::with_capacity(alloc, WAY)?;
    for own in blocks {
        if let Some(dead) = *own {
            out.push(dead)?;
        }
    }
    Ok(out)
}

//! The numbers of new blocks.
ghost use Rattle.std.specs.Prelude.{◌≡◌, ℕ, ◌+◌, ◌-◌, ◌<◌, ◌≤◌, ◌++◌, IfOk, IfErr, OnOk, length, map, filter, take, slice_get, count_by, Some};
ghost use Rattle.base.specs.Surveys.{IsIn, AreDifferent};
ghost use Rattle.base.specs.declared.refusal.Refusal.{Refusal};
ghost use Rattle.batch.specs.Build.{is_fresh, filled};
ghost use Rattle.batch.specs.Room.{IsNoSpaceOrNoMemory};
ghost use Rattle.batch.specs.Numbers.{numbers, frees_from, is_young, young_numbers, IsAtHand};
ghost use Rattle.zalloc.specs.States.{is_free};
ghost use Rattle.zalloc.specs.declared.BlockState.TheVariants.{Free, Allocated};

use crate::findings::Claim;
use base::number::{BlockNo, Dead, Group, Key};
use base::refusal::Refusal;
use std::alloc::{AllocError, Global};
use zalloc::Allocator;

/// A new block of a change: its key and its number.
#[derive(Clone, Copy, Default, PartialEq, Eq, Debug)]
pub struct NewBlock {
    pub key: Key,
    pub block: BlockNo,
}

/// How many claims keep no block, and so need a number.
pub fn fresh_count(claims: &[Claim]) -> usize
    ensures { result ≡ count_by is_fresh claims.now }
{
    claims.iter().filter(|claim| claim.kept.is_none()).count()
}

/// Adds to `out` the numbers of the released blocks that were born from group `young` on, until `out` has `need` numbers.
fn reuse(
    released: &[Dead],
    young: Group,
    need: usize,
    out: &mut Vec<BlockNo>,
) -> Result<(), AllocError>
    requires { length out.old.items ≤ need }
    ensures { OnOk result (numbers out.new.items ≡ numbers out.old.items ++ take (need - length out.old.items) (young_numbers young.0 released.now)) }
{
    for dead in released {
        if out.len() == need {
            return Ok(());
        }
        if dead.birth.0 >= young.0 {
            out.push(dead.block)?;
        }
    }
    Ok(())
}

/// Adds to `out` the Free numbers from `first` on, in order, until `out` has `need` numbers.
fn take_free(
    allocator: &Allocator,
    first: u32,
    need: usize,
    out: &mut Vec<BlockNo>,
) -> Result<(), AllocError>
    requires { length out.old.items ≤ need }
    ensures { OnOk result (numbers out.new.items ≡ numbers out.old.items ++ take (need - length out.old.items) (frees_from first allocator.now)) }
{
    let mut from = first;
    for _count in out.len()..need {
        let Some(b) = allocator.find(from) else {
            return Ok(());
        };
        out.push(b)?;
        from = b.0 + 1;
    }
    Ok(())
}

/// `need` numbers for new blocks: those of released blocks that are young, and then Free ones. NoSpace where there are too few.
pub fn choose(
    alloc: Global,
    allocator: &Allocator,
    released: &[Dead],
    young: Group,
    need: usize,
) -> Result<Vec<BlockNo>, Refusal>
    requires allocated { (d : Dead) → IsIn released.now d → slice_get allocator.now d.block.0 ≡ Some Allocated }
    requires once { AreDifferent (map (λ d. d.block.0) released.now) }
    ensures len { IfOk result (λ v. length v.items ≡ need) }
    ensures at_hand { IfOk result (λ v. (n : ℕ) → IsIn (numbers v.items) n → IsAtHand allocator.now young.0 released.now n) }
    ensures once { IfOk result (λ v. AreDifferent (numbers v.items)) }
    ensures room { OnOk result (need ≤ count_by is_free allocator.now + count_by (is_young young.0) released.now) }
    ensures no_space { result ≡ Err Refusal.NoSpace → count_by is_free allocator.now + count_by (is_young young.0) released.now < need }
    ensures only { IfErr result IsNoSpaceOrNoMemory }
{
    let mut out = Vec::with_capacity(alloc, need)?;
    reuse(released, young, need, &mut out)?;
    if need - out.len() > allocator.counts().free as usize {
        return Err(Refusal::NoSpace);
    }
    take_free(allocator, 0, need, &mut out)?;
    Ok(out)
}

/// The new blocks of these claims. A claim with a kept block has that block's number, and the others have the taken numbers in order.
pub fn fill(alloc: Global, claims: &[Claim], taken: &[BlockNo]) -> Result<Vec<NewBlock>, AllocError>
    requires { length taken.now ≡ count_by is_fresh claims.now }
    ensures { IfOk result (λ v. v.items ≡ filled claims.now taken.now) }
{
    let mut out = Vec::with_capacity(alloc, claims.len())?;
    let mut next = 0;
    for claim in claims {
        let block = match claim.kept {
            Some(dead) => dead.block,
            None => {
                let block = taken[next];
                next += 1;
                block
            }
        };
        out.push(NewBlock {
            key: claim.key,
            block,
        })?;
    }
    Ok(out)
}

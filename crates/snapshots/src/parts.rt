//! Splitting and joining of snapshot lists, for a promote.
ghost use Rattle.std.specs.Prelude.{◌≡◌, ◌≤◌, ◌++◌, length, take, drop, IfOk, IfErr};
ghost use Rattle.base.specs.declared.refusal.Refusal.{Refusal};
ghost use Rattle.snapshots.specs.Index.{IsIndex, AreNamesOnce};

use crate::by_name::ByName;
use crate::kept::Kept;
use crate::snapshot_list::{SnapshotList, copy_of_index, forget, index};
use base::refusal::Refusal;
use shared_list::SharedList;
use std::alloc::Global;

impl SnapshotList {
    /// A list of the first `count` snapshots, and a list of the others. Names must be unique. It costs the number of chunks, which is at most a
    /// 32nd of the number of snapshots, and for each snapshot of the smaller part the logarithm of their number and at most three chunks of an
    /// index. NoMemory where there is none for it.
    pub fn split_at(
        &self,
        alloc: Global,
        count: usize,
    ) -> Result<(SnapshotList, SnapshotList), Refusal>
        requires there { count ≤ length self.now }
        requires once { AreNamesOnce self.now }
        ensures first { IfOk result (λ parts. parts.0 ≡ take count self.now) }
        ensures rest { IfOk result (λ parts. parts.1 ≡ drop count self.now) }
        ensures err { IfErr result (λ e. e ≡ Refusal.NoMemory) }
    {
        let mut first = self.kept.copy()?;
        let rest = first.split_off(count)?;
        let index = copy_of_index(&self.by_name)?;
        let (of_first, of_rest) = parted(alloc, index, &first, &rest)?;
        let first = SnapshotList {
            kept: first,
            by_name: of_first,
        };
        let rest = SnapshotList {
            kept: rest,
            by_name: of_rest,
        };
        Ok((first, rest))
    }

    /// A list of these snapshots followed by the others. Names must be unique among all of them. It costs the number of chunks, which is at most
    /// a 32nd of the number of snapshots, and for each snapshot of the smaller part the logarithm of the number of all and at most a chunk of an
    /// index. NoMemory where there is none for it.
    pub fn joined(&self, others: &SnapshotList) -> Result<SnapshotList, Refusal>
        requires once { AreNamesOnce (self.now ++ others.now) }
        ensures ok { IfOk result (λ all. all ≡ self.now ++ others.now) }
        ensures err { IfErr result (λ e. e ≡ Refusal.NoMemory) }
    {
        let by_name = index_of_both(self, others)?;
        let mut kept = self.kept.copy()?;
        let mut others = others.kept.copy()?;
        kept.append(&mut others)?;
        Ok(SnapshotList { kept, by_name })
    }
}

// The name indexes of two parts of a list, from the index of the whole list. The longer part gets that index without the snapshots of the
// shorter part; the shorter part gets a new index. Where memory for an index is refused, that part has no index (None). NoMemory where there is
// none to copy the shorter part and take its snapshots one after another.
fn parted(
    alloc: Global,
    by_name: Option<ByName>,
    first: &SharedList<Kept>,
    rest: &SharedList<Kept>,
) -> Result<(Option<ByName>, Option<ByName>), Refusal>
    requires once { AreNamesOnce (first.now ++ rest.now) }
    requires index { IsIndex by_name (first.now ++ rest.now) }
    ensures first { IfOk result (λ parts. IsIndex parts.0 first.now) }
    ensures rest { IfOk result (λ parts. IsIndex parts.1 rest.now) }
    ensures err { IfErr result (λ e. e ≡ Refusal.NoMemory) }
{
    if first.len() <= rest.len() {
        let of_first = alone(alloc, first)?;
        return Ok((of_first, without(by_name, first, rest)));
    }
    let of_rest = alone(alloc, rest)?;
    Ok((without(by_name, rest, first), of_rest))
}

// A new index of these snapshots, made by `with`, with its errors.
fn alone(alloc: Global, kept: &SharedList<Kept>) -> Result<Option<ByName>, Refusal>
    requires { AreNamesOnce kept.now }
    ensures ok { IfOk result (λ b. IsIndex b kept.now) }
    ensures err { IfErr result (λ e. e ≡ Refusal.NoMemory) }
{
    let none = SharedList::new(alloc);
    with(Some(ByName::new(alloc)), kept, &none)
}

// The index of both lists, made from the index of the longer list by adding the snapshots of the shorter one.
fn index_of_both(line: &SnapshotList, others: &SnapshotList) -> Result<Option<ByName>, Refusal>
    requires { AreNamesOnce (line.now ++ others.now) }
    ensures ok { IfOk result (λ b. IsIndex b (line.now ++ others.now)) }
    ensures err { IfErr result (λ e. e ≡ Refusal.NoMemory) }
{
    if line.kept.len() <= others.kept.len() {
        return with(copy_of_index(&others.by_name)?, &line.kept, &others.kept);
    }
    with(copy_of_index(&line.by_name)?, &others.kept, &line.kept)
}

// Adds the snapshots of `kept` to an index of `others`. Names must be unique among all of them. Where memory for the index is refused, the
// answer is no index (None). NoMemory where there is none to copy `kept` and take its snapshots one after another.
fn with(
    mut by_name: Option<ByName>,
    kept: &SharedList<Kept>,
    others: &SharedList<Kept>,
) -> Result<Option<ByName>, Refusal>
    requires once { AreNamesOnce (kept.now ++ others.now) }
    requires index { IsIndex by_name others.now }
    ensures ok { IfOk result (λ b. IsIndex b (kept.now ++ others.now)) }
    ensures err { IfErr result (λ e. e ≡ Refusal.NoMemory) }
{
    let mut left = kept.copy()?;
    'kept: while let Some(kept) = left.pop_shared()? {
        index(&mut by_name, kept);
    }
    Ok(by_name)
}

// Removes the snapshots of `kept` from an index of `kept` and `others`, so that it is one of `others`. Where memory is refused, the answer is no
// index (None).
fn without(
    mut by_name: Option<ByName>,
    kept: &SharedList<Kept>,
    others: &SharedList<Kept>,
) -> Option<ByName>
    requires once { AreNamesOnce (kept.now ++ others.now) }
    requires index { IsIndex by_name (kept.now ++ others.now) }
    ensures { IsIndex result others.now }
{
    'kept: for kept in kept.iter() {
        forget(&mut by_name, kept.snapshot.name().as_bytes());
    }
    by_name
}

//! The blocks of two pools, compared by their numbers and bytes.
use base::refusal::Refusal;
use pool::{DatasetRoot, Pool};
use std::alloc::Global;

fn is_same_root(one: &DatasetRoot, other: &DatasetRoot) -> bool {
    let are_same_snapshots = match (&one.snapshot, &other.snapshot) {
        (Some(one), Some(other)) => one.same(other),
        (None, None) => true,
        _ => false,
    };
    are_same_snapshots && one.file_system.same(&other.file_system) && one.root == other.root
}

fn are_same_roots(ones: &[DatasetRoot], others: &[DatasetRoot]) -> bool {
    ones.len() == others.len()
        && ones
            .iter()
            .zip(others)
            .all(|(one, other)| is_same_root(one, other))
}

/// Whether two pools have the same roots in a world.
fn have_same_roots(alloc: Global, one: &Pool, other: &Pool, last: bool) -> Result<bool, Refusal> {
    let ones = one.roots(alloc, last)?;
    let others = other.roots(alloc, last)?;
    Ok(are_same_roots(&ones, &others))
}

/// Whether two pools have the same blocks at the same numbers, in both worlds.
pub fn are_alike(alloc: Global, one: &Pool, other: &Pool) -> Result<bool, Refusal> {
    let present = have_same_roots(alloc, one, other, false)?;
    let last = have_same_roots(alloc, one, other, true)?;
    Ok(present && last && one.image().bytes() == other.image().bytes())
}

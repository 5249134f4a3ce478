//! Walks of a pool's image from the roots of its datasets.
use base::refusal::Refusal;
use image::Image;
use pool::{DatasetRoot, Pool};
use std::alloc::{AllocError, Global};
use telling::told::{mixed, mixed_bytes, tell, tell_number};

/// What the walks of a world find: how many datasets and leaves, and a sum in which the order of the datasets doesn't count.
#[derive(Clone, Copy)]
pub struct WorldWalk {
    datasets: u64,
    leaves: u64,
    sum: u64,
}

/// A number for a dataset's name.
fn named(root: &DatasetRoot) -> u64 {
    let sum = mixed_bytes(0, root.file_system.as_bytes());
    match &root.snapshot {
        Some(snapshot) => mixed_bytes(mixed(sum, 64), snapshot.as_bytes()),
        None => sum,
    }
}

/// A number for the leaves of a dataset, which goes on one for its name.
fn summed(name: u64, leaves: &[(u32, [u8; 512])]) -> u64 {
    let mut sum = name;
    for leaf in leaves {
        sum = mixed(mixed(sum, u64::from(leaf.0)), mixed_bytes(0, &leaf.1));
    }
    sum
}

/// What is found with one dataset more.
fn with(found: WorldWalk, image: &Image, root: &DatasetRoot) -> Result<WorldWalk, Refusal> {
    let leaves = image.read_tree(root.root)?;
    Ok(WorldWalk {
        datasets: found.datasets.saturating_add(1),
        leaves: found.leaves.saturating_add(leaves.len() as u64),
        sum: found.sum.wrapping_add(summed(named(root), &leaves)),
    })
}

/// What these roots walk to in an image.
pub fn walk_of(roots: &[DatasetRoot], image: &Image) -> Result<WorldWalk, Refusal> {
    let mut found = WorldWalk {
        datasets: 0,
        leaves: 0,
        sum: 0,
    };
    for root in roots {
        found = with(found, image, root)?;
    }
    Ok(found)
}

impl WorldWalk {
    pub fn is(self, other: WorldWalk) -> bool {
        self.datasets == other.datasets && self.leaves == other.leaves && self.sum == other.sum
    }

    /// Tells the numbers.
    pub fn tell(self, alloc: Global, told: &mut Vec<u8>) -> Result<(), AllocError> {
        tell_number(alloc, told, self.datasets)?;
        tell(told, " ")?;
        tell_number(alloc, told, self.leaves)?;
        tell(told, " ")?;
        tell_number(alloc, told, self.sum)
    }
}

/// What the walks of the present or of the last synced world find.
pub fn walked(alloc: Global, pool: &Pool, last: bool) -> Result<WorldWalk, Refusal> {
    let roots = pool.roots(alloc, last)?;
    walk_of(&roots, pool.image())
}

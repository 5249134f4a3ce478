//! Hints where the parents of file systems stand in a table.
ghost use Rattle.std.specs.Prelude.{◌≡◌, IfErr};
ghost use Rattle.base.specs.declared.refusal.Refusal.{Refusal};

use base::refusal::Refusal;
use datasets::{FILE_SYSTEM_LIMIT, FileSystem, parent_of};
use std::alloc::Global;
use std::sync::Arc;

/// For each place of a table, where the parent of the file system there may stand, which saves searches: a hint, which callers check (profile).
#[derive(Drop)]
pub struct Near {
    parents: Vec<usize>,
}

impl Near {
    /// Room for as many file systems as a table can have. NoMemory where memory is refused.
    pub fn new(alloc: Global) -> Result<Near, Refusal>
        ensures err { IfErr result (λ e. e ≡ Refusal.NoMemory) }
    {
        let parents = vec![in alloc; 0; FILE_SYSTEM_LIMIT]?;
        Ok(Near { parents })
    }

    /// A copy, with room for as many file systems. NoMemory where memory is refused. It costs that room.
    pub fn copy(&self) -> Result<Near, Refusal>
        ensures err { IfErr result (λ e. e ≡ Refusal.NoMemory) }
    {
        let parents = self.parents.clone()?;
        Ok(Near { parents })
    }

    /// Where the parent of the file system at that place may stand. Constant time.
    pub fn parent(&self, place: usize) -> usize {
        match self.parents.get(place) {
            Some(near) => *near,
            None => 0,
        }
    }

    /// Sets the hints for these file systems, which stand in byte order. A parent is the file system before its child, or an ancestor of that one; a
    /// hint may be wrong only where a name with a byte below `/` comes between. It costs the length of the names.
    pub fn fill(&mut self, file_systems: &[Arc<FileSystem>]) {
        for (place, file_system) in file_systems.iter().enumerate() {
            let parent = match parent_of(file_system.name().as_bytes()) {
                Some(parent) => self.up_to(file_systems, parent, place),
                None => 0,
            };
            if let Some(near) = self.parents.get_mut(place) {
                *near = parent;
            }
        }
    }

    /// Updates the hints after a file system was inserted at `place`, whose parent may stand at `parent`: those that stood there or behind stand one
    /// place further. It costs the number of places.
    pub fn open(&mut self, place: usize, parent: usize) {
        for near in self.parents.iter_mut() {
            if *near >= place {
                *near = near.saturating_add(1);
            }
        }
        if place < self.parents.len() {
            self.parents[place..].rotate_right(1);
            self.parents[place] = parent;
        }
    }

    /// Updates the hints after the file system at this place was removed: those that stood behind it stand one place earlier. It costs the number of
    /// places.
    pub fn close(&mut self, place: usize) {
        for near in self.parents.iter_mut() {
            if *near > place {
                *near -= 1;
            }
        }
        if place < self.parents.len() {
            self.parents[place..].rotate_left(1);
        }
    }

    // The place of this name among the file system before `place` and that one's ancestors by the hints; any place where it isn't among them. It
    // costs the levels between.
    fn up_to(&self, file_systems: &[Arc<FileSystem>], name: &[u8], place: usize) -> usize {
        let mut at = place.saturating_sub(1);
        while at > 0 && !is_named(file_systems, at, name) {
            at = self.parent(at).min(at - 1);
        }
        at
    }
}

// Whether the file system at that place has this name.
fn is_named(file_systems: &[Arc<FileSystem>], place: usize, name: &[u8]) -> bool {
    match file_systems.get(place) {
        Some(file_system) => file_system.is_named(name),
        None => false,
    }
}

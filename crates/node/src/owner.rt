//! Owners of shared nodes.
ghost use Rattle.std.specs.Prelude.{◌≡◌, ◌<◌, IfOk, None, slice_index_or, length};
ghost use Rattle.node.specs.Kid.{places_of};
ghost use Rattle.node.specs.Node.{inner_part, part_of_owner, part_of_slot};

use crate::node::{Inner, Level};
use std::alloc::AllocError;
use std::sync::Arc;

/// The owner in a place, borrowed.
pub fn owner_in<C: Level>(slot: &Option<Arc<C>>) -> Option<&Arc<C>>
    ensures { part_of_owner C.part result ≡ part_of_slot C.part slot.now }
{
    match slot {
        Some(node) => Some(node),
        None => None,
    }
}

/// One more owner of the same node, or None where there is none.
pub fn keep<C: Level>(old: Option<&Arc<C>>) -> Result<Option<Arc<C>>, AllocError>
    ensures { IfOk result (λ r. part_of_slot C.part r ≡ part_of_owner C.part old.entry) }
{
    match old {
        Some(a) => Ok(Some(Arc::try_clone(a)?)),
        None => Ok(None),
    }
}

/// The owner of the node at a place of `old`, or None where `old` is None.
pub fn owner_at<C: Level>(old: Option<&Arc<Inner<C>>>, place: usize) -> Option<&Arc<C>>
    requires { place < 16 }
    ensures { part_of_owner C.part result ≡ slice_index_or (places_of (part_of_owner (inner_part C.part) old.entry)) place None }
{
    match old {
        Some(node) => node.owner(place),
        None => None,
    }
}

/// How many places `old` has: 16, also where it is None.
pub fn owner_count<C: Level>(old: Option<&Arc<Inner<C>>>) -> u32
    ensures sixteen { result ≡ 16 }
    ensures all { length (places_of (part_of_owner (inner_part C.part) old.entry)) ≡ 16 }
{
    match old {
        Some(node) => node.place_count(),
        None => 16,
    }
}

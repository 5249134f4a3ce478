//! Copies of nodes.
ghost use Rattle.std.specs.Prelude.{◌≡◌, None, OnOk, replicate};
ghost use Rattle.node.specs.Node.{inner_part, part_of_slot, shared_part};
ghost use Rattle.node.specs.Pairs.{left_of, right_of, places_in};
ghost use Rattle.node.specs.Shape.{forest_of};

use node::{Inner, Level, Pair, no_kids, read_counts};
use std::alloc::{AllocError, Global};
use std::sync::Arc;

/// Makes an empty pair share the nodes of another, by one more owner of each.
fn keep_pair<C: Level + Drop>(from: &Pair<C>, pair: &mut Pair<C>) -> Result<(), AllocError>
    requires left { left_of pair.old ≡ None }
    requires right { right_of pair.old ≡ None }
    ensures left { OnOk result (part_of_slot C.part (left_of pair.new) ≡ part_of_slot C.part (left_of from.now)) }
    ensures right { OnOk result (part_of_slot C.part (right_of pair.new) ≡ part_of_slot C.part (right_of from.now)) }
{
    match from {
        Pair::Neither => {}
        kept => *pair = kept.copy()?,
    }
    Ok(())
}

/// Makes eight empty pairs share the nodes of others, by one more owner of each.
fn keep_below<C: Level + Drop>(
    from: &[Pair<C>; 8],
    kids: &mut [Pair<C>; 8],
) -> Result<(), AllocError>
    requires empty { places_in kids.old ≡ replicate 16 None }
    ensures { OnOk result (forest_of (shared_part C.part) (places_in kids.new) ≡ forest_of (shared_part C.part) (places_in from.now)) }
{
    read_counts(from);
    for at in 0..8 {
        keep_pair(&from[at], &mut kids[at])?;
    }
    Ok(())
}

/// Makes `owner` the only owner of its node, where it can: if the node has other owners, `owner` gets a copy of it (copy on write). At `Err` it
/// is unchanged.
pub fn own<C: Level + Drop>(owner: &mut Arc<Inner<C>>, alloc: Global) -> Result<(), AllocError>
    ensures { inner_part C.part owner.new.value ≡ inner_part C.part owner.old.value }
{
    if let Some(_node) = Arc::get_mut(owner) {
        return Ok(());
    }
    let mut copy = Arc::new(alloc, Inner::new(owner.block, owner.birth, no_kids()))?;
    if let Some(new) = Arc::get_mut(&mut copy) {
        keep_below(&owner.kids, &mut new.kids)?;
        *owner = copy;
    }
    Ok(())
}

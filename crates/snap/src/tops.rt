//! Subtrees whose tops are taken off one after another.
ghost use Rattle.std.specs.Prelude.{◌≡◌, ◌+◌, ◌≤◌, ◌++◌, ◌⊎◌, [], length, OnOk, OnErr};
ghost use Rattle.base.specs.Counting.{counted};
ghost use Rattle.base.specs.declared.refusal.Refusal.{Refusal};
ghost use Rattle.snap.specs.Members.{dead_blocks, born_after, tops_after};

use base::meter::Meter;
use base::number::{Dead, Group};
use base::refusal::Refusal;
use tree::Subtree;

/// Takes the top of a subtree, if it was born after the cut, and adds the subtrees directly below it to the others.
fn peel_top(
    top: Subtree,
    cut: Group,
    tops: &mut Vec<Subtree>,
    taken: &mut Vec<Dead>,
    meter: &mut Meter,
) -> Result<(), Refusal>
    ensures blocks { OnOk result
        (dead_blocks taken.new.items ++ tops_after cut.0 tops.new.items
        ≡ dead_blocks taken.old.items ++ (born_after cut.0 top ++ tops_after cut.0 tops.old.items)) }
    ensures steps { OnOk result
        (((length taken.new.items ≡ length taken.old.items + 1) × (length tops.new.items ≤ length tops.old.items + 16))
        ⊎ ((length taken.new.items ≡ length taken.old.items) × (length tops.new.items ≡ length tops.old.items))) }
    ensures err { OnErr result (result ≡ Err Refusal.NoMemory) }
    ensures metered { meter.new ≡ counted meter.old 1 }
    ensures never_lower { meter.old ≤ meter.new }
{
    if let Some(block) = top.peel(cut, tops, meter)? {
        taken.push(block)?;
    }
    Ok(())
}

/// Takes tops of subtrees until `wanted` blocks are taken or no subtree is left.
pub(crate) fn take_tops(
    tops: &mut Vec<Subtree>,
    cut: Group,
    wanted: u64,
    taken: &mut Vec<Dead>,
    meter: &mut Meter,
) -> Result<(), Refusal>
    requires { length taken.old.items ≤ wanted }
    ensures blocks { OnOk result
        (dead_blocks taken.new.items ++ tops_after cut.0 tops.new.items
        ≡ dead_blocks taken.old.items ++ tops_after cut.0 tops.old.items) }
    ensures few { OnOk result (length taken.new.items ≤ wanted) }
    ensures done { OnOk result ((length taken.new.items ≡ wanted) ⊎ (tops.new.items ≡ [])) }
    ensures err { OnErr result (result ≡ Err Refusal.NoMemory) }
    ensures never_lower { meter.old ≤ meter.new }
{
    while (taken.len() as u64) < wanted {
        let Some(top) = tops.pop() else {
            return Ok(());
        };
        peel_top(top, cut, tops, taken, meter)?;
    }
    Ok(())
}

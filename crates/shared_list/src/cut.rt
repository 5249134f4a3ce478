//! Search by bisection.
ghost use Rattle.std.specs.Prelude.{◌≡◌, ◌<◌, ◌≤◌, Bool, length, slice_index_or};
ghost use Rattle.std.specs.declared.sync.Arc.{Arc};
ghost use Rattle.std.specs.Global.{Global};
ghost use Rattle.std.specs.Arc.{arc_value};
ghost use Rattle.std.specs.Fn.{ComputesKey};
ghost use Rattle.shared_list.specs.Cuts.{IsCut};

use std::sync::Arc;

// Whether the item with that index passes a test.
fn passes<A: Drop, P: Fn(&A) -> bool>(items: &[Arc<A>], at: usize, test: &P) -> bool
    requires callable { P.IsAlwaysCallable test.now }
    requires at { at < length items.now }
    ensures { (p : A → Bool) (d : Arc A Global) → ComputesKey P.FnMut p test.now → result ≡ p (arc_value (slice_index_or items.now at d)) }
{
    test(&items[at])
}

/// An index at which the items that pass a test end: the item before it passes, and the item at it doesn't. If the items that pass come first,
/// it is the index of the first item that doesn't pass. It costs the logarithm of their number. Each turn tests the item in the middle and those
/// in the middle of both halves in parallel, before it is known which half is needed. So two bisections wait for memory only once.
pub(crate) fn cut_of<A: Drop, P: Fn(&A) -> bool>(items: &[Arc<A>], test: &P) -> usize
    requires { P.IsAlwaysCallable test.now }
    ensures within { result ≤ length items.now }
    ensures cut { (p : A → Bool) → ComputesKey P.FnMut p test.now → IsCut (λ a. p (arc_value a)) items.now result }
{
    let mut low = 0;
    let mut high = items.len();
    while low < high {
        let mid = low + (high - low) / 2;
        let quarter = (high - low + 1) / 4;
        let first = passes(items, mid - quarter, test);
        let last = passes(items, mid + quarter, test);
        let next;
        let next_passes;
        if passes(items, mid, test) {
            low = mid + 1;
            next = mid + quarter;
            next_passes = last;
        } else {
            high = mid;
            next = mid - quarter;
            next_passes = first;
        }
        if quarter > 0 && next_passes {
            low = next + 1;
        } else if quarter > 0 {
            high = next;
        }
    }
    low
}

//! Bookmarks in order of their groups, and then of their names.
ghost use Rattle.std.specs.Prelude.{◌≡◌, None, IsTrue, IfOk, IfErr, map};
ghost use Rattle.std.specs.Arc.{arc_value};
ghost use Rattle.std.specs.FinMap.{find, is_sorted, entries, from_entries};
ghost use Rattle.base.specs.Names.{name_cmp};
ghost use Rattle.base.specs.declared.refusal.Refusal.{Refusal};
ghost use Rattle.model.specs.Properties.{bookmark_cmp};
ghost use Rattle.snapshots.specs.Marks.{entry_of, entry_in, keyed_in, order_key};
ghost use Rattle.snapshots.specs.Places.{IsAt, IsGapFor};

use crate::bookmarks::mark::Mark;
use base::refusal::Refusal;
use std::alloc::Global;
use std::sync::Arc;

// The place of the bookmark of this group and name among bookmarks sorted by group and then by name; or, as Err, the place where it would be
// inserted.
fn place_in_order(marks: &[Arc<Mark>], mark: &Mark) -> Result<usize, usize>
    requires { IsTrue (is_sorted bookmark_cmp (map keyed_in marks.now)) }
    ensures found { IfOk result (IsAt (map keyed_in marks.now) (order_key (entry_of mark.now))) }
    ensures absent { IfErr result (IsGapFor bookmark_cmp (map keyed_in marks.now) (order_key (entry_of mark.now))) }
{
    marks.binary_search_by(|other| other.compare_in_order(mark))
}

// The place where a bookmark would be inserted among bookmarks sorted by group and then by name. None of them has its group and its name.
fn gap_in_order(marks: &[Arc<Mark>], mark: &Mark) -> usize
    requires sorted { IsTrue (is_sorted bookmark_cmp (map keyed_in marks.now)) }
    requires absent { find bookmark_cmp (order_key (entry_of mark.now)) (map keyed_in marks.now) ≡ None }
    ensures { IsGapFor bookmark_cmp (map keyed_in marks.now) (order_key (entry_of mark.now)) result }
{
    match place_in_order(marks, mark) {
        Ok(_) => unreachable!(),
        Err(place) => place,
    }
}

/// Another `Arc` of each of these bookmarks, sorted by group and then by name. NoMemory where there is none for that. It costs for each bookmark
/// the logarithm of their number in comparisons, and at most a move of the pointers after it.
pub fn ordered(alloc: Global, marks: &[Arc<Mark>]) -> Result<Vec<Arc<Mark>>, Refusal>
    requires { IsTrue (is_sorted name_cmp (map entry_in marks.now)) }
    ensures ok { IfOk result (λ v. map keyed_in v.items ≡ entries (from_entries {R = bookmark_cmp} (map keyed_in marks.now))) }
    ensures err { IfErr result (λ e. e ≡ Refusal.NoMemory) }
{
    let mut sorted: Vec<Arc<Mark>> = Vec::with_capacity(alloc, marks.len())?;
    for mark in marks {
        let place = gap_in_order(&sorted, mark);
        sorted.insert(place, Arc::try_clone(mark)?)?;
    }
    Ok(sorted)
}

/// Another `Arc` of each of these bookmarks, in the same order. NoMemory where there is none for that. It costs their number.
pub fn shared(alloc: Global, marks: &[Arc<Mark>]) -> Result<Vec<Arc<Mark>>, Refusal>
    ensures ok { IfOk result (λ v. map arc_value v.items ≡ map arc_value marks.now) }
    ensures err { IfErr result (λ e. e ≡ Refusal.NoMemory) }
{
    let mut owners = Vec::with_capacity(alloc, marks.len())?;
    for mark in marks {
        owners.push_reserved(Arc::try_clone(mark)?);
    }
    Ok(owners)
}

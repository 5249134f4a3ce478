//! The search for a name among bookmarks in byte order.
ghost use Rattle.std.specs.Prelude.{◌≡◌, ◌<◌, None, IsTrue, IfOk, IfErr, OnOk, OnErr, map, length, nat_lt};
ghost use Rattle.std.specs.FinMap as finmap;
ghost use Rattle.std.specs.FinMap.{get, is_sorted, from_sorted};
ghost use Rattle.std.specs.List.{list_any};
ghost use Rattle.base.specs.Names.{name_cmp};
ghost use Rattle.base.specs.declared.refusal.Refusal.{Refusal};
ghost use Rattle.snapshots.specs.Marks.{bookmark_of, entry_in, mark_limit};
ghost use Rattle.snapshots.specs.Places.{IsAt, IsGapFor};
ghost use Rattle.snapshots.specs.SoundMarks.{AreSound};

use crate::bookmarks::mark::Mark;
use base::name::Component;
use base::number::Group;
use base::refusal::Refusal;
use model::snapshot_id::SnapshotId;
use std::alloc::Global;
use std::sync::Arc;

/// The place of the bookmark of this name, or, as Err, the place where it would be inserted. It costs the logarithm of their number.
pub fn place(marks: &[Arc<Mark>], name: &[u8]) -> Result<usize, usize>
    requires { IsTrue (is_sorted name_cmp (map entry_in marks.now)) }
    ensures found { IfOk result (IsAt (map entry_in marks.now) name.now) }
    ensures absent { IfErr result (IsGapFor name_cmp (map entry_in marks.now) name.now) }
{
    marks.binary_search_by(|mark| mark.compare(name))
}

// The place where a bookmark of this name would be inserted. No bookmark has this name. It costs the logarithm of their number.
fn gap(marks: &[Arc<Mark>], name: &[u8]) -> usize
    requires sorted { IsTrue (is_sorted name_cmp (map entry_in marks.now)) }
    requires absent { get (from_sorted {R = name_cmp} (map entry_in marks.now)) name.now ≡ None }
    ensures { IsGapFor name_cmp (map entry_in marks.now) name.now result }
{
    match place(marks, name) {
        Ok(_) => unreachable!(),
        Err(place) => place,
    }
}

/// Inserts a bookmark at its place. No bookmark has this name, and there are fewer than the limit. NoMemory where there is none for it; then
/// they are as they were. It costs the length of the name and the number of bookmarks.
pub fn put(
    alloc: Global,
    marks: &mut Vec<Arc<Mark>>,
    name: &Component,
    snapshot: SnapshotId,
) -> Result<(), Refusal>
    requires sound { AreSound (map entry_in marks.old.items) }
    requires absent { get (from_sorted {R = name_cmp} (map entry_in marks.old.items)) name.now ≡ None }
    requires room { length marks.old.items < mark_limit }
    ensures sound { AreSound (map entry_in marks.new.items) }
    ensures ok { OnOk result (from_sorted {R = name_cmp} (map entry_in marks.new.items) ≡ finmap.insert (from_sorted {R = name_cmp} (map entry_in marks.old.items)) name.now (bookmark_of snapshot)) }
    ensures err { OnErr result (marks.new.items ≡ marks.old.items) }
    ensures only { IfErr result (λ e. e ≡ Refusal.NoMemory) }
{
    let place = gap(marks, name.as_bytes());
    let mark = Arc::new(alloc, Mark::new(name, snapshot)?)?;
    marks.insert(place, mark)?;
    Ok(())
}

/// Whether one of the bookmarks has a later group than this one. It costs their number.
pub fn any_newer(marks: &[Arc<Mark>], group: Group) -> bool
    ensures { result ≡ list_any (λ a. nat_lt group.0 a.value.snapshot.group.0) marks.now }
{
    marks.iter().any(|mark| mark.snapshot.group.0 > group.0)
}

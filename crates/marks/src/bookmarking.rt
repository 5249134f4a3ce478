//! Makes bookmarks of snapshots.
ghost use Rattle.std.specs.Prelude.{◌≡◌, ◌⊎◌, Some, None, IfSome, IfOk, IfErr, OnOk, OnErr};
ghost use Rattle.std.specs.Arc.{arc_value};
ghost use Rattle.std.specs.Option.{option_map};
ghost use Rattle.std.specs.FinMap.{insert};
ghost use Rattle.base.specs.declared.refusal.Refusal.{Refusal};
ghost use Rattle.snapshots.specs.Marks.{bookmark_of};
ghost use Rattle.model.specs.requests.Bookmark.{bookmark_of_snap, is_beside};
ghost use Rattle.model.specs.requests.Rollback.{placed};
ghost use Rattle.world.specs.Tables.{world_of};
ghost use Rattle.marks.specs.Requests.{bookmarked_in, bookmark_refusal, mark_refusal};

use crate::place::placed;
use base::name::{Component, MarkName, Target};
use base::refusal::Refusal;
use datasets::Table;
use model::snapshot_id::SnapshotId;
use snapshots::bookmarks::Bookmarks;
use std::alloc::Global;
use std::sync::Arc;

/// Makes a bookmark of this name, with the guid and the creation group of the snapshot that the target names (zfs-bookmark(8)). The snapshot is
/// of the bookmark's file system. Refused are NotSnapshot where the target isn't the name of a snapshot, else NoDataset where there is no such
/// snapshot, else NotAncestor where it is of another file system, else Exists where there is a bookmark of this name, else TooMany where the
/// file system has 1,024 bookmarks; else NoMemory where memory is refused (the file system, the order and the limit are profile). At `Err` the
/// table is as it was. It costs the logarithms of the numbers of file systems and of the snapshots of one, and the number of the file system's
/// bookmarks, which are at most 1,024.
pub fn bookmark(
    alloc: Global,
    table: &mut Table,
    target: &Target,
    mark: &MarkName,
) -> Result<(), Refusal>
    ensures ok { OnOk result (table.new ≡ bookmarked_in table.old target.now mark.now) }
    ensures can { OnOk result (bookmark_refusal table.old target.now mark.now ≡ None) }
    ensures refused { IfSome (bookmark_refusal table.old target.now mark.now) (λ e. result ≡ Err e) }
    ensures unchanged { OnErr result (table.new ≡ table.old) }
    ensures only { IfErr result (λ e. (bookmark_refusal table.old target.now mark.now ≡ Some e) ⊎ (e ≡ Refusal.NoMemory)) }
{
    table.facts();
    let bookmarks = bookmarks_with(alloc, table, target, mark)?;
    table.set_bookmarks(alloc, &mark.member().file_system, bookmarks)
}

// The bookmarks of the file system, and a new one of the snapshot that the target names. The refusals and the cost are those of `bookmark`.
fn bookmarks_with(
    alloc: Global,
    table: &Table,
    target: &Target,
    mark: &MarkName,
) -> Result<Arc<Bookmarks>, Refusal>
    ensures ok { IfOk result (λ b. option_map (λ p. insert p.0.bookmarks mark.now.component (bookmark_of_snap p.1)) (placed (world_of table.now) target.now) ≡ Some (arc_value b)) }
    ensures can { OnOk result (bookmark_refusal table.now target.now mark.now ≡ None) }
    ensures refused { IfSome (bookmark_refusal table.now target.now mark.now) (λ e. result ≡ Err e) }
    ensures only { IfErr result (λ e. (bookmark_refusal table.now target.now mark.now ≡ Some e) ⊎ (e ≡ Refusal.NoMemory)) }
{
    let snapshot = placed(table, target)?;
    if !is_beside(target, mark) {
        return Err(Refusal::NotAncestor);
    }
    let mark = mark.member();
    let Some(file_system) = table.find(&mark.file_system) else {
        unreachable!()
    };
    one_more(
        alloc,
        file_system.bookmarks(),
        &mark.component,
        snapshot.id(),
    )
}

// Whether the target is the name of a snapshot of the bookmark's file system, whether or not there is such a snapshot. It costs the length of
// its name.
fn is_beside(target: &Target, mark: &MarkName) -> bool
    ensures { result ≡ is_beside target.now mark.now }
{
    match target {
        Target::Snapshot(name) => name.member().file_system.same(&mark.member().file_system),
        _ => false,
    }
}

// A copy of these bookmarks with a new one of this name. Refused are Exists where there is one of this name, else TooMany where there are 1,024;
// else NoMemory where memory is refused. It costs their number.
fn one_more(
    alloc: Global,
    bookmarks: &Bookmarks,
    name: &Component,
    snapshot: SnapshotId,
) -> Result<Arc<Bookmarks>, Refusal>
    ensures ok { IfOk result (λ b. arc_value b ≡ insert bookmarks.now name.now (bookmark_of snapshot)) }
    ensures can { OnOk result (mark_refusal bookmarks.now name.now ≡ None) }
    ensures refused { IfSome (mark_refusal bookmarks.now name.now) (λ e. result ≡ Err e) }
    ensures only { IfErr result (λ e. (mark_refusal bookmarks.now name.now ≡ Some e) ⊎ (e ≡ Refusal.NoMemory)) }
{
    if bookmarks.contains(name.as_bytes()) {
        return Err(Refusal::Exists);
    }
    if bookmarks.is_full() {
        return Err(Refusal::TooMany);
    }
    let mut more = bookmarks.copy()?;
    more.insert(name, snapshot)?;
    Ok(Arc::new(alloc, more)?)
}

//! The snapshots of one request, the open views of a pool, and the blocks that a destroy leaves to be freed.
//!
//! A request names snapshots. With -r each name stands for a snapshot of every descendant of its file system too. All are taken together in the
//! open group, which is then closed (zfs-snapshot(8)).
//!
//! A view shows a snapshot by a number for as long as it is open ([`Views`]).
//!
//! The blocks that a destroy releases are added to a list as whole pieces, trees and dead lists ([`Freeing`]). Later slices free them, a few
//! blocks at a time (zpool-features(7): async_destroy; zpoolprops(7): freeing).
#![tactic(auto)]

ghost use Rattle.std.specs.Prelude.{◌≡◌, ◌↔◌, ◌⊎◌, Some, None, IfSome, IfOk, IfErr, OnOk, OnErr, length};
ghost use Rattle.base.specs.declared.refusal.Refusal.{Refusal};
ghost use Rattle.model.specs.requests.Snapshot.{guid_by};
ghost use Rattle.snap.specs.Taking.{all_of, refusal_of, after_taking};

mod check;
pub mod clones;
mod freeing;
mod lengths;
mod list;
mod named;
mod piece;
mod row;
mod take;
mod tops;

use crate::check::{any_missing, check};
pub use crate::freeing::{Freeing, Slice};
pub use crate::list::{VIEW_LIMIT, Views};
pub use crate::named::{Named, expand};
use crate::take::{take_all, take_one};
use base::name::SnapName;
use base::refusal::Refusal;
use datasets::Table;
use std::alloc::Global;

/// What the guids of new snapshots are made of: the pool's id, and the counter's number for the next guid, 0 to 4294967295, or 4294967296 where
/// none is left (profile).
#[derive(Clone, Copy, PartialEq, Eq, Debug)]
pub struct Guids {
    pub pool: u32,
    pub next: u64,
}

/// Takes a snapshot of each of these names in this table, and with `recursive` one of each descendant of their file systems too. They are taken
/// in the open group, which is then closed. The answer is their number. Without a name nothing changes. After an error the table is as it was.
/// The errors are NoDataset where a file system isn't there, else BadName where a whole name is over 255 bytes, else Exists where there is a
/// snapshot of such a name or a file system occurs twice, else TooMany where the pool would have over 65,536 snapshots, the group is the last
/// one or the counter has no guids left. NoMemory, where there is none for the names or the snapshots, may come before all of these but
/// NoDataset (zfs-snapshot(8); numbers are profile). A single snapshot is taken in place. It costs the logarithm of the number of file systems
/// and that of the number of its file system's snapshots, with `recursive` the number of file systems; and where another table shares these
/// snapshots, a 1,024th of their number. Several snapshots are taken in a copy of the table. n of them cost the number of file systems, with
/// `recursive` once for each name; n times the logarithms of n, of the number of file systems and of the number of a file system's snapshots;
/// and for each a 1,024th of the number of its file system's snapshots.
pub fn snapshot(
    alloc: Global,
    table: &mut Table,
    names: &[SnapName],
    recursive: bool,
    guids: Guids,
) -> Result<usize, Refusal>
    ensures ok { OnOk result (table.new ≡ after_taking table.old (guid_by guids.pool guids.next) (all_of table.old names.now recursive)) }
    ensures count { IfOk result (λ n. n ≡ length (all_of table.old names.now recursive)) }
    ensures can { OnOk result (refusal_of table.old guids.next names.now recursive ≡ None) }
    ensures refused { IfSome (refusal_of table.old guids.next names.now recursive) (λ e. (result ≡ Err e) ⊎ (result ≡ Err Refusal.NoMemory)) }
    ensures no_dataset { (result ≡ Err Refusal.NoDataset) ↔ (refusal_of table.old guids.next names.now recursive ≡ Some Refusal.NoDataset) }
    ensures unchanged { OnErr result (table.new ≡ table.old) }
    ensures only { IfErr result (λ e. (refusal_of table.old guids.next names.now recursive ≡ Some e) ⊎ (e ≡ Refusal.NoMemory)) }
{
    if any_missing(table, names) {
        return Err(Refusal::NoDataset);
    }
    let all = expand(alloc, table, names, recursive)?;
    check(alloc, table, &all, guids.next)?;
    let count = all.len();
    if count == 0 {
        return Ok(0);
    }
    if count == 1
        && let [name] = names
    {
        drop(all);
        take_one(alloc, table, name.member(), guids)?;
        return Ok(1);
    }
    let to = take_all(alloc, table, &all, guids)?;
    drop(all);
    *table = to;
    Ok(count)
}

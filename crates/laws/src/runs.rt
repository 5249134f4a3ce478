//! Laws that hold of every run, as the contracts of functions without bodies.
ghost use Rattle.laws.specs.Bookmarks.{BookmarkMade, BookmarkStands, BookmarkLasts, RenamesCarry};
ghost use Rattle.laws.specs.Runs.{RunSplits, LineagesBegin, LineagesLast, BlocksGiveLineages, PoolsHaveLineages, SnapshotsKeep, BirthsBegin, BirthsLast, NumbersBegin, NumbersLast};
ghost use Rattle.laws.specs.Views.{PoolsAreViewing};
ghost use Rattle.world.specs.RunLaws.{RunGrows, ViewsBegin, ViewsLast, ViewsStand};

/// A run followed by one more step is a run, and a run through two lists of requests, one after the other, is two runs. While a view is open, no
/// step of a run removes the snapshot that it shows, or changes the map or the name of that snapshot.
///
/// In a run from a state with lineages (`lineage_laws`), a snapshot that is there before the run and at its end has the same map at both, and a
/// bookmark that is made of a snapshot has the snapshot's guid and group. As long as the bookmark is there, the map that the snapshot had then
/// is a source for the bookmark's file system, even where the snapshot was destroyed (zfs-send(8), -i). That is: each block that was born by the
/// snapshot's group, in the live map or in a dataset before it whose group isn't lower, is in that map at the same key and with the same bytes,
/// and so is all below it. For that it is enough that the bookmark is there at the run's end, where no rename of the run gives its file system's
/// name to another. A rename carries bookmarks, and what serves as a source, to the new names (zfs-rename(8)).
///
/// These laws on snapshots and bookmarks are of runs in which no Abandon goes back to before the run: each Abandon that is done comes after a
/// Sync that is done in the run. An Abandon that goes back further undoes the bookmark with all that was made since, and later changes use the
/// same groups again.
pub fn run_laws()
    ensures grows { RunGrows }
    ensures splits { RunSplits }
    ensures views_begin { ViewsBegin }
    ensures views_last { ViewsLast }
    ensures views_stand { ViewsStand }
    ensures pools_are_viewing { PoolsAreViewing }
    ensures snapshots_keep { SnapshotsKeep }
    ensures bookmark_made { BookmarkMade }
    ensures bookmark_stands { BookmarkStands }
    ensures bookmark_lasts { BookmarkLasts }
    ensures renames_carry { RenamesCarry }
{}

/// A new pool has lineages, and has them after every run, whatever numbers its steps choose. A world has lineages where each identity is of one
/// snapshot, the groups of snapshots and bookmarks are closed and fall along each lineage, origins are there, and each block of a dataset that
/// was born by the group of the dataset before it is also a block of that one, at the same key and with the same bytes, and so is all below it.
/// Each state of a pool has lineages. So has each world whose identities, groups and origins are so and whose numbers each name one block, if a
/// block of a dataset is in the dataset before it exactly when it was born by that one's group. A state has lineages where both its present
/// world and the last synced one, to which Abandon goes back, have them.
///
/// The same is true of births and of numbers, in a new pool and after every run: no birth is later than the open group or than the birth of the
/// block above, and each number names one block.
pub fn lineage_laws()
    ensures lineages_begin { LineagesBegin }
    ensures lineages_last { LineagesLast }
    ensures blocks_give_lineages { BlocksGiveLineages }
    ensures pools_have_lineages { PoolsHaveLineages }
    ensures births_begin { BirthsBegin }
    ensures births_last { BirthsLast }
    ensures numbers_begin { NumbersBegin }
    ensures numbers_last { NumbersLast }
{}

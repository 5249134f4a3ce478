//! The laws of the reply to a Send that isn't refused, as the contract of a function without a body.
ghost use Rattle.laws.specs.Answered.{SendsAreAnswered, BookmarkSendsAreAnswered};

/// A Send that isn't refused names a snapshot that is there, and its reply is the stream of that snapshot since the group of its source. The law
/// is of a state with lineages and births whose numbers each name one block (`lineage_laws` of `laws`: each state of a pool, and each that a run
/// leads to). A source is an older snapshot of the snapshot's lineage, or a bookmark of its file system with a lower group. The records, applied
/// to the contents of the older snapshot, or to nothing in a full send, give the contents of the snapshot (zfs-send(8), -i).
///
/// The records from a bookmark, applied to the contents of the snapshot that the bookmark was made of, give the contents of the sent snapshot,
/// whatever has become of the former. That is so after each run that ends with the bookmark there and in which no Abandon goes back to before it
/// (zfs-bookmark(8)).
pub fn answered_send_laws()
    ensures answered { SendsAreAnswered }
    ensures bookmarks { BookmarkSendsAreAnswered }
{}

//! The laws of sends and receives, as the contracts of functions without bodies.
ghost use Rattle.laws.specs.Laws.{SendsDifference, FullSends, BlocksAreEnough, OldBlocksAreEnough, SourcesBecomeSnapshots, SendsAreStreams, RewriteChangesContents, ReceivesDifference, FullReceives};
ghost use Rattle.laws.specs.Sends.{FullSendOf, FullSendAfter, SourceSends, SnapshotSends, BookmarkSends, HistorySends};

/// The records of an incremental send, applied to the contents of the source, give the contents of the sent map, where the source shares all
/// that the sent map has from the source's group or before (zfs-send(8), -i). It shares that where each block of the sent map born by then is a
/// block of the source at the same key, with the same bytes and the same blocks below, and either no block of the source was born later, or
/// births rise in the sent map. The records of a full send, applied to nothing, give the contents of the sent map. The bytes of a send are a
/// stream that has its records.
pub fn send_laws()
    ensures difference { SendsDifference }
    ensures full { FullSends }
    ensures blocks { BlocksAreEnough }
    ensures old_blocks { OldBlocksAreEnough }
    ensures sources { SourcesBecomeSnapshots }
    ensures streams { SendsAreStreams }
{}

/// After a change, the contents of a live map are the old contents with the change applied. A live map with the contents of the source of an
/// incremental send, changed by the records of the send, has the contents of the sent map. So does an empty live map changed by the records of a
/// full send (zfs-receive(8)).
pub fn receive_laws()
    ensures change { RewriteChangesContents }
    ensures difference { ReceivesDifference }
    ensures full { FullReceives }
{}

/// A full send of a dataset gives its contents, in every state of a pool and in each that a run leads to from a new one (`lineage_laws` of
/// `laws`: births and numbers last). The laws of incremental sends are of a state with lineages whose numbers each name one block; each state of
/// a pool has lineages, and each that a run leads to from one with lineages. There the records of a dataset since the group of a source, applied
/// to what the source held, give the contents of the dataset, if the dataset is of the source's lineage and its group isn't below the source's.
/// Each snapshot of the lineage is such a source, also the origin of a clone and those before it. So is the snapshot that a bookmark was made
/// of, even if it was destroyed, after each run that ends with the bookmark there and in which no Abandon goes back to before the bookmark (each
/// Abandon that is done comes after a Sync that is done) (zfs-send(8), -i). In a history in which a bookmark was made, it was made of a snapshot
/// that was there then, and the law on bookmarks holds of that snapshot.
pub fn dataset_send_laws()
    ensures full { FullSendOf }
    ensures full_after { FullSendAfter }
    ensures sources { SourceSends }
    ensures snapshots { SnapshotSends }
    ensures bookmarks { BookmarkSends }
    ensures histories { HistorySends }
{}

//! The group and the blocks of what comes before a dataset: a snapshot, or else the origin of its file system, or nothing.
ghost use Rattle.std.specs.Prelude.{◌≡◌, map};
ghost use Rattle.std.specs.Option.{option_copied};
ghost use Rattle.std.specs.FinSet.{len, difference};
ghost use Rattle.base.specs.Map.{blocks};
ghost use Rattle.base.specs.Surveys.{dead_block};
ghost use Rattle.model.specs.Sums.{size_without};
ghost use Rattle.world.specs.Deadlists.{Lists};
ghost use Rattle.file_system.specs.Dead.{blocks_kept, group_kept};
ghost use Rattle.file_system.specs.Origins.{blocks_below};

use crate::origin::{Origin, base_count};
use base::number::Group;
use deadlist::deadlist::Deadlist;
use snapshots::Kept;
use tree::Tree;

/// The number of blocks of the snapshot, or else of the origin, or 0 where there is neither. Constant time.
fn count_of(kept: Option<&Kept>, origin: Option<&Origin>) -> u32
    ensures { result ≡ len (blocks_kept (blocks_below (option_copied origin.entry)) (option_copied kept.entry)) }
{
    match kept {
        Some(kept) => kept.snapshot.tree().node_count(),
        None => base_count(origin),
    }
}

/// The creation group of the snapshot, or `base` where there is none. Constant time.
pub fn group_of(kept: Option<&Kept>, base: Group) -> Group
    ensures { result.0 ≡ group_kept base.0 (option_copied kept.entry) }
{
    match kept {
        Some(kept) => kept.snapshot.group(),
        None => base,
    }
}

/// The number of blocks of a dataset that the snapshot before it, or else the origin, doesn't have, and all of its blocks where there is
/// neither. It is computed from the dataset's dead list (zfsprops(7): written). Constant time.
pub fn written_over(
    before: Option<&Kept>,
    origin: Option<&Origin>,
    tree: &Tree,
    dead: &Deadlist,
) -> u32
    requires { Lists (map dead_block dead.now.entries) (difference (blocks_kept (blocks_below (option_copied origin)) (option_copied before)) (blocks tree.now)) }
    ensures { result ≡ size_without (blocks tree.now) (blocks_kept (blocks_below (option_copied origin.entry)) (option_copied before.entry)) }
{
    let before = count_of(before, origin);
    (u64::from(tree.node_count()) + dead.len() - u64::from(before)) as u32
}

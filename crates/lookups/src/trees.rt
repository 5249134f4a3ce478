//! Datasets and bookmarks by a name of any kind.
ghost use Rattle.std.specs.Prelude.{◌≡◌, IfOk, IfErr};
ghost use Rattle.std.specs.Option.{option_copied, option_map};
ghost use Rattle.snapshots.specs.Marks.{bookmark_of};
ghost use Rattle.model.specs.World.{bookmark_named};
ghost use Rattle.world.specs.Tables.{world_of};
ghost use Rattle.base.specs.declared.name.target.Target.{Target};
ghost use Rattle.lookups.specs.Named.{map_named, IsNoLive};

use base::name::{DsName, Member, Target};
use base::refusal::Refusal;
use datasets::{FileSystem, Snapshot, Table};
use model::snapshot_id::SnapshotId;
use tree::Tree;

/// The tree of the dataset of this name, a file system's live tree or a snapshot's tree; none where there is no such dataset. It costs the
/// logarithm of the number of file systems, and for a snapshot also that of the number of its file system's snapshots.
pub fn tree_named<'a>(table: &'a Table, target: &Target) -> Option<&'a Tree>
    ensures { option_copied result ≡ map_named table.now.file_systems target.now }
{
    match target {
        Target::FileSystem(name) => table.find(name).map(FileSystem::live),
        Target::Snapshot(name) => table.snapshot(name.member()).map(Snapshot::tree),
        Target::Bookmark(_) => None,
    }
}

/// The name of the file system that a change is asked of (zfs(8): a snapshot never changes). ReadOnly where the target is a snapshot that is
/// there, and NoDataset where it is a snapshot that isn't there, or a bookmark. It costs what `tree_named` does; for a file system's name it
/// takes constant time, and whether the file system is there isn't checked.
pub fn live_name<'a>(table: &Table, target: &'a Target) -> Result<&'a DsName, Refusal>
    ensures ok { IfOk result (λ name. target.now ≡ Target.FileSystem name.now) }
    ensures err { IfErr result (λ why. IsNoLive table.now.file_systems target.now why) }
{
    match target {
        Target::FileSystem(name) => Ok(name),
        _ => Err(match tree_named(table, target) {
            Some(_) => Refusal::ReadOnly,
            None => Refusal::NoDataset,
        }),
    }
}

/// The guid and the creation group that the bookmark of this name keeps, or none where there is no such bookmark. It costs the logarithms of the
/// numbers of file systems and of bookmarks of this one.
pub fn bookmark_named(table: &Table, member: &Member) -> Option<SnapshotId>
    ensures { option_map bookmark_of result ≡ bookmark_named (world_of table.now) member.now }
{
    table
        .find(&member.file_system)?
        .bookmarks()
        .get(member.component.as_bytes())
}

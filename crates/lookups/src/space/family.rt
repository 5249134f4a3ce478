//! What a file system uses together with its descendants.
ghost use Rattle.std.specs.Prelude.{◌≡◌, ◌<◌, ◌^◌, IsSome, map};
ghost use Rattle.std.specs.Arc.{arc_value};
ghost use Rattle.std.specs.FinMap.{get};
ghost use Rattle.std.specs.FinSet.{len};
ghost use Rattle.model.specs.World.{union_of};
ghost use Rattle.model.specs.Sums.{used_of, used_by_children};
ghost use Rattle.world.specs.Tables.{world_of};
ghost use Rattle.world.specs.Trees.{total};
ghost use Rattle.limits.specs.Limits.{IsUnlimited};
ghost use Rattle.lookups.specs.Used.{own_in, own_within};

use base::name::DsName;
use datasets::{FileSystem, Table, is_in_family};
use std::sync::Arc;

// How many blocks a file system and its snapshots have that its origin hasn't. Constant time.
fn own(file_system: &FileSystem) -> u64
    requires { own_in file_system.now < 2 ^ 32 }
    ensures { result ≡ own_in file_system.now }
{
    u64::from(file_system.used_by_dataset()) + file_system.used_by_snapshots()
}

// The sum of `own` over those of these file systems that are the one of this name or a descendant. It costs the number of file systems.
fn own_together(file_systems: &[Arc<FileSystem>], name: &DsName) -> u64
    requires { total own_in (map arc_value file_systems.now) < 2 ^ 32 }
    ensures { result ≡ total (own_within name.now) (map arc_value file_systems.now) }
{
    let mut sum: u64 = 0;
    for file_system in file_systems {
        if is_in_family(name.as_bytes(), file_system.name().as_bytes()) {
            sum += own(file_system);
        }
    }
    sum
}

/// How many blocks the file system of this name, which is there, uses together with all its descendants, where no file system has a limit
/// (zfsprops(7): used). It costs the number of file systems.
pub fn used(table: &Table, name: &DsName) -> u32
    requires there { IsSome (get table.now.file_systems name.now) }
    requires unlimited { IsUnlimited table.now.file_systems }
    requires few { len (union_of (world_of table.now)) < 2 ^ 32 }
    ensures { result ≡ used_of (world_of table.now) name.now }
{
    table.facts();
    own_together(table.file_systems(), name) as u32
}

/// How many blocks the descendants of the file system of this name, which is there, use, where no file system has a limit (zfsprops(7):
/// usedbychildren). It costs the number of file systems.
pub fn used_by_children(table: &Table, name: &DsName) -> u32
    requires there { IsSome (get table.now.file_systems name.now) }
    requires unlimited { IsUnlimited table.now.file_systems }
    requires few { len (union_of (world_of table.now)) < 2 ^ 32 }
    ensures { result ≡ used_by_children (world_of table.now) name.now }
{
    table.facts();
    let Some(file_system) = table.find(name) else {
        unreachable!()
    };
    let all = u64::from(used(table, name));
    (all - u64::from(file_system.used_by_dataset()) - file_system.used_by_snapshots()) as u32
}

//! One source of a send.
ghost use Rattle.std.specs.Prelude.{◌≡◌, IfOk, IfErr};
ghost use Rattle.base.specs.declared.refusal.Refusal.{Refusal};
ghost use Rattle.snapshots.specs.Marks.{entry_of};
ghost use Rattle.lookups.specs.Sources.{snapshot_in, bookmark_in};

use base::name::Member;
use base::refusal::Refusal;
use datasets::{FileSystem, Snapshot};
use model::source::{Source, SourceName};
use snapshots::bookmarks::Mark;

/// This snapshot of this file system as a source. NoMemory where memory for its name is refused. It costs the name.
pub fn snapshot_source(file_system: &FileSystem, snapshot: &Snapshot) -> Result<Source, Refusal>
    ensures ok { IfOk result (λ s. s ≡ snapshot_in file_system.now.name snapshot.now) }
    ensures err { IfErr result (λ e. e ≡ Refusal.NoMemory) }
{
    let name = Member {
        file_system: file_system.name().clone()?,
        component: snapshot.name().clone()?,
    };
    Ok(Source {
        name: SourceName::Snapshot(name),
        guid: snapshot.guid(),
        group: snapshot.group(),
    })
}

/// This bookmark of this file system as a source. NoMemory where memory for its name is refused. It costs the name.
pub fn bookmark_source(file_system: &FileSystem, mark: &Mark) -> Result<Source, Refusal>
    ensures ok { IfOk result (λ s. s ≡ bookmark_in file_system.now.name (entry_of mark.now)) }
    ensures err { IfErr result (λ e. e ≡ Refusal.NoMemory) }
{
    let name = Member {
        file_system: file_system.name().clone()?,
        component: mark.name.clone()?,
    };
    Ok(Source {
        name: SourceName::Bookmark(name),
        guid: mark.snapshot.guid,
        group: mark.snapshot.group,
    })
}

//! The names of file systems, snapshots and bookmarks.
ghost use Rattle.std.specs.Prelude.{◌≡◌, ◌++◌, ◌∷◌, IfOk, IfErr, OnOk, map};
ghost use Rattle.std.specs.List.{flat_map};
ghost use Rattle.base.specs.declared.refusal.Refusal.{Refusal};
ghost use Rattle.datasets.specs.Rows.{entry_of, entry_in};
ghost use Rattle.model.specs.Properties.{names_of as own_names};
ghost use Rattle.lookups.specs.Named.{snapshot_names, bookmark_names};

use base::refusal::Refusal;
use base::text::Bytes;
use datasets::FileSystem;
use std::alloc::Global;
use std::sync::Arc;

/// Copies of the names of file systems, each with those of its snapshots and then those of its bookmarks after it. NoMemory where memory is
/// refused. It costs the names, and for the bookmarks of each what `Bookmarks::in_order` does.
pub fn names_of(alloc: Global, file_systems: &[Arc<FileSystem>]) -> Result<Vec<Bytes>, Refusal>
    ensures ok { IfOk result (λ names. names.items ≡ flat_map own_names (map entry_in file_systems.now)) }
    ensures err { IfErr result (λ e. e ≡ Refusal.NoMemory) }
{
    let mut names = Vec::new(alloc);
    for file_system in file_systems {
        push_names(alloc, &mut names, file_system)?;
    }
    Ok(names)
}

// Adds the name of a file system, those of its snapshots, and those of its bookmarks.
fn push_names(
    alloc: Global,
    names: &mut Vec<Bytes>,
    file_system: &FileSystem,
) -> Result<(), Refusal>
    ensures ok { OnOk result (names.new.items ≡ names.old.items ++ own_names (entry_of file_system.now)) }
    ensures err { IfErr result (λ e. e ≡ Refusal.NoMemory) }
{
    names.push(text_of(alloc, file_system.name().as_bytes())?)?;
    push_snapshots(alloc, names, file_system)?;
    push_bookmarks(alloc, names, file_system)?;
    Ok(())
}

// Adds the names of a file system's snapshots.
fn push_snapshots(
    alloc: Global,
    names: &mut Vec<Bytes>,
    file_system: &FileSystem,
) -> Result<(), Refusal>
    ensures ok { OnOk result (names.new.items ≡ names.old.items ++ snapshot_names (entry_of file_system.now)) }
    ensures err { IfErr result (λ e. e ≡ Refusal.NoMemory) }
{
    let name = file_system.name().as_bytes();
    for kept in file_system.snapshots().iter() {
        let component = kept.snapshot.name().as_bytes();
        names.push(member_text(alloc, name, b'@', component)?)?;
    }
    Ok(())
}

// Adds the names of a file system's bookmarks.
fn push_bookmarks(
    alloc: Global,
    names: &mut Vec<Bytes>,
    file_system: &FileSystem,
) -> Result<(), Refusal>
    ensures ok { OnOk result (names.new.items ≡ names.old.items ++ bookmark_names (entry_of file_system.now)) }
    ensures err { IfErr result (λ e. e ≡ Refusal.NoMemory) }
{
    let name = file_system.name().as_bytes();
    let marks = file_system.bookmarks().in_order()?;
    for mark in marks.as_slice() {
        names.push(member_text(alloc, name, b'#', mark.name.as_bytes())?)?;
    }
    Ok(())
}

// A copy of a name.
fn text_of(alloc: Global, name: &[u8]) -> Result<Bytes, Refusal>
    ensures ok { IfOk result (λ text. text ≡ name.now) }
    ensures err { IfErr result (λ e. e ≡ Refusal.NoMemory) }
{
    Ok(Bytes::from(name.to_vec(alloc)?))
}

/// The printed name of a snapshot or a bookmark, as `p/a@s` or `p/a#b`, with this byte between (zfs(8)). NoMemory where memory is refused. It
/// costs the name.
pub fn member_text(
    alloc: Global,
    file_system: &[u8],
    between: u8,
    component: &[u8],
) -> Result<Bytes, Refusal>
    ensures ok { IfOk result (λ text. text ≡ file_system.now ++ between ∷ component.now) }
    ensures err { IfErr result (λ e. e ≡ Refusal.NoMemory) }
{
    let mut text = Vec::with_capacity(alloc, file_system.len() + 1 + component.len())?;
    text.extend_from_slice(file_system)?;
    text.push(between)?;
    text.extend_from_slice(component)?;
    Ok(Bytes::from(text))
}

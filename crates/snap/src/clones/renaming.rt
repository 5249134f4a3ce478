//! The rename of a file system.
ghost use Rattle.std.specs.Prelude.{◌≡◌, ◌⊎◌, Some, None, IfSome, IfErr, OnOk, OnErr};
ghost use Rattle.base.specs.declared.refusal.Refusal.{Refusal};
ghost use Rattle.std.specs.List.{list_any};
ghost use Rattle.datasets.specs.Renames.{with_names, rename_refusal};
ghost use Rattle.datasets.specs.Rows.{entry_in, entry_of};
ghost use Rattle.model.specs.requests.Rename.{is_long_after};

use crate::lengths::has_long;
use base::name::DsName;
use base::refusal::Refusal;
use datasets::{FileSystem, Table, is_in_family};
use std::alloc::Global;
use std::sync::Arc;

/// Renames the file system of this name, and with it all below it (zfs-rename(8), without -p and -u). Snapshots and bookmarks go with their file
/// systems; contents, limits and origins stay. After an error the table is as it was. The errors are NoDataset where no file system has the name,
/// else IsRoot for the root, else Exists where there is a file system of the new name, else NoParent where the parent of the new name isn't there,
/// else BadName where the new name is of a descendant, or one of the new names of file systems, snapshots and bookmarks would have over 255 bytes;
/// else NoMemory where there is none for it (the order and the limit are profile). No block is visited. It costs the number of file systems, and of
/// those that are renamed the number of snapshots and bookmarks.
pub fn rename(alloc: Global, table: &mut Table, name: &DsName, to: &DsName) -> Result<(), Refusal>
    ensures ok { OnOk result (table.new ≡ with_names table.old name.now to.now) }
    ensures can { OnOk result (rename_refusal table.old name.now to.now ≡ None) }
    ensures refused { IfSome (rename_refusal table.old name.now to.now) (λ e. result ≡ Err e) }
    ensures unchanged { OnErr result (table.new ≡ table.old) }
    ensures only { IfErr result (λ e. (rename_refusal table.old name.now to.now ≡ Some e) ⊎ (e ≡ Refusal.NoMemory)) }
{
    if let Some(refusal) = refusal_of(table, name, to) {
        return Err(refusal);
    }
    table.rename(alloc, name, to)
}

// The error with which the rename is refused, or None. It costs the number of file systems, and of those that would be renamed the number of
// snapshots and bookmarks.
fn refusal_of(table: &Table, from: &DsName, to: &DsName) -> Option<Refusal>
    ensures { result ≡ rename_refusal table.now from.now to.now }
{
    table.facts();
    if table.find(from).is_none() {
        return Some(Refusal::NoDataset);
    }
    if from.as_bytes() == b"p".as_slice() {
        return Some(Refusal::IsRoot);
    }
    if table.find(to).is_some() {
        return Some(Refusal::Exists);
    }
    if !table.has_parent(to.as_bytes()) {
        return Some(Refusal::NoParent);
    }
    if is_in_family(from.as_bytes(), to.as_bytes()) || any_long(table.file_systems(), from, to) {
        return Some(Refusal::BadName);
    }
    None
}

// Whether the rename would rename this file system and one of its names would be too long then. It costs the number of its snapshots and bookmarks.
fn is_long_renamed(file_system: &FileSystem, from: &DsName, to: &DsName) -> bool
    ensures { result ≡ is_long_after from.now to.now (entry_of file_system.now) }
{
    let name = file_system.name().as_bytes();
    if !is_in_family(from.as_bytes(), name) {
        return false;
    }
    let (_, rest) = name.split_at(from.as_bytes().len());
    has_long(file_system, to.as_bytes().len() + rest.len())
}

// Whether a name that the rename of these file systems would lead to is too long. It costs their number, and of those that would be renamed the number
// of snapshots and bookmarks.
fn any_long(file_systems: &[Arc<FileSystem>], from: &DsName, to: &DsName) -> bool
    ensures { result ≡ list_any (λ a. is_long_after from.now to.now (entry_in a)) file_systems.now }
{
    file_systems
        .iter()
        .any(|file_system| is_long_renamed(file_system, from, to))
}

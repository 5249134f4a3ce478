//! The roots of datasets in the image.
ghost use Rattle.std.specs.Prelude.{◌≡◌, ◌≤◌, ◌++◌, IfOk, OnOk, map};
ghost use Rattle.std.specs.Option.{option_copied};
ghost use Rattle.datasets.specs.Rows.{entry_of};
ghost use Rattle.image.specs.HasBlocks.{root_of};
ghost use Rattle.image.specs.Roots.{shown_root, own_roots, snapshot_roots, roots_in};

use base::meter::Meter;
use base::name::{Component, DsName};
use datasets::{FileSystem, Table};
use std::alloc::{AllocError, Global};
use tree::{Root, Tree};

/// Where the topmost block of a dataset is.
#[derive(Drop)]
pub struct DatasetRoot {
    pub file_system: DsName,
    /// The name of a snapshot within the file system; None for the live tree.
    pub snapshot: Option<Component>,
    /// None where the dataset has no block.
    pub root: Option<Root>,
}

/// The root of a tree, with copies of the names. AllocError where memory is refused for these.
fn root_at(
    file_system: &DsName,
    snapshot: Option<&Component>,
    tree: &Tree,
    meter: &mut Meter,
) -> Result<DatasetRoot, AllocError>
    ensures ok { IfOk result (λ r. shown_root r ≡ record { file_system = file_system.now; snapshot = option_copied snapshot.entry; root = root_of tree.now }) }
    ensures never_lower { meter.old ≤ meter.new }
{
    let snapshot = match snapshot {
        Some(name) => Some(name.clone()?),
        None => None,
    };
    Ok(DatasetRoot {
        file_system: file_system.clone()?,
        snapshot,
        root: tree.root(meter),
    })
}

/// Adds the roots of a file system's snapshots. AllocError where memory is refused; then some may have been added.
fn push_snapshots(
    roots: &mut Vec<DatasetRoot>,
    file_system: &FileSystem,
    meter: &mut Meter,
) -> Result<(), AllocError>
    ensures ok { OnOk result (map shown_root roots.new.items ≡ map shown_root roots.old.items ++ snapshot_roots (entry_of file_system.now)) }
    ensures never_lower { meter.old ≤ meter.new }
{
    let name = file_system.name();
    for kept in file_system.snapshots().iter() {
        let snapshot = &kept.snapshot;
        roots.push(root_at(name, Some(snapshot.name()), snapshot.tree(), meter)?)?;
    }
    Ok(())
}

/// Adds the root of a file system's live tree, and those of its snapshots. AllocError where memory is refused; then some may have been added.
fn push_roots(
    roots: &mut Vec<DatasetRoot>,
    file_system: &FileSystem,
    meter: &mut Meter,
) -> Result<(), AllocError>
    ensures ok { OnOk result (map shown_root roots.new.items ≡ map shown_root roots.old.items ++ own_roots (entry_of file_system.now)) }
    ensures never_lower { meter.old ≤ meter.new }
{
    let live = root_at(file_system.name(), None, file_system.live(), meter)?;
    roots.push(live)?;
    push_snapshots(roots, file_system, meter)
}

/// The roots of a table's datasets. The file systems come in byte order of their names; for each, the root of its live tree comes first, then
/// those of its snapshots, the oldest first. AllocError where memory is refused for the roots or their names. It costs the names, and a node for
/// each dataset.
pub fn roots_of(
    alloc: Global,
    table: &Table,
    meter: &mut Meter,
) -> Result<Vec<DatasetRoot>, AllocError>
    ensures ok { IfOk result (λ roots. map shown_root roots.items ≡ roots_in table.now.file_systems) }
    ensures never_lower { meter.old ≤ meter.new }
{
    let mut roots = Vec::new(alloc);
    let file_systems = table.file_systems();
    for file_system in file_systems {
        push_roots(&mut roots, file_system, meter)?;
    }
    Ok(roots)
}

//! Datasets by their names.
ghost use Rattle.std.specs.Prelude.{◌≡◌};
ghost use Rattle.std.specs.Option.{option_map, option_copied};
ghost use Rattle.lookups.specs.Places.{place_named};

use base::name::Target;
use datasets::{FileSystem, Snapshot, Table};

/// The file system of the dataset of this name, with the snapshot where the name is of one; none where there is no such dataset. It costs what
/// `Table::snapshot_named` does.
pub fn dataset_named<'a>(
    table: &'a Table,
    target: &Target,
) -> Option<(&'a FileSystem, Option<&'a Snapshot>)>
    ensures { option_map (λ p. (p.0.now, option_copied p.1)) result ≡ place_named table.now target.now }
{
    match target {
        Target::FileSystem(name) => {
            let file_system = table.find(name)?;
            Some((file_system, None))
        }
        Target::Snapshot(name) => {
            let name = name.member();
            let (file_system, snapshot) = table.snapshot_named(&name.file_system, &name.component)?;
            Some((file_system, Some(snapshot)))
        }
        Target::Bookmark(_) => None,
    }
}

//! The search for a name among file systems in byte order.
ghost use Rattle.std.specs.Prelude.{◌≡◌, None, IsTrue, IfOk, IfErr, map};
ghost use Rattle.std.specs.FinMap.{get, is_sorted, from_sorted};
ghost use Rattle.base.specs.Names.{name_cmp};
ghost use Rattle.datasets.specs.Places.{IsAt, IsGapFor};
ghost use Rattle.file_system.specs.Rows.{entry_in};

use file_system::FileSystem;
use std::sync::Arc;

/// The place of the file system of this name, or, as Err, the place where it would be inserted. It costs the logarithm of their number.
pub(crate) fn place(file_systems: &[Arc<FileSystem>], name: &[u8]) -> Result<usize, usize>
    requires { IsTrue (is_sorted name_cmp (map entry_in file_systems.now)) }
    ensures found { IfOk result (IsAt (map entry_in file_systems.now) name.now) }
    ensures absent { IfErr result (IsGapFor (map entry_in file_systems.now) name.now) }
{
    file_systems.binary_search_by(|file_system| file_system.compare(name))
}

/// Answers what `place` does, but looks first at the row at `near`, which may be any number. Where that row has this name, it costs only the
/// length of the name, and else the logarithm of the number of file systems.
pub(crate) fn place_near(
    file_systems: &[Arc<FileSystem>],
    near: usize,
    name: &[u8],
) -> Result<usize, usize>
    requires { IsTrue (is_sorted name_cmp (map entry_in file_systems.now)) }
    ensures found { IfOk result (IsAt (map entry_in file_systems.now) name.now) }
    ensures absent { IfErr result (IsGapFor (map entry_in file_systems.now) name.now) }
{
    if let Some(file_system) = file_systems.get(near)
        && file_system.is_named(name)
    {
        return Ok(near);
    }
    place(file_systems, name)
}

/// The place where a file system of this name would be inserted. No file system has this name. It costs the logarithm of their number.
pub(crate) fn gap(file_systems: &[Arc<FileSystem>], name: &[u8]) -> usize
    requires sorted { IsTrue (is_sorted name_cmp (map entry_in file_systems.now)) }
    requires absent { get (from_sorted {R = name_cmp} (map entry_in file_systems.now)) name.now ≡ None }
    ensures { IsGapFor (map entry_in file_systems.now) name.now result }
{
    match place(file_systems, name) {
        Ok(_) => unreachable!(),
        Err(place) => place,
    }
}

//! Where file systems stand in a table.
ghost use Rattle.std.specs.Prelude.{◌≡◌, ◌<◌, [], None, IfSome, IfNone, IfOk, IfErr, OnErr, slice_index_or};
ghost use Rattle.std.specs.FinMap.{get, entries, keys, len};
ghost use Rattle.base.specs.Names.{parent_of as parent_name};
ghost use Rattle.datasets.specs.Places.{IsAt, IsGapFor};
ghost use Rattle.limits.specs.Places.{IsParentAt};

use datasets::{Table, parent_of};

/// The place of the file system of this name, in byte order of the names; at `Err` the place where it would be inserted. It costs the logarithm
/// of their number.
pub fn place_of(table: &Table, name: &[u8]) -> Result<usize, usize>
    ensures ok { IfOk result (IsAt (entries table.now.file_systems) name.now) }
    ensures gap { IfErr result (IsGapFor (entries table.now.file_systems) name.now) }
    ensures none { OnErr result (get table.now.file_systems name.now ≡ None) }
{
    table
        .file_systems()
        .binary_search_by(|file_system| file_system.compare(name))
}

/// The place of the file system of this name, or none where it isn't there. It looks first at the table's hint, the place that was looked for or
/// changed last: a hit costs the length of the name, and a miss what `place_of` does.
pub fn place_seen(table: &Table, name: &[u8]) -> Option<usize>
    ensures some { IfSome result (IsAt (entries table.now.file_systems) name.now) }
    ensures none { IfNone result (get table.now.file_systems name.now ≡ None) }
{
    place_near(table, name, table.near())
}

// The place of the file system of this name, or none where it isn't there. It looks at the place `near` first, which is a hint.
fn place_near(table: &Table, name: &[u8], near: usize) -> Option<usize>
    ensures some { IfSome result (IsAt (entries table.now.file_systems) name.now) }
    ensures none { IfNone result (get table.now.file_systems name.now ≡ None) }
{
    match table.file_systems().get(near) {
        Some(file_system) if file_system.is_named(name) => Some(near),
        _ => place_of(table, name).ok(),
    }
}

/// The place of the parent of the file system at this place, or none where it has none. It looks at the place `near` first, which is a hint. It
/// costs the length of the name, and where the parent isn't at `near` the logarithm of the number of file systems.
pub fn parent_place(table: &Table, place: usize, near: usize) -> Option<usize>
    requires { place < len table.now.file_systems }
    ensures some { IfSome result (IsParentAt (keys table.now.file_systems) place) }
    ensures none { IfNone result (parent_name (slice_index_or (keys table.now.file_systems) place []) ≡ None) }
{
    table.facts();
    let file_system = &table.file_systems()[place];
    let parent = parent_of(file_system.name().as_bytes())?;
    place_near(table, parent, near)
}

//! File systems under the names that a rename gives them.
ghost use Rattle.std.specs.Prelude.{◌≡◌, ◌++◌, true, false, IfOk, IfErr, IsTrue, length, drop, map, nat_lt};
ghost use Rattle.std.specs.Arc.{arc_value};
ghost use Rattle.std.specs.FinMap.{is_sorted, from_sorted};
ghost use Rattle.base.specs.Names.{name_cmp, name_limit};
ghost use Rattle.base.specs.declared.refusal.Refusal.{Refusal};
ghost use Rattle.model.specs.Hierarchy.{is_in_family};
ghost use Rattle.datasets.specs.Renames.{moved_row, AreMoved, CanMove};
ghost use Rattle.file_system.specs.Rows.{entry_in};

use crate::clones::CloneIndex;
use crate::place::gap;
use base::name::DsName;
use base::refusal::Refusal;
use file_system::FileSystem;
use std::alloc::Global;
use std::sync::Arc;

// The name with `to` in the place of `from`, whose own or whose descendant's it must be (zfs-rename(8)). It must have at most 255 bytes. NoMemory
// where there is none for it. It costs its length.
fn moved_name(alloc: Global, name: &DsName, from: &DsName, to: &DsName) -> Result<DsName, Refusal>
    requires family { is_in_family from.now name.now ≡ true }
    requires short { nat_lt name_limit (length (to.now ++ drop (length from.now) name.now)) ≡ false }
    ensures ok { IfOk result (λ n. n ≡ to.now ++ drop (length from.now) name.now) }
    ensures err { IfErr result (λ e. e ≡ Refusal.NoMemory) }
{
    let (_, rest) = name.as_bytes().split_at(from.as_bytes().len());
    let mut bytes = Vec::with_capacity(alloc, to.as_bytes().len() + rest.len())?;
    bytes.extend_from_slice(to.as_bytes())?;
    bytes.extend_from_slice(rest)?;
    DsName::read(alloc, &bytes)
}

/// Whether the name is the ancestor's own or a descendant's (zfs-destroy(8), -r). It costs the length of the ancestor's name.
pub fn is_in_family(ancestor: &[u8], name: &[u8]) -> bool
    ensures { result ≡ is_in_family ancestor.now name.now }
{
    match name.strip_prefix(ancestor) {
        Some([]) => true,
        Some([b, ..]) => *b == b'/',
        None => false,
    }
}

// The row once `from` is named `to` (zfs-rename(8)): under another name where it is of the family of `from`, and else shared. Its new name must
// have at most 255 bytes. NoMemory where there is none for it. It costs the length of its name.
fn moved(
    alloc: Global,
    row: &Arc<FileSystem>,
    from: &DsName,
    to: &DsName,
) -> Result<Arc<FileSystem>, Refusal>
    requires short { is_in_family from.now (arc_value row.now).name ≡ true → nat_lt name_limit (length (to.now ++ drop (length from.now) (arc_value row.now).name)) ≡ false }
    ensures ok { IfOk result (λ r. arc_value r ≡ moved_row from.now to.now (arc_value row.now)) }
    ensures err { IfErr result (λ e. e ≡ Refusal.NoMemory) }
{
    let name = row.name();
    if !is_in_family(from.as_bytes(), name.as_bytes()) {
        return Ok(Arc::try_clone(row)?);
    }
    let name = Arc::new(alloc, moved_name(alloc, name, from, to)?)?;
    let mut copy = row.copy()?;
    copy.set_name(name);
    Ok(Arc::new(alloc, copy)?)
}

/// These rows once `from` is named `to` (zfs-rename(8)), in byte order of their new names, with the index of the clones among them. A row of
/// another family is shared. NoMemory where there is none for them. It costs the number of file systems, and for each one that changes its place a
/// move of what is listed after it.
pub(crate) fn moved_rows(
    alloc: Global,
    rows: &[Arc<FileSystem>],
    from: &DsName,
    to: &DsName,
) -> Result<(Vec<Arc<FileSystem>>, CloneIndex), Refusal>
    requires sorted { IsTrue (is_sorted name_cmp (map entry_in rows.now)) }
    requires can { CanMove (from_sorted (map entry_in rows.now)) from.now to.now }
    ensures ok { IfOk result (λ p. AreMoved from.now to.now rows.now p.0.items p.1) }
    ensures err { IfErr result (λ e. e ≡ Refusal.NoMemory) }
{
    let mut moves = Vec::with_capacity(alloc, rows.len())?;
    let mut clones = CloneIndex::new(alloc);
    for row in rows {
        let row = moved(alloc, row, from, to)?;
        let place = gap(&moves, row.name().as_bytes());
        clones.enter(row.origin(), row.owned_name())?;
        moves.insert(place, row)?;
    }
    Ok((moves, clones))
}

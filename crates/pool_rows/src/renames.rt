//! Renames of a file system and of a snapshot. No line of a script has one.
use base::name::{Component, DsName, SnapName};
use base::refusal::Refusal;
use model::request::Request;
use std::alloc::Global;
use telling::words::parted;

/// The rename of `NAME TO`.
pub fn rename_of(alloc: Global, words: &str) -> Result<Request, Refusal> {
    let (name, to) = parted(words);
    let name = DsName::read(alloc, name.as_bytes())?;
    let to = DsName::read(alloc, to.as_bytes())?;
    Ok(Request::Rename { name, to })
}

/// The rename of the snapshot of `NAME TO [-r]`.
pub fn snapshot_rename_of(alloc: Global, words: &str) -> Result<Request, Refusal> {
    let (name, rest) = parted(words);
    let (to, option) = parted(rest);
    let snapshot = SnapName::read(alloc, name.as_bytes())?;
    let to = Component::read(alloc, to.as_bytes())?;
    Ok(Request::RenameSnapshot {
        snapshot,
        to,
        recursive: option == "-r",
    })
}

//! Names of any kind.
ghost use Rattle.std.specs.Prelude.{◌≡◌, ◌↔◌, IsTrue};
ghost use Rattle.base.specs.Reading.{Reads, target_of};

use crate::name::checks::{NAME_LIMIT, mark_place};
use crate::name::member::{MarkName, Member, SnapName};
use crate::name::words::{Component, DsName};
use crate::refusal::Refusal;
use std::alloc::Global;

/// A name of any of the three kinds.
#[derive(Drop, Clone, PartialEq, Eq, Debug)]
pub enum Target {
    FileSystem(DsName),
    Snapshot(SnapName),
    Bookmark(MarkName),
}

impl Target {
    /// Reads a name of any kind. The first `@` or `#` tells the kind; without either it is a file system's name. BadName where the bytes are not
    /// a name, NoMemory where there is no memory for it.
    #[tactic(auto, unfolding(crate::specs::Reading::target_of, crate::specs::Reading::name_of, crate::specs::Reading::component_of))]
    pub fn read(alloc: Global, bytes: &[u8]) -> Result<Target, Refusal>
        ensures { Reads result (target_of bytes.now) }
    {
        let Some(end) = mark_place(bytes) else {
            return Ok(Target::FileSystem(DsName::read(alloc, bytes)?));
        };
        if bytes.len() > NAME_LIMIT {
            return Err(Refusal::BadName);
        }
        let member = Member {
            file_system: DsName::read(alloc, &bytes[..end])?,
            component: Component::read(alloc, &bytes[end + 1..])?,
        };
        if bytes[end] == b'@' {
            Ok(Target::Snapshot(SnapName { snapshot: member }))
        } else {
            Ok(Target::Bookmark(MarkName { bookmark: member }))
        }
    }

    /// Whether the other is the same name, of the same kind.
    pub fn same(&self, other: &Target) -> bool
        ensures { IsTrue result ↔ (self.now ≡ other.now) }
    {
        match (self, other) {
            (Target::FileSystem(a), Target::FileSystem(b)) => a.same(b),
            (Target::Snapshot(a), Target::Snapshot(b)) => a.same(b),
            (Target::Bookmark(a), Target::Bookmark(b)) => a.same(b),
            _ => false,
        }
    }
}

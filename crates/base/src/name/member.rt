//! Names of snapshots and bookmarks.
ghost use Rattle.std.specs.Prelude.{◌≡◌, ◌≤◌, ◌↔◌, IsTrue};
ghost use Rattle.base.specs.Names.{name_limit, whole_length};
ghost use Rattle.base.specs.Reading.{Reads, snap_of, mark_of};

use crate::name::checks::NAME_LIMIT;
use crate::name::target::Target;
use crate::name::words::{Component, DsName};
use crate::refusal::Refusal;
use std::alloc::Global;
use std::marker::Model;

/// The two parts of a snapshot's or bookmark's name: the file system's name, and the component after the `@` or `#`.
#[derive(Drop, Clone, PartialEq, Eq, Debug)]
pub struct Member {
    pub file_system: DsName,
    pub component: Component,
}

impl Member {
    /// Whether the other is the same name.
    pub fn same(&self, other: &Member) -> bool
        ensures { IsTrue result ↔ (self.now ≡ other.now) }
    {
        self.file_system.same(&other.file_system) && self.component.same(&other.component)
    }

    // The length in bytes of the name of these parts, with the `@` or `#` between them. Constant time.
    fn whole_length(&self) -> usize
        ensures { result ≡ whole_length self.now }
    {
        self.file_system.as_bytes().len() + 1 + self.component.as_bytes().len()
    }
}

/// The name of a snapshot, as `p/a@s`: at most 255 bytes (zfs(8); the limit is profile).
#[derive(Drop, Clone, PartialEq, Eq, Debug)]
pub struct SnapName {
    pub(crate) snapshot: Member,
}

impl Model for SnapName {
    ghost use Rattle.std.specs.Prelude.{◌≤◌};
    ghost use Rattle.base.specs.declared.name.member.Member.{Member};
    ghost use Rattle.base.specs.Names.{name_limit, whole_length};

    ghost Value = { Member };

    ghost view = { λ n. n.snapshot };

    ghost invariant = { λ n. whole_length n.snapshot ≤ name_limit };

    ghost inverse = { λ m. record { snapshot = m } };
}

impl TryFrom<Member> for SnapName {
    ghost use Rattle.std.specs.Prelude.{◌≡◌};
    ghost use Rattle.base.specs.Reading.{name_from};

    type Error = Refusal;

    ghost try_from_gives = { λ snapshot named. named ≡ name_from snapshot };

    /// The name of the snapshot of these parts. BadName exactly where it would have more than 255 bytes. Constant time.
    fn try_from(snapshot: Member) -> Result<SnapName, Refusal> {
        if snapshot.whole_length() > NAME_LIMIT {
            return Err(Refusal::BadName);
        }
        Ok(SnapName { snapshot })
    }
}

impl SnapName {
    /// Reads a snapshot's name. BadName where the bytes are not one, NoMemory where there is no memory for it.
    #[tactic(auto, unfolding(crate::specs::Reading::snap_of))]
    pub fn read(alloc: Global, bytes: &[u8]) -> Result<SnapName, Refusal>
        ensures { Reads result (snap_of bytes.now) }
    {
        match Target::read(alloc, bytes) {
            Ok(Target::Snapshot(name)) => Ok(name),
            Ok(_) => Err(Refusal::BadName),
            Err(refusal) => Err(refusal),
        }
    }

    /// Its two parts. With the `@` or `#` between them they have at most 255 bytes.
    pub fn member(&self) -> &Member
        ensures value { result.now ≡ self.now }
        ensures short { whole_length result.now ≤ name_limit }
    {
        &self.snapshot
    }

    /// Whether the other is the same name.
    pub fn same(&self, other: &SnapName) -> bool
        ensures { IsTrue result ↔ (self.now ≡ other.now) }
    {
        self.snapshot.same(&other.snapshot)
    }
}

/// The name of a bookmark, as `p/a#b`: at most 255 bytes (zfs-bookmark(8); the limit is profile).
#[derive(Drop, Clone, PartialEq, Eq, Debug)]
pub struct MarkName {
    pub(crate) bookmark: Member,
}

impl Model for MarkName {
    ghost use Rattle.std.specs.Prelude.{◌≤◌};
    ghost use Rattle.base.specs.declared.name.member.Member.{Member};
    ghost use Rattle.base.specs.Names.{name_limit, whole_length};

    ghost Value = { Member };

    ghost view = { λ n. n.bookmark };

    ghost invariant = { λ n. whole_length n.bookmark ≤ name_limit };

    ghost inverse = { λ m. record { bookmark = m } };
}

impl TryFrom<Member> for MarkName {
    ghost use Rattle.std.specs.Prelude.{◌≡◌};
    ghost use Rattle.base.specs.Reading.{name_from};

    type Error = Refusal;

    ghost try_from_gives = { λ bookmark named. named ≡ name_from bookmark };

    /// The name of the bookmark of these parts. BadName exactly where it would have more than 255 bytes. Constant time.
    fn try_from(bookmark: Member) -> Result<MarkName, Refusal> {
        if bookmark.whole_length() > NAME_LIMIT {
            return Err(Refusal::BadName);
        }
        Ok(MarkName { bookmark })
    }
}

impl MarkName {
    /// Reads a bookmark's name. BadName where the bytes are not one, NoMemory where there is no memory for it.
    #[tactic(auto, unfolding(crate::specs::Reading::mark_of))]
    pub fn read(alloc: Global, bytes: &[u8]) -> Result<MarkName, Refusal>
        ensures { Reads result (mark_of bytes.now) }
    {
        match Target::read(alloc, bytes) {
            Ok(Target::Bookmark(name)) => Ok(name),
            Ok(_) => Err(Refusal::BadName),
            Err(refusal) => Err(refusal),
        }
    }

    /// Its two parts. With the `@` or `#` between them they have at most 255 bytes.
    pub fn member(&self) -> &Member
        ensures value { result.now ≡ self.now }
        ensures short { whole_length result.now ≤ name_limit }
    {
        &self.bookmark
    }

    /// Whether the other is the same name.
    pub fn same(&self, other: &MarkName) -> bool
        ensures { IsTrue result ↔ (self.now ≡ other.now) }
    {
        self.bookmark.same(&other.bookmark)
    }
}

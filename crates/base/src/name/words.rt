//! Names of file systems, components of names, and tags.
ghost use Rattle.std.specs.Prelude.{◌≡◌, ◌↔◌, Some, IsTrue};
ghost use Rattle.base.specs.Reading.{Reads, name_of, component_of, tag_of};

use crate::name::checks::{admitted, is_component_of, is_name_of, is_tag_of};
use crate::refusal::Refusal;
use crate::text::Bytes;
use std::alloc::Global;
use std::marker::Model;

/// The name of a file system, as `p/a`: components joined by `/` (zfs(8)). Contracts see its bytes.
#[derive(Drop, Clone, PartialEq, Eq, Debug)]
pub struct DsName {
    path: Bytes,
}

impl Model for DsName {
    ghost use Rattle.std.specs.Prelude.{◌≡◌, List, ℕ, true};
    ghost use Rattle.base.specs.Words.{is_name};

    ghost Value = { List ℕ };

    ghost view = { λ n. n.path };

    ghost invariant = { λ n. is_name n.path ≡ true };

    ghost inverse = { λ b. record { path = b } };
}

impl DsName {
    /// Reads a file system's name. BadName where the bytes are not one, NoMemory where there is no memory for it.
    #[tactic(auto, unfolding(crate::specs::Reading::name_of))]
    pub fn read(alloc: Global, bytes: &[u8]) -> Result<DsName, Refusal>
        ensures { Reads result (name_of bytes.now) }
    {
        let path = admitted(alloc, bytes, is_name_of(bytes))?;
        Ok(DsName { path })
    }

    /// Its bytes, as written. `read` accepts them and gives the same name.
    #[tactic(auto, unfolding(crate::specs::Reading::name_of))]
    pub fn as_bytes(&self) -> &[u8]
        ensures value { result.now ≡ self.now }
        ensures reads { name_of result.now ≡ Some result.now }
    {
        self.path.as_slice()
    }

    /// Whether the other is the same name.
    pub fn same(&self, other: &DsName) -> bool
        ensures { IsTrue result ↔ (self.now ≡ other.now) }
    {
        self.path.same(&other.path)
    }
}

/// One component of a name, such as the part after a snapshot's `@` or a bookmark's `#`. Contracts see its bytes.
#[derive(Drop, Clone, PartialEq, Eq, Debug)]
pub struct Component {
    word: Bytes,
}

impl Model for Component {
    ghost use Rattle.std.specs.Prelude.{◌≡◌, List, ℕ, true};
    ghost use Rattle.base.specs.Words.{is_component};

    ghost Value = { List ℕ };

    ghost view = { λ n. n.word };

    ghost invariant = { λ n. is_component n.word ≡ true };

    ghost inverse = { λ b. record { word = b } };
}

impl Component {
    /// Reads a component, of any length. BadName where the bytes are not one, NoMemory where there is no memory for it.
    #[tactic(auto, unfolding(crate::specs::Reading::component_of))]
    pub fn read(alloc: Global, bytes: &[u8]) -> Result<Component, Refusal>
        ensures { Reads result (component_of bytes.now) }
    {
        let word = admitted(alloc, bytes, is_component_of(bytes))?;
        Ok(Component { word })
    }

    /// Its bytes, as written. `read` accepts them and gives the same component.
    #[tactic(auto, unfolding(crate::specs::Reading::component_of))]
    pub fn as_bytes(&self) -> &[u8]
        ensures value { result.now ≡ self.now }
        ensures reads { component_of result.now ≡ Some result.now }
    {
        self.word.as_slice()
    }

    /// Whether the other is the same component.
    pub fn same(&self, other: &Component) -> bool
        ensures { IsTrue result ↔ (self.now ≡ other.now) }
    {
        self.word.same(&other.word)
    }
}

/// The tag of a hold: 1 to 255 bytes, of those that a component may have. Unlike a component, a tag may be `.` or `..` (zfs-hold(8); profile).
/// Contracts see its bytes.
#[derive(Drop, Clone, PartialEq, Eq, Debug)]
pub struct Tag {
    tag: Bytes,
}

impl Model for Tag {
    ghost use Rattle.std.specs.Prelude.{◌≡◌, List, ℕ, true};
    ghost use Rattle.base.specs.Words.{is_tag};

    ghost Value = { List ℕ };

    ghost view = { λ t. t.tag };

    ghost invariant = { λ t. is_tag t.tag ≡ true };

    ghost inverse = { λ b. record { tag = b } };
}

impl Tag {
    /// Reads a tag. BadName where the bytes are not one, NoMemory where there is no memory for it.
    #[tactic(auto, unfolding(crate::specs::Reading::tag_of))]
    pub fn read(alloc: Global, bytes: &[u8]) -> Result<Tag, Refusal>
        ensures { Reads result (tag_of bytes.now) }
    {
        let tag = admitted(alloc, bytes, is_tag_of(bytes))?;
        Ok(Tag { tag })
    }

    /// Its bytes, as written. `read` accepts them and gives the same tag.
    #[tactic(auto, unfolding(crate::specs::Reading::tag_of))]
    pub fn as_bytes(&self) -> &[u8]
        ensures value { result.now ≡ self.now }
        ensures reads { tag_of result.now ≡ Some result.now }
    {
        self.tag.as_slice()
    }

    /// Whether the other is the same tag.
    pub fn same(&self, other: &Tag) -> bool
        ensures { IsTrue result ↔ (self.now ≡ other.now) }
    {
        self.tag.same(&other.tag)
    }
}

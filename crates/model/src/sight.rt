//! What an open view shows.
ghost use Rattle.std.specs.Prelude.{◌≡◌, ◌↔◌, IsTrue, IfOk, IfErr};
ghost use Rattle.base.specs.declared.refusal.Refusal.{Refusal};

use crate::source::Source;
use base::number::{Group, Guid};
use base::refusal::Refusal;
use std::marker::Model;
use std::sync::Arc;
use tree::Tree;

/// A snapshot as it was when a view of it was opened: its map, its guid and its creation group, and the sources that a send of it may start from
/// (zfs-send(8), -i; that a view has them is profile). Its tree and its list of sources may have other owners too. Neither ever changes.
pub struct Sight {
    tree: Tree,
    guid: Guid,
    group: Group,
    sources: Arc<Vec<Source>>,
}

// Written by hand, so that it is proved once: a derived one is expanded anew in each crate that drops the type.
impl Drop for Sight {
    fn drop(self) {
        let Sight {
            tree,
            guid: _,
            group: _,
            sources,
        } = self;
        drop(tree);
        drop(sources);
    }
}

impl Model for Sight {
    ghost use Rattle.std.specs.Arc.{arc_value};
    ghost use Rattle.model.specs.Sights.{Seen, seen_code};

    ghost Value = { Seen };

    ghost coded = { seen_code };

    ghost view = { λ s. record { map = s.tree; guid = s.guid.0; group = s.group.0; sources = (arc_value s.sources).items } };
}

impl Sight {
    /// A sight of this map, guid, creation group and sources. Constant time.
    pub fn new(tree: Tree, guid: Guid, group: Group, sources: Arc<Vec<Source>>) -> Sight
        ensures { result ≡ record { map = tree; guid = guid.0; group = group.0; sources = sources.value.items } }
    {
        Sight {
            tree,
            guid,
            group,
            sources,
        }
    }

    /// The tree of its blocks. Constant time.
    pub fn tree(&self) -> &Tree
        ensures { result.now ≡ self.now.map }
    {
        &self.tree
    }

    /// The snapshot's guid (zfsprops(7)). Constant time.
    pub fn guid(&self) -> Guid
        ensures { result.0 ≡ self.now.guid }
    {
        self.guid
    }

    /// The snapshot's creation group (zfsprops(7): createtxg). Constant time.
    pub fn group(&self) -> Group
        ensures { result.0 ≡ self.now.group }
    {
        self.group
    }

    /// The sources that a send of the snapshot may start from (zfs-send(8), -i). Constant time.
    pub fn sources(&self) -> &[Source]
        ensures { result.now ≡ self.now.sources }
    {
        self.sources.as_slice()
    }

    /// An equal sight, by one more owner of its tree and of its sources. NoMemory where there is none for that. Constant time.
    pub fn copy(&self) -> Result<Sight, Refusal>
        ensures ok { IfOk result (λ s. s ≡ self.now) }
        ensures err { IfErr result (λ e. e ≡ Refusal.NoMemory) }
    {
        Ok(Sight {
            tree: self.tree.copy()?,
            guid: self.guid,
            group: self.group,
            sources: Arc::try_clone(&self.sources)?,
        })
    }

    /// Whether the other is the same sight. It costs the nodes of both trees up to the first difference, and the sources.
    pub fn same(&self, other: &Sight) -> bool
        ensures { IsTrue result ↔ (self.now ≡ other.now) }
    {
        self.guid == other.guid
            && self.group == other.group
            && are_same_sources(&self.sources, &other.sources)
            && self.tree.same(&other.tree)
    }
}

// Whether both lists are the same.
fn are_same_sources(one: &[Source], other: &[Source]) -> bool
    ensures { IsTrue result ↔ (one.now ≡ other.now) }
{
    one == other
}

//! Whether two trees are the same.
ghost use Rattle.std.specs.Prelude.{◌≡◌, ◌↔◌, IsTrue};

use crate::tree::Tree;
use node::{owner_in, same_kid};

impl Tree {
    /// Whether the other tree has the same map: the same keys, with the same numbers, births and bytes. It costs the nodes of both trees up to
    /// the first difference. Nodes that the trees share are compared like all others, since contracts can't tell whether two owners share a
    /// node. It is for tests.
    pub fn same(&self, other: &Tree) -> bool
        ensures { IsTrue result ↔ (self.now ≡ other.now) }
    {
        same_kid(owner_in(&self.root), owner_in(&other.root))
    }
}

/// Compares as `same` does.
impl PartialEq for Tree {
    ghost use Rattle.std.specs.Cmp.{partial_equiv_from_equiv};
    ghost use Rattle.tree.specs.Same.{same_maps, same_maps_laws};

    ghost eq = { same_maps };

    ghost laws = { partial_equiv_from_equiv same_maps_laws };

    fn eq(&self, other: &Tree) -> bool {
        self.same(other)
    }
}

impl Eq for Tree {
    ghost use Rattle.tree.specs.Same.{same_maps_laws};

    ghost laws = { same_maps_laws };
}

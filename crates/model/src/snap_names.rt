//! Lists of names of snapshots.
ghost use Rattle.std.specs.Prelude.{◌≡◌, ◌↔◌, IsTrue};

use base::name::SnapName;
use std::marker::Model;

/// Names of snapshots to take, in their order (zfs-snapshot(8)). Contracts see the list of their parts.
#[derive(Debug)]
pub struct SnapNames {
    items: Vec<SnapName>,
}

// Written by hand, so that it is proved once: a derived one is expanded anew in each crate that drops the type.
impl Drop for SnapNames {
    fn drop(self) {
        let SnapNames { items } = self;
        drop(items);
    }
}

impl Model for SnapNames {
    ghost use Rattle.std.specs.Prelude.{List};
    ghost use Rattle.base.specs.declared.name.member.Member.{Member};

    ghost Value = { List Member };

    ghost view = { λ n. n.items.items };
}

impl From<Vec<SnapName>> for SnapNames {
    ghost use Rattle.std.specs.Prelude.{◌≡◌};

    ghost from_gives = { λ items n. n ≡ items.items };

    fn from(items: Vec<SnapName>) -> SnapNames {
        SnapNames { items }
    }
}

impl SnapNames {
    /// The names.
    pub fn as_slice(&self) -> &[SnapName]
        ensures { result.now ≡ self.now }
    {
        &self.items
    }

    /// Whether the other is the same list.
    pub fn same(&self, other: &SnapNames) -> bool
        ensures { IsTrue result ↔ (self.now ≡ other.now) }
    {
        self.items.as_slice() == other.items.as_slice()
    }
}

//! Lists of names.
ghost use Rattle.std.specs.Prelude.{◌≡◌, ◌↔◌, IsTrue};

use base::text::Bytes;
use std::marker::Model;

/// Printed names, in their order. Contracts see the list of their bytes.
#[derive(Debug)]
pub struct Names {
    items: Vec<Bytes>,
}

// Written by hand, so that it is proved once: a derived one is expanded anew in each crate that drops the type.
impl Drop for Names {
    fn drop(self) {
        let Names { items } = self;
        drop(items);
    }
}

impl Model for Names {
    ghost use Rattle.std.specs.Prelude.{List, ℕ};

    ghost Value = { List (List ℕ) };

    ghost view = { λ n. n.items.items };
}

impl PartialEq for Names {
    ghost use Rattle.std.specs.Str.{bytes_eq};
    ghost use Rattle.std.specs.Cmp.{partial_equiv_from_equiv};
    ghost use Rattle.std.specs.Cmp.Lexicographic.{nat_list_eq_equiv, pointwise, lists_per};

    ghost eq = { pointwise bytes_eq };

    ghost laws = { lists_per (partial_equiv_from_equiv nat_list_eq_equiv) };

    fn eq(&self, other: &Names) -> bool {
        self.items.as_slice() == other.items.as_slice()
    }
}

impl From<Vec<Bytes>> for Names {
    ghost use Rattle.std.specs.Prelude.{◌≡◌};

    ghost from_gives = { λ items n. n ≡ items.items };

    fn from(items: Vec<Bytes>) -> Names {
        Names { items }
    }
}

impl Names {
    /// The names.
    pub fn as_slice(&self) -> &[Bytes]
        ensures { result.now ≡ self.now }
    {
        &self.items
    }

    /// Whether the other is the same list.
    pub fn same(&self, other: &Names) -> bool
        ensures { IsTrue result ↔ (self.now ≡ other.now) }
    {
        self == other
    }
}

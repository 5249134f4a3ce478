//! Byte strings that own their bytes, and comparisons of bytes.
ghost use Rattle.std.specs.Prelude.{◌≡◌, ◌↔◌, IsTrue};
ghost use Rattle.std.specs.Str.{bytes_eq};
ghost use Rattle.base.specs.Names.{name_cmp};

use std::cmp::Ordering;
use std::marker::Model;

/// A byte string of any bytes, such as a printed name. Contracts see the list of the bytes.
#[derive(Clone, Debug)]
pub struct Bytes {
    items: Vec<u8>,
}

// Written by hand, so that it is proved once: a derived one is expanded anew in each crate that drops the type.
impl Drop for Bytes {
    fn drop(self) {
        let Bytes { items } = self;
        drop(items);
    }
}

impl Model for Bytes {
    ghost use Rattle.std.specs.Prelude.{List, ℕ};

    ghost Value = { List ℕ };

    ghost view = { λ b. b.items.items };
}

impl PartialEq for Bytes {
    ghost use Rattle.std.specs.Str.{bytes_eq};
    ghost use Rattle.std.specs.Cmp.{partial_equiv_from_equiv};
    ghost use Rattle.std.specs.Cmp.Lexicographic.{nat_list_eq_equiv};

    ghost eq = { bytes_eq };

    ghost laws = { partial_equiv_from_equiv nat_list_eq_equiv };

    fn eq(&self, other: &Bytes) -> bool {
        same_bytes(self.items.as_slice(), other.items.as_slice())
    }
}

impl Eq for Bytes {
    ghost use Rattle.std.specs.Cmp.Lexicographic.{nat_list_eq_equiv};

    ghost laws = { nat_list_eq_equiv };
}

impl From<Vec<u8>> for Bytes {
    ghost use Rattle.std.specs.Prelude.{◌≡◌};

    ghost from_gives = { λ items b. b ≡ items.items };

    fn from(items: Vec<u8>) -> Bytes {
        Bytes { items }
    }
}

impl Bytes {
    /// The bytes.
    pub fn as_slice(&self) -> &[u8]
        ensures { result.now ≡ self.now }
    {
        &self.items
    }

    /// Whether the other is the same list.
    pub fn same(&self, other: &Bytes) -> bool
        ensures { IsTrue result ↔ (self.now ≡ other.now) }
    {
        self == other
    }
}

/// Whether these are the same bytes. It compares the lengths first, and then the bytes from the last one back to the first, since names of one
/// pool begin alike. It costs the length of their common suffix.
pub fn same_bytes(one: &[u8], other: &[u8]) -> bool
    ensures { result ≡ bytes_eq one.now other.now }
{
    if one.len() != other.len() {
        return false;
    }
    let mut left = one.len();
    while left > 0 {
        left -= 1;
        if one[left] != other[left] {
            return false;
        }
    }
    true
}

// Up to this many bytes, a comparison byte by byte costs less than one by groups of bytes (profile).
const SHORT: usize = 32;

/// Compares these bytes lexicographically. It costs the length of their common prefix.
pub fn compare_bytes(one: &[u8], other: &[u8]) -> Ordering
    ensures { result ≡ name_cmp one.now other.now }
{
    let both = one.len().min(other.len());
    if both > SHORT {
        return order(one, other);
    }
    let mut place = 0;
    while place < both {
        let (here, there) = (one[place], other[place]);
        if here != there {
            return here.cmp(&there);
        }
        place += 1;
    }
    one.len().cmp(&other.len())
}

// Compares by groups of bytes. It is not inlined, so that it adds no code to the callers, whose names are mostly short.
#[inline(never)]
fn order(one: &[u8], other: &[u8]) -> Ordering
    ensures { result ≡ name_cmp one.now other.now }
{
    one.cmp(&other)
}

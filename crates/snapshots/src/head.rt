//! The first bytes of a name as a number.
ghost use Rattle.std.specs.Prelude.{◌≡◌, slice_index};
ghost use Rattle.std.specs.Ordering.{is_lt};
ghost use Rattle.base.specs.Names.{name_cmp, same_name};
ghost use Rattle.snapshots.specs.Heads.{name_head};

use base::text::{compare_bytes, same_bytes};

// The head of a name is its first bytes, at most this many.
const HEAD: usize = 8;

// The byte at that place, or 0 after the end of the name.
fn byte_at(name: &[u8], place: usize) -> u8
    ensures { result ≡ slice_index name.now place }
{
    if place < name.len() { name[place] } else { 0 }
}

/// The first eight bytes of a name as a big-endian number. A shorter name is padded with zeros at the end. Where two heads differ, the names are
/// in the order of the heads. Constant time.
pub fn head_of(name: &[u8]) -> u64
    ensures { result ≡ name_head name.now }
{
    u64::from_be_bytes([
        byte_at(name, 0),
        byte_at(name, 1),
        byte_at(name, 2),
        byte_at(name, 3),
        byte_at(name, 4),
        byte_at(name, 5),
        byte_at(name, 6),
        byte_at(name, 7),
    ])
}

/// Whether a name is below another in byte order; each comes with its head. The bytes of the names, which are stored apart from their snapshots,
/// are compared only where the heads are the same and one of the names is longer than a head. Then it costs the length of the shorter name, and
/// else constant time.
pub fn is_lower(one: &[u8], one_head: u64, other: &[u8], other_head: u64) -> bool
    requires one { one_head ≡ name_head one.now }
    requires other { other_head ≡ name_head other.now }
    ensures { result ≡ is_lt (name_cmp one.now other.now) }
{
    if one_head != other_head {
        return one_head < other_head;
    }
    if one.len() <= HEAD && other.len() <= HEAD {
        return one.len() < other.len();
    }
    compare_bytes(one, other).is_lt()
}

/// Whether two names are the same; each comes with its head. The bytes of the names are compared only where the heads are the same and the names
/// are longer than a head. Then it costs the length of their common suffix, and else constant time.
pub fn is_same(one: &[u8], one_head: u64, other: &[u8], other_head: u64) -> bool
    requires one { one_head ≡ name_head one.now }
    requires other { other_head ≡ name_head other.now }
    ensures { result ≡ same_name one.now other.now }
{
    if one_head != other_head {
        return false;
    }
    if one.len() <= HEAD && one.len() == other.len() {
        return true;
    }
    same_bytes(one, other)
}

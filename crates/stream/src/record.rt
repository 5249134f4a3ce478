//! The records of a stream.
ghost use Rattle.std.specs.Prelude.{◌≡◌, ◌≤◌, ◌<◌, ◌+◌, ◌*◌, ◌^◌, ◌↔◌, IsTrue};
ghost use Rattle.base.specs.Key.{IsKey, first_leaf};

use base::data::Data;
use base::number::Key;

/// How many leaves a dataset has: 256 objects of 4,096 blocks.
pub(crate) const LEAVES: u32 = 1_048_576;

/// One record of a stream.
#[derive(Drop)]
pub enum Record {
    /// The block of a leaf, with its bytes in a box. Block `i` of object `o` is leaf `4096 * o + i`.
    Write { leaf: u32, bytes: Data },
    /// The leaves that this key covers become holes.
    Free(Key),
}

impl Record {
    ghost use Rattle.stream.specs.Records.{end_of};
    ghost use Rattle.stream.specs.Spelling.{IsRecord};

    /// One past the last leaf that it covers.
    pub(crate) fn end_leaf(&self) -> u32
        requires { IsRecord self.now }
        ensures { result ≡ end_of self.now }
    {
        match self {
            Record::Write { leaf, .. } => *leaf + 1,
            Record::Free(key) => (key.index + 1) * width(key.level),
        }
    }
}

/// Whether this is a key of a dataset's tree.
pub(crate) fn is_key(key: Key) -> bool
    ensures { IsTrue result ↔ IsKey key }
{
    if key.level > 5 {
        return false;
    }
    key.index < width(5 - key.level)
}

/// The first leaf that a key covers.
pub(crate) fn first_of(key: Key) -> u32
    requires { IsKey key }
    ensures { result ≡ first_leaf key }
{
    key.index * width(key.level)
}

/// How many leaves a key of this level covers.
fn width(level: u8) -> u32
    requires { level ≤ 5 }
    ensures { result ≡ 16 ^ level }
{
    match level {
        0 => 1,
        1 => 16,
        2 => 256,
        3 => 4_096,
        4 => 65_536,
        _ => LEAVES,
    }
}

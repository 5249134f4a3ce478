//! The numbers of a window as the bits of a word.
ghost use Rattle.std.specs.Prelude.{◌≡◌, ◌≢◌, ℕ, ◌<◌, ◌≤◌, ◌||◌, true, false, IfSome, IfNone};
ghost use Rattle.zalloc.specs.Bits.{is_one, IsEven, IsLowest};

/// Whether a bit is one.
pub fn has(word: u64, bit: u32) -> bool
    requires { bit < 64 }
    ensures { result ≡ is_one word bit }
{
    (word >> bit) & 1 == 1
}

/// The word with this bit set.
pub fn with(word: u64, bit: u32) -> u64
    requires { bit < 64 }
    ensures same { is_one result bit ≡ true }
    ensures others { (i : ℕ) → i < 64 → i ≢ bit → is_one result i ≡ is_one word i }
{
    word | (1 << bit)
}

/// The word with this bit cleared.
pub fn without(word: u64, bit: u32) -> u64
    requires { bit < 64 }
    ensures same { is_one result bit ≡ false }
    ensures others { (i : ℕ) → i < 64 → i ≢ bit → is_one result i ≡ is_one word i }
{
    word & !(1 << bit)
}

/// The word with this bit set to `one`.
pub fn put(word: u64, bit: u32, one: bool) -> u64
    requires { bit < 64 }
    ensures same { is_one result bit ≡ one }
    ensures others { (i : ℕ) → i < 64 → i ≢ bit → is_one result i ≡ is_one word i }
{
    if one {
        with(word, bit)
    } else {
        without(word, bit)
    }
}

/// The bits that are one in either word.
pub fn either(one: u64, other: u64) -> u64
    ensures { (i : ℕ) → is_one result i ≡ (is_one one i || is_one other i) }
{
    one | other
}

/// The lowest bit that is one, at `from` or above it.
pub fn lowest(word: u64, from: u32) -> Option<u32>
    requires { from < 64 }
    ensures found { IfSome result (IsLowest word from) }
    ensures none { IfNone result ((i : ℕ) → from ≤ i → i < 64 → is_one word i ≡ false) }
{
    let rest = word & (u64::MAX << from);
    if rest == 0 {
        None
    } else {
        Some(rest.trailing_zeros())
    }
}

/// The lowest bit that is one, of a word that is not zero.
pub fn least(word: u64) -> u32
    requires { 0 < word }
    ensures { IsLowest word 0 result }
{
    word.trailing_zeros()
}

/// A word whose bits are all one, or all zero.
pub fn even(full: bool) -> u64
    ensures even { IsEven result }
    ensures bits { (i : ℕ) → i < 64 → is_one result i ≡ full }
{
    if full { u64::MAX } else { 0 }
}

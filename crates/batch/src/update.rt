//! The updates of a batch, and what they do to a leaf.
ghost use Rattle.std.specs.Prelude.{◌≡◌, ℕ, count_by, ◌+◌, ◌-◌, ◌*◌, ◌/◌, ◌<◌, ◌≤◌, ◌==◌, Bool, IsTrue, IfSome, IfNone, Some, slice_get, length, slice_index, false};
ghost use Rattle.std.specs.List.{list_any};
ghost use Rattle.base.specs.Key.{IsKey, covers};
ghost use Rattle.batch.specs.Updates.{first_of, past_of, IsOfTree};
ghost use Rattle.batch.specs.Said.{said, is_write, AreInOrder, AreSized, IsIdle, IsOneLeaf, IsWay};
ghost use Rattle.batch.specs.Word.{word_said};

use base::number::Key;
use node::span;

/// One entry of a batch (On-Disk Specification, chapter 3: blocks of an object are written and freed). It takes only a few words, since the
/// bytes of a written leaf are borrowed.
#[derive(Clone, Copy)]
pub enum Update<'a> {
    /// Writes a leaf.
    Write { leaf: u32, bytes: &'a [u8; 512] },
    /// Punches every leaf that the key covers.
    Punch(Key),
}

/// What a batch does to one leaf.
#[derive(Clone, Copy)]
pub enum Word<'a> {
    /// Nothing.
    Silent,
    /// Makes it a hole.
    Hole,
    /// Writes these bytes.
    Full(&'a [u8; 512]),
}

/// Whether a leaf is at or below a key.
fn is_over(key: Key, leaf: u32) -> bool
    requires { IsKey key }
    ensures { result ≡ covers key leaf }
{
    leaf / span(u32::from(key.level)) == key.index
}

impl Update<'_> {
    /// The first leaf that it covers.
    fn first(&self) -> u32
        requires { IsOfTree self.now }
        ensures { result ≡ first_of self.now }
    {
        match self {
            Update::Write { leaf, .. } => *leaf,
            Update::Punch(key) => key.index * span(u32::from(key.level)),
        }
    }

    /// The leaf past the last one that it covers.
    fn past(&self) -> u32
        requires { IsOfTree self.now }
        ensures { result ≡ past_of self.now }
    {
        match self {
            Update::Write { leaf, .. } => *leaf + 1,
            Update::Punch(key) => {
                let span = span(u32::from(key.level));
                key.index * span + span
            }
        }
    }

    /// Whether it writes.
    fn writes(&self) -> bool
        ensures { result ≡ is_write self.now }
    {
        match self {
            Update::Write { .. } => true,
            Update::Punch(_) => false,
        }
    }
}

/// The size of a leaf's bytes. The contract says that they are 512 octets.
fn size_of(bytes: &[u8; 512]) -> usize
    ensures size { result ≡ 512 }
    ensures full { length bytes.now ≡ 512 }
    ensures octets { (i : ℕ) → slice_index bytes.now i < 256 }
{
    // for the prover: a byte that is read is known to be an octet
    let _first = bytes[0];
    bytes.len()
}

/// How many updates write. The contract also says that each of these writes 512 octets.
pub fn write_count(updates: &[Update]) -> usize
    ensures count { result ≡ count_by is_write updates.now }
    ensures sized { AreSized updates.now }
{
    let mut count = 0;
    for update in updates {
        match update {
            Update::Write { bytes, .. } => {
                let _octets = size_of(*bytes);
                count += 1;
            }
            Update::Punch(_) => {}
        }
    }
    count
}

/// The single leaf that the updates write or punch, and whether they write it. None where there is no such leaf.
pub(crate) fn one_leaf(updates: &[Update]) -> Option<(u32, bool)>
    ensures one { IfSome result (λ r. IsOneLeaf (said updates.now) r.0 r.1) }
    ensures within { AreInOrder updates.now → IfSome result (λ r. r.0 < 1048576) }
    ensures none { AreInOrder updates.now → IfNone result ((leaf : ℕ) (writes : Bool) → ¬ (IsOneLeaf (said updates.now) leaf writes)) }
{
    if updates.len() != 1 {
        return None;
    }
    match &updates[0] {
        Update::Write { leaf, .. } => Some((*leaf, true)),
        Update::Punch(key) => {
            if key.level == 0 {
                Some((key.index, false))
            } else {
                None
            }
        }
    }
}

/// A place of a node, on the path to the single leaf that updates write or punch.
#[derive(Clone, Copy, PartialEq, Eq, Debug)]
pub struct Way {
    pub place: u32,
    /// Whether the updates write the leaf, and don't punch it.
    pub writes: bool,
}

/// The place of a node on the path to the single leaf that the updates write or punch. None where there is no such leaf below the node. The node
/// is given by its level, and by its index among the nodes of that level.
pub fn way_of(updates: &[Update], level: u8, index: u32) -> Option<Way>
    requires deep { 0 < level }
    requires low { level ≤ 5 }
    ensures way { IfSome result (λ w. IsWay (said updates.now) (level - 1) index w.place w.writes) }
    ensures none { AreInOrder updates.now → IfNone result ((place : ℕ) (writes : Bool) → ¬ (IsWay (said updates.now) (level - 1) index place writes)) }
{
    let Some((leaf, writes)) = one_leaf(updates) else {
        return None;
    };
    let below = leaf / span(u32::from(level - 1));
    if below / 16 == index {
        Some(Way {
            place: below % 16,
            writes,
        })
    } else {
        None
    }
}

/// What the updates do to a leaf.
pub fn word_of<'a>(updates: &[Update<'a>], leaf: u32) -> Word<'a>
    requires { AreInOrder updates.now }
    ensures { word_said result ≡ said updates.now leaf }
{
    for update in updates {
        match update {
            Update::Write { leaf: own, bytes } => {
                if *own == leaf {
                    return Word::Full(*bytes);
                }
            }
            Update::Punch(key) => {
                if is_over(*key, leaf) {
                    return Word::Hole;
                }
            }
        }
    }
    Word::Silent
}

/// Whether one of the updates writes.
fn any_writes(updates: &[Update]) -> bool
    ensures { result ≡ list_any is_write updates.now }
{
    updates.iter().any(|update| update.writes())
}

/// Whether the updates do nothing to a part of a tree, which is present or absent. A punch does nothing to an absent part.
pub fn is_idle(updates: &[Update], present: bool) -> bool
    ensures idle { IsTrue result → IsIdle (said updates.now) present }
    ensures only { AreInOrder updates.now → IsIdle (said updates.now) present → IsTrue result }
{
    if present {
        updates.is_empty()
    } else {
        !any_writes(updates)
    }
}

/// How many of the updates cover only leaves before this one. It searches from the last update back.
fn count_before(updates: &[Update], leaf: u32) -> usize
    requires { AreInOrder updates.now }
    ensures within { result ≤ length updates.now }
    ensures before { (i : ℕ) (u : Update) → i < result → slice_get updates.now i ≡ Some u → past_of u ≤ leaf }
    ensures after { (i : ℕ) (u : Update) → result ≤ i → slice_get updates.now i ≡ Some u → leaf < past_of u }
{
    for back in 0..updates.len() {
        let at = updates.len() - back;
        if updates[at - 1].past() <= leaf {
            return at;
        }
    }
    0
}

/// The updates that cover this leaf or a later one, and the updates that cover an earlier leaf. An update that does both is in both slices.
pub fn split_at_leaf<'s, 'a>(
    updates: &'s [Update<'a>],
    leaf: u32,
) -> (&'s [Update<'a>], &'s [Update<'a>])
    requires { AreInOrder updates.now }
    ensures after { (n : ℕ) → leaf ≤ n → said result.0.now n ≡ said updates.now n }
    ensures before { (n : ℕ) → n < leaf → said result.1.now n ≡ said updates.now n }
    ensures after_order { AreInOrder result.0.now }
    ensures before_order { AreInOrder result.1.now }
{
    let at = count_before(updates, leaf);
    let mut end = at;
    if at < updates.len() && updates[at].first() < leaf {
        end = at + 1;
    }
    (&updates[at..], &updates[..end])
}

//! The tags of a snapshot, in the order in which they were made.
ghost use Rattle.std.specs.Prelude.{◌≡◌, ◌↔◌, ◌⊎◌, ◌≤◌, ◌++◌, ◌∷◌, [], true, false, Err, IfOk, IfErr, OnOk, OnErr, length};
ghost use Rattle.base.specs.Surveys.{AreDifferent};
ghost use Rattle.base.specs.declared.refusal.Refusal.{Refusal};
ghost use Rattle.snapshots.specs.Tags.{tag_limit, has_tag, is_full, is_none, without_tag, texts};

use base::name::Tag;
use base::refusal::Refusal;
use indexmap::IndexSet;
use std::alloc::Global;
use std::marker::Model;

/// A snapshot has at most this many tags (profile).
pub const TAG_LIMIT: usize = 256;

// Adds a tag, which isn't there yet, at the end. NoMemory where there is none for it; then they are as they were.
fn put(alloc: Global, tags: &mut IndexSet<Vec<u8>>, tag: &[u8]) -> Result<(), Refusal>
    requires { has_tag (texts tags.old.keys) tag.now ≡ false }
    ensures ok { OnOk result (texts tags.new.keys ≡ texts tags.old.keys ++ tag.now ∷ []) }
    ensures err { OnErr result (texts tags.new.keys ≡ texts tags.old.keys) }
    ensures only { IfErr result (λ e. e ≡ Refusal.NoMemory) }
{
    tags.insert(Vec::from_slice(alloc, tag)?)?;
    Ok(())
}

// A set of the same tags in the same order. NoMemory where there is none for it.
fn copied(alloc: Global, tags: &[Vec<u8>]) -> Result<IndexSet<Vec<u8>>, Refusal>
    requires { AreDifferent (texts tags.now) }
    ensures ok { IfOk result (λ s. texts s.keys ≡ texts tags.now) }
    ensures err { IfErr result (λ e. e ≡ Refusal.NoMemory) }
{
    let mut copies = IndexSet::with_capacity(alloc, tags.len())?;
    for tag in tags {
        put(alloc, &mut copies, tag)?;
    }
    Ok(copies)
}

/// The tags of a snapshot in the order in which they were made, each once, and at most `TAG_LIMIT` of them (zfs-hold(8); the order and the
/// limit are profile). Contracts see the list of them. They keep the allocator that they were made with.
pub struct Holds {
    tags: IndexSet<Vec<u8>>,
}

// Written by hand, so that it is proved once: a derived `Drop` is expanded anew in each crate that drops the type.
impl Drop for Holds {
    fn drop(self) {
        let Holds { tags } = self;
        drop(tags);
    }
}

impl Model for Holds {
    ghost use Rattle.std.specs.Prelude.{List, ℕ};
    ghost use Rattle.snapshots.specs.Tags.{texts};
    ghost use Rattle.snapshots.specs.SoundTags.{AreSound};

    ghost Value = { List (List ℕ) };

    ghost view = { λ h. texts h.tags.keys };

    ghost invariant = { λ h. AreSound (texts h.tags.keys) };
}

impl Holds {
    /// No tag. It takes no memory. Constant time.
    pub fn new(alloc: Global) -> Holds
        ensures { result ≡ [] }
    {
        Holds {
            tags: IndexSet::new(alloc),
        }
    }

    /// The same tags in the same order. NoMemory where there is none for them. It costs the bytes of the tags.
    pub fn copy(&self) -> Result<Holds, Refusal>
        ensures ok { IfOk result (λ h. h ≡ self.now) }
        ensures err { IfErr result (λ e. e ≡ Refusal.NoMemory) }
    {
        let tags = copied(*self.tags.allocator(), self.as_slice())?;
        Ok(Holds { tags })
    }

    /// How many tags there are, at most `TAG_LIMIT` (zfsprops(7): userrefs). Each tag occurs once. Constant time.
    pub fn len(&self) -> usize
        ensures len { result ≡ length self.now }
        ensures few { length self.now ≤ tag_limit }
        ensures once { AreDifferent self.now }
    {
        self.tags.len()
    }

    /// Whether there is no tag, so that no tag holds the snapshot (zfs-hold(8)). Constant time.
    pub fn is_empty(&self) -> bool
        ensures { result ≡ is_none self.now }
    {
        self.len() == 0
    }

    /// Whether there are `TAG_LIMIT` tags, so that none can be added (profile). Constant time.
    pub fn is_full(&self) -> bool
        ensures { result ≡ is_full self.now }
    {
        self.len() >= TAG_LIMIT
    }

    /// Whether this is one of the tags. Constant time, and the length of the tag.
    pub fn contains(&self, tag: &[u8]) -> bool
        ensures { result ≡ has_tag self.now tag.now }
    {
        self.tags.contains(tag)
    }

    /// The tags in the order in which they were made (zfs-holds(8); the order is profile). Constant time.
    pub fn as_slice(&self) -> &[Vec<u8>]
        ensures { texts result.now ≡ self.now }
    {
        self.tags.as_slice()
    }

    /// Adds a tag at the end (zfs-hold(8)). TagExists where it is there; else TooMany where there are `TAG_LIMIT` tags (profile); else NoMemory
    /// where there is none for it. After an error the tags are as they were. Constant time on average, and the length of the tag.
    pub fn add(&mut self, tag: &Tag) -> Result<(), Refusal>
        ensures ok { OnOk result (self.new ≡ self.old ++ tag.now ∷ []) }
        ensures err { OnErr result (self.new ≡ self.old) }
        ensures there { (result ≡ Err Refusal.TagExists) ↔ (has_tag self.old tag.now ≡ true) }
        ensures full { (result ≡ Err Refusal.TooMany) ↔ ((has_tag self.old tag.now ≡ false) × (is_full self.old ≡ true)) }
        ensures only { IfErr result (λ e. (e ≡ Refusal.TagExists) ⊎ (e ≡ Refusal.TooMany) ⊎ (e ≡ Refusal.NoMemory)) }
    {
        if self.contains(tag.as_bytes()) {
            return Err(Refusal::TagExists);
        }
        if self.is_full() {
            return Err(Refusal::TooMany);
        }
        let alloc = *self.tags.allocator();
        put(alloc, &mut self.tags, tag.as_bytes())?;
        Ok(())
    }

    /// Removes this tag; the others keep their order (zfs-release(8)). NoTag where it isn't there; then the tags are as they were. It takes no
    /// memory. It costs the number of tags, and the length of this one.
    pub fn remove(&mut self, tag: &[u8]) -> Result<(), Refusal>
        ensures ok { OnOk result (self.new ≡ without_tag self.old tag.now) }
        ensures err { OnErr result (self.new ≡ self.old) }
        ensures absent { (result ≡ Err Refusal.NoTag) ↔ (has_tag self.old tag.now ≡ false) }
        ensures only { IfErr result (λ e. e ≡ Refusal.NoTag) }
    {
        if !self.contains(tag) {
            return Err(Refusal::NoTag);
        }
        let _is_gone = self.tags.shift_remove(tag);
        Ok(())
    }
}

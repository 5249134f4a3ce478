//! Numbers of blocks, groups and snapshots, and the places of a tree.

/// The number of a block of the pool. It is below the pool's size in blocks.
#[derive(Clone, Copy, Default, PartialEq, Eq, PartialOrd, Ord, Hash, Debug)]
pub struct BlockNo(pub u32);

/// A group of changes, which a sync, a snapshot or a receive closes. A block's birth is the group that was open when it was
/// made (On-Disk Specification, chapter 2: birth txg).
#[derive(Clone, Copy, Default, PartialEq, Eq, PartialOrd, Ord, Hash, Debug)]
pub struct Group(pub u64);

/// The identity of a snapshot across pools (zfsprops(7): guid).
#[derive(Clone, Copy, PartialEq, Eq, PartialOrd, Ord, Hash, Debug)]
pub struct Guid(pub u64);

/// A place of a dataset's tree of blocks: its level, 0 to 5, and its index among the `16^(5 - level)` places of that level.
/// Block `i` of object `o` is the leaf `(0, 4096 * o + i)` (profile).
#[derive(Clone, Copy, Default, PartialEq, Eq, Hash, Debug)]
pub struct Key {
    pub level: u8,
    pub index: u32,
}

/// A block that a dataset no longer has, by its number and birth.
#[derive(Clone, Copy, Default, PartialEq, Eq, PartialOrd, Ord, Hash, Debug)]
pub struct Dead {
    pub block: BlockNo,
    pub birth: Group,
}

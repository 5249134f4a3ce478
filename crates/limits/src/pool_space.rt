//! What a pool has beside its file systems.
ghost use Rattle.std.specs.Prelude.{◌≡◌, ◌<◌, ◌^◌, ◌+◌, ◌-◌, nat_le};

/// How many blocks a pool has, how many of them are still to be freed, and how many wait for the next sync (zpoolprops(7): size, freeing;
/// waiting is profile).
#[derive(Clone, Copy)]
pub struct Space {
    pub size: u32,
    pub freeing: u64,
    pub waiting: u64,
}

impl Space {
    /// Whether the pool has room for this many blocks beside those that are freeing and waiting (zfsprops(7): reservation). Constant time.
    pub fn has_room(&self, blocks: u64) -> bool
        ensures { result ≡ nat_le (blocks + self.now.freeing + self.now.waiting) self.now.size }
    {
        let size = u64::from(self.size);
        blocks <= size
            && self.freeing <= size - blocks
            && self.waiting <= size - blocks - self.freeing
    }

    /// How many blocks the pool has left beside this many and those that are freeing and waiting, and 0 where none are left (zfsprops(7):
    /// available). Constant time.
    pub fn left(&self, blocks: u64) -> u64
        ensures value { result ≡ self.now.size - blocks - self.now.freeing - self.now.waiting }
        ensures most { result < 2 ^ 32 }
    {
        u64::from(self.size)
            .saturating_sub(blocks)
            .saturating_sub(self.freeing)
            .saturating_sub(self.waiting)
    }
}

//! The leaves of the blocks of objects.
ghost use Rattle.std.specs.Prelude.{◌≡◌, ◌≤◌, ◌⊎◌, ◌↔◌, IfSome, IsNone};
ghost use Rattle.base.specs.Key.{leaf_index};
ghost use Rattle.tree.specs.Blocks.{IsNoBlock};

/// How many objects a dataset has (profile).
pub const OBJECT_LIMIT: u32 = 256;

/// How many blocks an object has (profile).
pub const BLOCK_LIMIT: u32 = 4096;

/// The leaf of a block of an object, or none where there is no such object or block.
pub fn leaf_of(object: u32, block: u32) -> Option<u32>
    ensures leaf { IfSome result (λ leaf. leaf ≡ leaf_index object block) }
    ensures none { IsNone result ↔ IsNoBlock object block }
{
    if object >= OBJECT_LIMIT {
        return None;
    }
    if block >= BLOCK_LIMIT {
        return None;
    }
    Some(4096 * object + block)
}

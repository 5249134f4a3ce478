//! The updates of a tree that change one block or one object.
ghost use Rattle.std.specs.Prelude.{◌≡◌, ◌≤◌, ◌↔◌, [], ◌∷◌, IfOk, IfErr};
ghost use Rattle.base.specs.Key.{leaf_index};
ghost use Rattle.base.specs.Rewrite.{writes_leaf, punches_leaf, frees_object};
ghost use Rattle.base.specs.declared.refusal.Refusal.{Refusal};
ghost use Rattle.tree.specs.Blocks.{IsNoBlock};
ghost use Rattle.tree.specs.Updates.{changes_of, IsBatch};

use crate::Update;
use crate::objset::leaf::{OBJECT_LIMIT, leaf_of};
use base::number::Key;
use base::refusal::Refusal;

/// The update that writes one block of an object (On-Disk Specification, chapter 3). BadKey exactly where the object is above 255 or the block
/// above 4095. The update borrows the bytes. It takes no memory. Constant time.
pub fn write_of<'a>(object: u32, block: u32, bytes: &'a [u8; 512]) -> Result<Update<'a>, Refusal>
    ensures batch { IfOk result (λ update. IsBatch (update ∷ [])) }
    ensures changes { IfOk result (λ update. changes_of (update ∷ []) ≡ writes_leaf (leaf_index object block) bytes.now) }
    ensures bad_key { (result ≡ Err Refusal.BadKey) ↔ IsNoBlock object block }
    ensures only { IfErr result (λ e. e ≡ Refusal.BadKey) }
{
    match leaf_of(object, block) {
        Some(leaf) => Ok(Update::Write { leaf, bytes }),
        None => Err(Refusal::BadKey),
    }
}

/// The update that makes a hole of one block of an object (On-Disk Specification, chapter 3). BadKey exactly where the object is
/// above 255 or the block above 4095. It takes no memory. Constant time.
pub fn punch_of(object: u32, block: u32) -> Result<Update<'static>, Refusal>
    ensures batch { IfOk result (λ update. IsBatch (update ∷ [])) }
    ensures changes { IfOk result (λ update. changes_of (update ∷ []) ≡ punches_leaf (leaf_index object block)) }
    ensures bad_key { (result ≡ Err Refusal.BadKey) ↔ IsNoBlock object block }
    ensures only { IfErr result (λ e. e ≡ Refusal.BadKey) }
{
    match leaf_of(object, block) {
        Some(leaf) => Ok(Update::Punch(Key {
            level: 0,
            index: leaf,
        })),
        None => Err(Refusal::BadKey),
    }
}

/// The update that makes holes of all blocks of an object (On-Disk Specification, chapter 3). BadKey exactly where the object is
/// above 255. It takes no memory. Constant time.
pub fn free_of(object: u32) -> Result<Update<'static>, Refusal>
    ensures batch { IfOk result (λ update. IsBatch (update ∷ [])) }
    ensures changes { IfOk result (λ update. changes_of (update ∷ []) ≡ frees_object object) }
    ensures bad_key { (result ≡ Err Refusal.BadKey) ↔ (OBJECT_LIMIT ≤ object) }
    ensures only { IfErr result (λ e. e ≡ Refusal.BadKey) }
{
    if object >= OBJECT_LIMIT {
        return Err(Refusal::BadKey);
    }
    Ok(Update::Punch(Key {
        level: 3,
        index: object,
    }))
}

//! The image of a pool.
ghost use Rattle.std.specs.Prelude.{◌≡◌, ◌≤◌, ◌<◌, ◌+◌, ◌*◌, ◌%◌, IfOk, IfErr, OnOk, Some, None, length, map, replicate};
ghost use Rattle.std.specs.Option.{option_map};
ghost use Rattle.std.specs.FinMap.{entries};
ghost use Rattle.base.specs.Counting.{counted};
ghost use Rattle.base.specs.declared.refusal.Refusal.{Refusal};
ghost use Rattle.zalloc.specs.States.{after_group};
ghost use Rattle.zalloc.specs.declared.BlockState.TheVariants.{Free};
ghost use Rattle.image.specs.ImageBlocks.{block_at, pointer_bytes, made_bytes, maybe_block, IsOfTree};
ghost use Rattle.image.specs.ImageWalk.{walk};
ghost use Rattle.image.specs.BlockWrites.{bytes_put};
ghost use Rattle.image.specs.Image.{IsOpen, IsImageSize, IsBadOrNoMemory, IsTooManyOrNoMemory, image_of, padded};

use crate::block_bytes::{put_block, put_copy, put_pointer};
use crate::walk::{Leaves, gather};
use base::number::BlockNo;
use base::refusal::Refusal;
use std::alloc::{AllocError, Global};
use std::marker::Model;
use std::mem;
use tree::{Block, Root};
use zalloc::{Allocator, MOST_BLOCKS, Numbers};

/// How many bytes a block has (profile).
const BLOCK_SIZE: usize = 512;

/// The blocks of a pool as bytes, and the map of protected blocks: a number that is Allocated in this map is never written (profile). Contracts
/// see the bytes of all blocks, this map (`kept`), and how often it was replaced (`keeps`). No other module can change the bytes.
///
/// `new` reserves room for 512 bytes a number, and the operating system provides its pages when they are first used. `written` ends after the
/// greatest number that was written; all blocks after it are zeros. Only `new` and `from_bytes` take memory, and `read_tree` for its answer.
pub struct Image {
    written: Vec<u8>,
    blocks: u32,
    kept: Allocator,
    keeps: u64,
}

// Written by hand, so that it is proved once: a derived one is expanded anew in each crate that drops the type.
impl Drop for Image {
    fn drop(self) {
        let Image {
            written,
            blocks: _,
            kept,
            keeps: _,
        } = self;
        drop(written);
        drop(kept);
    }
}

impl Model for Image {
    ghost use Rattle.std.specs.Prelude.{◌*◌};
    ghost use Rattle.image.specs.Image.{ShownImage, IsLaid, padded};

    ghost Value = { ShownImage };

    ghost view = { λ i. record { bytes = padded (512 * i.blocks) i.written.items; kept = i.kept; keeps = i.keeps } };

    ghost invariant = { λ i. IsLaid i.written i.blocks i.kept };
}

impl Image {
    /// An image of `n` blocks, at most `MOST_BLOCKS`, all zero, with no block protected. AllocError where memory is refused for the room or the
    /// map. Constant time: it reserves the room, and writes nothing to it.
    pub fn new(alloc: Global, n: u32) -> Result<Image, AllocError>
        requires { n ≤ MOST_BLOCKS }
        ensures { IfOk result (λ i. i ≡ record { bytes = replicate (512 * n) 0; kept = replicate n Free; keeps = 0 }) }
    {
        let written = Vec::with_capacity(alloc, BLOCK_SIZE * n as usize)?;
        let Ok(kept) = Allocator::new(alloc, n) else {
            return Err(AllocError);
        };
        Ok(Image {
            written,
            blocks: n,
            kept,
            keeps: 0,
        })
    }

    /// An image of these bytes, with no block protected. TooMany exactly where they aren't 512 for each of 1 to 4,194,304 blocks, NoMemory where
    /// there is none for the map of protected blocks.
    pub fn from_bytes(bytes: Vec<u8>) -> Result<Image, Refusal>
        ensures ok { IfOk result (λ i. i ≡ image_of bytes.items) }
        ensures size { OnOk result (IsImageSize (length bytes.items)) }
        ensures too_many { result ≡ Err Refusal.TooMany → ¬ IsImageSize (length bytes.items) }
        ensures only { IfErr result IsTooManyOrNoMemory }
    {
        let blocks = bytes.len() / BLOCK_SIZE;
        if bytes.len() % BLOCK_SIZE != 0 || blocks == 0 || blocks > MOST_BLOCKS as usize {
            return Err(Refusal::TooMany);
        }
        let kept = Allocator::new(*bytes.allocator(), blocks as u32)?;
        Ok(Image {
            written: bytes,
            blocks: blocks as u32,
            kept,
            keeps: 0,
        })
    }

    /// Writes a block at its number, which must not be protected. It takes no memory.
    pub fn write(&mut self, b: BlockNo, block: &Block<'_>)
        requires open { IsOpen self.old.kept b.0 }
        requires of_tree { IsOfTree block.now }
        ensures { self.new ≡ record self.old { bytes = bytes_put self.old.bytes (512 * b.0) (made_bytes block.now) } }
    {
        put_block(&mut self.written, b, block);
    }

    /// Changes one of the sixteen pointers of an indirect block, to a block of this level or to none. The number must not be protected. It takes
    /// no memory.
    pub(crate) fn point(&mut self, b: BlockNo, place: u32, level: u8, root: Option<Root>)
        requires open { IsOpen self.old.kept b.0 }
        requires place { place < 16 }
        ensures { self.new ≡ record self.old { bytes = bytes_put self.old.bytes (512 * b.0 + 32 * place) (pointer_bytes level (maybe_block root)) } }
    {
        put_pointer(&mut self.written, b, place, level, root);
    }

    /// Copies block `from` to the number `to`, which is another one and must not be protected. It takes no memory.
    pub(crate) fn copy_block(&mut self, from: BlockNo, to: BlockNo)
        requires open { IsOpen self.old.kept to.0 }
        requires there { from.0 < length self.old.kept }
        requires other { ¬ (from.0 ≡ to.0) }
        ensures { self.new ≡ record self.old { bytes = bytes_put self.old.bytes (512 * to.0) (block_at self.old.bytes from.0) } }
    {
        put_copy(&mut self.written, self.blocks, from, to);
    }

    /// Replaces the map of protected blocks, and returns the map of before. It takes no memory.
    pub fn keep(&mut self, states: Allocator) -> Allocator
        requires { length states ≡ length self.old.kept }
        ensures before { result ≡ self.old.kept }
        ensures after { self.new ≡ record self.old { kept = states; keeps = counted self.old.keeps 1 } }
    {
        self.count_keep();
        mem::replace(&mut self.kept, states)
    }

    /// Ends the group of these numbers, and replaces the map of protected blocks by their new synced states, as a sync does. Before, the map
    /// must be equal to their synced states. It takes no memory, and costs what `Numbers::end_group` does.
    pub fn keep_synced(&mut self, numbers: &mut Numbers)
        requires { self.old.kept ≡ numbers.old.synced }
        ensures present { numbers.new.present ≡ map after_group numbers.old.present }
        ensures synced { numbers.new.synced ≡ map after_group numbers.old.present }
        ensures after { self.new ≡ record self.old { kept = map after_group numbers.old.present; keeps = counted self.old.keeps 1 } }
    {
        numbers.end_group(&mut self.kept);
        self.count_keep();
    }

    #[tactic(auto, unfolding(base::specs::Counting::counted, base::specs::Counting::most))]
    fn count_keep(&mut self)
        ensures { self.new ≡ record self.old { keeps = counted self.old.keeps 1 } }
    {
        self.keeps = self.keeps.saturating_add(1);
    }

    /// How often the map of protected blocks was replaced. The count stops at the greatest u64.
    pub fn keeps(&self) -> u64
        ensures { result ≡ self.now.keeps }
    {
        self.keeps
    }

    /// The map of protected blocks.
    pub fn kept(&self) -> &Allocator
        ensures { result.now ≡ self.now.kept }
    {
        &self.kept
    }

    /// How many blocks it has, at most `MOST_BLOCKS`.
    pub fn block_count(&self) -> u32
        ensures { result ≡ length self.now.kept }
    {
        self.blocks
    }

    /// The bytes of the blocks in the order of their numbers, up to the greatest number that was written. All blocks after it are zeros.
    pub fn bytes(&self) -> &[u8]
        ensures written { self.now.bytes ≡ padded (512 * length self.now.kept) result.now }
        ensures size { length self.now.bytes ≡ 512 * length self.now.kept }
        ensures whole { length result.now % 512 ≡ 0 }
        ensures within { length result.now ≤ 512 * length self.now.kept }
    {
        self.written.as_slice()
    }

    /// The contents of the tree with this root, as leaves in their order. BadStream exactly where a pointer of the tree names no block of the
    /// image, has a wrong level, is younger than the block that holds it, or doesn't have the form of a pointer; NoMemory where there is no
    /// memory for the leaves. It costs the blocks that it reaches, and 516 bytes a leaf.
    pub fn read_tree(&self, root: Option<Root>) -> Result<Vec<(u32, [u8; 512])>, Refusal>
        ensures ok { IfOk result (λ v. option_map entries (walk (block_at self.now.bytes) (length self.now.kept) (maybe_block root)) ≡ Some v.items) }
        ensures bad { result ≡ Err Refusal.BadStream → walk (block_at self.now.bytes) (length self.now.kept) (maybe_block root) ≡ None }
        ensures only { IfErr result IsBadOrNoMemory }
    {
        let mut out: Leaves = Vec::new(*self.written.allocator());
        let Some(top) = root else {
            return Ok(out);
        };
        if top.block.0 >= self.blocks {
            return Err(Refusal::BadStream);
        }
        match gather(&self.written, self.blocks, 5, 0, top, &mut out) {
            Ok(()) => Ok(out),
            Err(refusal) => Err(refusal),
        }
    }
}

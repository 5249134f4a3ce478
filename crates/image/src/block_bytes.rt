//! The bytes of blocks, and their writes into an image.
ghost use Rattle.std.specs.Prelude.{◌≡◌, ◌<◌, ◌≤◌, ◌+◌, ◌*◌, ◌-◌, ◌%◌, ◌⊎◌, ◌++◌, length, map, take, drop, vec_capacity};
ghost use Rattle.image.specs.ImageBlocks.{pointer_bytes, pointers_bytes, made_bytes, maybe_block, IsOfTree};
ghost use Rattle.image.specs.BlockWrites.{bytes_put};
ghost use Rattle.image.specs.Image.{padded, blocks_in};

use base::number::BlockNo;
use byteorder::{BigEndian, ByteOrder};
use tree::{Block, Root};

/// A block of zeros. These are also the bytes of an indirect block that points to no block.
pub const ZEROS: [u8; 512] = [0; 512];

/// Appends zeros up to `size`, where the bytes are fewer. There must be room for them: it takes no memory.
pub(crate) fn fill(bytes: &mut Vec<u8>, size: usize)
    requires { size ≤ vec_capacity bytes.old }
    ensures items { bytes.new.items ≡ padded size bytes.old.items }
    ensures long { size ≤ length bytes.new.items }
    ensures capacity { vec_capacity bytes.old ≤ vec_capacity bytes.new }
{
    if bytes.len() < size {
        lengthen(bytes, size);
    }
}

/// Appends zeros up to `size`, where the bytes are fewer: the cold path of `fill`. Since numbers are taken in turn, mostly a single block is
/// missing, and then it is faster to copy a constant block of zeros.
#[inline(never)]
fn lengthen(bytes: &mut Vec<u8>, size: usize)
    requires fewer { length bytes.old.items < size }
    requires room { size ≤ vec_capacity bytes.old }
    ensures items { bytes.new.items ≡ padded size bytes.old.items }
    ensures long { size ≤ length bytes.new.items }
    ensures capacity { vec_capacity bytes.old ≤ vec_capacity bytes.new }
{
    if size == bytes.len() + ZEROS.len() {
        let _longer = bytes.extend_from_slice(&ZEROS);
    } else {
        let _filled = bytes.resize(size, 0);
    }
}

/// Writes a pointer to a block of a level, or to none.
pub(crate) fn write_pointer(out: &mut [u8], level: u8, root: Option<Root>)
    requires { length out.old ≡ 32 }
    ensures { out.new ≡ pointer_bytes level (maybe_block root) }
{
    let numbers = match root {
        Some(root) => [
            u64::from(root.block.0) + 1,
            root.birth.0,
            u64::from(level),
            0,
        ],
        None => [0; 4],
    };
    BigEndian::write_u64_into(&numbers, out);
}

/// Writes the pointers of a block to blocks of a level.
fn write_pointers(out: &mut [u8], level: u8, roots: &[Option<Root>; 16])
    requires { length out.old ≡ 512 }
    ensures { out.new ≡ pointers_bytes level (map maybe_block roots.now) }
{
    for place in 0..16 {
        write_pointer(&mut out[32 * place..32 * place + 32], level, roots[place]);
    }
}

/// Writes the bytes of a block.
#[tactic(auto, unfolding(tree::specs::Bytes::made_bytes))]
pub(crate) fn write_block(out: &mut [u8], block: &Block<'_>)
    requires room { length out.old ≡ 512 }
    requires of_tree { IsOfTree block.now }
    ensures { out.new ≡ made_bytes block.now }
{
    match block {
        Block::Contents(bytes) => out.copy_from_slice(bytes.as_slice()),
        Block::Pointers { level, roots } => write_pointers(out, *level - 1, roots),
    }
}

/// Writes a block at its number. The blocks between those written so far and this one become zeros. It takes no memory. The bytes of a leaf
/// right after those written so far are appended in one copy: since numbers are taken in turn, this is the usual case.
pub(crate) fn put_block(written: &mut Vec<u8>, b: BlockNo, block: &Block<'_>)
    requires room { 512 * b.0 + 512 ≤ vec_capacity written.old }
    requires of_tree { IsOfTree block.now }
    ensures put { written.new.items ≡ bytes_put (padded (512 * b.0 + 512) written.old.items) (512 * b.0) (made_bytes block.now) }
    ensures capacity { vec_capacity written.old ≤ vec_capacity written.new }
{
    let at = 512 * b.0 as usize;
    if let Block::Contents(bytes) = block
        && at == written.len()
    {
        let _longer = written.extend_from_slice(bytes.as_slice());
        return;
    }
    fill(written, at + 512);
    write_block(&mut written[at..at + 512], block);
}

/// Copies the first 512 bytes of `from` to the front of `to`.
fn copy_front(to: &mut [u8], from: &[u8])
    requires room { 512 ≤ length to.old }
    requires there { 512 ≤ length from.now }
    ensures { to.new ≡ take 512 from.now ++ drop 512 to.old }
{
    to[..512].copy_from_slice(&from[..512]);
}

/// Copies a block's bytes from one place to another in one copy. Either place may come first.
fn copy_bytes(bytes: &mut [u8], from: usize, to: usize)
    requires apart { (from + 512 ≤ to) ⊎ (to + 512 ≤ from) }
    requires there { from + 512 ≤ length bytes.old }
    requires within { to + 512 ≤ length bytes.old }
    ensures { bytes.new ≡ bytes_put bytes.old to (take 512 (drop from bytes.old)) }
{
    if from < to {
        let (before, behind) = bytes.split_at_mut(to);
        copy_front(behind, &before[from..]);
    } else {
        let (before, behind) = bytes.split_at_mut(from);
        copy_front(&mut before[to..], behind);
    }
}

/// Writes a copy of block `from` at number `b`, in an image of `count` blocks. The blocks between those written so far and `b` become zeros. It
/// takes no memory.
pub(crate) fn put_copy(written: &mut Vec<u8>, count: u32, from: BlockNo, b: BlockNo)
    requires room { 512 * b.0 + 512 ≤ vec_capacity written.old }
    requires whole { length written.old.items % 512 ≡ 0 }
    requires within { length written.old.items ≤ 512 * count }
    requires numbers { (from.0 < count) × (b.0 < count) }
    requires other { ¬ (from.0 ≡ b.0) }
    ensures put { written.new.items ≡ bytes_put (padded (512 * b.0 + 512) written.old.items) (512 * b.0) (blocks_in count written.old.items from.0) }
    ensures capacity { vec_capacity written.old ≤ vec_capacity written.new }
{
    let at = 512 * b.0 as usize;
    let source = 512 * from.0 as usize;
    fill(written, at + 512);
    if source < written.len() {
        copy_bytes(written, source, at);
    } else {
        written[at..at + 512].copy_from_slice(&ZEROS);
    }
}

/// Writes one of the sixteen pointers of block `b`. The blocks after those written so far, up to `b`, become zeros first. It takes no memory.
pub(crate) fn put_pointer(
    written: &mut Vec<u8>,
    b: BlockNo,
    place: u32,
    level: u8,
    root: Option<Root>,
)
    requires room { 512 * b.0 + 512 ≤ vec_capacity written.old }
    requires place { place < 16 }
    ensures put { written.new.items ≡ bytes_put (padded (512 * b.0 + 512) written.old.items) (512 * b.0 + 32 * place) (pointer_bytes level (maybe_block root)) }
    ensures capacity { vec_capacity written.old ≤ vec_capacity written.new }
{
    let at = 512 * b.0 as usize;
    fill(written, at + 512);
    let from = at + 32 * place as usize;
    write_pointer(&mut written[from..from + 32], level, root);
}

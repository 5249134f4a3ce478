//! Walks along the pointers of an image.
ghost use Rattle.std.specs.Prelude.{◌≡◌, ◌<◌, ◌≤◌, ◌+◌, ◌*◌, ◌%◌, ◌^◌, ◌++◌, ◌∷◌, [], length, Some, None, OnOk, IfOk, IfErr, IfSome, MatchResult};
ghost use Rattle.std.specs.Option.{option_map};
ghost use Rattle.base.specs.declared.refusal.Refusal.{Refusal};
ghost use Rattle.image.specs.ImageBlocks.{root_block, maybe_block};
ghost use Rattle.image.specs.ImageWalk.{number_in, pointer_in, leaves_of};
ghost use Rattle.image.specs.Image.{IsBadOrNoMemory, blocks_in};

use base::number::{BlockNo, Group};
use base::refusal::Refusal;
use byteorder::{BigEndian, ByteOrder};
use tree::Root;

/// The leaves of a dataset in their order, each with its bytes.
pub(crate) type Leaves = Vec<(u32, [u8; 512])>;

/// The bytes of a block of an image of `count` blocks. `written` are the bytes written so far; a block after them is zeros.
pub(crate) fn block_of(written: &[u8], count: u32, block: BlockNo) -> [u8; 512]
    requires whole { length written.now % 512 ≡ 0 }
    requires within { length written.now ≤ 512 * count }
    requires there { block.0 < count }
    ensures { result ≡ blocks_in count written.now block.0 }
{
    let at = 512 * block.0 as usize;
    let mut bytes = [0; 512];
    if at < written.len() {
        bytes.copy_from_slice(&written[at..at + 512]);
    }
    bytes
}

/// The big-endian number in the eight bytes from `at` on.
fn number_at(block: &[u8], at: usize) -> u64
    requires { at + 8 ≤ length block.now }
    ensures { result ≡ number_in block.now at }
{
    BigEndian::read_u64(&block[at..])
}

/// The pointer at a place of a block born in `birth`, in an image of `count` blocks. It must point to a block of this level. BadStream where it
/// breaks the rules.
#[tactic(auto, unfolding(crate::specs::ImageWalk::pointer_in))]
fn pointer_at(
    block: &[u8],
    place: usize,
    count: u32,
    level: u8,
    birth: Group,
) -> Result<Option<Root>, Refusal>
    requires block { length block.now ≡ 512 }
    requires place { place < 16 }
    ensures within { IfOk result (λ p. IfSome p (λ r. r.block.0 < count)) }
    ensures pointer { MatchResult result (λ p. pointer_in count level birth.0 block.now place ≡ Some (maybe_block p)) (λ e. (e ≡ Refusal.BadStream) × (pointer_in count level birth.0 block.now place ≡ None)) }
{
    let at = 32 * place;
    let number = number_at(block, at);
    let born = number_at(block, at + 8);
    let below = number_at(block, at + 16);
    let rest = number_at(block, at + 24);
    if number == 0 {
        if born == 0 && below == 0 && rest == 0 {
            return Ok(None);
        }
        return Err(Refusal::BadStream);
    }
    if number <= u64::from(count) && born <= birth.0 && below == u64::from(level) && rest == 0 {
        return Ok(Some(Root {
            block: BlockNo((number - 1) as u32),
            birth: Group(born),
        }));
    }
    Err(Refusal::BadStream)
}

/// Adds to `out` the leaves at and below the block `top`, which has this level and this index on the level. The image has `count` blocks, and
/// `written` are the bytes written so far. BadStream where a pointer breaks the rules, NoMemory where memory is refused; then some of the leaves
/// may have been added.
pub(crate) fn gather(
    written: &[u8],
    count: u32,
    level: u8,
    index: u32,
    top: Root,
    out: &mut Leaves,
) -> Result<(), Refusal>
    requires whole { length written.now % 512 ≡ 0 }
    requires size { length written.now ≤ 512 * count }
    requires there { top.block.0 < count }
    requires low { level ≤ 5 }
    requires within { (index + 1) * 16 ^ level ≤ 1048576 }
    ensures ok { OnOk result (option_map (λ more. out.old.items ++ more) (leaves_of (blocks_in count written.now) count level index (root_block top)) ≡ Some out.new.items) }
    ensures bad { result ≡ Err Refusal.BadStream → leaves_of (blocks_in count written.now) count level index (root_block top) ≡ None }
    ensures only { IfErr result IsBadOrNoMemory }
{
    let block = block_of(written, count, top.block);
    if level == 0 {
        out.push((index, block))?;
        return Ok(());
    }
    for place in 0..16u32 {
        let pointer = match pointer_at(&block, place as usize, count, level - 1, top.birth) {
            Ok(pointer) => pointer,
            Err(refusal) => return Err(refusal),
        };
        if let Some(below) = pointer {
            if let Err(refusal) = gather(
                written,
                count,
                level - 1,
                16 * index + place,
                below,
                out,
            ) {
                return Err(refusal);
            }
        }
    }
    Ok(())
}

//! The new blocks of a change, as they are written.
ghost use Rattle.std.specs.Prelude.{◌≡◌, ◌≤◌, IsSome, IfOk, map};
ghost use Rattle.std.specs.List.{All};
ghost use Rattle.std.specs.FinMap.{get};
ghost use Rattle.tree.specs.ChangeParts.{made_pair};
ghost use Rattle.image.specs.ImageBlocks.{made_bytes, IsOfTree};
ghost use Rattle.image.specs.BlockWrites.{writes_of, written_pair};

use crate::block_bytes::write_block;
use base::meter::Meter;
use base::number::BlockNo;
use std::alloc::{AllocError, Global};
use tree::{Block, NewBlock, Tree};

/// The bytes of a block.
fn bytes_of(block: &Block<'_>) -> [u8; 512]
    requires { IsOfTree block.now }
    ensures { result ≡ made_bytes block.now }
{
    let mut bytes = [0; 512];
    write_block(&mut bytes, block);
    bytes
}

/// The blocks of a tree at these keys, each with the number given for its key, in the form that `Image::write_all` takes. It is for keys at each
/// of which the tree has a block. AllocError where memory is refused for them. It takes 516 bytes a block. Each block costs the nodes from the
/// root down, which the meter counts.
pub fn blocks_of(
    alloc: Global,
    tree: &Tree,
    made: &[NewBlock],
    meter: &mut Meter,
) -> Result<Vec<(BlockNo, [u8; 512])>, AllocError>
    ensures ok { All (λ b. IsSome (get tree.now b.key)) made.now → IfOk result (λ v. map written_pair v.items ≡ writes_of tree.now (map made_pair made.now)) }
    ensures never_lower { meter.old ≤ meter.new }
{
    let mut blocks = Vec::with_capacity(alloc, made.len())?;
    for new in made {
        if let Some(block) = tree.block(new.key, meter) {
            blocks.push((new.block, bytes_of(&block)))?;
        }
    }
    Ok(blocks)
}

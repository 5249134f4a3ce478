//! The root of a pool's first dataset, as it stands in the image.
use base::refusal::Refusal;
use pool::Pool;
use std::alloc::{AllocError, Global};
use telling::told::{tell, tell_number, tell_refusal};

/// The first dataset's root in the present world: its birth, and its block.
fn first_root(alloc: Global, pool: &Pool) -> Result<Option<(u64, &[u8])>, Refusal> {
    let roots = pool.roots(alloc, false)?;
    let Some(root) = roots.first().and_then(|first| first.root) else {
        return Ok(None);
    };
    let at = 512 * root.block.0 as usize;
    let block = pool.image().bytes().get(at..at.saturating_add(512));
    Ok(block.map(|block| (root.birth.0, block)))
}

/// Tells the birth of a root, the pointer at the head of its block without the number of the block that it points to, and how many bytes
/// behind it aren't zero.
fn tell_block(
    alloc: Global,
    told: &mut Vec<u8>,
    birth: u64,
    block: &[u8],
) -> Result<(), AllocError> {
    let Some(pointer) = block.get(8..32) else {
        return tell(told, "short");
    };
    let digits = hex::encode(alloc, pointer)?;
    let rest = block.iter().skip(32).filter(|byte| **byte != 0).count();
    tell_number(alloc, told, birth)?;
    tell(told, " ")?;
    told.extend_from_slice(digits.as_bytes())?;
    tell(told, " ")?;
    tell_number(alloc, told, rest as u64)
}

/// Tells of the first dataset's root, or `none` where it has no block.
pub fn tell_root(alloc: Global, pool: &Pool, told: &mut Vec<u8>) -> Result<(), AllocError> {
    match first_root(alloc, pool) {
        Ok(Some((birth, block))) => tell_block(alloc, told, birth, block),
        Ok(None) => tell(told, "none"),
        Err(refusal) => tell_refusal(alloc, told, refusal),
    }
}

//! Bytes that are cut short, changed in a place, or go on.
use crate::streams::text::{bytes_of, kind_of};
use base::refusal::Refusal;
use std::alloc::Global;

/// 1 where bytes are no stream, 0 else.
fn bad(alloc: Global, bytes: &[u8]) -> Result<u64, Refusal> {
    Ok(u64::from(kind_of(alloc, bytes)? == "bad"))
}

/// How many are bad of the beginnings of bytes and of those that differ from them in one byte.
fn cut_or_changed(alloc: Global, bytes: &mut [u8]) -> Result<u64, Refusal> {
    let mut count = 0u64;
    for at in 0..bytes.len() {
        count = count.wrapping_add(bad(alloc, &bytes[..at])?);
        bytes[at] ^= 1;
        count = count.wrapping_add(bad(alloc, bytes)?);
        bytes[at] ^= 1;
    }
    Ok(count)
}

/// How many are bad of these, and of the bytes with one more, a zero.
pub fn count_of(alloc: Global, digits: &str) -> Result<u64, Refusal> {
    let mut bytes = bytes_of(alloc, digits)?;
    let count = cut_or_changed(alloc, bytes.as_mut_slice())?;
    bytes.push(0)?;
    Ok(count.wrapping_add(bad(alloc, bytes.as_slice())?))
}

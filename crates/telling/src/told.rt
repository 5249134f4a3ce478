//! What a row tells, as text.
use base::refusal::Refusal;
use std::alloc::{AllocError, Global};

pub fn tell(told: &mut Vec<u8>, text: &str) -> Result<(), AllocError> {
    told.extend_from_slice(text.as_bytes())
}

/// Ends what a row tells.
pub fn end_line(told: &mut Vec<u8>) -> Result<(), AllocError> {
    tell(told, "\n")
}

pub fn tell_whether(told: &mut Vec<u8>, is_so: bool) -> Result<(), AllocError> {
    tell(told, if is_so { "yes" } else { "no" })
}

pub fn tell_number(alloc: Global, told: &mut Vec<u8>, number: u64) -> Result<(), AllocError> {
    let text = format!(in alloc; "{number}")?;
    tell(told, text.as_str())
}

/// Tells a refusal as a reply does.
pub fn tell_refusal(alloc: Global, told: &mut Vec<u8>, refusal: Refusal) -> Result<(), AllocError> {
    let text = format!(in alloc; "error {refusal}")?;
    tell(told, text.as_str())
}

/// A number that tells where another one stands in a sequence, and the sequence before it.
pub fn mixed(sum: u64, number: u64) -> u64 {
    sum.wrapping_mul(6_364_136_223_846_793_005)
        .wrapping_add(number)
        .rotate_left(23)
}

/// The same of bytes that go on a sequence.
pub fn mixed_bytes(before: u64, bytes: &[u8]) -> u64 {
    let mut sum = before;
    for byte in bytes {
        sum = mixed(sum, u64::from(*byte));
    }
    sum
}

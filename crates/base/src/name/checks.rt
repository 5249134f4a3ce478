//! Which bytes are names.
ghost use Rattle.std.specs.Prelude.{◌≡◌, ◌<◌, ◌==◌, Some, None, if◌then◌else◌, IfSome, length};
ghost use Rattle.std.specs.List.{position, list_all, slice_split};
ghost use Rattle.base.specs.Names.{is_name_byte, is_component, is_name, is_tag, is_mark};
ghost use Rattle.base.specs.Reading.{Reads};

use crate::refusal::Refusal;
use crate::text::Bytes;
use std::alloc::Global;

/// A whole name has at most this many bytes, and so has a tag (profile). Contracts call it `name_limit`.
pub const NAME_LIMIT: usize = 255;

// A copy of the bytes where they are allowed. BadName where they are not, NoMemory where there is no memory for it.
pub fn admitted(alloc: Global, bytes: &[u8], is_allowed: bool) -> Result<Bytes, Refusal>
    ensures { Reads result (if is_allowed then Some bytes.now else None) }
{
    if !is_allowed {
        return Err(Refusal::BadName);
    }
    Ok(Bytes::from(bytes.to_vec(alloc)?))
}

// The place of the first `@` or `#`.
pub fn mark_place(bytes: &[u8]) -> Option<usize>
    ensures place { result ≡ position is_mark bytes.now }
    ensures within { IfSome result (λ n. n < length bytes.now) }
{
    bytes.iter().position(|b| *b == b'@' || *b == b'#')
}

pub fn is_name_of(bytes: &[u8]) -> bool
    ensures { result ≡ is_name bytes.now }
{
    if bytes.len() > NAME_LIMIT {
        return false;
    }
    are_components(bytes)
}

pub fn is_tag_of(bytes: &[u8]) -> bool
    ensures { result ≡ is_tag bytes.now }
{
    if bytes.len() == 0 {
        return false;
    }
    if bytes.len() > NAME_LIMIT {
        return false;
    }
    are_name_bytes(bytes)
}

fn are_components(bytes: &[u8]) -> bool
    ensures { result ≡ list_all is_component (slice_split (λ b. b == 47) bytes.now) }
{
    bytes
        .split(|b| *b == b'/')
        .all(|part| is_component_of(part))
}

pub fn is_component_of(bytes: &[u8]) -> bool
    ensures { result ≡ is_component bytes.now }
{
    if bytes.len() == 0 {
        return false;
    }
    if bytes == b".".as_slice() {
        return false;
    }
    if bytes == b"..".as_slice() {
        return false;
    }
    are_name_bytes(bytes)
}

fn are_name_bytes(bytes: &[u8]) -> bool
    ensures { result ≡ list_all is_name_byte bytes.now }
{
    bytes.iter().all(|b| is_name_byte_of(*b))
}

fn is_name_byte_of(b: u8) -> bool
    ensures { result ≡ is_name_byte b }
{
    if b >= b'a' {
        return b <= b'z';
    }
    matches!(b, b'A'..=b'Z' | b'0'..=b':' | b'-' | b'.' | b'_')
}

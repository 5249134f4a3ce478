//! The bytes of streams, as they are to be sent.
use base::number::Guid;
use std::alloc::{AllocError, Global};

pub const FIRST: Guid = Guid(0x1_0000_0001);

pub const SECOND: Guid = Guid(0x1_0000_0002);

/// The stream of an empty snapshot. Its digest is Python's `hashlib.sha256`, as are those below.
pub const EMPTY: [u8; 63] = [
    0x5a, 0x44, 0x53, 0x54, 0x52, 0x4d, 0x30, 0x31, 0, 0, 0, 0, 0, 0, 0, 0, 0, 0, 0, 1, 0, 0, 0, 1,
    2, 5, 0, 0, 0, 0, 0, 0x50, 0xfe, 0xd7, 0xb6, 0xee, 0xab, 0x85, 0x85, 0x61, 0x5f, 0x1a, 0x7b,
    0xbd, 0x48, 0x91, 0xf1, 0x8f, 0x38, 0x73, 0x21, 0xbe, 0x0d, 0x41, 0xa6, 0x6f, 0x69, 0x66, 0xa7,
    0x98, 0xba, 0x22, 0xbd,
];

/// How the stream of a snapshot begins whose one leaf, leaf 0, has an `a` and zeros.
const ONE_LEAF_HEAD: [u8; 30] = [
    0x5a, 0x44, 0x53, 0x54, 0x52, 0x4d, 0x30, 0x31, 0, 0, 0, 0, 0, 0, 0, 0, 0, 0, 0, 1, 0, 0, 0, 1,
    1, 0, 0, 0, 0, 0x61,
];

/// The digest of that stream.
const ONE_LEAF_DIGEST: [u8; 32] = [
    0x8b, 0xcc, 0x4c, 0xdc, 0x40, 0x6a, 0x05, 0x37, 0x9a, 0x7d, 0x1f, 0x49, 0xd5, 0x8a, 0xb9, 0xd4,
    0xd4, 0xa3, 0x07, 0x39, 0x24, 0x97, 0xb3, 0xb9, 0x32, 0x16, 0x46, 0xf2, 0x9a, 0x2a, 0x00, 0x2f,
];

/// How the stream from that snapshot to the next begins, where the leaf has a `b` and zeros.
const NEXT_HEAD: [u8; 30] = [
    0x5a, 0x44, 0x53, 0x54, 0x52, 0x4d, 0x30, 0x31, 0, 0, 0, 1, 0, 0, 0, 1, 0, 0, 0, 1, 0, 0, 0, 2,
    1, 0, 0, 0, 0, 0x62,
];

/// The digest of that stream.
const NEXT_DIGEST: [u8; 32] = [
    0x9e, 0xa1, 0x9d, 0xd3, 0xd1, 0x1c, 0x3b, 0xc9, 0x74, 0x15, 0x66, 0x57, 0x78, 0xce, 0xcd, 0xe2,
    0x78, 0x4b, 0xd6, 0x7e, 0xe3, 0xf9, 0x1f, 0xd9, 0xfc, 0x63, 0xd0, 0x85, 0x7c, 0x4e, 0xcc, 0x8b,
];

/// The bytes of a stream with one leaf: its beginning, zeros, what is absent beside the leaf and above it, and the end.
fn bytes_between(alloc: Global, head: &[u8], digest: &[u8]) -> Result<Vec<u8>, AllocError> {
    let mut bytes = Vec::new(alloc);
    bytes.extend_from_slice(head)?;
    bytes.extend_from_slice(&[0; 511])?;
    for level in 0..5 {
        for index in 1..16 {
            bytes.extend_from_slice(&[2, level, 0, 0, 0, index])?;
        }
    }
    bytes.push(0)?;
    bytes.extend_from_slice(digest)?;
    Ok(bytes)
}

pub fn one_leaf_bytes(alloc: Global) -> Result<Vec<u8>, AllocError> {
    bytes_between(alloc, &ONE_LEAF_HEAD, &ONE_LEAF_DIGEST)
}

pub fn next_bytes(alloc: Global) -> Result<Vec<u8>, AllocError> {
    bytes_between(alloc, &NEXT_HEAD, &NEXT_DIGEST)
}

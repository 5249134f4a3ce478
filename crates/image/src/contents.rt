//! The bytes of a leaf to write.
ghost use Rattle.std.specs.Prelude.{◌≡◌, IfOk, length, replicate};

use crate::block_bytes::ZEROS;
use std::alloc::{AllocError, Global};
use std::marker::Model;

/// The bytes of a leaf: lent by the caller that asks to write them, or a copy of them, or the zeros of a leaf that isn't there. Contracts see
/// them as a list.
#[derive(Drop)]
pub struct Contents<'a> {
    held: Held<'a>,
}

/// Who holds the bytes.
#[derive(Drop)]
enum Held<'a> {
    Lent(&'a [u8; 512]),
    Own(Box<[u8; 512]>),
    Zeros,
}

impl<'a> Model for Contents<'a> {
    ghost use Rattle.std.specs.Prelude.{List, ℕ};
    ghost use Rattle.image.specs.Contents.{held_bytes};

    ghost Value = { List ℕ };

    ghost view = { λ c. held_bytes c.held };
}

impl<'a> Contents<'a> {
    /// Contents that borrow these bytes. Constant time.
    pub(crate) fn lent(bytes: &'a [u8; 512]) -> Contents<'a>
        ensures same { result ≡ bytes.now }
        ensures size { length result ≡ 512 }
    {
        Contents {
            held: Held::Lent(bytes),
        }
    }

    /// The contents of a leaf that isn't there: zeros. Constant time.
    pub(crate) fn zeros() -> Contents<'a>
        ensures { result ≡ replicate 512 0 }
    {
        Contents { held: Held::Zeros }
    }

    /// The bytes. Constant time.
    pub(crate) fn as_array(&self) -> &[u8; 512]
        ensures { result.now ≡ self.now }
    {
        match &self.held {
            Held::Lent(bytes) => *bytes,
            Held::Own(bytes) => bytes.as_ref(),
            Held::Zeros => &ZEROS,
        }
    }

    /// The same bytes; those that are lent are copied. AllocError where memory is refused for the copy.
    pub(crate) fn owned(self, alloc: Global) -> Result<Contents<'static>, AllocError>
        ensures { IfOk result (λ c. c ≡ self.entry) }
    {
        let held = match self.held {
            Held::Lent(bytes) => Held::Own(Box::new(alloc, *bytes)?),
            Held::Own(bytes) => Held::Own(bytes),
            Held::Zeros => Held::Zeros,
        };
        Ok(Contents { held })
    }
}

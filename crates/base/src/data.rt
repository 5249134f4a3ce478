//! The bytes of a data block, owned.
ghost use Rattle.std.specs.Prelude.{◌≡◌, ◌↔◌, IsTrue, IfOk, OnErr, Err};
ghost use Rattle.base.specs.declared.refusal.Refusal.{Refusal};

use crate::refusal::Refusal;
use std::alloc::Global;
use std::marker::Model;

/// The 512 bytes of a data block, in a box, so that a move copies only a pointer. Contracts see the list of the bytes.
pub struct Data {
    bytes: Box<[u8; 512]>,
}

// Written by hand, so that it is proved once: a derived one is expanded anew in each crate that drops the type.
impl Drop for Data {
    fn drop(self) {
        let Data { bytes } = self;
        drop(bytes);
    }
}

impl Model for Data {
    ghost use Rattle.std.specs.Prelude.{List, ℕ};

    ghost Value = { List ℕ };

    ghost view = { λ d. d.bytes.value };
}

impl Data {
    /// A copy of these bytes. NoMemory where there is none for it.
    pub fn new(alloc: Global, bytes: &[u8; 512]) -> Result<Data, Refusal>
        ensures ok { IfOk result (λ d. d ≡ bytes.now) }
        ensures err { OnErr result (result ≡ Err Refusal.NoMemory) }
    {
        match Box::new(alloc, *bytes) {
            Ok(bytes) => Ok(Data { bytes }),
            Err(_) => Err(Refusal::NoMemory),
        }
    }

    /// The bytes.
    pub fn as_array(&self) -> &[u8; 512]
        ensures { result.now ≡ self.now }
    {
        self.bytes.as_ref()
    }

    /// Whether the other has the same bytes.
    pub fn same(&self, other: &Data) -> bool
        ensures { IsTrue result ↔ (self.now ≡ other.now) }
    {
        *self.as_array() == *other.as_array()
    }
}

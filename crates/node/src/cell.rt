//! The cell at a key that has one.

use base::number::{BlockNo, Group};

/// A block of a dataset, with its borrowed contents (On-Disk Specification, chapter 2). `bytes` is Some only at level 0.
#[derive(Clone, Copy, PartialEq, Eq, Debug)]
pub struct Cell<'a> {
    pub block: BlockNo,
    pub birth: Group,
    pub bytes: Option<&'a [u8; 512]>,
}

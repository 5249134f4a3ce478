//! Writes the bytes of an image to a writer.
ghost use Rattle.std.specs.Prelude.{◌≡◌, ◌*◌, OnOk, replicate};
ghost use Rattle.std.specs.Io.KnownBytes.{Appends};

use crate::block_bytes::ZEROS;
use crate::image::Image;
use std::io;
use std::io::Write;

impl Image {
    /// Writes the bytes of all blocks, 512 for each in the order of the numbers, and does not flush the writer. `from_bytes` makes an image with
    /// the same blocks of them. It takes no memory of its own, and costs the blocks. After an error, any part of them may have been written.
    pub fn write_to<W: Write>(&self, writer: &mut W) -> io::Result<()>
        ensures { OnOk result (Appends (W.contents writer.old) (W.contents writer.new) self.now.bytes) }
    {
        let written = self.bytes();
        writer.write_all(written)?;
        write_zeros(
            writer,
            self.block_count() as usize - written.len() / ZEROS.len(),
        )
    }
}

/// Writes this many blocks of zeros.
fn write_zeros<W: Write>(writer: &mut W, blocks: usize) -> io::Result<()>
    ensures { OnOk result (Appends (W.contents writer.old) (W.contents writer.new) (replicate (512 * blocks) 0)) }
{
    for _block in 0..blocks {
        writer.write_all(&ZEROS)?;
    }
    Ok(())
}

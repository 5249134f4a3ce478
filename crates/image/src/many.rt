//! Writes of several blocks.
ghost use Rattle.std.specs.Prelude.{◌≡◌, ◌*◌, map};
ghost use Rattle.image.specs.BlockWrites.{bytes_put, images_put, written_pair};
ghost use Rattle.image.specs.Image.{IsOpen, AreAllOpen};

use crate::image::Image;
use base::number::BlockNo;
use tree::Block;

impl Image {
    /// Writes blocks one after the other, each at its number, which must not be protected. It takes no memory.
    pub fn write_all(&mut self, blocks: &[(BlockNo, [u8; 512])])
        requires { AreAllOpen self.old.kept blocks.now }
        ensures { self.new ≡ record self.old { bytes = images_put self.old.bytes (map written_pair blocks.now) } }
    {
        for block in blocks {
            self.write_contents(block.0, &block.1);
        }
    }

    /// Writes these bytes as a block.
    pub(crate) fn write_contents(&mut self, b: BlockNo, bytes: &[u8; 512])
        requires { IsOpen self.old.kept b.0 }
        ensures { self.new ≡ record self.old { bytes = bytes_put self.old.bytes (512 * b.0) bytes.now } }
    {
        self.write(b, &Block::Contents(bytes));
    }
}

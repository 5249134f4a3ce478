//! Writes of the blocks on one changed path.
ghost use Rattle.std.specs.Prelude.{◌≡◌, ◌<◌, ◌*◌, IfSome, None, length};
ghost use Rattle.image.specs.BlockWrites.{images_put};
ghost use Rattle.image.specs.Image.{IsOpen};
ghost use Rattle.image.specs.ImageBlocks.{block_at, maybe_block};
ghost use Rattle.image.specs.PathWrites.{block_on, is_same_block, inner_writes, leaf_writes, path_writes, IsPathOpen, AreSourcesApart};

use crate::block_bytes::ZEROS;
use crate::image::Image;
use node::span;
use tree::Root;

/// Whether two pointers are the same, or both None.
fn is_same(one: Option<Root>, other: Option<Root>) -> bool
    ensures { result ≡ is_same_block (maybe_block one) (maybe_block other) }
{
    match (one, other) {
        (Some(one), Some(other)) => one.block == other.block && one.birth == other.birth,
        (None, None) => true,
        _ => false,
    }
}

impl Image {
    /// Writes the bytes of a leaf, if it is there.
    fn write_leaf(&mut self, new: Option<Root>, bytes: &[u8; 512])
        requires { IfSome new (λ r. IsOpen self.old.kept r.block.0) }
        ensures { self.new ≡ record self.old { bytes = images_put self.old.bytes (leaf_writes (maybe_block new) bytes.now) } }
    {
        match new {
            Some(new) => self.write_contents(new.block, bytes),
            None => {}
        }
    }

    /// Writes an indirect block of a path, whose child at one place may have changed. `level` is the level of its children; `old` and `new`
    /// point to the block before and after the change, and `was` and `is` to the child. Where the block keeps its number, it writes the one
    /// pointer, or nothing if the child is the same. Where the block moves, it copies the bytes from the old number and writes the pointer.
    /// Where there was no block, it writes one with this pointer alone.
    fn write_inner(
        &mut self,
        level: u8,
        place: u32,
        old: Option<Root>,
        new: Option<Root>,
        was: Option<Root>,
        is: Option<Root>,
    )
        requires level { level < 5 }
        requires place { place < 16 }
        requires open { IfSome new (λ r. IsOpen self.old.kept r.block.0) }
        requires there { IfSome old (λ r. r.block.0 < length self.old.kept) }
        ensures { self.new ≡ record self.old { bytes = images_put self.old.bytes (inner_writes (block_at self.old.bytes) level place (maybe_block old) (maybe_block new) (maybe_block was) (maybe_block is)) } }
    {
        let _written = self.bytes();
        let Some(new) = new else {
            return;
        };
        let Some(old) = old else {
            self.write_contents(new.block, &ZEROS);
            self.point(new.block, place, level, is);
            return;
        };
        if old.block == new.block {
            if !is_same(was, is) {
                self.point(new.block, place, level, is);
            }
            return;
        }
        self.copy_block(old.block, new.block);
        self.point(new.block, place, level, is);
    }

    /// Writes the blocks that a change of one leaf changes. `before` and `after` point to the blocks on the path to the leaf before and after
    /// the change, indexed by level. It writes the leaf's bytes, and in a block above that keeps its number one pointer, if the child there has
    /// changed. A block above that moves is copied from its old number; no other block of the path may be written there. It takes no memory, and
    /// costs at most six blocks. It doesn't read their other children.
    pub fn write_path(
        &mut self,
        leaf: u32,
        before: &[Option<Root>; 6],
        after: &[Option<Root>; 6],
        bytes: &[u8; 512],
    )
        requires open { IsPathOpen self.old.kept (block_on before.now) (block_on after.now) }
        requires apart { AreSourcesApart (block_on before.now) (block_on after.now) }
        ensures { self.new ≡ record self.old { bytes = images_put self.old.bytes (path_writes (block_at self.old.bytes) leaf (block_on before.now) (block_on after.now) bytes.now 6) } }
    {
        let _written = self.bytes();
        self.write_leaf(after[0], bytes);
        for level in 0..5u8 {
            let place = leaf / span(u32::from(level)) % 16;
            let at = level as usize;
            self.write_inner(
                level,
                place,
                before[at + 1],
                after[at + 1],
                before[at],
                after[at],
            );
        }
    }
}

//! Looks at the lines that are in a reader's buffer, before they are answered.
ghost use Rattle.std.specs.Prelude.{◌≤◌, ◌<◌, ◌+◌};
ghost use Rattle.std.specs.Io.KnownBytes.{Keeps};

use crate::parse::number;
use crate::run::Caller;
use crate::words::next_word;
use base::text::same_bytes;
use memchr::memchr;
use model::request::ObjectBlock;
use std::io::BufRead;

/// How many lines are looked at together.
const LINES: u32 = 16;

/// How many lines pass without a look after one that was of no use.
const PAUSE: u32 = 256;

/// How many lines are to pass before the next look.
#[derive(Default, Drop)]
pub(crate) struct Ahead(u32);

impl Ahead {
    /// A line was taken from the reader's buffer. Where the buffer isn't drained, and no earlier look has seen what follows, the lines in it are
    /// looked at. They stay there, and nothing is waited for.
    pub fn pass<C: Caller, R: BufRead>(&mut self, caller: &C, reader: &mut R, is_drained: bool)
        ensures same { Keeps (R.remaining reader.old) (R.remaining reader.new) }
    {
        if self.0 > 0 {
            self.0 -= 1;
        } else if !is_drained {
            if let Ok(shown) = reader.fill_buf() {
                self.0 = look(caller, shown);
            }
        }
    }
}

/// Blocks of one file system that lines are about.
#[derive(Drop)]
struct Blocks<'a> {
    name: &'a [u8],
    blocks: [ObjectBlock; 16],
    count: usize,
}

impl<'a> Blocks<'a> {
    /// Adds the block that a line is about, unless it is another file system's.
    fn add(&mut self, line: &'a [u8])
        requires { self.old.count < 16 }
        ensures few { self.new.count ≤ self.old.count + 1 }
    {
        let Some((name, block)) = block_in(line) else {
            return;
        };
        if self.count == 0 {
            self.name = name;
        }
        if same_bytes(name, self.name) {
            self.blocks[self.count] = block;
            self.count += 1;
        }
    }
}

/// The blocks that the first lines of a buffer are about, and how many lines these are: 16, or fewer where the buffer has no more whole lines.
fn blocks_in(shown: &[u8]) -> (Blocks<'_>, u32)
    ensures few { result.0.count ≤ 16 }
{
    let mut found = Blocks {
        name: b"",
        blocks: [ObjectBlock::default(); 16],
        count: 0,
    };
    let mut rest = shown;
    for seen in 0..LINES {
        let Some(end) = memchr(b'\n', rest) else {
            return (found, seen);
        };
        found.add(&rest[..end]);
        rest = &rest[end + 1..];
    }
    (found, LINES)
}

/// Has the caller read ahead for the first lines of a buffer. Returns how many lines are to pass before the next look.
fn look<C: Caller>(caller: &C, shown: &[u8]) -> u32 {
    let (found, seen) = blocks_in(shown);
    let Blocks {
        name,
        blocks,
        count,
    } = found;
    let gains = count > 1 && caller.read_ahead(name, &blocks[..count]) > 0;
    if gains || seen < LINES { seen } else { PAUSE }
}

/// The file system and the block of a line that writes, punches or reads one. None for any other line. A line that is found to be at fault later may
/// have one too.
fn block_in(line: &[u8]) -> Option<(&[u8], ObjectBlock)> {
    let (command, rest) = next_word(line);
    let has_block = same_bytes(command, b"write")
        || same_bytes(command, b"read")
        || same_bytes(command, b"punch");
    if !has_block {
        return None;
    }
    let (name, rest) = next_word(rest?);
    let (object, rest) = next_word(rest?);
    let (block, _) = next_word(rest?);
    let (object, block) = (number(object)?, number(block)?);
    Some((name, ObjectBlock { object, block }))
}

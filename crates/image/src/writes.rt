//! What a change of a live map writes into the image.
ghost use Rattle.std.specs.Prelude.{◌≡◌, ◌≤◌, ◌<◌, IsTrue, IfOk, length, map};
ghost use Rattle.batch.specs.Updates.{first_of, IsOfTree};
ghost use Rattle.datasets.specs.Rows.{live_of};
ghost use Rattle.image.specs.BlockWrites.{images_put, writes_of, written_pair};
ghost use Rattle.image.specs.ImageBlocks.{block_at};
ghost use Rattle.image.specs.PathWrites.{block_on};
ghost use Rattle.image.specs.Updates.{IsWritten};
ghost use Rattle.tree.specs.ChangeParts.{made_pair};
ghost use Rattle.image.specs.Writes.{writes_in, MayWrite, IsBegun, IsPathOf, IsThere, IsMissing, ArePresent, ArePlaced, IsLeftBy};

use crate::contents::Contents;
use crate::image::Image;
use crate::new_blocks::blocks_of;
use base::meter::Meter;
use base::name::DsName;
use base::number::{BlockNo, Group};
use datasets::Table;
use node::span;
use std::alloc::{AllocError, Global};
use tree::{NewBlock, Root, Update};

/// The path to a leaf that one update changes: where each of its blocks is before and after the update, indexed by level.
#[derive(Drop)]
pub struct ChangedPath {
    pub leaf: u32,
    pub before: [Option<Root>; 6],
    pub after: [Option<Root>; 6],
}

impl ChangedPath {
    /// A path to leaf 0 without a block.
    pub fn new() -> ChangedPath {
        ChangedPath {
            leaf: 0,
            before: [None; 6],
            after: [None; 6],
        }
    }

    /// Becomes the path that an update of a live tree will change, read before the update is applied. It costs the logarithm of the number of file
    /// systems, and the path.
    pub fn begin(&mut self, table: &Table, name: &DsName, update: &Update, meter: &mut Meter)
        requires { IsOfTree update.now }
        ensures begun { IsBegun update.now self.new }
        ensures path { IsPathOf (live_of table.now.file_systems name.now) (first_of update.now) (block_on self.new.before) }
        ensures never_lower { meter.old ≤ meter.new }
    {
        self.leaf = first_leaf(update);
        self.before = path_in(table, name, self.leaf, meter);
    }
}

/// The blocks that a change of a live map writes into the image.
#[derive(Drop)]
pub enum Writes<'a> {
    /// Nothing: the map is unchanged.
    Idle,
    /// The path that one update changed, and the bytes of its leaf, if the leaf is there after the update. The path is boxed, so a move costs a
    /// few words.
    OnPath {
        path: Box<ChangedPath>,
        bytes: Contents<'a>,
    },
    /// These blocks, each with its number.
    Each {
        blocks: Vec<(BlockNo, [u8; 512])>,
    },
}

impl<'a> Writes<'a> {
    /// The same writes; bytes that are lent are copied. AllocError where memory is refused for the copy.
    pub fn owned(self, alloc: Global) -> Result<Writes<'static>, AllocError>
        ensures { IfOk result (λ w. w ≡ self.entry) }
    {
        match self {
            Writes::Idle => Ok(Writes::Idle),
            Writes::OnPath { path, bytes } => {
                let bytes = bytes.owned(alloc)?;
                Ok(Writes::OnPath { path, bytes })
            }
            Writes::Each { blocks } => Ok(Writes::Each { blocks }),
        }
    }
}

/// Writes the blocks into the image. It allocates nothing.
pub fn write_down(image: &mut Image, writes: &Writes<'_>)
    requires { MayWrite image.old.kept writes.now }
    ensures { image.new ≡ record image.old { bytes = images_put image.old.bytes (writes_in (block_at image.old.bytes) writes.now) } }
{
    match writes {
        Writes::Idle => {}
        Writes::OnPath { path, bytes } => {
            image.write_path(path.leaf, &path.before, &path.after, bytes.as_array())
        }
        Writes::Each { blocks } => image.write_all(blocks.as_slice()),
    }
}

/// The first leaf that an update changes. Constant time.
fn first_leaf(update: &Update) -> u32
    requires { IsOfTree update.now }
    ensures leaf { result ≡ first_of update.now }
    ensures within { result < 1048576 }
{
    match update {
        Update::Write { leaf, .. } => *leaf,
        Update::Punch(key) => key.index * span(u32::from(key.level)),
    }
}

/// Where each block on the path to a leaf of a live tree is, indexed by level; None at each level where there is no file system of this name. It
/// costs the logarithm of the number of file systems, and the path.
fn path_in(table: &Table, name: &DsName, leaf: u32, meter: &mut Meter) -> [Option<Root>; 6]
    requires { leaf < 1048576 }
    ensures path { IsPathOf (live_of table.now.file_systems name.now) leaf (block_on result) }
    ensures never_lower { meter.old ≤ meter.new }
{
    match table.find(name) {
        Some(file_system) => file_system.live().path(leaf, meter),
        None => [None; 6],
    }
}

/// Whether an update punches a block that wasn't there.
fn is_missing(before: &[Option<Root>; 6], update: &Update) -> bool
    requires { IsOfTree update.now }
    ensures missing { IsTrue result → IsMissing before.now update.now }
    ensures there { ¬ (IsTrue result) → IsThere before.now update.now }
{
    match update {
        Update::Write { .. } => false,
        Update::Punch(key) => before[key.level as usize].is_none(),
    }
}

/// The bytes that an update writes; zeros where it punches.
fn contents_of<'a>(update: &Update<'a>) -> Contents<'a>
    ensures written { IsWritten update.now result }
    ensures size { length result ≡ 512 }
{
    match update {
        Update::Write { bytes, .. } => Contents::lent(*bytes),
        Update::Punch(_) => Contents::zeros(),
    }
}

/// Sets the path to the new blocks of a group, each at its level; each level without a new block becomes None. It costs the number of new blocks.
fn place(path: &mut [Option<Root>; 6], made: &[NewBlock], group: Group)
    ensures { ArePlaced group.0 made.now (block_on path.new) }
{
    *path = [None; 6];
    for new in made {
        let level = new.key.level as usize;
        if level < 6 {
            path[level] = Some(Root {
                block: new.block,
                birth: group,
            });
        }
    }
}

/// The blocks that an update of a live tree writes into the image, once the update is applied in this group. `path` is the path that it was to
/// change, from `ChangedPath::begin`, and `made` are the new blocks that it has made. It reaches no node, and costs the new blocks.
pub fn writes_after<'a>(
    group: Group,
    update: &Update<'a>,
    path: Box<ChangedPath>,
    made: &[NewBlock],
) -> Writes<'a>
    requires of_tree { IsOfTree update.now }
    requires begun { IsBegun update.now path.value }
    ensures { IsLeftBy update.now group.0 made.now path.value.before result }
{
    if is_missing(&path.before, update) {
        return Writes::Idle;
    }
    let mut path = path;
    place(&mut path.after, made, group);
    Writes::OnPath {
        path,
        bytes: contents_of(update),
    }
}

/// The new blocks of a live tree, each with its number and the bytes to write. AllocError where memory is refused for them. It takes 516 bytes
/// a block, and costs the logarithm of the number of file systems, and for each block the nodes from the root down.
pub fn blocks_in(
    alloc: Global,
    table: &Table,
    name: &DsName,
    made: &[NewBlock],
    meter: &mut Meter,
) -> Result<Vec<(BlockNo, [u8; 512])>, AllocError>
    ensures ok { ArePresent (live_of table.now.file_systems name.now) made.now → IfOk result (λ v. map written_pair v.items ≡ writes_of (live_of table.now.file_systems name.now) (map made_pair made.now)) }
    ensures never_lower { meter.old ≤ meter.new }
{
    match table.find(name) {
        Some(file_system) => blocks_of(alloc, file_system.live(), made, meter),
        None => Ok(Vec::new(alloc)),
    }
}

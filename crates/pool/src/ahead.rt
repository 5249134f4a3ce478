//! Reads of what requests will read, before they are made.
ghost use Rattle.std.specs.Prelude.{◌≡◌, ◌⊎◌, ◌+◌, ◌<◌, ◌≤◌};
ghost use Rattle.std.specs.FinMap.{len};
ghost use Rattle.tree.specs.Ahead.{many_blocks, present_on_paths};
ghost use Rattle.datasets.specs.Rows.{live_of};
ghost use Rattle.pool.specs.Ahead.{leaves_in};

use base::name::{DsName, Target};
use datasets::Table;
use model::request::{ObjectBlock, Request};
use tree::objset::leaf_of;

/// How many requests are looked at together.
const LOOK: usize = 16;

/// How many requests are made without a look after one that was of no use.
const PAUSE: usize = 256;

/// Reads ahead the paths to these blocks of a live file system. Returns how many nodes it read.
pub(crate) fn read_ahead(table: &Table, name: &DsName, blocks: &[ObjectBlock]) -> u32
    ensures small { len (live_of table.now.file_systems name.now) < many_blocks → result ≡ 0 }
    ensures all { many_blocks ≤ len (live_of table.now.file_systems name.now) → result ≡ present_on_paths (live_of table.now.file_systems name.now) (leaves_in 16 blocks.now) }
    ensures few { result ≤ 96 }
{
    let Some(file_system) = table.find(name) else {
        return 0;
    };
    let mut leaves = [0; 16];
    let mut count = 0;
    for at in 0..blocks.len().min(16) {
        if let Some(leaf) = leaf_of(blocks[at].object, blocks[at].block) {
            leaves[count] = leaf;
            count += 1;
        }
    }
    file_system.live().read_ahead(&leaves[..count])
}

/// Blocks of one file system that requests are about.
#[derive(Drop)]
struct Blocks<'a> {
    name: Option<&'a DsName>,
    blocks: [ObjectBlock; 16],
    count: usize,
}

impl<'a> Blocks<'a> {
    /// Adds the block that a request is about, unless it is another file system's.
    fn add(&mut self, request: &'a Request)
        requires { self.old.count < 16 }
        ensures few { self.new.count ≤ self.old.count + 1 }
    {
        let Some((name, block)) = block_in(request) else {
            return;
        };
        let is_own = match self.name {
            Some(own) => own.same(name),
            None => true,
        };
        if is_own {
            self.name = Some(name);
            self.blocks[self.count] = block;
            self.count += 1;
        }
    }
}

/// The file system and the block of a request that writes, punches or reads one of a live map. None for any other.
fn block_in(request: &Request) -> Option<(&DsName, ObjectBlock)> {
    match request {
        Request::Write {
            target: Target::FileSystem(name),
            object,
            block,
            ..
        }
        | Request::Punch {
            target: Target::FileSystem(name),
            object,
            block,
        }
        | Request::Read {
            target: Target::FileSystem(name),
            object,
            block,
        } => Some((
            name,
            ObjectBlock {
                object: *object,
                block: *block,
            },
        )),
        _ => None,
    }
}

/// The blocks that the first sixteen requests of a list are about.
fn blocks_in(requests: &[Request]) -> Blocks<'_>
    ensures few { result.count ≤ 16 }
{
    let mut found = Blocks {
        name: None,
        blocks: [ObjectBlock::default(); 16],
        count: 0,
    };
    for at in 0..requests.len().min(LOOK) {
        found.add(&requests[at]);
    }
    found
}

/// Reads ahead for the first sixteen requests of a list. Returns how many requests to make before the next look: 16, or 256 where nothing was
/// read.
pub(crate) fn look(table: &Table, requests: &[Request]) -> usize
    ensures { (result ≡ 16) ⊎ (result ≡ 256) }
{
    let Blocks {
        name,
        blocks,
        count,
    } = blocks_in(requests);
    match name {
        Some(name) if count > 1 && read_ahead(table, name, &blocks[..count]) > 0 => LOOK,
        _ => PAUSE,
    }
}

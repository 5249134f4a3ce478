//! Sends of trees.
use crate::streams::{EMPTY, FIRST, SECOND, next_bytes, one_leaf_bytes};
use base::number::{BlockNo, Group, Guid};
use base::refusal::Refusal;
use lookups::{records, stream_bytes};
use std::alloc::Global;
use std::process::Abort;
use stream::Record;
use tree::{Draft, Tree, Update};
use tree_tests::ready::{is_batch, is_ready, meter};
use zalloc::{Allocator, BlockState};

/// The groups that leaves are written in.
const EARLY: Group = Group(5);

const LATE: Group = Group(7);

/// A tree, and the numbers that it has.
#[derive(Drop)]
struct Rig {
    tree: Tree,
    numbers: Allocator,
}

fn rig_of(alloc: Global) -> Result<Rig, Refusal> {
    Ok(Rig {
        tree: Tree::new(),
        numbers: Allocator::new(alloc, 50)?,
    })
}

/// Takes the numbers of new blocks. BadKey where one isn't Free.
fn take(numbers: &mut Allocator, taken: &[BlockNo]) -> Result<(), Refusal> {
    for number in taken {
        match numbers.state(*number) {
            Some(BlockState::Free) => numbers.take(*number),
            _ => return Err(Refusal::BadKey),
        }
    }
    Ok(())
}

/// Puts updates in force, if they are a batch, in a group that begins with them. BadKey where they can't be.
fn put(
    alloc: Global,
    tree: &mut Tree,
    numbers: &mut Allocator,
    updates: &[Update],
    group: Group,
) -> Result<(), Refusal> {
    if !is_batch(updates) || !is_ready(alloc, tree, numbers, group)? {
        return Err(Refusal::BadKey);
    }
    let mut draft = Draft::new(alloc);
    tree.draft(alloc, updates, group, numbers, &mut meter(), &mut draft)?;
    tree.put(alloc, updates, group, &mut draft, &mut meter())?;
    take(numbers, draft.taken.as_slice())
}

impl Rig {
    /// Writes a leaf in a group: one byte, and then zeros.
    fn write(&mut self, alloc: Global, leaf: u32, byte: u8, group: Group) -> Result<(), Refusal> {
        let mut bytes = [0; 512];
        bytes[0] = byte;
        let updates = [Update::Write {
            leaf,
            bytes: &bytes,
        }];
        put(alloc, &mut self.tree, &mut self.numbers, &updates, group)
    }
}

/// Whether the send of a tree from a group on has these bytes.
fn is_sent(
    rt: &impl Abort,
    alloc: Global,
    tree: &Tree,
    source: Option<Guid>,
    since: Group,
    target: Guid,
    bytes: &[u8],
) -> bool {
    stream_bytes(alloc, tree, source, since, target, &mut meter())
        .expect(rt, "memory for a stream")
        .as_slice()
        == bytes
}

#[test]
fn an_empty_tree_is_sent(rt: HostRuntime) {
    let alloc = rt.alloc();
    assert!(rt; is_sent(&rt, alloc, &Tree::new(), None, Group(0), FIRST, &EMPTY));
}

fn is_one_leaf_sent(rt: &impl Abort, alloc: Global, rig: &Rig) -> bool {
    let bytes = one_leaf_bytes(alloc).expect(rt, "memory");
    is_sent(
        rt,
        alloc,
        &rig.tree,
        None,
        Group(0),
        FIRST,
        bytes.as_slice(),
    )
}

fn is_next_sent(rt: &impl Abort, alloc: Global, rig: &Rig) -> bool {
    let bytes = next_bytes(alloc).expect(rt, "memory");
    is_sent(
        rt,
        alloc,
        &rig.tree,
        Some(FIRST),
        EARLY,
        SECOND,
        bytes.as_slice(),
    )
}

#[test]
fn a_leaf_is_sent_and_sent_again(rt: HostRuntime) {
    let alloc = rt.alloc();
    let mut rig = rig_of(alloc).expect(&rt, "memory");
    rig.write(alloc, 0, b'a', EARLY).expect(&rt, "a leaf");
    assert!(rt; is_one_leaf_sent(&rt, alloc, &rig));
    rig.write(alloc, 0, b'b', LATE).expect(&rt, "a leaf");
    assert!(rt; is_next_sent(&rt, alloc, &rig));
}

/// How many records a send from a group on has, the leaf that it writes first, and how many nodes it reaches.
fn counts(alloc: Global, tree: &Tree, since: Group) -> Result<(usize, u32, u64), Refusal> {
    let mut steps = meter();
    let records = records(alloc, tree, since, &mut steps)?;
    let mut first = u32::MAX;
    for record in records.as_slice() {
        if let Record::Write { leaf, .. } = record {
            first = first.min(*leaf);
        }
    }
    Ok((records.len(), first, steps.count()))
}

/// Leaf 16 stands in another node than leaf 0: beside it are 15 absent leaves, above it 14 absent places and the older node, and
/// 15 absent places in each of the three nodes above. Each node that the walk comes to is reached once for its birth. A young one above the
/// leaves is reached once more for each of its sixteen places, and a young leaf once more for its bytes: from 0, 8 + 6 * 16 + 2; from the group
/// of the first write, 7 + 5 * 16 + 1, as the older leaf's node goes no further than its birth.
#[test]
fn what_the_source_has_is_not_sent(rt: HostRuntime) {
    let alloc = rt.alloc();
    let mut rig = rig_of(alloc).expect(&rt, "memory");
    rig.write(alloc, 0, b'a', EARLY).expect(&rt, "a leaf");
    rig.write(alloc, 16, b'b', LATE).expect(&rt, "a leaf");
    let all = counts(alloc, &rig.tree, Group(0)).expect(&rt, "memory");
    let later = counts(alloc, &rig.tree, EARLY).expect(&rt, "memory");
    let none = counts(alloc, &rig.tree, LATE).expect(&rt, "memory");
    assert!(rt; all == (91, 0, 106) && later == (75, 16, 88) && none == (0, u32::MAX, 1));
}

//! Reads of the paths to several leaves, side by side.
ghost use Rattle.std.specs.Prelude.{◌≡◌, ◌+◌, ◌<◌, ◌≤◌, ℕ, Some, None, suc, min, length, nat_lt, slice_index, slice_index_or, if◌then◌else◌};
ghost use Rattle.std.specs.FinMap.{len};
ghost use Rattle.node.specs.Kid.{IsKid};
ghost use Rattle.node.specs.Node.{inner_part, root_part, part_of_node};
ghost use Rattle.tree.specs.Ahead.{many_blocks, present_on_paths, nodes_to};

use crate::tree::Tree;
use base::number::Group;
use node::{Inner, Level, Root};

/// A tree of fewer blocks isn't read ahead, since a processor's cache has it (profile).
const MANY_BLOCKS: u32 = 4096;

/// A tree has leaves 0 to 1048575 (profile).
const LEAF_LIMIT: u32 = 1_048_576;

/// The root, for each of the first sixteen leaves that a tree can have. None for any other.
fn roots_to<'n>(root: &'n Root, leaves: &[u32]) -> [Option<&'n Root>; 16]
    ensures each { (i : ℕ) → i < min 16 (length leaves.now) → part_of_node root_part (slice_index_or result i None) ≡ if nat_lt (slice_index leaves.now i) 1048576 then Some (root_part root.now) else None }
    ensures rest { (i : ℕ) → min 16 (length leaves.now) ≤ i → slice_index_or result i None ≡ None }
{
    let mut roots = [None; 16];
    for at in 0..leaves.len().min(16) {
        if leaves[at] < LEAF_LIMIT {
            roots[at] = Some(root);
        }
    }
    roots
}

/// Reads these nodes of one level, and answers those below them on the paths to the leaves. The node and the leaf at an index are of one path,
/// which ends where there is no node. `level` is that of the nodes below. `there` rises by how many nodes were read: it counts a node that is no
/// younger than the root, born in `newest`. No node is younger, but that test needs a read of the node, which a compiler can't leave out.
fn read_level<'n, C: Level>(
    nodes: [Option<&'n Inner<C>>; 16],
    leaves: &[u32],
    level: u32,
    newest: Group,
    there: &mut u32,
) -> [Option<&'n C>; 16]
    requires low { level < 5 }
    requires few { there.old ≤ 80 }
    requires sound { (i : ℕ) → IsKid (suc C.height) newest.0 (part_of_node (inner_part C.part) (slice_index_or nodes i None)) }
    ensures sound { (i : ℕ) → IsKid C.height newest.0 (part_of_node C.part (slice_index_or result i None)) }
    ensures counted { there.new + nodes_to C.part level (min 16 (length leaves.now)) result leaves.now ≡ there.old + nodes_to (inner_part C.part) (suc level) (min 16 (length leaves.now)) nodes.entry leaves.now }
    ensures few { there.new ≤ there.old + 16 }
{
    let mut below = [None; 16];
    for at in 0..leaves.len().min(16) {
        if let Some(node) = nodes[at] {
            below[at] = node.kid(((leaves[at] >> (4 * level)) % 16) as usize);
            if node.birth.0 <= newest.0 {
                *there += 1;
            }
        }
    }
    below
}

impl Tree {
    /// Reads the nodes on the paths to the first sixteen of these leaves: all paths' nodes of one level, and then those of the next. A path
    /// waits for memory at each level, and here the paths wait together. A request for one of these leaves that follows finds its nodes in the
    /// processor's cache. No meter counts this, since that request's meter does. Nothing is read of a tree of fewer than 4,096 blocks. It costs
    /// the nodes that it reads. Returns how many these were, a node once for each path that it is on.
    pub fn read_ahead(&self, leaves: &[u32]) -> u32
        ensures small { len self.now < many_blocks → result ≡ 0 }
        ensures all { many_blocks ≤ len self.now → result ≡ present_on_paths self.now leaves.now }
        ensures few { result ≤ 96 }
    {
        if self.count < MANY_BLOCKS {
            return 0;
        }
        let Some(root) = &self.root else {
            return 0;
        };
        let newest = root.birth;
        let mut there = 0;
        let nodes = roots_to(root, leaves);
        let nodes = read_level(nodes, leaves, 4, newest, &mut there);
        let nodes = read_level(nodes, leaves, 3, newest, &mut there);
        let nodes = read_level(nodes, leaves, 2, newest, &mut there);
        let nodes = read_level(nodes, leaves, 1, newest, &mut there);
        let nodes = read_level(nodes, leaves, 0, newest, &mut there);
        for at in 0..leaves.len().min(16) {
            if let Some(leaf) = nodes[at] {
                if leaf.birth.0 <= newest.0 {
                    there += 1;
                }
            }
        }
        there
    }
}

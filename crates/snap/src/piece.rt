//! Whole pieces of what is to be freed, and how blocks are taken from them.
ghost use Rattle.std.specs.Prelude.{◌≡◌, ◌≤◌, ◌++◌, ◌⊎◌, [], length, take, drop, IfOk, OnOk, OnErr};
ghost use Rattle.base.specs.declared.refusal.Refusal.{Refusal};
ghost use Rattle.snap.specs.Members.{dead_blocks, piece_blocks, members, tops_after};

use crate::tops::take_tops;
use base::meter::{Meter, SegMeter};
use base::number::{Dead, Group};
use base::refusal::Refusal;
use deadlist::deadlist::Deadlist;
use shared_list::SharedList;
use std::alloc::Global;
use std::mem;
use std::sync::Arc;
use tree::Subtree;

/// The first capacity of a vector of subtrees that are taken apart. So many subtrees fit into 1,032 bytes, the largest block that glibc's
/// `malloc` caches. A tree leaves at most 76 subtrees.
const ROOM: usize = 43;

/// A piece has at most this many subtrees (profile). A slice takes references to subtrees only of the pieces that it takes apart.
const PIECE_TOPS: usize = 12;

/// A piece of what is to be freed.
#[derive(Drop)]
pub(crate) enum Piece {
    /// The blocks of subtrees that were born after the cut. Those of the last subtree come first.
    Trees { tops: Vec<Subtree>, cut: Group },

    /// The blocks of the entries of a dead list from the index `first` on.
    Dead { list: Arc<Deadlist>, first: u64 },
}

/// A copy of these subtrees, which shares their nodes, with room for more.
fn copy_of_tops(alloc: Global, tops: &[Subtree]) -> Result<Vec<Subtree>, Refusal>
    ensures ok { IfOk result (λ v. v.items ≡ tops.now) }
    ensures err { OnErr result (result ≡ Err Refusal.NoMemory) }
{
    let mut copies = Vec::with_capacity(alloc, ROOM)?;
    for top in tops {
        copies.push(top.copy()?)?;
    }
    Ok(copies)
}

/// Adds these subtrees after the pieces, at most `PIECE_TOPS` in each new piece.
fn keep_tops(
    pieces: &mut SharedList<Piece>,
    alloc: Global,
    tops: Vec<Subtree>,
    cut: Group,
) -> Result<(), Refusal>
    ensures blocks { OnOk result (members pieces.new ≡ tops_after cut.0 tops.items ++ members pieces.old) }
    ensures none { tops.items ≡ [] → pieces.new ≡ pieces.old }
    ensures err { OnErr result (result ≡ Err Refusal.NoMemory) }
{
    if tops.is_empty() {
        return Ok(());
    }
    let mut few = Vec::with_capacity(alloc, PIECE_TOPS)?;
    for top in tops {
        if few.len() >= PIECE_TOPS {
            let tops = mem::replace(&mut few, Vec::with_capacity(alloc, PIECE_TOPS)?);
            pieces.push(Piece::Trees { tops, cut })?;
        }
        few.push(top)?;
    }
    pieces.push(Piece::Trees { tops: few, cut })?;
    Ok(())
}

/// Adds `count` entries of a dead list, from the index `first` on, to the taken blocks, or all where there are fewer.
fn take_entries(
    list: &Deadlist,
    first: u64,
    count: u64,
    taken: &mut Vec<Dead>,
    segments: &mut SegMeter,
) -> Result<(), Refusal>
    ensures entries { OnOk result (taken.new.items ≡ taken.old.items ++ take count (drop first list.now.entries)) }
    ensures err { OnErr result (result ≡ Err Refusal.NoMemory) }
    ensures never_lower { segments.old ≤ segments.new }
{
    let mut entries = list.iter_from(first, segments);
    for _ in 0..count {
        let Some(dead) = entries.next() else {
            break;
        };
        taken.push(dead)?;
    }
    Ok(())
}

/// Takes entries of a dead list, from the index `first` on, until `wanted` blocks are taken. If entries are left, adds the list with these after
/// the pieces.
fn take_dead(
    pieces: &mut SharedList<Piece>,
    list: &Arc<Deadlist>,
    first: u64,
    wanted: u64,
    taken: &mut Vec<Dead>,
    segments: &mut SegMeter,
) -> Result<(), Refusal>
    requires { length taken.old.items ≤ wanted }
    ensures blocks { OnOk result
        (dead_blocks taken.new.items ++ members pieces.new
        ≡ dead_blocks taken.old.items ++ (dead_blocks (drop first list.now.value.entries) ++ members pieces.old)) }
    ensures few { OnOk result (length taken.new.items ≤ wanted) }
    ensures done { OnOk result ((length taken.new.items ≡ wanted) ⊎ (pieces.new ≡ pieces.old)) }
    ensures err { OnErr result (result ≡ Err Refusal.NoMemory) }
    ensures never_lower { segments.old ≤ segments.new }
{
    let left = list.len().saturating_sub(first);
    let count = left.min(wanted - taken.len() as u64);
    take_entries(list, first, count, taken, segments)?;
    if count >= left {
        return Ok(());
    }
    let list = Arc::try_clone(list)?;
    let first = first + count;
    pieces.push(Piece::Dead { list, first })?;
    Ok(())
}

/// Takes blocks of a piece until `wanted` blocks are taken. Adds what is left of the piece after the pieces.
fn take_piece(
    pieces: &mut SharedList<Piece>,
    alloc: Global,
    piece: &Piece,
    wanted: u64,
    taken: &mut Vec<Dead>,
    meter: &mut Meter,
    segments: &mut SegMeter,
) -> Result<(), Refusal>
    requires { length taken.old.items ≤ wanted }
    ensures blocks { OnOk result
        (dead_blocks taken.new.items ++ members pieces.new
        ≡ dead_blocks taken.old.items ++ (piece_blocks piece.now ++ members pieces.old)) }
    ensures few { OnOk result (length taken.new.items ≤ wanted) }
    ensures done { OnOk result ((length taken.new.items ≡ wanted) ⊎ (pieces.new ≡ pieces.old)) }
    ensures err { OnErr result (result ≡ Err Refusal.NoMemory) }
    ensures never_lower { meter.old ≤ meter.new }
    ensures segments_never_lower { segments.old ≤ segments.new }
{
    match piece {
        Piece::Trees { tops, cut } => {
            let mut tops = copy_of_tops(alloc, tops)?;
            take_tops(&mut tops, *cut, wanted, taken, meter)?;
            keep_tops(pieces, alloc, tops, *cut)
        }
        Piece::Dead { list, first } => take_dead(pieces, list, *first, wanted, taken, segments),
    }
}

/// Takes `wanted` blocks from the pieces, from the last piece first.
pub(crate) fn take_blocks(
    pieces: &mut SharedList<Piece>,
    alloc: Global,
    wanted: u64,
    meter: &mut Meter,
    segments: &mut SegMeter,
) -> Result<Vec<Dead>, Refusal>
    requires { wanted ≤ length (members pieces.old) }
    ensures blocks { IfOk result (λ taken. dead_blocks taken.items ++ members pieces.new ≡ members pieces.old) }
    ensures count { IfOk result (λ taken. length taken.items ≡ wanted) }
    ensures err { OnErr result (result ≡ Err Refusal.NoMemory) }
    ensures never_lower { meter.old ≤ meter.new }
    ensures segments_never_lower { segments.old ≤ segments.new }
{
    let mut taken = Vec::with_capacity(alloc, wanted as usize)?;
    while (taken.len() as u64) < wanted {
        let Some(piece) = pieces.pop_shared()? else {
            return Ok(taken);
        };
        take_piece(pieces, alloc, &piece, wanted, &mut taken, meter, segments)?;
    }
    Ok(taken)
}

//! Reads the request of a line.
ghost use Rattle.std.specs.Prelude.{◌≡◌, ◌≤◌, ◌^◌, ℕ, List, ◌*◌, false, Some, None, IfSome, codes, length, replicate};
ghost use Rattle.std.specs.Str.{bytes_eq};
ghost use Rattle.std.specs.Bool.{OnTrue, OnFalse};
ghost use Rattle.std.specs.Option.{option_copied};
ghost use Rattle.hex.specs.Hex.{decode_of};
ghost use Rattle.base.specs.Reading.{Reads};
ghost use Rattle.model.specs.declared.request.Request.{Request};
ghost use Rattle.script.specs.Words.{words_of, number_of_word, number_up_to, number_without_zero, number_from, block_of_word, filled, pool_property_of_word};
ghost use Rattle.script.specs.Meaning.{request_of, command_of, clone_of, tag_request_of, bookmark_of, name_request_of, write_of, written_of, block_request_of, free_object_of, snap_names_of, snapshots_of, snapshot_of, rollback_of, destroyed_of, destroy_of, number_request_of, target_request_of, pool_get_of, bare};
ghost use Rattle.script.specs.Reading.{words_left, Means, MeansBlock, MeansTagged, MeansTarget, MeansName, MeansNumber, MeansBare};

use crate::lines::LINE_LIMIT;
use crate::settings::set;
use crate::space::{get, would_free};
use crate::spare::SpareTarget;
use crate::streams::{receive, send};
use crate::words::{has_only_words, leading_option, next_word, one, three, three_and_more, two};
use base::data::Data;
use base::name::{DsName, MarkName, SnapName, Tag, Target};
use base::refusal::Refusal;
use base::text::same_bytes;
use model::destroy_target::DestroyTarget;
use model::request::{PoolProperty, Request};
use model::snap_names::SnapNames;
use std::alloc::Global;

/// The request of a line, or the refusal of a faulty line. NoMemory where its names or its bytes can't be allocated. Its target has the memory of the
/// spare one where that has the same name.
#[tactic(auto, unfolding(crate::specs::Meaning::request_of, crate::specs::Meaning::words_meaning, crate::specs::Meaning::command_of, crate::specs::Lines::line_limit))]
pub(crate) fn request_at(
    alloc: Global,
    spare: &mut SpareTarget,
    line: &[u8],
) -> Result<Request, Refusal>
    ensures { Means result (request_of line.now) }
{
    if line.len() > LINE_LIMIT {
        return Err(Refusal::BadLine);
    }
    if !has_only_words(line) {
        return Err(Refusal::BadLine);
    }
    let (command, operands) = next_word(line);
    if same_bytes(command, b"create") {
        return create(alloc, operands);
    } else if same_bytes(command, b"write") {
        return write(alloc, spare, operands);
    } else if same_bytes(command, b"punch") {
        return punch(alloc, spare, operands);
    } else if same_bytes(command, b"rmobj") {
        return free_object(alloc, spare, operands);
    } else if same_bytes(command, b"snapshot") {
        return snapshot(alloc, operands);
    } else if same_bytes(command, b"read") {
        return read(alloc, spare, operands);
    } else if same_bytes(command, b"get") {
        return get(alloc, spare, operands);
    }
    other_command_at(alloc, spare, command, operands)
}

// Reads the other commands. It and the readers that it calls are functions of their own: each call takes room on the stack, and a function fills
// its whole stack frame with zeros first. Each branch returns at once: the value of an `else if` is copied out of each one that encloses it.
#[inline(never)]
#[tactic(auto, unfolding(crate::specs::Meaning::command_of))]
fn other_command_at(
    alloc: Global,
    spare: &mut SpareTarget,
    command: &[u8],
    operands: Option<&[u8]>,
) -> Result<Request, Refusal>
    requires create { bytes_eq command.now (codes "create") ≡ false }
    requires write { bytes_eq command.now (codes "write") ≡ false }
    requires punch { bytes_eq command.now (codes "punch") ≡ false }
    requires rmobj { bytes_eq command.now (codes "rmobj") ≡ false }
    requires snapshot { bytes_eq command.now (codes "snapshot") ≡ false }
    requires read { bytes_eq command.now (codes "read") ≡ false }
    requires get { bytes_eq command.now (codes "get") ≡ false }
    ensures { Means result (command_of command.now (words_left (option_copied operands.entry))) }
{
    if same_bytes(command, b"pget") {
        return pool_get(operands);
    } else if same_bytes(command, b"list") {
        return list(operands);
    } else if same_bytes(command, b"rollback") {
        return rollback(alloc, spare, operands);
    } else if same_bytes(command, b"destroy") {
        return destroy(alloc, spare, operands);
    } else if same_bytes(command, b"clone") {
        return clone(alloc, spare, operands);
    } else if same_bytes(command, b"promote") {
        return promote(alloc, operands);
    } else if same_bytes(command, b"slice") {
        return slice(operands);
    } else if same_bytes(command, b"sync") {
        return sync(operands);
    } else if same_bytes(command, b"abandon") {
        return abandon(operands);
    } else if same_bytes(command, b"view") {
        return open_view(alloc, spare, operands);
    } else if same_bytes(command, b"unview") {
        return close_view(operands);
    } else if same_bytes(command, b"hold") {
        return hold(alloc, spare, operands);
    } else if same_bytes(command, b"release") {
        return release(alloc, spare, operands);
    } else if same_bytes(command, b"holds") {
        return holds(alloc, spare, operands);
    } else if same_bytes(command, b"bookmark") {
        return bookmark(alloc, spare, operands);
    } else if same_bytes(command, b"wouldfree") {
        return would_free(alloc, operands);
    } else if same_bytes(command, b"set") {
        return set(alloc, operands);
    } else if same_bytes(command, b"send") {
        return send(alloc, spare, operands);
    } else if same_bytes(command, b"receive") {
        return receive(alloc, operands);
    }
    Err(Refusal::BadLine)
}

// The name of a request whose only operand is a name.
#[tactic(auto, unfolding(crate::specs::Meaning::name_request_of))]
fn lone_name(alloc: Global, operands: Option<&[u8]>) -> Result<DsName, Refusal>
    ensures { (request : List ℕ → Request) → MeansName result (words_left (option_copied operands.entry)) request }
{
    let name = one(operands).ok_or(Refusal::BadLine)?;
    DsName::read(alloc, name)
}

#[inline(never)]
fn create(alloc: Global, operands: Option<&[u8]>) -> Result<Request, Refusal>
    ensures { Means result (name_request_of Request.Create (words_left (option_copied operands.entry))) }
{
    let name = lone_name(alloc, operands)?;
    Ok(Request::Create { name })
}

#[inline(never)]
fn promote(alloc: Global, operands: Option<&[u8]>) -> Result<Request, Refusal>
    ensures { Means result (name_request_of Request.Promote (words_left (option_copied operands.entry))) }
{
    let name = lone_name(alloc, operands)?;
    Ok(Request::Promote { name })
}

#[inline(never)]
#[tactic(auto, unfolding(crate::specs::Meaning::clone_of))]
fn clone(
    alloc: Global,
    spare: &mut SpareTarget,
    operands: Option<&[u8]>,
) -> Result<Request, Refusal>
    ensures { Means result (clone_of (words_left (option_copied operands.entry))) }
{
    let (target, name) = two(operands).ok_or(Refusal::BadLine)?;
    let target = spare.target(alloc, target)?;
    let name = DsName::read(alloc, name)?;
    Ok(Request::Clone { target, name })
}

// The tag and the target of a request that has these two operands.
#[tactic(auto, unfolding(crate::specs::Meaning::tag_request_of))]
fn tagged(
    alloc: Global,
    spare: &mut SpareTarget,
    operands: Option<&[u8]>,
) -> Result<(Tag, Target), Refusal>
    ensures { (request : List ℕ → Target → Request) → MeansTagged result (words_left (option_copied operands.entry)) request }
{
    let (tag, target) = two(operands).ok_or(Refusal::BadLine)?;
    let tag = Tag::read(alloc, tag)?;
    let target = spare.target(alloc, target)?;
    Ok((tag, target))
}

#[inline(never)]
fn hold(alloc: Global, spare: &mut SpareTarget, operands: Option<&[u8]>) -> Result<Request, Refusal>
    ensures { Means result (tag_request_of Request.Hold (words_left (option_copied operands.entry))) }
{
    let (tag, target) = tagged(alloc, spare, operands)?;
    Ok(Request::Hold { tag, target })
}

#[inline(never)]
fn release(
    alloc: Global,
    spare: &mut SpareTarget,
    operands: Option<&[u8]>,
) -> Result<Request, Refusal>
    ensures { Means result (tag_request_of Request.Release (words_left (option_copied operands.entry))) }
{
    let (tag, target) = tagged(alloc, spare, operands)?;
    Ok(Request::Release { tag, target })
}

#[inline(never)]
#[tactic(auto, unfolding(crate::specs::Meaning::bookmark_of))]
fn bookmark(
    alloc: Global,
    spare: &mut SpareTarget,
    operands: Option<&[u8]>,
) -> Result<Request, Refusal>
    ensures { Means result (bookmark_of (words_left (option_copied operands.entry))) }
{
    let (target, mark) = two(operands).ok_or(Refusal::BadLine)?;
    let target = spare.target(alloc, target)?;
    let mark = MarkName::read(alloc, mark)?;
    Ok(Request::Bookmark { target, mark })
}

#[inline(never)]
fn write(
    alloc: Global,
    spare: &mut SpareTarget,
    operands: Option<&[u8]>,
) -> Result<Request, Refusal>
    ensures { Means result (write_of (words_left (option_copied operands.entry))) }
{
    let Some((target, object, block, digits)) = three_and_more(operands) else {
        return Err(Refusal::BadLine);
    };
    write_at(alloc, spare, target, object, block, digits)
}

// A write to a block. Where another word follows the digits, `digits` has a space, which is no digit, so the line is refused.
#[tactic(auto, unfolding(crate::specs::Meaning::written_of))]
fn write_at(
    alloc: Global,
    spare: &mut SpareTarget,
    target: &[u8],
    object: &[u8],
    block: &[u8],
    digits: &[u8],
) -> Result<Request, Refusal>
    ensures { Means result (written_of target.now object.now block.now digits.now) }
{
    let object = number(object).ok_or(Refusal::BadLine)?;
    let block = number(block).ok_or(Refusal::BadLine)?;
    let mut bytes = [0u8; 512];
    if !fill_block(digits, &mut bytes) {
        return Err(Refusal::BadLine);
    }
    let target = spare.target(alloc, target)?;
    let bytes = Data::new(alloc, &bytes)?;
    Ok(Request::Write {
        target,
        object,
        block,
        bytes,
    })
}

// The target, object and block of a request for one block.
#[tactic(auto, unfolding(crate::specs::Meaning::block_request_of))]
fn block_place(
    alloc: Global,
    spare: &mut SpareTarget,
    operands: Option<&[u8]>,
) -> Result<(Target, u32, u32), Refusal>
    ensures { (request : Target → ℕ → ℕ → Request) → MeansBlock result (words_left (option_copied operands.entry)) request }
{
    let (target, object, block) = three(operands).ok_or(Refusal::BadLine)?;
    let object = number(object).ok_or(Refusal::BadLine)?;
    let block = number(block).ok_or(Refusal::BadLine)?;
    let target = spare.target(alloc, target)?;
    Ok((target, object, block))
}

fn read(alloc: Global, spare: &mut SpareTarget, operands: Option<&[u8]>) -> Result<Request, Refusal>
    ensures { Means result (block_request_of Request.Read (words_left (option_copied operands.entry))) }
{
    let (target, object, block) = block_place(alloc, spare, operands)?;
    Ok(Request::Read {
        target,
        object,
        block,
    })
}

fn punch(
    alloc: Global,
    spare: &mut SpareTarget,
    operands: Option<&[u8]>,
) -> Result<Request, Refusal>
    ensures { Means result (block_request_of Request.Punch (words_left (option_copied operands.entry))) }
{
    let (target, object, block) = block_place(alloc, spare, operands)?;
    Ok(Request::Punch {
        target,
        object,
        block,
    })
}

#[inline(never)]
#[tactic(auto, unfolding(crate::specs::Meaning::free_object_of))]
fn free_object(
    alloc: Global,
    spare: &mut SpareTarget,
    operands: Option<&[u8]>,
) -> Result<Request, Refusal>
    ensures { Means result (free_object_of (words_left (option_copied operands.entry))) }
{
    let (target, object) = two(operands).ok_or(Refusal::BadLine)?;
    let object = number(object).ok_or(Refusal::BadLine)?;
    let target = spare.target(alloc, target)?;
    Ok(Request::FreeObject { target, object })
}

#[inline(never)]
#[tactic(auto, unfolding(crate::specs::Meaning::snapshot_of))]
fn snapshot(alloc: Global, operands: Option<&[u8]>) -> Result<Request, Refusal>
    ensures { Means result (snapshot_of (words_left (option_copied operands.entry))) }
{
    let (recursive, rest) = leading_option(operands, b"-r");
    snapshots(alloc, rest, recursive)
}

// A request for snapshots of these names, one or more.
#[tactic(auto, using(crate::proofs::SnapWords::snapshots_asked), unfolding(crate::specs::Meaning::snapshots_of))]
fn snapshots(alloc: Global, operands: Option<&[u8]>, recursive: bool) -> Result<Request, Refusal>
    ensures { Means result (snapshots_of recursive (words_left (option_copied operands.entry))) }
{
    let Some(words) = operands else {
        return Err(Refusal::BadLine);
    };
    let names = snap_names(alloc, words)?;
    Ok(Request::Snapshot { names, recursive })
}

/// The snapshots that the words name, in their order; the words are separated by single spaces. BadName where one of them isn't a snapshot's
/// name, NoMemory where there is no memory for the names.
#[tactic(auto, using(crate::proofs::SnapWords::names_kept))]
pub fn snap_names(alloc: Global, words: &[u8]) -> Result<SnapNames, Refusal>
    ensures { Reads result (snap_names_of (words_of words.now)) }
{
    let mut names = Vec::new(alloc);
    let mut left = Some(words);
    while let Some(more) = left {
        let (word, rest) = next_word(more);
        names.push(SnapName::read(alloc, word)?)?;
        left = rest;
    }
    Ok(SnapNames::from(names))
}

/// The target of a request whose only operand is a target.
#[tactic(auto, unfolding(crate::specs::Meaning::target_request_of))]
pub(crate) fn lone_target(
    alloc: Global,
    spare: &mut SpareTarget,
    operands: Option<&[u8]>,
) -> Result<Target, Refusal>
    ensures { (request : Target → Request) → MeansTarget result (words_left (option_copied operands.entry)) request }
{
    let target = one(operands).ok_or(Refusal::BadLine)?;
    spare.target(alloc, target)
}

#[inline(never)]
#[tactic(auto, unfolding(crate::specs::Meaning::rollback_of))]
fn rollback(
    alloc: Global,
    spare: &mut SpareTarget,
    operands: Option<&[u8]>,
) -> Result<Request, Refusal>
    ensures { Means result (rollback_of (words_left (option_copied operands.entry))) }
{
    let (later, rest) = leading_option(operands, b"-r");
    let target = lone_target(alloc, spare, rest)?;
    Ok(Request::Rollback { target, later })
}

#[inline(never)]
#[tactic(auto, unfolding(crate::specs::Meaning::destroy_of))]
fn destroy(
    alloc: Global,
    spare: &mut SpareTarget,
    operands: Option<&[u8]>,
) -> Result<Request, Refusal>
    ensures { Means result (destroy_of (words_left (option_copied operands.entry))) }
{
    let (recursive, rest) = leading_option(operands, b"-r");
    destroyed(alloc, spare, rest, recursive)
}

// A destroy of one target, deferred or not.
#[tactic(auto, unfolding(crate::specs::Meaning::destroyed_of))]
fn destroyed(
    alloc: Global,
    spare: &mut SpareTarget,
    operands: Option<&[u8]>,
    recursive: bool,
) -> Result<Request, Refusal>
    ensures { Means result (destroyed_of recursive (words_left (option_copied operands.entry))) }
{
    let (defer, rest) = leading_option(operands, b"-d");
    let target = lone_target(alloc, spare, rest)?;
    Ok(Request::Destroy {
        target: DestroyTarget::of(alloc, target)?,
        recursive,
        defer,
    })
}

// The number of a request whose only operand is a number.
#[tactic(auto, unfolding(crate::specs::Meaning::number_request_of))]
fn lone_number(operands: Option<&[u8]>) -> Result<u64, Refusal>
    ensures { (request : ℕ → Request) → MeansNumber result (words_left (option_copied operands.entry)) request }
{
    let word = one(operands).ok_or(Refusal::BadLine)?;
    let number = number(word).ok_or(Refusal::BadLine)?;
    Ok(u64::from(number))
}

#[inline(never)]
fn slice(operands: Option<&[u8]>) -> Result<Request, Refusal>
    ensures { Means result (number_request_of Request.Slice (words_left (option_copied operands.entry))) }
{
    let count = lone_number(operands)?;
    Ok(Request::Slice { count })
}

#[inline(never)]
fn open_view(
    alloc: Global,
    spare: &mut SpareTarget,
    operands: Option<&[u8]>,
) -> Result<Request, Refusal>
    ensures { Means result (target_request_of Request.OpenView (words_left (option_copied operands.entry))) }
{
    let target = lone_target(alloc, spare, operands)?;
    Ok(Request::OpenView { target })
}

#[inline(never)]
fn holds(
    alloc: Global,
    spare: &mut SpareTarget,
    operands: Option<&[u8]>,
) -> Result<Request, Refusal>
    ensures { Means result (target_request_of Request.Holds (words_left (option_copied operands.entry))) }
{
    let target = lone_target(alloc, spare, operands)?;
    Ok(Request::Holds { target })
}

#[inline(never)]
fn close_view(operands: Option<&[u8]>) -> Result<Request, Refusal>
    ensures { Means result (number_request_of Request.CloseView (words_left (option_copied operands.entry))) }
{
    let view = lone_number(operands)?;
    Ok(Request::CloseView { view })
}

#[inline(never)]
#[tactic(auto, unfolding(crate::specs::Meaning::pool_get_of))]
fn pool_get(operands: Option<&[u8]>) -> Result<Request, Refusal>
    ensures { Means result (pool_get_of (words_left (option_copied operands.entry))) }
{
    let property = one(operands).ok_or(Refusal::BadLine)?;
    let property = pool_property_named(property).ok_or(Refusal::BadLine)?;
    Ok(Request::PoolGet { property })
}

// Checks that a request has no operand.
fn no_operand(operands: Option<&[u8]>) -> Result<(), Refusal>
    ensures { (request : Request) → MeansBare result (words_left (option_copied operands.entry)) request }
{
    if let Some(more) = operands {
        let _ = next_word(more);
        return Err(Refusal::BadLine);
    }
    Ok(())
}

#[inline(never)]
fn list(operands: Option<&[u8]>) -> Result<Request, Refusal>
    ensures { Means result (bare Request.List (words_left (option_copied operands.entry))) }
{
    no_operand(operands)?;
    Ok(Request::List)
}

#[inline(never)]
fn sync(operands: Option<&[u8]>) -> Result<Request, Refusal>
    ensures { Means result (bare Request.Sync (words_left (option_copied operands.entry))) }
{
    no_operand(operands)?;
    Ok(Request::Sync)
}

#[inline(never)]
fn abandon(operands: Option<&[u8]>) -> Result<Request, Refusal>
    ensures { Means result (bare Request.Abandon (words_left (option_copied operands.entry))) }
{
    no_operand(operands)?;
    Ok(Request::Abandon)
}

#[tactic(auto, unfolding(crate::specs::Words::pool_property_of_word))]
fn pool_property_named(word: &[u8]) -> Option<PoolProperty>
    ensures { result ≡ pool_property_of_word word.now }
{
    if same_bytes(word, b"size") {
        Some(PoolProperty::Size)
    } else if same_bytes(word, b"allocated") {
        Some(PoolProperty::Allocated)
    } else if same_bytes(word, b"free") {
        Some(PoolProperty::Free)
    } else if same_bytes(word, b"freeing") {
        Some(PoolProperty::Freeing)
    } else if same_bytes(word, b"waiting") {
        Some(PoolProperty::Waiting)
    } else if same_bytes(word, b"group") {
        Some(PoolProperty::Group)
    } else {
        None
    }
}

/// The number that a word spells: decimal digits without a leading zero, at most 2^32 - 1 (profile).
#[tactic(auto, unfolding(crate::specs::Words::number_of_word))]
pub fn number(word: &[u8]) -> Option<u32>
    ensures { result ≡ number_of_word word.now }
{
    match number_up_to(word, u64::from(u32::MAX)) {
        Some(number) => Some(number as u32),
        None => None,
    }
}

/// The number that a word spells: decimal digits without a leading zero, at most `most` (profile).
#[tactic(auto, unfolding(crate::specs::Words::number_up_to))]
pub(crate) fn number_up_to(word: &[u8], most: u64) -> Option<u64>
    requires { most ≤ 2 ^ 60 }
    ensures value { result ≡ number_up_to most word.now }
    ensures within { IfSome result (λ n. n ≤ most) }
{
    if same_bytes(word, b"0") {
        return Some(0);
    }
    number_over_zero(word, most)
}

fn number_over_zero(word: &[u8], most: u64) -> Option<u64>
    requires { most ≤ 2 ^ 60 }
    ensures value { result ≡ number_without_zero most word.now }
    ensures within { IfSome result (λ n. n ≤ most) }
{
    match word {
        [] => None,
        [b'0', ..] => None,
        _ => digits(word, most),
    }
}

fn digits(word: &[u8], most: u64) -> Option<u64>
    requires { most ≤ 2 ^ 60 }
    ensures value { result ≡ number_from most 0 word.now }
    ensures within { IfSome result (λ n. n ≤ most) }
{
    let mut value: u64 = 0;
    for c in word {
        if !(b'0' <= *c && *c <= b'9') {
            return None;
        }
        let longer = 10 * value + u64::from(*c - b'0');
        if longer > most {
            return None;
        }
        value = longer;
    }
    Some(value)
}

/// Decodes a word of hexadecimal digits into the front of a block of zeros. False where the word isn't 2 to 1,024 digits, an even number of them.
#[tactic(auto, unfolding(crate::specs::Words::block_of_word))]
fn fill_block(word: &[u8], block: &mut [u8; 512]) -> bool
    requires { block.old ≡ replicate 512 0 }
    ensures filled { OnTrue result (block_of_word word.now ≡ Some block.new) }
    ensures refused { OnFalse result (block_of_word word.now ≡ None) }
{
    let len = word.len();
    if len < 2 {
        return false;
    }
    if len > 1024 {
        return false;
    }
    if len % 2 == 1 {
        return false;
    }
    decode_into(word, &mut block[..len / 2])
}

/// Decodes hexadecimal digits. False where the word has another byte.
fn decode_into(word: &[u8], out: &mut [u8]) -> bool
    requires { length word.now ≡ 2 * length out.old }
    ensures len { length word.now ≡ 2 * length out.new }
    ensures decoded { OnTrue result (decode_of word.now ≡ Ok out.new) }
    ensures refused { OnFalse result (filled (decode_of word.now) ≡ None) }
{
    hex::decode_to_slice(word, out).is_ok()
}

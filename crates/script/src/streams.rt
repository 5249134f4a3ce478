//! Lines that send and receive streams.
ghost use Rattle.std.specs.Option.{option_copied};
ghost use Rattle.script.specs.Words.{bytes_of_word};
ghost use Rattle.script.specs.Meaning.{send_of, send_from_of, send_whole_of, receive_of, received_of};
ghost use Rattle.script.specs.Reading.{words_left, Means, Says};

use crate::parse::lone_target;
use crate::spare::SpareTarget;
use crate::words::{leading_option, two};
use base::name::SnapName;
use base::refusal::Refusal;
use base::text::Bytes;
use hex::FromHexError;
use model::receiving::Receiving;
use model::request::Request;
use std::alloc::Global;

/// Reads `send [-i TARGET] TARGET` (zfs-send(8)); the target after `-i` is the source. BadLine for any other number of operands, BadName where an
/// operand isn't a name, the source first, NoMemory where a name can't be allocated.
#[inline(never)]
#[tactic(auto, unfolding(crate::specs::Meaning::send_of))]
pub(crate) fn send(
    alloc: Global,
    spare: &mut SpareTarget,
    operands: Option<&[u8]>,
) -> Result<Request, Refusal>
    ensures { Means result (send_of (words_left (option_copied operands.entry))) }
{
    let (has_source, rest) = leading_option(operands, b"-i");
    if has_source {
        send_from(alloc, spare, rest)
    } else {
        send_whole(alloc, spare, rest)
    }
}

// An incremental send, from a source.
#[tactic(auto, unfolding(crate::specs::Meaning::send_from_of))]
fn send_from(
    alloc: Global,
    spare: &mut SpareTarget,
    operands: Option<&[u8]>,
) -> Result<Request, Refusal>
    ensures { Means result (send_from_of (words_left (option_copied operands.entry))) }
{
    let Some((source, target)) = two(operands) else {
        return Err(Refusal::BadLine);
    };
    let source = spare.target(alloc, source)?;
    let target = spare.target(alloc, target)?;
    Ok(Request::Send {
        target,
        from: Some(source),
    })
}

// A full send.
#[tactic(auto, unfolding(crate::specs::Meaning::send_whole_of))]
fn send_whole(
    alloc: Global,
    spare: &mut SpareTarget,
    operands: Option<&[u8]>,
) -> Result<Request, Refusal>
    ensures { Means result (send_whole_of (words_left (option_copied operands.entry))) }
{
    let target = lone_target(alloc, spare, operands)?;
    Ok(Request::Send { target, from: None })
}

/// Reads `receive [-F] SNAP HEX` (zfs-receive(8)); HEX is the bytes of the stream, two digits each. BadLine where there aren't two operands or
/// the second isn't such a word, BadName where the first isn't valid as a snapshot's name, NoMemory where the name or the bytes can't be
/// allocated. The bytes are in memory in addition to the line.
#[inline(never)]
#[tactic(auto, unfolding(crate::specs::Meaning::receive_of))]
pub(crate) fn receive(alloc: Global, operands: Option<&[u8]>) -> Result<Request, Refusal>
    ensures { Means result (receive_of (words_left (option_copied operands.entry))) }
{
    let (force, rest) = leading_option(operands, b"-F");
    received(alloc, rest, force)
}

// A receive of a stream as a snapshot, with `-F` or without.
#[tactic(auto, unfolding(crate::specs::Meaning::received_of))]
fn received(alloc: Global, operands: Option<&[u8]>, force: bool) -> Result<Request, Refusal>
    ensures { Means result (received_of force (words_left (option_copied operands.entry))) }
{
    let Some((snapshot, digits)) = two(operands) else {
        return Err(Refusal::BadLine);
    };
    let bytes = bytes_said(alloc, digits)?;
    let snapshot = SnapName::read(alloc, snapshot)?;
    let mode = if force {
        Receiving::Back
    } else {
        Receiving::Plain
    };
    Ok(Request::Receive {
        snapshot,
        bytes,
        mode,
    })
}

// The bytes that a word of hexadecimal digits spells.
#[tactic(auto, unfolding(crate::specs::Words::bytes_of_word))]
fn bytes_said(alloc: Global, word: &[u8]) -> Result<Bytes, Refusal>
    ensures { Says result (bytes_of_word word.now) }
{
    if word.len() < 2 {
        return Err(Refusal::BadLine);
    }
    match hex::decode(alloc, word) {
        Ok(bytes) => Ok(Bytes::from(bytes)),
        Err(FromHexError::OutOfMemory) => Err(Refusal::NoMemory),
        Err(_) => Err(Refusal::BadLine),
    }
}

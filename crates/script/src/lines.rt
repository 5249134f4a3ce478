//! The lines of a script.
ghost use Rattle.std.specs.Prelude.{◌≡◌, ◌≤◌, ◌+◌, ◌++◌, vec_len, Err, IfOk, OnOk, OnErr, MatchBool};
ghost use Rattle.std.specs.Io.KnownBytes.{Keeps};
ghost use Rattle.script.specs.Lines.{kept_of, line_limit, Looks, GivesLine, GivesNone, HasMore};

use crate::ahead::Ahead;
use crate::run::Caller;
use memchr::memchr;
use std::io::{BufRead, ErrorKind, Write};

/// A line has at most this many bytes, not counting its line feed (profile).
pub const LINE_LIMIT: usize = 4_194_304;

/// Why a line could not be read.
#[derive(Clone, Copy)]
pub(crate) enum ReadFault {
    NoMemory,
    Failed,
    /// The replies written so far could not be flushed.
    Unflushed,
}

/// What one look at a reader's buffer found.
#[derive(Clone, Copy)]
pub(crate) enum Step {
    More,
    Feed,
    End,
}

/// Reads the next line into `kept`, without its line feed. Of a line that is too long, only one byte more than the limit is kept. False where
/// there is no further line.
///
/// A read from a terminal or a pipe may wait until the program at the other end has seen the replies. So once the reader's buffer is drained, the
/// writer is flushed before the next read. For a script from a file that is one flush for each filled buffer.
///
/// Once the line is taken, the caller may read ahead for those that are in the buffer.
pub(crate) fn next_line<C: Caller, R: BufRead, W: Write>(
    caller: &C,
    reader: &mut R,
    writer: &mut W,
    kept: &mut Vec<u8>,
    is_drained: &mut bool,
    ahead: &mut Ahead,
) -> Result<bool, ReadFault>
    ensures ok { IfOk result (λ found. MatchBool found
        (GivesLine (R.remaining reader.old) (R.remaining reader.new) kept.new.items)
        (GivesNone (R.remaining reader.old))) }
    ensures no_memory { result ≡ Err ReadFault.NoMemory → HasMore (R.remaining reader.old) }
    ensures written { Keeps (W.contents writer.old) (W.contents writer.new) }
{
    kept.clear();
    'looks: for _ in 0..u64::MAX {
        flush_before(writer, *is_drained)?;
        match look(reader, kept, is_drained)? {
            Step::More => {}
            Step::Feed => {
                ahead.pass(caller, reader, *is_drained);
                return Ok(true);
            }
            Step::End => return Ok(!kept.is_empty()),
        }
    }
    Err(ReadFault::Failed)
}

/// Flushes the writer if the reader's buffer is drained, since a read follows then.
fn flush_before<W: Write>(writer: &mut W, is_drained: bool) -> Result<(), ReadFault>
    ensures written { Keeps (W.contents writer.old) (W.contents writer.new) }
    ensures err { OnErr result (result ≡ Err ReadFault.Unflushed) }
{
    if is_drained && writer.flush().is_err() {
        return Err(ReadFault::Unflushed);
    }
    Ok(())
}

/// Takes from the reader's buffer what it has of the line, and records whether the buffer is drained by this.
fn look<R: BufRead>(
    reader: &mut R,
    kept: &mut Vec<u8>,
    is_drained: &mut bool,
) -> Result<Step, ReadFault>
    requires { vec_len kept.old ≤ line_limit + 1 }
    ensures looks { IfOk result (Looks (R.remaining reader.old) (R.remaining reader.new) kept.old.items kept.new.items) }
    ensures short { OnOk result (vec_len kept.new ≤ line_limit + 1) }
    ensures no_memory { result ≡ Err ReadFault.NoMemory → HasMore (R.remaining reader.old) }
{
    let shown = match reader.fill_buf() {
        Ok(shown) => shown,
        Err(e) => {
            return if e.kind() == ErrorKind::Interrupted {
                Ok(Step::More)
            } else {
                Err(ReadFault::Failed)
            };
        }
    };
    if shown.is_empty() {
        return Ok(Step::End);
    }
    match memchr(b'\n', shown) {
        Some(end) => {
            keep(kept, &shown[..end])?;
            *is_drained = end + 1 == shown.len();
            reader.consume(end + 1);
            Ok(Step::Feed)
        }
        None => {
            let len = shown.len();
            keep(kept, shown)?;
            *is_drained = true;
            reader.consume(len);
            Ok(Step::More)
        }
    }
}

/// Appends to the kept part of a line, up to one byte more than the limit.
#[tactic(auto, unfolding(crate::specs::Lines::line_limit))]
fn keep(kept: &mut Vec<u8>, bytes: &[u8]) -> Result<(), ReadFault>
    requires { vec_len kept.old ≤ line_limit + 1 }
    ensures { OnOk result (kept.new.items ≡ kept_of (kept.old.items ++ bytes.now)) }
{
    let room = (LINE_LIMIT + 1 - kept.len()).min(bytes.len());
    match kept.extend_from_slice(&bytes[..room]) {
        Ok(()) => Ok(()),
        Err(_) => Err(ReadFault::NoMemory),
    }
}

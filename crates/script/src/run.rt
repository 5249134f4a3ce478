//! Runs of scripts.
ghost use Rattle.std.specs.Prelude.{◌≡◌, ◌≢◌, ◌≤◌, ◌||◌, ◌⊎◌, [], false, Option, Some, None, Err, is_some, IfOk, IfErr, OnOk, IsOk, if◌then◌else◌};
ghost use Rattle.base.specs.Failing.{HasRisen};
ghost use Rattle.base.specs.declared.refusal.Refusal.{Refusal};
ghost use Rattle.script.specs.Lines.{lines, HasNoFeed};
ghost use Rattle.script.specs.Run.{HasRun, HasFailed, IsFaultOf, IsRun, refusal_of};
ghost use Rattle.script.specs.Served.{IsServed, IsUnserved, may_miss};
ghost use Rattle.script.specs.Meaning.{Asks, meaning, request_of};
ghost use Rattle.script.specs.Text.{line_of, has_any_length};
ghost use Rattle.std.specs.Io.KnownBytes.{Appends};
ghost use Rattle.model.specs.declared.request.Request.{Request};
ghost use Rattle.model.specs.declared.reply.Reply.{Reply};

use crate::ahead::Ahead;
use crate::lines::{ReadFault, next_line};
use crate::parse::request_at;
use crate::sink::{Roomy, Sink};
use crate::spare::SpareTarget;
use crate::text::write_reply;
use base::failing::Failing;
use base::refusal::Refusal;
use model::reply::Reply;
use model::request::{ObjectBlock, Request};
use std::alloc::Global;
use std::io::{BufRead, Write};
use std::mem;
use thiserror::Error;

/// Answers requests. Its relation says how a request changes it, and what it replies.
pub trait Caller {
    ghost asks: { Self → Request → Option Reply → Self → Type 0 };

    /// Replaces the reply Done by the reply to a request. False only where there is no memory for a copy of the reply. A caller that is done with
    /// the request may give it to `spare`, so that the next line needs no memory for the same target. It may also leave `spare` as it is.
    fn ask(&mut self, request: Request, reply: &mut Reply, spare: &mut SpareTarget) -> bool
        requires { reply.old ≡ Reply.Done }
        ensures { asks self.old request (if result then Some reply.new else None) self.new };

    /// Reads ahead what requests for these blocks of a live file system will read, so that they needn't wait for it. Nothing is changed by it.
    /// `name` is what the lines have for the file system. Returns how much was read: 0 where there is nothing to gain, as where a caller doesn't
    /// read ahead.
    fn read_ahead(&self, _name: &[u8], _blocks: &[ObjectBlock]) -> u32 {
        0
    }
}

/// The reason why a run of a script ended before the script did.
#[derive(Clone, Copy, PartialEq, Eq, Debug, Error)]
pub enum ScriptFault {
    /// Memory was refused to a line, to a name or to a reply, or a read or write failed and no count of failures rose.
    #[error("no memory")]
    NoMemory,
    /// A read or write failed, and its count of failures rose.
    #[error("input or output failed")]
    Device,
}

impl ScriptFault {
    /// The fault of a failed read or write, from its counts of failures before and after: Device exactly where the count rose, or is the greatest
    /// u64, at which a count stops.
    pub fn of_counts(before: u64, after: u64) -> ScriptFault
        ensures { IsFaultOf (HasRisen before after) result }
    {
        if before < after || after == u64::MAX {
            ScriptFault::Device
        } else {
            ScriptFault::NoMemory
        }
    }
}

/// The reason why a line's reply was not written.
#[derive(Clone, Copy, PartialEq, Eq, Debug, Error)]
pub enum LineFault {
    /// Memory was refused to the line, or to its reply.
    #[error("no memory")]
    NoMemory,
    /// The writer failed at the reply.
    #[error("the reply was not written")]
    Unwritten,
}

/// Room for the line of any reply but a list of names, a text or a stream: a block's digits and the line feed.
const REPLY_ROOM: usize = 1_025;

/// Answers one line, as a script of this line alone would be answered. `line` comes without its line feed; a line feed in it makes it a bad line.
/// The reply's line, with its line feed, replaces the contents of `reply`; it is empty for a comment and for an empty line, which make no
/// request. Returns the refusal of a line that was refused. The cost is linear in the line and its reply, in addition to the caller's. The memory
/// of a `reply` that is passed again is reused.
///
/// NoMemory where memory was refused to the line or to its request: `reply` is empty then, and the caller is unchanged, or was asked and had no
/// reply. Room for every reply but names, texts and streams is reserved before the caller is asked. So Unwritten comes only where the caller has
/// answered with one of these, and there is no memory for its line.
pub fn answer_line<C: Caller>(
    alloc: Global,
    caller: &mut C,
    line: &[u8],
    reply: &mut Vec<u8>,
) -> Result<Option<Refusal>, LineFault>
    ensures ok { IfOk result (λ refusal. IsServed C.asks (meaning line.now) (Some []) (Some reply.new.items) caller.old caller.new refusal) }
    ensures script { HasNoFeed line.now → IfOk result (λ refusal. IsRun C.asks false (lines line.now) caller.old reply.new.items caller.new (is_some refusal)) }
    ensures err { IfErr result (λ fault. IsUnserved C.asks (meaning line.now) has_any_length (Some []) (Some reply.new.items) caller.old caller.new fault) }
{
    reply.clear();
    if reply.reserve(REPLY_ROOM).is_err() {
        return Err(LineFault::NoMemory);
    }
    let mut sink = Roomy(mem::replace(reply, Vec::new(alloc)));
    let mut spare = SpareTarget::default();
    let told = serve_line(alloc, caller, line, &mut sink, &mut spare);
    let Roomy(text) = sink;
    *reply = text;
    told
}

/// Makes the requests of a script's lines to a caller, in order, and writes their reply lines. Returns whether a line was refused; with `stop` it
/// ends at the first such line. The cost is linear in the script, in addition to the caller's. The memory is that of one line, of which at most a
/// little more than 4 MiB are kept (profile). A program that writes a line and waits for its reply gets the reply, since the writer is flushed
/// before each read that may wait.
///
/// After a fault every request that was made is answered and its reply written, except for one line: its reply may be missing for want of memory,
/// or be written in part where the writer failed.
pub fn run_script<C: Caller, R: BufRead + Failing, W: Write + Failing>(
    alloc: Global,
    caller: &mut C,
    reader: &mut R,
    writer: &mut W,
    stop: bool,
) -> Result<bool, ScriptFault>
    ensures ok { IfOk result (λ refused. HasRun C.asks stop (R.remaining reader.old)
        (W.contents writer.old) (W.contents writer.new) caller.old caller.new refused) }
    ensures err { IfErr result (λ fault. HasFailed C.asks stop (R.remaining reader.old)
        (W.contents writer.old) (W.contents writer.new) caller.old caller.new
        (HasRisen (R.failures reader.old) (R.failures reader.new)) (HasRisen (W.failures writer.old) (W.failures writer.new)) fault) }
    ensures device { result ≡ Err ScriptFault.Device →
        HasRisen (R.failures reader.old) (R.failures reader.new) ⊎ HasRisen (W.failures writer.old) (W.failures writer.new) }
{
    let (reads, writes) = (reader.failures(), writer.failures());
    let mut line = Vec::new(alloc);
    let mut refused = false;
    let mut is_drained = false;
    let mut ahead = Ahead::default();
    let mut spare = SpareTarget::default();
    'lines: for _ in 0..u64::MAX {
        let found = match next_line(
            caller,
            reader,
            writer,
            &mut line,
            &mut is_drained,
            &mut ahead,
        ) {
            Ok(found) => found,
            Err(ReadFault::NoMemory) => return Err(ScriptFault::NoMemory),
            Err(ReadFault::Failed) => return Err(ScriptFault::of_counts(reads, reader.failures())),
            Err(ReadFault::Unflushed) => return Err(ScriptFault::of_counts(
                writes,
                writer.failures(),
            )),
        };
        if !found {
            return Ok(refused);
        }
        match serve_line(alloc, caller, line.as_slice(), writer, &mut spare) {
            Ok(refusal) => {
                let is_refused = refusal.is_some();
                if is_refused & stop {
                    return Ok(true);
                }
                refused = refused | is_refused;
            }
            Err(LineFault::NoMemory) => return Err(ScriptFault::NoMemory),
            Err(LineFault::Unwritten) => return Err(ScriptFault::of_counts(
                writes,
                writer.failures(),
            )),
        }
    }
    Err(ScriptFault::of_counts(reads, reader.failures()))
}

/// Answers a line, and writes its reply if it has one. Returns the refusal of a line that was refused.
#[tactic(auto, unfolding(crate::specs::Meaning::meaning))]
fn serve_line<C: Caller, W: Sink>(
    alloc: Global,
    caller: &mut C,
    line: &[u8],
    writer: &mut W,
    spare: &mut SpareTarget,
) -> Result<Option<Refusal>, LineFault>
    ensures ok { IfOk result (λ refusal. IsServed C.asks (meaning line.now) (W.contents writer.old) (W.contents writer.new) caller.old caller.new refusal) }
    ensures err { IfErr result (λ fault. IsUnserved C.asks (meaning line.now) (may_miss (W.room writer.old)) (W.contents writer.old) (W.contents writer.new) caller.old caller.new fault) }
{
    match line {
        [] => Ok(None),
        [b'#', ..] => Ok(None),
        _ => serve_request(alloc, caller, line, writer, spare),
    }
}

/// Answers a line that makes a request or is faulty.
fn serve_request<C: Caller, W: Sink>(
    alloc: Global,
    caller: &mut C,
    line: &[u8],
    writer: &mut W,
    spare: &mut SpareTarget,
) -> Result<Option<Refusal>, LineFault>
    ensures ok { IfOk result (λ refusal. IsServed C.asks (request_of line.now) (W.contents writer.old) (W.contents writer.new) caller.old caller.new refusal) }
    ensures err { IfErr result (λ fault. IsUnserved C.asks (request_of line.now) (may_miss (W.room writer.old)) (W.contents writer.old) (W.contents writer.new) caller.old caller.new fault) }
{
    match request_at(alloc, spare, line) {
        Ok(request) => serve(caller, request, writer, spare),
        Err(refusal) => refuse(writer, refusal),
    }
}

/// Writes that a line is refused, unless it is for want of memory. It is a function of its own: a reply takes room on the stack, and a function
/// fills its whole stack frame with zeros first.
#[inline(never)]
fn refuse<W: Sink>(writer: &mut W, refusal: Refusal) -> Result<Option<Refusal>, LineFault>
    ensures ok { IfOk result (λ told. (told ≡ Some refusal) × Appends (W.contents writer.old) (W.contents writer.new) (line_of (Reply.Refused refusal))) }
    ensures no_memory { (refusal ≡ Refusal.NoMemory) → result ≡ Err LineFault.NoMemory }
    ensures err { (result ≡ Err LineFault.NoMemory) → W.contents writer.new ≡ W.contents writer.old }
    ensures fits { 1025 ≤ W.room writer.old → result ≢ Err LineFault.Unwritten }
{
    if refusal == Refusal::NoMemory {
        return Err(LineFault::NoMemory);
    }
    let reply = Reply::Refused(refusal);
    report(writer, &reply)
}

/// Makes a request to the caller, and writes its reply.
fn serve<C: Caller, W: Sink>(
    caller: &mut C,
    request: Request,
    writer: &mut W,
    spare: &mut SpareTarget,
) -> Result<Option<Refusal>, LineFault>
    ensures ok { IfOk result (λ refusal. IsServed C.asks (Asks request) (W.contents writer.old) (W.contents writer.new) caller.old caller.new refusal) }
    ensures err { IfErr result (λ fault. IsUnserved C.asks (Asks request) (may_miss (W.room writer.old)) (W.contents writer.old) (W.contents writer.new) caller.old caller.new fault) }
{
    let mut reply = Reply::Done;
    if caller.ask(request, &mut reply, spare) {
        report(writer, &reply)
    } else {
        Err(LineFault::NoMemory)
    }
}

/// Writes a reply's line. Returns the refusal where the reply is one.
fn report<W: Sink>(writer: &mut W, reply: &Reply) -> Result<Option<Refusal>, LineFault>
    ensures fits { 1025 ≤ W.room writer.old → has_any_length reply.now ≡ false → IsOk result }
    ensures line { OnOk result (Appends (W.contents writer.old) (W.contents writer.new) (line_of reply.now)) }
    ensures refusal { IfOk result (λ refusal. refusal ≡ refusal_of (Some reply.now)) }
    ensures err { IfErr result (λ fault. fault ≡ LineFault.Unwritten) }
{
    match write_reply(writer, reply) {
        Ok(()) => match reply {
            Reply::Refused(refusal) => Ok(Some(*refusal)),
            _ => Ok(None),
        },
        Err(_) => Err(LineFault::Unwritten),
    }
}

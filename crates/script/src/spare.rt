//! A target whose memory serves the next line.
ghost use Rattle.std.specs.Prelude.{◌≡◌, ◌≤◌, ◌++◌, ◌∷◌, true, Some, IsTrue, IsOk};
ghost use Rattle.std.specs.Bool.{OnTrue};
ghost use Rattle.std.specs.Str.{bytes_eq};
ghost use Rattle.base.specs.Names.{is_mark, name_limit, whole_length};
ghost use Rattle.base.specs.Reading.{Reads, target_of};
ghost use Rattle.script.specs.Spare.{is_spare, marked_target, spare_after, spare_left, target_in, target_text};

use base::name::{Member, Target};
use base::refusal::Refusal;
use base::text::same_bytes;
use model::request::Request;
use std::alloc::Global;
use std::marker::Model;

/// The target of a request that is done with, or none. Most lines of a script name what the line before has named. Such a line takes its target
/// from here, and needs no memory for it. Contracts see the target.
#[derive(Default, Debug)]
pub struct SpareTarget {
    kept: Option<Target>,
}

// Written by hand, so that it is proved once: a derived one is expanded anew in each crate that drops the type.
impl Drop for SpareTarget {
    fn drop(self) {
        let SpareTarget { kept } = self;
        drop(kept);
    }
}

impl Model for SpareTarget {
    ghost use Rattle.std.specs.Prelude.{Option};
    ghost use Rattle.base.specs.declared.name.target.Target.{Target};

    ghost Value = { Option Target };

    ghost view = { λ s. s.kept };
}

impl SpareTarget {
    /// Keeps the target of a request that is done with, in the place of what was kept. A request that has no `Target` leaves what was kept.
    /// Constant time, and no memory is asked for.
    pub fn keep(&mut self, request: Request)
        ensures { self.new ≡ spare_after self.old request }
    {
        if let Some(target) = target_in(request) {
            self.kept = Some(target);
        }
    }

    /// Reads a name of any kind, as `Target::read` does. What is kept is handed out where the word is its name; else it stays, and new memory is
    /// asked for. BadName where the word is not a name. NoMemory where there is no memory for another name than that of what is kept. The cost is
    /// linear in the word.
    pub fn target(&mut self, alloc: Global, word: &[u8]) -> Result<Target, Refusal>
        ensures reads { Reads result (target_of word.now) }
        ensures ready { IsTrue (is_spare self.old word.now) → IsOk result }
        ensures left { self.new ≡ spare_left self.old word.now }
    {
        match self.kept.take_if(|target| is_named(target, word)) {
            Some(target) => Ok(target),
            None => Target::read(alloc, word),
        }
    }
}

// The target of a request that has one. Each kind has an arm of its own, since the prover has no rule for a move out of alternatives.
fn target_in(request: Request) -> Option<Target>
    ensures { result ≡ target_in request }
{
    match request {
        Request::Write { target, .. } => Some(target),
        Request::Punch { target, .. } => Some(target),
        Request::FreeObject { target, .. } => Some(target),
        Request::Read { target, .. } => Some(target),
        Request::Get { target, .. } => Some(target),
        Request::Rollback { target, .. } => Some(target),
        Request::OpenView { target } => Some(target),
        Request::Clone { target, .. } => Some(target),
        Request::Hold { target, .. } => Some(target),
        Request::Release { target, .. } => Some(target),
        Request::Holds { target } => Some(target),
        Request::Bookmark { target, .. } => Some(target),
        Request::WrittenSince { target, .. } => Some(target),
        Request::Send { target, .. } => Some(target),
        _ => None,
    }
}

// Whether a word is a target's name.
#[tactic(auto, using(crate::proofs::Within::reads_name))]
fn is_named(target: &Target, word: &[u8]) -> bool
    ensures same { result ≡ bytes_eq word.now (target_text target.now) }
    ensures reads { OnTrue result (target_of word.now ≡ Some target.now) }
{
    match target {
        Target::FileSystem(name) => same_bytes(word, name.as_bytes()),
        Target::Snapshot(name) => is_member(name.member(), b'@', word),
        Target::Bookmark(name) => is_member(name.member(), b'#', word),
    }
}

// Whether a word is the name of a snapshot or bookmark of these parts, with this mark between them.
#[tactic(auto, using(crate::proofs::Within::reads_member))]
fn is_member(member: &Member, mark: u8, word: &[u8]) -> bool
    requires mark { is_mark mark ≡ true }
    requires short { whole_length member.now ≤ name_limit }
    ensures same { result ≡ bytes_eq word.now (member.now.file_system ++ mark ∷ member.now.component) }
    ensures reads { OnTrue result (target_of word.now ≡ Some (marked_target mark member.now)) }
{
    is_joined(
        word,
        member.file_system.as_bytes(),
        mark,
        member.component.as_bytes(),
    )
}

// Whether a word is the front, the mark, and then the back.
fn is_joined(word: &[u8], front: &[u8], mark: u8, back: &[u8]) -> bool
    ensures { result ≡ bytes_eq word.now (front.now ++ mark ∷ back.now) }
{
    let Some(rest) = word.strip_prefix(front) else {
        return false;
    };
    match rest {
        [first, rest @ ..] => *first == mark && same_bytes(rest, back),
        [] => false,
    }
}

//! The entries of a history.
ghost use Rattle.std.specs.Prelude.{◌≡◌, ◌↔◌, IsTrue, IfOk, OnErr, Err, IfSome, IfNone};
ghost use Rattle.base.specs.declared.refusal.Refusal.{Refusal};
ghost use Rattle.model.specs.declared.reply.Reply.TheVariants.{Done};

use crate::reply::Reply;
use crate::request::Request;
use base::refusal::Refusal;
use std::alloc::Global;
use std::marker::Model;

/// A reply as a history keeps it: Done takes a single word, and any other reply a box. Contracts see the reply.
pub struct KeptReply {
    other: Option<Box<Reply>>,
}

// Written by hand, so that it is proved once: a derived one is expanded anew in each crate that drops the type.
impl Drop for KeptReply {
    fn drop(self) {
        let KeptReply { other } = self;
        drop(other);
    }
}

impl Model for KeptReply {
    ghost use Rattle.model.specs.declared.reply.Reply.{Reply};
    ghost use Rattle.model.specs.contracts.reply.Reply.{the_row};
    ghost use Rattle.model.specs.Kept.{reply_of};

    ghost Value = { Reply };

    ghost coded = { the_row.coded };

    ghost view = { λ k. reply_of k.other };
}

impl KeptReply {
    /// The reply Done.
    pub fn done() -> KeptReply
        ensures { result ≡ Done }
    {
        KeptReply { other: None }
    }

    /// This reply. NoMemory where there is no memory for one that isn't Done.
    pub fn new(alloc: Global, reply: Reply) -> Result<KeptReply, Refusal>
        ensures ok { IfOk result (λ k. k ≡ reply) }
        ensures err { OnErr result (result ≡ Err Refusal.NoMemory) }
    {
        if let Reply::Done = reply {
            return Ok(KeptReply::done());
        }
        let other = Box::new(alloc, reply)?;
        Ok(KeptReply { other: Some(other) })
    }

    /// The reply, or None where it is Done.
    pub fn other(&self) -> Option<&Reply>
        ensures some { IfSome result (λ r. r.now ≡ self.now) }
        ensures none { IfNone result (self.now ≡ Done) }
    {
        self.other.as_deref()
    }

    /// Whether it is this reply.
    pub fn is(&self, reply: &Reply) -> bool
        ensures { IsTrue result ↔ (self.now ≡ reply.now) }
    {
        match (&self.other, reply) {
            (Some(other), _) => other.same(reply),
            (None, Reply::Done) => true,
            (None, _) => false,
        }
    }

    /// Whether the other is the same reply.
    pub fn same(&self, other: &KeptReply) -> bool
        ensures { IsTrue result ↔ (self.now ≡ other.now) }
    {
        match &other.other {
            Some(reply) => self.is(reply),
            None => self.is(&Reply::Done),
        }
    }
}

/// One request of a seat, with its reply.
pub struct Entry {
    pub seat: u32,
    pub request: Request,
    pub reply: KeptReply,
}

// Written by hand, so that it is proved once: a derived one is expanded anew in each crate that drops the type.
impl Drop for Entry {
    fn drop(self) {
        let Entry {
            seat: _,
            request,
            reply,
        } = self;
        drop(request);
        drop(reply);
    }
}

impl Entry {
    /// Whether the other is the same entry.
    pub fn same(&self, other: &Entry) -> bool
        ensures { IsTrue result ↔ (self.now ≡ other.now) }
    {
        self.seat == other.seat
            && self.request.same(&other.request)
            && self.reply.same(&other.reply)
    }
}

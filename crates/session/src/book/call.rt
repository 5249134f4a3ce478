//! Calls with their memory allocated.
ghost use Rattle.std.specs.Prelude.{◌≡◌, IfOk, OnErr, Err};
ghost use Rattle.base.specs.declared.refusal.Refusal.{Refusal};

use crate::book::opening::Opening;
use crate::book::seat::Seat;
use base::refusal::Refusal;
use model::entry::{Entry, KeptReply};
use model::request::Request;
use std::alloc::Global;
use std::marker::Model;
use std::sync::Arc;

/// A request of a seat, with the memory of its entry allocated, so that none is allocated for it under the lock. Contracts see the seat's number
/// and the request.
#[derive(Drop)]
pub struct Call {
    pub(crate) kept: Arc<Entry>,
    pub(crate) ours: Arc<Entry>,
    pub(crate) theirs: Arc<Entry>,
}

impl Model for Call {
    ghost use Rattle.std.specs.Arc.{arc_value};
    ghost use Rattle.session.specs.Asked.{Asked, asked_code, IsUnanswered};

    ghost Value = { Asked };

    ghost coded = { asked_code };

    ghost view = { λ c. record { seat = (arc_value c.kept).seat; request = (arc_value c.kept).request } };

    ghost invariant = { λ c. IsUnanswered (arc_value c.kept) (arc_value c.ours) (arc_value c.theirs) };
}

impl Call {
    /// A seat's call for a request. NoMemory where its entry can't be allocated. Constant time.
    pub fn new<K: Opening>(alloc: Global, seat: &Seat<K>, request: Request) -> Result<Call, Refusal>
        ensures ok { IfOk result (λ c. c ≡ record { seat = seat.now.number; request = request }) }
        ensures err { OnErr result (result ≡ Err Refusal.NoMemory) }
    {
        let entry = Entry {
            seat: seat.number,
            request,
            reply: KeptReply::done(),
        };
        let kept = Arc::new(alloc, entry)?;
        let ours = Arc::try_clone(&kept)?;
        let theirs = Arc::try_clone(&kept)?;
        Ok(Call { kept, ours, theirs })
    }
}

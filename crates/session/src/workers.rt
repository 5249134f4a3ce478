//! Workers, which make one request repeatedly.
ghost use Rattle.std.specs.Prelude.{◌≡◌, ◌↔◌, IsTrue};
ghost use Rattle.base.specs.declared.refusal.Refusal.TheVariants.{NoMemory};
ghost use Rattle.model.specs.declared.reply.Reply.TheVariants.{Refused};
ghost use Rattle.model.specs.declared.request.Request.TheVariants.{Sync as ToSync, Slice as ToSlice};
ghost use Rattle.session.specs.Works.{IsWork, work_request};

use crate::book::{Entered, Opening, Receipt, Seat};
use crate::gate::Gate;
use crate::shared::Session;
use base::refusal::Refusal;
use model::reply::Reply;
use model::request::Request;
use std::alloc::Global;
use std::sync::Wait;

// The request that a worker makes.
#[derive(Clone, Copy)]
enum Work {
    Syncs,
    Slices(u64),
}

impl Work {
    // The worker's next request.
    fn request(self) -> Request
        ensures { result ≡ work_request self }
    {
        match self {
            Work::Syncs => Request::Sync,
            Work::Slices(count) => Request::Slice { count },
        }
    }
}

impl<K: Opening> Session<K> {
    /// Requests `Sync` repeatedly, and returns how many of these requests have run. The gate is asked before each. Each takes the lock anew, so
    /// that other callers come between them. It ends without a refusal where the gate says no; with SessionFull once the session has taken all
    /// its calls; and with NoMemory in two cases. Either the next entry or its receipt can't be allocated, and that request has not run; or the
    /// last request ran and was itself refused with NoMemory, and is counted. A request that is refused otherwise has run, and the next one
    /// follows. Each costs what the pool's step does, and a receipt of the seat (profile).
    pub fn run_syncer<R: Wait, G: Gate>(
        &self,
        alloc: Global,
        rt: &R,
        seat: &mut Seat<K>,
        gate: &mut G,
    ) -> (u64, Option<Refusal>)
        ensures { IsWork K.opening seat.old ToSync (G.left gate.old) result.0 result.1 (G.left gate.new) (G.stopped gate.new) seat.new }
    {
        run_work(self, alloc, rt, seat, gate, Work::Syncs)
    }

    /// Requests `Slice` of `count` blocks repeatedly, and returns how many of these requests have run. It asks the gate, takes the lock and ends
    /// as `run_syncer` does. It does not end when nothing is left to be freed (profile).
    pub fn run_destroyer<R: Wait, G: Gate>(
        &self,
        alloc: Global,
        rt: &R,
        seat: &mut Seat<K>,
        count: u64,
        gate: &mut G,
    ) -> (u64, Option<Refusal>)
        ensures { IsWork K.opening seat.old (ToSlice count) (G.left gate.old) result.0 result.1 (G.left gate.new) (G.stopped gate.new) seat.new }
    {
        run_work(self, alloc, rt, seat, gate, Work::Slices(count))
    }
}

// Makes the request while the gate says yes, the session has room and memory is granted.
fn run_work<K: Opening, R: Wait, G: Gate>(
    session: &Session<K>,
    alloc: Global,
    rt: &R,
    seat: &mut Seat<K>,
    gate: &mut G,
    work: Work,
) -> (u64, Option<Refusal>)
    ensures { IsWork K.opening seat.old (work_request work) (G.left gate.old) result.0 result.1 (G.left gate.new) (G.stopped gate.new) seat.new }
{
    let mut ran = 0;
    'turns: while gate.turn() {
        match session.ask(alloc, rt, seat, work.request()) {
            Ok(Entered { receipt, viewed }) => {
                drop(viewed);
                ran += 1;
                let lacked = lacked_memory(receipt);
                if lacked {
                    return (ran, Some(Refusal::NoMemory));
                }
            }
            Err(refusal) => return (ran, Some(refusal)),
        }
    }
    (ran, None)
}

// Whether the request was refused with NoMemory.
fn lacked_memory(receipt: Receipt) -> bool
    ensures { IsTrue result ↔ (receipt.entry.reply ≡ Refused NoMemory) }
{
    receipt.entry.reply.is(&Reply::Refused(Refusal::NoMemory))
}

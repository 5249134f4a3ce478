//! Several requests under one hold of the lock.
ghost use Rattle.std.specs.Prelude.{◌≡◌, ◌+◌, ◌≤◌, ◌∷◌, ◌⊎◌, All, true, Err, length, map, IfOk, IfErr, IsOkAnd, OnErr, vec_len, vec_capacity, []};
ghost use Rattle.base.specs.declared.refusal.Refusal.{Refusal};
ghost use Rattle.std.specs.List.{list_any};
ghost use Rattle.std.specs.Vec.Iter.{into_iter_items};
ghost use Rattle.session.specs.Entering.{Ran, IsFullOrNoMemory};
ghost use Rattle.model.specs.State.{State};
ghost use Rattle.model.specs.Step.{Step};
ghost use Rattle.session.specs.History.{IsLegal};
ghost use Rattle.session.specs.Receipts.{Kept};
ghost use Rattle.session.specs.Calls.{IsBatch, IsPaced, IsAdded, IsBegun, FollowOn};
ghost use Rattle.session.specs.ViewCalls.{is_of_views};

use crate::book::{Book, Call, Opening, Receipt, Seat, enter_call};
use crate::gate::Gate;
use crate::shared::{Session, is_of_views};
use base::refusal::Refusal;
use model::request::Request;
use std::alloc::Global;
use std::sync::Wait;
use std::vec::IntoIter;

impl<K: Opening> Session<K> {
    /// Applies requests one after another under one hold of the lock, and returns their receipts. Their entries are one run of the pool, without
    /// another call in between. The gate is asked between two requests. The batch stops early where the gate says no, or where the next reply or
    /// its receipt can't be allocated; the receipts are then those of the first requests. For the second case the contract says only that the
    /// gate said yes and that there was room: no value tells that memory was refused. At `Err` nothing ran: NoView where one of them opens or
    /// closes a view; SessionFull where there isn't room for all; NoMemory where the entries, the receipts or the first reply can't be allocated.
    /// The entries are allocated before the lock is taken. A batch of no requests always succeeds, with no receipts.
    pub fn batch<R: Wait, G: Gate>(
        &self,
        alloc: Global,
        rt: &R,
        seat: &mut Seat<K>,
        requests: Vec<Request>,
        gate: &mut G,
    ) -> Result<Vec<Receipt>, Refusal>
        ensures ok { IfOk result (λ rs. IsBatch K.opening K.limit seat.old requests.items rs.items seat.new) }
        ensures empty { requests.items ≡ [] → IsOkAnd result (λ rs. rs.items ≡ []) }
        ensures paced { IfOk result (λ rs. IsPaced (vec_len requests) (G.left gate.old) (vec_len rs) (G.left gate.new) (G.stopped gate.new)) }
        ensures err { OnErr result ((seat.new ≡ seat.old) × (gate.new ≡ gate.old)) }
        ensures views { list_any is_of_views requests.items ≡ true → result ≡ Err Refusal.NoView }
        ensures refusal { IfErr result (λ r. IsFullOrNoMemory r ⊎ ((r ≡ Refusal.NoView) × (list_any is_of_views requests.items ≡ true))) }
    {
        if any_of_views(&requests) {
            drop(requests);
            return Err(Refusal::NoView);
        }
        let asked = requests.len();
        if asked == 0 {
            return Ok(Vec::new(alloc));
        }
        let receipts = Vec::with_capacity(alloc, asked)?;
        let mut calls = calls_of(alloc, seat, requests)?.into_iter();
        let Some(first) = calls.next() else {
            unreachable!()
        };
        let mut book = self.book.lock(rt);
        if book.room() < asked {
            drop(first);
            drop(calls);
            return Err(Refusal::SessionFull);
        }
        let first = enter_call(alloc, &mut book, seat, first)?;
        drop(first.viewed);
        let first = first.receipt;
        Ok(enter_rest(alloc, &mut book, seat, first, calls, receipts, gate))
    }
}

// Whether one of these requests opens or closes a view.
fn any_of_views(requests: &[Request]) -> bool
    ensures { result ≡ list_any is_of_views requests.now }
{
    requests.iter().any(|request| is_of_views(request))
}

// A seat's calls for these requests, each with its entry allocated. NoMemory where they can't be allocated. It costs their number.
fn calls_of<K: Opening>(
    alloc: Global,
    seat: &Seat<K>,
    requests: Vec<Request>,
) -> Result<Vec<Call>, Refusal>
    ensures ok { IfOk result (λ cs. cs.items ≡ map (λ q. record { seat = seat.now.number; request = q }) requests.items) }
    ensures err { OnErr result (result ≡ Err Refusal.NoMemory) }
{
    let mut calls = Vec::with_capacity(alloc, requests.len())?;
    for request in requests {
        let call = Call::new(alloc, seat, request)?;
        calls.push(call)?;
    }
    Ok(calls)
}

// Enters the calls after the first, and asks the gate before each. `first` is the receipt of the first call, which was entered last.
fn enter_rest<K: Opening, G: Gate>(
    alloc: Global,
    book: &mut Book<K>,
    seat: &mut Seat<K>,
    first: Receipt,
    rest: IntoIter<Call>,
    mut receipts: Vec<Receipt>,
    gate: &mut G,
) -> Vec<Receipt>
    requires last { first.number + 1 ≡ length book.old.history }
    requires own { All (λ a. a.seat ≡ seat.old.number) (into_iter_items rest) }
    requires none { receipts.items ≡ [] }
    requires room { 1 + length (into_iter_items rest) ≤ vec_capacity receipts }
    ensures added { (s : Kept) → Ran s first.entry.request first seat.old → IsAdded s result.items seat.new }
    ensures requested { IsBegun (first.entry.request ∷ map (λ a. a.request) (into_iter_items rest)) result.items }
    ensures follow { FollowOn first.number result.items }
    ensures ran { (s : State) → Step s first.entry.request first.entry.reply book.old.pool → IsLegal s (map (λ r. r.entry) result.items) book.new.pool }
    ensures paced { IsPaced (1 + length (into_iter_items rest)) (G.left gate.old) (vec_len result) (G.left gate.new) (G.stopped gate.new) }
{
    receipts.push_reserved(first);
    'calls: for call in rest {
        if !gate.turn() {
            drop(call);
            return receipts;
        }
        let Ok(entered) = enter_call(alloc, book, seat, call) else {
            return receipts;
        };
        drop(entered.viewed);
        receipts.push_reserved(entered.receipt);
    }
    receipts
}

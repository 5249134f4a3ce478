//! A session, which several threads share.
ghost use Rattle.std.specs.Prelude.{◌≡◌, ◌<◌, ◌≤◌, ◌⊎◌, true, [], Err, IfOk, IfErr, IfSome, OnErr, is_some};
ghost use Rattle.session.specs.Entering.{Ran, IsFullOrNoMemory, IsNoLimit, IsUnopened};
ghost use Rattle.session.specs.Entered.{is_opened};
ghost use Rattle.session.specs.History.{IsStepThere};
ghost use Rattle.session.specs.declared.book.book.TheConstants.{SEAT_LIMIT};
ghost use Rattle.session.specs.ViewCalls.{is_of_views};

use crate::book::{Book, Call, Entered, Opening, Pool, Receipt, Seat, enter_call};
use base::refusal::Refusal;
use model::request::Request;
use std::alloc::Global;
use std::sync::{Mutex, Wait};

/// A pool that threads share. Each call of it takes the one lock once.
pub struct Session<K: Opening> {
    pub(crate) book: Mutex<Book<K>>,
}

// Written by hand, so that it is proved once: a derived `Drop` is expanded again in each crate that drops the type.
impl<K: Opening> Drop for Session<K> {
    fn drop(self) {
        let Session { book } = self;
        drop(book);
    }
}

impl<K: Opening> Session<K> {
    /// A session of a pool, with room for `limit` calls, 1 to `CALL_LIMIT`. TooMany for another `limit`, NoMemory where the history can't be
    /// allocated, which is reserved here once. The pool is handed back with either.
    pub fn open(alloc: Global, pool: Pool, limit: u64) -> Result<Session<K>, (Refusal, Pool)>
        requires opening { pool.state ≡ K.opening }
        requires limit { limit ≡ K.limit }
        ensures back { IfErr result (λ e. e.1 ≡ pool) }
        ensures refusal { IfErr result (λ e. IsUnopened limit e.0) }
        ensures range { IsNoLimit limit → result ≡ Err (Refusal.TooMany, pool) }
    {
        match Book::open(alloc, pool, limit) {
            Ok(book) => Ok(Session {
                book: Mutex::new(book),
            }),
            Err(refused) => Err(refused),
        }
    }

    /// A new seat without receipts. Seats are numbered from 1 in the order in which they are given. TooManySeats once `SEAT_LIMIT` were given. It
    /// allocates nothing.
    pub fn seat<R: Wait>(&self, alloc: Global, rt: &R) -> Result<Seat<K>, Refusal>
        ensures new { IfOk result (λ s. (s.receipts ≡ []) × (0 < s.number) × (s.number ≤ SEAT_LIMIT)) }
        ensures refusal { IfErr result (λ r. r ≡ Refusal.TooManySeats) }
    {
        self.book.lock(rt).give_seat(alloc)
    }

    /// Applies a request, and returns its place in the history. Its reply is that of a step of the pool, from the state that the entries before
    /// it lead to; the receipt's number says how many these are. A request that the pool refuses has run, and its entry has the refusal as its
    /// reply. At `Err` nothing ran: NoView for a request that opens or closes a view, which is for `open_view` and `close_view`; SessionFull once
    /// the session has taken all its calls; NoMemory where the entry or its receipts can't be allocated. The entry is allocated before the lock
    /// is taken.
    pub fn call<R: Wait>(
        &self,
        alloc: Global,
        rt: &R,
        seat: &mut Seat<K>,
        request: Request,
    ) -> Result<Receipt, Refusal>
        ensures ok { IfOk result (λ r. Ran seat.old request r seat.new) }
        ensures there { IfOk result (λ r. IsStepThere K.opening r) }
        ensures room { IfOk result (λ r. r.number < K.limit) }
        ensures err { OnErr result (seat.new ≡ seat.old) }
        ensures views { is_of_views request ≡ true → result ≡ Err Refusal.NoView }
        ensures refusal { IfErr result (λ r. IsFullOrNoMemory r ⊎ ((r ≡ Refusal.NoView) × (is_of_views request ≡ true))) }
    {
        if is_of_views(&request) {
            drop(request);
            return Err(Refusal::NoView);
        }
        let Entered { receipt, viewed } = self.ask(alloc, rt, seat, request)?;
        drop(viewed);
        Ok(receipt)
    }

    // Applies a request of any kind as `call` does. Where the request opened a view, it also returns one more reference to the entry.
    pub(crate) fn ask<R: Wait>(
        &self,
        alloc: Global,
        rt: &R,
        seat: &mut Seat<K>,
        request: Request,
    ) -> Result<Entered, Refusal>
        ensures ok { IfOk result (λ r. Ran seat.old request r.receipt seat.new) }
        ensures there { IfOk result (λ r. IsStepThere K.opening r.receipt) }
        ensures room { IfOk result (λ r. r.receipt.number < K.limit) }
        ensures viewed { IfOk result (λ r. IfSome r.viewed (λ v. v.value ≡ r.receipt.entry)) }
        ensures opened { IfOk result (λ r. is_some r.viewed ≡ is_opened r.receipt.entry.reply) }
        ensures err { OnErr result (seat.new ≡ seat.old) }
        ensures refusal { IfErr result (λ r. IsFullOrNoMemory r) }
    {
        let call = Call::new(alloc, seat, request)?;
        let mut book = self.book.lock(rt);
        enter_call(alloc, &mut book, seat, call)
    }

    /// Returns the book out of the lock, once no thread has the session any more.
    pub fn end(self) -> Book<K> {
        let Session { book } = self;
        book.into_inner()
    }
}

// Whether the request opens or closes a view.
pub(crate) fn is_of_views(request: &Request) -> bool
    ensures { result ≡ is_of_views request.now }
{
    matches!(
        request,
        Request::OpenView { .. } | Request::CloseView { .. }
    )
}

//! Opening and closing of views.
ghost use Rattle.std.specs.Prelude.{◌≡◌, IfOk, IfErr, IfSome, OnErr, is_some};
ghost use Rattle.session.specs.Entering.{IsFullOrNoMemory};
ghost use Rattle.session.specs.Entered.{is_opened};
ghost use Rattle.session.specs.History.{IsStepThere};
ghost use Rattle.session.specs.ViewCalls.{HasOpened, HasClosed, IsOpenedBy, IsClosedBy, opening_receipt, closing_receipt};

use crate::book::{Entered, Opening, Receipt, Seat};
use crate::shared::Session;
use crate::view::{ClosedView, OpenedView, View};
use base::name::Target;
use base::refusal::Refusal;
use model::entry::Entry;
use model::reply::Reply;
use model::request::Request;
use std::alloc::Global;
use std::sync::{Arc, Wait};

impl<K: Opening> Session<K> {
    /// Opens a view of a snapshot. Its receipt is that of a step of the pool, as for `call`. A request that the pool refuses has run:
    /// NotSnapshot, NoDataset, Deferred or TooMany. At `Err` nothing ran: SessionFull once the session has taken all its calls, NoMemory where
    /// the entry or its receipts can't be allocated. The view shares the snapshot's tree by one more reference, so that it costs what finding the
    /// name does.
    pub fn open_view<R: Wait>(
        &self,
        alloc: Global,
        rt: &R,
        seat: &mut Seat<K>,
        target: Target,
    ) -> Result<OpenedView<K>, Refusal>
        ensures ok { IfOk result (λ o. HasOpened target seat.old o seat.new) }
        ensures there { IfOk result (λ o. IsStepThere K.opening (opening_receipt o)) }
        ensures err { OnErr result (seat.new ≡ seat.old) }
        ensures refusal { IfErr result (λ r. IsFullOrNoMemory r) }
    {
        let Entered { receipt, viewed } = self.ask(alloc, rt, seat, Request::OpenView { target })?;
        Ok(opened(receipt, viewed))
    }

    /// Closes a view by a step of the pool, as `call` does, and consumes it. On failure the view is handed back: with the receipt where the pool
    /// refused the request, by NoView or NoMemory; or with the refusal where nothing ran, which is SessionFull or NoMemory. The blocks that a
    /// deferred destroy had left for this view alone are to be freed then (zfs-destroy(8), -d). It costs what the pool's step does.
    pub fn close_view<R: Wait>(
        &self,
        alloc: Global,
        rt: &R,
        seat: &mut Seat<K>,
        view: View<K>,
    ) -> ClosedView<K>
        ensures closed { HasClosed seat.old view result seat.new }
        ensures there { IfSome (closing_receipt result) (λ r. IsStepThere K.opening r) }
    {
        let number = view.number();
        match self.ask(alloc, rt, seat, Request::CloseView { view: number }) {
            Ok(Entered { receipt, viewed }) => {
                drop(viewed);
                closed(receipt, view)
            }
            Err(refusal) => ClosedView::NotRun(refusal, view),
        }
    }
}

// The outcome of a request that opens a view, from its receipt and the view's reference to its entry.
fn opened<K: Opening>(receipt: Receipt, viewed: Option<Arc<Entry>>) -> OpenedView<K>
    requires viewed { IfSome viewed (λ v. v.value ≡ receipt.entry) }
    requires opened { is_some viewed ≡ is_opened receipt.entry.reply }
    ensures { IsOpenedBy receipt result }
{
    let Some(entry) = viewed else {
        return OpenedView::Refused(receipt);
    };
    match View::of(entry) {
        Some(view) => OpenedView::Opened(view, receipt),
        None => OpenedView::Refused(receipt),
    }
}

// The outcome of a request to close this view, from its receipt.
fn closed<K: Opening>(receipt: Receipt, view: View<K>) -> ClosedView<K>
    ensures { IsClosedBy receipt view result }
{
    if receipt.entry.reply.is(&Reply::Done) {
        ClosedView::Closed(receipt)
    } else {
        ClosedView::Refused(receipt, view)
    }
}

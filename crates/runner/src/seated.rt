//! A seat of a session that answers a script, with the views that it opened.
ghost use Rattle.std.specs.Prelude.{◌≡◌, ◌==◌, ◌<◌, false, length, IfSome};
ghost use Rattle.std.specs.List.{position};
ghost use Rattle.model.specs.declared.request.Request.{Request};
ghost use Rattle.session.specs.ViewCalls.{is_of_views};
ghost use Rattle.runner.specs.Beside.{Gains};

use crate::copies::reply_of;
use crate::turns::Lines;
use base::name::Target;
use base::refusal::Refusal;
use model::reply::Reply;
use model::request::Request;
use script::run::Caller;
use script::spare::SpareTarget;
use session::{ClosedView, OpenedView, Opening, Seat, Session, View};
use std::alloc::Global;
use std::marker::Model;
use std::sync::Wait;

/// The state that a script and its workers share: the session, and how far the script has come.
#[derive(Drop)]
pub(crate) struct Shared<K: Opening> {
    pub(crate) session: Session<K>,
    pub(crate) lines: Lines,
}

/// A seat of a session, the views that it opened and hasn't closed, and what its calls need. Contracts see the seat and the numbers of the views.
pub(crate) struct Seated<'t, 's, K: Opening, T: Wait> {
    pub(crate) alloc: Global,
    pub(crate) rt: &'t T,
    pub(crate) shared: &'s Shared<K>,
    pub(crate) seat: Seat<K>,
    pub(crate) views: Vec<View<K>>,
}

impl<'t, 's, K: Opening, T: Wait> Model for Seated<'t, 's, K, T> {
    ghost use Rattle.std.specs.Prelude.{map};
    ghost use Rattle.session.specs.Views.{Viewed};
    ghost use Rattle.runner.specs.Sitting.{Sitting, sitting_code};

    ghost Value = { Sitting };

    ghost coded = { sitting_code };

    ghost view = { λ s. record { seat = s.seat; held = map (λ (v : Viewed). v.number) s.views.items } };
}

impl<K: Opening, T: Wait> Caller for Seated<'_, '_, K, T> {
    ghost asks = { Gains };

    fn ask(&mut self, request: Request, reply: &mut Reply, _spare: &mut SpareTarget) -> bool {
        match self.asked(request) {
            Some(told) => {
                *reply = told;
                true
            }
            None => false,
        }
    }
}

impl<K: Opening, T: Wait> Seated<'_, '_, K, T> {
    // Makes any request, and returns its reply. None only where there is no memory for a copy of it.
    fn asked(&mut self, request: Request) -> Option<Reply>
        ensures { Gains self.old request result self.new }
    {
        self.shared.lines.ask(self.rt);
        match request {
            Request::OpenView { target } => self.open(target),
            Request::CloseView { view } => self.close(view),
            request => self.call(request),
        }
    }

    // Makes a request that neither opens nor closes a view.
    fn call(&mut self, request: Request) -> Option<Reply>
        requires { is_of_views request ≡ false }
        ensures { Gains self.old request result self.new }
    {
        let session = &self.shared.session;
        match session.call(self.alloc, self.rt, &mut self.seat, request) {
            Ok(receipt) => reply_of(self.alloc, receipt),
            Err(refusal) => Some(Reply::Refused(refusal)),
        }
    }

    // Opens a view, and keeps it.
    fn open(&mut self, target: Target) -> Option<Reply>
        ensures { Gains self.old (Request.OpenView target) result self.new }
    {
        if self.views.reserve(1).is_err() {
            drop(target);
            return Some(Reply::Refused(Refusal::NoMemory));
        }
        let session = &self.shared.session;
        match session.open_view(self.alloc, self.rt, &mut self.seat, target) {
            Ok(OpenedView::Opened(view, receipt)) => {
                self.views.push_reserved(view);
                reply_of(self.alloc, receipt)
            }
            Ok(OpenedView::Refused(receipt)) => reply_of(self.alloc, receipt),
            Err(refusal) => Some(Reply::Refused(refusal)),
        }
    }

    // Closes a view that it keeps.
    fn close(&mut self, number: u64) -> Option<Reply>
        ensures { Gains self.old (Request.CloseView number) result self.new }
    {
        let Some(place) = place_of(&self.views, number) else {
            return Some(Reply::Refused(Refusal::NoView));
        };
        let view = self.views.swap_remove(place);
        let session = &self.shared.session;
        match session.close_view(self.alloc, self.rt, &mut self.seat, view) {
            ClosedView::Closed(receipt) => reply_of(self.alloc, receipt),
            ClosedView::Refused(receipt, view) => {
                self.views.push_reserved(view);
                reply_of(self.alloc, receipt)
            }
            ClosedView::NotRun(refusal, view) => {
                self.views.push_reserved(view);
                Some(Reply::Refused(refusal))
            }
        }
    }
}

// The index of the first view with this number, if there is one.
fn place_of<K: Opening>(views: &[View<K>], number: u64) -> Option<usize>
    ensures first { result ≡ position (λ v. v.number == number) views.now }
    ensures within { IfSome result (λ place. place < length views.now) }
{
    views.iter().position(|view| view.number() == number)
}

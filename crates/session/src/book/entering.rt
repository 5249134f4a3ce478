//! Applies a call and stores its reply in the entry that the call brought.
ghost use Rattle.std.specs.Prelude.{◌≡◌, ◌↔◌, IsTrue, IfSome, IfNone, IfOk, is_some};
ghost use Rattle.model.specs.requests.{AnswersDone};
ghost use Rattle.model.specs.declared.reply.Reply.TheVariants.{Done};
ghost use Rattle.std.specs.Arc.{arc_value};
ghost use Rattle.std.specs.Option.{option_map};
ghost use Rattle.session.specs.Entered.{IsEntered, AreOwners, is_opened};

use crate::book::call::Call;
use base::refusal::Refusal;
use model::entry::{Entry, KeptReply};
use model::reply::Reply;
use model::request::Request;
use pool::Pool;
use std::alloc::Global;
use std::sync::Arc;

/// The references to one entry: that of the history, of the seat and of the caller, and, where the entry opened a view, that of the view.
#[derive(Drop)]
pub(crate) struct Owners {
    pub(crate) kept: Arc<Entry>,
    pub(crate) ours: Arc<Entry>,
    pub(crate) theirs: Arc<Entry>,
    pub(crate) viewed: Option<Arc<Entry>>,
}

/// Applies a call, and returns its entry. None, with the pool's state unchanged, where the reply can't be allocated.
pub(crate) fn entry_of(alloc: Global, pool: &mut Pool, call: Call) -> Option<Owners>
    ensures some { IfSome result (λ r. IsEntered pool.old.state call.seat call.request r.kept.value r.ours.value r.theirs.value (option_map arc_value r.viewed) pool.new.state) }
    ensures none { IfNone result (pool.new.state ≡ pool.old.state) }
{
    if answers_done(&call.kept.request) {
        changed(alloc, pool, call)
    } else {
        prepared(alloc, pool, call)
    }
}

/// Whether the reply to a request is Done, unless it is refused.
fn answers_done(request: &Request) -> bool
    ensures { IsTrue result → AnswersDone request.now }
{
    !matches!(
        request,
        Request::Read { .. }
            | Request::Get { .. }
            | Request::WrittenSince { .. }
            | Request::WouldFree { .. }
            | Request::PoolGet { .. }
            | Request::List
            | Request::Holds { .. }
            | Request::Send { .. }
            | Request::OpenView { .. }
            | Request::Slice { .. }
            | Request::Sync
    )
}

/// Changes the pool in place. The entry has the reply Done already, so only a refusal is stored in it.
fn changed(alloc: Global, pool: &mut Pool, call: Call) -> Option<Owners>
    requires { AnswersDone call.request }
    ensures some { IfSome result (λ r. IsEntered pool.old.state call.seat call.request r.kept.value r.ours.value r.theirs.value (option_map arc_value r.viewed) pool.new.state) }
    ensures none { IfNone result (pool.new.state ≡ pool.old.state) }
{
    let mut reply = Reply::Done;
    pool.apply(alloc, &call.kept.request, &mut reply);
    if is_done(&reply) {
        drop(reply);
        let Call { kept, ours, theirs } = call;
        return Some(Owners {
            kept,
            ours,
            theirs,
            viewed: None,
        });
    }
    answered(alloc, call, reply)
}

/// Prepares the step, stores its reply in the entry, and then commits the step.
fn prepared(alloc: Global, pool: &mut Pool, call: Call) -> Option<Owners>
    ensures some { IfSome result (λ r. IsEntered pool.old.state call.seat call.request r.kept.value r.ours.value r.theirs.value (option_map arc_value r.viewed) pool.new.state) }
    ensures none { IfNone result (pool.new.state ≡ pool.old.state) }
{
    let (reply, ready) = pool.prepare(alloc, &call.kept.request);
    let owners = answered(alloc, call, reply)?;
    pool.commit(ready);
    Some(owners)
}

/// The entry of a call with this reply. None where it can't be allocated.
fn answered(alloc: Global, call: Call, reply: Reply) -> Option<Owners>
    ensures { IfSome result (λ r. (r.kept.value ≡ record { seat = call.seat; request = call.request; reply = reply }) × AreOwners r.kept.value r.ours.value r.theirs.value (option_map arc_value r.viewed)) }
{
    let opens = is_opened(&reply);
    let reply = KeptReply::new(alloc, reply).ok()?;
    let Call {
        mut kept,
        ours,
        theirs,
    } = call;
    drop(ours);
    drop(theirs);
    match Arc::get_mut(&mut kept) {
        Some(entry) => entry.reply = reply,
        None => {
            drop(reply);
            return None;
        }
    }
    owners_of(kept, opens).ok()
}

/// This entry with the other references to it. NoMemory where one of them is refused.
fn owners_of(kept: Arc<Entry>, opens: bool) -> Result<Owners, Refusal>
    requires { opens ≡ is_opened kept.value.reply }
    ensures kept { IfOk result (λ r. r.kept.value ≡ kept.value) }
    ensures owners { IfOk result (λ r. AreOwners r.kept.value r.ours.value r.theirs.value (option_map arc_value r.viewed)) }
{
    let ours = Arc::try_clone(&kept)?;
    let theirs = Arc::try_clone(&kept)?;
    let viewed = owner_of_view(&kept, opens)?;
    Ok(Owners {
        kept,
        ours,
        theirs,
        viewed,
    })
}

/// One more reference to an entry, where it opened a view. NoMemory where it is refused.
fn owner_of_view(entry: &Arc<Entry>, opens: bool) -> Result<Option<Arc<Entry>>, Refusal>
    ensures ok { IfOk result (λ v. is_some v ≡ opens) }
    ensures same { IfOk result (λ v. IfSome v (λ a. a.value ≡ entry.now.value)) }
{
    if !opens {
        return Ok(None);
    }
    Ok(Some(Arc::try_clone(entry)?))
}

fn is_opened(reply: &Reply) -> bool
    ensures { result ≡ is_opened reply.now }
{
    matches!(reply, Reply::Opened(_, _))
}

fn is_done(reply: &Reply) -> bool
    ensures { IsTrue result ↔ (reply.now ≡ Done) }
{
    matches!(reply, Reply::Done)
}

//! Views of snapshots, which are read without the session.
ghost use Rattle.std.specs.Prelude.{◌≡◌, ◌↔◌, ◌⊎◌, false, None, Some, Err, IfSome, IfNone, IfOk, IfErr};
ghost use Rattle.std.specs.FinMap.{get};
ghost use Rattle.std.specs.Option.{option_copied, option_map};
ghost use Rattle.base.specs.Key.{leaf_index};
ghost use Rattle.base.specs.Map.{contents};
ghost use Rattle.model.specs.Targets.{is_block};
ghost use Rattle.model.specs.requests.Send.{start_of, stream_of};
ghost use Rattle.model.specs.declared.reply.Reply.TheVariants.{Opened as TheOpened};
ghost use Rattle.session.specs.Entered.{is_opened};
ghost use Rattle.model.specs.declared.request.Request.TheVariants.{Read as ToRead, Send as ToSend};
ghost use Rattle.session.specs.Views.{ReadsAs, SendsAs, AnswersAtOpening, reply_of, sent_reply, opened_name};

use crate::book::{Opening, Receipt};
use base::meter::Meter;
use base::name::Target;
use base::refusal::Refusal;
use base::text::Bytes;
use lookups::sources::start_in;
use lookups::stream_bytes;
use model::entry::Entry;
use model::reply::Reply;
use model::sight::Sight;
use std::alloc::Global;
use std::marker::{Model, PhantomData};
use std::sync::Arc;
use toll::Toll;

/// A view of a snapshot, which shows the snapshot as it was when the view was opened. It is read without the session, by any thread that has it,
/// while others go on. As long as it is open, a destroy or a rollback that would remove the snapshot answers Busy, and a deferred destroy waits
/// for it (zfs-destroy(8), -d). Contracts see the name of which it was opened, its number and what it shows.
pub struct View<K: Opening> {
    number: u64,
    entry: Arc<Entry>,
    of: PhantomData<K>,
}

// Written by hand, so that it is proved once: a derived `Drop` is expanded again in each crate that drops the type.
impl<K: Opening> Drop for View<K> {
    fn drop(self) {
        let View {
            number: _,
            entry,
            of: _,
        } = self;
        drop(entry);
    }
}

impl<K: Opening> Model for View<K> {
    ghost use Rattle.std.specs.Prelude.{◌≡◌};
    ghost use Rattle.std.specs.Arc.{arc_value};
    ghost use Rattle.model.specs.declared.reply.Reply.TheVariants.{Opened as TheOpened};
    ghost use Rattle.session.specs.Views.{Viewed, viewed_code, opened_name, seen_in};

    ghost Value = { Viewed };

    ghost coded = { viewed_code };

    ghost view = { λ v. record { target = opened_name (arc_value v.entry).request; number = v.number; sight = seen_in (arc_value v.entry).reply } };

    ghost invariant = { λ v. (arc_value v.entry).reply ≡ TheOpened v.number (seen_in (arc_value v.entry).reply) };
}

/// The outcome of `Session::open_view`.
#[derive(Drop)]
pub enum OpenedView<K: Opening> {
    /// The view, with the receipt of the request that opened it.
    Opened(View<K>, Receipt),
    /// The receipt of a request that the pool refused.
    Refused(Receipt),
}

/// The outcome of `Session::close_view`.
#[derive(Drop)]
pub enum ClosedView<K: Opening> {
    /// The receipt of the request that closed the view.
    Closed(Receipt),
    /// The receipt of a request that the pool refused, and the view, which is still open.
    Refused(Receipt, View<K>),
    /// The reason why nothing ran, and the view, which is still open.
    NotRun(Refusal, View<K>),
}

impl<K: Opening> View<K> {
    // The view that this entry opened, if it opened one.
    pub(crate) fn of(entry: Arc<Entry>) -> Option<View<K>>
        ensures some { IfSome result (λ v. entry.value.reply ≡ TheOpened v.number v.sight) }
        ensures named { IfSome result (λ v. v.target ≡ opened_name entry.value.request) }
        ensures none { IfNone result (is_opened entry.value.reply ≡ false) }
    {
        let Some(Reply::Opened(number, _)) = entry.reply.other() else {
            return None;
        };
        let number = *number;
        Some(View {
            number,
            entry,
            of: PhantomData,
        })
    }

    /// The number under which the pool knows the view. Constant time.
    pub fn number(&self) -> u64
        ensures { result ≡ self.now.number }
    {
        self.number
    }

    /// The 512 bytes of a block of an object of the snapshot, or None where it is a hole. This is what Read would have answered in the place of
    /// the request that opened the view, whatever was requested since. BadKey exactly where the object is above 255 or the block above 4095. It
    /// takes no lock and allocates nothing, and costs the nodes from the root to the block: at most six.
    pub fn read(&self, object: u32, block: u32) -> Result<Option<[u8; 512]>, Refusal>
        ensures ok { IfOk result (λ bytes. bytes ≡ get (contents self.now.sight.map) (leaf_index object block)) }
        ensures bad_key { (result ≡ Err Refusal.BadKey) ↔ (is_block object block ≡ false) }
        ensures as_read { ReadsAs self.now.sight object block result }
        ensures at_opening { AnswersAtOpening self.now (λ target. ToRead target object block) (reply_of result) }
    {
        let mut meter = Meter::new(Toll::new());
        let sight = self.sight();
        let bytes = tree::objset::read(sight.tree(), object, block, &mut meter)?;
        Ok(bytes.copied())
    }

    /// The stream of the snapshot, full or incremental from a source (zfs-send(8), -i). This is what Send of the snapshot would have answered in
    /// the place of the request that opened the view, whatever was requested since; the source may be destroyed by then. NotAncestor exactly
    /// where the source was neither an older snapshot of its lineage nor a bookmark of its file system of a lower group; else NoMemory where
    /// memory is refused. It takes no lock. It costs the sources, the nodes younger than the source's group, each with its sixteen places, and
    /// the bytes, which are in memory together with the records.
    pub fn send(&self, alloc: Global, from: Option<&Target>) -> Result<Bytes, Refusal>
        ensures ok { IfOk result (λ bytes. option_map (stream_of self.now.sight) (start_of self.now.sight.sources (option_copied from.entry)) ≡ Some bytes) }
        ensures not_ancestor { (result ≡ Err Refusal.NotAncestor) ↔ (start_of self.now.sight.sources (option_copied from.entry) ≡ None) }
        ensures refusal { IfErr result (λ r. (r ≡ Refusal.NotAncestor) ⊎ (r ≡ Refusal.NoMemory)) }
        ensures as_sent { SendsAs self.now.sight (option_copied from.entry) result }
        ensures at_opening { AnswersAtOpening self.now (λ target. ToSend target (option_copied from.entry)) (sent_reply result) }
    {
        let sight = self.sight();
        let Some(start) = start_in(sight.sources(), from) else {
            return Err(Refusal::NotAncestor);
        };
        let mut meter = Meter::new(Toll::new());
        stream_bytes(
            alloc,
            sight.tree(),
            start.source(),
            start.group,
            sight.guid(),
            &mut meter,
        )
    }

    // What the view shows.
    fn sight(&self) -> &Sight
        ensures { result.now ≡ self.now.sight }
    {
        let Some(Reply::Opened(_, sight)) = self.entry.reply.other() else {
            unreachable!()
        };
        sight
    }

    /// Drops the view without closing it, and returns its number. The snapshot stays in use until the pool itself is asked for CloseView.
    /// Constant time.
    pub fn forget(self) -> u64
        ensures { result ≡ self.number }
    {
        self.number
    }
}

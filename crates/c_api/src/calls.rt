//! The calls on a handle. Each takes the pool out of it, makes the call of [`Host`] that it is named after, and puts the pool back.
ghost use Rattle.std.specs.Prelude.{◌≡◌, Some, None, IfOk, IfErr};
ghost use Rattle.c_api.specs.Asking.{asked_create, asked_clone, asked_destroy, asked_destroy_snapshots, asked_promote, asked_rename, asked_rename_snapshot, asked_rollback, asked_snapshot, asked_bookmark, asked_hold, asked_release, asked_holds};
ghost use Rattle.c_api.specs.Asking.{asked_punch, asked_free_object, asked_written_since, asked_would_free, mode_at, property_at, pool_property_at, limit_at};
ghost use Rattle.script.specs.Words.{amount_of_bytes};
ghost use Rattle.c_api.specs.Calls.{Calls, Creates, IsFresh, CanBe, CreateRefused, Does, Writes, ReadsBlock, TellsNumber, GetsOf, PoolGetsOf, SetsOf, ReceivesOf, Syncs, Slices, OpensView, Lists, NamesPiece, Sends, Answers, RepliesPiece, StreamsPiece, Forgotten};
ghost use Rattle.model.specs.declared.request.Request.TheVariants.{Abandon, CloseView, List};

use crate::answer::Answer;
use crate::handle::YuzPool;
use crate::host::Host;
use base::refusal::Refusal;
use pool::MOST_BLOCKS;
use std::alloc::Global;

// Takes the pool out of a handle, makes a call of it and puts it back. The result is the call's answer, or NoPool where the handle has no pool.
macro_rules! on_host {
    ($alloc:ident, $pool:ident, |$host:ident| $call:expr) => {{
        let Some(mut $host) = $pool.take($alloc) else {
            return Answer::NoPool;
        };
        let answer = $call;
        $pool.put($host);
        answer
    }};
}

impl YuzPool {
    /// Makes a pool in a handle that has none, as `Host::create`. HasPool where the handle has one.
    pub fn create(&mut self, alloc: Global, id: u32, blocks: u32) -> Answer
        ensures { Creates MOST_BLOCKS id blocks self.old.slot.host result self.new.slot.host }
    {
        if let Some(host) = self.take(alloc) {
            self.put(host);
            return Answer::HasPool;
        }
        match created(alloc, id, blocks) {
            Ok(host) => {
                self.put(host);
                Answer::Done
            }
            Err(refusal) => Answer::Refused(refusal),
        }
    }

    /// Frees a pool with all its memory. A handle that has none is unchanged.
    pub fn free(&mut self, alloc: Global)
        ensures { self.new.slot.host ≡ None }
    {
        if let Some(host) = self.take(alloc) {
            drop(host);
        }
    }

    /// Answers a script line, as `Host::line`.
    pub fn line(
        &mut self,
        alloc: Global,
        line: &[u8],
        refusal: &mut u32,
        size: &mut usize,
    ) -> Answer
        ensures { Calls (Answers line.now refusal.old refusal.new size.new) self.old.slot.host result self.new.slot.host }
    {
        on_host!(alloc, self, |host| host.line(line, refusal, size))
    }

    /// Copies bytes of the last reply, as `Host::reply_piece`, and writes their number to `count`.
    pub fn reply_piece(
        &mut self,
        alloc: Global,
        from: usize,
        buffer: &mut [u8],
        count: &mut usize,
    ) -> Answer
        ensures { Calls (RepliesPiece from buffer.old buffer.new count.new) self.old.slot.host result self.new.slot.host }
    {
        on_host!(alloc, self, |host| {
            *count = host.reply_piece(from, buffer);
            Answer::Done
        })
    }

    /// Writes a block, as `Host::write`.
    pub fn write(
        &mut self,
        alloc: Global,
        name: &[u8],
        object: u32,
        block: u32,
        bytes: &[u8],
    ) -> Answer
        ensures { Calls (Writes name.now object block bytes.now) self.old.slot.host result self.new.slot.host }
    {
        on_host!(alloc, self, |host| host.write(name, object, block, bytes))
    }

    /// Reads a block, as `Host::read`.
    pub fn read(
        &mut self,
        alloc: Global,
        name: &[u8],
        object: u32,
        block: u32,
        buffer: &mut [u8],
        is_hole: &mut bool,
    ) -> Answer
        ensures { Calls (ReadsBlock name.now object block buffer.old is_hole.old buffer.new is_hole.new) self.old.slot.host result self.new.slot.host }
    {
        on_host!(
            alloc,
            self,
            |host| host.read(name, object, block, buffer, is_hole)
        )
    }

    /// Punches a block, as `Host::punch`.
    pub fn punch(&mut self, alloc: Global, name: &[u8], object: u32, block: u32) -> Answer
        ensures { Calls (Does (asked_punch name.now object block)) self.old.slot.host result self.new.slot.host }
    {
        on_host!(alloc, self, |host| host.punch(name, object, block))
    }

    /// Takes a snapshot, as `Host::snapshot`.
    pub fn snapshot(&mut self, alloc: Global, name: &[u8], recursive: bool) -> Answer
        ensures { Calls (Does (asked_snapshot name.now recursive)) self.old.slot.host result self.new.slot.host }
    {
        on_host!(alloc, self, |host| host.snapshot(name, recursive))
    }

    /// Gets a property of a dataset, as `Host::get`.
    pub fn get(&mut self, alloc: Global, name: &[u8], property: u32, value: &mut u64) -> Answer
        ensures { Calls (GetsOf name.now (property_at property) value.old value.new) self.old.slot.host result self.new.slot.host }
    {
        on_host!(alloc, self, |host| host.get(name, property, value))
    }

    /// Syncs the pool, as `Host::sync`.
    pub fn sync(&mut self, alloc: Global, group: &mut u64) -> Answer
        ensures { Calls (Syncs group.old group.new) self.old.slot.host result self.new.slot.host }
    {
        on_host!(alloc, self, |host| host.sync(group))
    }

    /// Frees blocks of what was destroyed, as `Host::slice`.
    pub fn slice(&mut self, alloc: Global, count: u64, taken: &mut u64) -> Answer
        ensures { Calls (Slices count taken.old taken.new) self.old.slot.host result self.new.slot.host }
    {
        on_host!(alloc, self, |host| host.slice(count, taken))
    }

    /// Goes back to the last sync, as `Host::abandon`.
    pub fn abandon(&mut self, alloc: Global) -> Answer
        ensures { Calls (Does (Some Abandon)) self.old.slot.host result self.new.slot.host }
    {
        on_host!(alloc, self, |host| host.abandon())
    }

    /// Makes the stream of a snapshot, as `Host::send`.
    pub fn send(&mut self, alloc: Global, name: &[u8], from: &[u8], size: &mut usize) -> Answer
        ensures { Calls (Sends name.now from.now size.new) self.old.slot.host result self.new.slot.host }
    {
        on_host!(alloc, self, |host| host.send(name, from, size))
    }

    /// Copies bytes of the last stream, as `Host::stream_piece`, and writes their number to `count`.
    pub fn stream_piece(
        &mut self,
        alloc: Global,
        from: usize,
        buffer: &mut [u8],
        count: &mut usize,
    ) -> Answer
        ensures { Calls (StreamsPiece from buffer.old buffer.new count.new) self.old.slot.host result self.new.slot.host }
    {
        on_host!(alloc, self, |host| {
            *count = host.stream_piece(from, buffer);
            Answer::Done
        })
    }

    /// Receives a stream as a snapshot, as `Host::receive`.
    pub fn receive(
        &mut self,
        alloc: Global,
        name: &[u8],
        bytes: &[u8],
        mode: u32,
        origin: &[u8],
    ) -> Answer
        ensures { Calls (ReceivesOf name.now bytes.now (mode_at mode origin.now)) self.old.slot.host result self.new.slot.host }
    {
        on_host!(alloc, self, |host| host.receive(name, bytes, mode, origin))
    }

    /// Frees the last reply, stream and list, as `Host::forget`.
    pub fn forget(&mut self, alloc: Global) -> Answer
        ensures { Calls Forgotten self.old.slot.host result self.new.slot.host }
    {
        on_host!(alloc, self, |host| host.forget())
    }

    /// Creates a file system, as `Host::create_file_system`.
    pub fn create_file_system(&mut self, alloc: Global, name: &[u8]) -> Answer
        ensures { Calls (Does (asked_create name.now)) self.old.slot.host result self.new.slot.host }
    {
        on_host!(alloc, self, |host| host.create_file_system(name))
    }

    /// Makes a clone of a snapshot, as `Host::clone_snapshot`.
    pub fn clone_snapshot(&mut self, alloc: Global, snapshot: &[u8], name: &[u8]) -> Answer
        ensures { Calls (Does (asked_clone snapshot.now name.now)) self.old.slot.host result self.new.slot.host }
    {
        on_host!(alloc, self, |host| host.clone_snapshot(snapshot, name))
    }

    /// Destroys a dataset or a bookmark, as `Host::destroy`.
    pub fn destroy(&mut self, alloc: Global, name: &[u8], recursive: bool, defer: bool) -> Answer
        ensures { Calls (Does (asked_destroy name.now recursive defer)) self.old.slot.host result self.new.slot.host }
    {
        on_host!(alloc, self, |host| host.destroy(name, recursive, defer))
    }

    /// Destroys snapshots, all or none of them, as `Host::destroy_snapshots`.
    pub fn destroy_snapshots(
        &mut self,
        alloc: Global,
        names: &[u8],
        recursive: bool,
        defer: bool,
    ) -> Answer
        ensures { Calls (Does (asked_destroy_snapshots names.now recursive defer)) self.old.slot.host result self.new.slot.host }
    {
        on_host!(
            alloc,
            self,
            |host| host.destroy_snapshots(names, recursive, defer)
        )
    }

    /// Promotes a clone, as `Host::promote`.
    pub fn promote(&mut self, alloc: Global, name: &[u8]) -> Answer
        ensures { Calls (Does (asked_promote name.now)) self.old.slot.host result self.new.slot.host }
    {
        on_host!(alloc, self, |host| host.promote(name))
    }

    /// Renames a file system, and with it all below it, as `Host::rename`.
    pub fn rename(&mut self, alloc: Global, name: &[u8], to: &[u8]) -> Answer
        ensures { Calls (Does (asked_rename name.now to.now)) self.old.slot.host result self.new.slot.host }
    {
        on_host!(alloc, self, |host| host.rename(name, to))
    }

    /// Renames a snapshot, as `Host::rename_snapshot`.
    pub fn rename_snapshot(
        &mut self,
        alloc: Global,
        name: &[u8],
        to: &[u8],
        recursive: bool,
    ) -> Answer
        ensures { Calls (Does (asked_rename_snapshot name.now to.now recursive)) self.old.slot.host result self.new.slot.host }
    {
        on_host!(
            alloc,
            self,
            |host| host.rename_snapshot(name, to, recursive)
        )
    }

    /// Rolls back to a snapshot, as `Host::rollback`.
    pub fn rollback(&mut self, alloc: Global, snapshot: &[u8], later: bool) -> Answer
        ensures { Calls (Does (asked_rollback snapshot.now later)) self.old.slot.host result self.new.slot.host }
    {
        on_host!(alloc, self, |host| host.rollback(snapshot, later))
    }

    /// Makes a bookmark of a snapshot, as `Host::bookmark`.
    pub fn bookmark(&mut self, alloc: Global, snapshot: &[u8], mark: &[u8]) -> Answer
        ensures { Calls (Does (asked_bookmark snapshot.now mark.now)) self.old.slot.host result self.new.slot.host }
    {
        on_host!(alloc, self, |host| host.bookmark(snapshot, mark))
    }

    /// Adds a hold to a snapshot, as `Host::hold`.
    pub fn hold(&mut self, alloc: Global, tag: &[u8], snapshot: &[u8]) -> Answer
        ensures { Calls (Does (asked_hold tag.now snapshot.now)) self.old.slot.host result self.new.slot.host }
    {
        on_host!(alloc, self, |host| host.hold(tag, snapshot))
    }

    /// Releases a hold on a snapshot, as `Host::release`.
    pub fn release(&mut self, alloc: Global, tag: &[u8], snapshot: &[u8]) -> Answer
        ensures { Calls (Does (asked_release tag.now snapshot.now)) self.old.slot.host result self.new.slot.host }
    {
        on_host!(alloc, self, |host| host.release(tag, snapshot))
    }

    /// Sets or removes a limit of a file system, as `Host::set`.
    pub fn set(&mut self, alloc: Global, name: &[u8], limit: u32, amount: u64) -> Answer
        ensures { Calls (SetsOf name.now (limit_at limit) (amount_of_bytes amount)) self.old.slot.host result self.new.slot.host }
    {
        on_host!(alloc, self, |host| host.set(name, limit, amount))
    }

    /// Frees an object, as `Host::free_object`.
    pub fn free_object(&mut self, alloc: Global, name: &[u8], object: u32) -> Answer
        ensures { Calls (Does (asked_free_object name.now object)) self.old.slot.host result self.new.slot.host }
    {
        on_host!(alloc, self, |host| host.free_object(name, object))
    }

    /// Opens a view of a snapshot, as `Host::open_view`.
    pub fn open_view(&mut self, alloc: Global, snapshot: &[u8], view: &mut u64) -> Answer
        ensures { Calls (OpensView snapshot.now view.old view.new) self.old.slot.host result self.new.slot.host }
    {
        on_host!(alloc, self, |host| host.open_view(snapshot, view))
    }

    /// Closes a view, as `Host::close_view`.
    pub fn close_view(&mut self, alloc: Global, view: u64) -> Answer
        ensures { Calls (Does (Some (CloseView view))) self.old.slot.host result self.new.slot.host }
    {
        on_host!(alloc, self, |host| host.close_view(view))
    }

    /// Tells how many bytes were written since a snapshot, as `Host::written_since`.
    pub fn written_since(
        &mut self,
        alloc: Global,
        name: &[u8],
        since: &[u8],
        value: &mut u64,
    ) -> Answer
        ensures { Calls (TellsNumber (asked_written_since name.now since.now) value.old value.new) self.old.slot.host result self.new.slot.host }
    {
        on_host!(alloc, self, |host| host.written_since(name, since, value))
    }

    /// Tells how many bytes destroying a range of snapshots would free, as `Host::would_free`.
    pub fn would_free(
        &mut self,
        alloc: Global,
        name: &[u8],
        first: &[u8],
        last: &[u8],
        value: &mut u64,
    ) -> Answer
        ensures { Calls (TellsNumber (asked_would_free name.now first.now last.now) value.old value.new) self.old.slot.host result self.new.slot.host }
    {
        on_host!(
            alloc,
            self,
            |host| host.would_free(name, first, last, value)
        )
    }

    /// Gets a property of the pool, as `Host::pool_get`.
    pub fn pool_get(&mut self, alloc: Global, property: u32, value: &mut u64) -> Answer
        ensures { Calls (PoolGetsOf (pool_property_at property) value.old value.new) self.old.slot.host result self.new.slot.host }
    {
        on_host!(alloc, self, |host| host.pool_get(property, value))
    }

    /// Lists all datasets and bookmarks, as `Host::list`.
    pub fn list(&mut self, alloc: Global, size: &mut usize) -> Answer
        ensures { Calls (Lists (Some List) size.new) self.old.slot.host result self.new.slot.host }
    {
        on_host!(alloc, self, |host| host.list(size))
    }

    /// Lists the tags of a snapshot's holds, as `Host::holds`.
    pub fn holds(&mut self, alloc: Global, snapshot: &[u8], size: &mut usize) -> Answer
        ensures { Calls (Lists (asked_holds snapshot.now) size.new) self.old.slot.host result self.new.slot.host }
    {
        on_host!(alloc, self, |host| host.holds(snapshot, size))
    }

    /// Copies a name of the last list, as `Host::name_piece`.
    pub fn name_piece(
        &mut self,
        alloc: Global,
        index: usize,
        buffer: &mut [u8],
        size: &mut usize,
    ) -> Answer
        ensures { Calls (NamesPiece index buffer.old buffer.new size.old size.new) self.old.slot.host result self.new.slot.host }
    {
        on_host!(alloc, self, |host| host.name_piece(index, buffer, size))
    }
}

// A new host, boxed.
fn created(alloc: Global, id: u32, blocks: u32) -> Result<Box<Host>, Refusal>
    ensures can { IfOk result (λ _. CanBe MOST_BLOCKS id blocks) }
    ensures fresh { IfOk result (λ host. IsFresh id blocks host.value) }
    ensures err { IfErr result (λ why. CreateRefused MOST_BLOCKS id blocks why) }
{
    let host = Host::create(alloc, id, blocks)?;
    Ok(Box::new(alloc, host)?)
}

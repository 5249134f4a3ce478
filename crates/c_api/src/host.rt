//! A pool with the last reply, stream and list, which C fetches in parts.
ghost use Rattle.std.specs.Prelude.{◌≡◌, Option, Some, IfOk, IfErr, length};
ghost use Rattle.model.specs.Step.{Step};
ghost use Rattle.c_api.specs.Answers.{answer_of, number_in, view_in, names_in, stream_in};
ghost use Rattle.c_api.specs.Asking.{asked_create, asked_clone, asked_destroy, asked_destroy_snapshots, asked_promote, asked_rename, asked_rename_snapshot, asked_rollback, asked_snapshot, asked_bookmark, asked_hold, asked_release, asked_holds};
ghost use Rattle.c_api.specs.Asking.{asked_punch, asked_free_object, asked_written_since, asked_would_free, mode_at, property_at, pool_property_at, limit_at};
ghost use Rattle.script.specs.Words.{amount_of_bytes};
ghost use Rattle.c_api.specs.Calls.{Does, Asks, KeepsResults, Writes, ReadsBlock, ReadInto, TellsNumber, GetsOf, PoolGetsOf, SetsOf, ReceivesOf, Syncs, Slices, OpensView, Lists, NamesPiece, Sends, Answers, number_told, Forgotten, IsFresh, CanBe, CreateRefused};
ghost use Rattle.c_api.specs.Pieces.{IsPiece};
ghost use Rattle.base.specs.Reading.{Reads};
ghost use Rattle.model.specs.declared.request.Request.{Request};
ghost use Rattle.model.specs.declared.request.Request.TheVariants.{Abandon, CloseView, List};

use crate::answer::Answer;
use crate::asking::{
    ask_bookmark, ask_clone, ask_create, ask_destroy, ask_destroy_snapshots, ask_free_object,
    ask_get, ask_hold, ask_holds, ask_open_view, ask_promote, ask_punch, ask_read, ask_receive,
    ask_release, ask_rename, ask_rename_snapshot, ask_rollback, ask_send, ask_set, ask_snapshot,
    ask_would_free, ask_write, ask_written_since, limit_of, mode_of, pool_property_of, property_of,
};
use crate::pieces::copy_piece;
use base::refusal::Refusal;
use base::text::Bytes;
use model::names::Names;
use model::reply::{Reply, Value};
use model::request::Request;
use pool::{MOST_BLOCKS, Pool};
use runner::{PoolCaller, unserved_laws};
use script::run::answer_line;
use script::settings::amount_of;
use std::alloc::Global;

/// A pool, the reply of its last line, the stream of its last send and the names of its last list. Each call makes one step of the pool, or none.
#[derive(Drop)]
pub struct Host {
    pub caller: PoolCaller,
    pub reply: Vec<u8>,
    pub stream: Bytes,
    pub names: Names,
}

impl Host {
    /// A host of a new pool. BadName for id 0, else TooMany for no block or more than `MOST_BLOCKS`, else NoMemory, as for `Pool::create`.
    pub fn create(alloc: Global, id: u32, blocks: u32) -> Result<Host, Refusal>
        ensures can { IfOk result (λ _. CanBe MOST_BLOCKS id blocks) }
        ensures fresh { IfOk result (λ host. IsFresh id blocks host) }
        ensures err { IfErr result (λ why. CreateRefused MOST_BLOCKS id blocks why) }
    {
        let pool = Pool::create(alloc, id, blocks)?;
        Ok(Host {
            caller: PoolCaller { alloc, pool },
            reply: Vec::new(alloc),
            stream: Bytes::from(Vec::new(alloc)),
            names: Names::from(Vec::new(alloc)),
        })
    }

    // Makes a request to the pool.
    fn ask(&mut self, request: Request) -> Reply
        ensures step { Step self.old.caller request result self.new.caller }
        ensures results { KeepsResults self.old self.new }
    {
        let alloc = self.caller.alloc;
        let mut reply = Reply::Done;
        self.caller.pool.apply(alloc, &request, &mut reply);
        drop(request);
        reply
    }

    // Makes a request to the pool if its names could be read; the reply is the refusal if not.
    fn ask_read_one(&mut self, request: Result<Request, Refusal>) -> Reply
        ensures asked { (read : Option Request) → Reads request read → Asks self.old.caller read self.new.caller (λ reply. reply ≡ result) }
        ensures results { KeepsResults self.old self.new }
    {
        match request {
            Ok(request) => self.ask(request),
            Err(refusal) => Reply::Refused(refusal),
        }
    }

    // Makes a request whose names were read, and returns the answer.
    fn tell(&mut self, request: Result<Request, Refusal>) -> Answer
        ensures { (read : Option Request) → Reads request read → Does read self.old result self.new }
    {
        Answer::of(&self.ask_read_one(request))
    }

    // Makes a request for a number, whose names were read, and writes the number to `value`.
    fn tell_number_of(&mut self, request: Result<Request, Refusal>, value: &mut u64) -> Answer
        ensures { (read : Option Request) → Reads request read → TellsNumber read value.old value.new self.old result self.new }
    {
        let reply = self.ask_read_one(request);
        tell_number(&reply, value);
        Answer::of_number(&reply)
    }

    /// Creates an empty file system, as `Request::Create`.
    pub fn create_file_system(&mut self, name: &[u8]) -> Answer
        ensures { Does (asked_create name.now) self.old result self.new }
    {
        let request = ask_create(self.caller.alloc, name);
        self.tell(request)
    }

    /// Makes a clone of a snapshot, as `Request::Clone`.
    pub fn clone_snapshot(&mut self, snapshot: &[u8], name: &[u8]) -> Answer
        ensures { Does (asked_clone snapshot.now name.now) self.old result self.new }
    {
        let request = ask_clone(self.caller.alloc, snapshot, name);
        self.tell(request)
    }

    /// Destroys a file system, a snapshot or a bookmark, as `Request::Destroy`.
    pub fn destroy(&mut self, name: &[u8], recursive: bool, defer: bool) -> Answer
        ensures { Does (asked_destroy name.now recursive defer) self.old result self.new }
    {
        let request = ask_destroy(self.caller.alloc, name, recursive, defer);
        self.tell(request)
    }

    /// Destroys snapshots, all or none of them, as `Request::Destroy`. A space stands between two names.
    pub fn destroy_snapshots(&mut self, names: &[u8], recursive: bool, defer: bool) -> Answer
        ensures { Does (asked_destroy_snapshots names.now recursive defer) self.old result self.new }
    {
        let request = ask_destroy_snapshots(self.caller.alloc, names, recursive, defer);
        self.tell(request)
    }

    /// Promotes a clone, which takes over its origin, as `Request::Promote`.
    pub fn promote(&mut self, name: &[u8]) -> Answer
        ensures { Does (asked_promote name.now) self.old result self.new }
    {
        let request = ask_promote(self.caller.alloc, name);
        self.tell(request)
    }

    /// Renames a file system, and with it all below it, as `Request::Rename`.
    pub fn rename(&mut self, name: &[u8], to: &[u8]) -> Answer
        ensures { Does (asked_rename name.now to.now) self.old result self.new }
    {
        let request = ask_rename(self.caller.alloc, name, to);
        self.tell(request)
    }

    /// Renames a snapshot, as `Request::RenameSnapshot`. `name` is its whole name, and `to` the new part after the `@`.
    pub fn rename_snapshot(&mut self, name: &[u8], to: &[u8], recursive: bool) -> Answer
        ensures { Does (asked_rename_snapshot name.now to.now recursive) self.old result self.new }
    {
        let request = ask_rename_snapshot(self.caller.alloc, name, to, recursive);
        self.tell(request)
    }

    /// Rolls back to a snapshot, as `Request::Rollback`.
    pub fn rollback(&mut self, snapshot: &[u8], later: bool) -> Answer
        ensures { Does (asked_rollback snapshot.now later) self.old result self.new }
    {
        let request = ask_rollback(self.caller.alloc, snapshot, later);
        self.tell(request)
    }

    /// Makes a bookmark of a snapshot, as `Request::Bookmark`.
    pub fn bookmark(&mut self, snapshot: &[u8], mark: &[u8]) -> Answer
        ensures { Does (asked_bookmark snapshot.now mark.now) self.old result self.new }
    {
        let request = ask_bookmark(self.caller.alloc, snapshot, mark);
        self.tell(request)
    }

    /// Adds a hold with a tag to a snapshot, as `Request::Hold`.
    pub fn hold(&mut self, tag: &[u8], snapshot: &[u8]) -> Answer
        ensures { Does (asked_hold tag.now snapshot.now) self.old result self.new }
    {
        let request = ask_hold(self.caller.alloc, tag, snapshot);
        self.tell(request)
    }

    /// Releases the hold with a tag on a snapshot, as `Request::Release`.
    pub fn release(&mut self, tag: &[u8], snapshot: &[u8]) -> Answer
        ensures { Does (asked_release tag.now snapshot.now) self.old result self.new }
    {
        let request = ask_release(self.caller.alloc, tag, snapshot);
        self.tell(request)
    }

    /// Sets a limit of a file system to an amount in bytes, or removes it where the amount is 0, as `Request::Set`. NoProperty where no limit has
    /// this number, BadAmount where the amount isn't a multiple of 512 or is more than 2^49.
    pub fn set(&mut self, name: &[u8], limit: u32, amount: u64) -> Answer
        ensures { SetsOf name.now (limit_at limit) (amount_of_bytes amount) self.old result self.new }
    {
        let Some(limit) = limit_of(limit) else {
            return Answer::NoProperty;
        };
        let Some(amount) = amount_of(amount) else {
            return Answer::BadAmount;
        };
        let request = ask_set(self.caller.alloc, name, limit, amount);
        self.tell(request)
    }

    /// Makes each block of an object a hole, as `Request::FreeObject`.
    pub fn free_object(&mut self, name: &[u8], object: u32) -> Answer
        ensures { Does (asked_free_object name.now object) self.old result self.new }
    {
        let request = ask_free_object(self.caller.alloc, name, object);
        self.tell(request)
    }

    /// Opens a view of a snapshot, as `Request::OpenView`, and writes its number to `view`.
    pub fn open_view(&mut self, snapshot: &[u8], view: &mut u64) -> Answer
        ensures { OpensView snapshot.now view.old view.new self.old result self.new }
    {
        let request = ask_open_view(self.caller.alloc, snapshot);
        let reply = self.ask_read_one(request);
        tell_view(&reply, view);
        Answer::of(&reply)
    }

    /// Closes a view, as `Request::CloseView`.
    pub fn close_view(&mut self, view: u64) -> Answer
        ensures { Does (Some (CloseView view)) self.old result self.new }
    {
        Answer::of(&self.ask(Request::CloseView { view }))
    }

    /// Writes to `value` how many bytes were written to a dataset since an older snapshot, as `Request::WrittenSince`.
    pub fn written_since(&mut self, name: &[u8], since: &[u8], value: &mut u64) -> Answer
        ensures { TellsNumber (asked_written_since name.now since.now) value.old value.new self.old result self.new }
    {
        let request = ask_written_since(self.caller.alloc, name, since);
        self.tell_number_of(request, value)
    }

    /// Writes to `value` how many bytes destroying a range of a file system's snapshots would free, as `Request::WouldFree`.
    pub fn would_free(&mut self, name: &[u8], first: &[u8], last: &[u8], value: &mut u64) -> Answer
        ensures { TellsNumber (asked_would_free name.now first.now last.now) value.old value.new self.old result self.new }
    {
        let request = ask_would_free(self.caller.alloc, name, first, last);
        self.tell_number_of(request, value)
    }

    /// Writes a property of the pool to `value`, as `Request::PoolGet`. NoProperty where none has this number.
    pub fn pool_get(&mut self, property: u32, value: &mut u64) -> Answer
        ensures { PoolGetsOf (pool_property_at property) value.old value.new self.old result self.new }
    {
        let Some(property) = pool_property_of(property) else {
            return Answer::NoProperty;
        };
        self.tell_number_of(Ok(Request::PoolGet { property }), value)
    }

    /// Lists all datasets and bookmarks, as `Request::List`. The names replace those of the last list; a refused list leaves the last one in
    /// place. In both cases `size` is the number of names that are kept.
    pub fn list(&mut self, size: &mut usize) -> Answer
        ensures { Lists (Some List) size.new self.old result self.new }
    {
        self.keep_names(Ok(Request::List), size)
    }

    /// Lists the tags of a snapshot's holds, as `Request::Holds`, and keeps them as `list` does.
    pub fn holds(&mut self, snapshot: &[u8], size: &mut usize) -> Answer
        ensures { Lists (asked_holds snapshot.now) size.new self.old result self.new }
    {
        let request = ask_holds(self.caller.alloc, snapshot);
        self.keep_names(request, size)
    }

    // Makes a request for a list, whose names were read, and keeps the list.
    fn keep_names(&mut self, request: Result<Request, Refusal>, size: &mut usize) -> Answer
        ensures { (read : Option Request) → Reads request read → Lists read size.new self.old result self.new }
    {
        let reply = self.ask_read_one(request);
        let answer = self.keep_listed(reply);
        *size = self.names.as_slice().len();
        answer
    }

    // Keeps the names of a reply, if it has names.
    fn keep_listed(&mut self, reply: Reply) -> Answer
        ensures answer { result ≡ answer_of reply }
        ensures names { self.new.names ≡ names_in reply self.old.names }
        ensures reply { self.new.reply ≡ self.old.reply }
        ensures stream { self.new.stream ≡ self.old.stream }
        ensures pool { self.new.caller ≡ self.old.caller }
    {
        match reply {
            Reply::Names(names) => {
                self.names = names;
                Answer::Done
            }
            Reply::Refused(refusal) => Answer::Refused(refusal),
            other => {
                drop(other);
                Answer::Done
            }
        }
    }

    /// Copies the name at an index of the last list into the front of a buffer, as much of it as fits, and writes its whole length to `size`.
    /// NoEntry where the index is past the last name.
    pub fn name_piece(&self, index: usize, buffer: &mut [u8], size: &mut usize) -> Answer
        ensures { NamesPiece index buffer.old buffer.new size.old size.new self.now result self.now }
    {
        let Some(name) = self.names.as_slice().get(index) else {
            return Answer::NoEntry;
        };
        *size = name.as_slice().len();
        copy_piece(name.as_slice(), 0, buffer);
        Answer::Done
    }

    /// Writes a block, as `Request::Write`. BadLength where there aren't 512 bytes.
    pub fn write(&mut self, name: &[u8], object: u32, block: u32, bytes: &[u8]) -> Answer
        ensures { Writes name.now object block bytes.now self.old result self.new }
    {
        if bytes.len() != 512 {
            return Answer::BadLength;
        }
        let mut copy = [0; 512];
        copy.copy_from_slice(bytes);
        let request = ask_write(self.caller.alloc, name, object, block, &copy);
        self.tell(request)
    }

    /// Reads a block into a buffer, as `Request::Read`, and writes to `is_hole` whether it is a hole; a hole reads as 512 zeros. BadLength where
    /// the buffer isn't 512 bytes.
    pub fn read(
        &mut self,
        name: &[u8],
        object: u32,
        block: u32,
        buffer: &mut [u8],
        is_hole: &mut bool,
    ) -> Answer
        ensures { ReadsBlock name.now object block buffer.old is_hole.old buffer.new is_hole.new self.old result self.new }
    {
        if buffer.len() != 512 {
            return Answer::BadLength;
        }
        let request = ask_read(self.caller.alloc, name, object, block);
        let reply = self.ask_read_one(request);
        fill(reply, buffer, is_hole)
    }

    /// Punches a block, which makes it a hole, as `Request::Punch`.
    pub fn punch(&mut self, name: &[u8], object: u32, block: u32) -> Answer
        ensures { Does (asked_punch name.now object block) self.old result self.new }
    {
        let request = ask_punch(self.caller.alloc, name, object, block);
        self.tell(request)
    }

    /// Takes a snapshot, as `Request::Snapshot`.
    pub fn snapshot(&mut self, name: &[u8], recursive: bool) -> Answer
        ensures { Does (asked_snapshot name.now recursive) self.old result self.new }
    {
        let request = ask_snapshot(self.caller.alloc, name, recursive);
        self.tell(request)
    }

    /// Writes to `value` a property that is a size or a number, as `Request::Get`. NoProperty where none has this number, NotApplicable where the
    /// dataset doesn't have the property.
    pub fn get(&mut self, name: &[u8], property: u32, value: &mut u64) -> Answer
        ensures { GetsOf name.now (property_at property) value.old value.new self.old result self.new }
    {
        let Some(property) = property_of(property) else {
            return Answer::NoProperty;
        };
        let request = ask_get(self.caller.alloc, name, property);
        self.tell_number_of(request, value)
    }

    /// Syncs, as `Request::Sync`, and writes to `group` the group that is open then.
    pub fn sync(&mut self, group: &mut u64) -> Answer
        ensures { Syncs group.old group.new self.old result self.new }
    {
        let reply = self.ask(Request::Sync);
        if let Reply::Group(opened) = &reply {
            *group = *opened;
        }
        Answer::of(&reply)
    }

    /// Frees up to `count` blocks of what was destroyed, as `Request::Slice`, and writes to `taken` how many it freed.
    pub fn slice(&mut self, count: u64, taken: &mut u64) -> Answer
        ensures { Slices count taken.old taken.new self.old result self.new }
    {
        let reply = self.ask(Request::Slice { count });
        if let Reply::Count(blocks) = &reply {
            *taken = *blocks;
        }
        Answer::of(&reply)
    }

    /// Goes back to the last sync, as `Request::Abandon`.
    pub fn abandon(&mut self) -> Answer
        ensures { Does (Some Abandon) self.old result self.new }
    {
        Answer::of(&self.ask(Request::Abandon))
    }

    /// Makes the stream of a snapshot, as `Request::Send`: in full where `from` is empty, else from the source that it names. The stream replaces
    /// that of the last send; a refused send leaves the last one in place. In both cases `size` is the length in bytes of the stream that is
    /// kept.
    pub fn send(&mut self, name: &[u8], from: &[u8], size: &mut usize) -> Answer
        ensures { Sends name.now from.now size.new self.old result self.new }
    {
        let request = ask_send(self.caller.alloc, name, from);
        let reply = self.ask_read_one(request);
        let answer = self.keep(reply);
        *size = self.stream.as_slice().len();
        answer
    }

    // Keeps the stream of a reply, if it has one.
    fn keep(&mut self, reply: Reply) -> Answer
        ensures answer { result ≡ answer_of reply }
        ensures stream { self.new.stream ≡ stream_in reply self.old.stream }
        ensures reply { self.new.reply ≡ self.old.reply }
        ensures names { self.new.names ≡ self.old.names }
        ensures pool { self.new.caller ≡ self.old.caller }
    {
        match reply {
            Reply::Stream(bytes) => {
                self.stream = bytes;
                Answer::Done
            }
            Reply::Refused(refusal) => Answer::Refused(refusal),
            other => {
                drop(other);
                Answer::Done
            }
        }
    }

    /// Receives a stream as a snapshot, as `Request::Receive`, in a mode of this number; NoProperty where there is none. One as a clone reads
    /// the name of its origin, and every other leaves that unread.
    pub fn receive(&mut self, name: &[u8], bytes: &[u8], mode: u32, origin: &[u8]) -> Answer
        ensures { ReceivesOf name.now bytes.now (mode_at mode origin.now) self.old result self.new }
    {
        let alloc = self.caller.alloc;
        let Some(mode) = mode_of(alloc, mode, origin) else {
            return Answer::NoProperty;
        };
        self.tell(ask_receive(alloc, name, bytes, mode))
    }

    /// Answers a line, as `answer_line`, and writes to `refusal` the number of the refusal where the line was refused, or 0. The reply replaces
    /// that of the last line, and `size` is its length in bytes. NoMemory where memory was refused; the pool is unchanged then.
    pub fn line(&mut self, line: &[u8], refusal: &mut u32, size: &mut usize) -> Answer
        ensures { Answers line.now refusal.old refusal.new size.new self.old result self.new }
    {
        let alloc = self.caller.alloc;
        let outcome = answer_line(alloc, &mut self.caller, line, &mut self.reply);
        *size = self.reply.len();
        match outcome {
            Ok(told) => {
                *refusal = number_of(told);
                Answer::Done
            }
            Err(_) => {
                unserved_laws();
                Answer::Refused(Refusal::NoMemory)
            }
        }
    }

    /// Copies bytes of the last reply, from index `from` on, into the front of a buffer, as many as fit, and returns their number.
    pub fn reply_piece(&self, from: usize, buffer: &mut [u8]) -> usize
        ensures { IsPiece self.now.reply.items from buffer.old buffer.new result }
    {
        copy_piece(&self.reply, from, buffer)
    }

    /// Copies bytes of the last stream, from index `from` on, into the front of a buffer, as many as fit, and returns their number.
    pub fn stream_piece(&self, from: usize, buffer: &mut [u8]) -> usize
        ensures { IsPiece self.now.stream from buffer.old buffer.new result }
    {
        copy_piece(self.stream.as_slice(), from, buffer)
    }

    /// Frees the memory of the last reply, the last stream and the last list.
    pub fn forget(&mut self) -> Answer
        ensures { Forgotten self.old result self.new }
    {
        let alloc = self.caller.alloc;
        self.reply = Vec::new(alloc);
        self.stream = Bytes::from(Vec::new(alloc));
        self.names = Names::from(Vec::new(alloc));
        Answer::Done
    }
}

// Copies the block of a reply into a buffer, and writes whether it is a hole.
fn fill(reply: Reply, buffer: &mut [u8], is_hole: &mut bool) -> Answer
    requires { length buffer.old ≡ 512 }
    ensures answer { result ≡ answer_of reply }
    ensures filled { ReadInto reply buffer.old is_hole.old buffer.new is_hole.new }
{
    match &reply {
        Reply::Data(Some(bytes)) => {
            buffer.copy_from_slice(bytes.as_slice());
            *is_hole = false;
        }
        Reply::Data(None) => {
            buffer.fill(0);
            *is_hole = true;
        }
        _ => {}
    }
    Answer::of(&reply)
}

// The number of a refusal; 0 where there is none.
fn number_of(refusal: Option<Refusal>) -> u32
    ensures { result ≡ number_told refusal }
{
    match refusal {
        Some(refusal) => refusal.number() as u32,
        None => 0,
    }
}

// Writes the number of the view that a reply has opened, if it has opened one.
fn tell_view(reply: &Reply, view: &mut u64)
    ensures { view.new ≡ view_in reply.now view.old }
{
    if let Reply::Opened(number, _) = reply {
        *view = *number;
    }
}

// Writes the number of a reply, if it has one.
fn tell_number(reply: &Reply, value: &mut u64)
    ensures { value.new ≡ number_in reply.now value.old }
{
    match reply {
        Reply::Value(Value::Size(n)) => *value = *n,
        Reply::Value(Value::Number(n)) => *value = *n,
        _ => {}
    }
}

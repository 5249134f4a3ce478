//! The calls that C makes, which `include/yuzgont.h` declares. Each is the call of [`YuzPool`] that it names, with the number of its answer
//! ([`Answer::code`](c_api::Answer)), and has that call's contract.
ghost use Rattle.std.specs.Prelude.{◌≡◌, Some, None};
ghost use Rattle.c_api.specs.Answers.{Codes};
ghost use Rattle.c_api.specs.Asking.{asked_create, asked_clone, asked_destroy, asked_destroy_snapshots, asked_promote, asked_rename, asked_rename_snapshot, asked_rollback, asked_snapshot, asked_bookmark, asked_hold, asked_release, asked_holds};
ghost use Rattle.c_api.specs.Asking.{asked_punch, asked_free_object, asked_written_since, asked_would_free, mode_at, property_at, pool_property_at, limit_at};
ghost use Rattle.script.specs.Words.{amount_of_bytes};
ghost use Rattle.c_api.specs.Calls.{Calls, Creates, Does, Writes, ReadsBlock, TellsNumber, GetsOf, PoolGetsOf, SetsOf, ReceivesOf, Syncs, Slices, OpensView, Lists, NamesPiece, Sends, Answers, RepliesPiece, StreamsPiece, Forgotten};
ghost use Rattle.model.specs.declared.request.Request.TheVariants.{Abandon, CloseView, List};

use c_api::YuzPool;
use pool::MOST_BLOCKS;
use std::alloc::Global;

/// Makes a pool in a handle that has none, as `YuzPool::create`: HasPool where the handle has one; BadName for id 0, else TooMany for no block or
/// more than `MOST_BLOCKS`, else NoMemory. The handle owns the pool until `yuzgont_free`.
#[unsafe(no_mangle)]
pub extern "C" fn yuzgont_create(alloc: Global, pool: &mut YuzPool, id: u32, blocks: u32) -> i32
    ensures { Codes result (λ answer. Creates MOST_BLOCKS id blocks pool.old.slot.host answer pool.new.slot.host) }
{
    pool.create(alloc, id, blocks).code()
}

/// Frees the pool of a handle with all its memory, as `YuzPool::free`. A handle that has none is unchanged.
#[unsafe(no_mangle)]
pub extern "C" fn yuzgont_free(alloc: Global, pool: &mut YuzPool)
    ensures { pool.new.slot.host ≡ None }
{
    pool.free(alloc)
}

/// Answers a script line, as `YuzPool::line`: the refusal's number, or 0, and the length of the reply, which is kept until the next line. NoMemory
/// where memory was refused; the pool is unchanged then, and so is `refusal`.
#[unsafe(no_mangle)]
pub extern "C" fn yuzgont_line(
    alloc: Global,
    pool: &mut YuzPool,
    line: &[u8],
    refusal: &mut u32,
    size: &mut usize,
) -> i32
    ensures { Codes result (λ answer. Calls (Answers line.now refusal.old refusal.new size.new) pool.old.slot.host answer pool.new.slot.host) }
{
    pool.line(alloc, line, refusal, size).code()
}

/// Copies bytes of the last reply, from index `from` on, as `YuzPool::reply_piece`, and writes their number to `count`.
#[unsafe(no_mangle)]
pub extern "C" fn yuzgont_reply(
    alloc: Global,
    pool: &mut YuzPool,
    from: usize,
    buffer: &mut [u8],
    count: &mut usize,
) -> i32
    ensures { Codes result (λ answer. Calls (RepliesPiece from buffer.old buffer.new count.new) pool.old.slot.host answer pool.new.slot.host) }
{
    pool.reply_piece(alloc, from, buffer, count).code()
}

/// Writes a block, as `YuzPool::write`. BadLength where there aren't 512 bytes.
#[unsafe(no_mangle)]
pub extern "C" fn yuzgont_write(
    alloc: Global,
    pool: &mut YuzPool,
    name: &[u8],
    object: u32,
    block: u32,
    bytes: &[u8],
) -> i32
    ensures { Codes result (λ answer. Calls (Writes name.now object block bytes.now) pool.old.slot.host answer pool.new.slot.host) }
{
    pool.write(alloc, name, object, block, bytes).code()
}

/// Reads a block into a buffer, as `YuzPool::read`, and writes to `is_hole` whether it is a hole. BadLength where the buffer isn't 512 bytes.
#[unsafe(no_mangle)]
pub extern "C" fn yuzgont_read(
    alloc: Global,
    pool: &mut YuzPool,
    name: &[u8],
    object: u32,
    block: u32,
    buffer: &mut [u8],
    is_hole: &mut bool,
) -> i32
    ensures { Codes result (λ answer. Calls (ReadsBlock name.now object block buffer.old is_hole.old buffer.new is_hole.new) pool.old.slot.host answer pool.new.slot.host) }
{
    pool.read(alloc, name, object, block, buffer, is_hole)
        .code()
}

/// Punches a block, which makes it a hole, as `YuzPool::punch`.
#[unsafe(no_mangle)]
pub extern "C" fn yuzgont_punch(
    alloc: Global,
    pool: &mut YuzPool,
    name: &[u8],
    object: u32,
    block: u32,
) -> i32
    ensures { Codes result (λ answer. Calls (Does (asked_punch name.now object block)) pool.old.slot.host answer pool.new.slot.host) }
{
    pool.punch(alloc, name, object, block).code()
}

/// Takes a snapshot, as `YuzPool::snapshot`.
#[unsafe(no_mangle)]
pub extern "C" fn yuzgont_snapshot(
    alloc: Global,
    pool: &mut YuzPool,
    name: &[u8],
    recursive: bool,
) -> i32
    ensures { Codes result (λ answer. Calls (Does (asked_snapshot name.now recursive)) pool.old.slot.host answer pool.new.slot.host) }
{
    pool.snapshot(alloc, name, recursive).code()
}

/// Writes a property of a dataset to `value`, as `YuzPool::get`. NoProperty where none has this number, NotApplicable where the dataset doesn't
/// have the property.
#[unsafe(no_mangle)]
pub extern "C" fn yuzgont_get(
    alloc: Global,
    pool: &mut YuzPool,
    name: &[u8],
    property: u32,
    value: &mut u64,
) -> i32
    ensures { Codes result (λ answer. Calls (GetsOf name.now (property_at property) value.old value.new) pool.old.slot.host answer pool.new.slot.host) }
{
    pool.get(alloc, name, property, value).code()
}

/// Syncs the pool, as `YuzPool::sync`, and writes to `group` the group that is open then.
#[unsafe(no_mangle)]
pub extern "C" fn yuzgont_sync(alloc: Global, pool: &mut YuzPool, group: &mut u64) -> i32
    ensures { Codes result (λ answer. Calls (Syncs group.old group.new) pool.old.slot.host answer pool.new.slot.host) }
{
    pool.sync(alloc, group).code()
}

/// Frees up to `count` blocks of what was destroyed, as `YuzPool::slice`, and writes to `taken` how many it freed.
#[unsafe(no_mangle)]
pub extern "C" fn yuzgont_slice(
    alloc: Global,
    pool: &mut YuzPool,
    count: u64,
    taken: &mut u64,
) -> i32
    ensures { Codes result (λ answer. Calls (Slices count taken.old taken.new) pool.old.slot.host answer pool.new.slot.host) }
{
    pool.slice(alloc, count, taken).code()
}

/// Goes back to the last sync, as `YuzPool::abandon`.
#[unsafe(no_mangle)]
pub extern "C" fn yuzgont_abandon(alloc: Global, pool: &mut YuzPool) -> i32
    ensures { Codes result (λ answer. Calls (Does (Some Abandon)) pool.old.slot.host answer pool.new.slot.host) }
{
    pool.abandon(alloc).code()
}

/// Makes the stream of a snapshot, as `YuzPool::send`, which is kept until the next send. `size` is the length in bytes of the stream that is kept.
#[unsafe(no_mangle)]
pub extern "C" fn yuzgont_send(
    alloc: Global,
    pool: &mut YuzPool,
    name: &[u8],
    from: &[u8],
    size: &mut usize,
) -> i32
    ensures { Codes result (λ answer. Calls (Sends name.now from.now size.new) pool.old.slot.host answer pool.new.slot.host) }
{
    pool.send(alloc, name, from, size).code()
}

/// Copies bytes of the last stream, from index `from` on, as `YuzPool::stream_piece`, and writes their number to `count`.
#[unsafe(no_mangle)]
pub extern "C" fn yuzgont_stream(
    alloc: Global,
    pool: &mut YuzPool,
    from: usize,
    buffer: &mut [u8],
    count: &mut usize,
) -> i32
    ensures { Codes result (λ answer. Calls (StreamsPiece from buffer.old buffer.new count.new) pool.old.slot.host answer pool.new.slot.host) }
{
    pool.stream_piece(alloc, from, buffer, count).code()
}

/// Receives a stream as a snapshot, as `YuzPool::receive`.
#[unsafe(no_mangle)]
pub extern "C" fn yuzgont_receive(
    alloc: Global,
    pool: &mut YuzPool,
    name: &[u8],
    bytes: &[u8],
    mode: u32,
    origin: &[u8],
) -> i32
    ensures { Codes result (λ answer. Calls (ReceivesOf name.now bytes.now (mode_at mode origin.now)) pool.old.slot.host answer pool.new.slot.host) }
{
    pool.receive(alloc, name, bytes, mode, origin).code()
}

/// Frees the last reply, stream and list, as `YuzPool::forget`.
#[unsafe(no_mangle)]
pub extern "C" fn yuzgont_forget(alloc: Global, pool: &mut YuzPool) -> i32
    ensures { Codes result (λ answer. Calls Forgotten pool.old.slot.host answer pool.new.slot.host) }
{
    pool.forget(alloc).code()
}

/// Creates a file system, as `YuzPool::create_file_system`.
#[unsafe(no_mangle)]
pub extern "C" fn yuzgont_create_file_system(alloc: Global, pool: &mut YuzPool, name: &[u8]) -> i32
    ensures { Codes result (λ answer. Calls (Does (asked_create name.now)) pool.old.slot.host answer pool.new.slot.host) }
{
    pool.create_file_system(alloc, name).code()
}

/// Makes a clone of a snapshot, as `YuzPool::clone_snapshot`.
#[unsafe(no_mangle)]
pub extern "C" fn yuzgont_clone(
    alloc: Global,
    pool: &mut YuzPool,
    snapshot: &[u8],
    name: &[u8],
) -> i32
    ensures { Codes result (λ answer. Calls (Does (asked_clone snapshot.now name.now)) pool.old.slot.host answer pool.new.slot.host) }
{
    pool.clone_snapshot(alloc, snapshot, name).code()
}

/// Destroys a dataset or a bookmark, as `YuzPool::destroy`.
#[unsafe(no_mangle)]
pub extern "C" fn yuzgont_destroy(
    alloc: Global,
    pool: &mut YuzPool,
    name: &[u8],
    recursive: bool,
    defer: bool,
) -> i32
    ensures { Codes result (λ answer. Calls (Does (asked_destroy name.now recursive defer)) pool.old.slot.host answer pool.new.slot.host) }
{
    pool.destroy(alloc, name, recursive, defer).code()
}

/// Destroys snapshots, all or none of them, as `YuzPool::destroy_snapshots`.
#[unsafe(no_mangle)]
pub extern "C" fn yuzgont_destroy_snapshots(
    alloc: Global,
    pool: &mut YuzPool,
    names: &[u8],
    recursive: bool,
    defer: bool,
) -> i32
    ensures { Codes result (λ answer. Calls (Does (asked_destroy_snapshots names.now recursive defer)) pool.old.slot.host answer pool.new.slot.host) }
{
    pool.destroy_snapshots(alloc, names, recursive, defer)
        .code()
}

/// Promotes a clone, as `YuzPool::promote`.
#[unsafe(no_mangle)]
pub extern "C" fn yuzgont_promote(alloc: Global, pool: &mut YuzPool, name: &[u8]) -> i32
    ensures { Codes result (λ answer. Calls (Does (asked_promote name.now)) pool.old.slot.host answer pool.new.slot.host) }
{
    pool.promote(alloc, name).code()
}

/// Renames a file system, and with it all below it, as `YuzPool::rename`.
#[unsafe(no_mangle)]
pub extern "C" fn yuzgont_rename(alloc: Global, pool: &mut YuzPool, name: &[u8], to: &[u8]) -> i32
    ensures { Codes result (λ answer. Calls (Does (asked_rename name.now to.now)) pool.old.slot.host answer pool.new.slot.host) }
{
    pool.rename(alloc, name, to).code()
}

/// Renames a snapshot, as `YuzPool::rename_snapshot`.
#[unsafe(no_mangle)]
pub extern "C" fn yuzgont_rename_snapshot(
    alloc: Global,
    pool: &mut YuzPool,
    name: &[u8],
    to: &[u8],
    recursive: bool,
) -> i32
    ensures { Codes result (λ answer. Calls (Does (asked_rename_snapshot name.now to.now recursive)) pool.old.slot.host answer pool.new.slot.host) }
{
    pool.rename_snapshot(alloc, name, to, recursive).code()
}

/// Rolls back to a snapshot, as `YuzPool::rollback`.
#[unsafe(no_mangle)]
pub extern "C" fn yuzgont_rollback(
    alloc: Global,
    pool: &mut YuzPool,
    snapshot: &[u8],
    later: bool,
) -> i32
    ensures { Codes result (λ answer. Calls (Does (asked_rollback snapshot.now later)) pool.old.slot.host answer pool.new.slot.host) }
{
    pool.rollback(alloc, snapshot, later).code()
}

/// Makes a bookmark of a snapshot, as `YuzPool::bookmark`.
#[unsafe(no_mangle)]
pub extern "C" fn yuzgont_bookmark(
    alloc: Global,
    pool: &mut YuzPool,
    snapshot: &[u8],
    mark: &[u8],
) -> i32
    ensures { Codes result (λ answer. Calls (Does (asked_bookmark snapshot.now mark.now)) pool.old.slot.host answer pool.new.slot.host) }
{
    pool.bookmark(alloc, snapshot, mark).code()
}

/// Adds a hold to a snapshot, as `YuzPool::hold`.
#[unsafe(no_mangle)]
pub extern "C" fn yuzgont_hold(
    alloc: Global,
    pool: &mut YuzPool,
    tag: &[u8],
    snapshot: &[u8],
) -> i32
    ensures { Codes result (λ answer. Calls (Does (asked_hold tag.now snapshot.now)) pool.old.slot.host answer pool.new.slot.host) }
{
    pool.hold(alloc, tag, snapshot).code()
}

/// Releases a hold on a snapshot, as `YuzPool::release`.
#[unsafe(no_mangle)]
pub extern "C" fn yuzgont_release(
    alloc: Global,
    pool: &mut YuzPool,
    tag: &[u8],
    snapshot: &[u8],
) -> i32
    ensures { Codes result (λ answer. Calls (Does (asked_release tag.now snapshot.now)) pool.old.slot.host answer pool.new.slot.host) }
{
    pool.release(alloc, tag, snapshot).code()
}

/// Sets a limit of a file system to an amount in bytes, or removes it where the amount is 0, as `YuzPool::set`. NoProperty where no limit has this
/// number, BadAmount where the amount isn't a multiple of 512 or is more than 2^49.
#[unsafe(no_mangle)]
pub extern "C" fn yuzgont_set(
    alloc: Global,
    pool: &mut YuzPool,
    name: &[u8],
    limit: u32,
    amount: u64,
) -> i32
    ensures { Codes result (λ answer. Calls (SetsOf name.now (limit_at limit) (amount_of_bytes amount)) pool.old.slot.host answer pool.new.slot.host) }
{
    pool.set(alloc, name, limit, amount).code()
}

/// Frees an object, as `YuzPool::free_object`.
#[unsafe(no_mangle)]
pub extern "C" fn yuzgont_free_object(
    alloc: Global,
    pool: &mut YuzPool,
    name: &[u8],
    object: u32,
) -> i32
    ensures { Codes result (λ answer. Calls (Does (asked_free_object name.now object)) pool.old.slot.host answer pool.new.slot.host) }
{
    pool.free_object(alloc, name, object).code()
}

/// Opens a view of a snapshot, as `YuzPool::open_view`, and writes its number to `view`.
#[unsafe(no_mangle)]
pub extern "C" fn yuzgont_open_view(
    alloc: Global,
    pool: &mut YuzPool,
    snapshot: &[u8],
    view: &mut u64,
) -> i32
    ensures { Codes result (λ answer. Calls (OpensView snapshot.now view.old view.new) pool.old.slot.host answer pool.new.slot.host) }
{
    pool.open_view(alloc, snapshot, view).code()
}

/// Closes a view, as `YuzPool::close_view`.
#[unsafe(no_mangle)]
pub extern "C" fn yuzgont_close_view(alloc: Global, pool: &mut YuzPool, view: u64) -> i32
    ensures { Codes result (λ answer. Calls (Does (Some (CloseView view))) pool.old.slot.host answer pool.new.slot.host) }
{
    pool.close_view(alloc, view).code()
}

/// Writes to `value` how many bytes were written since a snapshot, as `YuzPool::written_since`.
#[unsafe(no_mangle)]
pub extern "C" fn yuzgont_written_since(
    alloc: Global,
    pool: &mut YuzPool,
    name: &[u8],
    since: &[u8],
    value: &mut u64,
) -> i32
    ensures { Codes result (λ answer. Calls (TellsNumber (asked_written_since name.now since.now) value.old value.new) pool.old.slot.host answer pool.new.slot.host) }
{
    pool.written_since(alloc, name, since, value).code()
}

/// Writes to `value` how many bytes destroying a range of snapshots would free, as `YuzPool::would_free`.
#[unsafe(no_mangle)]
pub extern "C" fn yuzgont_would_free(
    alloc: Global,
    pool: &mut YuzPool,
    name: &[u8],
    first: &[u8],
    last: &[u8],
    value: &mut u64,
) -> i32
    ensures { Codes result (λ answer. Calls (TellsNumber (asked_would_free name.now first.now last.now) value.old value.new) pool.old.slot.host answer pool.new.slot.host) }
{
    pool.would_free(alloc, name, first, last, value).code()
}

/// Writes a property of the pool to `value`, as `YuzPool::pool_get`. NoProperty where none has this number.
#[unsafe(no_mangle)]
pub extern "C" fn yuzgont_pool_get(
    alloc: Global,
    pool: &mut YuzPool,
    property: u32,
    value: &mut u64,
) -> i32
    ensures { Codes result (λ answer. Calls (PoolGetsOf (pool_property_at property) value.old value.new) pool.old.slot.host answer pool.new.slot.host) }
{
    pool.pool_get(alloc, property, value).code()
}

/// Lists all datasets and bookmarks, as `YuzPool::list`. The names are kept until the next list, and `size` is how many are kept.
#[unsafe(no_mangle)]
pub extern "C" fn yuzgont_list(alloc: Global, pool: &mut YuzPool, size: &mut usize) -> i32
    ensures { Codes result (λ answer. Calls (Lists (Some List) size.new) pool.old.slot.host answer pool.new.slot.host) }
{
    pool.list(alloc, size).code()
}

/// Lists the tags of a snapshot's holds, as `YuzPool::holds`, and keeps them as `yuzgont_list` does.
#[unsafe(no_mangle)]
pub extern "C" fn yuzgont_holds(
    alloc: Global,
    pool: &mut YuzPool,
    snapshot: &[u8],
    size: &mut usize,
) -> i32
    ensures { Codes result (λ answer. Calls (Lists (asked_holds snapshot.now) size.new) pool.old.slot.host answer pool.new.slot.host) }
{
    pool.holds(alloc, snapshot, size).code()
}

/// Copies the name at an index of the last list, as much of it as fits, as `YuzPool::name_piece`, and writes its whole length to `size`. NoEntry
/// where the index is past the last name.
#[unsafe(no_mangle)]
pub extern "C" fn yuzgont_name(
    alloc: Global,
    pool: &mut YuzPool,
    index: usize,
    buffer: &mut [u8],
    size: &mut usize,
) -> i32
    ensures { Codes result (λ answer. Calls (NamesPiece index buffer.old buffer.new size.old size.new) pool.old.slot.host answer pool.new.slot.host) }
{
    pool.name_piece(alloc, index, buffer, size).code()
}

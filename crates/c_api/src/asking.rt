//! The requests of the calls that take no script line. Each reads its names: BadName where the bytes aren't such a name, NoMemory where the
//! request can't be allocated.
ghost use Rattle.std.specs.Prelude.{◌≡◌, ◌↔◌, Option, Some, None, IfSome};
ghost use Rattle.std.specs.Option.{option_map};
ghost use Rattle.base.specs.Reading.{Reads, snap_of};
ghost use Rattle.model.specs.declared.receiving.Receiving.{Receiving};
ghost use Rattle.c_api.specs.Asking.{asked_write, asked_punch, asked_read, asked_snapshot, asked_get, asked_send_from, asked_receive, mode_at, property_at};
ghost use Rattle.c_api.specs.Asking.{asked_create, asked_free_object, asked_rollback, asked_destroy, asked_destroy_snapshots, asked_clone, asked_promote, asked_rename, asked_rename_snapshot, asked_open_view};
ghost use Rattle.c_api.specs.Asking.{asked_hold, asked_release, asked_holds, asked_bookmark, asked_written_since, asked_would_free, asked_set};
ghost use Rattle.c_api.specs.Asking.{pool_property_at, limit_at};

use base::data::Data;
use base::limit::Blocks;
use base::name::{Component, DsName, MarkName, SnapName, Tag, Target};
use base::refusal::Refusal;
use base::text::Bytes;
use model::destroy_target::DestroyTarget;
use model::limits::Limit;
use model::receiving::Receiving;
use model::request::{PoolProperty, Property, Request};
use model::snap_names::SnapNames;
use script::parse::snap_names;
use std::alloc::Global;

// The properties that C can ask for, each at its number. `enum yuz_property` of the header names the numbers. The programs in hosts/ compare the
// value at each number with the reply to a line that names the property.
const PROPERTIES: [Property; 15] = [
    Property::Used,
    Property::Available,
    Property::Referenced,
    Property::Written,
    Property::UsedByDataset,
    Property::UsedBySnapshots,
    Property::UsedByChildren,
    Property::UsedByRefReservation,
    Property::Quota,
    Property::RefQuota,
    Property::Reservation,
    Property::RefReservation,
    Property::Guid,
    Property::CreateTxg,
    Property::UserRefs,
];

// The properties of a pool, each at its number in `enum yuz_pool_property`.
const OF_POOL: [PoolProperty; 6] = [
    PoolProperty::Size,
    PoolProperty::Allocated,
    PoolProperty::Free,
    PoolProperty::Freeing,
    PoolProperty::Waiting,
    PoolProperty::Group,
];

// The limits of a file system, each at its number in `enum yuz_limit`.
const LIMITS: [Limit; 4] = [
    Limit::Quota,
    Limit::RefQuota,
    Limit::Reservation,
    Limit::RefReservation,
];

// Creates a file system.
pub(crate) fn ask_create(alloc: Global, name: &[u8]) -> Result<Request, Refusal>
    ensures { Reads result (asked_create name.now) }
{
    let name = DsName::read(alloc, name)?;
    Ok(Request::Create { name })
}

// Frees an object: all its blocks become holes.
pub(crate) fn ask_free_object(alloc: Global, name: &[u8], object: u32) -> Result<Request, Refusal>
    ensures { Reads result (asked_free_object name.now object) }
{
    let target = Target::read(alloc, name)?;
    Ok(Request::FreeObject { target, object })
}

// Rolls back to a snapshot; with `later` also past newer ones.
pub(crate) fn ask_rollback(alloc: Global, name: &[u8], later: bool) -> Result<Request, Refusal>
    ensures { Reads result (asked_rollback name.now later) }
{
    let target = Target::read(alloc, name)?;
    Ok(Request::Rollback { target, later })
}

// Destroys a dataset or a bookmark.
pub(crate) fn ask_destroy(
    alloc: Global,
    name: &[u8],
    recursive: bool,
    defer: bool,
) -> Result<Request, Refusal>
    ensures { Reads result (asked_destroy name.now recursive defer) }
{
    let target = Target::read(alloc, name)?;
    Ok(Request::Destroy {
        target: DestroyTarget::of(alloc, target)?,
        recursive,
        defer,
    })
}

// Destroys snapshots, all or none.
pub(crate) fn ask_destroy_snapshots(
    alloc: Global,
    names: &[u8],
    recursive: bool,
    defer: bool,
) -> Result<Request, Refusal>
    ensures { Reads result (asked_destroy_snapshots names.now recursive defer) }
{
    let names = snap_names(alloc, names)?;
    Ok(Request::Destroy {
        target: DestroyTarget::Snapshots(names),
        recursive,
        defer,
    })
}

// Makes a clone of a snapshot.
pub(crate) fn ask_clone(alloc: Global, snapshot: &[u8], name: &[u8]) -> Result<Request, Refusal>
    ensures { Reads result (asked_clone snapshot.now name.now) }
{
    let target = Target::read(alloc, snapshot)?;
    let name = DsName::read(alloc, name)?;
    Ok(Request::Clone { target, name })
}

// Promotes a clone.
pub(crate) fn ask_promote(alloc: Global, name: &[u8]) -> Result<Request, Refusal>
    ensures { Reads result (asked_promote name.now) }
{
    let name = DsName::read(alloc, name)?;
    Ok(Request::Promote { name })
}

// Renames a file system, and with it all below it.
pub(crate) fn ask_rename(alloc: Global, name: &[u8], to: &[u8]) -> Result<Request, Refusal>
    ensures { Reads result (asked_rename name.now to.now) }
{
    let name = DsName::read(alloc, name)?;
    let to = DsName::read(alloc, to)?;
    Ok(Request::Rename { name, to })
}

// Renames a snapshot; with `recursive` also those of its name in all file systems below.
pub(crate) fn ask_rename_snapshot(
    alloc: Global,
    name: &[u8],
    to: &[u8],
    recursive: bool,
) -> Result<Request, Refusal>
    ensures { Reads result (asked_rename_snapshot name.now to.now recursive) }
{
    let snapshot = SnapName::read(alloc, name)?;
    let to = Component::read(alloc, to)?;
    Ok(Request::RenameSnapshot {
        snapshot,
        to,
        recursive,
    })
}

// Adds a hold with a tag to a snapshot.
pub(crate) fn ask_hold(alloc: Global, tag: &[u8], name: &[u8]) -> Result<Request, Refusal>
    ensures { Reads result (asked_hold tag.now name.now) }
{
    let tag = Tag::read(alloc, tag)?;
    let target = Target::read(alloc, name)?;
    Ok(Request::Hold { tag, target })
}

// Releases the hold with a tag on a snapshot.
pub(crate) fn ask_release(alloc: Global, tag: &[u8], name: &[u8]) -> Result<Request, Refusal>
    ensures { Reads result (asked_release tag.now name.now) }
{
    let tag = Tag::read(alloc, tag)?;
    let target = Target::read(alloc, name)?;
    Ok(Request::Release { tag, target })
}

// Lists the tags of a snapshot's holds.
pub(crate) fn ask_holds(alloc: Global, name: &[u8]) -> Result<Request, Refusal>
    ensures { Reads result (asked_holds name.now) }
{
    let target = Target::read(alloc, name)?;
    Ok(Request::Holds { target })
}

// Makes a bookmark of a snapshot.
pub(crate) fn ask_bookmark(alloc: Global, snapshot: &[u8], mark: &[u8]) -> Result<Request, Refusal>
    ensures { Reads result (asked_bookmark snapshot.now mark.now) }
{
    let target = Target::read(alloc, snapshot)?;
    let mark = MarkName::read(alloc, mark)?;
    Ok(Request::Bookmark { target, mark })
}

// Asks for the space written since a snapshot.
pub(crate) fn ask_written_since(
    alloc: Global,
    name: &[u8],
    since: &[u8],
) -> Result<Request, Refusal>
    ensures { Reads result (asked_written_since name.now since.now) }
{
    let target = Target::read(alloc, name)?;
    let since = SnapName::read(alloc, since)?;
    Ok(Request::WrittenSince { target, since })
}

// Asks for the space that would be freed by destroying a range of snapshots.
pub(crate) fn ask_would_free(
    alloc: Global,
    name: &[u8],
    first: &[u8],
    last: &[u8],
) -> Result<Request, Refusal>
    ensures { Reads result (asked_would_free name.now first.now last.now) }
{
    let name = DsName::read(alloc, name)?;
    let first = Component::read(alloc, first)?;
    let last = Component::read(alloc, last)?;
    Ok(Request::WouldFree { name, first, last })
}

// Sets a limit to an amount, or removes it.
pub(crate) fn ask_set(
    alloc: Global,
    name: &[u8],
    limit: Limit,
    amount: Option<Blocks>,
) -> Result<Request, Refusal>
    ensures { Reads result (asked_set name.now limit amount) }
{
    let name = DsName::read(alloc, name)?;
    Ok(Request::Set {
        name,
        limit,
        amount,
    })
}

// Opens a view of a snapshot.
pub(crate) fn ask_open_view(alloc: Global, name: &[u8]) -> Result<Request, Refusal>
    ensures { Reads result (asked_open_view name.now) }
{
    let target = Target::read(alloc, name)?;
    Ok(Request::OpenView { target })
}

// Writes a block.
pub(crate) fn ask_write(
    alloc: Global,
    name: &[u8],
    object: u32,
    block: u32,
    bytes: &[u8; 512],
) -> Result<Request, Refusal>
    ensures { Reads result (asked_write name.now object block bytes.now) }
{
    let target = Target::read(alloc, name)?;
    let bytes = Data::new(alloc, bytes)?;
    Ok(Request::Write {
        target,
        object,
        block,
        bytes,
    })
}

// Punches a block.
pub(crate) fn ask_punch(
    alloc: Global,
    name: &[u8],
    object: u32,
    block: u32,
) -> Result<Request, Refusal>
    ensures { Reads result (asked_punch name.now object block) }
{
    let target = Target::read(alloc, name)?;
    Ok(Request::Punch {
        target,
        object,
        block,
    })
}

// Reads a block.
pub(crate) fn ask_read(
    alloc: Global,
    name: &[u8],
    object: u32,
    block: u32,
) -> Result<Request, Refusal>
    ensures { Reads result (asked_read name.now object block) }
{
    let target = Target::read(alloc, name)?;
    Ok(Request::Read {
        target,
        object,
        block,
    })
}

// Takes one snapshot; with `recursive` also those of the same component of all descendant file systems.
pub(crate) fn ask_snapshot(alloc: Global, name: &[u8], recursive: bool) -> Result<Request, Refusal>
    ensures { Reads result (asked_snapshot name.now recursive) }
{
    let snapshot = SnapName::read(alloc, name)?;
    let mut names = Vec::with_capacity(alloc, 1)?;
    names.push_reserved(snapshot);
    Ok(Request::Snapshot {
        names: SnapNames::from(names),
        recursive,
    })
}

// Asks for a property of a dataset.
pub(crate) fn ask_get(alloc: Global, name: &[u8], property: Property) -> Result<Request, Refusal>
    ensures { Reads result (asked_get name.now property) }
{
    let target = Target::read(alloc, name)?;
    Ok(Request::Get { target, property })
}

// Sends a snapshot: in full where `from` is empty, else from the source that it names.
pub(crate) fn ask_send(alloc: Global, name: &[u8], from: &[u8]) -> Result<Request, Refusal>
    ensures { Reads result (asked_send_from name.now from.now) }
{
    let from = match from {
        [] => None,
        _ => Some(Target::read(alloc, from)?),
    };
    let target = Target::read(alloc, name)?;
    Ok(Request::Send { target, from })
}

// Receives a stream, in a mode that was read.
pub(crate) fn ask_receive(
    alloc: Global,
    name: &[u8],
    bytes: &[u8],
    mode: Result<Receiving, Refusal>,
) -> Result<Request, Refusal>
    ensures { (read : Option Receiving) → Reads mode read → Reads result (asked_receive name.now bytes.now read) }
{
    let mode = mode?;
    let snapshot = SnapName::read(alloc, name)?;
    let bytes = Bytes::from(bytes.to_vec(alloc)?);
    Ok(Request::Receive {
        snapshot,
        bytes,
        mode,
    })
}

// The mode of a receive with this number in C, if there is one. `enum yuz_receiving` of the header names the numbers. The mode of a clone reads
// the name of its origin.
pub(crate) fn mode_of(
    alloc: Global,
    number: u32,
    origin: &[u8],
) -> Option<Result<Receiving, Refusal>>
    ensures none { (result ≡ None) ↔ (mode_at number origin.now ≡ None) }
    ensures some { (read : Option Receiving) → mode_at number origin.now ≡ Some read → IfSome result (λ mode. Reads mode read) }
{
    match number {
        0 => Some(Ok(Receiving::Plain)),
        1 => Some(Ok(Receiving::Back)),
        2 => Some(Ok(Receiving::Past)),
        3 => Some(origin_of(alloc, origin)),
        4 => Some(Ok(Receiving::Replace)),
        _ => None,
    }
}

// A receive as a clone of the snapshot of this name.
fn origin_of(alloc: Global, name: &[u8]) -> Result<Receiving, Refusal>
    ensures { Reads result (option_map Receiving.Origin (snap_of name.now)) }
{
    let origin = SnapName::read(alloc, name)?;
    Ok(Receiving::Origin(origin))
}

// The property with this number in C.
pub(crate) fn property_of(number: u32) -> Option<Property>
    ensures { result ≡ property_at number }
{
    PROPERTIES.get(number as usize).copied()
}

// The pool property with this number in C.
pub(crate) fn pool_property_of(number: u32) -> Option<PoolProperty>
    ensures { result ≡ pool_property_at number }
{
    OF_POOL.get(number as usize).copied()
}

// The limit with this number in C.
pub(crate) fn limit_of(number: u32) -> Option<Limit>
    ensures { result ≡ limit_at number }
{
    LIMITS.get(number as usize).copied()
}

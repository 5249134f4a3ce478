//! The kinds of requests, by how they are answered.
ghost use Rattle.std.specs.Prelude.{◌≡◌};
ghost use Rattle.pool.specs.Kinds.{kind_of};

use base::name::{DsName, Target};
use model::destroy_target::DestroyTarget;
use model::request::Request;

/// How a request is answered.
#[derive(Clone, Copy)]
pub(crate) enum Kind {
    /// It only reads.
    Question,
    /// It opens a view, which changes no world.
    View,
    /// It changes the present world. Where it is refused, the world is unchanged.
    Change,
    /// It changes the present world, and then checks the limits of the changed world.
    Asking,
}

/// How the request is answered. Constant time.
pub(crate) fn kind_of(request: &Request) -> Kind
    ensures { result ≡ kind_of request.now }
{
    match request {
        Request::Read { .. }
        | Request::Get { .. }
        | Request::WrittenSince { .. }
        | Request::WouldFree { .. }
        | Request::PoolGet { .. }
        | Request::List
        | Request::Holds { .. }
        | Request::Send { .. } => Kind::Question,
        Request::OpenView { .. } => Kind::View,
        Request::Snapshot { .. }
        | Request::Rollback { .. }
        | Request::Promote { .. }
        | Request::Rename { .. } => Kind::Asking,
        _ => Kind::Change,
    }
}

/// The file system that a write, a punch, a freed object, a rollback, a clone, a destroy, a hold, a release, a bookmark, a promote, a rename or a
/// new limit names first; where that is a snapshot or a bookmark, the file system that it belongs to. None for every other request, and for a
/// destroy of an empty list. Constant time.
pub(crate) fn changed_name(request: &Request) -> Option<&DsName> {
    match request {
        Request::Write { target, .. }
        | Request::Punch { target, .. }
        | Request::FreeObject { target, .. }
        | Request::Rollback { target, .. }
        | Request::Clone { target, .. }
        | Request::Hold { target, .. }
        | Request::Release { target, .. }
        | Request::Bookmark { target, .. } => Some(file_system_of(target)),
        Request::Promote { name } | Request::Rename { name, .. } | Request::Set { name, .. } => {
            Some(name)
        }
        Request::RenameSnapshot { snapshot, .. } => Some(&snapshot.member().file_system),
        Request::Destroy { target, .. } => first_file_system(target),
        _ => None,
    }
}

// The file system that a destroy names, or that what it names first belongs to; none for an empty list.
fn first_file_system(target: &DestroyTarget) -> Option<&DsName> {
    match target {
        DestroyTarget::FileSystem(name) => Some(name),
        DestroyTarget::Snapshots(names) => {
            let first = names.as_slice().first()?;
            Some(&first.member().file_system)
        }
        DestroyTarget::Bookmark(name) => Some(&name.member().file_system),
    }
}

fn file_system_of(target: &Target) -> &DsName {
    match target {
        Target::FileSystem(name) => name,
        Target::Snapshot(name) => &name.member().file_system,
        Target::Bookmark(name) => &name.member().file_system,
    }
}

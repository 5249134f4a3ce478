//! Datasets by their names: their contents, their names in a list, and their tags.
ghost use Rattle.std.specs.Prelude.{◌≡◌, ◌≤◌};
ghost use Rattle.model.specs.State.{State};
ghost use Rattle.model.specs.Step.{Step};
ghost use Rattle.model.specs.declared.request.Request.{Request};
ghost use Rattle.steps.specs.Edits.{datasets_of};
ghost use Rattle.steps.specs.Steady.{IsSteady};

use base::meter::Meter;
use base::name::Target;
use base::refusal::Refusal;
use datasets::Table;
use lookups::{names_of, tree_named};
use marks::tags_of;
use model::names::Names;
use model::reply::Reply;
use std::alloc::Global;

// Writes what a block of a dataset holds into `reply`, so its bytes aren't moved from function to function.
pub(crate) fn read(
    table: &Table,
    target: &Target,
    object: u32,
    block: u32,
    meter: &mut Meter,
    reply: &mut Reply,
)
    ensures step { (s : State) → IsSteady s → datasets_of s ≡ table.now → Step s (Request.Read target.now object block) reply.new s }
    ensures never_lower { meter.old ≤ meter.new }
{
    let Some(tree) = tree_named(table, target) else {
        *reply = Reply::Refused(Refusal::NoDataset);
        return;
    };
    match tree::objset::read(tree, object, block, meter) {
        Ok(bytes) => *reply = Reply::Data(bytes.copied()),
        Err(refusal) => *reply = Reply::Refused(refusal),
    }
}

// Replies with the names of all file systems, snapshots and bookmarks.
pub(crate) fn list(alloc: Global, table: &Table, reply: &mut Reply)
    ensures { (s : State) → IsSteady s → datasets_of s ≡ table.now → Step s Request.List reply.new s }
{
    match names_of(alloc, table.file_systems()) {
        Ok(names) => *reply = Reply::Names(Names::from(names)),
        Err(refusal) => *reply = Reply::Refused(refusal),
    }
}

// Replies with the tags of a snapshot.
pub(crate) fn holds(alloc: Global, table: &Table, target: &Target, reply: &mut Reply)
    ensures { (s : State) → IsSteady s → datasets_of s ≡ table.now → Step s (Request.Holds target.now) reply.new s }
{
    match tags_of(alloc, table, target) {
        Ok(tags) => *reply = Reply::Names(Names::from(tags)),
        Err(refusal) => *reply = Reply::Refused(refusal),
    }
}

//! Changes of a snapshot in its list: a deferred destroy, other tags, or another name.
ghost use Rattle.std.specs.Prelude.{◌≡◌, ◌<◌, IfOk, IfErr, length};
ghost use Rattle.base.specs.declared.refusal.Refusal.{Refusal};
ghost use Rattle.file_system.specs.Deferred.{IsEdited, edit_of, is_rename};

use base::name::Component;
use base::refusal::Refusal;
use shared_list::SharedList;
use snapshots::holds::Holds;
use snapshots::{Kept, Snapshot};
use std::sync::Arc;

/// A change of a snapshot that leaves its map and its group as they are.
#[derive(Drop)]
pub enum SnapshotEdit {
    /// Its destroy becomes deferred (zfs-destroy(8), -d).
    Defer,
    /// Its tags are replaced by these (zfs-hold(8), zfs-release(8)).
    SetTags(Arc<Holds>),
    /// It gets this name (zfs-rename(8)).
    SetName(Component),
}

impl SnapshotEdit {
    /// Whether it gives another name. Constant time.
    pub fn is_rename(&self) -> bool
        ensures { result ≡ is_rename self.now }
    {
        match self {
            SnapshotEdit::SetName(_) => true,
            _ => false,
        }
    }
}

// Applies the edit to this snapshot. Constant time.
fn make(snapshot: &mut Snapshot, edit: SnapshotEdit)
    ensures { snapshot.new ≡ edit_of edit snapshot.old }
{
    match edit {
        SnapshotEdit::Defer => snapshot.defer(),
        SnapshotEdit::SetTags(tags) => snapshot.set_tags(tags),
        SnapshotEdit::SetName(name) => snapshot.set_name(name),
    }
}

/// A copy of the kept snapshot at that place, with this edit. It costs the length of its name, and a walk over the chunks before it. NoMemory
/// where there is none for it.
pub fn edited(kept: &SharedList<Kept>, place: usize, edit: SnapshotEdit) -> Result<Kept, Refusal>
    requires { place < length kept.now }
    ensures ok { IfOk result (λ k. IsEdited (edit_of edit) kept.now place k) }
    ensures err { IfErr result (λ e. e ≡ Refusal.NoMemory) }
{
    let Some(now) = kept.get(place) else {
        unreachable!()
    };
    let mut snapshot = now.snapshot.copy()?;
    make(&mut snapshot, edit);
    Ok(Kept {
        snapshot,
        dead: Arc::try_clone(&now.dead)?,
        written: now.written,
    })
}

//! A clone of a snapshot.
ghost use Rattle.std.specs.Prelude.{◌≡◌, ◌⊎◌, Some, None, IfSome, IfErr, OnOk, OnErr};
ghost use Rattle.base.specs.declared.refusal.Refusal.{Refusal};
ghost use Rattle.snap.specs.Requests.{cloned, clone_refusal};

use base::name::{DsName, Target};
use base::refusal::Refusal;
use datasets::Table;

/// Adds a clone of the snapshot that the target names to this table, under this name. It has the snapshot's map (zfs-clone(8), without -p).
/// After an error the table is as it was. The errors are NotSnapshot where the target isn't the name of a snapshot, else NoDataset where there
/// is no such snapshot, else Deferred where its destroy is deferred, else what `Table::create_refusal` says of the new name: Exists where a file
/// system has it, else NoParent where its parent isn't there, else TooMany where there are 1,024 file systems; else NoMemory where there is none
/// for the clone (the order and the limit are profile). No other file system is visited. It costs the logarithms of the numbers of file systems,
/// of clones and of the snapshots of the snapshot's own file system, the length of the new name, and a move of what is listed after it.
pub fn clone_snapshot(table: &mut Table, target: &Target, name: &DsName) -> Result<(), Refusal>
    ensures ok { OnOk result (table.new ≡ cloned table.old target.now name.now) }
    ensures can { OnOk result (clone_refusal table.old target.now name.now ≡ None) }
    ensures refused { IfSome (clone_refusal table.old target.now name.now) (λ e. result ≡ Err e) }
    ensures unchanged { OnErr result (table.new ≡ table.old) }
    ensures only { IfErr result (λ e. (clone_refusal table.old target.now name.now ≡ Some e) ⊎ (e ≡ Refusal.NoMemory)) }
{
    if let Some(refusal) = refusal_of(table, target, name) {
        return Err(refusal);
    }
    let Target::Snapshot(snapshot) = target else {
        unreachable!()
    };
    table.add_clone(name, snapshot.member())
}

// The error with which the clone is refused, or None. It costs the logarithm of the number of file systems, and that of the number of snapshots
// of one.
fn refusal_of(table: &Table, target: &Target, name: &DsName) -> Option<Refusal>
    ensures { result ≡ clone_refusal table.now target.now name.now }
{
    let Target::Snapshot(snapshot) = target else {
        return Some(Refusal::NotSnapshot);
    };
    let Some(origin) = table.snapshot(snapshot.member()) else {
        return Some(Refusal::NoDataset);
    };
    if origin.is_deferred() {
        return Some(Refusal::Deferred);
    }
    table.create_refusal(name)
}

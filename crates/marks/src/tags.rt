//! The tags of a snapshot.
ghost use Rattle.std.specs.Prelude.{◌≡◌, ◌⊎◌, Some, None, IfSome, IfOk, IfErr, OnOk};
ghost use Rattle.base.specs.declared.refusal.Refusal.{Refusal};
ghost use Rattle.snapshots.specs.Tags.{texts};
ghost use Rattle.model.specs.requests.Rollback.{placed};
ghost use Rattle.world.specs.Tables.{world_of};
ghost use Rattle.marks.specs.Requests.{holds_refusal};

use crate::place::placed;
use base::name::Target;
use base::refusal::Refusal;
use base::text::Bytes;
use datasets::Table;
use std::alloc::Global;

/// The tags of the snapshot that the target names, in the order in which they were made (zfs-holds(8), without -r; the order is profile).
/// Refused are NotSnapshot where the target isn't the name of a snapshot, else NoDataset where there is no such snapshot; else NoMemory where
/// memory is refused. It costs the bytes of the tags, of which there are at most 256, the logarithm of the number of file systems, and that of
/// the number of snapshots of one.
pub fn tags_of(alloc: Global, table: &Table, target: &Target) -> Result<Vec<Bytes>, Refusal>
    ensures ok { IfOk result (λ names. IfSome (placed (world_of table.now) target.now) (λ p. names.items ≡ p.1.tags)) }
    ensures can { OnOk result (holds_refusal table.now target.now ≡ None) }
    ensures refused { IfSome (holds_refusal table.now target.now) (λ e. result ≡ Err e) }
    ensures only { IfErr result (λ e. (holds_refusal table.now target.now ≡ Some e) ⊎ (e ≡ Refusal.NoMemory)) }
{
    let snapshot = placed(table, target)?;
    copies(alloc, snapshot.tags())
}

// Copies of these tags. NoMemory where memory is refused. It costs their bytes.
fn copies(alloc: Global, tags: &[Vec<u8>]) -> Result<Vec<Bytes>, Refusal>
    ensures ok { IfOk result (λ names. names.items ≡ texts tags.now) }
    ensures err { IfErr result (λ e. e ≡ Refusal.NoMemory) }
{
    let mut names = Vec::with_capacity(alloc, tags.len())?;
    for tag in tags {
        names.push(Bytes::from(tag.to_vec(alloc)?))?;
    }
    Ok(names)
}

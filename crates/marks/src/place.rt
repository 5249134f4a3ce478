//! The snapshot that a target names.
ghost use Rattle.std.specs.Prelude.{◌≡◌, Some, IfOk, IfErr};
ghost use Rattle.std.specs.Option.{option_map};
ghost use Rattle.model.specs.requests.Rollback.{placed};
ghost use Rattle.world.specs.Tables.{world_of};
ghost use Rattle.marks.specs.Requests.{holds_refusal};

use base::name::Target;
use base::refusal::Refusal;
use datasets::{Snapshot, Table};

/// The snapshot that a target names. NotSnapshot where the target isn't the name of a snapshot, else NoDataset where there is no such
/// snapshot. It costs the logarithm of the number of file systems, and that of the number of snapshots of one.
pub(crate) fn placed<'a>(table: &'a Table, target: &Target) -> Result<&'a Snapshot, Refusal>
    ensures ok { IfOk result (λ u. option_map (λ p. p.1) (placed (world_of table.now) target.now) ≡ Some u.now) }
    ensures err { IfErr result (λ e. holds_refusal table.now target.now ≡ Some e) }
{
    let Target::Snapshot(name) = target else {
        return Err(Refusal::NotSnapshot);
    };
    match table.snapshot(name.member()) {
        Some(snapshot) => Ok(snapshot),
        None => Err(Refusal::NoDataset),
    }
}

//! Updates of a pool's ledger, where one is kept, and the check of other datasets against the limits.
ghost use Rattle.std.specs.Prelude.{◌≡◌, ◌<◌, ◌^◌, None, Some};
ghost use Rattle.std.specs.FinSet as set;
ghost use Rattle.base.specs.declared.refusal.Refusal.{Refusal};
ghost use Rattle.model.specs.Rule.{first_of};
ghost use Rattle.model.specs.State.{State, waiting_of};
ghost use Rattle.model.specs.World.{union_of};
ghost use Rattle.model.specs.requests.Change.{limit_row};
ghost use Rattle.world.specs.Tables.{Datasets, world_of};
ghost use Rattle.limits.specs.Limits.{IsUnlimited};
ghost use Rattle.limits.specs.Ledgers.{IsSpaceOf, ledger_of};
ghost use Rattle.lookups.specs.Accounted.{IsAccounted};
ghost use Rattle.steps.specs.Limiting.{IsOver, CanSettle, CanRecount};

use base::name::DsName;
use base::refusal::Refusal;
use datasets::Table;
use limits::outlook::Outlook;
use limits::{Ledger, Space};

// Makes this the ledger of these datasets, and gives the first limit that is broken, if any, in a pool that has them and `space` beside them. It
// costs the number of file systems times its logarithm.
pub(crate) fn refilled(ledger: &mut Ledger, to: &Table, space: Space) -> Option<Refusal>
    requires few { set.len (union_of (world_of to.now)) < 2 ^ 32 }
    ensures ledger { ledger.new ≡ ledger_of (world_of to.now) }
    ensures over { (asked : State) → asked.now.file_systems ≡ to.now.file_systems → IsSpaceOf asked space → result ≡ first_of (limit_row asked) }
{
    to.facts();
    ledger.fill(to);
    ledger.first_over(space)
}

/// Makes the ledger, where one is kept, that of these datasets. It takes no memory, and costs the number of file systems times its logarithm.
pub fn renew(ledger: &mut Option<Ledger>, table: &Table)
    requires unlimited { ledger.old ≡ None → IsUnlimited table.now.file_systems }
    requires few { set.len (union_of (world_of table.now)) < 2 ^ 32 }
    ensures { IsAccounted table.now ledger.new }
{
    if let Some(ledger) = ledger {
        ledger.fill(table);
    }
}

/// Makes the ledger, where one is kept, that of these datasets, after a change of the live map of the file system of this name. With an outlook
/// of the change it updates the lines that change; without one it does what `renew` does. It takes no memory. With an outlook it costs at most
/// the logarithm of the number of file systems for each level of the name, up to the first level whose charge stays the same.
pub fn settle(ledger: &mut Option<Ledger>, table: &Table, name: &DsName, outlook: Option<Outlook>)
    requires before { (old : Datasets) × CanSettle old table.now name.now ledger.old outlook }
    requires unlimited { ledger.old ≡ None → IsUnlimited table.now.file_systems }
    requires few { set.len (union_of (world_of table.now)) < 2 ^ 32 }
    ensures { IsAccounted table.now ledger.new }
{
    if let Some(ledger) = ledger {
        settle_kept(ledger, table, name, outlook);
    }
}

// Does what `settle` does with a ledger that is kept.
fn settle_kept(ledger: &mut Ledger, table: &Table, name: &DsName, outlook: Option<Outlook>)
    requires before { (old : Datasets) × CanSettle old table.now name.now (Some ledger.old) outlook }
    requires few { set.len (union_of (world_of table.now)) < 2 ^ 32 }
    ensures { ledger.new ≡ ledger_of (world_of table.now) }
{
    match outlook {
        Some(outlook) => ledger.settle(table, name, outlook.here, outlook.referenced),
        None => ledger.fill(table),
    }
}

/// Makes the ledger, where one is kept, that of these datasets. They differ from those before at this name alone: the file system of this name
/// has changed, is new, or is gone. It takes no memory. It costs what `Ledger::recount` does.
pub fn recount(ledger: &mut Option<Ledger>, table: &Table, name: &DsName)
    requires before { (old : Datasets) × CanRecount old table.now name.now ledger.old }
    requires unlimited { ledger.old ≡ None → IsUnlimited table.now.file_systems }
    requires few { set.len (union_of (world_of table.now)) < 2 ^ 32 }
    ensures { IsAccounted table.now ledger.new }
{
    if let Some(ledger) = ledger {
        ledger.recount(table, name);
    }
}

/// Makes the ledger, where one is kept, that of these datasets, and gives the first limit that is broken, if any, in a pool that has them.
/// `space` says how many blocks the pool has, how many of them are to be freed, and how many are waiting. The limit is Quota, else RefQuota,
/// else NoSpace (zfsprops(7): quota, refquota, reservation; the order is profile). Where no ledger is kept, no file system has a limit, and the
/// answer is none. It takes no memory, and costs the number of file systems times its logarithm.
pub fn over(ledger: &mut Option<Ledger>, to: &Table, space: Space) -> Option<Refusal>
    requires unlimited { ledger.old ≡ None → IsUnlimited to.now.file_systems }
    requires few { set.len (union_of (world_of to.now)) < 2 ^ 32 }
    ensures ledger { IsAccounted to.now ledger.new }
    ensures none { ledger.old ≡ None → result ≡ None }
    ensures bare { ledger.old ≡ None → ledger.new ≡ None }
    ensures over { (s : State) → (ledger.old ≡ None → IsUnlimited s.now.file_systems) → space.size ≡ s.size → space.waiting ≡ set.len (waiting_of s) → IsOver s to.now space.freeing result }
{
    match ledger {
        Some(ledger) => refilled(ledger, to, space),
        None => None,
    }
}

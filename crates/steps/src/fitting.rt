//! The check of a receive against the limits.
ghost use Rattle.std.specs.Prelude.{◌≡◌, ◌≤◌, ◌⊎◌, true, None, IfErr, OnOk};
ghost use Rattle.base.specs.declared.refusal.Refusal.{Refusal};
ghost use Rattle.model.specs.Rule.{first_of};
ghost use Rattle.model.specs.declared.receiving.Receiving.{Receiving};
ghost use Rattle.model.specs.State.{State};
ghost use Rattle.model.specs.requests.Change.{limit_row};
ghost use Rattle.stream.specs.Spelling.{Sending};
ghost use Rattle.steps.specs.Received.{asked_by_receive};
ghost use Rattle.steps.specs.Intakes.{IsUnderWay, BreaksLimit};

use crate::intake::Present;
use base::meter::Meter;
use base::name::SnapName;
use base::refusal::Refusal;
use limits::outlook::kept_outlook_of;
use limits::{Ledger, Space};
use removals::WorkingCopy;
use std::alloc::Global;
use tree::Update;

/// Checks the limits in the state that a receive which has begun would lead to, before a record is applied, if a file system may have a limit
/// (zfsprops(7): quota, refquota, reservation; when they are checked is profile). The error is the first limit that would be broken: Quota, else
/// RefQuota, else NoSpace; or NoMemory where memory for the forecast is refused. It costs the nodes on the way to the changes, and the number of
/// file systems times its logarithm; where no file system may have a limit, constant time.
pub(crate) fn ask_limits(
    alloc: Global,
    present: Present,
    edit: &WorkingCopy,
    name: &SnapName,
    updates: &[Update],
    meter: &mut Meter,
) -> Result<(), Refusal>
    requires { (s : State) × (sent : Sending) × (mode : Receiving) × IsUnderWay s present name.now sent mode edit.now updates.now }
    ensures ok { (s : State) (sent : Sending) (mode : Receiving) → IsUnderWay s present.entry name.now sent mode edit.now updates.now → present.entry.is_limited ≡ true → OnOk result (first_of (limit_row (asked_by_receive s name.now sent mode)) ≡ None) }
    ensures err { (s : State) (sent : Sending) (mode : Receiving) → IsUnderWay s present.entry name.now sent mode edit.now updates.now → IfErr result (λ e. BreaksLimit s name.now sent mode e ⊎ (e ≡ Refusal.NoMemory)) }
    ensures never_lower { meter.old ≤ meter.new }
{
    if !present.is_limited {
        return Ok(());
    }
    let file_system_name = &name.member().file_system;
    let Some(file_system) = edit.to.find(file_system_name) else {
        unreachable!()
    };
    let mut ledger = Ledger::new(alloc)?;
    let forecast = file_system.live().forecast(alloc, updates, meter)?;
    let outlook = kept_outlook_of(file_system, &forecast, present.synced)?;
    ledger.fill(&edit.to);
    ledger.settle(&edit.to, file_system_name, outlook.here, outlook.referenced);
    let waiting = present.allocator.counts().waiting;
    let over = ledger.first_over(Space {
        size: present.size,
        freeing: edit.freeing.len(),
        waiting: u64::from(waiting) + outlook.waiting,
    });
    match over {
        Some(refusal) => Err(refusal),
        None => Ok(()),
    }
}

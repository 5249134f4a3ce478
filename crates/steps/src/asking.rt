//! The check of a request against the limits of a pool's file systems, before anything is changed.
ghost use Rattle.std.specs.Prelude.{◌≡◌, ◌≤◌, ◌<◌, ◌^◌, [], ◌∷◌, ℕ, List, None, IsSome, IfOk, IfErr, OnOk};
ghost use Rattle.std.specs.FinMap.{get};
ghost use Rattle.base.specs.declared.refusal.Refusal.{Refusal};
ghost use Rattle.base.specs.declared.name.target.Target.{Target};
ghost use Rattle.tree.specs.Updates.{changes_of, IsBatch};
ghost use Rattle.model.specs.declared.reply.Reply.{Reply};
ghost use Rattle.model.specs.declared.request.Property.{Property};
ghost use Rattle.model.specs.declared.request.Request.{Request};
ghost use Rattle.model.specs.Rule.{first_of};
ghost use Rattle.model.specs.State.{State};
ghost use Rattle.model.specs.Step.{Step};
ghost use Rattle.model.specs.Sums.{free_of, room_of};
ghost use Rattle.model.specs.requests.Change.{limit_row};
ghost use Rattle.world.specs.Tables.{world_of};
ghost use Rattle.datasets.specs.Limits.{with_limit_of};
ghost use Rattle.limits.specs.Ledgers.{ledger_of};
ghost use Rattle.steps.specs.Asked.{asked_by_set};
ghost use Rattle.lookups.specs.Accounted.{IsAccounted};
ghost use Rattle.steps.specs.Limiting.{IsStateWith, IsNoChange, MayChange, Foretells};

use crate::limiting::refilled;
use base::limit::Blocks;
use base::meter::Meter;
use base::name::{DsName, Target};
use base::number::Group;
use base::refusal::Refusal;
use datasets::Table;
use limits::outlook::{Outlook, outlook_of};
use limits::{Ledger, Space};
use model::limits::Limit;
use model::request::Property;
use std::alloc::Global;
use std::slice::from_ref;
use tree::Update;

/// Checks the limits in the state that this update of the live tree of a file system would lead to, before anything is changed. The answer has
/// the counts after the update, or none where no ledger is kept. The pool has these datasets and `space` beside them, and its last sync opened
/// the group `synced`. The error is the first limit that the update would break (zfsprops(7): quota, refquota, reservation; the order is
/// profile); NoDataset where there is no such file system; else NoMemory where memory for the forecast is refused. It costs the nodes on the way
/// to the changes, and for each level of the name the logarithm of the number of file systems. Without a ledger no file system has a limit: then
/// nothing is checked, in constant time.
pub fn ask_change(
    ledger: &Option<Ledger>,
    alloc: Global,
    table: &Table,
    space: Space,
    synced: Group,
    name: &DsName,
    update: &Update,
    meter: &mut Meter,
) -> Result<Option<Outlook>, Refusal>
    requires batch { IsBatch (update.now ∷ []) }
    requires own { IsAccounted table.now ledger.now }
    requires state { (s : State) × IsStateWith s table.now space × (synced.0 ≡ s.last.group) }
    ensures ok { (s : State) → IsStateWith s table.now space → synced.0 ≡ s.last.group → OnOk result (MayChange s name.now (changes_of (update.now ∷ []))) }
    ensures foretold { (s : State) → IsStateWith s table.now space → synced.0 ≡ s.last.group → IfOk result (Foretells s name.now (changes_of (update.now ∷ []))) }
    ensures err { (s : State) → IsStateWith s table.now space → synced.0 ≡ s.last.group → IfErr result (IsNoChange s name.now (changes_of (update.now ∷ []))) }
    ensures never_lower { meter.old ≤ meter.new }
{
    let Some(ledger) = ledger else {
        return Ok(None);
    };
    let Some(file_system) = table.find(name) else {
        return Err(Refusal::NoDataset);
    };
    let forecast = file_system.live().forecast(alloc, from_ref(update), meter)?;
    let outlook = outlook_of(file_system, &forecast, synced)?;
    let asked = Space {
        size: space.size,
        freeing: space.freeing,
        waiting: space.waiting + outlook.waiting,
    };
    let over = ledger.over_after(table, name, outlook.here, outlook.referenced, asked);
    match over {
        Some(refusal) => Err(refusal),
        None => Ok(Some(outlook)),
    }
}

// How many blocks are available to the file system of this name, where that is the property asked for; else 0 (zfsprops(7): available). The pool
// has these datasets, `space` beside them, and `free` free blocks. It costs for each level of the name the logarithm of the number of file
// systems, and the length of the name; without a ledger, constant time.
pub(crate) fn room_asked(
    ledger: &Option<Ledger>,
    table: &Table,
    space: Space,
    free: u32,
    target: &Target,
    property: Property,
) -> u64
    requires own { IsAccounted table.now ledger.now }
    ensures small { result < 2 ^ 55 }
    ensures room { (s : State) → IsStateWith s table.now space → free ≡ free_of s → (name : List ℕ) → target.now ≡ Target.FileSystem name → property ≡ Property.Available → IsSome (get table.now.file_systems name) → result ≡ room_of s name }
{
    let (Target::FileSystem(name), Property::Available) = (target, property) else {
        return 0;
    };
    let Some(ledger) = ledger else {
        return u64::from(free);
    };
    if table.find(name).is_none() {
        return 0;
    }
    ledger.room(table, name, space)
}

/// The datasets with this limit of a file system set to `amount`, or removed where that is none, and their ledger (zfs-set(8)). The pool has
/// these datasets and `space` beside them. NoDataset where there is no such file system; then, where an amount is given, the first limit that
/// would be broken; else NoMemory where memory is refused. It costs a reference count for each file system, and their number times its
/// logarithm.
pub fn with_limit(
    alloc: Global,
    table: &Table,
    space: Space,
    name: &DsName,
    limit: Limit,
    amount: Option<Blocks>,
) -> Result<(Table, Ledger), Refusal>
    requires state { (s : State) × IsStateWith s table.now space }
    ensures ok { IfOk result (λ p. p.0 ≡ with_limit_of table.now name.now limit amount) }
    ensures ledger { IfOk result (λ p. p.1 ≡ ledger_of (world_of p.0)) }
    ensures there { OnOk result (IsSome (get table.now.file_systems name.now)) }
    ensures fits { (s : State) → IsStateWith s table.now space → OnOk result (IsSome amount → first_of (limit_row (asked_by_set s name.now limit amount)) ≡ None) }
    ensures err { (s : State) → IsStateWith s table.now space → IfErr result (λ e. Step s (Request.Set name.now limit amount) (Reply.Refused e) s) }
{
    let mut ledger = Ledger::new(alloc)?;
    let mut to = table.copy()?;
    to.set_limit(alloc, name, limit, amount)?;
    if amount.is_none() {
        ledger.fill(&to);
        return Ok((to, ledger));
    }
    match refilled(&mut ledger, &to, space) {
        Some(refusal) => Err(refusal),
        None => Ok((to, ledger)),
    }
}

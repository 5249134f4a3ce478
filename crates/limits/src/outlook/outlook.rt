//! The counts after a change.
ghost use Rattle.std.specs.Prelude.{◌≡◌, ◌<◌, ◌≤◌, ◌^◌, ◌&&◌, [], ◌∷◌, ℕ, IfOk, IfErr, count_by, nat_lt};
ghost use Rattle.base.specs.Rewrite.{Changes};
ghost use Rattle.base.specs.declared.refusal.Refusal.{Refusal};
ghost use Rattle.model.specs.State.{State};
ghost use Rattle.base.specs.declared.name.member.Member.{Member};
ghost use Rattle.world.specs.Takings.{AreTakable};
ghost use Rattle.limits.specs.Outlooks.{IsAhead, IsOutlookOf, IsKeptOutlookOf, IsTallyOf};

use base::number::{Dead, Group};
use base::refusal::Refusal;
use datasets::FileSystem;
use model::limits::Limit;
use tree::Forecast;

/// The counts of a file system and of its pool after a change of the live map, in blocks.
#[derive(Clone, Copy, PartialEq, Eq, Debug)]
pub struct Outlook {
    /// The part of the file system's `used` that isn't its children's (zfsprops(7): usedbydataset, usedbysnapshots, usedbyrefreservation).
    pub here: u64,
    /// The number of blocks of the live map (zfsprops(7): referenced).
    pub referenced: u64,
    /// How many more blocks wait for the next sync.
    pub waiting: u64,
}

// How many of the blocks were born after a group.
fn count_after(dropped: &[Dead], group: Group) -> usize
    ensures { result ≡ count_by (λ d. nat_lt group.0 d.birth.0) dropped.now }
{
    dropped.iter().filter(|dead| dead.birth.0 > group.0).count()
}

// How many of the blocks were born after the group `low` and before the group `high`.
fn count_before(dropped: &[Dead], low: Group, high: Group) -> usize
    ensures { result ≡ count_by (λ d. nat_lt low.0 d.birth.0 && nat_lt d.birth.0 high.0) dropped.now }
{
    dropped
        .iter()
        .filter(|dead| dead.birth.0 > low.0 && dead.birth.0 < high.0)
        .count()
}

// The counts that an outlook is made of, in blocks.
#[derive(Drop)]
struct Tally {
    // What the live map and the snapshots use (zfsprops(7): usedbydataset, usedbysnapshots).
    held: u64,
    // The refreservation, and 0 where there is none (zfsprops(7): refreservation).
    kept: u64,
    // The blocks of the live map that were born after the newest snapshot or the origin (zfsprops(7): written).
    written: u64,
    referenced: u64,
    waiting: u64,
}

// The tally of a change. NoMemory where the change makes more blocks than a u32 counts. It costs the blocks that the change drops.
fn tally_of(file_system: &FileSystem, forecast: &Forecast, synced: Group) -> Result<Tally, Refusal>
    requires { (s : State) × (c : Changes) × IsAhead s c file_system.now forecast.now synced.0 }
    ensures ok { IfOk result (λ t. (s : State) (c : Changes) → IsAhead s c file_system.now forecast.now synced.0 → IsTallyOf s c file_system.now t) }
    ensures little { IfOk result (λ t. t.held < 2 ^ 36) }
    ensures most { IfOk result (λ t. t.kept ≤ 2 ^ 40) }
    ensures err { IfErr result (λ e. e ≡ Refusal.NoMemory) }
{
    let Ok(made) = u32::try_from(forecast.made) else {
        return Err(Refusal::NoMemory);
    };
    let made = u64::from(made);
    let before = file_system.newest_group();
    let own = count_after(&forecast.dropped, before) as u64;
    let held = u64::from(file_system.used_by_dataset()) + file_system.used_by_snapshots() + made
        - own;
    let written = u64::from(file_system.written()) + made - own;
    let kept = match file_system.limits().get(Limit::RefReservation) {
        Some(amount) => amount.get(),
        None => 0,
    };
    Ok(Tally {
        held,
        kept,
        written,
        referenced: u64::from(file_system.live().node_count()) + made
            - forecast.dropped.len() as u64,
        waiting: count_before(&forecast.dropped, before, synced) as u64,
    })
}

/// The counts of a file system and of its pool after the change of this forecast, where the last sync opened the group `synced`. For every state
/// and change of which it is the forecast, they are those of the world that limits are checked against (zfsprops(7): quota, refquota,
/// reservation). NoMemory where the change makes more blocks than a u32 counts. It costs the blocks that the change drops.
pub fn outlook_of(
    file_system: &FileSystem,
    forecast: &Forecast,
    synced: Group,
) -> Result<Outlook, Refusal>
    requires { (s : State) × (c : Changes) × IsAhead s c file_system.now forecast.now synced.0 }
    ensures ok { IfOk result (λ o. (s : State) (c : Changes) → IsAhead s c file_system.now forecast.now synced.0 → IsOutlookOf s c file_system.now o) }
    ensures small { IfOk result (λ o. o.here < 2 ^ 42) }
    ensures err { IfErr result (λ e. e ≡ Refusal.NoMemory) }
{
    let tally = tally_of(file_system, forecast, synced)?;
    Ok(Outlook {
        here: tally.held + tally.kept.saturating_sub(tally.written),
        referenced: tally.referenced,
        waiting: tally.waiting,
    })
}

/// The counts of a file system and of its pool after the change of this forecast, where the changed live map is then kept as a snapshot, as a
/// receive does. After that nothing of the file system's refreservation is written (zfsprops(7): usedbyrefreservation; zfs-receive(8)).
/// `synced`, NoMemory and the cost are as in `outlook_of`.
pub fn kept_outlook_of(
    file_system: &FileSystem,
    forecast: &Forecast,
    synced: Group,
) -> Result<Outlook, Refusal>
    requires { (s : State) × (c : Changes) × IsAhead s c file_system.now forecast.now synced.0 }
    ensures ok { IfOk result (λ o. (s : State) (c : Changes) → IsAhead s c file_system.now forecast.now synced.0 → (m : Member) → m.file_system ≡ file_system.now.name → AreTakable s.now.file_systems (m ∷ []) → (guid : ℕ) → IsKeptOutlookOf s c file_system.now m guid o) }
    ensures small { IfOk result (λ o. o.here < 2 ^ 42) }
    ensures err { IfErr result (λ e. e ≡ Refusal.NoMemory) }
{
    let tally = tally_of(file_system, forecast, synced)?;
    Ok(Outlook {
        here: tally.held + tally.kept,
        referenced: tally.referenced,
        waiting: tally.waiting,
    })
}

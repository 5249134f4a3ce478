//! The counts of a file system that its limits are checked against.
ghost use Rattle.std.specs.Option.{unwrap_or};
ghost use Rattle.std.specs.Prelude.{◌≡◌, ◌≤◌, ◌<◌, ◌^◌};
ghost use Rattle.model.specs.Sums.{used_by_refreservation as by_refreservation};
ghost use Rattle.world.specs.Tables.{Datasets, world_of};
ghost use Rattle.world.specs.Worlds.{AreFileSystems};
ghost use Rattle.limits.specs.Ledgers.{account_in};
ghost use Rattle.limits.specs.Rows.{IsRowOf, own_in, unwritten_in, account_at};

use datasets::FileSystem;
use model::limits::{Limit, Limits};

/// The counts of a file system that its limits are checked against, in blocks and without what its children use, and the limits.
#[derive(Clone, Copy)]
pub struct Account {
    /// The part of its `used` that isn't its children's (zfsprops(7): usedbydataset, usedbysnapshots, usedbyrefreservation).
    pub here: u64,
    /// The number of blocks of its live map (zfsprops(7): referenced).
    pub referenced: u64,
    /// Its limits (zfsprops(7): quota, refquota, reservation, refreservation).
    pub limits: Limits,
}

/// The part of a file system's refreservation that isn't written yet, in blocks; 0 where it has no refreservation (zfsprops(7):
/// usedbyrefreservation). Constant time.
pub fn used_by_refreservation(file_system: &FileSystem) -> u64
    ensures row { result ≡ unwritten_in file_system.now }
    ensures value { (t : Datasets) → AreFileSystems t.file_systems t.group → IsRowOf t file_system.now → result ≡ by_refreservation (world_of t) file_system.now.name file_system.now.system }
    ensures most { result ≤ 2 ^ 40 }
{
    match file_system.limits().get(Limit::RefReservation) {
        Some(kept) => kept.get().saturating_sub(u64::from(file_system.written())),
        None => 0,
    }
}

/// A file system's account. Constant time.
pub fn account_of(file_system: &FileSystem) -> Account
    requires { own_in file_system.now < 2 ^ 32 }
    ensures row { result ≡ account_at file_system.now }
    ensures value { (t : Datasets) → AreFileSystems t.file_systems t.group → IsRowOf t file_system.now → result ≡ account_in (world_of t) file_system.now.name file_system.now.system }
    ensures small { result.here < 2 ^ 42 }
    ensures modest { unwrap_or result.limits.reservation 0 ≤ 2 ^ 40 }
{
    let limits = file_system.limits();

    // For the prover alone: a reservation is at most 2^40 blocks.
    let _reserved = match limits.get(Limit::Reservation) {
        Some(amount) => amount.get(),
        None => 0,
    };
    let own = u64::from(file_system.used_by_dataset()) + file_system.used_by_snapshots();
    Account {
        here: own + used_by_refreservation(file_system),
        referenced: u64::from(file_system.live().node_count()),
        limits,
    }
}

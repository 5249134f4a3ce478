//! The limits of a file system.
ghost use Rattle.std.specs.Prelude.{◌≡◌};
ghost use Rattle.model.specs.World.{no_limits};
ghost use Rattle.model.specs.Limits.{limit_of, with_limit};

use base::limit::Blocks;
use std::marker::Model;

/// One of the limits that a file system can have (zfsprops(7)).
#[derive(Clone, Copy, PartialEq, Eq, Debug)]
pub enum Limit {
    /// The most that it may use with all its descendants.
    Quota,
    /// The most that its live map may have.
    RefQuota,
    /// The space that is reserved for it and its descendants.
    Reservation,
    /// The space that is reserved for its live map.
    RefReservation,
}

/// The limits of a file system, each in blocks, or none (zfsprops(7): quota, refquota, reservation, refreservation). Contracts see the
/// four of them.
#[derive(Clone, Copy)]
pub struct Limits {
    quota: Option<Blocks>,
    refquota: Option<Blocks>,
    reservation: Option<Blocks>,
    refreservation: Option<Blocks>,
}

impl Model for Limits {
    ghost use Rattle.model.specs.World.{Limits};
    ghost use Rattle.model.specs.Codes.{limits_code};

    ghost Value = { Limits };

    ghost coded = { limits_code };

    ghost view = { λ l. record { quota = l.quota; refquota = l.refquota; reservation = l.reservation; refreservation = l.refreservation } };

    ghost inverse = { λ l. record { quota = l.quota; refquota = l.refquota; reservation = l.reservation; refreservation = l.refreservation } };
}

impl Limits {
    /// No limit (zfsprops(7)). Constant time.
    pub fn none() -> Limits
        ensures { result ≡ no_limits }
    {
        Limits {
            quota: None,
            refquota: None,
            reservation: None,
            refreservation: None,
        }
    }

    /// One of these limits, or None where it isn't set (zfsprops(7)). Constant time.
    pub fn get(self, limit: Limit) -> Option<Blocks>
        ensures { result ≡ limit_of self limit }
    {
        match limit {
            Limit::Quota => self.quota,
            Limit::RefQuota => self.refquota,
            Limit::Reservation => self.reservation,
            Limit::RefReservation => self.refreservation,
        }
    }

    /// These limits with one of them set to an amount, or removed (zfsprops(7)). Constant time.
    pub fn with(self, limit: Limit, amount: Option<Blocks>) -> Limits
        ensures { result ≡ with_limit self limit amount }
    {
        let mut limits = self;
        match limit {
            Limit::Quota => limits.quota = amount,
            Limit::RefQuota => limits.refquota = amount,
            Limit::Reservation => limits.reservation = amount,
            Limit::RefReservation => limits.refreservation = amount,
        }
        limits
    }
}

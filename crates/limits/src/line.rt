//! A line of a ledger.
ghost use Rattle.std.specs.Prelude.{◌≡◌, ◌≤◌, ◌<◌, ◌+◌, ◌^◌};
ghost use Rattle.limits.specs.Lines.{used_in, reserved_in, charge_in, unspent_in, is_in_quota, is_in_refquota, IsSmall};
ghost use Rattle.model.specs.Sums.{within_quota};

use crate::account::Account;
use model::limits::Limit;

/// A line of a ledger: a file system's account, and what its children use (zfsprops(7): usedbychildren).
#[derive(Clone, Copy)]
pub struct Line {
    pub account: Account,
    pub children: u64,
}

impl Line {
    /// What the file system uses with all its descendants, in blocks (zfsprops(7): used). Constant time.
    pub fn used(&self) -> u64
        requires { IsSmall self.now }
        ensures { result ≡ used_in self.now }
    {
        self.account.here + self.children
    }

    /// What it adds to `children` of its parent, in blocks: what it uses, or its reservation where that is more (zfsprops(7): usedbychildren,
    /// reservation). Constant time.
    pub fn charge(&self) -> u64
        requires { IsSmall self.now }
        ensures value { result ≡ charge_in self.now }
        ensures most { result ≤ used_in self.now + 2 ^ 40 }
    {
        self.used().max(self.reserved())
    }

    /// The unused part of its reservation, in blocks (zfsprops(7): reservation). Constant time.
    pub fn unspent(&self) -> u64
        requires { IsSmall self.now }
        ensures value { result ≡ unspent_in self.now }
        ensures most { result ≤ 2 ^ 40 }
    {
        self.reserved().saturating_sub(self.used())
    }

    /// Whether it has no quota, or uses no more than that (zfsprops(7): quota). Constant time.
    pub fn is_in_quota(&self) -> bool
        requires { IsSmall self.now }
        ensures { result ≡ is_in_quota self.now }
    {
        match self.account.limits.get(Limit::Quota) {
            Some(quota) => self.used() <= quota.get(),
            None => true,
        }
    }

    /// Whether it has no refquota, or its live map has no more blocks than that (zfsprops(7): refquota). Constant time.
    pub fn is_in_refquota(&self) -> bool
        ensures { result ≡ is_in_refquota self.now }
    {
        match self.account.limits.get(Limit::RefQuota) {
            Some(refquota) => self.account.referenced <= refquota.get(),
            None => true,
        }
    }

    /// The part of `room`, in blocks, that its quota allows: at most the quota less what it uses (zfsprops(7): available, quota). Constant time.
    pub fn within_quota(&self, room: u64) -> u64
        requires { IsSmall self.now }
        ensures value { result ≡ within_quota self.now.account.limits.quota (used_in self.now) room }
        ensures most { result ≤ room }
    {
        match self.account.limits.get(Limit::Quota) {
            Some(quota) => room.min(quota.get().saturating_sub(self.used())),
            None => room,
        }
    }

    // Its reservation in blocks, and 0 where it has none. Constant time.
    fn reserved(&self) -> u64
        ensures value { result ≡ reserved_in self.now }
        ensures most { result ≤ 2 ^ 40 }
    {
        match self.account.limits.get(Limit::Reservation) {
            Some(reservation) => reservation.get(),
            None => 0,
        }
    }
}

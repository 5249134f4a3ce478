//! The amount of a limit property.
ghost use Rattle.std.specs.Prelude.{◌≡◌, ◌≤◌, ◌^◌, ◌⊎◌, ◌<◌, IfOk, ◌↔◌};

use crate::refusal::Refusal;
use std::marker::Model;

/// The number of blocks that a limit property allows or reserves, 1 to 2^40 (profile). Where a limit may be absent, the type is
/// `Option<Blocks>`.
#[derive(Clone, Copy, PartialEq, Eq, PartialOrd, Ord, Debug)]
pub struct Blocks {
    count: u64,
}

impl Model for Blocks {
    ghost use Rattle.std.specs.Prelude.{ℕ, ◌≤◌, ◌^◌};

    ghost Value = { ℕ };

    ghost view = { λ b. b.count };

    ghost invariant = { λ b. (1 ≤ b.count) × (b.count ≤ 2 ^ 40) };

    ghost inverse = { λ n. record { count = n } };
}

impl Blocks {
    /// This many blocks. TooMany for 0 and above 2^40 (profile).
    pub fn new(count: u64) -> Result<Blocks, Refusal>
        ensures ok { IfOk result (λ b. b ≡ count) }
        ensures too_many { (result ≡ Err Refusal.TooMany) ↔ ((count < 1) ⊎ (2 ^ 40 < count)) }
        ensures only { (e : _) → result ≡ Err e → e ≡ Refusal.TooMany }
    {
        if count < 1 || count > 1 << 40 {
            return Err(Refusal::TooMany);
        }
        Ok(Blocks { count })
    }

    /// How many blocks.
    pub fn get(self) -> u64
        ensures value { result ≡ self }
        ensures least { 1 ≤ result }
        ensures most { result ≤ 2 ^ 40 }
    {
        self.count
    }
}

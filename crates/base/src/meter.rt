//! Counters of the nodes and segments that were reached.
ghost use Rattle.std.specs.Prelude.{◌≡◌, ◌≤◌};
ghost use Rattle.base.specs.Counting.{counted};

use std::marker::Model;
use toll::Toll;

/// Counts the nodes of trees that were reached. The count stops at the greatest u64. Making a meter takes a [`Toll`], and a meter cannot be
/// copied.
#[derive(Drop, Debug)]
pub struct Meter {
    nodes: u64,
}

impl Model for Meter {
    ghost use Rattle.std.specs.Prelude.{ℕ};

    ghost Value = { ℕ };

    ghost view = { λ m. m.nodes };

    ghost inverse = { λ n. record { nodes = n } };
}

impl Meter {
    /// A meter at 0.
    pub fn new(_toll: Toll) -> Meter
        ensures { result ≡ 0 }
    {
        Meter { nodes: 0 }
    }

    /// How many nodes it has counted.
    pub fn count(&self) -> u64
        ensures { result ≡ self.now }
    {
        self.nodes
    }

    /// Counts one more node.
    pub fn add_one(&mut self)
        ensures metered { self.new ≡ counted self.old 1 }
        ensures never_lower { self.old ≤ self.new }
    {
        self.nodes = one_more(self.nodes);
    }
}

/// Counts the segments of dead lists that were reached, and the entries that a sum looked at in them. The count stops at the greatest u64. Making
/// a meter takes a [`Toll`], and a meter cannot be copied.
#[derive(Drop, Debug)]
pub struct SegMeter {
    segments: u64,
}

impl Model for SegMeter {
    ghost use Rattle.std.specs.Prelude.{ℕ};

    ghost Value = { ℕ };

    ghost view = { λ m. m.segments };

    ghost inverse = { λ n. record { segments = n } };
}

impl SegMeter {
    /// A meter at 0.
    pub fn new(_toll: Toll) -> SegMeter
        ensures { result ≡ 0 }
    {
        SegMeter { segments: 0 }
    }

    /// How many segments and entries it has counted.
    pub fn count(&self) -> u64
        ensures { result ≡ self.now }
    {
        self.segments
    }

    /// Counts one more segment.
    pub fn add_one(&mut self)
        ensures metered { self.new ≡ counted self.old 1 }
        ensures never_lower { self.old ≤ self.new }
    {
        self.segments = one_more(self.segments);
    }
}

// The count plus one, or the same count at the greatest u64.
#[tactic(auto, unfolding(crate::specs::Counting::counted, crate::specs::Counting::most))]
pub(crate) fn one_more(count: u64) -> u64
    ensures next { result ≡ counted count 1 }
    ensures never_lower { count ≤ result }
{
    count.saturating_add(1)
}

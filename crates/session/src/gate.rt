//! Gates, which say when a batch or a worker ends.
ghost use Rattle.std.specs.Prelude.{◌≡◌, ◌+◌, ◌<◌, ◌^◌, MatchBool, true, false};

/// Says whether to go on. Each true answer uses up one of finitely many turns, and nothing else does. A false answer is final: every later call
/// of `turn` answers false too.
pub trait Gate {
    ghost use Rattle.std.specs.Prelude.{ℕ, Bool};

    /// How many turns are left.
    ghost left: { Self → ℕ };

    /// Whether the last answer was false.
    ghost stopped: { Self → Bool };

    /// Whether to go on.
    fn turn(&mut self) -> bool
        ensures answer { MatchBool result ((left self.old ≡ left self.new + 1) × (stopped self.new ≡ false)) ((left self.new ≡ left self.old) × (stopped self.new ≡ true)) }
        ensures stands { stopped self.old ≡ true → result ≡ false }
        ensures few { left self.old < 2 ^ 64 };
}

/// A gate with a number of turns: it answers true that many times, and false from then on (profile). A batch of `n` requests that is not to stop
/// early needs `n - 1` turns; a worker needs one before each of its requests.
#[derive(Drop)]
pub struct Turns {
    turns: u64,
    is_stopped: bool,
}

impl Turns {
    /// A gate with this many turns. Constant time, as each turn is.
    pub fn new(turns: u64) -> Turns
        ensures { result ≡ record { turns = turns; is_stopped = false } }
    {
        Turns {
            turns,
            is_stopped: false,
        }
    }
}

impl Gate for Turns {
    ghost left = { λ g. g.turns };

    ghost stopped = { λ g. g.is_stopped };

    fn turn(&mut self) -> bool {
        if self.turns == 0 || self.is_stopped {
            self.is_stopped = true;
            return false;
        }
        self.turns -= 1;
        true
    }
}

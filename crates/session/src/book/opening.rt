//! The opening state of a session.
use std::marker::Brand;

/// Gives contracts names for the pool's state when a session opens, and for the number of calls that the session takes. Code that uses a session
/// is generic in it. It is called with std's `Brand`, for which each call may choose both. A seat of a session with another `Opening` is a type
/// error.
pub trait Opening {
    ghost use Rattle.std.specs.Prelude.{ℕ};
    ghost use Rattle.model.specs.State.{State};

    /// The state of the pool that was handed to `Book::open`.
    ghost opening: { State };

    /// How many calls the session takes.
    ghost limit: { ℕ };
}

impl Opening for Brand {
    ghost use Rattle.model.specs.State.{fresh_state};

    ghost opening = { fresh_state 1 1 };

    ghost limit = { 1 };
}

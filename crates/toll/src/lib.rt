//! The right to make a meter.
//!
//! A crate that cannot name this one cannot make a meter of `base`: it can only pass on a meter that it was given. So the owner of the meter
//! sees every node and segment that was reached. Only `base`, which has the meters, `pool` and `session`, which hand them to the layers below,
//! and crates of tests may list this crate.
#![tactic(auto)]

/// Spent to make one meter.
#[derive(Drop, Debug)]
pub struct Toll {
    _private: (),
}

impl Toll {
    /// A toll for one meter. It takes no memory.
    pub fn new() -> Toll {
        Toll { _private: () }
    }
}

//! What a row tells.
use base::refusal::Refusal;
use std::alloc::AllocError;
use std::fmt;

/// What a row tells.
#[derive(Clone, Copy)]
pub enum Told {
    /// It is done.
    Done,
    /// What it asks of isn't there.
    Absent,
    /// No row is written so.
    Unknown,
    Is(bool),
    One(u64),
    Two(u64, u64),
    Three(u64, u64, u64),
    Refused(Refusal),
}

impl fmt::Display for Told {
    fn fmt<W: fmt::Write>(&self, f: &mut fmt::Formatter<W>) -> fmt::Result {
        match *self {
            Told::Done => f.write_str("ok"),
            Told::Absent => f.write_str("none"),
            Told::Unknown => f.write_str("unknown"),
            Told::Is(true) => f.write_str("yes"),
            Told::Is(false) => f.write_str("no"),
            Told::One(one) => write!(f, "{one}"),
            Told::Two(one, two) => write!(f, "{one} {two}"),
            Told::Three(one, two, three) => write!(f, "{one} {two} {three}"),
            Told::Refused(refusal) => write!(f, "error {refusal}"),
        }
    }
}

/// A number that tells where another one stands in a sequence, and the sequence before it.
pub fn mixed(sum: u64, number: u64) -> u64 {
    sum.wrapping_mul(6_364_136_223_846_793_005)
        .wrapping_add(number)
        .rotate_left(23)
}

/// The same of bytes that go on a sequence.
pub fn mixed_bytes(before: u64, bytes: &[u8]) -> u64 {
    let mut sum = before;
    for byte in bytes {
        sum = mixed(sum, u64::from(*byte));
    }
    sum
}

impl Told {
    /// A number for the kind of what is told, and the numbers in it.
    fn parts(self) -> (u64, u64, u64, u64) {
        match self {
            Told::Done => (1, 0, 0, 0),
            Told::Absent => (2, 0, 0, 0),
            Told::Unknown => (3, 0, 0, 0),
            Told::Is(is) => (4, u64::from(is), 0, 0),
            Told::One(one) => (5, one, 0, 0),
            Told::Two(one, two) => (6, one, two, 0),
            Told::Three(one, two, three) => (7, one, two, three),
            Told::Refused(refusal) => (8, u64::from(refusal.number()), 0, 0),
        }
    }

    /// The sum of what was told before and of this.
    pub fn added(self, sum: u64) -> u64 {
        let (kind, one, two, three) = self.parts();
        mixed(mixed(mixed(mixed(sum, kind), one), two), three)
    }
}

/// What a call tells that gives nothing.
pub fn done(outcome: Result<(), Refusal>) -> Told {
    match outcome {
        Ok(()) => Told::Done,
        Err(refusal) => Told::Refused(refusal),
    }
}

/// What a call tells that gives nothing, and fails for want of memory alone.
pub fn done_or_refused(outcome: Result<(), AllocError>) -> Told {
    match outcome {
        Ok(()) => Told::Done,
        Err(_) => Told::Refused(Refusal::NoMemory),
    }
}

/// A number, or that there is none.
pub fn number_or_none(number: Option<u64>) -> Told {
    match number {
        Some(number) => Told::One(number),
        None => Told::Absent,
    }
}

/// What a call tells that may be refused.
pub fn told_or_refused(outcome: Result<Told, Refusal>) -> Told {
    match outcome {
        Ok(told) => told,
        Err(refusal) => Told::Refused(refusal),
    }
}

/// What a call tells that is done, or not since what it asks of isn't there.
pub fn done_or_absent(is_done: bool) -> Told {
    if is_done { Told::Done } else { Told::Absent }
}

//! The results of calls, as C gets them.
ghost use Rattle.std.specs.Prelude.{◌≡◌};
ghost use Rattle.c_api.specs.Answers.{code_of, answer_of, got_answer};

use base::refusal::Refusal;
use model::reply::{Reply, Value};

/// The result of a call, which C gets as a number. Unless it is Done, the pool is unchanged.
#[derive(Clone, Copy, PartialEq, Eq, Debug)]
pub enum Answer {
    /// The call was done: 0.
    Done,
    /// The call was refused: the refusal's number, 1 to 30.
    Refused(Refusal),
    /// The handle has no pool: -2. (-1 is the header's own, for a null pointer.)
    NoPool,
    /// The handle already has a pool: -3.
    HasPool,
    /// A block isn't 512 bytes: -4.
    BadLength,
    /// No property, limit or mode of a receive has this number: -5.
    NoProperty,
    /// This kind of dataset has no such property: -6.
    NotApplicable,
    /// A limit's amount isn't a multiple of 512 bytes, or is more than 2^49: -7.
    BadAmount,
    /// The last list has no name at this index: -8.
    NoEntry,
}

impl Answer {
    /// The number of the answer. Constant time.
    pub fn code(self) -> i32
        ensures { result ≡ code_of self }
    {
        match self {
            Answer::Done => 0,
            Answer::Refused(refusal) => refusal.number() as i32,
            Answer::NoPool => -2,
            Answer::HasPool => -3,
            Answer::BadLength => -4,
            Answer::NoProperty => -5,
            Answer::NotApplicable => -6,
            Answer::BadAmount => -7,
            Answer::NoEntry => -8,
        }
    }

    // The answer for a reply whose value is returned in another way.
    pub(crate) fn of(reply: &Reply) -> Answer
        ensures { result ≡ answer_of reply.now }
    {
        match reply {
            Reply::Refused(refusal) => Answer::Refused(*refusal),
            _ => Answer::Done,
        }
    }

    // The answer for the reply to a request for a number.
    pub(crate) fn of_number(reply: &Reply) -> Answer
        ensures { result ≡ got_answer reply.now }
    {
        match reply {
            Reply::Refused(refusal) => Answer::Refused(*refusal),
            Reply::Value(Value::Size(_)) => Answer::Done,
            Reply::Value(Value::Number(_)) => Answer::Done,
            _ => Answer::NotApplicable,
        }
    }
}

//! The replies of a pool.
ghost use Rattle.std.specs.Prelude.{◌≡◌, ◌↔◌, IsTrue};

use crate::names::Names;
use crate::sight::Sight;
use base::refusal::Refusal;
use base::text::Bytes;

/// The value of a property.
#[derive(Drop)]
pub enum Value {
    /// A size in bytes.
    Size(u64),
    /// A number that is not a size.
    Number(u64),
    /// A text, perhaps an empty one.
    Named(Bytes),
    /// A truth value.
    Truth(bool),
    /// The dataset or bookmark is of a kind without this property.
    NotApplicable,
}

impl Value {
    /// Whether the other is the same value.
    pub fn same(&self, other: &Value) -> bool
        ensures { IsTrue result ↔ (self.now ≡ other.now) }
    {
        match (self, other) {
            (Value::Size(a), Value::Size(b)) => *a == *b,
            (Value::Number(a), Value::Number(b)) => *a == *b,
            (Value::Named(a), Value::Named(b)) => a.same(b),
            (Value::Truth(a), Value::Truth(b)) => *a == *b,
            (Value::NotApplicable, Value::NotApplicable) => true,
            _ => false,
        }
    }
}

/// The answer to one request.
#[derive(Drop)]
pub enum Reply {
    /// The request was done.
    Done,
    /// The request was refused, and nothing has changed.
    Refused(Refusal),
    /// The bytes of a block, or None where it is a hole.
    Data(Option<[u8; 512]>),
    /// The value of a property.
    Value(Value),
    /// The open group after a sync.
    Group(u64),
    /// Names of datasets or tags, in their order.
    Names(Names),
    /// How many blocks a slice has released.
    Count(u64),
    /// The number of the view that was opened, and what it shows.
    Opened(u64, Sight),
    /// The bytes of a send.
    Stream(Bytes),
}

impl Reply {
    /// Whether the other is the same answer.
    pub fn same(&self, other: &Reply) -> bool
        ensures { IsTrue result ↔ (self.now ≡ other.now) }
    {
        match (self, other) {
            (Reply::Done, Reply::Done) => true,
            (Reply::Refused(a), Reply::Refused(b)) => a.same(*b),
            (Reply::Data(a), Reply::Data(b)) => are_same_data(a, b),
            (Reply::Value(a), Reply::Value(b)) => a.same(b),
            (Reply::Group(a), Reply::Group(b)) => *a == *b,
            (Reply::Names(a), Reply::Names(b)) => a.same(b),
            (Reply::Count(a), Reply::Count(b)) => *a == *b,
            (Reply::Opened(n, a), Reply::Opened(m, b)) => *n == *m && a.same(b),
            (Reply::Stream(a), Reply::Stream(b)) => a.same(b),
            _ => false,
        }
    }
}

fn are_same_data(one: &Option<[u8; 512]>, other: &Option<[u8; 512]>) -> bool
    ensures { IsTrue result ↔ (one.now ≡ other.now) }
{
    match (one, other) {
        (Some(a), Some(b)) => *a == *b,
        (None, None) => true,
        _ => false,
    }
}

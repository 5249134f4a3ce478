//! Copies of replies.
ghost use Rattle.std.specs.Prelude.{◌≡◌, IfSome};

use base::text::Bytes;
use model::names::Names;
use model::reply::{Reply, Value};
use session::Receipt;
use std::alloc::Global;

/// A copy of a receipt's reply. None where there is no memory for it.
pub(crate) fn reply_of(alloc: Global, receipt: Receipt) -> Option<Reply>
    ensures { IfSome result (λ r. r ≡ receipt.entry.reply) }
{
    match receipt.entry.reply.other() {
        Some(reply) => copy_of(alloc, reply),
        None => Some(Reply::Done),
    }
}

/// A copy of a reply. None where there is no memory for its names or bytes, or where one more reference to a tree is refused.
fn copy_of(alloc: Global, reply: &Reply) -> Option<Reply>
    ensures { IfSome result (λ r. r ≡ reply.now) }
{
    match reply {
        Reply::Done => Some(Reply::Done),
        Reply::Refused(refusal) => Some(Reply::Refused(*refusal)),
        Reply::Data(bytes) => Some(Reply::Data(*bytes)),
        Reply::Value(value) => Some(Reply::Value(copy_of_value(alloc, value)?)),
        Reply::Group(group) => Some(Reply::Group(*group)),
        Reply::Names(names) => Some(Reply::Names(copy_of_names(alloc, names)?)),
        Reply::Count(count) => Some(Reply::Count(*count)),
        Reply::Opened(number, sight) => Some(Reply::Opened(*number, sight.copy().ok()?)),
        Reply::Stream(bytes) => Some(Reply::Stream(copy_of_bytes(alloc, bytes)?)),
    }
}

fn copy_of_value(alloc: Global, value: &Value) -> Option<Value>
    ensures { IfSome result (λ r. r ≡ value.now) }
{
    match value {
        Value::Size(size) => Some(Value::Size(*size)),
        Value::Number(number) => Some(Value::Number(*number)),
        Value::Named(text) => Some(Value::Named(copy_of_bytes(alloc, text)?)),
        Value::Truth(truth) => Some(Value::Truth(*truth)),
        Value::NotApplicable => Some(Value::NotApplicable),
    }
}

fn copy_of_bytes(alloc: Global, bytes: &Bytes) -> Option<Bytes>
    ensures { IfSome result (λ r. r ≡ bytes.now) }
{
    let copy = Vec::from_slice(alloc, bytes.as_slice()).ok()?;
    Some(Bytes::from(copy))
}

fn copy_of_names(alloc: Global, names: &Names) -> Option<Names>
    ensures { IfSome result (λ r. r ≡ names.now) }
{
    let mut copy = Vec::new(alloc);
    for name in names.as_slice() {
        copy.push(copy_of_bytes(alloc, name)?).ok()?;
    }
    Some(Names::from(copy))
}

//! Replies as texts.
use crate::told::{tell, tell_number, tell_refusal};
use base::refusal::Refusal;
use base::text::Bytes;
use model::entry::KeptReply;
use model::reply::{Reply, Value};
use std::alloc::{AllocError, Global};

pub fn tell_digits(alloc: Global, bytes: &[u8], told: &mut Vec<u8>) -> Result<(), AllocError> {
    let digits = hex::encode(alloc, bytes)?;
    tell(told, digits.as_str())
}

/// Tells names with blanks between them, `-` for none.
fn tell_names(names: &[Bytes], told: &mut Vec<u8>) -> Result<(), AllocError> {
    let mut between = "";
    for name in names {
        tell(told, between)?;
        told.extend_from_slice(name.as_slice())?;
        between = " ";
    }
    tell(told, if names.is_empty() { "-" } else { "" })
}

fn tell_value(alloc: Global, value: &Value, told: &mut Vec<u8>) -> Result<(), AllocError> {
    match value {
        Value::Size(number) | Value::Number(number) => tell_number(alloc, told, *number),
        Value::Named(text) if text.as_slice().is_empty() => tell(told, "-"),
        Value::Named(text) => told.extend_from_slice(text.as_slice()),
        Value::Truth(is_so) => tell(told, if *is_so { "on" } else { "off" }),
        Value::NotApplicable => tell(told, "-"),
    }
}

/// Tells a reply as a script does.
pub fn tell_reply(alloc: Global, reply: &Reply, told: &mut Vec<u8>) -> Result<(), AllocError> {
    match reply {
        Reply::Done => tell(told, "ok"),
        Reply::Refused(refusal) => tell_refusal(alloc, told, *refusal),
        Reply::Data(None) => tell(told, "hole"),
        Reply::Data(Some(bytes)) => tell_digits(alloc, bytes.as_slice(), told),
        Reply::Value(value) => tell_value(alloc, value, told),
        Reply::Group(number) => tell_number(alloc, told, *number),
        Reply::Count(number) => tell_number(alloc, told, *number),
        Reply::Opened(number, _) => tell_number(alloc, told, *number),
        Reply::Names(names) => tell_names(names.as_slice(), told),
        Reply::Stream(bytes) => tell_digits(alloc, bytes.as_slice(), told),
    }
}

/// Tells a reply of a session's entry.
pub fn tell_kept(alloc: Global, reply: &KeptReply, told: &mut Vec<u8>) -> Result<(), AllocError> {
    match reply.other() {
        Some(reply) => tell_reply(alloc, reply, told),
        None => tell(told, "ok"),
    }
}

/// Whether a reply is want of memory.
pub fn lacks_memory(reply: &Reply) -> bool {
    matches!(reply, Reply::Refused(Refusal::NoMemory))
}

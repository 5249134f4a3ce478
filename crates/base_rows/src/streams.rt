//! Rows on streams: written, read, damaged, and by readers and writers that fail.
//!
//! STREAM is `SOURCE TARGET RECORD ..`: two guids, 0 for no source, and records, of which `w.5.97` writes leaf 5, a byte 97 and zeros, and `f.1.3`
//! frees key 3 of level 1. BYTES are bytes as digits.
//!
//! | Row | Meaning |
//! |---|---|
//! | `stream.write STREAM` | the bytes that it is written as |
//! | `stream.again STREAM` | the same as the next row of these bytes |
//! | `stream.read BYTES` | `stream` where they are read as a stream that is written so, `bad` where they are none |
//! | `stream.damaged BYTES` | how many are bad of their beginnings, of the bytes that differ in one, and of those with one byte more |
//! | `stream.readers BYTES`, `stream.writers STREAM` | whether more than 76 calls of a reader or writer are there to fail, fewer than 200, and each is a device's fault |
//! | `stream.laws` | the laws of the spelling are called |
mod damage;
mod failing;
mod text;

use base::refusal::Refusal;
use std::alloc::Global;
use stream::spelling_laws;

/// The laws of the spelling, which are called once.
fn laws() -> &'static str {
    spelling_laws();
    "ok"
}

fn yes_or_no(is_so: bool) -> &'static str {
    if is_so { "yes" } else { "no" }
}

/// What a row tells in a word.
fn word_of(alloc: Global, call: &str, rest: &str) -> Result<&'static str, Refusal> {
    match call {
        "again" => text::again(alloc, rest),
        "read" => text::kind_of(alloc, text::bytes_of(alloc, rest)?.as_slice()),
        "readers" => Ok(yes_or_no(failing::do_readers_fail(alloc, rest)?)),
        "writers" => Ok(yes_or_no(failing::do_writers_fail(alloc, rest)?)),
        "laws" => Ok(laws()),
        _ => Ok("unknown"),
    }
}

/// What a row tells, by its words behind `stream.`.
pub fn told(alloc: Global, words: &str) -> Result<String, Refusal> {
    let (call, rest) = words.split_once(' ').unwrap_or((words, ""));
    match call {
        "write" => text::digits_of(alloc, rest),
        "damaged" => {
            let count = damage::count_of(alloc, rest)?;
            Ok(format!(in alloc; "{count}")?)
        }
        _ => Ok(String::from_str(alloc, word_of(alloc, call, rest)?)?),
    }
}

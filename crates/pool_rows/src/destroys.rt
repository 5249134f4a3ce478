//! Destroys of several snapshots. A script's line has one.
use base::refusal::Refusal;
use model::destroy_target::DestroyTarget;
use model::request::Request;
use model::snap_names::SnapNames;
use script::parse::snap_names;
use std::alloc::Global;
use telling::words::parted;

/// Whether the words begin with an option, and the words behind it.
fn leading_option<'a>(words: &'a str, option: &str) -> (bool, &'a str) {
    let (word, rest) = parted(words);
    if word == option {
        (true, rest)
    } else {
        (false, words)
    }
}

/// The names of a list, which may be empty.
fn names_of(alloc: Global, words: &str) -> Result<SnapNames, Refusal> {
    if words.is_empty() {
        Ok(SnapNames::from(Vec::new(alloc)))
    } else {
        snap_names(alloc, words.as_bytes())
    }
}

/// The destroy of `[-r] [-d] SNAP ..`.
pub fn destroy_of(alloc: Global, words: &str) -> Result<Request, Refusal> {
    let (recursive, rest) = leading_option(words, "-r");
    let (defer, rest) = leading_option(rest, "-d");
    let names = names_of(alloc, rest)?;
    Ok(Request::Destroy {
        target: DestroyTarget::Snapshots(names),
        recursive,
        defer,
    })
}

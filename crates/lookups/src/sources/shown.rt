//! The start of a send, found in a list of its sources.
ghost use Rattle.std.specs.Prelude.{◌≡◌};
ghost use Rattle.std.specs.List.{find};
ghost use Rattle.std.specs.Option.{option_copied};
ghost use Rattle.model.specs.requests.Send.{start_of, is_called};

use crate::sources::start::{Start, full_start};
use base::name::Target;
use model::source::{Source, SourceName};

/// The start of a send from the source of these that has the name `from`, or of a full send where `from` is none; none where no source has that
/// name (zfs-send(8), -i). It takes no memory. It costs the sources.
#[tactic(auto, unfolding(model::specs::requests::Send::start_of))]
pub fn start_in(sources: &[Source], from: Option<&Target>) -> Option<Start>
    ensures { result ≡ start_of sources.now (option_copied from.entry) }
{
    let Some(name) = from else {
        return Some(full_start());
    };
    let source = source_named(sources, name)?;
    Some(Start {
        guid: source.guid,
        group: source.group,
    })
}

// The first of these sources that has this name, or none.
fn source_named<'a>(sources: &'a [Source], name: &Target) -> Option<&'a Source>
    ensures { option_copied result ≡ find (λ s. is_called s.name name.now) sources.now }
{
    sources.iter().find(|source| is_of_name(source, name))
}

// Whether the source has this name.
fn is_of_name(source: &Source, name: &Target) -> bool
    ensures { result ≡ is_called source.now.name name.now }
{
    match (&source.name, name) {
        (SourceName::Snapshot(own), Target::Snapshot(name)) => own.same(name.member()),
        (SourceName::Bookmark(own), Target::Bookmark(name)) => own.same(name.member()),
        _ => false,
    }
}

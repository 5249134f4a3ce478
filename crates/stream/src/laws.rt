//! Laws of the byte format of streams, as the contract of a function without a body.
ghost use Rattle.stream.specs.Laws.{HasOneSpelling, HasOneReading, BeginsNoOther};

#[tactic(auto, using(crate::proofs::Streams::has_one_spelling, crate::proofs::Streams::has_one_reading, crate::proofs::Streams::begins_no_other))]
/// The contents of a stream have exactly one form as bytes. Different contents have different bytes. The bytes of no stream are the beginning of
/// those of another.
pub fn spelling_laws()
    ensures spelling { HasOneSpelling }
    ensures reading { HasOneReading }
    ensures beginning { BeginsNoOther }
{}

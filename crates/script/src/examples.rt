//! Examples of the requests of lines, and of the lines of replies.
ghost use Rattle.script.specs.Examples.{WorkedLines, HasOneSpelling};

/// Law: the requests of some example lines, and the lines of some example replies.
#[tactic(auto, using(crate::proofs::WorkedProofs::worked_lines))]
pub fn worked_lines()
    ensures { WorkedLines }
{}

/// Law: a number has one spelling.
#[tactic(auto, using(crate::proofs::NumberProofs::one_spelling))]
pub fn one_spelling()
    ensures { HasOneSpelling }
{}

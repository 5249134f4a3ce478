//! Laws of the definitions, as contracts of functions without a body.
ghost use Rattle.base.specs.Laws.{RewriteIsItsRule, KeysAreTold, BlocksAreTold};

/// At each key a rewritten map has the cell that the rule of the rewrite gives it.
#[tactic(auto, using(crate::proofs::LawProofs::rewrite_is_its_rule))]
pub fn rewrite_laws()
    ensures { RewriteIsItsRule }
{}

/// The orders of keys and of blocks are total, and in each only equal ones compare as equal.
#[tactic(auto, using(crate::proofs::LawProofs::keys_are_told, crate::proofs::LawProofs::blocks_are_told))]
pub fn order_laws()
    ensures keys { KeysAreTold }
    ensures blocks { BlocksAreTold }
{}

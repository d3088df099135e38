//! What has a value or a kind breaks no rule.
ghost use Rattle.rule_kinds.specs.CleanConstants.{ConstantsAreClean, TextsAreClean};

/// A constant with a value breaks no rule.
#[tactic(auto, using(crate::proofs::Clean::constant_clean))]
pub fn constants_are_clean()
    ensures { ConstantsAreClean }
{}

/// The text of a type with a kind breaks no rule.
#[tactic(auto, using(crate::proofs::Clean::text_clean))]
pub fn texts_are_clean()
    ensures { TextsAreClean }
{}

//! What being alike keeps.
ghost use Rattle.est_values.specs.AlikeLaws.{KindsAreAlikeToThemselves};

/// Each kind is alike to itself.
#[tactic(auto, using(crate::proofs::Itself::alike_to_itself))]
pub fn kinds_are_alike_to_themselves()
    ensures { KindsAreAlikeToThemselves }
{}

//! What yields something breaks no rule.
ghost use Rattle.rule_expressions.specs.CleanExpressions.{ExpressionsAreClean};

/// An expression that yields something breaks no rule.
#[tactic(auto, using(crate::proofs::Clean::expr_clean))]
pub fn expressions_are_clean()
    ensures { ExpressionsAreClean }
{}

//! What breaks no rule yields something.
ghost use Rattle.law_sentences.specs.FullExpressions.{ExpressionsYieldOrBreak};
ghost use Rattle.law_sentences.specs.FullExpressions.{VariablesAreFull, ExpressionsAreFull};

/// A name with selectors that break no rule stands for something.
#[tactic(auto, using(crate::proofs::FullExpressions::variable_full))]
pub fn variables_are_full()
    ensures { VariablesAreFull }
{}

/// An expression that breaks no rule yields something.
#[tactic(auto, using(crate::proofs::FullExpressions::expr_full))]
pub fn expressions_are_full()
    ensures { ExpressionsAreFull }
{}

/// An expression breaks no rule where it yields something, and nowhere else.
#[tactic(auto, using(crate::proofs::FullExpressions::yields_or_breaks))]
pub fn expressions_yield_or_break()
    ensures { ExpressionsYieldOrBreak }
{}

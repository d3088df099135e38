//! Laws of two calls. Each function does nothing; its clause is the law.
ghost use Rattle.law_calls.specs.Confirmations.{ExplainedIsConfirmed};

/// The report of a search that accepts or refuses a trace is an explanation that a replay confirms,
/// and so is one that tells where a block or a guard passes the limit of statements.
#[tactic(auto, using(crate::proofs::ConfirmedReports::explained_confirmed))]
pub fn explained_is_confirmed()
    ensures { ExplainedIsConfirmed }
{}

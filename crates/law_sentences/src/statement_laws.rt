//! What statements look up that break no rule is there.
ghost use Rattle.law_sentences.specs.FullProcedures.{ProcedureCallsAreFull};
ghost use Rattle.law_sentences.specs.FullStatements.{AssignmentsAreFull, LoopsAreFull};
ghost use Rattle.law_sentences.specs.FullStatements.{AccessesAreFull};
ghost use Rattle.law_sentences.specs.FullStatements.{SignalsAreFull, SendingsAreFull, InitsAreFull};
ghost use Rattle.law_sentences.specs.FullStatements.{ConnectsAreFull, AttachesAreFull};
ghost use Rattle.law_sentences.specs.FullStatements.{UntiedAreFull};
ghost use Rattle.law_sentences.specs.WholeStatements.{StatementsLackNothing};

/// An assignment that breaks no rule gives its target a value.
#[tactic(auto, using(crate::proofs::FullStatements::assigned_full))]
pub fn assignments_are_full()
    ensures { AssignmentsAreFull }
{}

/// The head of a `for` that breaks no rule has an ordinal control variable, and two values for it.
#[tactic(auto, using(crate::proofs::FullStatements::loops_full))]
pub fn loops_are_full()
    ensures { LoopsAreFull }
{}

/// A name with subscripts that breaks no rule is declared, and takes them.
#[tactic(auto, using(crate::proofs::FullStatements::accesses_full))]
pub fn accesses_are_full()
    ensures { AccessesAreFull }
{}

/// An interaction that breaks no rule passes a point of some channel, and is one of it; the point
/// takes its subscripts.
#[tactic(auto, using(crate::proofs::FullStatements::signals_full))]
pub fn signals_are_full()
    ensures { SignalsAreFull }
{}

/// An interaction that is sent and breaks no rule takes its arguments.
pub fn sendings_are_full()
    ensures { SendingsAreFull }
{}

/// An `init` that breaks no rule has the two headers, and its body takes its arguments.
#[tactic(auto, using(crate::proofs::FullStatements::inits_full))]
pub fn inits_are_full()
    ensures { InitsAreFull }
{}

/// The ends of a `connect` that breaks no rule take their subscripts, and have channels and roles.
#[tactic(auto, using(crate::proofs::FullLinks::connects_full))]
pub fn connects_are_full()
    ensures { ConnectsAreFull }
{}

/// And so have those of an `attach`.
#[tactic(auto, using(crate::proofs::FullLinks::attaches_full))]
pub fn attaches_are_full()
    ensures { AttachesAreFull }
{}

/// The end of a `disconnect` or a `detach` that breaks no rule is declared, and takes its
/// subscripts.
#[tactic(auto, using(crate::proofs::FullLinks::untied_full))]
pub fn untied_are_full()
    ensures { UntiedAreFull }
{}

/// A call of a procedure that breaks no rule gives each argument to a parameter.
#[tactic(auto, using(crate::proofs::FullProcedures::calls_full))]
pub fn procedure_calls_are_full()
    ensures { ProcedureCallsAreFull }
{}

/// A statement that breaks no rule lacks nothing.
#[tactic(auto, using(crate::proofs::WholeStatements::statement_whole))]
pub fn statements_lack_nothing()
    ensures { StatementsLackNothing }
{}

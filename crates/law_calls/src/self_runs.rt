//! Laws of self-runs. Each function does nothing; its clause is the law.
ghost use Rattle.law_calls.specs.SelfRunLaws.{ExplainedTracesAreNotRefused, SelfRunsAgree};
ghost use Rattle.law_calls.specs.SelfRunLaws.{SelfRunsAccept};

/// Where a run explains a trace, a verdict on it explains it too, or the budget is too small.
pub fn explained_traces_are_not_refused()
    ensures { ExplainedTracesAreNotRefused }
{}

/// A self-run explains the trace that it makes of a good specification, unless more firings stand to
/// be tried than its budget has, the text of the trace is too long for a trace file, or memory runs
/// out.
pub fn self_runs_agree()
    ensures { SelfRunsAgree }
{}

/// A self-run explains each trace that it makes whose text is not too long and which some run
/// explains within the budget, unless memory runs out.
pub fn self_runs_accept()
    ensures { SelfRunsAccept }
{}

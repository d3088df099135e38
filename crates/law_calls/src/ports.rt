//! Laws of calls that search along one trace for each port. Each function does nothing; its clause is the
//! law.
ghost use Rattle.law_calls.specs.PortsCalls.{PortsAreComplete, PortsAreConfirmed};
ghost use Rattle.law_calls.specs.PortsCalls.{PortsResultsAgree};

/// Within any budgets the results of two calls of `ports` do not speak against each other.
pub fn ports_results_agree()
    ensures { PortsResultsAgree }
{}

/// Of good texts whose start is ready `ports` tells a verdict, unless memory runs out; and where its
/// limits suffice, this is whether a run explains some merge.
pub fn ports_are_complete()
    ensures { PortsAreComplete }
{}

/// The report of `ports` is a trace, which is a merge, and an explanation; and a replay of the two
/// confirms what it tells.
pub fn ports_are_confirmed()
    ensures { PortsAreConfirmed }
{}

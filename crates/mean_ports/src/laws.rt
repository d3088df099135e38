//! Laws of merges and port runs. Each function does nothing; its clause is the law.
ghost use Rattle.mean_ports.specs.ListsOfEvents.{EventsTellTheirLists};
ghost use Rattle.mean_ports.specs.MergeLaws.{MergesAreAsLong, MergesAreAllowed};
ghost use Rattle.mean_ports.specs.PortRunLaws.{PortRunsAreRuns, RunsArePortRuns};
ghost use Rattle.mean_ports.specs.PortYields.{YieldsArePortYields, PortYieldsAreYields};
ghost use Rattle.mean_ports.specs.UsedUpRuns.{UsedUpRunsExplain, ExplainingRunsUseUp};
ghost use Rattle.mean_ports.specs.VerdictLaws.{VerdictsAgree};

/// All merges have as many events.
pub fn merges_are_as_long()
    ensures { MergesAreAsLong }
{}

/// A merge of lists within their limits is a trace within its limits.
pub fn merges_are_allowed()
    ensures { MergesAreAllowed }
{}

/// Events in one order tell the lists that they are a merge of.
pub fn events_tell_their_lists()
    ensures { EventsTellTheirLists }
{}

/// A port run is a run along some merge.
pub fn port_runs_are_runs()
    ensures { PortRunsAreRuns }
{}

/// A bounded run that follows a merge is a port run.
pub fn runs_are_port_runs()
    ensures { RunsArePortRuns }
{}

/// A port run that uses the lists up explains its merge.
pub fn used_up_runs_explain()
    ensures { UsedUpRunsExplain }
{}

/// A bounded run that explains a merge uses the lists up.
pub fn explaining_runs_use_up()
    ensures { ExplainingRunsUseUp }
{}

/// What a bounded run yields of a merge a port run yields.
pub fn yields_are_port_yields()
    ensures { YieldsArePortYields }
{}

/// What a port run yields it yields of some merge.
pub fn port_yields_are_yields()
    ensures { PortYieldsAreYields }
{}

/// Right verdicts do not speak against each other, and tell one number of events.
pub fn verdicts_agree()
    ensures { VerdictsAgree }
{}

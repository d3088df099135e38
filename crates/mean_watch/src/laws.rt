//! Laws of the runs behind events. Each function does nothing; its clause is the law.
ghost use Rattle.mean_watch.specs.WatchLaws.{TrialsGrow, FrontiersPart};

/// Trials behind some events stay trials behind more, and at the end they are those of the trace.
pub fn trials_grow()
    ensures { TrialsGrow }
{}

/// What one event more brings goes on from runs that explain the events before it.
pub fn frontiers_part()
    ensures { FrontiersPart }
{}

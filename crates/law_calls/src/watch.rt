//! Laws of calls that watch a trace as it comes. Each function does nothing; its clause is the law.
ghost use Rattle.law_calls.specs.WatchCalls.{WatchAgreesWithExplain, WatchIsComplete};

/// Of a good specification whose start is ready, and a good trace, `watch` ends with the status of
/// an answer, unless memory runs out; and where its limits suffice, this is whether a run explains
/// the trace.
pub fn watch_is_complete()
    ensures { WatchIsComplete }
{}

/// A watch of a trace and a search for a run along it, whose limits suffice, both accept it or both
/// refuse it.
pub fn watch_agrees_with_explain()
    ensures { WatchAgreesWithExplain }
{}

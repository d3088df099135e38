//! The events of traces that are made.
ghost use Rattle.law_calls.specs.MadeEventLaws.{MadeTracesAreFair, MadeEventsAreAllowed};
ghost use Rattle.law_calls.specs.MadeEventLaws.{MadeTracesAreAllowed};

/// What arrives in a made trace of a sound specification may arrive there, what leaves in it is
/// what its port sends, and where its values may be given to the parameters of its signal, each
/// event of it may stand in a trace.
pub fn made_events_are_allowed()
    ensures fair { MadeTracesAreFair }
    ensures events { MadeEventsAreAllowed }
    ensures traces { MadeTracesAreAllowed }
{}

//! What leaves in each step of a run of a good specification.
ghost use Rattle.law_values.specs.DepartureLaws.{StartsSend, FiringsSend, RunsSend};
ghost use Rattle.law_values.specs.DepartureLaws.{ExplainedTracesSend, SentencesAreSound};
ghost use Rattle.law_values.specs.DepartureLaws.{SentencesSend};
ghost use Rattle.law_values.specs.DepartureLaws.{WhatIsTakenFits};
ghost use Rattle.law_values.specs.DepartureLaws.{FittingDeparturesAreAllowed};
ghost use Rattle.law_values.specs.DepartureLaws.{GivenDeparturesAreAllowed};

/// What leaves in the start and in each firing is a signal that its port sends, and the parameters
/// of that take its values; attachments join interaction points of one channel and one role.
pub fn steps_send()
    ensures starts { StartsSend }
    ensures firings { FiringsSend }
{}

/// So it is for all events of a run, and so of each run that explains a trace.
pub fn runs_send()
    ensures events { RunsSend }
    ensures traces { ExplainedTracesSend }
{}

/// Each sentence that breaks no rule is sound; so it is of all events of its runs.
pub fn sentences_send()
    ensures sound { SentencesAreSound }
    ensures events { SentencesSend }
{}

/// What leaves so may stand in a trace where its values fit the kinds of its parameters; what is
/// taken of what may be given to a parameter does.
pub fn departures_are_allowed()
    ensures fitting { FittingDeparturesAreAllowed }
    ensures taken { WhatIsTakenFits }
    ensures given { GivenDeparturesAreAllowed }
{}

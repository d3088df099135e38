//! Laws of the traces that are made of sentences. Each function does nothing; its clauses are the
//! laws.
ghost use Rattle.law_calls.specs.SoundTraceLaws.{MadeTracesFit, MadeTracesAreAllowed};
ghost use Rattle.law_calls.specs.SoundTraceLaws.{MadeTracesOfSentencesAreAllowed};
ghost use Rattle.law_calls.specs.SoundTraceLaws.{MadeTracesAreTexts, MadeTracesAreRead};

/// A made trace of a typed specification, so of a sentence that breaks no rule, is allowed where it
/// is not too long.
pub fn made_traces_are_allowed()
    ensures events { MadeTracesFit }
    ensures typed { MadeTracesAreAllowed }
    ensures sentences { MadeTracesOfSentencesAreAllowed }
{}

/// So the text that is written of a made trace of a sentence is a text of it, and what is read of
/// this text are its events, or memory runs out.
pub fn made_traces_are_read()
    ensures texts { MadeTracesAreTexts }
    ensures answers { MadeTracesAreRead }
{}

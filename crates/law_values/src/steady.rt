//! The outlines of sentences, and what follows of their runs.
ghost use Rattle.law_values.specs.SteadyLaws.{SentencesAreSteady, SentencesAreTyped};
ghost use Rattle.law_values.specs.SteadyLaws.{RunsOfSentencesFit, TracesOfSentencesAreAllowed};

/// Each parameter of a sentence is a variable, and the enumeration of one place has as many
/// constants in each kind. So a sentence that breaks no rule is typed.
pub fn sentences_are_typed()
    ensures steady { SentencesAreSteady }
    ensures typed { SentencesAreTyped }
{}

/// So in each run of a sentence that breaks no rule values fit what holds them, and the events of a
/// run that explains a trace are allowed where what comes from outside is.
pub fn runs_of_sentences_fit()
    ensures situations { RunsOfSentencesFit }
    ensures traces { TracesOfSentencesAreAllowed }
{}

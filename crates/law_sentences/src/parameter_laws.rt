//! The parameters of the declarations of a sentence.
ghost use Rattle.law_sentences.specs.ParameterOrder.{ParametersOfSentences};

/// The parameters of the declarations of a sentence stand first in their regions, and are of sorts
/// that have kinds.
pub fn parameters_stand_first()
    ensures { ParametersOfSentences }
{}

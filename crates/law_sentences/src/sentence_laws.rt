//! What holds of each sentence that breaks no rule.
ghost use Rattle.law_sentences.specs.WholeSentences.{SentencesAreWhole};

/// Where a sentence breaks no rule, each of its declarations has all that it should have, and its
/// statements and clauses lack nothing of what they look up.
pub fn sentences_are_whole()
    ensures { SentencesAreWhole }
{}

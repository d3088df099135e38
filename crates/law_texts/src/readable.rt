//! Laws of sentences and of the traces that are written for them. Each function does nothing; its
//! clauses are the laws.

ghost use Rattle.law_texts.specs.ReadableLaws.{PortsOfSentencesAreReadable};
ghost use Rattle.law_texts.specs.ReadableLaws.{TracesOfSentencesAreTexts};
ghost use Rattle.law_texts.specs.ReadableLaws.{TracesOfSentencesAreRead};
ghost use Rattle.law_texts.specs.WellFormedLaws.{DeclaredKindsAreWellFormed};
ghost use Rattle.law_texts.specs.WellFormedLaws.{DeclaredSubscriptsAreWellFormed};
ghost use Rattle.law_texts.specs.WellFormedLaws.{PortKindsAreWellFormed};

/// The ports of each sentence are readable: names of ports, of signals and of the constants of
/// enumerations are spelled as the lexer reads them, subscripts are ordinals of their kinds, and
/// the kinds of the ordinals that parameters are made of are well formed.
pub fn ports_of_sentences_are_readable()
    ensures { PortsOfSentencesAreReadable }
{}

/// So the text that is written of an allowed trace of a sentence is a text of it, and what is read
/// of this text is this trace, or memory runs out.
pub fn traces_of_sentences_are_read()
    ensures texts { TracesOfSentencesAreTexts }
    ensures answers { TracesOfSentencesAreRead }
{}

/// The kinds of each sentence are well formed: the kind of what is declared at any place, those of
/// the subscripts of interaction points and module variables, which are ordinal, and those of its
/// ports.
pub fn kinds_of_sentences_are_well_formed()
    ensures declared { DeclaredKindsAreWellFormed }
    ensures subscripts { DeclaredSubscriptsAreWellFormed }
    ensures ports { PortKindsAreWellFormed }
{}

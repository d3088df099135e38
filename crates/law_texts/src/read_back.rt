//! Laws of the texts that are written of traces. Each function does nothing; its clauses are the
//! laws.

ghost use Rattle.law_texts.specs.ReadBackLaws.{WrittenTracesAreTexts, WrittenTracesAreRead};

/// The text that is written of an allowed trace is a text of it, and what is read of this text is
/// this trace, or memory runs out, where names are spelled as the lexer reads them.
pub fn written_traces_are_read()
    ensures texts { WrittenTracesAreTexts }
    ensures answers { WrittenTracesAreRead }
{}

//! Laws of calls that print specifications. Each function does nothing; its clauses are the laws.
ghost use Rattle.law_calls.specs.PrintedCalls.{OneTextIsWritten, PrintedTextsAreWritten};
ghost use Rattle.law_calls.specs.PrintedCalls.{PrintingIsStable, WrittenTextsAreRead};

/// A call that prints a good specification writes its printed text. So of specifications that are
/// the same but for their places it writes one text, and of that text the same bytes again.
pub fn printing_is_stable()
    ensures printed { PrintedTextsAreWritten }
    ensures one { OneTextIsWritten }
    ensures stable { PrintingIsStable }
{}

/// What such a call has written is read as the same specification but for its places.
pub fn written_texts_are_read()
    ensures { WrittenTextsAreRead }
{}

//! Laws of printed texts. The functions do nothing; their clauses are the laws.

ghost use Rattle.law_print.specs.PrintLaws.{OnePrintedText, PrintedTextsAreRead};
ghost use Rattle.law_print.specs.PrintLaws.{PrintedTextsAreSentences, PrintedTextsAreStable};

/// The tokens of a printed text are a sentence.
pub fn printed_texts_are_sentences()
    ensures { PrintedTextsAreSentences }
{}

/// A printed text is read as the same specification but for its places.
pub fn printed_texts_are_read()
    ensures { PrintedTextsAreRead }
{}

/// Specifications that are the same but for their places have one printed text.
pub fn one_printed_text()
    ensures { OnePrintedText }
{}

/// What is read of a printed text is printed as that text.
pub fn printed_texts_are_stable()
    ensures { PrintedTextsAreStable }
{}

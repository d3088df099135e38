//! Laws of the texts of explanations. Each function does nothing; its clauses are the laws.

ghost use Rattle.est_explanation.specs.ExplanationLaws.{CanonicalIsText, CommentsAreSkipped};
ghost use Rattle.est_explanation.specs.ExplanationLaws.{CommentLinesAreComments};
ghost use Rattle.est_explanation.specs.ExplanationLaws.{TextsAreReadBack};

/// The canonical text of an explanation whose numbers a text may have is a text of it and of no
/// other, and what is read of such a text is the explanation, or memory runs out.
pub fn what_is_written_is_read()
    ensures texts { CanonicalIsText }
    ensures answers { TextsAreReadBack }
{}

/// Blanks and comments in front of a canonical text change nothing, and lines of comments are
/// such.
pub fn comments_are_skipped()
    ensures skipped { CommentsAreSkipped }
    ensures lines { CommentLinesAreComments }
{}

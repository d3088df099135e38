//! What holds of texts: which specification they are, how large, and what it does not depend on.
ghost use Rattle.est_check.specs.Layout.{LayoutMeansNothing, RefusalsStay};
ghost use Rattle.est_check.specs.Sizes.{SentencesAreSmall};
ghost use Rattle.est_check.specs.Unique.{SpecificationsAreUnique};

/// The tokens of a text are those of at most one specification. So what is said of the
/// specification that a reader answers is said of the text, since no other has the same tree.
pub fn specifications_are_unique()
    ensures { SpecificationsAreUnique }
{}

/// A sentence of at most 1,048,576 tokens declares no more names, and has no more transitions.
pub fn sentences_are_small()
    ensures { SentencesAreSmall }
{}

/// What is a right answer for a text is one for each text of the same tokens, whatever their
/// layout, comments and letter case, each place told by the number of its token. And a token that
/// the grammar refuses is refused whatever stands after it.
pub fn layout_means_nothing()
    ensures layout { LayoutMeansNothing }
    ensures rest { RefusalsStay }
{}

//! Laws of token lists and of the tables, for proofs that build on them.

ghost use Rattle.std.specs.Prelude.{IsTrue};
ghost use Rattle.est_lexer.specs.TokenLaws.{TokenListIsUnique, are_distinct};
ghost use Rattle.est_lexer.specs.TokenLaws.{are_lower_names, are_apart};
ghost use Rattle.est_lexer.specs.Words.{words, symbols};

/// A text has one token list.
pub fn token_list_is_unique()
    ensures { TokenListIsUnique }
{}

/// The words have one kind each, and are kept in lower case.
#[tactic(auto, unfolding(crate::specs::Words::words))]
pub fn words_are_distinct()
    ensures distinct { IsTrue (are_distinct words) }
    ensures lower { IsTrue (are_lower_names words) }
{}

/// The symbols have one kind each, and none is a token of another sort.
#[tactic(auto, unfolding(crate::specs::Words::symbols))]
pub fn symbols_are_distinct()
    ensures distinct { IsTrue (are_distinct symbols) }
    ensures apart { IsTrue (are_apart symbols) }
{}

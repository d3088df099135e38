//! The reader of specifications.

ghost use Rattle.std.specs.Prelude.{◌≤◌, length};
ghost use Rattle.est_lexer.specs.Offsets.{text_of, tokens_of};
ghost use Rattle.est_lexer.specs.TokenList.{IsTokenList};
ghost use Rattle.est_check.specs.Small.{most_parts};
ghost use Rattle.est_check.specs.SpecificationText.{ReadsSpecification};

use crate::specification_error::SpecificationError;
use crate::{Checked, check};
use est_grammar::parse;
use est_lexer::tokens::Tokens;
use std::alloc::Global;

/// The specification that the tokens of a text are, which breaks no rule, or why they are none.
pub fn read_specification(alloc: Global, tokens: &Tokens) -> Result<Checked, SpecificationError>
    requires listed { IsTokenList (text_of tokens.now) (tokens_of tokens.now) }
    requires few { length (tokens_of tokens.now) ≤ most_parts }
    ensures { ReadsSpecification (text_of tokens.now) (tokens_of tokens.now) result }
{
    let tree = parse(alloc, tokens)?;
    Ok(check(alloc, tree)?)
}

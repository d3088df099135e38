//! The parser of a whole specification.

ghost use Rattle.std.specs.Prelude.{◌≡◌, IfOk, IfErr, MatchResult};
ghost use Rattle.est_lexer.specs.Offsets.{text_of, tokens_of};
ghost use Rattle.text_reader.specs.Refusals.{wrong_at};
ghost use Rattle.text_reader.specs.Whole.{cause_of};
ghost use Rattle.est_grammar.specs.Answer.{HasOneTree, IsRefusal, Says};
ghost use Rattle.est_grammar.specs.inside.OutOfMemory.{IsMemory};

use crate::error::ParseError;
use crate::specification::specification;
use est_lexer::kind::TokenKind;
use est_lexer::tokens::Tokens;
use est_syntax::specification::Spec;
use est_syntax::tree::SyntaxTree;
use std::alloc::Global;
use text_reader::{Reader, Refusal};

// So many levels may be open.
const LEVELS: u32 = 32;

/// The specification that the tokens are, or why they are none.
pub fn parse(alloc: Global, tokens: &Tokens) -> Result<SyntaxTree, ParseError>
    ensures tree { IfOk result (HasOneTree (text_of tokens.now) (tokens_of tokens.now)) }
    ensures refused { IfErr result (IsRefusal (text_of tokens.now) (tokens_of tokens.now)) }
{
    let mut reader = Reader::new(alloc, tokens, LEVELS);
    let spec = specification(&mut reader);
    match reader.finish(spec) {
        Ok(spec) => owned(alloc, spec),
        Err(refusal) => Err(refused(tokens, refusal)),
    }
}

// The specification with an owner.
fn owned(alloc: Global, spec: Spec) -> Result<SyntaxTree, ParseError>
    ensures { MatchResult result (λ tree. tree ≡ spec) (λ error. IsMemory error) }
{
    match SyntaxTree::new(alloc, spec) {
        Ok(tree) => Ok(tree),
        Err(error) => Err(ParseError::Memory(error)),
    }
}

// Why the list is refused, by what its reader says.
fn refused(tokens: &Tokens, refusal: Refusal) -> ParseError
    ensures { Says (text_of tokens.now) (tokens_of tokens.now) (cause_of refusal)
        → IsRefusal (text_of tokens.now) (tokens_of tokens.now) result }
{
    match refusal {
        Refusal::BadToken { place } => bad_token(tokens, place),
        Refusal::TooDeep { place } => ParseError::TooDeep { place },
        Refusal::Memory(error) => ParseError::Memory(error),
    }
}

// Why the token of a place, or the end of the list, is refused where the list goes wrong there.
fn bad_token(tokens: &Tokens, place: u32) -> ParseError
    ensures { Says (text_of tokens.now) (tokens_of tokens.now) (wrong_at place)
        → IsRefusal (text_of tokens.now) (tokens_of tokens.now) result }
{
    match tokens.token_at(place) {
        None => ParseError::BadToken { place },
        Some(token) => match token.kind {
            TokenKind::LeftOut(_) => ParseError::LeftOut { place },
            _ => ParseError::BadToken { place },
        },
    }
}

//! The tokens of a text.

ghost use Rattle.std.specs.Prelude.{◌≡◌, ◌≤◌, length, IfOk};
ghost use Rattle.est_lexer.specs.Offsets.{text_of, tokens_of};
ghost use Rattle.est_lexer.specs.TokenList.{IsTokenList};

use crate::between::begin_from;
use crate::kind::Token;
use crate::scan::token_from;
use crate::tokens::{MOST_BYTES, Tokens};
use std::alloc::{AllocError, Global};

/// The token list of a text.
pub fn lex<'t>(alloc: Global, text: &'t [u8]) -> Result<Tokens<'t>, AllocError>
    requires { length text.now ≤ MOST_BYTES }
    ensures same_text { IfOk result (λ tokens. text_of tokens ≡ text.now) }
    ensures tokens { IfOk result (λ tokens. IsTokenList text.now (tokens_of tokens)) }
{
    let list = token_list(alloc, text)?;
    Ok(Tokens { text, list })
}

// The tokens of a text, each the longest at its start, up to the first bad one.
fn token_list(alloc: Global, text: &[u8]) -> Result<Vec<Token>, AllocError>
    requires { length text.now ≤ MOST_BYTES }
    ensures { IfOk result (λ tokens. IsTokenList text.now tokens.items) }
{
    let mut tokens = Vec::new(alloc);
    let mut from = 0;
    loop {
        let start = begin_from(text, from);
        if start == text.len() {
            return Ok(tokens);
        }
        match token_from(text, start) {
            Ok(token) => {
                tokens.push(token)?;
                from = token.start as usize + token.length as usize;
            }
            Err(bad) => {
                tokens.push(bad)?;
                return Ok(tokens);
            }
        }
    }
}

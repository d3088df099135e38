//! What could stand at a place.
ghost use Rattle.std.specs.Prelude.{◌≡◌, IfOk, IsTrue};
ghost use Rattle.std.specs.List.{All};
ghost use Rattle.est_lexer.specs.Offsets.{text_of, tokens_of};
ghost use Rattle.est_grammar.specs.Answer.{IsRefusal};
ghost use Rattle.advice_tokens.specs.Beginnings.{AreBeginning, IsBeginning, CouldFollow};

use crate::candidate::{Candidate, GOING_ON, SPELLINGS};
use advice_lines::similar::is_similar;
use est_grammar::{ParseError, parse};
use est_lexer::lex::lex;
use est_lexer::tokens::{MOST_BYTES, Tokens};
use std::alloc::{AllocError, Global};

/// The longest text after which tokens are tried.
pub const MOST_TRIED: usize = 131_072;

/// So many tokens are told at most.
pub const MOST_TOLD: usize = 8;

/// What could follow this beginning of a text, until one more than are told were found: names,
/// numbers and characters, then what is similar to the bytes that follow it, then what closes
/// something or goes on, then the others. Of a long text nothing is said.
pub fn wanted(alloc: Global, before: &[u8], refused: &[u8]) -> Result<Vec<Candidate>, AllocError>
    ensures { IfOk result (λ found. All (CouldFollow before.now) found.items) }
{
    let mut found = Vec::new(alloc);
    if before.len() > MOST_TRIED {
        return Ok(found);
    }
    try_one(alloc, before, Candidate::Name, &mut found)?;
    try_one(alloc, before, Candidate::Number, &mut found)?;
    try_one(alloc, before, Candidate::Character, &mut found)?;
    try_spellings(alloc, before, &GOING_ON, refused, true, &mut found)?;
    try_spellings(alloc, before, &SPELLINGS, refused, true, &mut found)?;
    try_spellings(alloc, before, &GOING_ON, refused, false, &mut found)?;
    try_spellings(alloc, before, &SPELLINGS, refused, false, &mut found)?;
    Ok(found)
}

// Tries symbols and words: those that are similar to some bytes, or the others.
fn try_spellings(
    alloc: Global,
    before: &[u8],
    spellings: &[&'static str],
    refused: &[u8],
    similar: bool,
    found: &mut Vec<Candidate>,
) -> Result<(), AllocError>
    requires { All (CouldFollow before.now) found.old.items }
    ensures { All (CouldFollow before.now) found.new.items }
{
    for spelling in spellings.iter() {
        if found.len() > MOST_TOLD {
            return Ok(());
        }
        if is_similar(refused, spelling.as_bytes()) == similar {
            try_one(alloc, before, Candidate::Spelled(spelling), found)?;
        }
    }
    Ok(())
}

// Adds a token that could follow a text.
fn try_one(
    alloc: Global,
    before: &[u8],
    candidate: Candidate,
    found: &mut Vec<Candidate>,
) -> Result<(), AllocError>
    requires { All (CouldFollow before.now) found.old.items }
    ensures { All (CouldFollow before.now) found.new.items }
{
    if could_follow(alloc, before, candidate)? {
        found.push(candidate)?;
    }
    Ok(())
}

/// Whether a token could follow a text.
pub fn could_follow(alloc: Global, before: &[u8], candidate: Candidate) -> Result<bool, AllocError>
    ensures { IfOk result (λ could. IsTrue could → CouldFollow before.now candidate) }
{
    let mut text = Vec::from_slice(alloc, before)?;
    text.push(b' ')?;
    text.extend_from_slice(candidate.spelling().as_bytes())?;
    is_beginning(alloc, &text)
}

// A text of three parts.
fn joined(
    alloc: Global,
    before: &[u8],
    missing: &[u8],
    next: &[u8],
) -> Result<Vec<u8>, AllocError> {
    let mut text = Vec::from_slice(alloc, before)?;
    text.extend_from_slice(missing)?;
    text.extend_from_slice(next)?;
    Ok(text)
}

/// Whether these bytes could follow a text, after others that are missing between.
pub(crate) fn could_go_on(
    alloc: Global,
    before: &[u8],
    missing: &[u8],
    next: &[u8],
) -> Result<bool, AllocError> {
    is_beginning(alloc, &joined(alloc, before, missing, next)?)
}

/// How many tokens are left from the first bad one on in the text of these three parts: none where
/// it is a specification, or the beginning of one. A long text is not looked at.
pub(crate) fn count_left(
    alloc: Global,
    before: &[u8],
    missing: &[u8],
    next: &[u8],
) -> Result<u32, AllocError> {
    let text = joined(alloc, before, missing, next)?;
    if text.len() > MOST_BYTES {
        return Ok(u32::MAX);
    }
    let tokens = lex(alloc, &text)?;
    match parse(alloc, &tokens) {
        Ok(tree) => {
            drop(tree);
            Ok(0)
        }
        Err(error) => left_from(&tokens, error),
    }
}

// Whether a text is the beginning of a specification. A long one is not looked at.
fn is_beginning(alloc: Global, text: &[u8]) -> Result<bool, AllocError>
    ensures { IfOk result (λ is. IsTrue is → IsBeginning text.now) }
{
    if text.len() > MOST_BYTES {
        return Ok(false);
    }
    let tokens = lex(alloc, text)?;
    match parse(alloc, &tokens) {
        Ok(tree) => {
            drop(tree);
            Ok(true)
        }
        Err(error) => is_early(&tokens, error),
    }
}

// Whether tokens are refused for the lack of more alone.
fn is_early(tokens: &Tokens, error: ParseError) -> Result<bool, AllocError>
    ensures { IfOk result (λ early. IsTrue early
        → IsRefusal (text_of tokens.now) (tokens_of tokens.now) error
        → AreBeginning (text_of tokens.now) (tokens_of tokens.now)) }
{
    match error {
        ParseError::BadToken { place } => Ok(place >= tokens.count()),
        ParseError::LeftOut { place: _ } => Ok(false),
        ParseError::TooDeep { place: _ } => Ok(false),
        ParseError::Memory(error) => Err(error),
    }
}

// How many tokens are left from the refused one on.
fn left_from(tokens: &Tokens, error: ParseError) -> Result<u32, AllocError> {
    let place = match error {
        ParseError::BadToken { place } => place,
        ParseError::LeftOut { place } => place,
        ParseError::TooDeep { place } => place,
        ParseError::Memory(error) => return Err(error),
    };
    Ok(tokens.count().saturating_sub(place))
}

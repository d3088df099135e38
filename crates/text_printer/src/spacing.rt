//! What stands between tokens.

ghost use Rattle.std.specs.Prelude.{◌≡◌, IfOk};
ghost use Rattle.text_printer.specs.Spacing as spacing;

use est_lexer::kind::{Symbol, TokenKind};
use std::alloc::AllocError;

/// What stands before a token of this kind: nothing where it is the first.
pub fn gap_before(last: Option<TokenKind>, nested: u32, kind: TokenKind) -> &'static [u8]
    ensures { result.now ≡ spacing.gap_before last nested kind }
{
    match last {
        None => b"",
        Some(last) => between_them(last, nested, kind),
    }
}

// What stands between two tokens, where so many round brackets are open after the first.
fn between_them(last: TokenKind, nested: u32, kind: TokenKind) -> &'static [u8]
    ensures { result.now ≡ spacing.between_them nested last kind }
{
    if last == TokenKind::Symbol(Symbol::Semicolon) && nested == 0 {
        return b"\n";
    }
    if joins_left(kind) || joins_right(last) || joins_name(last, kind) {
        b""
    } else {
        b" "
    }
}

// Whether nothing stands before a token.
fn joins_left(kind: TokenKind) -> bool
    ensures { result ≡ spacing.joins_left kind }
{
    kind == TokenKind::Symbol(Symbol::Semicolon)
        || kind == TokenKind::Symbol(Symbol::Comma)
        || kind == TokenKind::Symbol(Symbol::RightParenthesis)
        || kind == TokenKind::Symbol(Symbol::RightBracket)
        || kind == TokenKind::Symbol(Symbol::Period)
        || kind == TokenKind::Symbol(Symbol::Colon)
        || kind == TokenKind::Symbol(Symbol::DoublePeriod)
}

// Whether nothing stands after a token.
fn joins_right(kind: TokenKind) -> bool
    ensures { result ≡ spacing.joins_right kind }
{
    kind == TokenKind::Symbol(Symbol::LeftParenthesis)
        || kind == TokenKind::Symbol(Symbol::LeftBracket)
        || kind == TokenKind::Symbol(Symbol::Period)
        || kind == TokenKind::Symbol(Symbol::DoublePeriod)
}

// Whether nothing stands between two tokens, since they are a name and `(` or `[`.
fn joins_name(last: TokenKind, kind: TokenKind) -> bool
    ensures { result ≡ spacing.joins_name last kind }
{
    last == TokenKind::Identifier
        && (kind == TokenKind::Symbol(Symbol::LeftParenthesis)
            || kind == TokenKind::Symbol(Symbol::LeftBracket))
}

/// How many round brackets are open after a token. Errs where they are too many to be counted.
pub fn open_after(nested: u32, kind: TokenKind) -> Result<u32, AllocError>
    ensures { IfOk result (λ many. many ≡ spacing.open_after nested kind) }
{
    if kind == TokenKind::Symbol(Symbol::LeftParenthesis) {
        return nested.checked_add(1).ok_or(AllocError);
    }
    if kind == TokenKind::Symbol(Symbol::RightParenthesis) {
        return Ok(nested.saturating_sub(1));
    }
    Ok(nested)
}

/// A number of bytes as the text counts them. Errs where it is too large.
pub fn count_of(bytes: usize) -> Result<u32, AllocError>
    ensures { IfOk result (λ count. count ≡ bytes) }
{
    u32::try_from(bytes).map_err(|_| AllocError)
}

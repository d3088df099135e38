//! The longest token at a place, or the bad one where none begins.

ghost use Rattle.std.specs.Prelude.{◌≡◌, ◌≤◌, ◌<◌, ◌+◌, ◌≢◌, ◌==◌, ◌&&◌, true};
ghost use Rattle.std.specs.Prelude.{false, length, drop, slice_index, MatchResult};
ghost use Rattle.std.specs.Char.{is_ascii_alphabetic, is_ascii_digit};
ghost use Rattle.std.specs.List.{prefix_len};
ghost use Rattle.est_lexer.specs.Between.{opening};
ghost use Rattle.est_lexer.specs.inside.Scanning.{IsBegin, IsTokenAt, IsBadAt};
ghost use Rattle.est_lexer.specs.Spellings.{is_identifier_part, is_plain_character};
ghost use Rattle.est_lexer.specs.declared.kind.TokenKind.TheVariants.{Bad};

use crate::between::{byte_at, opening_at};
use crate::kind::{Token, TokenKind};
use crate::table::{symbol_before, word_or_identifier};
use crate::tokens::MOST_BYTES;

const QUOTE: u8 = b'\'';

// The most digits of a number.
const MOST_DIGITS: usize = 18;

/// The longest token at a place where no blank and no comment with an end begins, or the bad token
/// that stands there.
pub(crate) fn token_from(text: &[u8], place: usize) -> Result<Token, Token>
    requires short { length text.now ≤ MOST_BYTES }
    requires inside { place < length text.now }
    requires begin { IsBegin text.now place }
    ensures { MatchResult result (IsTokenAt text.now place) (IsBadAt text.now place) }
{
    let first = text[place];
    if first.is_ascii_alphabetic() {
        Ok(name(text, place))
    } else if first.is_ascii_digit() {
        number(text, place)
    } else if first == QUOTE {
        character(text, place)
    } else if opening_at(text, place) > 0 {
        Err(bad_token(place, text.len() - place))
    } else {
        symbol(text, place)
    }
}

// The bad token of a span.
fn bad_token(start: usize, length: usize) -> Token
    requires start_fits { start ≤ MOST_BYTES }
    requires length_fits { length ≤ MOST_BYTES }
    ensures { result ≡ record { kind = Bad; start = start; length = length } }
{
    token(TokenKind::Bad, start, length)
}

// The token of a span.
fn token(kind: TokenKind, start: usize, length: usize) -> Token
    requires start_fits { start ≤ MOST_BYTES }
    requires length_fits { length ≤ MOST_BYTES }
    ensures { result ≡ record { kind = kind; start = start; length = length } }
{
    Token {
        kind,
        start: start as u32,
        length: length as u32,
    }
}

// The identifier or the word at a place.
fn name(text: &[u8], place: usize) -> Token
    requires short { length text.now ≤ MOST_BYTES }
    requires inside { place < length text.now }
    requires no_comment { opening text.now place ≡ 0 }
    requires letter { is_ascii_alphabetic (slice_index text.now place) ≡ true }
    ensures { IsTokenAt text.now place result }
{
    let end = name_end(text, place + 1);
    token(word_or_identifier(&text[place..end]), place, end - place)
}

// The end of the letters, digits and `_` in a row from a place on.
fn name_end(text: &[u8], from: usize) -> usize
    requires { from ≤ length text.now }
    ensures value { result ≡ from + prefix_len is_identifier_part (drop from text.now) }
    ensures inside { result ≤ length text.now }
{
    let mut end = from;
    while end < text.len() && is_name_part(text[end]) {
        end += 1;
    }
    end
}

// Whether the byte may follow the first letter of an identifier.
fn is_name_part(byte: u8) -> bool
    ensures { result ≡ is_identifier_part byte }
{
    byte.is_ascii_alphanumeric() || byte == b'_'
}

// The number at a place, or the bad token of 19 or more digits.
fn number(text: &[u8], place: usize) -> Result<Token, Token>
    requires short { length text.now ≤ MOST_BYTES }
    requires inside { place < length text.now }
    requires no_comment { opening text.now place ≡ 0 }
    requires digit { is_ascii_digit (slice_index text.now place) ≡ true }
    ensures { MatchResult result (IsTokenAt text.now place) (IsBadAt text.now place) }
{
    let size = digits_end(text, place) - place;
    if size > MOST_DIGITS {
        Err(bad_token(place, size))
    } else {
        Ok(token(TokenKind::Number, place, size))
    }
}

// The end of the digits in a row from a place on.
fn digits_end(text: &[u8], from: usize) -> usize
    requires { from ≤ length text.now }
    ensures value { result ≡ from + prefix_len is_ascii_digit (drop from text.now) }
    ensures inside { result ≤ length text.now }
{
    let mut end = from;
    while end < text.len() && text[end].is_ascii_digit() {
        end += 1;
    }
    end
}

// The character constant at a quote, or the quote as a bad token.
fn character(text: &[u8], place: usize) -> Result<Token, Token>
    requires short { length text.now ≤ MOST_BYTES }
    requires inside { place < length text.now }
    requires begin { IsBegin text.now place }
    requires no_comment { opening text.now place ≡ 0 }
    requires quote { slice_index text.now place ≡ QUOTE }
    ensures { MatchResult result (IsTokenAt text.now place) (IsBadAt text.now place) }
{
    let second = byte_at(text, place + 1);
    let third = byte_at(text, place + 2);
    let fourth = byte_at(text, place + 3);
    if is_plain_constant(second, third) {
        Ok(token(TokenKind::Character, place, 3))
    } else if is_quote_constant(second, third, fourth) {
        Ok(token(TokenKind::Character, place, 4))
    } else {
        Err(bad_token(place, 1))
    }
}

// Whether these bytes after a quote make a character constant of a byte other than the quote.
fn is_plain_constant(second: u8, third: u8) -> bool
    ensures { result ≡ is_plain_character second && (third == QUOTE) }
{
    second >= 32 && second <= 126 && second != QUOTE && third == QUOTE
}

// Whether these bytes after a quote make the character constant of the quote.
fn is_quote_constant(second: u8, third: u8, fourth: u8) -> bool
    ensures { result ≡ (second == QUOTE) && (third == QUOTE) && (fourth == QUOTE) }
{
    second == QUOTE && third == QUOTE && fourth == QUOTE
}

// The symbol at a place, or the byte there as a bad token.
fn symbol(text: &[u8], place: usize) -> Result<Token, Token>
    requires short { length text.now ≤ MOST_BYTES }
    requires inside { place < length text.now }
    requires begin { IsBegin text.now place }
    requires no_comment { opening text.now place ≡ 0 }
    requires no_letter { is_ascii_alphabetic (slice_index text.now place) ≡ false }
    requires no_digit { is_ascii_digit (slice_index text.now place) ≡ false }
    requires no_quote { slice_index text.now place ≢ QUOTE }
    ensures { MatchResult result (IsTokenAt text.now place) (IsBadAt text.now place) }
{
    match symbol_before(&text[place..]) {
        Some((size, kind)) => Ok(token(kind, place, size)),
        None => Err(bad_token(place, 1)),
    }
}

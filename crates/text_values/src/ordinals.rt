//! Ordinals.
ghost use Rattle.std.specs.Prelude.{◌≡◌, ◌≤◌, ◌<ℤ◌, pos, neg_ℤ, false};
ghost use Rattle.text_reader.specs.Grammar.{both, leaf, nothing};
ghost use Rattle.est_syntax.specs.declared.kind.Kind.{out-Kind};
ghost use Rattle.text_reader.specs.Tests.{value};
ghost use Rattle.text_reader.specs.Moving.{Steps};
ghost use Rattle.text_values.specs.TraceGrammar as grammar;
ghost use Rattle.text_values.specs.TraceGrammar.{host_by, to_natural};
ghost use Rattle.text_values.specs.ValueReading.{Reads};
ghost use Rattle.text_values.specs.ValueShapes.{ShowsInteger, ShowsCharacter, ShowsOrdinal};
ghost use Rattle.text_values.specs.inside.Scalars.{ShowsNumber};
ghost use Rattle.est_values.specs.FittingValues.{first_ordinal, last_ordinal};

use crate::constants::{boolean, constant};
use est_lexer::kind::{Symbol, TokenKind};
use est_syntax::kind::Kind;
use est_values::ordinals::{first_ordinal, last_ordinal};
use text_reader::Reader;

/// An ordinal of a kind; a kind that is not ordinal has none.
pub fn ordinal(reader: &mut Reader, kind: &Kind) -> i32
    ensures { Reads (grammar.ordinal kind.now) (λ t. ShowsOrdinal kind.now result t)
        reader.old reader.new }
{
    match host_of(kind) {
        Kind::Integer => integer(reader, kind),
        Kind::Boolean => boolean(reader, kind),
        Kind::Char => character(reader, kind),
        Kind::Enumeration { declared: _, names } => {
            constant(reader, kind, names.get().as_slice())
        }
        Kind::Part {
            host: _,
            low: _,
            high: _,
        } => no_ordinal(reader),
        Kind::SetOf(_) => no_ordinal(reader),
        Kind::ArrayOf { index: _, of: _ } => no_ordinal(reader),
        Kind::Fields(_) => no_ordinal(reader),
    }
}

// No ordinal can stand here.
fn no_ordinal(reader: &mut Reader) -> i32
    ensures { Steps false reader.old reader.new }
{
    reader.step(false);
    0
}

// The kind that a part is of, and any other kind itself.
fn host_of(kind: &Kind) -> &Kind
    ensures { result.now ≡ host_by (out-Kind kind.now) kind.now }
{
    match kind {
        Kind::Part {
            host,
            low: _,
            high: _,
        } => host.get(),
        _ => kind,
    }
}

// A number that is not negative, and 0 for one that is.
fn natural(number: i32) -> u32
    ensures { result ≡ to_natural number }
{
    if number < 0 { 0 } else { number as u32 }
}

// What a negative number is without its sign, and 0 for one that is not negative.
fn unsigned(number: i32) -> u32
    ensures { result ≡ to_natural (neg_ℤ number) }
{
    if number < 0 { number.unsigned_abs() } else { 0 }
}

// A number with "-" before it.
fn negative(number: u32) -> i32
    requires { number ≤ 2147483648 }
    ensures { result ≡ neg_ℤ (pos number) }
{
    -(number as i64) as i32
}

// An integer within the bounds of a kind: a number, or "-" and a number above 0.
fn integer(reader: &mut Reader, kind: &Kind) -> i32
    ensures { Reads (grammar.integers (first_ordinal kind.now) (last_ordinal kind.now))
        (λ t. ShowsInteger result t) reader.old reader.new }
{
    let first = first_ordinal(kind);
    if first < 0 {
        return signed(reader, kind);
    }
    number(reader, kind)
}

// The same, where there are negative ones within the bounds.
fn signed(reader: &mut Reader, kind: &Kind) -> i32
    requires { first_ordinal kind.now <ℤ pos 0 }
    ensures { Reads (grammar.integers (first_ordinal kind.now) (last_ordinal kind.now))
        (λ t. ShowsInteger result t) reader.old reader.new }
{
    if !reader.sees(TokenKind::Symbol(Symbol::Minus)) {
        return number(reader, kind);
    }
    reader.symbol(Symbol::Minus);
    let low = unsigned(last_ordinal(kind)).max(1);
    let high = unsigned(first_ordinal(kind));
    let number = reader.number(low, high);
    negative(number)
}

// An integer within the bounds of a kind that is not negative.
fn number(reader: &mut Reader, kind: &Kind) -> i32
    ensures { Reads (grammar.numbers (first_ordinal kind.now) (last_ordinal kind.now))
        (λ t. ShowsNumber result t) reader.old reader.new }
{
    let last = last_ordinal(kind);
    if last < 0 {
        return no_ordinal(reader);
    }
    let low = natural(first_ordinal(kind));
    let high = natural(last);
    let number = reader.number(low, high);
    number as i32
}

// A character within the bounds of a kind: a character constant, or its code.
fn character(reader: &mut Reader, kind: &Kind) -> i32
    ensures { Reads (grammar.characters (first_ordinal kind.now) (last_ordinal kind.now))
        (λ t. ShowsCharacter result t) reader.old reader.new }
{
    let last = last_ordinal(kind);
    if last < 0 {
        return no_ordinal(reader);
    }
    let low = natural(first_ordinal(kind));
    let high = natural(last);
    if reader.sees(TokenKind::Character) {
        let code = reader.code(low, high);
        return code as i32;
    }
    let code = coded(reader, low, high);
    code as i32
}

// `chr`, and the code of a character within bounds in brackets.
fn coded(reader: &mut Reader, low: u32, high: u32) -> u32
    ensures reads { Reads (grammar.coded low high) (λ t. t ≡ both (leaf (value result)) nothing)
        reader.old reader.new }
    ensures bounded { result ≤ high }
{
    if !reader.sees(TokenKind::Identifier) {
        reader.step(false);
        return 0;
    }
    reader.take_word(b"chr");
    reader.symbol(Symbol::LeftParenthesis);
    let code = reader.number(low, high);
    reader.symbol(Symbol::RightParenthesis);
    code
}

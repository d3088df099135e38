//! Constants (ISO 7185, 6.3).

ghost use Rattle.std.specs.Prelude.{[], ◌∷◌};
ghost use Rattle.text_reader.specs.Grammar.{rule, opt};
ghost use Rattle.text_reader.specs.Shown.{node};
ghost use Rattle.est_lexer.specs.declared.kind.Symbol.TheVariants as symbols;
ghost use Rattle.est_lexer.specs.declared.kind.TokenKind.TheVariants as token;
ghost use Rattle.text_reader.specs.Going.{Goes};
ghost use Rattle.text_reader.specs.Moving.{OneSeen};
ghost use Rattle.text_reader.specs.Tests.{kind};
ghost use Rattle.text_productions.specs.Productions as grammar;
ghost use Rattle.text_productions.specs.Nodes as view;
ghost use Rattle.text_productions.specs.Syntax.{estelle};

use est_lexer::kind::{Symbol, TokenKind};
use est_syntax::constant::{Constant, Sign};
use text_reader::Reader;

/// constant = [ "+" | "-" ] ( number | ident ) | character .
pub fn constant(reader: &mut Reader) -> Constant
    ensures { Goes estelle (rule grammar.constant) reader.old
        (node (view.a_constant result)) reader.new }
{
    if !reader.sees(TokenKind::Identifier) {
        return unnamed(reader);
    }
    let place = reader.at;
    let name = reader.name();
    Constant::Named {
        sign: None,
        name,
        place,
    }
}

/// A constant that is no bare name.
pub fn unnamed(reader: &mut Reader) -> Constant
    ensures { Goes estelle grammar.unnamed reader.old (view.unnamed result) reader.new }
{
    let place = reader.at;
    if reader.sees(TokenKind::Character) {
        let code = reader.character();
        return Constant::Character { code, place };
    }
    if reader.sees(TokenKind::Symbol(Symbol::Plus)) {
        return signed(reader);
    }
    if reader.sees(TokenKind::Symbol(Symbol::Minus)) {
        return signed(reader);
    }
    let number = reader.value();
    Constant::Number {
        sign: None,
        number,
        place,
    }
}

// ( "+" | "-" ) ( number | ident )
fn signed(reader: &mut Reader) -> Constant
    requires { OneSeen reader.old
        (kind (token.Symbol symbols.Plus) ∷ kind (token.Symbol symbols.Minus) ∷ []) }
    ensures { Goes estelle grammar.unnamed reader.old (view.unnamed result) reader.new }
{
    let place = reader.at;
    let sign = plus_or_minus(reader);
    if reader.sees(TokenKind::Identifier) {
        let name = reader.name();
        return Constant::Named {
            sign: Some(sign),
            name,
            place,
        };
    }
    let number = reader.value();
    Constant::Number {
        sign: Some(sign),
        number,
        place,
    }
}

/// "+" | "-"
pub fn plus_or_minus(reader: &mut Reader) -> Sign
    ensures { Goes estelle grammar.plus_or_minus reader.old (view.written_sign result) reader.new }
{
    if reader.sees(TokenKind::Symbol(Symbol::Minus)) {
        reader.symbol(Symbol::Minus);
        return Sign::Minus;
    }
    reader.symbol(Symbol::Plus);
    Sign::Plus
}

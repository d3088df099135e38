//! The operators of expressions (ISO 7185, 6.7.2).

ghost use Rattle.text_reader.specs.Going.{Goes};
ghost use Rattle.text_reader.specs.Moving.{SeesOne};
ghost use Rattle.text_productions.specs.Productions as grammar;
ghost use Rattle.text_productions.specs.Nodes as view;
ghost use Rattle.text_productions.specs.Tokens.{relational_tokens, adding_tokens};
ghost use Rattle.text_productions.specs.Tokens.{multiplying_tokens};
ghost use Rattle.text_productions.specs.Syntax.{estelle};

use est_lexer::kind::{ReservedWord, Symbol, TokenKind};
use est_syntax::expression::Operator;
use text_reader::Reader;

/// Whether a relational operator comes next.
pub fn sees_relational_operator(reader: &Reader) -> bool
    ensures { SeesOne reader.now relational_tokens result }
{
    if reader.sees(TokenKind::Symbol(Symbol::Equal)) {
        return true;
    }
    if reader.sees(TokenKind::Symbol(Symbol::Unequal)) {
        return true;
    }
    if reader.sees(TokenKind::Symbol(Symbol::Below)) {
        return true;
    }
    if reader.sees(TokenKind::Symbol(Symbol::AtMost)) {
        return true;
    }
    if reader.sees(TokenKind::Symbol(Symbol::Above)) {
        return true;
    }
    if reader.sees(TokenKind::Symbol(Symbol::AtLeast)) {
        return true;
    }
    reader.sees(TokenKind::Reserved(ReservedWord::In))
}

/// "=" | "<>" | "<" | "<=" | ">" | ">=" | "in"
pub fn relational_operator(reader: &mut Reader) -> Operator
    ensures { Goes estelle grammar.relational_operator reader.old
        (view.relational_operator result) reader.new }
{
    if reader.sees(TokenKind::Symbol(Symbol::Unequal)) {
        reader.symbol(Symbol::Unequal);
        return Operator::Unequal;
    }
    if reader.sees(TokenKind::Symbol(Symbol::Below)) {
        reader.symbol(Symbol::Below);
        return Operator::Below;
    }
    if reader.sees(TokenKind::Symbol(Symbol::AtMost)) {
        reader.symbol(Symbol::AtMost);
        return Operator::AtMost;
    }
    if reader.sees(TokenKind::Symbol(Symbol::Above)) {
        reader.symbol(Symbol::Above);
        return Operator::Above;
    }
    if reader.sees(TokenKind::Symbol(Symbol::AtLeast)) {
        reader.symbol(Symbol::AtLeast);
        return Operator::AtLeast;
    }
    if reader.sees(TokenKind::Reserved(ReservedWord::In)) {
        reader.word(ReservedWord::In);
        return Operator::Within;
    }
    reader.symbol(Symbol::Equal);
    Operator::Equal
}

/// Whether an adding operator comes next.
pub fn sees_adding_operator(reader: &Reader) -> bool
    ensures { SeesOne reader.now adding_tokens result }
{
    if reader.sees(TokenKind::Symbol(Symbol::Plus)) {
        return true;
    }
    if reader.sees(TokenKind::Symbol(Symbol::Minus)) {
        return true;
    }
    reader.sees(TokenKind::Reserved(ReservedWord::Or))
}

/// "+" | "-" | "or"
pub fn adding_operator(reader: &mut Reader) -> Operator
    ensures { Goes estelle grammar.adding_operator reader.old
        (view.adding_operator result) reader.new }
{
    if reader.sees(TokenKind::Symbol(Symbol::Minus)) {
        reader.symbol(Symbol::Minus);
        return Operator::Minus;
    }
    if reader.sees(TokenKind::Reserved(ReservedWord::Or)) {
        reader.word(ReservedWord::Or);
        return Operator::Or;
    }
    reader.symbol(Symbol::Plus);
    Operator::Plus
}

/// Whether a multiplying operator comes next.
pub fn sees_multiplying_operator(reader: &Reader) -> bool
    ensures { SeesOne reader.now multiplying_tokens result }
{
    if reader.sees(TokenKind::Symbol(Symbol::Star)) {
        return true;
    }
    if reader.sees(TokenKind::Reserved(ReservedWord::Div)) {
        return true;
    }
    if reader.sees(TokenKind::Reserved(ReservedWord::Mod)) {
        return true;
    }
    reader.sees(TokenKind::Reserved(ReservedWord::And))
}

/// "*" | "div" | "mod" | "and"
pub fn multiplying_operator(reader: &mut Reader) -> Operator
    ensures { Goes estelle grammar.multiplying_operator reader.old
        (view.multiplying_operator result) reader.new }
{
    if reader.sees(TokenKind::Reserved(ReservedWord::Div)) {
        reader.word(ReservedWord::Div);
        return Operator::Div;
    }
    if reader.sees(TokenKind::Reserved(ReservedWord::Mod)) {
        reader.word(ReservedWord::Mod);
        return Operator::Mod;
    }
    if reader.sees(TokenKind::Reserved(ReservedWord::And)) {
        reader.word(ReservedWord::And);
        return Operator::And;
    }
    reader.symbol(Symbol::Star);
    Operator::Times
}

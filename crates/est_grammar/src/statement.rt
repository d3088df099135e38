//! Statements (ISO 7185, 6.8).

ghost use Rattle.std.specs.Prelude.{true, map};
ghost use Rattle.text_reader.specs.Grammar.{rule};
ghost use Rattle.text_reader.specs.Shown.{node, nodes};
ghost use Rattle.est_lexer.specs.declared.kind.ReservedWord.TheVariants as words;
ghost use Rattle.est_lexer.specs.declared.kind.TokenKind.TheVariants.{Identifier, Reserved};
ghost use Rattle.text_reader.specs.Going.{Goes};
ghost use Rattle.text_reader.specs.Moving.{Sees, SeesOne, NoneSeen};
ghost use Rattle.text_reader.specs.Tests.{kind};
ghost use Rattle.text_productions.specs.Productions as grammar;
ghost use Rattle.text_productions.specs.Nodes as view;
ghost use Rattle.text_productions.specs.Syntax.{estelle};
ghost use Rattle.text_productions.specs.Tokens.{assigned_tokens, constant_tokens};
ghost use Rattle.text_productions.specs.Tokens.{first_statement_tokens};

use crate::estelle_statement::estelle_statement;
use est_lexer::kind::{ReservedWord, Symbol, TokenKind};
use est_syntax::constant::Constants;
use est_syntax::est_items::Boxed;
use est_syntax::expression::{Exprs, Selectors};
use est_syntax::statement::{Arm, Arms, Statement, Statements};
use text_productions::constant::constant;
use text_productions::expression::{called, expr, sees_selector, selectors};
use text_productions::type_text::shorttype;
use text_reader::Reader;

/// statements = statement { ";" statement } .
#[cycle(statement)]
pub fn statements(reader: &mut Reader) -> Statements
    ensures { Goes estelle grammar.statements reader.old
        (nodes (map view.a_statement result)) reader.new }
{
    let first = statement(reader);
    let mut items = Statements::new(reader.alloc);
    reader.keep(&mut items, first);
    while reader.sees(TokenKind::Symbol(Symbol::Semicolon)) {
        reader.symbol(Symbol::Semicolon);
        let next = statement(reader);
        reader.keep(&mut items, next);
    }
    items
}

// statement = [ "begin" .. | ident .. | "if" .. | "case" .. | "while" .. | "repeat" .. | "for" ..
//     | "all" .. | "output" .. | init | "release" .. | "connect" .. | "disconnect" ..
//     | "attach" .. | "detach" .. ] .
#[cycle(statement)]
fn statement(reader: &mut Reader) -> Statement
    ensures { Goes estelle (rule grammar.statement) reader.old
        (node (view.a_statement result)) reader.new }
{
    if reader.sees(TokenKind::Reserved(ReservedWord::Begin)) {
        return compound(reader);
    }
    if reader.sees(TokenKind::Identifier) {
        return assignment_or_call(reader);
    }
    if reader.sees(TokenKind::Reserved(ReservedWord::If)) {
        return if_statement(reader);
    }
    if reader.sees(TokenKind::Reserved(ReservedWord::Case)) {
        return case_statement(reader);
    }
    loop_statement(reader)
}

// A loop, or a statement that only Estelle knows, or none.
#[cycle(statement)]
fn loop_statement(reader: &mut Reader) -> Statement
    requires { NoneSeen reader.old first_statement_tokens }
    ensures { Goes estelle (rule grammar.statement) reader.old
        (node (view.a_statement result)) reader.new }
{
    if reader.sees(TokenKind::Reserved(ReservedWord::While)) {
        return while_statement(reader);
    }
    if reader.sees(TokenKind::Reserved(ReservedWord::Repeat)) {
        return repeat_statement(reader);
    }
    if reader.sees(TokenKind::Reserved(ReservedWord::For)) {
        return for_statement(reader);
    }
    if reader.sees(TokenKind::Reserved(ReservedWord::All)) {
        return all_statement(reader);
    }
    estelle_statement(reader)
}

// "begin" statements "end"
#[cycle(statement)]
fn compound(reader: &mut Reader) -> Statement
    requires { Sees reader.old (kind (Reserved words.Begin)) true }
    ensures { Goes estelle (rule grammar.statement) reader.old
        (node (view.a_statement result)) reader.new }
{
    let place = reader.at;
    let levels = reader.open(TokenKind::Reserved(ReservedWord::Begin));
    let turn = statements(reader);
    reader.word(ReservedWord::End);
    reader.close(levels);
    Statement::Compound { turn, place }
}

// ident { selector } ":=" expr | ident [ "(" exprs ")" ]
fn assignment_or_call(reader: &mut Reader) -> Statement
    requires { Sees reader.old (kind Identifier) true }
    ensures { Goes estelle (rule grammar.statement) reader.old
        (node (view.a_statement result)) reader.new }
{
    let place = reader.at;
    let name = reader.name();
    if reader.sees(TokenKind::Symbol(Symbol::LeftParenthesis)) {
        let arguments = called(reader);
        return Statement::Call {
            name,
            arguments,
            place,
        };
    }
    if !sees_assigned(reader) {
        let arguments = Exprs::new(reader.alloc);
        return Statement::Call {
            name,
            arguments,
            place,
        };
    }
    let path = path(reader);
    reader.symbol(Symbol::Assign);
    let value = expr(reader);
    match reader.boxed(value) {
        Some(value) => Statement::Assign {
            target: name,
            path,
            value,
            place,
        },
        None => {
            drop(path);
            Statement::Empty { place }
        }
    }
}

// Whether selectors or ":=" come next.
fn sees_assigned(reader: &Reader) -> bool
    ensures { SeesOne reader.now assigned_tokens result }
{
    if reader.sees(TokenKind::Symbol(Symbol::Assign)) {
        return true;
    }
    sees_selector(reader)
}

// { selector }
fn path(reader: &mut Reader) -> Selectors
    ensures { Goes estelle grammar.path reader.old (view.path result) reader.new }
{
    if sees_selector(reader) {
        return selectors(reader);
    }
    Selectors::new(reader.alloc)
}

// "if" expr "then" statement [ "else" statement ]
#[cycle(statement)]
fn if_statement(reader: &mut Reader) -> Statement
    requires { Sees reader.old (kind (Reserved words.If)) true }
    ensures { Goes estelle (rule grammar.statement) reader.old
        (node (view.a_statement result)) reader.new }
{
    let place = reader.at;
    let levels = reader.open(TokenKind::Reserved(ReservedWord::If));
    let condition = expr(reader);
    reader.word(ReservedWord::Then);
    let first = statement(reader);
    let second = else_part(reader);
    reader.close(levels);
    let condition = reader.boxed(condition);
    let first = reader.boxed(first);
    match condition.zip(first) {
        Some((condition, first)) => Statement::If {
            condition,
            first,
            second,
            place,
        },
        None => {
            drop(second);
            Statement::Empty { place }
        }
    }
}

// [ "else" statement ]
#[cycle(statement)]
fn else_part(reader: &mut Reader) -> Option<Boxed<Statement>>
    ensures { Goes estelle grammar.else_part reader.old (view.else_part result) reader.new }
{
    if !reader.sees(TokenKind::Reserved(ReservedWord::Else)) {
        return None;
    }
    reader.word(ReservedWord::Else);
    let statement = statement(reader);
    reader.boxed(statement)
}

// "case" expr "of" arm { ";" arm } [ ";" ] "end"
#[cycle(statement)]
fn case_statement(reader: &mut Reader) -> Statement
    requires { Sees reader.old (kind (Reserved words.Case)) true }
    ensures { Goes estelle (rule grammar.statement) reader.old
        (node (view.a_statement result)) reader.new }
{
    let place = reader.at;
    let levels = reader.open(TokenKind::Reserved(ReservedWord::Case));
    let value = expr(reader);
    reader.word(ReservedWord::Of);
    let arms = arms(reader);
    reader.word(ReservedWord::End);
    reader.close(levels);
    match reader.boxed(value) {
        Some(value) => Statement::Case { value, arms, place },
        None => {
            drop(arms);
            Statement::Empty { place }
        }
    }
}

// arm { ";" arm } [ ";" ]
#[cycle(statement)]
fn arms(reader: &mut Reader) -> Arms
    ensures { Goes estelle grammar.arms reader.old (nodes (map view.an_arm result)) reader.new }
{
    let first = arm(reader);
    let mut items = Arms::new(reader.alloc);
    reader.keep(&mut items, first);
    while reader.sees(TokenKind::Symbol(Symbol::Semicolon)) {
        reader.symbol(Symbol::Semicolon);
        if !begins_constant(reader) {
            return items;
        }
        let next = arm(reader);
        reader.keep(&mut items, next);
    }
    items
}

// Whether a constant comes next.
fn begins_constant(reader: &Reader) -> bool
    ensures { SeesOne reader.now constant_tokens result }
{
    if reader.sees(TokenKind::Identifier) {
        return true;
    }
    if reader.sees(TokenKind::Number) {
        return true;
    }
    if reader.sees(TokenKind::Character) {
        return true;
    }
    if reader.sees(TokenKind::Symbol(Symbol::Plus)) {
        return true;
    }
    reader.sees(TokenKind::Symbol(Symbol::Minus))
}

// arm = constant { "," constant } ":" statement .
#[cycle(statement)]
fn arm(reader: &mut Reader) -> Arm
    ensures { Goes estelle (rule grammar.arm) reader.old (node (view.an_arm result)) reader.new }
{
    let constants = constants(reader);
    reader.symbol(Symbol::Colon);
    let turn = statement(reader);
    Arm { constants, turn }
}

// constant { "," constant }
fn constants(reader: &mut Reader) -> Constants
    ensures { Goes estelle (grammar.listed (rule grammar.constant)) reader.old
        (nodes (map view.a_constant result)) reader.new }
{
    let first = constant(reader);
    let mut items = Constants::new(reader.alloc);
    reader.keep(&mut items, first);
    while reader.sees(TokenKind::Symbol(Symbol::Comma)) {
        reader.symbol(Symbol::Comma);
        let next = constant(reader);
        reader.keep(&mut items, next);
    }
    items
}

// "while" expr "do" statement
#[cycle(statement)]
fn while_statement(reader: &mut Reader) -> Statement
    requires { Sees reader.old (kind (Reserved words.While)) true }
    ensures { Goes estelle (rule grammar.statement) reader.old
        (node (view.a_statement result)) reader.new }
{
    let place = reader.at;
    let levels = reader.open(TokenKind::Reserved(ReservedWord::While));
    let condition = expr(reader);
    reader.word(ReservedWord::Do);
    let turn = statement(reader);
    reader.close(levels);
    let condition = reader.boxed(condition);
    let turn = reader.boxed(turn);
    match condition.zip(turn) {
        Some((condition, turn)) => Statement::While {
            condition,
            turn,
            place,
        },
        None => Statement::Empty { place },
    }
}

// "repeat" statements "until" expr
#[cycle(statement)]
fn repeat_statement(reader: &mut Reader) -> Statement
    requires { Sees reader.old (kind (Reserved words.Repeat)) true }
    ensures { Goes estelle (rule grammar.statement) reader.old
        (node (view.a_statement result)) reader.new }
{
    let place = reader.at;
    let levels = reader.open(TokenKind::Reserved(ReservedWord::Repeat));
    let turn = statements(reader);
    reader.word(ReservedWord::Until);
    let until = expr(reader);
    reader.close(levels);
    match reader.boxed(until) {
        Some(until) => Statement::Repeat { turn, until, place },
        None => {
            drop(turn);
            Statement::Empty { place }
        }
    }
}

// "for" ident ":=" expr ( "to" | "downto" ) expr "do" statement
#[cycle(statement)]
fn for_statement(reader: &mut Reader) -> Statement
    requires { Sees reader.old (kind (Reserved words.For)) true }
    ensures { Goes estelle (rule grammar.statement) reader.old
        (node (view.a_statement result)) reader.new }
{
    let place = reader.at;
    let levels = reader.open(TokenKind::Reserved(ReservedWord::For));
    let name = reader.name();
    reader.symbol(Symbol::Assign);
    let first = expr(reader);
    let down = direction(reader);
    let last = expr(reader);
    reader.word(ReservedWord::Do);
    let turn = statement(reader);
    reader.close(levels);
    let first = reader.boxed(first);
    let last = reader.boxed(last);
    let turn = reader.boxed(turn);
    match first.zip(last).zip(turn) {
        Some((bounds, turn)) => {
            let (first, last) = bounds;
            Statement::For {
                name,
                first,
                down,
                last,
                turn,
                place,
            }
        }
        None => Statement::Empty { place },
    }
}

// "to" | "downto"
fn direction(reader: &mut Reader) -> bool
    ensures { Goes estelle grammar.direction reader.old (view.direction result) reader.new }
{
    if reader.sees(TokenKind::Reserved(ReservedWord::Downto)) {
        reader.word(ReservedWord::Downto);
        return true;
    }
    reader.word(ReservedWord::To);
    false
}

// "all" ident ":" shorttype "do" statement
#[cycle(statement)]
fn all_statement(reader: &mut Reader) -> Statement
    requires { Sees reader.old (kind (Reserved words.All)) true }
    ensures { Goes estelle (rule grammar.statement) reader.old
        (node (view.a_statement result)) reader.new }
{
    let place = reader.at;
    let levels = reader.open(TokenKind::Reserved(ReservedWord::All));
    let name = reader.name();
    reader.symbol(Symbol::Colon);
    let over = shorttype(reader);
    reader.word(ReservedWord::Do);
    let turn = statement(reader);
    reader.close(levels);
    let over = reader.boxed(over);
    let turn = reader.boxed(turn);
    match over.zip(turn) {
        Some((over, turn)) => Statement::All {
            name,
            over,
            turn,
            place,
        },
        None => Statement::Empty { place },
    }
}

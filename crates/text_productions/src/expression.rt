//! Expressions (ISO 7185, 6.7).

ghost use Rattle.std.specs.Prelude.{true, [], ◌∷◌, map};
ghost use Rattle.text_reader.specs.Grammar.{rule, opt, rep};
ghost use Rattle.text_reader.specs.Shown.{node, nodes, pair, empty};
ghost use Rattle.est_lexer.specs.declared.kind.ReservedWord.TheVariants as words;
ghost use Rattle.est_lexer.specs.declared.kind.Symbol.TheVariants as symbols;
ghost use Rattle.est_lexer.specs.declared.kind.TokenKind.TheVariants.{Identifier, Reserved};
ghost use Rattle.est_lexer.specs.declared.kind.TokenKind.TheVariants as token;
ghost use Rattle.text_reader.specs.Going.{Goes};
ghost use Rattle.text_reader.specs.Moving.{Sees, SeesOne, NoneSeen};
ghost use Rattle.text_reader.specs.Tests.{kind};
ghost use Rattle.text_productions.specs.Productions as grammar;
ghost use Rattle.text_productions.specs.Nodes as view;
ghost use Rattle.text_productions.specs.Tokens.{expression_tokens, bracket_tokens, selector_tokens};
ghost use Rattle.text_productions.specs.Syntax.{estelle};

use crate::constant::plus_or_minus;
use crate::operator::{
    adding_operator, multiplying_operator, relational_operator, sees_adding_operator,
    sees_multiplying_operator, sees_relational_operator,
};
use est_lexer::kind::{ReservedWord, Symbol, TokenKind};
use est_syntax::constant::Sign;
use est_syntax::expression::{
    Expr, Exprs, Factor, Member, Members, ProductStep, ProductSteps, Relation, Selector, Selectors,
    Simple, SumStep, SumSteps, Term,
};
use text_reader::Reader;

/// exprs = expr { "," expr } .
#[cycle(expr)]
pub fn exprs(reader: &mut Reader) -> Exprs
    ensures { Goes estelle grammar.exprs reader.old (nodes (map view.an_expr result)) reader.new }
{
    let first = expr(reader);
    let mut items = Exprs::new(reader.alloc);
    reader.keep(&mut items, first);
    while reader.sees(TokenKind::Symbol(Symbol::Comma)) {
        reader.symbol(Symbol::Comma);
        let next = expr(reader);
        reader.keep(&mut items, next);
    }
    items
}

/// expr = simple [ ( "=" | "<>" | "<" | "<=" | ">" | ">=" | "in" ) simple ] .
#[cycle(expr)]
pub fn expr(reader: &mut Reader) -> Expr
    ensures { Goes estelle (rule grammar.expr) reader.old (node (view.an_expr result)) reader.new }
{
    let place = reader.at;
    let left = simple(reader);
    let relation = relation(reader);
    Expr {
        left,
        relation,
        place,
    }
}

// [ ( "=" | "<>" | "<" | "<=" | ">" | ">=" | "in" ) simple ]
#[cycle(expr)]
fn relation(reader: &mut Reader) -> Option<Relation>
    ensures { Goes estelle grammar.relation reader.old (view.relation result) reader.new }
{
    if !sees_relational_operator(reader) {
        return None;
    }
    let operator = relational_operator(reader);
    let right = simple(reader);
    Some(Relation { operator, right })
}

// simple = [ "+" | "-" ] term { ( "+" | "-" | "or" ) term } .
#[cycle(expr)]
fn simple(reader: &mut Reader) -> Simple
    ensures { Goes estelle (rule grammar.simple) reader.old
        (node (view.a_simple result)) reader.new }
{
    let sign = sign(reader);
    let first = term(reader);
    let rest = sum_steps(reader);
    Simple { sign, first, rest }
}

// [ "+" | "-" ]
fn sign(reader: &mut Reader) -> Option<Sign>
    ensures { Goes estelle (opt grammar.plus_or_minus) reader.old (view.sign result) reader.new }
{
    if reader.sees(TokenKind::Symbol(Symbol::Plus)) {
        reader.symbol(Symbol::Plus);
        return Some(Sign::Plus);
    }
    if reader.sees(TokenKind::Symbol(Symbol::Minus)) {
        reader.symbol(Symbol::Minus);
        return Some(Sign::Minus);
    }
    None
}

// { ( "+" | "-" | "or" ) term }
#[cycle(expr)]
fn sum_steps(reader: &mut Reader) -> SumSteps
    ensures { Goes estelle (rep grammar.sum_step) reader.old
        (nodes (map view.a_sum_step result)) reader.new }
{
    let mut items = SumSteps::new(reader.alloc);
    while sees_adding_operator(reader) {
        let next = sum_step(reader);
        reader.keep(&mut items, next);
    }
    items
}

// ( "+" | "-" | "or" ) term
#[cycle(expr)]
fn sum_step(reader: &mut Reader) -> SumStep
    ensures { Goes estelle grammar.sum_step reader.old
        (node (view.a_sum_step result)) reader.new }
{
    let operator = adding_operator(reader);
    let right = term(reader);
    SumStep { operator, right }
}

// term = factor { ( "*" | "div" | "mod" | "and" ) factor } .
#[cycle(expr)]
fn term(reader: &mut Reader) -> Term
    ensures { Goes estelle (rule grammar.term) reader.old (node (view.a_term result)) reader.new }
{
    let first = factor(reader);
    let rest = product_steps(reader);
    Term { first, rest }
}

// { ( "*" | "div" | "mod" | "and" ) factor }
#[cycle(expr)]
fn product_steps(reader: &mut Reader) -> ProductSteps
    ensures { Goes estelle (rep grammar.product_step) reader.old
        (nodes (map view.a_product_step result)) reader.new }
{
    let mut items = ProductSteps::new(reader.alloc);
    while sees_multiplying_operator(reader) {
        let next = product_step(reader);
        reader.keep(&mut items, next);
    }
    items
}

// ( "*" | "div" | "mod" | "and" ) factor
#[cycle(expr)]
fn product_step(reader: &mut Reader) -> ProductStep
    ensures { Goes estelle grammar.product_step reader.old
        (node (view.a_product_step result)) reader.new }
{
    let operator = multiplying_operator(reader);
    let right = factor(reader);
    ProductStep { operator, right }
}

// factor = number | character | "(" expr ")" | "not" factor
//     | "[" [ member { "," member } ] "]" | ident ( "(" exprs ")" | { selector } ) .
#[cycle(expr)]
fn factor(reader: &mut Reader) -> Factor
    ensures { Goes estelle (rule grammar.factor) reader.old
        (node (view.a_factor result)) reader.new }
{
    if reader.sees(TokenKind::Identifier) {
        return variable_or_call(reader);
    }
    if reader.sees(TokenKind::Symbol(Symbol::LeftParenthesis)) {
        return group(reader);
    }
    if reader.sees(TokenKind::Reserved(ReservedWord::Not)) {
        return negation(reader);
    }
    if reader.sees(TokenKind::Symbol(Symbol::LeftBracket)) {
        return set(reader);
    }
    literal(reader)
}

// number | character, and what is refused where a factor is wanted
fn literal(reader: &mut Reader) -> Factor
    requires { NoneSeen reader.old bracket_tokens }
    ensures { Goes estelle (rule grammar.factor) reader.old
        (node (view.a_factor result)) reader.new }
{
    let place = reader.at;
    if reader.sees(TokenKind::Character) {
        let code = reader.character();
        return Factor::Character { code, place };
    }
    let number = reader.value();
    Factor::Number { number, place }
}

// "(" expr ")"
#[cycle(expr)]
fn group(reader: &mut Reader) -> Factor
    requires { Sees reader.old (kind (token.Symbol symbols.LeftParenthesis)) true }
    ensures { Goes estelle (rule grammar.factor) reader.old
        (node (view.a_factor result)) reader.new }
{
    let place = reader.at;
    let levels = reader.open(TokenKind::Symbol(Symbol::LeftParenthesis));
    let of = expr(reader);
    reader.symbol(Symbol::RightParenthesis);
    reader.close(levels);
    match reader.boxed(of) {
        Some(of) => Factor::Group { of, place },
        None => Factor::Number { number: 0, place },
    }
}

// "not" factor
#[cycle(expr)]
fn negation(reader: &mut Reader) -> Factor
    requires { Sees reader.old (kind (Reserved words.Not)) true }
    ensures { Goes estelle (rule grammar.factor) reader.old
        (node (view.a_factor result)) reader.new }
{
    let place = reader.at;
    let levels = reader.open(TokenKind::Reserved(ReservedWord::Not));
    let of = factor(reader);
    reader.close(levels);
    match reader.boxed(of) {
        Some(of) => Factor::Not { of, place },
        None => Factor::Number { number: 0, place },
    }
}

// "[" [ member { "," member } ] "]"
#[cycle(expr)]
fn set(reader: &mut Reader) -> Factor
    requires { Sees reader.old (kind (token.Symbol symbols.LeftBracket)) true }
    ensures { Goes estelle (rule grammar.factor) reader.old
        (node (view.a_factor result)) reader.new }
{
    let place = reader.at;
    let levels = reader.open(TokenKind::Symbol(Symbol::LeftBracket));
    let members = members_given(reader);
    reader.symbol(Symbol::RightBracket);
    reader.close(levels);
    Factor::Set { members, place }
}

// [ member { "," member } ]
#[cycle(expr)]
fn members_given(reader: &mut Reader) -> Members
    ensures { Goes estelle (opt (grammar.listed (rule grammar.member))) reader.old
        (view.members result) reader.new }
{
    if begins_expression(reader) {
        return members(reader);
    }
    Members::new(reader.alloc)
}

// Whether an expression comes next.
fn begins_expression(reader: &Reader) -> bool
    ensures { SeesOne reader.now expression_tokens result }
{
    if reader.sees(TokenKind::Identifier) {
        return true;
    }
    if reader.sees(TokenKind::Number) {
        return true;
    }
    if reader.sees(TokenKind::Character) {
        return true;
    }
    if reader.sees(TokenKind::Symbol(Symbol::LeftParenthesis)) {
        return true;
    }
    if reader.sees(TokenKind::Symbol(Symbol::LeftBracket)) {
        return true;
    }
    if reader.sees(TokenKind::Symbol(Symbol::Plus)) {
        return true;
    }
    if reader.sees(TokenKind::Symbol(Symbol::Minus)) {
        return true;
    }
    reader.sees(TokenKind::Reserved(ReservedWord::Not))
}

// member { "," member }
#[cycle(expr)]
fn members(reader: &mut Reader) -> Members
    ensures { Goes estelle (grammar.listed (rule grammar.member)) reader.old
        (nodes (map view.a_member result)) reader.new }
{
    let first = member(reader);
    let mut items = Members::new(reader.alloc);
    reader.keep(&mut items, first);
    while reader.sees(TokenKind::Symbol(Symbol::Comma)) {
        reader.symbol(Symbol::Comma);
        let next = member(reader);
        reader.keep(&mut items, next);
    }
    items
}

// member = expr [ ".." expr ] .
#[cycle(expr)]
fn member(reader: &mut Reader) -> Member
    ensures { Goes estelle (rule grammar.member) reader.old
        (node (view.a_member result)) reader.new }
{
    let low = expr(reader);
    let high = later_end(reader);
    Member { low, high }
}

// [ ".." expr ]
#[cycle(expr)]
fn later_end(reader: &mut Reader) -> Option<Expr>
    ensures { Goes estelle grammar.later_end reader.old (view.expr_given result) reader.new }
{
    if !reader.sees(TokenKind::Symbol(Symbol::DoublePeriod)) {
        return None;
    }
    reader.symbol(Symbol::DoublePeriod);
    Some(expr(reader))
}

// ident ( "(" exprs ")" | { selector } )
#[cycle(expr)]
fn variable_or_call(reader: &mut Reader) -> Factor
    requires { Sees reader.old (kind Identifier) true }
    ensures { Goes estelle (rule grammar.factor) reader.old
        (node (view.a_factor result)) reader.new }
{
    let place = reader.at;
    let name = reader.name();
    if reader.sees(TokenKind::Symbol(Symbol::LeftParenthesis)) {
        let arguments = called(reader);
        return Factor::Call {
            name,
            arguments,
            place,
        };
    }
    if sees_selector(reader) {
        let path = selectors(reader);
        return Factor::Variable { name, path, place };
    }
    let path = Selectors::new(reader.alloc);
    Factor::Variable { name, path, place }
}

/// "(" exprs ")"
#[cycle(expr)]
pub fn called(reader: &mut Reader) -> Exprs
    requires { Sees reader.old (kind (token.Symbol symbols.LeftParenthesis)) true }
    ensures { Goes estelle grammar.called reader.old
        (pair (nodes (map view.an_expr result)) empty) reader.new }
{
    let levels = reader.open(TokenKind::Symbol(Symbol::LeftParenthesis));
    let exprs = exprs(reader);
    reader.symbol(Symbol::RightParenthesis);
    reader.close(levels);
    exprs
}

/// Whether a selector comes next.
pub fn sees_selector(reader: &Reader) -> bool
    ensures { SeesOne reader.now selector_tokens result }
{
    if reader.sees(TokenKind::Symbol(Symbol::LeftBracket)) {
        return true;
    }
    reader.sees(TokenKind::Symbol(Symbol::Period))
}

/// selector { selector }
#[cycle(expr)]
pub fn selectors(reader: &mut Reader) -> Selectors
    ensures { Goes estelle (grammar.several (rule grammar.selector)) reader.old
        (nodes (map view.a_selector result)) reader.new }
{
    let first = selector(reader);
    let mut items = Selectors::new(reader.alloc);
    reader.keep(&mut items, first);
    while sees_selector(reader) {
        let next = selector(reader);
        reader.keep(&mut items, next);
    }
    items
}

// selector = "." ident | "[" exprs "]" .
#[cycle(expr)]
fn selector(reader: &mut Reader) -> Selector
    ensures { Goes estelle (rule grammar.selector) reader.old
        (node (view.a_selector result)) reader.new }
{
    if reader.sees(TokenKind::Symbol(Symbol::LeftBracket)) {
        return index(reader);
    }
    reader.symbol(Symbol::Period);
    Selector::Field(reader.name())
}

// "[" exprs "]", a selector
#[cycle(expr)]
fn index(reader: &mut Reader) -> Selector
    requires { Sees reader.old (kind (token.Symbol symbols.LeftBracket)) true }
    ensures { Goes estelle (rule grammar.selector) reader.old
        (node (view.a_selector result)) reader.new }
{
    let place = reader.at;
    let exprs = subscripts(reader);
    Selector::Index { exprs, place }
}

/// "[" exprs "]"
#[cycle(expr)]
pub fn subscripts(reader: &mut Reader) -> Exprs
    requires { Sees reader.old (kind (token.Symbol symbols.LeftBracket)) true }
    ensures { Goes estelle grammar.subscripts reader.old
        (pair (nodes (map view.an_expr result)) empty) reader.new }
{
    let levels = reader.open(TokenKind::Symbol(Symbol::LeftBracket));
    let exprs = exprs(reader);
    reader.symbol(Symbol::RightBracket);
    reader.close(levels);
    exprs
}

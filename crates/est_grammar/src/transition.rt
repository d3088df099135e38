//! Transitions (ISO 9074, transition-declaration).

ghost use Rattle.std.specs.Prelude.{true, map};
ghost use Rattle.text_reader.specs.Grammar.{rule, rep};
ghost use Rattle.text_reader.specs.Shown.{node, nodes};
ghost use Rattle.est_lexer.specs.declared.kind.ReservedWord.TheVariants as words;
ghost use Rattle.est_lexer.specs.declared.kind.TokenKind.TheVariants.{Reserved};
ghost use Rattle.text_reader.specs.Going.{Goes};
ghost use Rattle.text_reader.specs.Moving.{Sees, SeesOne};
ghost use Rattle.text_reader.specs.Tests.{kind};
ghost use Rattle.text_productions.specs.Productions as grammar;
ghost use Rattle.text_productions.specs.Nodes as view;
ghost use Rattle.text_productions.specs.Syntax.{estelle};
ghost use Rattle.text_productions.specs.Tokens.{clause_tokens, transition_tokens};

use crate::block::block;
use est_lexer::kind::{ReservedWord, Symbol, TokenKind};
use est_syntax::name::Used;
use est_syntax::transition::{Clause, Clauses, Group, Most, Transition, Transitions};
use text_productions::access::access;
use text_productions::constant::constant;
use text_productions::declaration::params;
use text_productions::expression::expr;
use text_productions::names::idents;
use text_reader::Reader;

/// transpart = "trans" transition { transition } .
pub fn transpart(reader: &mut Reader) -> Group
    ensures { Goes estelle (rule grammar.transpart) reader.old
        (node (view.a_group result)) reader.new }
{
    reader.word(ReservedWord::Trans);
    let transitions = transitions(reader);
    Group { transitions }
}

// transition { transition }
fn transitions(reader: &mut Reader) -> Transitions
    ensures { Goes estelle (grammar.several (rule grammar.transition)) reader.old
        (nodes (map view.a_transition result)) reader.new }
{
    let first = transition(reader);
    let mut items = Transitions::new(reader.alloc);
    reader.keep(&mut items, first);
    while begins_transition(reader) {
        let next = transition(reader);
        reader.keep(&mut items, next);
    }
    items
}

// Whether a transition comes next.
fn begins_transition(reader: &Reader) -> bool
    ensures { SeesOne reader.now transition_tokens result }
{
    if reader.sees(TokenKind::Reserved(ReservedWord::Name)) {
        return true;
    }
    if reader.sees(TokenKind::Reserved(ReservedWord::Begin)) {
        return true;
    }
    if reader.sees(TokenKind::Reserved(ReservedWord::Const)) {
        return true;
    }
    if reader.sees(TokenKind::Reserved(ReservedWord::Type)) {
        return true;
    }
    if reader.sees(TokenKind::Reserved(ReservedWord::Var)) {
        return true;
    }
    begins_clause(reader)
}

// Whether a clause comes next.
fn begins_clause(reader: &Reader) -> bool
    ensures { SeesOne reader.now clause_tokens result }
{
    if reader.sees(TokenKind::Reserved(ReservedWord::From)) {
        return true;
    }
    if reader.sees(TokenKind::Reserved(ReservedWord::To)) {
        return true;
    }
    if reader.sees(TokenKind::Reserved(ReservedWord::When)) {
        return true;
    }
    if reader.sees(TokenKind::Reserved(ReservedWord::Provided)) {
        return true;
    }
    if reader.sees(TokenKind::Reserved(ReservedWord::Any)) {
        return true;
    }
    if reader.sees(TokenKind::Reserved(ReservedWord::Priority)) {
        return true;
    }
    reader.sees(TokenKind::Reserved(ReservedWord::Delay))
}

// transition = { clause } [ "name" ident ":" ] block ";" .
fn transition(reader: &mut Reader) -> Transition
    ensures { Goes estelle (rule grammar.transition) reader.old
        (node (view.a_transition result)) reader.new }
{
    let clauses = clauses(reader);
    let name = transition_name(reader);
    let block = block(reader);
    reader.symbol(Symbol::Semicolon);
    Transition {
        clauses,
        name,
        block,
    }
}

// [ "name" ident ":" ]
fn transition_name(reader: &mut Reader) -> Option<Used>
    ensures { Goes estelle grammar.transition_name reader.old
        (view.transition_name result) reader.new }
{
    if !reader.sees(TokenKind::Reserved(ReservedWord::Name)) {
        return None;
    }
    reader.word(ReservedWord::Name);
    let name = reader.name();
    reader.symbol(Symbol::Colon);
    Some(name)
}

// { clause }
fn clauses(reader: &mut Reader) -> Clauses
    ensures { Goes estelle (rep (rule grammar.clause)) reader.old
        (nodes (map view.a_clause result)) reader.new }
{
    let mut items = Clauses::new(reader.alloc);
    while begins_clause(reader) {
        let next = clause(reader);
        reader.keep(&mut items, next);
    }
    items
}

// clause = "from" idents | "to" ( ident | "same" ) | "when" access "." ident
//     | "provided" ( "otherwise" | expr ) | "any" params "do" | "priority" constant
//     | "delay" "(" expr [ "," ( expr | "*" ) ] ")" .
fn clause(reader: &mut Reader) -> Clause
    ensures { Goes estelle (rule grammar.clause) reader.old
        (node (view.a_clause result)) reader.new }
{
    if reader.sees(TokenKind::Reserved(ReservedWord::To)) {
        return to_clause(reader);
    }
    if reader.sees(TokenKind::Reserved(ReservedWord::When)) {
        return when_clause(reader);
    }
    if reader.sees(TokenKind::Reserved(ReservedWord::Provided)) {
        return provided_clause(reader);
    }
    if reader.sees(TokenKind::Reserved(ReservedWord::Any)) {
        return any_clause(reader);
    }
    if reader.sees(TokenKind::Reserved(ReservedWord::Priority)) {
        return priority_clause(reader);
    }
    if reader.sees(TokenKind::Reserved(ReservedWord::Delay)) {
        return delay_clause(reader);
    }
    let place = reader.at;
    reader.word(ReservedWord::From);
    let states = idents(reader);
    Clause::From { states, place }
}

// "to" ( ident | "same" )
fn to_clause(reader: &mut Reader) -> Clause
    requires { Sees reader.old (kind (Reserved words.To)) true }
    ensures { Goes estelle (rule grammar.clause) reader.old
        (node (view.a_clause result)) reader.new }
{
    let place = reader.at;
    reader.word(ReservedWord::To);
    let state = next_state(reader);
    Clause::To { state, place }
}

// ident | "same"
fn next_state(reader: &mut Reader) -> Option<Used>
    ensures { Goes estelle grammar.next_state reader.old (view.next_state result) reader.new }
{
    if reader.sees(TokenKind::Reserved(ReservedWord::Same)) {
        reader.word(ReservedWord::Same);
        return None;
    }
    Some(reader.name())
}

// "when" access "." ident
fn when_clause(reader: &mut Reader) -> Clause
    requires { Sees reader.old (kind (Reserved words.When)) true }
    ensures { Goes estelle (rule grammar.clause) reader.old
        (node (view.a_clause result)) reader.new }
{
    let place = reader.at;
    reader.word(ReservedWord::When);
    let at = access(reader);
    reader.symbol(Symbol::Period);
    let signal = reader.name();
    Clause::When { at, signal, place }
}

// "provided" ( "otherwise" | expr )
fn provided_clause(reader: &mut Reader) -> Clause
    requires { Sees reader.old (kind (Reserved words.Provided)) true }
    ensures { Goes estelle (rule grammar.clause) reader.old
        (node (view.a_clause result)) reader.new }
{
    let place = reader.at;
    reader.word(ReservedWord::Provided);
    if reader.sees(TokenKind::Reserved(ReservedWord::Otherwise)) {
        reader.word(ReservedWord::Otherwise);
        return Clause::Otherwise { place };
    }
    let condition = expr(reader);
    match reader.boxed(condition) {
        Some(condition) => Clause::Provided { condition, place },
        None => Clause::Otherwise { place },
    }
}

// "any" params "do"
fn any_clause(reader: &mut Reader) -> Clause
    requires { Sees reader.old (kind (Reserved words.Any)) true }
    ensures { Goes estelle (rule grammar.clause) reader.old
        (node (view.a_clause result)) reader.new }
{
    let place = reader.at;
    reader.word(ReservedWord::Any);
    let names = params(reader);
    reader.word(ReservedWord::Do);
    Clause::Any { names, place }
}

// "priority" constant
fn priority_clause(reader: &mut Reader) -> Clause
    requires { Sees reader.old (kind (Reserved words.Priority)) true }
    ensures { Goes estelle (rule grammar.clause) reader.old
        (node (view.a_clause result)) reader.new }
{
    let place = reader.at;
    reader.word(ReservedWord::Priority);
    let value = constant(reader);
    Clause::Priority { value, place }
}

// "delay" "(" expr [ "," ( expr | "*" ) ] ")"
fn delay_clause(reader: &mut Reader) -> Clause
    requires { Sees reader.old (kind (Reserved words.Delay)) true }
    ensures { Goes estelle (rule grammar.clause) reader.old
        (node (view.a_clause result)) reader.new }
{
    let place = reader.at;
    reader.word(ReservedWord::Delay);
    reader.symbol(Symbol::LeftParenthesis);
    let least = expr(reader);
    let most = later_bound(reader);
    reader.symbol(Symbol::RightParenthesis);
    match reader.boxed(least) {
        Some(least) => Clause::Delay { least, most, place },
        None => {
            drop(most);
            Clause::Otherwise { place }
        }
    }
}

// [ "," ( expr | "*" ) ]
fn later_bound(reader: &mut Reader) -> Most
    ensures { Goes estelle grammar.later_bound reader.old (view.most result) reader.new }
{
    if !reader.sees(TokenKind::Symbol(Symbol::Comma)) {
        return Most::Same;
    }
    reader.symbol(Symbol::Comma);
    if reader.sees(TokenKind::Symbol(Symbol::Star)) {
        reader.symbol(Symbol::Star);
        return Most::Never;
    }
    let bound = expr(reader);
    match reader.boxed(bound) {
        Some(bound) => Most::Value(bound),
        None => Most::Never,
    }
}

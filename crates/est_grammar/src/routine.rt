//! Procedures and functions (ISO 7185, 6.6).

ghost use Rattle.std.specs.Prelude.{map};
ghost use Rattle.text_reader.specs.Grammar.{rule, skip, opt};
ghost use Rattle.text_reader.specs.Shown.{node, nodes, empty};
ghost use Rattle.est_lexer.specs.declared.kind.ReservedWord.TheVariants as words;
ghost use Rattle.text_reader.specs.Going.{Goes};
ghost use Rattle.text_reader.specs.Moving.{OneSeen};
ghost use Rattle.text_productions.specs.Productions as grammar;
ghost use Rattle.text_productions.specs.Nodes as view;
ghost use Rattle.text_productions.specs.Syntax.{estelle};
ghost use Rattle.text_productions.specs.Tokens.{function_tokens};

use crate::block::block;
use est_lexer::kind::{ReservedWord, Symbol, TokenKind};
use est_syntax::routine::{Formal, Formals, Routine};
use text_productions::names::idents;
use text_reader::Reader;

/// routine = "procedure" ident [ "(" formals ")" ] ";" block ";"
///     | [ "pure" ] "function" ident [ "(" formals ")" ] ":" ident ";" block ";" .
pub fn routine(reader: &mut Reader) -> Routine
    ensures { Goes estelle (rule grammar.routine) reader.old
        (node (view.a_routine result)) reader.new }
{
    if reader.sees(TokenKind::Reserved(ReservedWord::Pure)) {
        return function(reader);
    }
    if reader.sees(TokenKind::Reserved(ReservedWord::Function)) {
        return function(reader);
    }
    reader.word(ReservedWord::Procedure);
    let name = reader.name();
    let formals = formal_part(reader);
    reader.symbol(Symbol::Semicolon);
    let block = block(reader);
    reader.symbol(Symbol::Semicolon);
    Routine {
        name,
        formals,
        result: None,
        block,
    }
}

// [ "pure" ] "function" ident [ "(" formals ")" ] ":" ident ";" block ";"
fn function(reader: &mut Reader) -> Routine
    requires { OneSeen reader.old function_tokens }
    ensures { Goes estelle (rule grammar.routine) reader.old
        (node (view.a_routine result)) reader.new }
{
    pure_word(reader);
    reader.word(ReservedWord::Function);
    let name = reader.name();
    let formals = formal_part(reader);
    reader.symbol(Symbol::Colon);
    let result_type = reader.name();
    reader.symbol(Symbol::Semicolon);
    let block = block(reader);
    reader.symbol(Symbol::Semicolon);
    Routine {
        name,
        formals,
        result: Some(result_type),
        block,
    }
}

// [ "pure" ]
fn pure_word(reader: &mut Reader)
    ensures { Goes estelle (skip (opt (grammar.only words.Pure))) reader.old empty reader.new }
{
    if reader.sees(TokenKind::Reserved(ReservedWord::Pure)) {
        reader.word(ReservedWord::Pure);
    }
}

// [ "(" formals ")" ]
fn formal_part(reader: &mut Reader) -> Formals
    ensures { Goes estelle grammar.formal_part reader.old (view.formals result) reader.new }
{
    if !reader.sees(TokenKind::Symbol(Symbol::LeftParenthesis)) {
        return Formals::new(reader.alloc);
    }
    reader.symbol(Symbol::LeftParenthesis);
    let formals = formals(reader);
    reader.symbol(Symbol::RightParenthesis);
    formals
}

// formals = formal { ";" formal } .
fn formals(reader: &mut Reader) -> Formals
    ensures { Goes estelle grammar.formals reader.old
        (nodes (map view.a_formal result)) reader.new }
{
    let first = formal(reader);
    let mut items = Formals::new(reader.alloc);
    reader.keep(&mut items, first);
    while reader.sees(TokenKind::Symbol(Symbol::Semicolon)) {
        reader.symbol(Symbol::Semicolon);
        let next = formal(reader);
        reader.keep(&mut items, next);
    }
    items
}

// formal = [ "var" ] idents ":" ident .
fn formal(reader: &mut Reader) -> Formal
    ensures { Goes estelle (rule grammar.formal) reader.old
        (node (view.a_formal result)) reader.new }
{
    let by_place = by_place(reader);
    let names = idents(reader);
    reader.symbol(Symbol::Colon);
    let kind = reader.name();
    Formal {
        by_place,
        names,
        kind,
    }
}

// [ "var" ], and whether there is one
fn by_place(reader: &mut Reader) -> bool
    ensures { Goes estelle (opt (grammar.only words.Var)) reader.old
        (view.by_place result) reader.new }
{
    if !reader.sees(TokenKind::Reserved(ReservedWord::Var)) {
        return false;
    }
    reader.word(ReservedWord::Var);
    true
}

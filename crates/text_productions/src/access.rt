//! Interaction points and module variables that are named (ISO 9074), and arguments.

ghost use Rattle.text_reader.specs.Grammar.{rule, opt};
ghost use Rattle.text_reader.specs.Shown.{node};
ghost use Rattle.text_reader.specs.Going.{Goes};
ghost use Rattle.text_productions.specs.Productions as grammar;
ghost use Rattle.text_productions.specs.Nodes as view;
ghost use Rattle.text_productions.specs.Syntax.{estelle};

use crate::expression::{called, subscripts};
use est_lexer::kind::{Symbol, TokenKind};
use est_syntax::expression::{Access, EndPoint, Exprs};
use text_reader::Reader;

/// access = ident [ "[" exprs "]" ] .
pub fn access(reader: &mut Reader) -> Access
    ensures { Goes estelle (rule grammar.access) reader.old
        (node (view.an_access result)) reader.new }
{
    let name = reader.name();
    let index = subscripts_given(reader);
    Access { name, index }
}

// [ "[" exprs "]" ]
fn subscripts_given(reader: &mut Reader) -> Exprs
    ensures { Goes estelle (opt grammar.subscripts) reader.old
        (view.exprs_given result) reader.new }
{
    if reader.sees(TokenKind::Symbol(Symbol::LeftBracket)) {
        return subscripts(reader);
    }
    Exprs::new(reader.alloc)
}

/// [ "(" exprs ")" ]
pub fn arguments(reader: &mut Reader) -> Exprs
    ensures { Goes estelle grammar.arguments reader.old (view.exprs_given result) reader.new }
{
    if reader.sees(TokenKind::Symbol(Symbol::LeftParenthesis)) {
        return called(reader);
    }
    Exprs::new(reader.alloc)
}

/// end_point = access [ "." access ] .
pub fn end_point(reader: &mut Reader) -> EndPoint
    ensures { Goes estelle (rule grammar.end_point) reader.old
        (node (view.an_end_point result)) reader.new }
{
    let first = access(reader);
    let second = access_given(reader);
    EndPoint { first, second }
}

// [ "." access ]
fn access_given(reader: &mut Reader) -> Option<Access>
    ensures { Goes estelle grammar.access_given reader.old
        (view.access_given result) reader.new }
{
    if !reader.sees(TokenKind::Symbol(Symbol::Period)) {
        return None;
    }
    reader.symbol(Symbol::Period);
    Some(access(reader))
}

//! Specifications (ISO 9074, specification).

ghost use Rattle.std.specs.Prelude.{map};
ghost use Rattle.text_reader.specs.Grammar.{rule, rep, skip, opt};
ghost use Rattle.text_reader.specs.Shown.{node, nodes, empty, pair};
ghost use Rattle.est_lexer.specs.declared.kind.Symbol.TheVariants as symbols;
ghost use Rattle.est_syntax.specs.declared.statement.Statement.{out-Statement};
ghost use Rattle.text_reader.specs.Going.{Goes};
ghost use Rattle.text_productions.specs.Productions as grammar;
ghost use Rattle.text_productions.specs.Nodes as view;
ghost use Rattle.text_productions.specs.Syntax.{estelle};

use crate::body::{begins_common, common};
use crate::estelle_statement::init;
use est_lexer::kind::{ReservedWord, Symbol, TokenKind};
use est_syntax::body::Parts;
use est_syntax::header::Queue;
use est_syntax::name::Used;
use est_syntax::specification::Spec;
use est_syntax::statement::Statement;
use text_productions::header::queue;
use text_reader::Reader;

/// specification = "specification" ident ";" [ "default" queue ";" ] [ "timescale" ident ";" ]
///     { common } "initialize" "begin" init [ ";" ] "end" ";" "end" "." .
pub fn specification(reader: &mut Reader) -> Spec
    ensures { Goes estelle (rule grammar.specification) reader.old
        (node (view.a_specification result)) reader.new }
{
    reader.word(ReservedWord::Specification);
    let name = reader.name();
    reader.symbol(Symbol::Semicolon);
    let queue = default_queue(reader);
    let scale = time_scale(reader);
    let parts = commons(reader);
    let first = initialization(reader);
    Spec {
        name,
        queue,
        scale,
        parts,
        first,
    }
}

// [ "default" queue ";" ]
fn default_queue(reader: &mut Reader) -> Option<Queue>
    ensures { Goes estelle grammar.default_queue reader.old
        (view.default_queue result) reader.new }
{
    if !reader.sees(TokenKind::Reserved(ReservedWord::Default)) {
        return None;
    }
    reader.word(ReservedWord::Default);
    let queue = queue(reader);
    reader.symbol(Symbol::Semicolon);
    Some(queue)
}

// [ "timescale" ident ";" ]
fn time_scale(reader: &mut Reader) -> Option<Used>
    ensures { Goes estelle grammar.time_scale reader.old (view.time_scale result) reader.new }
{
    if !reader.sees(TokenKind::Reserved(ReservedWord::Timescale)) {
        return None;
    }
    reader.word(ReservedWord::Timescale);
    let scale = reader.name();
    reader.symbol(Symbol::Semicolon);
    Some(scale)
}

// { common }
fn commons(reader: &mut Reader) -> Parts
    ensures { Goes estelle (rep (rule grammar.common)) reader.old
        (nodes (map view.a_common_part result)) reader.new }
{
    let mut items = Parts::new(reader.alloc);
    while begins_common(reader) {
        let next = common(reader);
        reader.keep(&mut items, next);
    }
    items
}

// "initialize" "begin" init [ ";" ] "end" ";" "end" "."
fn initialization(reader: &mut Reader) -> Statement
    ensures { Goes estelle grammar.initialization reader.old
        (pair (view.first_statement (out-Statement result)) (pair empty empty)) reader.new }
{
    reader.word(ReservedWord::Initialize);
    reader.word(ReservedWord::Begin);
    let first = init(reader);
    after_semicolon(reader);
    reader.word(ReservedWord::End);
    reader.symbol(Symbol::Semicolon);
    reader.word(ReservedWord::End);
    reader.symbol(Symbol::Period);
    first
}

// [ ";" ]
fn after_semicolon(reader: &mut Reader)
    ensures { Goes estelle (skip (opt (grammar.mark symbols.Semicolon))) reader.old empty
        reader.new }
{
    if reader.sees(TokenKind::Symbol(Symbol::Semicolon)) {
        reader.symbol(Symbol::Semicolon);
    }
}

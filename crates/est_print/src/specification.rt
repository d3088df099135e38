//! Specifications (ISO 9074, specification).

ghost use Rattle.std.specs.Prelude.{map};
ghost use Rattle.text_reader.specs.Grammar.{rule, rep};
ghost use Rattle.text_reader.specs.Shown.{node, nodes, pair, empty};
ghost use Rattle.est_syntax.specs.declared.statement.Statement.{out-Statement};
ghost use Rattle.text_productions.specs.Productions as grammar;
ghost use Rattle.text_productions.specs.Nodes as view;
ghost use Rattle.text_printer.specs.Printing.{Prints};
ghost use Rattle.text_printer.specs.PlainNodes.{estelle};

use crate::body::common;
use crate::estelle_statement::init;
use est_lexer::kind::{ReservedWord, Symbol};
use est_syntax::body::Parts;
use est_syntax::header::Queue;
use est_syntax::name::Used;
use est_syntax::specification::Spec;
use est_syntax::statement::Statement;
use text_printer::Printer;
use text_printer::header::queue;

/// specification = "specification" ident ";" [ default_queue ] [ time_scale ] { common }
/// initialization .
pub fn specification(printer: &mut Printer, spec: &Spec)
    ensures { Prints estelle (rule grammar.specification) (node (view.a_specification spec.now))
        printer.old printer.new }
{
    printer.word(ReservedWord::Specification);
    printer.name(&spec.name);
    printer.symbol(Symbol::Semicolon);
    default_queue(printer, spec.queue);
    time_scale(printer, &spec.scale);
    commons(printer, &spec.parts);
    initialization(printer, &spec.first);
}

// [ "default" queue ";" ]
fn default_queue(printer: &mut Printer, given: Option<Queue>)
    ensures { Prints estelle grammar.default_queue (view.default_queue given)
        printer.old printer.new }
{
    match given {
        None => {}
        Some(kind) => {
            printer.word(ReservedWord::Default);
            queue(printer, kind);
            printer.symbol(Symbol::Semicolon);
        }
    }
}

// [ "timescale" ident ";" ]
fn time_scale(printer: &mut Printer, given: &Option<Used>)
    ensures { Prints estelle grammar.time_scale (view.time_scale given.now)
        printer.old printer.new }
{
    match given {
        None => {}
        Some(name) => {
            printer.word(ReservedWord::Timescale);
            printer.name(name);
            printer.symbol(Symbol::Semicolon);
        }
    }
}

// { common }
fn commons(printer: &mut Printer, items: &Parts)
    ensures { Prints estelle (rep (rule grammar.common))
        (nodes (map view.a_common_part items.now)) printer.old printer.new }
{
    for next in items.as_slice() {
        common(printer, next);
    }
}

// "initialize" "begin" init "end" ";" "end" "."
fn initialization(printer: &mut Printer, first: &Statement)
    ensures { Prints estelle grammar.initialization (pair (view.first_statement (out-Statement
        first.now)) (pair empty empty))
        printer.old printer.new }
{
    if let Statement::Init {
        target,
        body,
        arguments,
        ..
    } = first
    {
        printer.word(ReservedWord::Initialize);
        printer.word(ReservedWord::Begin);
        init(printer, target, body, arguments);
        printer.word(ReservedWord::End);
        printer.symbol(Symbol::Semicolon);
        printer.word(ReservedWord::End);
        printer.symbol(Symbol::Period);
    }
}

//! Interaction points and module variables that are named (ISO 9074), and arguments.

ghost use Rattle.text_reader.specs.Grammar.{rule};
ghost use Rattle.text_reader.specs.Shown.{node};
ghost use Rattle.text_productions.specs.Productions as grammar;
ghost use Rattle.text_productions.specs.Nodes as view;
ghost use Rattle.text_printer.specs.Printing.{Prints};
ghost use Rattle.text_printer.specs.PlainNodes.{estelle};

use crate::expression::{called, subscripts};
use crate::printer::Printer;
use est_lexer::kind::Symbol;
use est_syntax::expression::{Access, EndPoint, Exprs};

/// access = ident [ "[" exprs "]" ] .
pub fn access(printer: &mut Printer, named: &Access)
    ensures { Prints estelle (rule grammar.access) (node (view.an_access named.now))
        printer.old printer.new }
{
    printer.name(&named.name);
    if named.index.len() > 0 {
        subscripts(printer, &named.index);
    }
}

/// [ "(" exprs ")" ]
pub fn arguments(printer: &mut Printer, items: &Exprs)
    ensures { Prints estelle grammar.arguments (view.exprs_given items.now)
        printer.old printer.new }
{
    if items.len() > 0 {
        called(printer, items);
    }
}

/// end_point = access [ "." access ] .
pub fn end_point(printer: &mut Printer, end: &EndPoint)
    ensures { Prints estelle (rule grammar.end_point) (node (view.an_end_point end.now))
        printer.old printer.new }
{
    access(printer, &end.first);
    access_given(printer, &end.second);
}

// [ "." access ]
fn access_given(printer: &mut Printer, given: &Option<Access>)
    ensures { Prints estelle grammar.access_given (view.access_given given.now)
        printer.old printer.new }
{
    match given {
        None => {}
        Some(second) => {
            printer.symbol(Symbol::Period);
            access(printer, second);
        }
    }
}

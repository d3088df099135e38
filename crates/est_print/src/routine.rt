//! Procedures and functions (ISO 7185, 6.6).

ghost use Rattle.std.specs.Prelude.{map};
ghost use Rattle.text_reader.specs.Grammar.{rule, opt};
ghost use Rattle.text_reader.specs.Shown.{node, nodes};
ghost use Rattle.est_syntax.specs.declared.routine.Routine.{out-Routine};
ghost use Rattle.est_lexer.specs.declared.kind.ReservedWord.TheVariants as words;
ghost use Rattle.text_productions.specs.Productions as grammar;
ghost use Rattle.text_productions.specs.Nodes as view;
ghost use Rattle.text_printer.specs.Printing.{Prints};
ghost use Rattle.text_printer.specs.PlainNodes.{estelle};

use crate::block::block;
use est_lexer::kind::{ReservedWord, Symbol};
use est_syntax::name::Used;
use est_syntax::routine::{Formal, Formals, Routine};
use text_printer::Printer;
use text_printer::names::idents;

/// routine = procedure | function .
pub fn routine(printer: &mut Printer, declared: &Routine)
    ensures { Prints estelle (rule grammar.routine) (node (view.a_routine declared.now))
        printer.old printer.new }
{
    match &declared.result {
        None => procedure(printer, declared),
        Some(result) => function(printer, declared, result),
    }
}

// "procedure" ident [ "(" formals ")" ] ";" block ";"
fn procedure(printer: &mut Printer, declared: &Routine)
    ensures { Prints estelle (rule grammar.routine) (view.routine_of (out-Routine
        declared.now).name (out-Routine declared.now).formals None (out-Routine
        declared.now).block)
        printer.old printer.new }
{
    printer.word(ReservedWord::Procedure);
    printer.name(&declared.name);
    formal_part(printer, &declared.formals);
    printer.symbol(Symbol::Semicolon);
    block(printer, &declared.block);
    printer.symbol(Symbol::Semicolon);
}

// "function" ident [ "(" formals ")" ] ":" ident ";" block ";"
fn function(printer: &mut Printer, declared: &Routine, result_type: &Used)
    ensures { Prints estelle (rule grammar.routine) (view.routine_of (out-Routine
        declared.now).name (out-Routine declared.now).formals (Some result_type.now) (out-Routine
        declared.now).block)
        printer.old printer.new }
{
    printer.word(ReservedWord::Function);
    printer.name(&declared.name);
    formal_part(printer, &declared.formals);
    printer.symbol(Symbol::Colon);
    printer.name(result_type);
    printer.symbol(Symbol::Semicolon);
    block(printer, &declared.block);
    printer.symbol(Symbol::Semicolon);
}

// [ "(" formals ")" ]
fn formal_part(printer: &mut Printer, items: &Formals)
    ensures { Prints estelle grammar.formal_part (view.formals items.now)
        printer.old printer.new }
{
    if items.len() > 0 {
        printer.symbol(Symbol::LeftParenthesis);
        formals(printer, items);
        printer.symbol(Symbol::RightParenthesis);
    }
}

// formals = formal { ";" formal } .
fn formals(printer: &mut Printer, items: &Formals)
    ensures { Prints estelle grammar.formals
        (nodes (map view.a_formal items.now)) printer.old printer.new }
{
    if let Some((first, rest)) = items.as_slice().split_first() {
        formal(printer, first);
        for next in rest {
            printer.symbol(Symbol::Semicolon);
            formal(printer, next);
        }
    }
}

// formal = [ "var" ] idents ":" ident .
fn formal(printer: &mut Printer, declared: &Formal)
    ensures { Prints estelle (rule grammar.formal) (node (view.a_formal declared.now))
        printer.old printer.new }
{
    by_place(printer, declared.by_place);
    idents(printer, &declared.names);
    printer.symbol(Symbol::Colon);
    printer.name(&declared.kind);
}

// [ "var" ]
fn by_place(printer: &mut Printer, given: bool)
    ensures { Prints estelle (opt (grammar.only words.Var)) (view.by_place given)
        printer.old printer.new }
{
    if given {
        printer.word(ReservedWord::Var);
    }
}

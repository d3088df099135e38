//! Module bodies and the parts that declare (ISO 9074, module-body-definition).

ghost use Rattle.std.specs.Prelude.{map};
ghost use Rattle.text_reader.specs.Grammar.{rule, rep};
ghost use Rattle.text_reader.specs.Shown.{node, nodes};
ghost use Rattle.est_syntax.specs.declared.body.Part.{out-Part};
ghost use Rattle.text_productions.specs.Productions as grammar;
ghost use Rattle.text_productions.specs.Nodes as view;
ghost use Rattle.text_printer.specs.Printing.{Prints};
ghost use Rattle.text_printer.specs.PlainNodes.{estelle};

use crate::block::block;
use crate::routine::routine;
use crate::transition::transpart;
use est_lexer::kind::{ReservedWord, Symbol};
use est_syntax::body::{Body, FirstPart, Part, Parts};
use est_syntax::name::Used;
use est_syntax::transition::Groups;
use text_printer::Printer;
use text_printer::channel::channel;
use text_printer::declaration::{consts, types, vars};
use text_printer::header::{header, modvars, points};
use text_printer::names::idents;
use text_printer::stateset::statesets;

/// common = consts | types | channel | header | body | routine | modvars .
#[cycle(body)]
pub fn common(printer: &mut Printer, part: &Part)
    ensures { Prints estelle (rule grammar.common) (view.common_part (out-Part part.now))
        printer.old printer.new }
{
    match part {
        Part::Consts(items) => consts(printer, items),
        Part::Types(items) => types(printer, items),
        Part::Channel(declared) => channel(printer, declared),
        Part::Header(declared) => header(printer, declared),
        Part::Body(declared) => body(printer, declared),
        Part::Routine(declared) => routine(printer, declared),
        Part::Modvars(items) => modvars(printer, items),
        _ => {}
    }
}

// own = points | vars | "state" idents ";" | statesets .
fn own(printer: &mut Printer, part: &Part)
    ensures { Prints estelle (rule grammar.own) (view.own_part (out-Part part.now))
        printer.old printer.new }
{
    match part {
        Part::Points(items) => points(printer, items),
        Part::Vars(items) => vars(printer, items),
        Part::States(names) => {
            printer.word(ReservedWord::State);
            idents(printer, names);
            printer.symbol(Symbol::Semicolon);
        }
        Part::StateSets(items) => statesets(printer, items),
        _ => {}
    }
}

// body = "body" ident "for" ident ";" { common | own } [ first_part ] { transpart } "end" ";" .
#[cycle(body)]
fn body(printer: &mut Printer, declared: &Body)
    ensures { Prints estelle (rule grammar.body) (node (view.a_body declared.now))
        printer.old printer.new }
{
    printer.word(ReservedWord::Body);
    printer.name(&declared.name);
    printer.word(ReservedWord::For);
    printer.name(&declared.header);
    printer.symbol(Symbol::Semicolon);
    body_parts(printer, &declared.parts);
    first_part(printer, &declared.first);
    transparts(printer, &declared.groups);
    printer.word(ReservedWord::End);
    printer.symbol(Symbol::Semicolon);
}

// { common | own }
#[cycle(body)]
fn body_parts(printer: &mut Printer, items: &Parts)
    ensures { Prints estelle (rep grammar.body_part)
        (nodes (map view.a_body_part items.now)) printer.old printer.new }
{
    for next in items.as_slice() {
        body_part(printer, next);
    }
}

// common | own
#[cycle(body)]
fn body_part(printer: &mut Printer, part: &Part)
    ensures { Prints estelle grammar.body_part (node (view.a_body_part part.now))
        printer.old printer.new }
{
    match part {
        Part::Points(_) => own(printer, part),
        Part::Vars(_) => own(printer, part),
        Part::States(_) => own(printer, part),
        Part::StateSets(_) => own(printer, part),
        Part::Consts(_) => common(printer, part),
        Part::Types(_) => common(printer, part),
        Part::Channel(_) => common(printer, part),
        Part::Header(_) => common(printer, part),
        Part::Body(_) => common(printer, part),
        Part::Routine(_) => common(printer, part),
        Part::Modvars(_) => common(printer, part),
    }
}

// [ "initialize" [ "to" ident ] block ";" ]
fn first_part(printer: &mut Printer, given: &Option<FirstPart>)
    ensures { Prints estelle grammar.first_part (view.first_part given.now)
        printer.old printer.new }
{
    match given {
        None => {}
        Some(first) => {
            printer.word(ReservedWord::Initialize);
            first_state(printer, &first.to);
            block(printer, &first.block);
            printer.symbol(Symbol::Semicolon);
        }
    }
}

// [ "to" ident ]
fn first_state(printer: &mut Printer, given: &Option<Used>)
    ensures { Prints estelle grammar.first_state (view.name_given given.now)
        printer.old printer.new }
{
    match given {
        None => {}
        Some(state) => {
            printer.word(ReservedWord::To);
            printer.name(state);
        }
    }
}

// { transpart }
fn transparts(printer: &mut Printer, items: &Groups)
    ensures { Prints estelle (rep (rule grammar.transpart))
        (nodes (map view.a_group items.now)) printer.old printer.new }
{
    for next in items.as_slice() {
        transpart(printer, next);
    }
}

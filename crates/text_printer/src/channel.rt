//! Channels (ISO 9074, channel-definition).

ghost use Rattle.std.specs.Prelude.{map};
ghost use Rattle.text_reader.specs.Grammar.{rule};
ghost use Rattle.text_reader.specs.Shown.{node, nodes, pair, given, empty};
ghost use Rattle.text_reader.specs.Going.{used};
ghost use Rattle.text_productions.specs.Productions as grammar;
ghost use Rattle.text_productions.specs.Nodes as view;
ghost use Rattle.text_printer.specs.Printing.{Prints};
ghost use Rattle.text_printer.specs.PlainNodes.{estelle};

use crate::declaration::parameters;
use crate::printer::Printer;
use est_lexer::kind::{ReservedWord, Symbol};
use est_syntax::channel::{ByPart, ByParts, Channel, InteractionDef, Interactions};
use est_syntax::name::Used;

/// channel = "channel" ident "(" ident "," ident ")" ";" by { by } .
pub fn channel(printer: &mut Printer, declared: &Channel)
    ensures { Prints estelle (rule grammar.channel) (node (view.a_channel declared.now))
        printer.old printer.new }
{
    let roles = declared.roles.as_slice();
    if roles.len() == 2 {
        channel_of(printer, declared, &roles[0], &roles[1]);
    }
}

// "channel" ident "(" ident "," ident ")" ";" by { by }
fn channel_of(printer: &mut Printer, declared: &Channel, one: &Used, other: &Used)
    ensures { Prints estelle (rule grammar.channel)
        (pair (used declared.now.name) (pair (used one.now) (pair (used other.now)
        (nodes (map view.a_by_part declared.now.by))))) printer.old printer.new }
{
    printer.word(ReservedWord::Channel);
    printer.name(&declared.name);
    printer.symbol(Symbol::LeftParenthesis);
    printer.name(one);
    printer.symbol(Symbol::Comma);
    printer.name(other);
    printer.symbol(Symbol::RightParenthesis);
    printer.symbol(Symbol::Semicolon);
    by_parts(printer, &declared.by);
}

// by { by }
fn by_parts(printer: &mut Printer, items: &ByParts)
    ensures { Prints estelle (grammar.several (rule grammar.by_part))
        (nodes (map view.a_by_part items.now)) printer.old printer.new }
{
    for next in items.as_slice() {
        by_part(printer, next);
    }
}

// by_part = "by" ident [ "," ident ] ":" interaction { interaction } .
fn by_part(printer: &mut Printer, part: &ByPart)
    ensures { Prints estelle (rule grammar.by_part) (node (view.a_by_part part.now))
        printer.old printer.new }
{
    let roles = part.roles.as_slice();
    if roles.len() == 1 {
        by_one(printer, &roles[0], &part.interactions);
    } else if roles.len() == 2 {
        by_both(printer, &roles[0], &roles[1], &part.interactions);
    }
}

// "by" ident ":" interaction { interaction }
fn by_one(printer: &mut Printer, one: &Used, items: &Interactions)
    ensures { Prints estelle (rule grammar.by_part)
        (pair (used one.now) (pair empty (nodes (map view.an_interaction items.now))))
        printer.old printer.new }
{
    printer.word(ReservedWord::By);
    printer.name(one);
    printer.symbol(Symbol::Colon);
    interactions(printer, items);
}

// "by" ident "," ident ":" interaction { interaction }
fn by_both(printer: &mut Printer, one: &Used, other: &Used, items: &Interactions)
    ensures { Prints estelle (rule grammar.by_part) (pair (used one.now)
        (pair (given (used other.now)) (nodes (map view.an_interaction items.now))))
        printer.old printer.new }
{
    printer.word(ReservedWord::By);
    printer.name(one);
    printer.symbol(Symbol::Comma);
    printer.name(other);
    printer.symbol(Symbol::Colon);
    interactions(printer, items);
}

// interaction { interaction }
fn interactions(printer: &mut Printer, items: &Interactions)
    ensures { Prints estelle (grammar.several (rule grammar.interaction))
        (nodes (map view.an_interaction items.now)) printer.old printer.new }
{
    for next in items.as_slice() {
        interaction(printer, next);
    }
}

// interaction = ident [ "(" params ")" ] ";" .
fn interaction(printer: &mut Printer, declared: &InteractionDef)
    ensures { Prints estelle (rule grammar.interaction) (node (view.an_interaction declared.now))
        printer.old printer.new }
{
    printer.name(&declared.name);
    parameters(printer, &declared.params);
    printer.symbol(Symbol::Semicolon);
}

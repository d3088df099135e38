//! Sets of states (ISO 9074, state-set-definition).

ghost use Rattle.std.specs.Prelude.{map};
ghost use Rattle.text_reader.specs.Grammar.{rule};
ghost use Rattle.text_reader.specs.Shown.{node, nodes};
ghost use Rattle.text_productions.specs.Productions as grammar;
ghost use Rattle.text_productions.specs.Nodes as view;
ghost use Rattle.text_printer.specs.Printing.{Prints};
ghost use Rattle.text_printer.specs.PlainNodes.{estelle};

use crate::names::idents;
use crate::printer::Printer;
use est_lexer::kind::{ReservedWord, Symbol};
use est_syntax::body::{StateSet, StateSets};

/// "stateset" stateset { stateset }
pub fn statesets(printer: &mut Printer, items: &StateSets)
    ensures { Prints estelle grammar.statesets (nodes (map view.a_state_set items.now))
        printer.old printer.new }
{
    printer.word(ReservedWord::Stateset);
    several_statesets(printer, items);
}

// stateset { stateset }
fn several_statesets(printer: &mut Printer, items: &StateSets)
    ensures { Prints estelle (grammar.several (rule grammar.stateset))
        (nodes (map view.a_state_set items.now)) printer.old printer.new }
{
    for next in items.as_slice() {
        stateset(printer, next);
    }
}

// stateset = ident "=" "[" idents "]" ";" .
fn stateset(printer: &mut Printer, declared: &StateSet)
    ensures { Prints estelle (rule grammar.stateset) (node (view.a_state_set declared.now))
        printer.old printer.new }
{
    printer.name(&declared.name);
    printer.symbol(Symbol::Equal);
    printer.symbol(Symbol::LeftBracket);
    idents(printer, &declared.states);
    printer.symbol(Symbol::RightBracket);
    printer.symbol(Symbol::Semicolon);
}

//! Lists of names.

ghost use Rattle.std.specs.Prelude.{map};
ghost use Rattle.text_reader.specs.Shown.{nodes};
ghost use Rattle.text_productions.specs.Productions as grammar;
ghost use Rattle.text_productions.specs.Nodes as view;
ghost use Rattle.text_printer.specs.Printing.{Prints};
ghost use Rattle.text_printer.specs.PlainNodes.{estelle};

use crate::printer::Printer;
use est_lexer::kind::Symbol;
use est_syntax::name::UsedNames;

/// idents = ident { "," ident } .
pub fn idents(printer: &mut Printer, items: &UsedNames)
    ensures { Prints estelle grammar.idents
        (nodes (map view.a_use items.now)) printer.old printer.new }
{
    if let Some((first, rest)) = items.as_slice().split_first() {
        printer.name(first);
        for next in rest {
            printer.symbol(Symbol::Comma);
            printer.name(next);
        }
    }
}

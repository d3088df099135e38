//! Blocks (ISO 7185, 6.2).

ghost use Rattle.std.specs.Prelude.{map};
ghost use Rattle.text_reader.specs.Grammar.{rule, rep};
ghost use Rattle.text_reader.specs.Shown.{node, nodes};
ghost use Rattle.text_productions.specs.Productions as grammar;
ghost use Rattle.text_productions.specs.Nodes as view;
ghost use Rattle.text_printer.specs.Printing.{Prints};
ghost use Rattle.text_printer.specs.PlainNodes.{estelle};

use crate::statement::statements;
use est_lexer::kind::ReservedWord;
use est_syntax::body::{Block, Part, Parts};
use text_printer::Printer;
use text_printer::declaration::{consts, types, vars};

/// block = { consts | types | vars } "begin" statements "end" .
pub fn block(printer: &mut Printer, declared: &Block)
    ensures { Prints estelle (rule grammar.block) (node (view.a_block declared.now))
        printer.old printer.new }
{
    block_parts(printer, &declared.parts);
    printer.word(ReservedWord::Begin);
    statements(printer, &declared.statements);
    printer.word(ReservedWord::End);
}

// { consts | types | vars }
fn block_parts(printer: &mut Printer, items: &Parts)
    ensures { Prints estelle (rep grammar.block_part)
        (nodes (map view.a_block_part items.now)) printer.old printer.new }
{
    for next in items.as_slice() {
        block_part(printer, next);
    }
}

// consts | types | vars
fn block_part(printer: &mut Printer, part: &Part)
    ensures { Prints estelle grammar.block_part (node (view.a_block_part part.now))
        printer.old printer.new }
{
    match part {
        Part::Consts(items) => consts(printer, items),
        Part::Types(items) => types(printer, items),
        Part::Vars(items) => vars(printer, items),
        _ => {}
    }
}

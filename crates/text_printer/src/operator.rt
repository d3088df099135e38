//! The operators of expressions (ISO 7185, 6.7.2).

ghost use Rattle.text_productions.specs.Productions as grammar;
ghost use Rattle.text_productions.specs.Nodes as view;
ghost use Rattle.text_printer.specs.Printing.{Prints};
ghost use Rattle.text_printer.specs.PlainNodes.{estelle};

use crate::printer::Printer;
use est_lexer::kind::{ReservedWord, Symbol};
use est_syntax::expression::Operator;

/// "=" | "<>" | "<" | "<=" | ">" | ">=" | "in"
pub fn relational_operator(printer: &mut Printer, operator: Operator)
    ensures { Prints estelle grammar.relational_operator (view.relational_operator operator)
        printer.old printer.new }
{
    match operator {
        Operator::Equal => printer.symbol(Symbol::Equal),
        Operator::Unequal => printer.symbol(Symbol::Unequal),
        Operator::Below => printer.symbol(Symbol::Below),
        Operator::AtMost => printer.symbol(Symbol::AtMost),
        Operator::Above => printer.symbol(Symbol::Above),
        Operator::AtLeast => printer.symbol(Symbol::AtLeast),
        Operator::Within => printer.word(ReservedWord::In),
        _ => {}
    }
}

/// "+" | "-" | "or"
pub fn adding_operator(printer: &mut Printer, operator: Operator)
    ensures { Prints estelle grammar.adding_operator (view.adding_operator operator)
        printer.old printer.new }
{
    match operator {
        Operator::Plus => printer.symbol(Symbol::Plus),
        Operator::Minus => printer.symbol(Symbol::Minus),
        Operator::Or => printer.word(ReservedWord::Or),
        _ => {}
    }
}

/// "*" | "div" | "mod" | "and"
pub fn multiplying_operator(printer: &mut Printer, operator: Operator)
    ensures { Prints estelle grammar.multiplying_operator (view.multiplying_operator operator)
        printer.old printer.new }
{
    match operator {
        Operator::Times => printer.symbol(Symbol::Star),
        Operator::Div => printer.word(ReservedWord::Div),
        Operator::Mod => printer.word(ReservedWord::Mod),
        Operator::And => printer.word(ReservedWord::And),
        _ => {}
    }
}

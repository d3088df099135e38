//! Constants (ISO 7185, 6.3).

ghost use Rattle.std.specs.Prelude.{ℕ};
ghost use Rattle.text_reader.specs.Grammar.{rule};
ghost use Rattle.text_reader.specs.Shown.{node, pair, first, second, kept};
ghost use Rattle.text_reader.specs.Tests as kinds;
ghost use Rattle.text_reader.specs.Going.{used};
ghost use Rattle.est_syntax.specs.declared.constant.Constant.TheVariants as constants;
ghost use Rattle.text_productions.specs.Productions as grammar;
ghost use Rattle.text_productions.specs.Nodes as view;
ghost use Rattle.text_printer.specs.Printing.{Prints};
ghost use Rattle.text_printer.specs.PlainNodes.{estelle};

use crate::printer::Printer;
use est_lexer::kind::Symbol;
use est_syntax::constant::{Constant, Sign};
use est_syntax::name::Used;

/// constant = [ "+" | "-" ] ( number | ident ) | character .
pub fn constant(printer: &mut Printer, value: &Constant)
    ensures { Prints estelle (rule grammar.constant) (node (view.a_constant value.now))
        printer.old printer.new }
{
    match value {
        Constant::Named { sign, name, .. } => named(printer, *sign, name),
        Constant::Number { sign, number, .. } => numeral(printer, *sign, *number),
        Constant::Character { code, .. } => printer.character(*code),
    }
}

/// A constant that is no bare name.
pub fn unnamed(printer: &mut Printer, value: &Constant)
    ensures { Prints estelle grammar.unnamed (view.unnamed value.now) printer.old printer.new }
{
    match value {
        Constant::Named { sign, name, .. } => unnamed_name(printer, *sign, name),
        Constant::Number { sign, number, .. } => numeral(printer, *sign, *number),
        Constant::Character { code, .. } => printer.character(*code),
    }
}

// [ "+" | "-" ] ident, wherever it stands
fn named(printer: &mut Printer, sign: Option<Sign>, name: &Used)
    ensures { (place : ℕ) → Prints estelle (rule grammar.constant)
        (view.constant (constants.Named sign name.now place)) printer.old printer.new }
{
    match sign {
        None => printer.name(name),
        Some(sign) => signed_name(printer, sign, name),
    }
}

// ( "+" | "-" ) ident, wherever it stands
fn unnamed_name(printer: &mut Printer, sign: Option<Sign>, name: &Used)
    ensures { (place : ℕ) → Prints estelle grammar.unnamed
        (view.unnamed (constants.Named sign name.now place)) printer.old printer.new }
{
    match sign {
        None => {}
        Some(sign) => signed_name(printer, sign, name),
    }
}

// [ "+" | "-" ] number, wherever it stands
fn numeral(printer: &mut Printer, sign: Option<Sign>, number: u64)
    ensures { (place : ℕ) → Prints estelle grammar.unnamed
        (view.unnamed (constants.Number sign number place)) printer.old printer.new }
{
    match sign {
        None => printer.number(number),
        Some(sign) => signed_number(printer, sign, number),
    }
}

/// ( "+" | "-" ) ident
pub fn signed_name(printer: &mut Printer, sign: Sign, name: &Used)
    ensures { Prints estelle grammar.signed
        (pair (view.written_sign sign) (second (used name.now))) printer.old printer.new }
{
    plus_or_minus(printer, sign);
    printer.name(name);
}

// ( "+" | "-" ) number
fn signed_number(printer: &mut Printer, sign: Sign, number: u64)
    ensures { Prints estelle grammar.signed
        (pair (view.written_sign sign) (first (kept (kinds.value number))))
        printer.old printer.new }
{
    plus_or_minus(printer, sign);
    printer.number(number);
}

/// "+" | "-"
pub fn plus_or_minus(printer: &mut Printer, sign: Sign)
    ensures { Prints estelle grammar.plus_or_minus (view.written_sign sign)
        printer.old printer.new }
{
    match sign {
        Sign::Plus => printer.symbol(Symbol::Plus),
        Sign::Minus => printer.symbol(Symbol::Minus),
    }
}

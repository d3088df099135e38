//! Types (ISO 7185, 6.4).

ghost use Rattle.std.specs.Prelude.{ℕ, map, Some};
ghost use Rattle.text_reader.specs.Grammar.{rule};
ghost use Rattle.text_reader.specs.Shown.{node, nodes, pair, first, second, given, at, empty};
ghost use Rattle.text_reader.specs.Going.{used};
ghost use Rattle.est_syntax.specs.declared.type_text.TypeText.{out-TypeText};
ghost use Rattle.est_syntax.specs.declared.constant.Constant.TheVariants as constants;
ghost use Rattle.text_productions.specs.Productions as grammar;
ghost use Rattle.text_productions.specs.Nodes as view;
ghost use Rattle.text_printer.specs.Printing.{Prints, Begins, PrintsClosed};
ghost use Rattle.text_printer.specs.PlainNodes.{estelle};

use crate::constant::{constant, signed_name, unnamed};
use crate::names::idents;
use crate::printer::Printer;
use est_lexer::kind::{ReservedWord, Symbol};
use est_syntax::constant::{Constant, Sign};
use est_syntax::name::{Used, UsedNames};
use est_syntax::type_text::{TypeText, TypeTexts, VarDef, VarDefs};

/// shorttype = ident | constant ".." constant .
pub fn shorttype(printer: &mut Printer, text: &TypeText)
    ensures { Prints estelle (rule grammar.shorttype) (view.short_type (out-TypeText text.now))
        printer.old printer.new }
{
    match text {
        TypeText::Named(name) => printer.name(name),
        TypeText::Range { low, high } => range(printer, low, high),
        _ => {}
    }
}

// constant ".." constant
fn range(printer: &mut Printer, low: &Constant, high: &Constant)
    ensures { Prints estelle (rule grammar.shorttype) (view.range low.now high.now)
        printer.old printer.new }
{
    match low {
        Constant::Named { sign, name, .. } => named_low(printer, *sign, name, high),
        Constant::Number { .. } => unnamed_range(printer, low, high),
        Constant::Character { .. } => unnamed_range(printer, low, high),
    }
}

// [ "+" | "-" ] ident ".." constant, wherever it stands
fn named_low(printer: &mut Printer, sign: Option<Sign>, low: &Used, high: &Constant)
    ensures { (place : ℕ) → Prints estelle (rule grammar.shorttype)
        (view.range (constants.Named sign low.now place) high.now) printer.old printer.new }
{
    match sign {
        None => named_range(printer, low, high),
        Some(sign) => signed_range(printer, sign, low, high),
    }
}

// ident ".." constant, wherever it stands
fn named_range(printer: &mut Printer, low: &Used, high: &Constant)
    ensures { (place : ℕ) → Prints estelle (rule grammar.shorttype)
        (second (at place (pair (used low.now) (given (node (view.a_constant high.now))))))
        printer.old printer.new }
{
    printer.name(low);
    printer.symbol(Symbol::DoublePeriod);
    constant(printer, high);
}

// ( "+" | "-" ) ident ".." constant, wherever it stands
fn signed_range(printer: &mut Printer, sign: Sign, low: &Used, high: &Constant)
    ensures { (place : ℕ) → Prints estelle (rule grammar.shorttype)
        (first (pair (view.unnamed (constants.Named (Some sign) low.now place))
        (node (view.a_constant high.now)))) printer.old printer.new }
{
    signed_name(printer, sign, low);
    printer.symbol(Symbol::DoublePeriod);
    constant(printer, high);
}

// constant ".." constant, of which the first is no bare name
fn unnamed_range(printer: &mut Printer, low: &Constant, high: &Constant)
    ensures { Prints estelle (rule grammar.shorttype)
        (first (pair (view.unnamed low.now) (node (view.a_constant high.now))))
        printer.old printer.new }
{
    unnamed(printer, low);
    printer.symbol(Symbol::DoublePeriod);
    constant(printer, high);
}

/// typetext = shorttype | "(" idents ")" | arraytype | recordtype | settype .
#[cycle(type_text)]
pub fn typetext(printer: &mut Printer, text: &TypeText)
    ensures { Prints estelle (rule grammar.typetext) (node (view.a_type text.now))
        printer.old printer.new }
{
    match text {
        TypeText::Names { names, place } => enumeration(printer, names, *place),
        TypeText::Array { index, of, .. } => {
            printer.word(ReservedWord::Array);
            printer.symbol(Symbol::LeftBracket);
            typetexts(printer, index);
            printer.symbol(Symbol::RightBracket);
            printer.word(ReservedWord::Of);
            typetext(printer, of.get());
        }
        TypeText::Fields { fields, .. } => recordtype(printer, fields),
        TypeText::Set { of, .. } => settype(printer, of.get()),
        TypeText::Named(_) => shorttype(printer, text),
        TypeText::Range { .. } => shorttype(printer, text),
    }
}

// "(" idents ")"
fn enumeration(printer: &mut Printer, names: &UsedNames, place: u32)
    ensures { Prints estelle grammar.enumeration (at place (pair (view.names names.now) empty))
        printer.old printer.new }
{
    printer.symbol(Symbol::LeftParenthesis);
    idents(printer, names);
    printer.symbol(Symbol::RightParenthesis);
}

// typetext { "," typetext }
#[cycle(type_text)]
fn typetexts(printer: &mut Printer, items: &TypeTexts)
    ensures { Prints estelle (grammar.listed (rule grammar.typetext))
        (nodes (map view.a_type items.now)) printer.old printer.new }
{
    if let Some((first, rest)) = items.as_slice().split_first() {
        typetext(printer, first);
        for next in rest {
            printer.symbol(Symbol::Comma);
            typetext(printer, next);
        }
    }
}

// "record" field { ";" field } "end"
#[cycle(type_text)]
fn recordtype(printer: &mut Printer, items: &VarDefs)
    ensures { Begins estelle (rule grammar.recordtype) (pair (nodes (map view.a_field items.now))
        empty)
        printer.old printer.new }
{
    printer.word(ReservedWord::Record);
    fields(printer, items);
    printer.word(ReservedWord::End);
}

// field { ";" field }
#[cycle(type_text)]
fn fields(printer: &mut Printer, items: &VarDefs)
    ensures { PrintsClosed estelle grammar.fields (nodes (map view.a_field items.now))
        (nodes (map view.a_field items.now)) printer.old printer.new }
{
    if let Some((first, rest)) = items.as_slice().split_first() {
        field(printer, first);
        for next in rest {
            printer.symbol(Symbol::Semicolon);
            field(printer, next);
        }
    }
}

// idents ":" typetext
#[cycle(type_text)]
fn field(printer: &mut Printer, declared: &VarDef)
    ensures { Prints estelle grammar.field (node (view.a_field declared.now))
        printer.old printer.new }
{
    idents(printer, &declared.names);
    printer.symbol(Symbol::Colon);
    typetext(printer, &declared.text);
}

// "set" "of" typetext
#[cycle(type_text)]
fn settype(printer: &mut Printer, of: &TypeText)
    ensures { Begins estelle (rule grammar.settype) (node (view.a_type of.now))
        printer.old printer.new }
{
    printer.word(ReservedWord::Set);
    printer.word(ReservedWord::Of);
    typetext(printer, of);
}

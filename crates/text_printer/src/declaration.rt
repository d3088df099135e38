//! Declarations of constants, types, variables and parameters (ISO 7185, 6.3 to 6.5).

ghost use Rattle.std.specs.Prelude.{map};
ghost use Rattle.text_reader.specs.Grammar.{rule};
ghost use Rattle.text_reader.specs.Shown.{node, nodes};
ghost use Rattle.text_productions.specs.Productions as grammar;
ghost use Rattle.text_productions.specs.Nodes as view;
ghost use Rattle.text_printer.specs.Printing.{Prints};
ghost use Rattle.text_printer.specs.PlainNodes.{estelle};

use crate::constant::constant;
use crate::names::idents;
use crate::printer::Printer;
use crate::type_text::{shorttype, typetext};
use est_lexer::kind::{ReservedWord, Symbol};
use est_syntax::constant::{ConstDef, ConstDefs};
use est_syntax::type_text::{TypeDef, TypeDefs, VarDef, VarDefs};

/// consts = "const" constdef { constdef } .
pub fn consts(printer: &mut Printer, items: &ConstDefs)
    ensures { Prints estelle (rule grammar.consts) (nodes (map view.a_constant_definition
        items.now))
        printer.old printer.new }
{
    printer.word(ReservedWord::Const);
    constdefs(printer, items);
}

// constdef { constdef }
fn constdefs(printer: &mut Printer, items: &ConstDefs)
    ensures { Prints estelle (grammar.several (rule grammar.constdef))
        (nodes (map view.a_constant_definition items.now)) printer.old printer.new }
{
    for next in items.as_slice() {
        constdef(printer, next);
    }
}

// constdef = ident "=" constant ";" .
fn constdef(printer: &mut Printer, declared: &ConstDef)
    ensures { Prints estelle (rule grammar.constdef) (node (view.a_constant_definition
        declared.now))
        printer.old printer.new }
{
    printer.name(&declared.name);
    printer.symbol(Symbol::Equal);
    constant(printer, &declared.value);
    printer.symbol(Symbol::Semicolon);
}

/// types = "type" typedef { typedef } .
pub fn types(printer: &mut Printer, items: &TypeDefs)
    ensures { Prints estelle (rule grammar.types) (nodes (map view.a_type_definition items.now))
        printer.old printer.new }
{
    printer.word(ReservedWord::Type);
    typedefs(printer, items);
}

// typedef { typedef }
fn typedefs(printer: &mut Printer, items: &TypeDefs)
    ensures { Prints estelle (grammar.several (rule grammar.typedef))
        (nodes (map view.a_type_definition items.now)) printer.old printer.new }
{
    for next in items.as_slice() {
        typedef(printer, next);
    }
}

// typedef = ident "=" typetext ";" .
fn typedef(printer: &mut Printer, declared: &TypeDef)
    ensures { Prints estelle (rule grammar.typedef) (node (view.a_type_definition declared.now))
        printer.old printer.new }
{
    printer.name(&declared.name);
    printer.symbol(Symbol::Equal);
    typetext(printer, &declared.text);
    printer.symbol(Symbol::Semicolon);
}

/// vars = "var" vardef { vardef } .
pub fn vars(printer: &mut Printer, items: &VarDefs)
    ensures { Prints estelle (rule grammar.vars) (nodes (map view.a_variable items.now))
        printer.old printer.new }
{
    printer.word(ReservedWord::Var);
    vardefs(printer, items);
}

// vardef { vardef }
fn vardefs(printer: &mut Printer, items: &VarDefs)
    ensures { Prints estelle (grammar.several (rule grammar.vardef))
        (nodes (map view.a_variable items.now)) printer.old printer.new }
{
    for next in items.as_slice() {
        vardef(printer, next);
    }
}

// vardef = idents ":" typetext ";" .
fn vardef(printer: &mut Printer, declared: &VarDef)
    ensures { Prints estelle (rule grammar.vardef) (node (view.a_variable declared.now))
        printer.old printer.new }
{
    idents(printer, &declared.names);
    printer.symbol(Symbol::Colon);
    typetext(printer, &declared.text);
    printer.symbol(Symbol::Semicolon);
}

/// [ "(" params ")" ]
pub fn parameters(printer: &mut Printer, items: &VarDefs)
    ensures { Prints estelle grammar.parameters (view.parameters items.now)
        printer.old printer.new }
{
    if items.len() > 0 {
        printer.symbol(Symbol::LeftParenthesis);
        params(printer, items);
        printer.symbol(Symbol::RightParenthesis);
    }
}

/// params = idents ":" shorttype { ";" idents ":" shorttype } .
pub fn params(printer: &mut Printer, items: &VarDefs)
    ensures { Prints estelle grammar.params
        (nodes (map view.a_parameter items.now)) printer.old printer.new }
{
    if let Some((first, rest)) = items.as_slice().split_first() {
        param(printer, first);
        for next in rest {
            printer.symbol(Symbol::Semicolon);
            param(printer, next);
        }
    }
}

// idents ":" shorttype
fn param(printer: &mut Printer, declared: &VarDef)
    ensures { Prints estelle (rule grammar.param) (node (view.a_parameter declared.now))
        printer.old printer.new }
{
    idents(printer, &declared.names);
    printer.symbol(Symbol::Colon);
    shorttype(printer, &declared.text);
}

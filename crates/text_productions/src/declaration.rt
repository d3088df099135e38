//! Declarations of constants, types, variables and parameters (ISO 7185, 6.3 to 6.5).

ghost use Rattle.std.specs.Prelude.{map};
ghost use Rattle.text_reader.specs.Grammar.{rule};
ghost use Rattle.text_reader.specs.Shown.{node, nodes};
ghost use Rattle.text_reader.specs.Going.{Goes};
ghost use Rattle.text_productions.specs.Productions as grammar;
ghost use Rattle.text_productions.specs.Nodes as view;
ghost use Rattle.text_productions.specs.Syntax.{estelle};

use crate::constant::constant;
use crate::names::idents;
use crate::type_text::{shorttype, typetext};
use est_lexer::kind::{ReservedWord, Symbol, TokenKind};
use est_syntax::constant::{ConstDef, ConstDefs};
use est_syntax::type_text::{TypeDef, TypeDefs, VarDef, VarDefs};
use text_reader::Reader;

/// consts = "const" constdef { constdef } .
pub fn consts(reader: &mut Reader) -> ConstDefs
    ensures { Goes estelle (rule grammar.consts) reader.old
        (nodes (map view.a_constant_definition result)) reader.new }
{
    reader.word(ReservedWord::Const);
    constdefs(reader)
}

// constdef { constdef }
fn constdefs(reader: &mut Reader) -> ConstDefs
    ensures { Goes estelle (grammar.several (rule grammar.constdef)) reader.old
        (nodes (map view.a_constant_definition result)) reader.new }
{
    let first = constdef(reader);
    let mut items = ConstDefs::new(reader.alloc);
    reader.keep(&mut items, first);
    while reader.sees(TokenKind::Identifier) {
        let next = constdef(reader);
        reader.keep(&mut items, next);
    }
    items
}

// constdef = ident "=" constant ";" .
fn constdef(reader: &mut Reader) -> ConstDef
    ensures { Goes estelle (rule grammar.constdef) reader.old
        (node (view.a_constant_definition result)) reader.new }
{
    let name = reader.name();
    reader.symbol(Symbol::Equal);
    let value = constant(reader);
    reader.symbol(Symbol::Semicolon);
    ConstDef { name, value }
}

/// types = "type" typedef { typedef } .
pub fn types(reader: &mut Reader) -> TypeDefs
    ensures { Goes estelle (rule grammar.types) reader.old
        (nodes (map view.a_type_definition result)) reader.new }
{
    reader.word(ReservedWord::Type);
    typedefs(reader)
}

// typedef { typedef }
fn typedefs(reader: &mut Reader) -> TypeDefs
    ensures { Goes estelle (grammar.several (rule grammar.typedef)) reader.old
        (nodes (map view.a_type_definition result)) reader.new }
{
    let first = typedef(reader);
    let mut items = TypeDefs::new(reader.alloc);
    reader.keep(&mut items, first);
    while reader.sees(TokenKind::Identifier) {
        let next = typedef(reader);
        reader.keep(&mut items, next);
    }
    items
}

// typedef = ident "=" typetext ";" .
fn typedef(reader: &mut Reader) -> TypeDef
    ensures { Goes estelle (rule grammar.typedef) reader.old
        (node (view.a_type_definition result)) reader.new }
{
    let name = reader.name();
    reader.symbol(Symbol::Equal);
    let text = typetext(reader);
    reader.symbol(Symbol::Semicolon);
    TypeDef { name, text }
}

/// vars = "var" vardef { vardef } .
pub fn vars(reader: &mut Reader) -> VarDefs
    ensures { Goes estelle (rule grammar.vars) reader.old
        (nodes (map view.a_variable result)) reader.new }
{
    reader.word(ReservedWord::Var);
    vardefs(reader)
}

// vardef { vardef }
fn vardefs(reader: &mut Reader) -> VarDefs
    ensures { Goes estelle (grammar.several (rule grammar.vardef)) reader.old
        (nodes (map view.a_variable result)) reader.new }
{
    let first = vardef(reader);
    let mut items = VarDefs::new(reader.alloc);
    reader.keep(&mut items, first);
    while reader.sees(TokenKind::Identifier) {
        let next = vardef(reader);
        reader.keep(&mut items, next);
    }
    items
}

// vardef = idents ":" typetext ";" .
fn vardef(reader: &mut Reader) -> VarDef
    ensures { Goes estelle (rule grammar.vardef) reader.old
        (node (view.a_variable result)) reader.new }
{
    let names = idents(reader);
    reader.symbol(Symbol::Colon);
    let text = typetext(reader);
    reader.symbol(Symbol::Semicolon);
    VarDef { names, text }
}

/// [ "(" params ")" ]
pub fn parameters(reader: &mut Reader) -> VarDefs
    ensures { Goes estelle grammar.parameters reader.old (view.parameters result) reader.new }
{
    if !reader.sees(TokenKind::Symbol(Symbol::LeftParenthesis)) {
        return VarDefs::new(reader.alloc);
    }
    reader.symbol(Symbol::LeftParenthesis);
    let params = params(reader);
    reader.symbol(Symbol::RightParenthesis);
    params
}

/// params = idents ":" shorttype { ";" idents ":" shorttype } .
pub fn params(reader: &mut Reader) -> VarDefs
    ensures { Goes estelle grammar.params reader.old
        (nodes (map view.a_parameter result)) reader.new }
{
    let first = param(reader);
    let mut items = VarDefs::new(reader.alloc);
    reader.keep(&mut items, first);
    while reader.sees(TokenKind::Symbol(Symbol::Semicolon)) {
        reader.symbol(Symbol::Semicolon);
        let next = param(reader);
        reader.keep(&mut items, next);
    }
    items
}

// idents ":" shorttype
fn param(reader: &mut Reader) -> VarDef
    ensures { Goes estelle (rule grammar.param) reader.old
        (node (view.a_parameter result)) reader.new }
{
    let names = idents(reader);
    reader.symbol(Symbol::Colon);
    let text = shorttype(reader);
    VarDef { names, text }
}

//! Types (ISO 7185, 6.4).

ghost use Rattle.std.specs.Prelude.{true, [], ◌∷◌, map};
ghost use Rattle.text_reader.specs.Grammar.{rule, skip, opt};
ghost use Rattle.text_reader.specs.Shown.{node, nodes, empty, second};
ghost use Rattle.est_lexer.specs.declared.kind.ReservedWord.TheVariants as words;
ghost use Rattle.est_lexer.specs.declared.kind.Symbol.TheVariants as symbols;
ghost use Rattle.est_lexer.specs.declared.kind.TokenKind.TheVariants.{Identifier, Reserved};
ghost use Rattle.est_lexer.specs.declared.kind.TokenKind.TheVariants as token;
ghost use Rattle.est_syntax.specs.declared.type_text.TypeText.{out-TypeText};
ghost use Rattle.text_reader.specs.Going.{Goes};
ghost use Rattle.text_reader.specs.Moving.{Sees, OneSeen, SeesOne};
ghost use Rattle.text_reader.specs.Tests.{kind};
ghost use Rattle.text_productions.specs.Productions as grammar;
ghost use Rattle.text_productions.specs.Nodes as view;
ghost use Rattle.text_productions.specs.inside.Structures.{Structured};
ghost use Rattle.text_productions.specs.Tokens.{structure_words};
ghost use Rattle.text_productions.specs.Syntax.{estelle};

use crate::constant::{constant, unnamed};
use crate::names::idents;
use est_lexer::kind::{ReservedWord, Symbol, TokenKind};
use est_syntax::constant::Constant;
use est_syntax::name::UsedNames;
use est_syntax::type_text::{TypeText, TypeTexts, VarDef, VarDefs};
use text_reader::Reader;

/// shorttype = ident | constant ".." constant .
pub fn shorttype(reader: &mut Reader) -> TypeText
    ensures { Goes estelle (rule grammar.shorttype) reader.old
        (view.short_type (out-TypeText result)) reader.new }
{
    if reader.sees(TokenKind::Identifier) {
        return named_type(reader);
    }
    let low = unnamed(reader);
    reader.symbol(Symbol::DoublePeriod);
    let high = constant(reader);
    TypeText::Range { low, high }
}

// ident [ ".." constant ]
fn named_type(reader: &mut Reader) -> TypeText
    requires { Sees reader.old (kind Identifier) true }
    ensures { Goes estelle (rule grammar.shorttype) reader.old
        (view.short_type (out-TypeText result)) reader.new }
{
    let place = reader.at;
    let name = reader.name();
    if !reader.sees(TokenKind::Symbol(Symbol::DoublePeriod)) {
        return TypeText::Named(name);
    }
    reader.symbol(Symbol::DoublePeriod);
    let high = constant(reader);
    let low = Constant::Named {
        sign: None,
        name,
        place,
    };
    TypeText::Range { low, high }
}

/// typetext = shorttype | "(" idents ")" | [ "packed" ] ( arraytype | recordtype | settype ) .
#[cycle(type_text)]
pub fn typetext(reader: &mut Reader) -> TypeText
    ensures { Goes estelle (rule grammar.typetext) reader.old
        (node (view.a_type result)) reader.new }
{
    if reader.sees(TokenKind::Symbol(Symbol::LeftParenthesis)) {
        return enumeration(reader);
    }
    if begins_structure(reader) {
        return structured(reader);
    }
    shorttype(reader)
}

// Whether "packed", "array", "record" or "set" comes next.
fn begins_structure(reader: &Reader) -> bool
    ensures { SeesOne reader.now structure_words result }
{
    if reader.sees(TokenKind::Reserved(ReservedWord::Packed)) {
        return true;
    }
    if reader.sees(TokenKind::Reserved(ReservedWord::Array)) {
        return true;
    }
    if reader.sees(TokenKind::Reserved(ReservedWord::Record)) {
        return true;
    }
    reader.sees(TokenKind::Reserved(ReservedWord::Set))
}

// "(" idents ")"
fn enumeration(reader: &mut Reader) -> TypeText
    requires { Sees reader.old (kind (token.Symbol symbols.LeftParenthesis)) true }
    ensures { Goes estelle (rule grammar.typetext) reader.old
        (node (view.a_type result)) reader.new }
{
    let place = reader.at;
    reader.symbol(Symbol::LeftParenthesis);
    let names = idents(reader);
    reader.symbol(Symbol::RightParenthesis);
    TypeText::Names { names, place }
}

// [ "packed" ] ( arraytype | recordtype | settype )
#[cycle(type_text)]
fn structured(reader: &mut Reader) -> TypeText
    requires { OneSeen reader.old structure_words }
    ensures { Goes estelle (rule grammar.typetext) reader.old
        (node (view.a_type result)) reader.new }
{
    let place = reader.at;
    packed(reader);
    structure(reader, place)
}

// [ "packed" ]
fn packed(reader: &mut Reader)
    ensures { Goes estelle grammar.packed reader.old empty reader.new }
{
    if reader.sees(TokenKind::Reserved(ReservedWord::Packed)) {
        reader.word(ReservedWord::Packed);
    }
}

// arraytype | recordtype | settype, whose first token has this place
#[cycle(type_text)]
fn structure(reader: &mut Reader, place: u32) -> TypeText
    ensures { Structured place reader.old result reader.new }
{
    if reader.sees(TokenKind::Reserved(ReservedWord::Array)) {
        return arraytype(reader, place);
    }
    if reader.sees(TokenKind::Reserved(ReservedWord::Record)) {
        return recordtype(reader, place);
    }
    if reader.sees(TokenKind::Reserved(ReservedWord::Set)) {
        return settype(reader, place);
    }
    reader.word(ReservedWord::Array);
    no_type(reader, place)
}

// What stands for a type where the reading is over.
fn no_type(reader: &Reader, place: u32) -> TypeText {
    TypeText::Names {
        names: UsedNames::new(reader.alloc),
        place,
    }
}

// "array" "[" typetext { "," typetext } "]" "of" typetext
#[cycle(type_text)]
fn arraytype(reader: &mut Reader, place: u32) -> TypeText
    requires { Sees reader.old (kind (Reserved words.Array)) true }
    ensures { Structured place reader.old result reader.new }
{
    let levels = reader.open(TokenKind::Reserved(ReservedWord::Array));
    reader.symbol(Symbol::LeftBracket);
    let index = typetexts(reader);
    reader.symbol(Symbol::RightBracket);
    reader.word(ReservedWord::Of);
    let of = typetext(reader);
    reader.close(levels);
    match reader.boxed(of) {
        Some(of) => TypeText::Array { index, of, place },
        None => no_type(reader, place),
    }
}

// typetext { "," typetext }
#[cycle(type_text)]
fn typetexts(reader: &mut Reader) -> TypeTexts
    ensures { Goes estelle (grammar.listed (rule grammar.typetext)) reader.old
        (nodes (map view.a_type result)) reader.new }
{
    let first = typetext(reader);
    let mut items = TypeTexts::new(reader.alloc);
    reader.keep(&mut items, first);
    while reader.sees(TokenKind::Symbol(Symbol::Comma)) {
        reader.symbol(Symbol::Comma);
        let next = typetext(reader);
        reader.keep(&mut items, next);
    }
    items
}

// "record" fields [ ";" ] "end"
#[cycle(type_text)]
fn recordtype(reader: &mut Reader, place: u32) -> TypeText
    requires { Sees reader.old (kind (Reserved words.Record)) true }
    ensures { Structured place reader.old result reader.new }
{
    let levels = reader.open(TokenKind::Reserved(ReservedWord::Record));
    let fields = fields(reader);
    reader.word(ReservedWord::End);
    reader.close(levels);
    TypeText::Fields { fields, place }
}

// field { ";" field } [ ";" ]
#[cycle(type_text)]
fn fields(reader: &mut Reader) -> VarDefs
    ensures { Goes estelle grammar.fields reader.old (nodes (map view.a_field result)) reader.new }
{
    let first = field(reader);
    let mut items = VarDefs::new(reader.alloc);
    reader.keep(&mut items, first);
    while reader.sees(TokenKind::Symbol(Symbol::Semicolon)) {
        reader.symbol(Symbol::Semicolon);
        if !reader.sees(TokenKind::Identifier) {
            return items;
        }
        let next = field(reader);
        reader.keep(&mut items, next);
    }
    items
}

// idents ":" typetext
#[cycle(type_text)]
fn field(reader: &mut Reader) -> VarDef
    ensures { Goes estelle grammar.field reader.old (node (view.a_field result)) reader.new }
{
    let names = idents(reader);
    reader.symbol(Symbol::Colon);
    let text = typetext(reader);
    VarDef { names, text }
}

// "set" "of" typetext
#[cycle(type_text)]
fn settype(reader: &mut Reader, place: u32) -> TypeText
    requires { Sees reader.old (kind (Reserved words.Set)) true }
    ensures { Structured place reader.old result reader.new }
{
    let levels = reader.open(TokenKind::Reserved(ReservedWord::Set));
    reader.word(ReservedWord::Of);
    let of = typetext(reader);
    reader.close(levels);
    match reader.boxed(of) {
        Some(of) => TypeText::Set { of, place },
        None => no_type(reader, place),
    }
}

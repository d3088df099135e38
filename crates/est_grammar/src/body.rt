//! Module bodies and the parts that declare (ISO 9074, module-body-definition).

ghost use Rattle.std.specs.Prelude.{true, map};
ghost use Rattle.text_reader.specs.Grammar.{rule, rep};
ghost use Rattle.text_reader.specs.Shown.{node, nodes};
ghost use Rattle.est_lexer.specs.declared.kind.ReservedWord.TheVariants as words;
ghost use Rattle.est_lexer.specs.declared.kind.TokenKind.TheVariants.{Reserved};
ghost use Rattle.est_syntax.specs.declared.body.Part.{out-Part};
ghost use Rattle.text_reader.specs.Going.{Goes};
ghost use Rattle.text_reader.specs.Moving.{Sees, SeesOne};
ghost use Rattle.text_reader.specs.Tests.{kind};
ghost use Rattle.text_productions.specs.Productions as grammar;
ghost use Rattle.text_productions.specs.Nodes as view;
ghost use Rattle.text_productions.specs.Syntax.{estelle};
ghost use Rattle.text_productions.specs.Tokens.{body_part_tokens, common_tokens};
ghost use Rattle.text_productions.specs.Tokens.{own_tokens, routine_tokens};

use crate::block::block;
use crate::routine::routine;
use crate::transition::transpart;
use est_lexer::kind::{ReservedWord, Symbol, TokenKind};
use est_syntax::body::{Body, FirstPart, Part, Parts};
use est_syntax::name::Used;
use est_syntax::transition::Groups;
use text_productions::channel::channel;
use text_productions::declaration::{consts, types, vars};
use text_productions::header::{header, modvars, points};
use text_productions::names::idents;
use text_productions::stateset::statesets;
use text_reader::Reader;

/// common = consts | types | channel | header | body | routine | "modvar" modvar { modvar } .
#[cycle(body)]
pub fn common(reader: &mut Reader) -> Part
    ensures { Goes estelle (rule grammar.common) reader.old
        (view.common_part (out-Part result)) reader.new }
{
    if reader.sees(TokenKind::Reserved(ReservedWord::Type)) {
        return Part::Types(types(reader));
    }
    if reader.sees(TokenKind::Reserved(ReservedWord::Channel)) {
        return Part::Channel(channel(reader));
    }
    if reader.sees(TokenKind::Reserved(ReservedWord::Module)) {
        return Part::Header(header(reader));
    }
    if reader.sees(TokenKind::Reserved(ReservedWord::Body)) {
        return Part::Body(body(reader));
    }
    if reader.sees(TokenKind::Reserved(ReservedWord::Modvar)) {
        return Part::Modvars(modvars(reader));
    }
    if begins_routine(reader) {
        return Part::Routine(routine(reader));
    }
    Part::Consts(consts(reader))
}

// Whether a routine comes next.
fn begins_routine(reader: &Reader) -> bool
    ensures { SeesOne reader.now routine_tokens result }
{
    if reader.sees(TokenKind::Reserved(ReservedWord::Procedure)) {
        return true;
    }
    if reader.sees(TokenKind::Reserved(ReservedWord::Pure)) {
        return true;
    }
    reader.sees(TokenKind::Reserved(ReservedWord::Function))
}

/// Whether a part of a specification comes next.
pub fn begins_common(reader: &Reader) -> bool
    ensures { SeesOne reader.now common_tokens result }
{
    if reader.sees(TokenKind::Reserved(ReservedWord::Const)) {
        return true;
    }
    if reader.sees(TokenKind::Reserved(ReservedWord::Type)) {
        return true;
    }
    if reader.sees(TokenKind::Reserved(ReservedWord::Channel)) {
        return true;
    }
    if reader.sees(TokenKind::Reserved(ReservedWord::Module)) {
        return true;
    }
    if reader.sees(TokenKind::Reserved(ReservedWord::Body)) {
        return true;
    }
    if reader.sees(TokenKind::Reserved(ReservedWord::Modvar)) {
        return true;
    }
    begins_routine(reader)
}

// own = "ip" point { point } | vars | "state" idents ";" | "stateset" stateset { stateset } .
fn own(reader: &mut Reader) -> Part
    ensures { Goes estelle (rule grammar.own) reader.old
        (view.own_part (out-Part result)) reader.new }
{
    if reader.sees(TokenKind::Reserved(ReservedWord::Var)) {
        return Part::Vars(vars(reader));
    }
    if reader.sees(TokenKind::Reserved(ReservedWord::State)) {
        reader.word(ReservedWord::State);
        let names = idents(reader);
        reader.symbol(Symbol::Semicolon);
        return Part::States(names);
    }
    if reader.sees(TokenKind::Reserved(ReservedWord::Stateset)) {
        return Part::StateSets(statesets(reader));
    }
    Part::Points(points(reader))
}

// Whether a part that bodies alone have comes next.
fn begins_own(reader: &Reader) -> bool
    ensures { SeesOne reader.now own_tokens result }
{
    if reader.sees(TokenKind::Reserved(ReservedWord::Ip)) {
        return true;
    }
    if reader.sees(TokenKind::Reserved(ReservedWord::Var)) {
        return true;
    }
    if reader.sees(TokenKind::Reserved(ReservedWord::State)) {
        return true;
    }
    reader.sees(TokenKind::Reserved(ReservedWord::Stateset))
}

// body = "body" ident "for" ident ";" { common | own }
//     [ "initialize" [ "to" ident ] block ";" ] { transpart } "end" ";" .
#[cycle(body)]
fn body(reader: &mut Reader) -> Body
    requires { Sees reader.old (kind (Reserved words.Body)) true }
    ensures { Goes estelle (rule grammar.body) reader.old (node (view.a_body result)) reader.new }
{
    let levels = reader.open(TokenKind::Reserved(ReservedWord::Body));
    let name = reader.name();
    reader.word(ReservedWord::For);
    let header = reader.name();
    reader.symbol(Symbol::Semicolon);
    let parts = body_parts(reader);
    let first = first_part(reader);
    let groups = transparts(reader);
    reader.word(ReservedWord::End);
    reader.symbol(Symbol::Semicolon);
    reader.close(levels);
    Body {
        name,
        header,
        parts,
        first,
        groups,
    }
}

// { common | own }
#[cycle(body)]
fn body_parts(reader: &mut Reader) -> Parts
    ensures { Goes estelle (rep grammar.body_part) reader.old
        (nodes (map view.a_body_part result)) reader.new }
{
    let mut items = Parts::new(reader.alloc);
    while begins_body_part(reader) {
        let next = body_part(reader);
        reader.keep(&mut items, next);
    }
    items
}

// Whether a part of a body comes next.
fn begins_body_part(reader: &Reader) -> bool
    ensures { SeesOne reader.now body_part_tokens result }
{
    if begins_own(reader) {
        return true;
    }
    begins_common(reader)
}

// common | own
#[cycle(body)]
fn body_part(reader: &mut Reader) -> Part
    ensures { Goes estelle grammar.body_part reader.old
        (node (view.a_body_part result)) reader.new }
{
    if begins_own(reader) {
        return own(reader);
    }
    common(reader)
}

// [ "initialize" [ "to" ident ] block ";" ]
fn first_part(reader: &mut Reader) -> Option<FirstPart>
    ensures { Goes estelle grammar.first_part reader.old (view.first_part result) reader.new }
{
    if !reader.sees(TokenKind::Reserved(ReservedWord::Initialize)) {
        return None;
    }
    reader.word(ReservedWord::Initialize);
    let to = first_state(reader);
    let block = block(reader);
    reader.symbol(Symbol::Semicolon);
    Some(FirstPart { to, block })
}

// [ "to" ident ]
fn first_state(reader: &mut Reader) -> Option<Used>
    ensures { Goes estelle grammar.first_state reader.old (view.name_given result) reader.new }
{
    if !reader.sees(TokenKind::Reserved(ReservedWord::To)) {
        return None;
    }
    reader.word(ReservedWord::To);
    Some(reader.name())
}

// { transpart }
fn transparts(reader: &mut Reader) -> Groups
    ensures { Goes estelle (rep (rule grammar.transpart)) reader.old
        (nodes (map view.a_group result)) reader.new }
{
    let mut items = Groups::new(reader.alloc);
    while reader.sees(TokenKind::Reserved(ReservedWord::Trans)) {
        let next = transpart(reader);
        reader.keep(&mut items, next);
    }
    items
}

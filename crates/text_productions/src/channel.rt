//! Channels (ISO 9074, channel-definition).

ghost use Rattle.std.specs.Prelude.{◌≡◌, [], ◌∷◌, map};
ghost use Rattle.text_reader.specs.Grammar.{rule};
ghost use Rattle.text_reader.specs.Shown.{node, nodes};
ghost use Rattle.text_reader.specs.Going.{Goes};
ghost use Rattle.text_productions.specs.Productions as grammar;
ghost use Rattle.text_productions.specs.Nodes as view;
ghost use Rattle.text_productions.specs.Syntax.{estelle};

use crate::declaration::parameters;
use est_lexer::kind::{ReservedWord, Symbol, TokenKind};
use est_syntax::channel::{ByPart, ByParts, Channel, InteractionDef, Interactions};
use est_syntax::name::{Used, UsedNames};
use text_reader::Reader;

/// channel = "channel" ident "(" ident "," ident ")" ";" by { by } .
pub fn channel(reader: &mut Reader) -> Channel
    ensures { Goes estelle (rule grammar.channel) reader.old
        (node (view.a_channel result)) reader.new }
{
    reader.word(ReservedWord::Channel);
    let name = reader.name();
    reader.symbol(Symbol::LeftParenthesis);
    let first = reader.name();
    reader.symbol(Symbol::Comma);
    let second = reader.name();
    reader.symbol(Symbol::RightParenthesis);
    reader.symbol(Symbol::Semicolon);
    let by = by_parts(reader);
    let mut roles = UsedNames::new(reader.alloc);
    reader.keep(&mut roles, first);
    reader.keep(&mut roles, second);
    Channel { name, roles, by }
}

// by { by }
fn by_parts(reader: &mut Reader) -> ByParts
    ensures { Goes estelle (grammar.several (rule grammar.by_part)) reader.old
        (nodes (map view.a_by_part result)) reader.new }
{
    let first = by_part(reader);
    let mut items = ByParts::new(reader.alloc);
    reader.keep(&mut items, first);
    while reader.sees(TokenKind::Reserved(ReservedWord::By)) {
        let next = by_part(reader);
        reader.keep(&mut items, next);
    }
    items
}

// by_part = "by" ident [ "," ident ] ":" interaction { interaction } .
fn by_part(reader: &mut Reader) -> ByPart
    ensures { Goes estelle (rule grammar.by_part) reader.old
        (node (view.a_by_part result)) reader.new }
{
    reader.word(ReservedWord::By);
    let first = reader.name();
    let second = other_role(reader);
    reader.symbol(Symbol::Colon);
    let interactions = interactions(reader);
    let mut roles = UsedNames::new(reader.alloc);
    reader.keep(&mut roles, first);
    reader.keep_some(&mut roles, second);
    ByPart {
        roles,
        interactions,
    }
}

// [ "," ident ]
fn other_role(reader: &mut Reader) -> Option<Used>
    ensures { Goes estelle grammar.other_role reader.old (view.name_given result) reader.new }
{
    if !reader.sees(TokenKind::Symbol(Symbol::Comma)) {
        return None;
    }
    reader.symbol(Symbol::Comma);
    Some(reader.name())
}

// interaction { interaction }
fn interactions(reader: &mut Reader) -> Interactions
    ensures { Goes estelle (grammar.several (rule grammar.interaction)) reader.old
        (nodes (map view.an_interaction result)) reader.new }
{
    let first = interaction(reader);
    let mut items = Interactions::new(reader.alloc);
    reader.keep(&mut items, first);
    while reader.sees(TokenKind::Identifier) {
        let next = interaction(reader);
        reader.keep(&mut items, next);
    }
    items
}

// interaction = ident [ "(" params ")" ] ";" .
fn interaction(reader: &mut Reader) -> InteractionDef
    ensures { Goes estelle (rule grammar.interaction) reader.old
        (node (view.an_interaction result)) reader.new }
{
    let name = reader.name();
    let params = parameters(reader);
    reader.symbol(Symbol::Semicolon);
    InteractionDef { name, params }
}

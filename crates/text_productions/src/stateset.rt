//! Sets of states (ISO 9074, state-set-definition).

ghost use Rattle.std.specs.Prelude.{map};
ghost use Rattle.text_reader.specs.Grammar.{rule};
ghost use Rattle.text_reader.specs.Shown.{node, nodes};
ghost use Rattle.text_reader.specs.Going.{Goes};
ghost use Rattle.text_productions.specs.Productions as grammar;
ghost use Rattle.text_productions.specs.Nodes as view;
ghost use Rattle.text_productions.specs.Syntax.{estelle};

use crate::names::idents;
use est_lexer::kind::{ReservedWord, Symbol, TokenKind};
use est_syntax::body::{StateSet, StateSets};
use text_reader::Reader;

/// "stateset" stateset { stateset }
pub fn statesets(reader: &mut Reader) -> StateSets
    ensures { Goes estelle grammar.statesets reader.old
        (nodes (map view.a_state_set result)) reader.new }
{
    reader.word(ReservedWord::Stateset);
    several_statesets(reader)
}

// stateset { stateset }
fn several_statesets(reader: &mut Reader) -> StateSets
    ensures { Goes estelle (grammar.several (rule grammar.stateset)) reader.old
        (nodes (map view.a_state_set result)) reader.new }
{
    let first = stateset(reader);
    let mut items = StateSets::new(reader.alloc);
    reader.keep(&mut items, first);
    while reader.sees(TokenKind::Identifier) {
        let next = stateset(reader);
        reader.keep(&mut items, next);
    }
    items
}

// stateset = ident "=" "[" idents "]" ";" .
fn stateset(reader: &mut Reader) -> StateSet
    ensures { Goes estelle (rule grammar.stateset) reader.old
        (node (view.a_state_set result)) reader.new }
{
    let name = reader.name();
    reader.symbol(Symbol::Equal);
    reader.symbol(Symbol::LeftBracket);
    let states = idents(reader);
    reader.symbol(Symbol::RightBracket);
    reader.symbol(Symbol::Semicolon);
    StateSet { name, states }
}

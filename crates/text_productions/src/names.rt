//! Names.

ghost use Rattle.text_reader.specs.Going.{Goes};
ghost use Rattle.text_productions.specs.Productions as grammar;
ghost use Rattle.text_productions.specs.Nodes as view;
ghost use Rattle.text_productions.specs.Syntax.{estelle};

use est_lexer::kind::{Symbol, TokenKind};
use est_syntax::name::UsedNames;
use text_reader::Reader;

/// idents = ident { "," ident } .
pub fn idents(reader: &mut Reader) -> UsedNames
    ensures { Goes estelle grammar.idents reader.old (view.names result) reader.new }
{
    let first = reader.name();
    let mut items = UsedNames::new(reader.alloc);
    reader.keep(&mut items, first);
    while reader.sees(TokenKind::Symbol(Symbol::Comma)) {
        reader.symbol(Symbol::Comma);
        let next = reader.name();
        reader.keep(&mut items, next);
    }
    items
}

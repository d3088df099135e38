//! Blocks (ISO 7185, 6.2).

ghost use Rattle.std.specs.Prelude.{map};
ghost use Rattle.text_reader.specs.Grammar.{rule, rep};
ghost use Rattle.text_reader.specs.Shown.{node, nodes};
ghost use Rattle.text_reader.specs.Going.{Goes};
ghost use Rattle.text_reader.specs.Moving.{SeesOne};
ghost use Rattle.text_productions.specs.Productions as grammar;
ghost use Rattle.text_productions.specs.Nodes as view;
ghost use Rattle.text_productions.specs.Syntax.{estelle};
ghost use Rattle.text_productions.specs.Tokens.{block_part_tokens};

use crate::statement::statements;
use est_lexer::kind::{ReservedWord, TokenKind};
use est_syntax::body::{Block, Part, Parts};
use text_productions::declaration::{consts, types, vars};
use text_reader::Reader;

/// block = { consts | types | vars } "begin" statements "end" .
pub fn block(reader: &mut Reader) -> Block
    ensures { Goes estelle (rule grammar.block) reader.old
        (node (view.a_block result)) reader.new }
{
    let parts = block_parts(reader);
    let place = reader.at;
    reader.word(ReservedWord::Begin);
    let statements = statements(reader);
    reader.word(ReservedWord::End);
    Block {
        parts,
        statements,
        place,
    }
}

// { consts | types | vars }
fn block_parts(reader: &mut Reader) -> Parts
    ensures { Goes estelle (rep grammar.block_part) reader.old
        (nodes (map view.a_block_part result)) reader.new }
{
    let mut items = Parts::new(reader.alloc);
    while begins_block_part(reader) {
        let next = block_part(reader);
        reader.keep(&mut items, next);
    }
    items
}

// Whether "const", "type" or "var" comes next.
fn begins_block_part(reader: &Reader) -> bool
    ensures { SeesOne reader.now block_part_tokens result }
{
    if reader.sees(TokenKind::Reserved(ReservedWord::Const)) {
        return true;
    }
    if reader.sees(TokenKind::Reserved(ReservedWord::Type)) {
        return true;
    }
    reader.sees(TokenKind::Reserved(ReservedWord::Var))
}

// consts | types | vars
fn block_part(reader: &mut Reader) -> Part
    ensures { Goes estelle grammar.block_part reader.old
        (node (view.a_block_part result)) reader.new }
{
    if reader.sees(TokenKind::Reserved(ReservedWord::Type)) {
        return Part::Types(types(reader));
    }
    if reader.sees(TokenKind::Reserved(ReservedWord::Var)) {
        return Part::Vars(vars(reader));
    }
    Part::Consts(consts(reader))
}

//! Explanation texts.

ghost use Rattle.std.specs.Prelude.{◌≤◌, length, map, true, IfOk};
ghost use Rattle.est_lexer.specs.Offsets.{text_of, tokens_of};
ghost use Rattle.text_reader.specs.Grammar.{rep};
ghost use Rattle.text_reader.specs.Shown.{node, nodes, pair, kept};
ghost use Rattle.text_reader.specs.Tests.{said};
ghost use Rattle.text_reader.specs.Moving.{Sees, SeesOne};
ghost use Rattle.text_reader.specs.Going.{Goes};
ghost use Rattle.est_explanation.specs.ExplanationGrammar as grammar;
ghost use Rattle.est_explanation.specs.ExplanationNodes.{a_move, an_explanation};
ghost use Rattle.est_explanation.specs.ExplanationNodes.{firing_view, explaining};
ghost use Rattle.est_explanation.specs.ExplanationText.{ReadsExplanation};

use crate::error::ExplanationError;
use est_lexer::tokens::Tokens;
use est_meaning::firing::Firing;
use est_meaning::run::{Move, Run};
use std::alloc::Global;
use text_reader::Reader;

// The greatest number of an instance, a transition or a choice that can be written.
const MOST_ORDINAL: u32 = 999_999_999;

// The greatest claim that can be written, one more than the most events of a trace.
const MOST_CLAIM: u32 = 200_001;

/// How a trace is said to come about: the moves, and how many of its events they are said to
/// yield, plus one for all with nothing after them.
#[derive(Drop)]
pub struct Explanation {
    pub moves: Run,
    pub claim: u32,
}

/// The explanation that the tokens are, or the first bad one.
pub fn read_explanation(alloc: Global, tokens: &Tokens) -> Result<Explanation, ExplanationError>
    ensures reads { ReadsExplanation (text_of tokens.now) (tokens_of tokens.now) result }
    ensures few { IfOk result (λ x. length x.moves ≤ length (tokens_of tokens.now)) }
{
    let mut reader = Reader::new(alloc, tokens, 0);
    let found = whole_explanation(&mut reader);
    Ok(reader.finish(found)?)
}

// explanation = "explanation" "1" { move } "yields" number .
fn whole_explanation(reader: &mut Reader) -> Explanation
    ensures { Goes explaining grammar.explanation reader.old
        (node (an_explanation result)) reader.new }
{
    reader.take_word(b"explanation");
    let _version = reader.number(1, 1);
    let moves = moves(reader);
    reader.take_word(b"yields");
    let claim = reader.number(0, MOST_CLAIM);
    Explanation { moves, claim }
}

// { move }
fn moves(reader: &mut Reader) -> Run
    ensures { Goes explaining (rep grammar.move) reader.old (nodes (map a_move result)) reader.new }
{
    let mut moves = Run::new(reader.alloc);
    while begins_move(reader) {
        let next = next_move(reader);
        reader.keep(&mut moves, next);
    }
    moves
}

// Whether a move begins here.
fn begins_move(reader: &Reader) -> bool
    ensures { SeesOne reader.now grammar.move_starts result }
{
    reader.sees_word(b"take") || reader.sees_word(b"fire")
}

// move = "take" | "fire" firing .
fn next_move(reader: &mut Reader) -> Move
    ensures { Goes explaining grammar.move reader.old (node (a_move result)) reader.new }
{
    if reader.sees_word(b"fire") {
        reader.take_word(b"fire");
        return Move::Fire(firing(reader));
    }
    reader.take_word(b"take");
    Move::Take
}

// firing = number number number .
fn firing(reader: &mut Reader) -> Firing
    ensures { Goes explaining grammar.firing reader.old (firing_view result) reader.new }
{
    let instance = reader.number(0, MOST_ORDINAL);
    let transition = reader.number(0, MOST_ORDINAL);
    let choice = reader.number(0, MOST_ORDINAL);
    Firing {
        instance,
        transition,
        choice,
    }
}

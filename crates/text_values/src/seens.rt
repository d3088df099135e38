//! What was seen of values.
ghost use Rattle.std.specs.Prelude.{replicate};
ghost use Rattle.est_syntax.specs.declared.kind.Kind.{out-Kind};
ghost use Rattle.text_reader.specs.Grammar.{right};
ghost use Rattle.text_values.specs.TraceGrammar as grammar;
ghost use Rattle.text_values.specs.SeenShapes.{ShowsSeen};
ghost use Rattle.text_values.specs.ValueReading.{Reads};
ghost use Rattle.text_values.specs.ValueShapes.{AreEnclosed, AreBracketed};
ghost use Rattle.text_values.specs.inside.Gathering.{after, ReadsNext};
ghost use Rattle.text_values.specs.inside.Scalars.{ShowsOrdinalSeen, ShowsSetSeen};

use crate::commas::comma;
use crate::ordinals::ordinal;
use crate::sets::set;
use est_lexer::kind::{Symbol, TokenKind};
use est_seen::seen::{Seen, Seens};
use est_syntax::kind::{FieldKind, Kind};
use est_values::ordinals::ordinal_count;
use text_reader::Reader;

/// What was seen of the values of parameters of these kinds in parentheses, or nothing where there
/// are no kinds.
pub fn seens(reader: &mut Reader, kinds: &[Kind]) -> Seens
    ensures { Reads (grammar.seen_parameters kinds.now)
        (λ t. AreBracketed ShowsSeen kinds.now result t) reader.old reader.new }
{
    let mut seens = Seens::new(reader.alloc);
    if kinds.is_empty() {
        return seens;
    }
    reader.symbol(Symbol::LeftParenthesis);
    for i in 0..kinds.len() {
        next_seen(reader, i as u64, &kinds[i], &mut seens);
    }
    reader.symbol(Symbol::RightParenthesis);
    seens
}

// What was seen of one value more.
#[cycle(seen)]
fn next_seen(reader: &mut Reader, before: u64, kind: &Kind, seens: &mut Seens)
    ensures { ReadsNext (after before (grammar.a_seen kind.now)) (ShowsSeen kind.now)
        reader.old seens.old reader.new seens.new }
{
    comma(reader, before);
    let next = seen(reader, kind);
    reader.keep(seens, next);
}

// What was seen of a value of a kind: `?` for any value, or its parts.
#[cycle(seen)]
fn seen(reader: &mut Reader, kind: &Kind) -> Seen
    ensures { Reads (grammar.a_seen kind.now) (λ t. ShowsSeen kind.now result t)
        reader.old reader.new }
{
    if reader.sees(TokenKind::Symbol(Symbol::QuestionMark)) {
        reader.symbol(Symbol::QuestionMark);
        return Seen::Any;
    }
    formed(reader, kind)
}

// What was seen of a value of a kind, but for `?`.
#[cycle(seen)]
fn formed(reader: &mut Reader, kind: &Kind) -> Seen
    ensures { Reads (grammar.formed grammar.a_seen (out-Kind kind.now) kind.now)
        (λ t. ShowsSeen kind.now result (right t)) reader.old reader.new }
{
    match kind {
        Kind::Integer => ordinal_seen(reader, kind),
        Kind::Boolean => ordinal_seen(reader, kind),
        Kind::Char => ordinal_seen(reader, kind),
        Kind::Enumeration {
            declared: _,
            names: _,
        } => ordinal_seen(reader, kind),
        Kind::Part {
            host: _,
            low: _,
            high: _,
        } => ordinal_seen(reader, kind),
        Kind::SetOf(base) => set_seen(reader, base.get()),
        Kind::ArrayOf { index, of } => {
            Seen::Group(elements(reader, of.get(), ordinal_count(index.get())))
        }
        Kind::Fields(fields) => Seen::Group(components(reader, fields.get().as_slice())),
    }
}

// An ordinal, or that it is undefined.
fn ordinal_seen(reader: &mut Reader, kind: &Kind) -> Seen
    ensures { Reads (grammar.scalar (grammar.ordinal kind.now))
        (λ t. ShowsOrdinalSeen kind.now result t) reader.old reader.new }
{
    if reader.sees(TokenKind::Symbol(Symbol::Underscore)) {
        reader.symbol(Symbol::Underscore);
        return Seen::Undefined;
    }
    Seen::Ordinal(ordinal(reader, kind))
}

// A set, or that it is undefined.
fn set_seen(reader: &mut Reader, base: &Kind) -> Seen
    ensures { Reads (grammar.scalar (grammar.set base.now))
        (λ t. ShowsSetSeen base.now result t) reader.old reader.new }
{
    if reader.sees(TokenKind::Symbol(Symbol::Underscore)) {
        reader.symbol(Symbol::Underscore);
        return Seen::Undefined;
    }
    Seen::Set(set(reader, base))
}

// What was seen of so many values of a kind, in parentheses.
#[cycle(seen)]
fn elements(reader: &mut Reader, of: &Kind, count: u64) -> Seens
    ensures { Reads (grammar.group_of grammar.a_seen (replicate count of.now))
        (λ t. AreEnclosed ShowsSeen (replicate count of.now) result t) reader.old reader.new }
{
    let mut seens = Seens::new(reader.alloc);
    reader.symbol(Symbol::LeftParenthesis);
    for i in 0..count {
        next_seen(reader, i, of, &mut seens);
    }
    reader.symbol(Symbol::RightParenthesis);
    seens
}

// What was seen of the values of fields, in parentheses.
#[cycle(seen)]
fn components(reader: &mut Reader, fields: &[FieldKind]) -> Seens
    ensures { Reads (grammar.group_of grammar.a_seen (grammar.field_kinds fields.now))
        (λ t. AreEnclosed ShowsSeen (grammar.field_kinds fields.now) result t)
        reader.old reader.new }
{
    let mut seens = Seens::new(reader.alloc);
    reader.symbol(Symbol::LeftParenthesis);
    for i in 0..fields.len() {
        next_seen(reader, i as u64, &fields[i].kind, &mut seens);
    }
    reader.symbol(Symbol::RightParenthesis);
    seens
}

//! Values that are drawn.
ghost use Rattle.std.specs.Prelude.{◌≡◌, ◌<◌, ◌+ℤ◌, pos, map, replicate, IfOk, IsTrue};
ghost use Rattle.std.specs.Int.{int_gap};
ghost use Rattle.est_syntax.specs.declared.kind.FieldKind.{FieldKind};
ghost use Rattle.est_values.specs.FittingValues.{ordinal_count};
ghost use Rattle.run_make.specs.Words.{stream_at};
ghost use Rattle.run_make.specs.DrawnValues.{is_ordinal, DrawsMembers, DrawsValue, DrawsValues};

use crate::words::draw;
use est_syntax::est_items::{Items, Shared};
use est_syntax::kind::{FieldKinds, Kind, Kinds, Ordinals};
use est_values::ordinals::{counted, first_ordinal, last_ordinal, ordinal_count};
use est_values::value::{Value, Values};
use rand_pcg::Lcg64Xsh32;
use std::alloc::{AllocError, Global};

// The ordinal so far from the first of those from one to another.
fn ordinal_at(first: i32, last: i32, distance: u64) -> i32
    requires { distance < int_gap first (last +ℤ pos 1) }
    ensures { result ≡ first +ℤ pos distance }
{
    (first as i64 + distance as i64) as i32
}

// Draws a value of an ordinal kind.
fn draw_ordinal(rng: &mut Lcg64Xsh32, kind: &Kind) -> Value
    requires { IsTrue (is_ordinal kind.now) }
    ensures { DrawsValue kind.now (stream_at rng.old) result (stream_at rng.new) }
{
    let word = u64::from(draw(rng));
    let first = first_ordinal(kind);
    let last = last_ordinal(kind);
    let count = counted(first, last);
    if count == 0 {
        return Value::Undefined;
    }
    Value::Ordinal(ordinal_at(first, last, word % count))
}

// Draws the members of a set over a base.
fn draw_members(alloc: Global, rng: &mut Lcg64Xsh32, base: &Kind) -> Result<Ordinals, AllocError>
    ensures { IfOk result (λ members.
        DrawsMembers base.now (ordinal_count base.now) (stream_at rng.old) members
        (stream_at rng.new)) }
{
    let first = first_ordinal(base);
    let last = last_ordinal(base);
    let mut members = Items::new(alloc);
    for distance in 0..counted(first, last) {
        let word = draw(rng);
        if word % 2 == 1 {
            members.push(ordinal_at(first, last, distance))?;
        }
    }
    Ok(members)
}

/// Draws a value of a kind. Errs where memory runs out.
#[cycle(drawing)]
pub fn draw_value(alloc: Global, rng: &mut Lcg64Xsh32, kind: &Kind) -> Result<Value, AllocError>
    ensures { IfOk result
        (λ value. DrawsValue kind.now (stream_at rng.old) value (stream_at rng.new)) }
{
    match kind {
        Kind::Integer => Ok(draw_ordinal(rng, kind)),
        Kind::Boolean => Ok(draw_ordinal(rng, kind)),
        Kind::Char => Ok(draw_ordinal(rng, kind)),
        Kind::Enumeration {
            declared: _,
            names: _,
        } => Ok(draw_ordinal(rng, kind)),
        Kind::Part {
            host: _,
            low: _,
            high: _,
        } => Ok(draw_ordinal(rng, kind)),
        Kind::SetOf(base) => {
            let members = draw_members(alloc, rng, base.get())?;
            let members = Shared::new(alloc, members)?;
            Ok(Value::Set(members))
        }
        Kind::ArrayOf { index, of } => {
            let parts = draw_components(alloc, rng, ordinal_count(index.get()), of.get())?;
            Ok(Value::Group(parts))
        }
        Kind::Fields(fields) => {
            let parts = draw_fields(alloc, rng, fields.get())?;
            Ok(Value::Group(parts))
        }
    }
}

// Draws so many values of a kind.
#[cycle(drawing)]
fn draw_components(
    alloc: Global,
    rng: &mut Lcg64Xsh32,
    count: u64,
    of: &Kind,
) -> Result<Values, AllocError>
    ensures { IfOk result (λ parts.
        DrawsValues (replicate count of.now) (stream_at rng.old) parts (stream_at rng.new)) }
{
    let mut parts = Values::new(alloc)?;
    for _turn in 0..count {
        let part = draw_value(alloc, rng, of)?;
        parts.push(alloc, part)?;
    }
    Ok(parts)
}

// Draws a value for each field.
#[cycle(drawing)]
fn draw_fields(
    alloc: Global,
    rng: &mut Lcg64Xsh32,
    fields: &FieldKinds,
) -> Result<Values, AllocError>
    ensures { IfOk result (λ parts.
        DrawsValues (map (λ (f : FieldKind). f.kind) fields.now) (stream_at rng.old) parts
        (stream_at rng.new)) }
{
    let mut parts = Values::new(alloc)?;
    for field in fields.as_slice() {
        let part = draw_value(alloc, rng, &field.kind)?;
        parts.push(alloc, part)?;
    }
    Ok(parts)
}

/// Draws a value for each of these kinds. Errs where memory runs out.
pub fn draw_values(alloc: Global, rng: &mut Lcg64Xsh32, kinds: &Kinds) -> Result<Values, AllocError>
    ensures { IfOk result
        (λ values. DrawsValues kinds.now (stream_at rng.old) values (stream_at rng.new)) }
{
    let mut values = Values::new(alloc)?;
    for kind in kinds.as_slice() {
        let value = draw_value(alloc, rng, kind)?;
        values.push(alloc, value)?;
    }
    Ok(values)
}

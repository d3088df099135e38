//! The tuple of ordinals that has a number, which is found without the others.

ghost use Rattle.std.specs.Prelude.{◌≡◌, reverse, slice_get, IfOk};
ghost use Rattle.std.specs.Option.{option_map};
ghost use Rattle.est_values.specs.OrdinalTuples.{ordinals_of, ordinal_tuples};
ghost use Rattle.plain_transitions.specs.WrittenTransitions.{kinds_held};
ghost use Rattle.plain_transitions.specs.inside.ChosenTuples.{IsAbove, IsTaken};

use est_syntax::kind::Kind;
use est_values::ordinals::{first_ordinal, last_ordinal, ordinal_count};
use std::alloc::{AllocError, Global};

// The ordinal that stands so far above the first one, if it is not above the last one.
fn ordinal_above(first: i32, last: i32, number: u32) -> Option<i32>
    ensures { IsAbove first last number result }
{
    let ordinal = first as i64 + number as i64;
    if ordinal <= last as i64 {
        Some(ordinal as i32)
    } else {
        None
    }
}

// The ordinal of a kind that has a number, counted from 0, if it has so many.
fn ordinal_at(kind: &Kind, number: u32) -> Option<i32>
    ensures { result ≡ slice_get (ordinals_of kind.now) number }
{
    ordinal_above(first_ordinal(kind), last_ordinal(kind), number)
}

// Divides a number by the count of the ordinals of a kind, and gives the ordinal whose number is
// left over. A kind without ordinals has none.
fn take_ordinal(kind: &Kind, number: &mut u32) -> Option<i32>
    ensures { IsTaken kind.now number.old number.new result }
{
    let count = ordinal_count(kind);
    if count == 0 {
        return None;
    }
    let digit = (*number as u64 % count) as u32;
    *number = (*number as u64 / count) as u32;
    ordinal_at(kind, digit)
}

// Puts ordinals in the opposite order.
fn turn(tuple: &mut Vec<i32>)
    ensures { tuple.new.items ≡ reverse tuple.old.items }
{
    tuple.as_mut_slice().reverse();
}

/// The tuple of ordinals of these kinds that has a number, counted from 0, if there are so many.
pub(crate) fn tuple_at(
    alloc: Global,
    kinds: &[&Kind],
    number: u32,
) -> Result<Option<Vec<i32>>, AllocError>
    ensures { IfOk result (λ tuple. option_map (λ t. t.items) tuple
        ≡ slice_get (ordinal_tuples (kinds_held kinds.now)) number) }
{
    let mut quotient = number;
    let mut tuple = Vec::new(alloc);
    for i in (0..kinds.len()).rev() {
        match take_ordinal(kinds[i], &mut quotient) {
            None => return Ok(None),
            Some(ordinal) => tuple.push(ordinal)?,
        }
    }
    if quotient != 0 {
        return Ok(None);
    }
    turn(&mut tuple);
    Ok(Some(tuple))
}

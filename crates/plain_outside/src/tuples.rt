//! The tuples of ordinals by their numbers.
ghost use Rattle.std.specs.Prelude.{◌≡◌, ◌^◌, ◌+ℤ◌, ◌≤ℤ◌, pos, slice_get, IfOk, OnErr};
ghost use Rattle.est_meaning.specs.rule_declares.OrdinalValues.{first_value, tuples_of};

use est_meaning::rule_kinds::hosts::count;
use est_syntax::est_items::Items;
use est_syntax::kind::{Kind, Ordinals};
use std::alloc::{AllocError, Global};

// The first value of an ordinal kind.
fn first_value(kind: &Kind) -> i32
    ensures { result ≡ first_value kind.now }
{
    match kind {
        Kind::Integer => -2147483647,
        Kind::Part {
            host: _,
            low,
            high: _,
        } => *low,
        _ => 0,
    }
}

// The ordinal that lies so far above another one. Errs where it does not fit.
fn above(low: i32, distance: u32) -> Result<i32, AllocError>
    ensures ok { IfOk result (λ ordinal. ordinal ≡ low +ℤ pos distance) }
    ensures err { OnErr result (pos (2 ^ 31) ≤ℤ (low +ℤ pos distance)) }
{
    let ordinal = low as i64 + distance as i64;
    if ordinal > i32::MAX as i64 {
        return Err(AllocError);
    }
    Ok(ordinal as i32)
}

/// The tuple of ordinals of these kinds that has a number, in lexicographic order. Errs where
/// memory runs out, or where an ordinal does not fit.
pub(crate) fn tuple_of(
    alloc: Global,
    kinds: &[Kind],
    number: u32,
) -> Result<Option<Ordinals>, AllocError>
    ensures { IfOk result (λ tuple. tuple ≡ slice_get (tuples_of kinds.now) number) }
{
    let mut rest = number;
    let mut items = Vec::new(alloc);
    for i in (0..kinds.len()).rev() {
        let kind = &kinds[i];
        let values = count(kind);
        if values == 0 {
            return Ok(None);
        }
        let digit = (rest as u64 % values) as u32;
        rest = (rest as u64 / values) as u32;
        items.push(above(first_value(kind), digit)?)?;
    }
    if rest != 0 {
        return Ok(None);
    }
    items.as_mut_slice().reverse();
    Ok(Some(Items { items }))
}

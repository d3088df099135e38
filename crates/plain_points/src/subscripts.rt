//! Subscripts of what is declared at a place.
ghost use Rattle.std.specs.Prelude.{◌≡◌, nat_lt, length, IfOk, Some, None, true, false};
ghost use Rattle.std.specs.List.{list_all, list_any};
ghost use Rattle.std.specs.Ordering.{int_eq};
ghost use Rattle.std.specs.Cmp.Lexicographic.{pointwise};
ghost use Rattle.est_values.specs.FittingValues.{ordinal_count};
ghost use Rattle.est_values.specs.OrdinalTuples.{first_tuple, next_tuple};
ghost use Rattle.est_values.specs.OrdinalTuples.{ordinal_tuples};
ghost use Rattle.est_values.specs.OrdinalTuples.{ordinals_of};
ghost use Rattle.plain_declared.specs.mean_blocks.InstancePoints.{indices_of};

use est_syntax::est_items::{Items, Twin};
use est_syntax::kind::{Kind, Ordinals};
use est_values::ordinals::{first_ordinal, last_ordinal, ordinal_count};
use est_values::tuples::next_tuple;
use plain_declared::declared::dims_at;
use plain_declared::rule_scope::outline::Outline;
use std::alloc::{AllocError, Global};

/// Tuples of ordinals in order.
pub type Tuples = Items<Ordinals>;

// Whether each kind has an ordinal.
fn have_ordinals(kinds: &[Kind]) -> bool
    ensures { result ≡ list_all (λ kind. nat_lt 0 (ordinal_count kind)) kinds.now }
{
    kinds.iter().all(|kind| 0 < ordinal_count(kind))
}

// The tuple of the first ordinals.
fn first_tuple(alloc: Global, kinds: &[Kind]) -> Result<Ordinals, AllocError>
    ensures { IfOk result (λ tuple. tuple ≡ first_tuple kinds.now) }
{
    let items = kinds.iter().map(first_ordinal).collect(alloc)?;
    Ok(Items { items })
}

// Goes on to the next tuple of ordinals of these kinds, if there is one.
fn go_on(tuple: &mut Ordinals, kinds: &[Kind]) -> bool
    requires { length tuple.old ≡ length kinds.now }
    ensures next { result ≡ true → next_tuple kinds.now tuple.old ≡ Some tuple.new }
    ensures last { result ≡ false → next_tuple kinds.now tuple.old ≡ None }
    ensures long { length tuple.new ≡ length tuple.old }
{
    next_tuple(tuple.items.as_mut_slice(), kinds)
}

// The tuples of ordinals of these kinds, in lexicographic order.
fn ordinal_tuples(alloc: Global, kinds: &[Kind]) -> Result<Tuples, AllocError>
    ensures { IfOk result (λ tuples. tuples ≡ ordinal_tuples kinds.now) }
{
    let mut tuples = Items::new(alloc);
    if !have_ordinals(kinds) {
        return Ok(tuples);
    }
    let mut tuple = first_tuple(alloc, kinds)?;
    'next: loop {
        tuples.push(tuple.twin(alloc)?)?;
        if !go_on(&mut tuple, kinds) {
            return Ok(tuples);
        }
    }
}

/// The subscripts of what is declared at a place, ascending. Errs where memory runs out.
pub fn indices_of(alloc: Global, outline: &Outline, place: u32) -> Result<Tuples, AllocError>
    ensures { IfOk result (λ indices. indices ≡ indices_of outline.now place) }
{
    match dims_at(outline, place) {
        None => ordinal_tuples(alloc, &[]),
        Some(kinds) => ordinal_tuples(alloc, kinds),
    }
}

// Whether an ordinal is one of a kind.
fn is_ordinal(kind: &Kind, z: i32) -> bool
    ensures { result ≡ list_any (int_eq z) (ordinals_of kind.now) }
{
    if z < first_ordinal(kind) {
        return false;
    }
    if last_ordinal(kind) < z {
        return false;
    }
    true
}

// Whether a tuple is one of ordinals of these kinds.
fn is_tuple(kinds: &[Kind], tuple: &[i32]) -> bool
    ensures { result ≡ list_any (pointwise int_eq tuple.now) (ordinal_tuples kinds.now) }
{
    if kinds.len() != tuple.len() {
        return false;
    }
    for i in 0..kinds.len() {
        if !is_ordinal(&kinds[i], tuple[i]) {
            return false;
        }
    }
    true
}

/// Whether subscripts are among those of what is declared at a place.
pub fn is_index(outline: &Outline, place: u32, index: &[i32]) -> bool
    ensures { result ≡ list_any (pointwise int_eq index.now) (indices_of outline.now place) }
{
    match dims_at(outline, place) {
        None => is_tuple(&[], index),
        Some(kinds) => is_tuple(kinds, index),
    }
}

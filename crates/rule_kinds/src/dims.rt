//! The subscripts of interaction points and module variables.
#![tactic(auto, using(rule_scope::proofs::LeastLaws::least_append))]

ghost use Rattle.std.specs.Prelude.{◌≡◌, ◌++◌, [], Some, IfOk, OnOk};
ghost use Rattle.rule_scope.specs.LeastSoFar.{least_with};
ghost use Rattle.rule_kinds.specs.TypeTexts.{text_type};
ghost use Rattle.rule_kinds.specs.Dims.{with_dim, dims_of, elements, dims_elements, ordinal_faults};
ghost use Rattle.rule_kinds.specs.Dims.{dim_faults, each_dim_faults, elements_faults, dims_faults};

use crate::hosts::{count, is_ordinal};
use crate::texts::{check_text, text_place};
use est_syntax::kind::{Kind, Kinds};
use est_syntax::rule::Rule;
use est_syntax::type_text::TypeText;
use rule_scope::declaration::Measured;
use rule_scope::least::Least;
use rule_scope::outline::Outline;
use std::alloc::{AllocError, Global};

// The greatest number of elements of an array of interaction points or module variables.
const MOST_ELEMENTS: u64 = 256;

/// Notes a dim that begins at a place and is not ordinal.
pub fn check_ordinal(dim: &Option<Measured>, place: u32, least: &mut Least)
    ensures { least.new.at ≡ least_with least.old.at (ordinal_faults dim.now place) }
{
    match dim {
        None => (),
        Some(dim) => if !is_ordinal(&dim.kind) {
            least.note(place, Rule::WrongKind);
        },
    }
}

// The kinds of subscripts, and that of one more, which is ordinal.
fn with_dim(kinds: Option<Kinds>, dim: Option<Measured>) -> Result<Option<Kinds>, AllocError>
    ensures { IfOk result (λ ks. ks ≡ with_dim kinds dim) }
{
    let Some(mut kinds) = kinds else {
        drop(dim);
        return Ok(None);
    };
    let Some(dim) = dim else {
        drop(kinds);
        return Ok(None);
    };
    if !is_ordinal(&dim.kind) {
        drop(kinds);
        drop(dim);
        return Ok(None);
    }
    kinds.push(dim.kind)?;
    Ok(Some(kinds))
}

// Checks one of the dims, and adds its kind to those before it.
fn check_dim(
    alloc: Global,
    outline: &Outline,
    kinds: Option<Kinds>,
    dim: &TypeText,
    least: &mut Least,
) -> Result<Option<Kinds>, AllocError>
    ensures kinds { IfOk result (λ ks. ks ≡ with_dim kinds (text_type outline.now dim.now)) }
    ensures faults { OnOk result (least.new.at
        ≡ least_with least.old.at (dim_faults outline.now dim.now)) }
{
    let kind = check_text(alloc, outline, dim, least)?;
    check_ordinal(&kind, text_place(dim), least);
    with_dim(kinds, kind)
}

// Checks each of the dims.
fn check_each(
    alloc: Global,
    outline: &Outline,
    dims: &[TypeText],
    least: &mut Least,
) -> Result<Option<Kinds>, AllocError>
    ensures kinds { IfOk result (λ ks. ks ≡ dims_of outline.now dims.now) }
    ensures faults { OnOk result (least.new.at
        ≡ least_with least.old.at (each_dim_faults outline.now dims.now)) }
{
    let mut kinds = Some(Kinds::new(alloc));
    for dim in dims {
        kinds = check_dim(alloc, outline, kinds, dim, least)?;
    }
    Ok(kinds)
}

// How many elements an array with these subscripts has.
fn elements(kinds: &[Kind]) -> u64
    ensures { result ≡ elements kinds.now }
{
    let mut all: u64 = 1;
    for i in (0..kinds.len()).rev() {
        all = count(&kinds[i]).saturating_mul(all);
    }
    all
}

/// The elements of what has these subscripts.
pub fn dims_elements(dims: &Option<Kinds>) -> u64
    ensures { result ≡ dims_elements dims.now }
{
    match dims {
        None => 0,
        Some(kinds) => elements(kinds.as_slice()),
    }
}

// Notes an array of too many elements.
fn check_elements(kinds: &Option<Kinds>, place: u32, least: &mut Least)
    ensures { least.new.at ≡ least_with least.old.at (elements_faults kinds.now place) }
{
    match kinds {
        None => (),
        Some(kinds) => if elements(kinds.as_slice()) > MOST_ELEMENTS {
            least.note(place, Rule::TooLarge);
        },
    }
}

/// Checks the dims of what is declared at a place, and answers the kinds of its subscripts.
pub fn check_dims(
    alloc: Global,
    outline: &Outline,
    dims: &[TypeText],
    place: u32,
    least: &mut Least,
) -> Result<Option<Kinds>, AllocError>
    ensures kinds { IfOk result (λ ks. ks ≡ dims_of outline.now dims.now) }
    ensures faults { OnOk result (least.new.at
        ≡ least_with least.old.at (dims_faults outline.now dims.now place)) }
{
    let kinds = check_each(alloc, outline, dims, least)?;
    check_elements(&kinds, place, least);
    Ok(kinds)
}

/// The kinds of the subscripts of what is declared with these dims.
pub fn dims_of(
    alloc: Global,
    outline: &Outline,
    dims: &[TypeText],
) -> Result<Option<Kinds>, AllocError>
    ensures { IfOk result (λ ks. ks ≡ dims_of outline.now dims.now) }
{
    let mut least = Least { at: None };
    check_each(alloc, outline, dims, &mut least)
}

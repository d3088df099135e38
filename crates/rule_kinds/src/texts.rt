//! The texts of types.
#![tactic(auto, using(rule_scope::proofs::LeastLaws::least_append))]

ghost use Rattle.std.specs.Prelude.{◌≡◌, ◌++◌, Some, IfOk, OnOk};
ghost use Rattle.rule_scope.specs.LeastSoFar.{least_with};
ghost use Rattle.rule_kinds.specs.Constants.{constant_value, constant_faults, constant_place};
ghost use Rattle.rule_kinds.specs.TypeTexts.{range, range_faults, array_of, set_of, set_faults};
ghost use Rattle.rule_kinds.specs.TypeTexts.{no_fields, with_def, fields_after};
ghost use Rattle.rule_kinds.specs.TypeTexts.{def_faults, defs_faults};
ghost use Rattle.rule_kinds.specs.TypeTexts.{record_faults, arrays, index_faults, indices_faults};
ghost use Rattle.rule_kinds.specs.TypeTexts.{text_place, text_type, text_faults};

use crate::composed::{
    check_bounds, check_fields, check_indexed, check_set, enumeration, known_fields, with_fields,
};
use crate::constants::{check_constant, constant_place};
use crate::names::check_named;
use crate::value::Gathered;
use est_syntax::constant::Constant;
use est_syntax::kind::FieldKinds;
use est_syntax::type_text::{TypeText, TypeTexts, VarDef, VarDefs};
use rule_scope::declaration::Measured;
use rule_scope::least::Least;
use rule_scope::outline::Outline;
use std::alloc::{AllocError, Global};

/// The place of the first token of the text of a type.
pub fn text_place(text: &TypeText) -> u32
    ensures { result ≡ text_place text.now }
{
    match text {
        TypeText::Named(used) => used.place,
        TypeText::Range { low, high: _ } => constant_place(low),
        TypeText::Names { names: _, place } => *place,
        TypeText::Array {
            index: _,
            of: _,
            place,
        } => *place,
        TypeText::Fields { fields: _, place } => *place,
        TypeText::Set { of: _, place } => *place,
    }
}

// Checks a range, and answers its kind.
fn check_range(
    alloc: Global,
    outline: &Outline,
    low: &Constant,
    high: &Constant,
    least: &mut Least,
) -> Result<Option<Measured>, AllocError>
    ensures kind { IfOk result
        (λ m. m ≡ range (constant_value outline.now low.now)
        (constant_value outline.now high.now)) }
    ensures faults { OnOk result (least.new.at ≡ least_with least.old.at
        (constant_faults outline.now low.now ++ constant_faults outline.now high.now
        ++ range_faults (constant_value outline.now low.now)
        (constant_value outline.now high.now) (constant_place low.now))) }
{
    let first = check_constant(outline, low, least)?;
    let last = check_constant(outline, high, least)?;
    check_bounds(alloc, first, last, constant_place(low), least)
}

/// Checks the text of a type, and answers its kind, where it and all its parts break no rule.
#[cycle(texts)]
#[tactic(auto, using(crate::proofs::Rows::array_type, crate::proofs::Rows::record_type))]
pub fn check_text(
    alloc: Global,
    outline: &Outline,
    text: &TypeText,
    least: &mut Least,
) -> Result<Option<Measured>, AllocError>
    ensures kind { IfOk result (λ m. m ≡ text_type outline.now text.now) }
    ensures faults { OnOk result (least.new.at
        ≡ least_with least.old.at (text_faults outline.now text.now)) }
{
    match text {
        TypeText::Named(used) => check_named(outline, used, least),
        TypeText::Range { low, high } => check_range(alloc, outline, low, high, least),
        TypeText::Names { names, place } => {
            outline.check_twices(names.as_slice(), least);
            enumeration(alloc, outline, names.as_slice(), *place)
        },
        TypeText::Array { index, of, place } => {
            let kind = check_text(alloc, outline, of.get(), least)?;
            check_indices(alloc, outline, index, kind, *place, least)
        },
        TypeText::Fields { fields, place } => {
            let gathered = check_defs(alloc, outline, fields, least)?;
            check_fields(alloc, gathered, *place, least)
        },
        TypeText::Set { of, place } => check_base(alloc, outline, of.get(), *place, least),
    }
}

// Checks the indices of an array at a place, from the last one to the first.
#[cycle(texts)]
fn check_indices(
    alloc: Global,
    outline: &Outline,
    index: &TypeTexts,
    of: Option<Measured>,
    place: u32,
    least: &mut Least,
) -> Result<Option<Measured>, AllocError>
    ensures kind { IfOk result (λ m. m ≡ arrays outline.now index.now of) }
    ensures faults { OnOk result (least.new.at
        ≡ least_with least.old.at (indices_faults outline.now index.now of place)) }
{
    let texts = index.as_slice();
    let mut kind = of;
    for i in (0..texts.len()).rev() {
        kind = check_index(alloc, outline, &texts[i], kind, place, least)?;
    }
    Ok(kind)
}

// Checks one of the indices of an array at a place, where the kind of what it holds is known.
#[cycle(texts)]
fn check_index(
    alloc: Global,
    outline: &Outline,
    index: &TypeText,
    of: Option<Measured>,
    place: u32,
    least: &mut Least,
) -> Result<Option<Measured>, AllocError>
    ensures kind { IfOk result (λ m. m ≡ array_of (text_type outline.now index.now) of) }
    ensures faults { OnOk result (least.new.at
        ≡ least_with least.old.at (index_faults outline.now index.now of place)) }
{
    match check_text(alloc, outline, index, least)? {
        None => {
            drop(of);
            Ok(None)
        },
        Some(kind) => check_indexed(alloc, kind, of, text_place(index), place, least),
    }
}

// Checks the base of a set at a place, and answers the kind of the set.
#[cycle(texts)]
fn check_base(
    alloc: Global,
    outline: &Outline,
    of: &TypeText,
    place: u32,
    least: &mut Least,
) -> Result<Option<Measured>, AllocError>
    ensures kind { IfOk result (λ m. m ≡ set_of (text_type outline.now of.now)) }
    ensures faults { OnOk result (least.new.at ≡ least_with least.old.at
        (text_faults outline.now of.now
        ++ set_faults (text_type outline.now of.now) (text_place of.now) place)) }
{
    match check_text(alloc, outline, of, least)? {
        None => Ok(None),
        Some(base) => check_set(alloc, base, text_place(of), place, least),
    }
}

// Checks the fields of a record.
#[cycle(texts)]
fn check_defs(
    alloc: Global,
    outline: &Outline,
    defs: &VarDefs,
    least: &mut Least,
) -> Result<Option<Gathered>, AllocError>
    ensures fields { IfOk result (λ g. g ≡ fields_after outline.now defs.now (Some no_fields)) }
    ensures faults { OnOk result (least.new.at
        ≡ least_with least.old.at (defs_faults outline.now defs.now)) }
{
    let mut gathered = Some(Gathered {
        kinds: FieldKinds::new(alloc),
        scalars: 0,
        levels: 0,
    });
    for def in defs.as_slice() {
        gathered = check_def(alloc, outline, def, gathered, least)?;
    }
    Ok(gathered)
}

// Checks fields that are declared with one type, and adds them to those before them.
#[cycle(texts)]
fn check_def(
    alloc: Global,
    outline: &Outline,
    def: &VarDef,
    gathered: Option<Gathered>,
    least: &mut Least,
) -> Result<Option<Gathered>, AllocError>
    ensures fields { IfOk result (λ g. g ≡ with_def outline.now gathered def.now) }
    ensures faults { OnOk result (least.new.at
        ≡ least_with least.old.at (def_faults outline.now def.now)) }
{
    let names = def.names.as_slice();
    outline.check_agains(names, least);
    let kind = check_text(alloc, outline, &def.text, least)?;
    with_fields(alloc, known_fields(outline, names, gathered), names, kind)
}

/// The kind of the text of a type.
pub fn text_type(
    alloc: Global,
    outline: &Outline,
    text: &TypeText,
) -> Result<Option<Measured>, AllocError>
    ensures { IfOk result (λ m. m ≡ text_type outline.now text.now) }
{
    let mut least = Least { at: None };
    check_text(alloc, outline, text, &mut least)
}

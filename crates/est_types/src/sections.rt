//! What sections of constants, types, variables, states and formals break.
#![tactic(auto, using(rule_scope::proofs::LeastLaws::least_append))]

ghost use Rattle.std.specs.Option.{option_map_or};
ghost use Rattle.rule_declares.specs.rule_kinds.TypeTexts.{type_faults};
ghost use Rattle.std.specs.Prelude.{◌≡◌, [], OnOk, flat_map};
ghost use Rattle.rule_scope.specs.LeastSoFar.{least_with};
ghost use Rattle.est_types.specs.DeclarationFaults.{constdef_faults};
ghost use Rattle.est_types.specs.DeclarationFaults.{typedef_faults};
ghost use Rattle.est_types.specs.DeclarationFaults.{vardef_faults};
ghost use Rattle.est_types.specs.DeclarationFaults.{stateset_faults, word_place};
ghost use Rattle.est_types.specs.DeclarationFaults.{formal_faults};
ghost use Rattle.est_types.specs.DeclarationFaults.{chosen_faults};
ghost use Rattle.est_types.specs.DeclarationFaults.{clause_faults};

use est_syntax::body::StateSet;
use est_syntax::constant::ConstDef;
use est_syntax::name::Used;
use est_syntax::routine::Formal;
use est_syntax::rule::Rule;
use est_syntax::transition::Clause;
use est_syntax::type_text::{TypeDef, VarDef};
use rule_declares::rule_kinds::constants::check_constant;
use rule_declares::rule_kinds::names::check_type;
use rule_declares::rule_kinds::texts::check_text;
use rule_scope::declaration::Sort;
use rule_scope::least::Least;
use rule_scope::outline::Outline;
use std::alloc::{AllocError, Global};

// A constant.
fn check_constdef(outline: &Outline, item: &ConstDef, least: &mut Least) -> Result<(), AllocError>
    ensures { OnOk result
        (least.new.at ≡ least_with least.old.at (constdef_faults outline.now item.now)) }
{
    outline.check_twice(&item.name, least);
    drop(check_constant(outline, &item.value, least)?);
    Ok(())
}

/// Constants.
pub fn check_constdefs(
    outline: &Outline,
    items: &[ConstDef],
    least: &mut Least,
) -> Result<(), AllocError>
    ensures { OnOk result
        (least.new.at ≡ least_with least.old.at (flat_map (constdef_faults outline.now) items.now)) }
{
    for item in items {
        check_constdef(outline, item, least)?;
    }
    Ok(())
}

// A type.
fn check_typedef(
    alloc: Global,
    outline: &Outline,
    item: &TypeDef,
    least: &mut Least,
) -> Result<(), AllocError>
    ensures { OnOk result
        (least.new.at ≡ least_with least.old.at (typedef_faults outline.now item.now)) }
{
    outline.check_twice(&item.name, least);
    drop(check_text(alloc, outline, &item.text, least)?);
    Ok(())
}

/// Types.
pub fn check_typedefs(
    alloc: Global,
    outline: &Outline,
    items: &[TypeDef],
    least: &mut Least,
) -> Result<(), AllocError>
    ensures { OnOk result
        (least.new.at ≡ least_with least.old.at (flat_map (typedef_faults outline.now) items.now)) }
{
    for item in items {
        check_typedef(alloc, outline, item, least)?;
    }
    Ok(())
}

// Variables of one type.
fn check_vardef(
    alloc: Global,
    outline: &Outline,
    item: &VarDef,
    least: &mut Least,
) -> Result<(), AllocError>
    ensures { OnOk result
        (least.new.at ≡ least_with least.old.at (vardef_faults outline.now item.now)) }
{
    outline.check_twices(item.names.as_slice(), least);
    drop(check_text(alloc, outline, &item.text, least)?);
    Ok(())
}

/// Variables, parameters or exports.
pub fn check_vardefs(
    alloc: Global,
    outline: &Outline,
    items: &[VarDef],
    least: &mut Least,
) -> Result<(), AllocError>
    ensures { OnOk result
        (least.new.at ≡ least_with least.old.at (flat_map (vardef_faults outline.now) items.now)) }
{
    for item in items {
        check_vardef(alloc, outline, item, least)?;
    }
    Ok(())
}

// A state set.
fn check_stateset(outline: &Outline, item: &StateSet, least: &mut Least)
    ensures { least.new.at ≡ least_with least.old.at (stateset_faults outline.now item.now) }
{
    outline.check_twice(&item.name, least);
    outline.check_uses(Sort::State, item.states.as_slice(), least);
}

/// State sets.
pub fn check_statesets(outline: &Outline, items: &[StateSet], least: &mut Least)
    ensures { least.new.at ≡ least_with least.old.at (flat_map (stateset_faults outline.now) items.now) }
{
    for item in items {
        check_stateset(outline, item, least);
    }
}

// The place of the word `var` before names.
fn word_place(names: &[Used]) -> u32
    ensures { result ≡ word_place names.now }
{
    match names.first() {
        None => 0,
        Some(used) => used.place.saturating_sub(1),
    }
}

// Formals of one type, of a routine with this result.
fn check_formal(outline: &Outline, of: &Option<Used>, item: &Formal, least: &mut Least)
    ensures { least.new.at
        ≡ least_with least.old.at (formal_faults outline.now of.now item.now) }
{
    outline.check_twices(item.names.as_slice(), least);
    check_type(outline, &item.kind, least);
    least.note_if(
        of.is_some() && item.by_place,
        word_place(item.names.as_slice()),
        Rule::NotInFunction,
    );
}

/// Formals of a routine with this result: a function has one.
pub fn check_formals(outline: &Outline, of: &Option<Used>, items: &[Formal], least: &mut Least)
    ensures { least.new.at
        ≡ least_with least.old.at (flat_map (formal_faults outline.now of.now) items.now) }
{
    for item in items {
        check_formal(outline, of, item, least);
    }
}

/// The result of a function.
pub fn check_result(outline: &Outline, of: &Option<Used>, least: &mut Least)
    ensures { least.new.at ≡ least_with least.old.at (option_map_or (type_faults outline.now) of.now []) }
{
    if let Some(used) = of {
        check_type(outline, used, least);
    }
}

// `any` variables of one type.
fn check_chosen(outline: &Outline, item: &VarDef, least: &mut Least)
    ensures { least.new.at ≡ least_with least.old.at (chosen_faults outline.now item.now) }
{
    outline.check_twices(item.names.as_slice(), least);
}

// The `any` variables of a transition.
fn check_any(outline: &Outline, items: &[VarDef], least: &mut Least)
    ensures { least.new.at ≡ least_with least.old.at (flat_map (chosen_faults outline.now) items.now) }
{
    for item in items {
        check_chosen(outline, item, least);
    }
}

// A clause.
fn check_clause(outline: &Outline, item: &Clause, least: &mut Least)
    ensures { least.new.at ≡ least_with least.old.at (clause_faults outline.now item.now) }
{
    if let Clause::Any { names, place: _ } = item {
        check_any(outline, names.as_slice(), least);
    }
}

/// The clauses of a transition.
pub fn check_clauses(outline: &Outline, items: &[Clause], least: &mut Least)
    ensures { least.new.at ≡ least_with least.old.at (flat_map (clause_faults outline.now) items.now) }
{
    for item in items {
        check_clause(outline, item, least);
    }
}

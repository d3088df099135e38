//! What the sections of declarations declare.

ghost use Rattle.std.specs.Prelude.{◌≡◌, OnOk, IfOk};
ghost use Rattle.rule_declares.specs.rule_scope.declared.declaration.Sort.TheVariants as sort;
ghost use Rattle.rule_declares.specs.Entries.{plain};
ghost use Rattle.rule_declares.specs.Declares.{names_declare, constdef_declares, consts_declare};
ghost use Rattle.rule_declares.specs.Declares.{typedef_declares, types_declare};
ghost use Rattle.rule_declares.specs.Declares.{vardef_given, vardef_declares, vars_declare};
ghost use Rattle.rule_declares.specs.Declares.{states_declare, states_named};
ghost use Rattle.rule_declares.specs.Declares.{stateset_declares, statesets_declare};
ghost use Rattle.rule_declares.specs.Declares.{formal_section, formal_declares, formals_declare};

use crate::entries::{constant, plain, state_set};
use crate::lasts::{names_last, text_last};
use crate::texts::{kinds_given, text_declares};
use crate::within::in_section;
use est_syntax::body::StateSet;
use est_syntax::constant::ConstDef;
use est_syntax::est_items::{Items, Shared};
use est_syntax::name::Used;
use est_syntax::routine::Formal;
use est_syntax::type_text::{TypeDef, VarDef};
use rule_declares::rule_kinds::constants::{constant_last, constant_value};
use rule_declares::rule_kinds::names::named_type;
use rule_declares::rule_kinds::texts::{text_place, text_type};
use rule_declares::rule_scope::declaration::{Section, SharedPlaces, Sort, Within};
use rule_declares::rule_scope::outline::Outline;
use std::alloc::{AllocError, Global};

// A constant.
fn constdef(within: &Within, item: &ConstDef, outline: &mut Outline) -> Result<(), AllocError>
    ensures { OnOk result (outline.new ≡ constdef_declares within.now item.now outline.old) }
{
    outline.lie(within, item.name.place)?;
    let value = constant_value(outline, &item.value)?;
    outline.declare(
        within,
        &item.name,
        constant_last(&item.value),
        constant(within, value),
    )
}

/// Constants.
pub fn consts(within: &Within, items: &[ConstDef], outline: &mut Outline) -> Result<(), AllocError>
    ensures { OnOk result (outline.new ≡ consts_declare within.now items.now outline.old) }
{
    for item in items {
        constdef(within, item, outline)?;
    }
    Ok(())
}

// A type. Its name is declared before those within its text, and gets its kind after them.
fn typedef(
    alloc: Global,
    within: &Within,
    item: &TypeDef,
    outline: &mut Outline,
) -> Result<(), AllocError>
    ensures { OnOk result (outline.new ≡ typedef_declares within.now item.now outline.old) }
{
    outline.lie(within, item.name.place)?;
    outline.declare(
        within,
        &item.name,
        text_last(&item.text),
        plain(within, Sort::TypeName),
    )?;
    text_declares(alloc, within, &item.text, outline)?;
    let kind = text_type(alloc, outline, &item.text)?;
    outline.give_kind(item.name.place, kind);
    Ok(())
}

/// Types.
pub fn types(
    alloc: Global,
    within: &Within,
    items: &[TypeDef],
    outline: &mut Outline,
) -> Result<(), AllocError>
    ensures { OnOk result (outline.new ≡ types_declare within.now items.now outline.old) }
{
    for item in items {
        typedef(alloc, within, item, outline)?;
    }
    Ok(())
}

// Variables whose kind is not known yet.
fn variables(
    within: &Within,
    names: &[Used],
    last: u32,
    outline: &mut Outline,
) -> Result<(), AllocError>
    ensures { OnOk result (outline.new ≡
        names_declare within.now names.now last (plain within.now sort.Variable) outline.old) }
{
    for used in names {
        outline.declare(within, used, last, plain(within, Sort::Variable))?;
    }
    Ok(())
}

// The kind of variables, after what the text of their type declares.
fn vardef_given(alloc: Global, item: &VarDef, outline: &mut Outline) -> Result<(), AllocError>
    ensures { OnOk result (outline.new ≡ vardef_given item.now outline.old) }
{
    let kind = text_type(alloc, outline, &item.text)?;
    kinds_given(item.names.as_slice(), &kind, outline)
}

// Variables of one type.
fn vardef(
    alloc: Global,
    within: &Within,
    item: &VarDef,
    outline: &mut Outline,
) -> Result<(), AllocError>
    ensures { OnOk result (outline.new ≡ vardef_declares within.now item.now outline.old) }
{
    outline.lie(within, text_place(&item.text))?;
    variables(
        within,
        item.names.as_slice(),
        text_last(&item.text),
        outline,
    )?;
    text_declares(alloc, within, &item.text, outline)?;
    vardef_given(alloc, item, outline)
}

/// Variables, parameters, exports or `any` variables.
pub fn vars(
    alloc: Global,
    within: &Within,
    items: &[VarDef],
    outline: &mut Outline,
) -> Result<(), AllocError>
    ensures { OnOk result (outline.new ≡ vars_declare within.now items.now outline.old) }
{
    for item in items {
        vardef(alloc, within, item, outline)?;
    }
    Ok(())
}

/// States.
pub fn states(within: &Within, names: &[Used], outline: &mut Outline) -> Result<(), AllocError>
    ensures { OnOk result (outline.new ≡ states_declare within.now names.now outline.old) }
{
    for used in names {
        outline.declare(within, used, used.place, plain(within, Sort::State))?;
    }
    Ok(())
}

// The states that names mean.
fn states_named(
    alloc: Global,
    outline: &Outline,
    names: &[Used],
) -> Result<SharedPlaces, AllocError>
    ensures { IfOk result (λ states. states ≡ states_named outline.now names.now) }
{
    let mut places = Items::new(alloc);
    for used in names {
        if let Some(place) = outline.declaration_of(Sort::State, used) {
            places.push(place)?;
        }
    }
    Shared::new(alloc, places)
}

// A state set.
fn stateset(
    alloc: Global,
    within: &Within,
    item: &StateSet,
    outline: &mut Outline,
) -> Result<(), AllocError>
    ensures { OnOk result (outline.new ≡ stateset_declares within.now item.now outline.old) }
{
    outline.lie(within, item.name.place)?;
    let last = names_last(item.states.as_slice(), item.name.place);
    let states = states_named(alloc, outline, item.states.as_slice())?;
    outline.declare(within, &item.name, last, state_set(within, states))
}

/// State sets.
pub fn statesets(
    alloc: Global,
    within: &Within,
    items: &[StateSet],
    outline: &mut Outline,
) -> Result<(), AllocError>
    ensures { OnOk result (outline.new ≡ statesets_declare within.now items.now outline.old) }
{
    for item in items {
        stateset(alloc, within, item, outline)?;
    }
    Ok(())
}

// The section of formals.
fn formal_section(item: &Formal) -> Section
    ensures { result ≡ formal_section item.now }
{
    if item.by_place {
        Section::Place
    } else {
        Section::Value
    }
}

// Formals of one type.
fn formal(within: &Within, item: &Formal, outline: &mut Outline) -> Result<(), AllocError>
    ensures { OnOk result (outline.new ≡ formal_declares within.now item.now outline.old) }
{
    outline.lie(within, item.kind.place)?;
    let inside = in_section(formal_section(item), within)?;
    variables(&inside, item.names.as_slice(), item.kind.place, outline)?;
    let kind = named_type(outline, &item.kind)?;
    kinds_given(item.names.as_slice(), &kind, outline)
}

/// Formals of a routine.
pub fn formals(within: &Within, items: &[Formal], outline: &mut Outline) -> Result<(), AllocError>
    ensures { OnOk result (outline.new ≡ formals_declare within.now items.now outline.old) }
{
    for item in items {
        formal(within, item, outline)?;
    }
    Ok(())
}

//! What the texts of types declare: the constants of enumerations, and the fields of records.
#![tactic(auto, using(crate::proofs::Rows::declared_rows))]

ghost use Rattle.std.specs.Prelude.{◌≡◌, OnOk};
ghost use Rattle.rule_declares.specs.Declares.{numbers_declare, kinds_given, enumeration_declares};
ghost use Rattle.rule_declares.specs.Declares.{names_put, text_declares};
ghost use Rattle.rule_outline.specs.inside.DeclaredTexts.{texts_declare, field_declares};
ghost use Rattle.rule_outline.specs.inside.DeclaredTexts.{fields_declare};
ghost use Rattle.rule_declares.specs.rule_scope.Declaring.{amended, with_kind};

use crate::entries::numbered;
use crate::lasts::names_last;
use est_syntax::name::Used;
use est_syntax::type_text::{TypeText, VarDef};
use rule_declares::rule_kinds::composed::enumeration;
use rule_declares::rule_kinds::value::copy_kind;
use rule_declares::rule_scope::declaration::{Measured, Member, Within};
use rule_declares::rule_scope::outline::Outline;
use std::alloc::{AllocError, Global};

// The constants of an enumeration, numbered from 0.
fn numbers_declare(
    within: &Within,
    names: &[Used],
    last: u32,
    outline: &mut Outline,
) -> Result<(), AllocError>
    ensures { OnOk result
        (outline.new ≡ numbers_declare within.now names.now last 0 outline.old) }
{
    for (number, used) in names.iter().enumerate() {
        outline.declare(within, used, last, numbered(within, number))?;
    }
    Ok(())
}

// The kind of one of them.
fn kind_given(used: &Used, kind: &Option<Measured>, outline: &mut Outline) -> Result<(), AllocError>
    ensures { OnOk result
        (outline.new ≡ amended (with_kind kind.now) used.now.place outline.old) }
{
    let kind = copy_kind(kind)?;
    outline.give_kind(used.place, kind);
    Ok(())
}

/// The kind of names that are declared together.
pub fn kinds_given(
    names: &[Used],
    kind: &Option<Measured>,
    outline: &mut Outline,
) -> Result<(), AllocError>
    ensures { OnOk result (outline.new ≡ kinds_given names.now kind.now outline.old) }
{
    for used in names {
        kind_given(used, kind, outline)?;
    }
    Ok(())
}

// The names of an enumeration.
fn enumeration_declares(
    alloc: Global,
    within: &Within,
    names: &[Used],
    place: u32,
    outline: &mut Outline,
) -> Result<(), AllocError>
    ensures { OnOk result
        (outline.new ≡ enumeration_declares within.now names.now place outline.old) }
{
    numbers_declare(within, names, names_last(names, place), outline)?;
    let kind = enumeration(alloc, outline, names, place)?;
    kinds_given(names, &kind, outline)
}

// The names of fields.
fn names_put(
    region: u32,
    names: &[Used],
    member: Member,
    outline: &mut Outline,
) -> Result<(), AllocError>
    ensures { OnOk result (outline.new ≡ names_put region names.now member outline.old) }
{
    for used in names {
        outline.put(region, used, member)?;
    }
    Ok(())
}

/// The enumerations and fields within the text of a type.
#[cycle(text)]
pub fn text_declares(
    alloc: Global,
    within: &Within,
    text: &TypeText,
    outline: &mut Outline,
) -> Result<(), AllocError>
    ensures { OnOk result (outline.new ≡ text_declares within.now text.now outline.old) }
{
    match text {
        TypeText::Named(_) => Ok(()),
        TypeText::Range { low: _, high: _ } => Ok(()),
        TypeText::Names { names, place } => {
            enumeration_declares(alloc, within, names.as_slice(), *place, outline)
        }
        TypeText::Array {
            index,
            of,
            place: _,
        } => {
            texts_declare(alloc, within, index.as_slice(), outline)?;
            text_declares(alloc, within, of.get(), outline)
        }
        TypeText::Fields { fields, place } => {
            fields_declare(alloc, within, *place, fields.as_slice(), outline)
        }
        TypeText::Set { of, place: _ } => text_declares(alloc, within, of.get(), outline),
    }
}

// Those within the texts of types.
#[cycle(text)]
fn texts_declare(
    alloc: Global,
    within: &Within,
    texts: &[TypeText],
    outline: &mut Outline,
) -> Result<(), AllocError>
    ensures { OnOk result (outline.new ≡ texts_declare within.now texts.now outline.old) }
{
    for text in texts {
        text_declares(alloc, within, text, outline)?;
    }
    Ok(())
}

// A section of fields of one type.
#[cycle(text)]
fn field_declares(
    alloc: Global,
    within: &Within,
    region: u32,
    field: &VarDef,
    outline: &mut Outline,
) -> Result<(), AllocError>
    ensures { OnOk result
        (outline.new ≡ field_declares within.now region field.now outline.old) }
{
    names_put(region, field.names.as_slice(), Member::Field, outline)?;
    text_declares(alloc, within, &field.text, outline)
}

// The sections of fields of a record.
#[cycle(text)]
fn fields_declare(
    alloc: Global,
    within: &Within,
    region: u32,
    fields: &[VarDef],
    outline: &mut Outline,
) -> Result<(), AllocError>
    ensures { OnOk result
        (outline.new ≡ fields_declare within.now region fields.now outline.old) }
{
    for field in fields {
        field_declares(alloc, within, region, field, outline)?;
    }
    Ok(())
}

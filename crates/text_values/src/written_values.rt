//! Values, written.
ghost use Rattle.std.specs.Prelude.{◌≡◌, ◌++◌, OnOk, OnErr, codes, length, replicate};
ghost use Rattle.est_syntax.specs.declared.kind.Kind.{out-Kind};
ghost use Rattle.text_values.specs.WrittenLists.{separator, listed, bracketed};
ghost use Rattle.text_values.specs.WrittenOrdinals.{ordinal_text};
ghost use Rattle.text_values.specs.WrittenValues as written;
ghost use Rattle.text_values.specs.WrittenValues.{value_text, value_texts, group_text};
ghost use Rattle.text_values.specs.WrittenValues.{field_kinds};

use crate::written_lists::append_separator;
use crate::written_ordinals::append_ordinal;
use crate::written_sets::append_set;
use est_syntax::kind::{FieldKind, Kind};
use est_values::value::{Value, Values};
use std::alloc::{AllocError, Global};

/// Adds the canonical text of a value of a kind to a text, which stays as it was where memory runs
/// out.
pub fn write_value(
    alloc: Global,
    kind: &Kind,
    value: &Value,
    into: &mut Vec<u8>,
) -> Result<(), AllocError>
    ensures ok { OnOk result (into.new.items ≡ into.old.items ++ value_text kind.now value.now) }
    ensures err { OnErr result (into.new.items ≡ into.old.items) }
{
    let mut text = Vec::new(alloc);
    append_value(&mut text, value, kind)?;
    into.extend_from_slice(text.as_slice())
}

/// Adds the canonical text of a value of a kind to a text. Where memory runs out, no clause says
/// what the text holds.
#[cycle(value)]
pub fn append_value(text: &mut Vec<u8>, value: &Value, kind: &Kind) -> Result<(), AllocError>
    ensures { OnOk result (text.new.items ≡ text.old.items ++ value_text kind.now value.now) }
{
    match value {
        Value::Undefined => text.extend_from_slice(b"_"),
        Value::Ordinal(ordinal) => append_defined(text, kind, ordinal),
        Value::Set(members) => append_set(text, base_of(kind), members.get().as_slice()),
        Value::Group(parts) => append_group(text, parts, kind),
    }
}

/// Adds the values of parameters of these kinds in parentheses, or nothing where there are none.
pub fn append_values(text: &mut Vec<u8>, values: &Values, kinds: &[Kind]) -> Result<(), AllocError>
    ensures { OnOk result (text.new.items ≡ text.old.items
        ++ bracketed (codes "(") (codes ")") (value_texts kinds.now values.now)) }
{
    if kinds.is_empty() {
        return Ok(());
    }
    if values.len() == 0 {
        return Ok(());
    }
    text.extend_from_slice(b"(")?;
    append_parameters(text, values, kinds)?;
    text.extend_from_slice(b")")
}

// Adds values of these kinds.
fn append_parameters(text: &mut Vec<u8>, values: &Values, kinds: &[Kind]) -> Result<(), AllocError>
    ensures { OnOk result (text.new.items
        ≡ text.old.items ++ listed (value_texts kinds.now values.now)) }
{
    for i in 0..kinds.len() {
        match values.get(i) {
            None => return Ok(()),
            Some(value) => {
                append_item(text, i, value, &kinds[i])?;
            }
        }
    }
    Ok(())
}

/// Adds an ordinal that is there.
pub fn append_defined(text: &mut Vec<u8>, kind: &Kind, ordinal: &i32) -> Result<(), AllocError>
    ensures { OnOk result (text.new.items ≡ text.old.items ++ ordinal_text kind.now ordinal.now) }
{
    append_ordinal(text, kind, *ordinal)
}

/// The kind that a set is over, and any other kind itself.
pub fn base_of(kind: &Kind) -> &Kind
    ensures { result.now ≡ written.base_by (out-Kind kind.now) kind.now }
{
    match kind {
        Kind::SetOf(base) => base.get(),
        _ => kind,
    }
}

// Adds a group in parentheses.
#[cycle(value)]
fn append_group(text: &mut Vec<u8>, parts: &Values, kind: &Kind) -> Result<(), AllocError>
    ensures { OnOk result (text.new.items ≡ text.old.items ++ group_text kind.now parts.now) }
{
    text.extend_from_slice(b"(")?;
    append_parts(text, parts, kind)?;
    text.extend_from_slice(b")")
}

// Adds a value of a list, after so many others.
#[cycle(value)]
fn append_item(
    text: &mut Vec<u8>,
    before: usize,
    value: &Value,
    kind: &Kind,
) -> Result<(), AllocError>
    ensures { OnOk result (text.new.items
        ≡ text.old.items ++ (separator before ++ value_text kind.now value.now)) }
{
    append_separator(text, before)?;
    append_value(text, value, kind)
}

// Adds the parts of a group.
#[cycle(value)]
fn append_parts(text: &mut Vec<u8>, parts: &Values, kind: &Kind) -> Result<(), AllocError>
    ensures { OnOk result (text.new.items
        ≡ text.old.items ++ listed (written.part_texts kind.now parts.now)) }
{
    match kind {
        Kind::ArrayOf { index: _, of } => append_elements(text, parts, of.get()),
        Kind::Fields(fields) => append_fields(text, parts, fields.get().as_slice()),
        _ => Ok(()),
    }
}

// Adds values of one kind.
#[cycle(value)]
fn append_elements(text: &mut Vec<u8>, parts: &Values, of: &Kind) -> Result<(), AllocError>
    ensures { OnOk result (text.new.items ≡ text.old.items
        ++ listed (value_texts (replicate (length parts.now) of.now) parts.now)) }
{
    for i in 0..parts.len() {
        match parts.get(i) {
            None => return Ok(()),
            Some(part) => {
                append_item(text, i, part, of)?;
            }
        }
    }
    Ok(())
}

// Adds the values of fields.
#[cycle(value)]
fn append_fields(text: &mut Vec<u8>, parts: &Values, fields: &[FieldKind]) -> Result<(), AllocError>
    ensures { OnOk result (text.new.items
        ≡ text.old.items ++ listed (value_texts (field_kinds fields.now) parts.now)) }
{
    for i in 0..fields.len() {
        match parts.get(i) {
            None => return Ok(()),
            Some(part) => {
                append_item(text, i, part, &fields[i].kind)?;
            }
        }
    }
    Ok(())
}

//! What was seen of values, written.
ghost use Rattle.std.specs.Prelude.{◌≡◌, ◌++◌, OnOk, codes, option_copied, slice_get};
ghost use Rattle.text_values.specs.WrittenLists.{separator, listed, bracketed};
ghost use Rattle.text_values.specs.WrittenSeen.{seen_text, seen_texts, seen_part_texts};
ghost use Rattle.text_values.specs.WrittenSeen.{seen_group_text};
ghost use Rattle.text_values.specs.WrittenValues.{field_kinds};
ghost use Rattle.text_values.specs.inside.Parts.{IsPartKind};

use crate::written_lists::append_separator;
use crate::written_sets::append_set;
use crate::written_values::{append_defined, base_of};
use est_seen::seen::{Seen, Seens};
use est_syntax::kind::{FieldKind, Kind};
use std::alloc::AllocError;

/// Adds the canonical text of what was seen of a value of a kind to a text. Where memory runs out,
/// no clause says what the text holds.
#[cycle(seen)]
pub fn append_seen(text: &mut Vec<u8>, seen: &Seen, kind: &Kind) -> Result<(), AllocError>
    ensures { OnOk result (text.new.items ≡ text.old.items ++ seen_text kind.now seen.now) }
{
    match seen {
        Seen::Any => text.extend_from_slice(b"?"),
        Seen::Undefined => text.extend_from_slice(b"_"),
        Seen::Ordinal(ordinal) => append_defined(text, kind, ordinal),
        Seen::Set(members) => append_set(text, base_of(kind), members.as_slice()),
        Seen::Group(parts) => append_group(text, parts, kind),
    }
}

/// Adds what was seen of the values of parameters of these kinds in parentheses, or nothing where
/// there are none.
pub fn append_seens(text: &mut Vec<u8>, seens: &Seens, kinds: &[Kind]) -> Result<(), AllocError>
    ensures { OnOk result (text.new.items ≡ text.old.items
        ++ bracketed (codes "(") (codes ")") (seen_texts kinds.now seens.now)) }
{
    if kinds.is_empty() {
        return Ok(());
    }
    if seens.len() == 0 {
        return Ok(());
    }
    text.extend_from_slice(b"(")?;
    append_parameters(text, seens, kinds)?;
    text.extend_from_slice(b")")
}

// Adds what was seen of values of these kinds.
fn append_parameters(text: &mut Vec<u8>, seens: &Seens, kinds: &[Kind]) -> Result<(), AllocError>
    ensures { OnOk result (text.new.items
        ≡ text.old.items ++ listed (seen_texts kinds.now seens.now)) }
{
    for i in 0..kinds.len() {
        match seens.get(i) {
            None => return Ok(()),
            Some(seen) => {
                append_item(text, i, seen, &kinds[i])?;
            }
        }
    }
    Ok(())
}

// The kind of the part of this number in a group of a kind.
fn part_kind(kind: &Kind, at: usize) -> Option<&Kind>
    ensures { IsPartKind kind.now at (option_copied result) }
{
    match kind {
        Kind::ArrayOf { index: _, of } => Some(of.get()),
        Kind::Fields(fields) => field_kind(fields.get().as_slice(), at),
        _ => None,
    }
}

// The kind of the field of this number.
fn field_kind(fields: &[FieldKind], at: usize) -> Option<&Kind>
    ensures { option_copied result ≡ slice_get (field_kinds fields.now) at }
{
    match fields.get(at) {
        Some(field) => Some(&field.kind),
        None => None,
    }
}

// Adds a group in parentheses.
#[cycle(seen)]
fn append_group(text: &mut Vec<u8>, parts: &Seens, kind: &Kind) -> Result<(), AllocError>
    ensures { OnOk result (text.new.items ≡ text.old.items ++ seen_group_text kind.now parts.now) }
{
    text.extend_from_slice(b"(")?;
    append_parts(text, parts, kind)?;
    text.extend_from_slice(b")")
}

// Adds the parts of a group.
#[cycle(seen)]
fn append_parts(text: &mut Vec<u8>, parts: &Seens, kind: &Kind) -> Result<(), AllocError>
    ensures { OnOk result (text.new.items
        ≡ text.old.items ++ listed (seen_part_texts kind.now parts.now)) }
{
    for i in 0..parts.len() {
        let Some(of) = part_kind(kind, i) else {
            return Ok(());
        };
        let Some(part) = parts.get(i) else {
            return Ok(());
        };
        append_item(text, i, part, of)?;
    }
    Ok(())
}

// Adds what was seen of a value of a list, after so many others.
#[cycle(seen)]
fn append_item(
    text: &mut Vec<u8>,
    before: usize,
    seen: &Seen,
    kind: &Kind,
) -> Result<(), AllocError>
    ensures { OnOk result (text.new.items
        ≡ text.old.items ++ (separator before ++ seen_text kind.now seen.now)) }
{
    append_separator(text, before)?;
    append_seen(text, seen, kind)
}

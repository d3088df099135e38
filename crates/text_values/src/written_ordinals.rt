//! Ordinals, written (ISO 7185, 6.4.2).
ghost use Rattle.std.specs.Prelude.{◌≡◌, ◌++◌, OnOk};
ghost use Rattle.est_syntax.specs.declared.kind.Kind.{out-Kind};
ghost use Rattle.text_values.specs.WrittenOrdinals as written;
ghost use Rattle.text_values.specs.WrittenOrdinals.{ordinal_text, character_text};
ghost use Rattle.text_values.specs.WrittenOrdinals.{boolean_text, constant_text};

use crate::written_numbers::{append_integer, append_number};
use est_syntax::kind::Kind;
use est_syntax::name::Name;
use std::alloc::AllocError;

/// Adds an ordinal of a kind to a text.
pub fn append_ordinal(text: &mut Vec<u8>, kind: &Kind, ordinal: i32) -> Result<(), AllocError>
    ensures { OnOk result (text.new.items ≡ text.old.items ++ ordinal_text kind.now ordinal) }
{
    match host_of(kind) {
        Kind::Integer => append_integer(text, ordinal),
        Kind::Boolean => append_boolean(text, ordinal),
        Kind::Char => append_character(text, natural(ordinal)),
        Kind::Enumeration { declared: _, names } => {
            append_constant(text, names.get().as_slice(), natural(ordinal))
        }
        Kind::Part {
            host: _,
            low: _,
            high: _,
        } => Ok(()),
        Kind::SetOf(_) => Ok(()),
        Kind::ArrayOf { index: _, of: _ } => Ok(()),
        Kind::Fields(_) => Ok(()),
    }
}

// The kind that a part is of, and any other kind itself.
fn host_of(kind: &Kind) -> &Kind
    ensures { result.now ≡ written.host_by (out-Kind kind.now) kind.now }
{
    match kind {
        Kind::Part {
            host,
            low: _,
            high: _,
        } => host.get(),
        _ => kind,
    }
}

// An ordinal that is not negative, and 0 for one that is.
fn natural(ordinal: i32) -> u32
    ensures { result ≡ written.to_natural ordinal }
{
    if ordinal < 0 { 0 } else { ordinal as u32 }
}

// Adds the name of a truth value.
fn append_boolean(text: &mut Vec<u8>, ordinal: i32) -> Result<(), AllocError>
    ensures { OnOk result (text.new.items ≡ text.old.items ++ boolean_text ordinal) }
{
    if ordinal == 0 {
        text.extend_from_slice(b"false")
    } else {
        text.extend_from_slice(b"true")
    }
}

// Adds the name of the constant of this number, where there is one.
fn append_constant(text: &mut Vec<u8>, names: &[Name], number: u32) -> Result<(), AllocError>
    ensures { OnOk result (text.new.items ≡ text.old.items ++ constant_text names.now number) }
{
    match names.get(number as usize) {
        Some(name) => text.extend_from_slice(name.bytes.as_slice()),
        None => Ok(()),
    }
}

// Whether a character stands for itself in a character constant, but for the quote.
fn is_printable(code: u32) -> bool
    ensures { result ≡ written.is_printable code }
{
    32 <= code && code <= 126
}

// Adds the character of this code: a constant where it is printable, else `chr` and its code.
fn append_character(text: &mut Vec<u8>, code: u32) -> Result<(), AllocError>
    ensures { OnOk result (text.new.items ≡ text.old.items ++ character_text code) }
{
    if !is_printable(code) {
        return append_code(text, code);
    }
    if code == 39 {
        return text.extend_from_slice(b"''''");
    }
    text.extend_from_slice(&[39, code as u8, 39])
}

// Adds `chr` and a code in parentheses.
fn append_code(text: &mut Vec<u8>, code: u32) -> Result<(), AllocError>
    ensures { OnOk result (text.new.items ≡ text.old.items ++ written.code_text code) }
{
    text.extend_from_slice(b"chr(")?;
    append_number(text, code)?;
    text.extend_from_slice(b")")
}

//! Constants by their names.
ghost use Rattle.std.specs.Prelude.{◌≡◌, bytes_eq};
ghost use Rattle.std.specs.Str.{str_to_ascii_lowercase};
ghost use Rattle.text_reader.specs.Tests.{named, stands};
ghost use Rattle.text_values.specs.TraceGrammar as grammar;
ghost use Rattle.text_values.specs.ValueReading.{Reads};
ghost use Rattle.text_values.specs.ValueShapes.{ShowsConstant};
ghost use Rattle.text_values.specs.inside.Looking.{IsFirstThere, IsConstantOf, IsFound};

use est_lexer::kind::TokenKind;
use est_syntax::kind::Kind;
use est_syntax::name::Name;
use est_values::ordinals::{first_ordinal, last_ordinal};
use text_reader::Reader;

/// A constant of an enumeration with these constants, of which the kind is a part.
pub fn constant(reader: &mut Reader, kind: &Kind, names: &[Name]) -> i32
    ensures { Reads (grammar.constants (grammar.bytes_of names.now) kind.now)
        (λ t. ShowsConstant kind.now result t) reader.old reader.new }
{
    let found = constant_here(reader, kind, names);
    reader.step(found.is_some());
    found.unwrap_or(0)
}

/// A constant of the type boolean, of which the kind is a part.
pub fn boolean(reader: &mut Reader, kind: &Kind) -> i32
    ensures { Reads (grammar.constants grammar.boolean_names kind.now)
        (λ t. ShowsConstant kind.now result t) reader.old reader.new }
{
    let found = boolean_here(reader, kind);
    reader.step(found.is_some());
    found.unwrap_or(0)
}

// The ordinal of the constant at the place.
fn constant_here(reader: &Reader, kind: &Kind, names: &[Name]) -> Option<i32>
    ensures { IsFound (grammar.bytes_of names.now) kind.now reader.now.tokens.now reader.now.at
        result }
{
    constant_of(kind, position_of(reader, names))
}

// The ordinal of the constant of the type boolean at the place.
fn boolean_here(reader: &Reader, kind: &Kind) -> Option<i32>
    ensures { IsFound grammar.boolean_names kind.now reader.now.tokens.now reader.now.at result }
{
    constant_of(kind, boolean_at(reader))
}

// The place of the first constant whose name stands at the place of the reader.
fn position_of(reader: &Reader, names: &[Name]) -> Option<usize>
    ensures { IsFirstThere (grammar.bytes_of names.now) reader.now.tokens.now reader.now.at result }
{
    for place in 0..names.len() {
        if stands_name(reader, names[place].bytes.as_slice()) {
            return Some(place);
        }
    }
    None
}

// The place of the constant of the type boolean whose name stands at the place of the reader.
fn boolean_at(reader: &Reader) -> Option<usize>
    ensures { IsFirstThere grammar.boolean_names reader.now.tokens.now reader.now.at result }
{
    if stands_name(reader, b"false") {
        Some(0)
    } else if stands_name(reader, b"true") {
        Some(1)
    } else {
        None
    }
}

// Whether this name, given in lower case, stands at the place of the reader in any letter case.
fn stands_name(reader: &Reader, name: &[u8]) -> bool
    ensures { stands reader.now.tokens.now reader.now.at (named name.now) ≡ result }
{
    match reader.tokens.token_at(reader.at) {
        Some(found) => {
            found.kind == TokenKind::Identifier
                && is_lowered(reader.tokens.spelled(reader.at), name)
        }
        None => false,
    }
}

// Whether these bytes in lower case are those of a name.
fn is_lowered(bytes: &[u8], name: &[u8]) -> bool
    ensures { bytes_eq name.now (str_to_ascii_lowercase bytes.now) ≡ result }
{
    if bytes.len() != name.len() {
        return false;
    }
    for i in 0..bytes.len() {
        if bytes[i].to_ascii_lowercase() != name[i] {
            return false;
        }
    }
    true
}

// The number of a constant as an ordinal of the kind, where it is one.
fn constant_of(kind: &Kind, place: Option<usize>) -> Option<i32>
    ensures { IsConstantOf kind.now place result }
{
    let place = place?;
    let last = last_ordinal(kind);
    if last < 0 || (last as usize) < place {
        return None;
    }
    let ordinal = place as i32;
    if ordinal < first_ordinal(kind) {
        return None;
    }
    Some(ordinal)
}

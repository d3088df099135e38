//! The components of kinds.

ghost use Rattle.std.specs.Prelude.{◌≡◌};
ghost use Rattle.mean_blocks.specs.NamesInRuns.{array_in, field_from, field_in};
ghost use Rattle.plain_declared.specs.ShownNames.{both_of, numbered_of};

use est_syntax::kind::{FieldKind, Kind};
use est_syntax::name::{Name, Used};

/// The kinds of an array's index and of its components.
pub fn array_in(kind: &Kind) -> Option<(&Kind, &Kind)>
    ensures { both_of result ≡ array_in kind.now }
{
    match kind {
        Kind::ArrayOf { index, of } => Some((index.get(), of.get())),
        _ => None,
    }
}

// The number and the kind of the field that has this name.
fn field_from<'k>(fields: &'k [FieldKind], name: &Name) -> Option<(usize, &'k Kind)>
    ensures { numbered_of result ≡ field_from 0 fields.now name.now.bytes }
{
    for number in 0..fields.len() {
        let field = &fields[number];
        if name.bytes.as_slice() == field.name.bytes.as_slice() {
            return Some((number, &field.kind));
        }
    }
    None
}

/// The number, counted from 0, and the kind of a field of a record.
pub fn field_in<'k>(kind: &'k Kind, used: &Used) -> Option<(usize, &'k Kind)>
    ensures { numbered_of result ≡ field_in kind.now used.now }
{
    match kind {
        Kind::Fields(fields) => field_from(fields.get().as_slice(), &used.name),
        _ => None,
    }
}

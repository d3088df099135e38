//! Kinds that are alike (ISO 7185, 6.4.5).

ghost use Rattle.std.specs.Prelude.{◌≡◌};
ghost use Rattle.est_syntax.specs.Names.{is_name};
ghost use Rattle.est_values.specs.Alike.{are_same_bounds, is_alike, is_alike_field, are_alike};

use est_syntax::kind::{FieldKind, FieldKinds, Kind};
use est_syntax::name::Name;

// Whether two names are spelled alike.
fn is_name(one: &Name, other: &Name) -> bool
    ensures { result ≡ is_name one.now.bytes other.now.bytes }
{
    one.bytes.as_slice() == other.bytes.as_slice()
}

// Whether two parts have the same bounds.
fn are_same_bounds(low: i32, high: i32, from: i32, to: i32) -> bool
    ensures { result ≡ are_same_bounds low high from to }
{
    low == from && high == to
}

/// Whether two kinds have the same structure.
#[cycle(alike)]
#[tactic(auto, using(crate::proofs::Rows::layers_alike))]
pub fn is_alike(one: &Kind, other: &Kind) -> bool
    ensures { result ≡ is_alike one.now other.now }
{
    match (one, other) {
        (Kind::Integer, Kind::Integer) => true,
        (Kind::Boolean, Kind::Boolean) => true,
        (Kind::Char, Kind::Char) => true,
        (
            Kind::Enumeration { declared, names: _ },
            Kind::Enumeration {
                declared: other,
                names: _,
            },
        ) => *declared == *other,
        (
            Kind::Part { host, low, high },
            Kind::Part {
                host: other,
                low: from,
                high: to,
            },
        ) => are_same_bounds(*low, *high, *from, *to) && is_alike(host.get(), other.get()),
        (Kind::SetOf(base), Kind::SetOf(other)) => is_alike(base.get(), other.get()),
        (
            Kind::ArrayOf { index, of },
            Kind::ArrayOf {
                index: other,
                of: held,
            },
        ) => is_alike(index.get(), other.get()) && is_alike(of.get(), held.get()),
        (Kind::Fields(fields), Kind::Fields(others)) => are_alike(fields.get(), others.get()),
        _ => false,
    }
}

// Whether two fields have one name and alike kinds.
#[cycle(alike)]
fn is_alike_field(one: &FieldKind, other: &FieldKind) -> bool
    ensures { result ≡ is_alike_field one.now other.now }
{
    is_name(&one.name, &other.name) && is_alike(&one.kind, &other.kind)
}

// Whether two lists have fields with the same names and alike kinds, in order.
#[cycle(alike)]
fn are_alike(fields: &FieldKinds, others: &FieldKinds) -> bool
    ensures { result ≡ are_alike fields.now others.now }
{
    let fields = fields.as_slice();
    let others = others.as_slice();
    if fields.len() != others.len() {
        return false;
    }
    for i in 0..fields.len() {
        if !is_alike_field(&fields[i], &others[i]) {
            return false;
        }
    }
    true
}

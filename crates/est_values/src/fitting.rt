//! The values that fit a kind, and the one that is undefined throughout.
ghost use Rattle.std.specs.Prelude.{◌≡◌, ◌↔◌, IsTrue, length};
ghost use Rattle.est_values.specs.declared.value.Value.{out-Value};
ghost use Rattle.est_syntax.specs.declared.kind.Kind.{out-Kind};
ghost use Rattle.est_values.specs.FittingValues.{Fits, AreMembersOf};
ghost use Rattle.est_values.specs.inside.FittingLayers.{FitsOrdinal, FitsSet, FitsArray};
ghost use Rattle.est_values.specs.inside.FittingLayers.{FitsRecord, EachFits, FieldsFit};

use crate::ordinals::{first_ordinal, last_ordinal, ordinal_count};
use crate::value::{Value, Values};
use est_syntax::kind::{FieldKinds, Kind};

/// Whether a value fits a kind.
#[cycle(fits)]
pub fn fits(value: &Value, kind: &Kind) -> bool
    ensures { IsTrue result ↔ Fits kind.now value.now }
{
    match kind {
        Kind::Integer => fits_ordinal(value, kind),
        Kind::Boolean => fits_ordinal(value, kind),
        Kind::Char => fits_ordinal(value, kind),
        Kind::Enumeration {
            declared: _,
            names: _,
        } => fits_ordinal(value, kind),
        Kind::Part {
            host: _,
            low: _,
            high: _,
        } => fits_ordinal(value, kind),
        Kind::SetOf(base) => fits_set(value, base.get()),
        Kind::ArrayOf { index, of } => fits_array(value, index.get(), of.get()),
        Kind::Fields(fields) => fits_record(value, fields.get()),
    }
}

// Whether a value fits an ordinal kind.
fn fits_ordinal(value: &Value, kind: &Kind) -> bool
    ensures { IsTrue result ↔ FitsOrdinal (out-Kind kind.now) (out-Value value.now) }
{
    match value {
        Value::Undefined => true,
        Value::Ordinal(ordinal) => {
            first_ordinal(kind) <= *ordinal && *ordinal <= last_ordinal(kind)
        }
        Value::Set(_) => false,
        Value::Group(_) => false,
    }
}

// Whether ordinals are the members of a set over a base.
fn are_members_of(members: &[i32], base: &Kind) -> bool
    ensures { IsTrue result ↔ AreMembersOf base.now members.now }
{
    let mut least = first_ordinal(base) as i64;
    let last = last_ordinal(base) as i64;
    for member in members {
        let member = *member as i64;
        if member < least || last < member {
            return false;
        }
        least = member + 1;
    }
    true
}

// Whether a value fits a set over a base.
fn fits_set(value: &Value, base: &Kind) -> bool
    ensures { IsTrue result ↔ FitsSet base.now (out-Value value.now) }
{
    match value {
        Value::Undefined => true,
        Value::Ordinal(_) => false,
        Value::Set(members) => are_members_of(members.get().as_slice(), base),
        Value::Group(_) => false,
    }
}

// Whether a value fits an array.
#[cycle(fits)]
fn fits_array(value: &Value, index: &Kind, of: &Kind) -> bool
    ensures { IsTrue result ↔ FitsArray index.now of.now (out-Value value.now) }
{
    match value {
        Value::Undefined => false,
        Value::Ordinal(_) => false,
        Value::Set(_) => false,
        Value::Group(parts) => {
            parts.len() as u64 == ordinal_count(index) && each_fits(parts, of)
        }
    }
}

// Whether all of these values fit a kind.
#[cycle(fits)]
fn each_fits(parts: &Values, of: &Kind) -> bool
    ensures { IsTrue result ↔ EachFits of.now parts.now }
{
    for i in 0..parts.len() {
        match parts.get(i) {
            None => return false,
            Some(part) => {
                if !fits(part, of) {
                    return false;
                }
            }
        }
    }
    true
}

// Whether a value fits a record.
#[cycle(fits)]
fn fits_record(value: &Value, fields: &FieldKinds) -> bool
    ensures { IsTrue result ↔ FitsRecord fields.now (out-Value value.now) }
{
    match value {
        Value::Undefined => false,
        Value::Ordinal(_) => false,
        Value::Set(_) => false,
        Value::Group(parts) => parts.len() == fields.len() && fields_fit(parts, fields),
    }
}

// Whether values fit fields, one for one.
#[cycle(fits)]
fn fields_fit(parts: &Values, fields: &FieldKinds) -> bool
    requires { length parts.now ≡ length fields.now }
    ensures { IsTrue result ↔ FieldsFit fields.now parts.now }
{
    let fields = fields.as_slice();
    for i in 0..fields.len() {
        match parts.get(i) {
            None => return false,
            Some(part) => {
                if !fits(part, &fields[i].kind) {
                    return false;
                }
            }
        }
    }
    true
}

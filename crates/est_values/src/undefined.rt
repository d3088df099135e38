//! The value that is undefined throughout.
ghost use Rattle.std.specs.Prelude.{◌≡◌, replicate, IfOk};
ghost use Rattle.est_values.specs.FittingValues.{IsUndefinedOf};
ghost use Rattle.est_values.specs.inside.FittingLayers.{AreUndefined};

use crate::ordinals::ordinal_count;
use crate::value::{Value, Values};
use est_syntax::est_items::Twin;
use est_syntax::kind::{FieldKinds, Kind};
use std::alloc::{AllocError, Global};

/// The value of a kind each scalar of which is undefined. Errs where memory runs out.
#[cycle(undefined)]
pub fn undefined_value(kind: &Kind, alloc: Global) -> Result<Value, AllocError>
    ensures { IfOk result (λ value. IsUndefinedOf kind.now value) }
{
    match kind {
        Kind::Integer => Ok(Value::Undefined),
        Kind::Boolean => Ok(Value::Undefined),
        Kind::Char => Ok(Value::Undefined),
        Kind::Enumeration {
            declared: _,
            names: _,
        } => Ok(Value::Undefined),
        Kind::Part {
            host: _,
            low: _,
            high: _,
        } => Ok(Value::Undefined),
        Kind::SetOf(_) => Ok(Value::Undefined),
        Kind::ArrayOf { index, of } => {
            let part = undefined_value(of.get(), alloc)?;
            let parts = repeated(&part, ordinal_count(index.get()), alloc);
            drop(part);
            Ok(Value::Group(parts?))
        }
        Kind::Fields(fields) => {
            let parts = undefined_fields(fields.get(), alloc)?;
            Ok(Value::Group(parts))
        }
    }
}

// So many equal values.
fn repeated(value: &Value, count: u64, alloc: Global) -> Result<Values, AllocError>
    ensures { IfOk result (λ values. values ≡ replicate count value.now) }
{
    let mut values = Values::new(alloc)?;
    for _turn in 0..count {
        let twin = value.twin(alloc)?;
        values.push(alloc, twin)?;
    }
    Ok(values)
}

// One undefined value for each field.
#[cycle(undefined)]
fn undefined_fields(fields: &FieldKinds, alloc: Global) -> Result<Values, AllocError>
    ensures { IfOk result (λ values. AreUndefined fields.now values) }
{
    let mut values = Values::new(alloc)?;
    for field in fields.as_slice() {
        let value = undefined_value(&field.kind, alloc)?;
        values.push(alloc, value)?;
    }
    Ok(values)
}

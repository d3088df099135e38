//! Values that were seen whole.
ghost use Rattle.std.specs.Prelude.{◌≡◌, IfOk};
ghost use Rattle.std.specs.Option.{option_map};
ghost use Rattle.est_values.specs.declared.value.Value.TheVariants as value;
ghost use Rattle.est_trace.specs.inside.Wholes.{IsWhole, AreWhole};

use est_seen::seen::{Seen, Seens};
use est_syntax::est_items::{Shared, Twin};
use est_syntax::kind::Ordinals;
use est_values::value::{Value, Values};
use std::alloc::{AllocError, Global};

// The value that was seen, where it was seen whole. Errs where memory runs out.
#[cycle(whole)]
fn whole(alloc: Global, seen: &Seen) -> Result<Option<Value>, AllocError>
    ensures { IfOk result (λ found. IsWhole seen.now found) }
{
    match seen {
        Seen::Any => Ok(None),
        Seen::Undefined => Ok(Some(Value::Undefined)),
        Seen::Ordinal(ordinal) => Ok(Some(Value::Ordinal(*ordinal))),
        Seen::Set(members) => {
            let members = shared(alloc, members)?;
            Ok(Some(Value::Set(members)))
        }
        Seen::Group(parts) => {
            let values = whole_values(alloc, parts)?;
            Ok(group(values))
        }
    }
}

/// The values that were seen, where they were seen whole. Errs where memory runs out.
#[cycle(whole)]
pub fn whole_values(alloc: Global, seens: &Seens) -> Result<Option<Values>, AllocError>
    ensures { IfOk result (λ found. AreWhole seens.now found) }
{
    let mut values = Values::new(alloc)?;
    for seen in seens.as_slice() {
        match whole(alloc, seen)? {
            None => return Ok(None),
            Some(value) => values.push(alloc, value)?,
        }
    }
    Ok(Some(values))
}

// The members of a set, with owners.
fn shared(alloc: Global, members: &Ordinals) -> Result<Shared<Ordinals>, AllocError>
    ensures { IfOk result (λ shared. shared ≡ members.now) }
{
    let members = members.twin(alloc)?;
    Shared::new(alloc, members)
}

// The group of values, where there are some.
fn group(values: Option<Values>) -> Option<Value>
    ensures { result ≡ option_map value.Group values }
{
    match values {
        None => None,
        Some(parts) => Some(Value::Group(parts)),
    }
}

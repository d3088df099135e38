//! The parts of values.
ghost use Rattle.std.specs.Prelude.{◌≡◌, IfOk, option_copied};
ghost use Rattle.est_values.specs.PartsOfValues.{part_at, with_part, with_part_in};

use crate::value::{Value, Values};
use std::alloc::{AllocError, Global};

/// The part at a path of numbers, if there is one.
pub fn part_at<'v>(value: &'v Value, path: &[u32]) -> Option<&'v Value>
    ensures { option_copied result ≡ part_at path.now value.now }
{
    match path.split_first() {
        None => Some(value),
        Some((at, rest)) => match value {
            Value::Group(parts) => match parts.get(*at as usize) {
                None => None,
                Some(part) => part_at(part, rest),
            },
            _ => None,
        },
    }
}

/// The value with another part at a path of numbers, or none where it has no part there. What it
/// shares with others is copied first, a chunk at each level of the path.
#[cycle(write)]
pub fn with_part(
    alloc: Global,
    value: Value,
    path: &[u32],
    part: Value,
) -> Result<Option<Value>, AllocError>
    ensures { IfOk result (λ changed. changed ≡ with_part part path.now value) }
{
    match path.split_first() {
        None => {
            drop(value);
            Ok(Some(part))
        }
        Some((at, rest)) => match value {
            Value::Group(parts) => with_part_in(alloc, parts, *at as usize, rest, part),
            _ => Ok(None),
        },
    }
}

// The same in the part of this number: it is taken out, changed and put back.
#[cycle(write)]
fn with_part_in(
    alloc: Global,
    parts: Values,
    at: usize,
    rest: &[u32],
    part: Value,
) -> Result<Option<Value>, AllocError>
    ensures { IfOk result (λ changed. changed ≡ with_part_in part at rest.now parts) }
{
    let mut parts = parts;
    if parts.get(at).is_none() {
        return Ok(None);
    }
    let old = parts.exchange(alloc, at, Value::Undefined)?;
    match with_part(alloc, old, rest, part)? {
        None => Ok(None),
        Some(new) => {
            parts.set(alloc, at, new)?;
            Ok(Some(Value::Group(parts)))
        }
    }
}

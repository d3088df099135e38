//! What comes of the parts of guards, each of which is evaluated by itself.
ghost use Rattle.std.specs.Prelude.{◌≡◌, IfOk, OnErr, IsErrAnd, false, pos, int_le};
ghost use Rattle.std.specs.List.{list_any};
ghost use Rattle.est_meaning.specs.mean_blocks.AnswersOfCalls.{IsMemory};
ghost use Rattle.est_meaning.specs.mean_blocks.BlockLevels.{most_levels, site};
ghost use Rattle.est_meaning.specs.mean_blocks.TakenValues.{within_kind};
ghost use Rattle.plain_operands.specs.ExecutionSites.{site_of};
ghost use Rattle.plain_clauses.specs.EvaluatedParts.{held_by, held_onward, IsOrdinalOf, is_past};
ghost use Rattle.plain_clauses.specs.EvaluatedParts.{is_held_met, is_held_unmet, ordinal_held};
ghost use Rattle.plain_clauses.specs.EvaluatedParts.{is_held_reached, ordinals_held};

use est_meaning::mean_blocks::fault::BlockFault;
use est_meaning::mean_blocks::stop::Stop;
use est_syntax::est_items::Items;
use est_syntax::kind::{Kind, Ordinals};
use est_values::value::Value;
use plain_operands::site::Site;
use plain_queues::plain_texts::text::Text;
use plain_values::ordinals::is_true;
use plain_values::taking::within_kind;
use plain_values::values::ordinal;
use std::alloc::{AllocError, Global};

// How many levels calls may open within one another.
const MOST_LEVELS: u32 = 32;

/// What comes of a part: its ordinal, a fault, or that it passes its limit.
#[derive(Clone, Copy)]
pub enum Evaluated {
    Ordinal(i32),
    Fault,
    Limit,
}

/// Where the parts of the guards of an instance are evaluated.
pub fn site_at<'s, 't>(text: &'s Text<'t>, instance: u32) -> Site<'s, 't>
    ensures text { result.text.now ≡ text.now }
    ensures site { site_of result ≡ site text.now instance false most_levels }
{
    Site {
        text,
        instance,
        function: false,
        levels: MOST_LEVELS,
    }
}

// What comes of an ordinal or its fault.
fn held_by(number: Result<i32, BlockFault>) -> Evaluated
    ensures { result ≡ held_by number }
{
    match number {
        Ok(z) => Evaluated::Ordinal(z),
        Err(_) => Evaluated::Fault,
    }
}

/// What comes of the ordinal that a value is. Errs where memory ran out.
pub fn ordinal_of(value: Result<Value, Stop>) -> Result<Evaluated, AllocError>
    ensures ok { IfOk result (λ part. IsOrdinalOf value part) }
    ensures err { OnErr result (IsErrAnd value (λ stop. IsMemory stop)) }
{
    match value {
        Ok(value) => {
            let number = ordinal(&value);
            drop(value);
            Ok(held_by(number))
        }
        Err(Stop::Fault(_)) => Ok(Evaluated::Fault),
        Err(Stop::Limit) => Ok(Evaluated::Limit),
        Err(Stop::Memory(error)) => Err(error),
    }
}

/// What comes of a part whose ordinal has to be one of a kind.
pub fn within(kind: &Kind, part: Evaluated) -> Evaluated
    ensures { result ≡ held_onward part (within_kind kind.now) }
{
    match part {
        Evaluated::Ordinal(z) => held_by(within_kind(kind, z)),
        Evaluated::Fault => Evaluated::Fault,
        Evaluated::Limit => Evaluated::Limit,
    }
}

/// Whether a part passes its limit.
pub fn is_past(part: Evaluated) -> bool
    ensures { result ≡ is_past part }
{
    match part {
        Evaluated::Limit => true,
        _ => false,
    }
}

/// The ordinal of a part, if it has one.
pub fn ordinal_held(part: Evaluated) -> Option<i32>
    ensures { result ≡ ordinal_held part }
{
    match part {
        Evaluated::Ordinal(z) => Some(z),
        _ => None,
    }
}

/// Whether a condition holds.
pub fn is_met(part: Evaluated) -> bool
    ensures { result ≡ is_held_met part }
{
    match part {
        Evaluated::Ordinal(z) => is_true(z),
        _ => false,
    }
}

/// Whether a condition is false or has a fault.
pub fn is_unmet(part: Evaluated) -> bool
    ensures { result ≡ is_held_unmet part }
{
    match part {
        Evaluated::Ordinal(z) => !is_true(z),
        Evaluated::Fault => true,
        Evaluated::Limit => false,
    }
}

// Whether a number is not above another one.
fn is_at_most(z: i32, age: u64) -> bool
    ensures { result ≡ int_le z (pos age) }
{
    z < 0 || z as u64 <= age
}

/// Whether a bound is not above an age, if that is known.
pub fn is_reached(part: Evaluated, age: Option<u64>) -> bool
    ensures { result ≡ is_held_reached part age }
{
    match (age, part) {
        (Some(age), Evaluated::Ordinal(z)) => is_at_most(z, age),
        _ => false,
    }
}

/// Whether one of these parts passes its limit.
pub fn is_some_past(parts: &[Evaluated]) -> bool
    ensures { result ≡ list_any is_past parts.now }
{
    parts.iter().any(|part| is_past(*part))
}

/// The ordinals of parts, if each has one.
pub fn ordinals_held(alloc: Global, parts: &[Evaluated]) -> Result<Option<Ordinals>, AllocError>
    ensures { IfOk result (λ ordinals. ordinals ≡ ordinals_held parts.now) }
{
    let mut ordinals = Items::new(alloc);
    for part in parts {
        let Some(z) = ordinal_held(*part) else {
            drop(ordinals);
            return Ok(None);
        };
        ordinals.push(z)?;
    }
    Ok(Some(ordinals))
}

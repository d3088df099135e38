//! What a variable takes, and what it is at first (ISO 7185, 6.4.6 and 6.5.1).
ghost use Rattle.std.specs.Prelude.{◌≡◌, IfOk, option_copied};
ghost use Rattle.std.specs.List.{list_all};
ghost use Rattle.est_syntax.specs.declared.kind.Kind.{out-Kind};
ghost use Rattle.mean_blocks.specs.TakenValues.{is_within, within_kind, component_at};
ghost use Rattle.mean_blocks.specs.TakenValues.{are_within, taken};
ghost use Rattle.mean_blocks.specs.FunctionCalls.{first_value};

use est_syntax::kind::Kind;
use est_values::ordinals::{first_ordinal, last_ordinal};
use est_values::undefined::undefined_value;
use est_values::value::Value;
use mean_blocks::fault::BlockFault;
use std::alloc::{AllocError, Global};

// Whether an ordinal is one of a kind.
fn is_within(kind: &Kind, z: i32) -> bool
    ensures { result ≡ is_within kind.now z }
{
    first_ordinal(kind) <= z && z <= last_ordinal(kind)
}

/// An ordinal, where it is one of a kind.
pub fn within_kind(kind: &Kind, z: i32) -> Result<i32, BlockFault>
    ensures { result ≡ within_kind kind.now z }
{
    if is_within(kind, z) {
        Ok(z)
    } else {
        Err(BlockFault::Range)
    }
}

/// The number, counted from 0, of the component at a subscript.
pub fn component_at(index: &Kind, z: i32) -> Result<u32, BlockFault>
    ensures { result ≡ component_at index.now z }
{
    if is_within(index, z) {
        Ok((z as i64 - first_ordinal(index) as i64) as u32)
    } else {
        Err(BlockFault::Range)
    }
}

// Whether all of these are ordinals of a kind.
fn are_all_within(base: &Kind, members: &[i32]) -> bool
    ensures { result ≡ list_all (is_within base.now) members.now }
{
    members.iter().all(|member| is_within(base, *member))
}

// Whether the members of a set are ordinals of the base of a kind.
fn are_within(kind: &Kind, members: &[i32]) -> bool
    ensures { result ≡ are_within (out-Kind kind.now) members.now }
{
    match kind {
        Kind::SetOf(base) => are_all_within(base.get(), members),
        _ => false,
    }
}

/// A value, where a variable of a kind takes it.
pub fn taken(kind: &Kind, value: Value) -> Result<Value, BlockFault>
    ensures { result ≡ taken kind.now value }
{
    match value {
        Value::Ordinal(z) => Ok(Value::Ordinal(within_kind(kind, z)?)),
        Value::Set(members) => {
            if are_within(kind, members.get().as_slice()) {
                Ok(Value::Set(members))
            } else {
                drop(members);
                Err(BlockFault::Range)
            }
        }
        other => Ok(other),
    }
}

/// The value with which a variable of a kind begins.
#[tactic(auto, using(mean_blocks::proofs::UndefinedUnique::undefined_unique))]
pub fn first_value(alloc: Global, kind: Option<&Kind>) -> Result<Value, AllocError>
    ensures { IfOk result (λ value. value ≡ first_value (option_copied kind.entry)) }
{
    match kind {
        None => Ok(Value::Undefined),
        Some(kind) => undefined_value(kind, alloc),
    }
}

//! Operators on values (ISO 7185, 6.7.2).
ghost use Rattle.std.specs.Prelude.{◌≡◌, ℕ};
ghost use Rattle.mean_blocks.specs.AnswersOfCalls.{Says};
ghost use Rattle.mean_blocks.specs.Outcome.{lift};
ghost use Rattle.mean_blocks.specs.ValueOperators.{unsigned_integer, ordinal_in, defined_in};
ghost use Rattle.mean_blocks.specs.ValueOperators.{operated, signed, negated};
ghost use Rattle.est_values.specs.declared.value.Value.TheVariants.{Ordinal, Set};
ghost use Rattle.plain_values.specs.JoinedValues.{stops, of_both};

use crate::ordinals::{exact, is_true, truth};
use crate::sets::{combined, decided, is_member};
use est_syntax::constant::Sign;
use est_syntax::expression::Operator;
use est_syntax::kind::MAXINT;
use est_values::arithmetic::negative;
use est_values::value::Value;
use mean_blocks::fault::BlockFault;
use mean_blocks::stop::Stop;
use std::alloc::Global;

/// The integer of an unsigned number.
pub fn unsigned_integer(n: u64) -> Result<Value, BlockFault>
    ensures { result ≡ unsigned_integer n }
{
    if n <= MAXINT as u64 {
        Ok(Value::Ordinal(n as i32))
    } else {
        Err(BlockFault::Undefined)
    }
}

/// The ordinal that a value is.
pub fn ordinal(value: &Value) -> Result<i32, BlockFault>
    ensures { result ≡ ordinal_in value.now }
{
    match value {
        Value::Ordinal(z) => Ok(*z),
        _ => Err(BlockFault::Undefined),
    }
}

/// The value of a variable, which has to be defined.
pub fn defined(value: Value) -> Result<Value, BlockFault>
    ensures { result ≡ defined_in value }
{
    match value {
        Value::Undefined => Err(BlockFault::Undefined),
        other => Ok(other),
    }
}

// An operator on an ordinal and a set.
fn within(op: Operator, z: i32, members: &[i32]) -> Result<Value, BlockFault>
    ensures { result ≡ operated op (Ordinal z) (Set members.now) }
{
    match op {
        Operator::Within => Ok(decided(is_member(members, z))),
        _ => Err(BlockFault::Undefined),
    }
}

/// An operator on two values.
pub fn operated(alloc: Global, op: Operator, a: &Value, b: &Value) -> Result<Value, Stop>
    ensures { Says (operated op a.now b.now) result }
{
    match (a, b) {
        (Value::Ordinal(x), Value::Ordinal(y)) => {
            let z = crate::ordinals::operated(op, *x, *y)?;
            Ok(Value::Ordinal(z))
        }
        (Value::Ordinal(z), Value::Set(members)) => {
            let value = within(op, *z, members.get().as_slice())?;
            Ok(value)
        }
        (Value::Set(xs), Value::Set(ys)) => combined(alloc, op, xs.get(), ys.get()),
        _ => Err(Stop::Fault(BlockFault::Undefined)),
    }
}

/// Whether `and` or `or` stops at the value of its left operand, which is then that of both.
pub fn decides(op: Operator, a: &Value) -> Result<bool, BlockFault>
    ensures { result ≡ stops op a.now }
{
    match op {
        Operator::Or => Ok(is_true(ordinal(a)?)),
        Operator::And => Ok(!is_true(ordinal(a)?)),
        _ => Ok(false),
    }
}

/// What an operator that does not stop at the left value yields of both: for `and` and `or` the
/// right one.
pub fn joined(alloc: Global, op: Operator, a: &Value, b: Value) -> Result<Value, Stop>
    ensures { Says (of_both op a.now b) result }
{
    match op {
        Operator::Or => Ok(b),
        Operator::And => Ok(b),
        _ => {
            let value = operated(alloc, op, a, &b);
            drop(b);
            value
        }
    }
}

/// An operand after its sign.
pub fn signed(sign: Option<Sign>, a: Value) -> Result<Value, BlockFault>
    ensures { (n : ℕ) → signed sign a n ≡ lift result n }
{
    match sign {
        Some(Sign::Minus) => {
            let z = ordinal(&a);
            drop(a);
            let opposite = exact(negative(z?))?;
            Ok(Value::Ordinal(opposite))
        }
        _ => Ok(a),
    }
}

/// The other boolean.
pub fn negated(a: &Value) -> Result<Value, BlockFault>
    ensures { (n : ℕ) → negated a.now n ≡ lift result n }
{
    let z = ordinal(a)?;
    Ok(Value::Ordinal(truth(!is_true(z))))
}

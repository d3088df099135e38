//! Operands of expressions: their ordinals, and the members of sets.
ghost use Rattle.std.specs.Prelude.{◌≡◌, ℕ, ℤ, List, [], ◌∷◌, ◌++◌, OnOk};
ghost use Rattle.mean_blocks.specs.AnswersOfCalls.{Answers, Says};
ghost use Rattle.mean_blocks.specs.Outcome.{counted, lift};
ghost use Rattle.mean_blocks.specs.SetOperators.{set_of};
ghost use Rattle.mean_blocks.specs.ValueOperators.{ordinal_in, spanned, signed, negated};
ghost use Rattle.mean_blocks.specs.declared.frame.Slot.TheVariants as slot;
ghost use Rattle.plain_values.specs.GatheredMembers.{IsGathered};
ghost use Rattle.plain_values.specs.JoinedValues.{of_both};
ghost use Rattle.plain_operands.specs.ExpressionSteps.{Gathers, answer_of};

use est_syntax::constant::Sign;
use est_syntax::expression::Operator;
use est_values::value::Value;
use mean_blocks::fault::BlockFault;
use mean_blocks::frame::Slot;
use mean_blocks::stop::Stop;
use plain_frames::routines::Slots;
use plain_values::sets::{Gathered, set_of, with_span};
use plain_values::values::{joined, negated, ordinal, signed};
use std::alloc::{AllocError, Global};
use std::mem;

/// The ordinal that a value is, which is used up.
pub fn number(value: Value) -> Result<i32, BlockFault>
    ensures { result ≡ ordinal_in value }
{
    let number = ordinal(&value);
    drop(value);
    number
}

/// Puts a sign before a value.
#[inline(never)]
pub fn put_sign(sign: Option<Sign>, value: &mut Value) -> Result<(), BlockFault>
    ensures { (n : ℕ) → signed sign value.old n ≡ lift (answer_of result value.new) n }
{
    let operand = mem::replace(value, Value::Undefined);
    *value = signed(sign, operand)?;
    Ok(())
}

/// Puts what an operator that does not stop at the left value yields of both in the place of that.
/// The right value is used up.
#[inline(never)]
pub fn join(alloc: Global, op: Operator, value: &mut Value, right: &mut Value) -> Result<(), Stop>
    ensures { Says (of_both op value.old right.old) (answer_of result value.new) }
{
    let right = mem::replace(right, Value::Undefined);
    *value = joined(alloc, op, value, right)?;
    Ok(())
}

/// Puts the other boolean in the place of one.
#[inline(never)]
pub fn negate(value: &mut Value) -> Result<(), BlockFault>
    ensures { (n : ℕ) → negated value.old n ≡ lift (answer_of result value.new) n }
{
    *value = negated(value)?;
    Ok(())
}

/// Adds a value to those of arguments before it. It is used up.
#[inline(never)]
pub fn add_value(slots: &mut Slots, value: &mut Value) -> Result<(), AllocError>
    ensures { OnOk result (slots.new ≡ slots.old ++ slot.Value value.old ∷ []) }
{
    let value = mem::replace(value, Value::Undefined);
    slots.push(Slot::Value(value))
}

// The members from one value to another, and those that were gathered before.
fn span(alloc: Global, low: &Value, high: &Value, gathered: Gathered) -> Result<Gathered, Stop>
    ensures { (zs : List ℤ) (n : ℕ) → IsGathered zs gathered
        → Gathers (spanned low.now high.now zs n) result n }
{
    let first = ordinal(low)?;
    let last = ordinal(high)?;
    let more = with_span(alloc, first, last, gathered)?;
    Ok(more)
}

/// Adds the members from one value to another to those that were gathered before.
#[inline(never)]
pub fn add_span(
    alloc: Global,
    low: &Value,
    high: &Value,
    gathered: &mut Gathered,
) -> Result<(), Stop>
    ensures { (zs : List ℤ) (n : ℕ) → IsGathered zs gathered.old
        → Gathers (spanned low.now high.now zs n) (answer_of result gathered.new) n }
{
    let before = mem::replace(gathered, Gathered::Many);
    *gathered = span(alloc, low, high, before)?;
    Ok(())
}

/// Puts the set of the members that were gathered in the place of a value. They are used up.
#[inline(never)]
pub fn put_set(alloc: Global, gathered: &mut Gathered, value: &mut Value) -> Result<(), Stop>
    ensures { (zs : List ℤ) → IsGathered zs gathered.old
        → Says (set_of zs) (answer_of result value.new) }
{
    let members = mem::replace(gathered, Gathered::Many);
    *value = set_of(alloc, members)?;
    Ok(())
}

/// Counts a statement, or the beginning of a turn.
pub fn enter(left: &mut u32) -> Result<(), Stop>
    ensures { Answers (counted left.old) result left.new }
{
    if *left == 0 {
        return Err(Stop::Limit);
    }
    *left -= 1;
    Ok(())
}

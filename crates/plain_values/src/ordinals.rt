//! Operators on ordinals (ISO 7185, 6.7.2.2 and 6.7.2.5).
ghost use Rattle.std.specs.Prelude.{◌≡◌};
ghost use Rattle.mean_blocks.specs.OrdinalOperators.{fault_of, exact, truth, is_true, operated};

use est_syntax::expression::Operator;
use est_values::arithmetic::{NumberFault, divided, minus, modulo, plus, times};
use mean_blocks::fault::BlockFault;

// A fault of arithmetic, as one of a block.
fn fault_of(fault: NumberFault) -> BlockFault
    ensures { result ≡ fault_of fault }
{
    match fault {
        NumberFault::Range => BlockFault::Range,
        NumberFault::Divide => BlockFault::Divide,
    }
}

/// A result of arithmetic, as one in a block.
pub fn exact(number: Result<i32, NumberFault>) -> Result<i32, BlockFault>
    ensures { result ≡ exact number }
{
    match number {
        Ok(number) => Ok(number),
        Err(fault) => Err(fault_of(fault)),
    }
}

/// The ordinal of a boolean (ISO 7185, 6.4.2.2).
pub fn truth(b: bool) -> i32
    ensures { result ≡ truth b }
{
    if b { 1 } else { 0 }
}

/// Whether an ordinal is that of true.
pub fn is_true(z: i32) -> bool
    ensures { result ≡ is_true z }
{
    0 < z
}

/// An operator on two ordinals.
pub fn operated(op: Operator, a: i32, b: i32) -> Result<i32, BlockFault>
    ensures { result ≡ operated op a b }
{
    match op {
        Operator::Plus => exact(plus(a, b)),
        Operator::Minus => exact(minus(a, b)),
        Operator::Times => exact(times(a, b)),
        Operator::Div => exact(divided(a, b)),
        Operator::Mod => exact(modulo(a, b)),
        Operator::Equal => Ok(truth(a == b)),
        Operator::Unequal => Ok(truth(a != b)),
        Operator::Below => Ok(truth(a < b)),
        Operator::AtMost => Ok(truth(a <= b)),
        Operator::Above => Ok(truth(a > b)),
        Operator::AtLeast => Ok(truth(a >= b)),
        _ => Err(BlockFault::Undefined),
    }
}

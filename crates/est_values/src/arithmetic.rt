//! Arithmetic on integers (ISO 7185, 6.7.2.2).
ghost use Rattle.std.specs.Prelude.{◌≡◌};
ghost use Rattle.est_values.specs.Integers.{in_range, plus, minus, times, negative, divided};
ghost use Rattle.est_values.specs.Integers.{modulo};

use est_syntax::kind::MAXINT;

/// Why an operation has no result.
#[derive(Clone, Copy)]
pub enum NumberFault {
    /// The result would lie outside the integers of this profile.
    Range,
    /// A divisor of `div` is 0, or one of `mod` is 0 or less.
    Divide,
}

// An exact number, where it is an integer of this profile.
fn in_range(number: i64) -> Result<i32, NumberFault>
    ensures { result ≡ in_range number }
{
    let most = MAXINT as i64;
    if -most <= number && number <= most {
        Ok(number as i32)
    } else {
        Err(NumberFault::Range)
    }
}

/// The sum.
pub fn plus(a: i32, b: i32) -> Result<i32, NumberFault>
    ensures { result ≡ plus a b }
{
    in_range(a as i64 + b as i64)
}

/// The difference.
pub fn minus(a: i32, b: i32) -> Result<i32, NumberFault>
    ensures { result ≡ minus a b }
{
    in_range(a as i64 - b as i64)
}

/// The product.
pub fn times(a: i32, b: i32) -> Result<i32, NumberFault>
    ensures { result ≡ times a b }
{
    in_range(a as i64 * b as i64)
}

/// The number with the other sign.
pub fn negative(a: i32) -> Result<i32, NumberFault>
    ensures { result ≡ negative a }
{
    in_range(-(a as i64))
}

/// The quotient, truncated towards zero.
pub fn divided(a: i32, b: i32) -> Result<i32, NumberFault>
    ensures { result ≡ divided a b }
{
    if b == 0 {
        return Err(NumberFault::Divide);
    }
    in_range(a as i64 / b as i64)
}

/// The remainder, from 0 to the divisor minus 1.
pub fn modulo(a: i32, b: i32) -> Result<i32, NumberFault>
    ensures { result ≡ modulo a b }
{
    if b <= 0 {
        return Err(NumberFault::Divide);
    }
    Ok(a.rem_euclid(b))
}

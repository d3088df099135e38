//! Constants that are assigned where they are out of range.

use crate::warning::{Outside, Slip, Warning};
use est_syntax::constant::is_minus;
use est_syntax::expression::{Expr, Factor, Selector, Simple};
use est_syntax::kind::{Kind, MAXINT};
use est_syntax::name::Used;
use est_values::ordinals::{first_ordinal, last_ordinal};
use plain_declared::heads::Head;
use plain_declared::names::head;
use rule_scope::outline::Outline;
use std::alloc::AllocError;

// The ordinal of a number.
fn number_ordinal(number: u64) -> Option<i32> {
    if number > MAXINT as u64 {
        None
    } else {
        Some(number as i32)
    }
}

// The ordinal of a name, where it is that of a constant.
fn named_ordinal(outline: &Outline, used: &Used) -> Option<i32> {
    match head(outline, used) {
        Head::Constant(ordinal) => Some(ordinal),
        _ => None,
    }
}

// The ordinal of an operand, where it is a constant.
fn factor_ordinal(outline: &Outline, factor: &Factor) -> Option<i32> {
    match factor {
        Factor::Number { number, .. } => number_ordinal(*number),
        Factor::Character { code, .. } => Some(*code as i32),
        Factor::Variable { name, .. } => named_ordinal(outline, name),
        _ => None,
    }
}

// The ordinal of a sum, where it is one constant with a sign or without.
fn simple_ordinal(outline: &Outline, simple: &Simple) -> Option<i32> {
    let steps = simple.rest.as_slice().len();
    let product_steps = simple.first.rest.as_slice().len();
    if steps > 0 || product_steps > 0 {
        return None;
    }
    let ordinal = factor_ordinal(outline, &simple.first.first)?;
    if is_minus(simple.sign) {
        0i32.checked_sub(ordinal)
    } else {
        Some(ordinal)
    }
}

// The ordinal of an expression, where it is one constant and nothing else.
fn constant_ordinal(outline: &Outline, expr: &Expr) -> Option<i32> {
    match &expr.relation {
        None => simple_ordinal(outline, &expr.left),
        Some(_) => None,
    }
}

// Whether an ordinal is none of a kind.
fn is_outside(kind: &Kind, ordinal: i32) -> bool {
    ordinal < first_ordinal(kind) || last_ordinal(kind) < ordinal
}

// What is wrong with an ordinal for a variable, or for the result of a function.
fn outside(outline: &Outline, target: &Used, ordinal: i32) -> Option<Outside> {
    let (variable, kind) = match head(outline, target) {
        Head::Variable(variable, kind) => (variable, kind),
        Head::Function(function, kind) => (function, kind),
        _ => return None,
    };
    if is_outside(kind, ordinal) {
        Some(Outside { variable, ordinal })
    } else {
        None
    }
}

/// Adds the value of an assignment, where it is a constant out of the range of a whole variable.
pub(crate) fn push_assigned(
    outline: &Outline,
    target: &Used,
    path: &[Selector],
    value: &Expr,
    found: &mut Vec<Warning>,
) -> Result<(), AllocError> {
    if path.len() > 0 {
        return Ok(());
    }
    let Some(ordinal) = constant_ordinal(outline, value) else {
        return Ok(());
    };
    if let Some(outside) = outside(outline, target, ordinal) {
        found.push(Warning {
            place: value.place,
            slip: Slip::OutOfRange(outside),
        })?;
    }
    Ok(())
}

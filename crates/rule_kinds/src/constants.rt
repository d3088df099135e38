//! The values of constants.
#![tactic(auto, using(rule_scope::proofs::LeastLaws::least_append))]

ghost use Rattle.std.specs.Prelude.{◌≡◌, ◌++◌, Some, IfOk, OnOk};
ghost use Rattle.rule_scope.specs.LeastSoFar.{least_with};
ghost use Rattle.rule_scope.specs.Outline.{entry_at};
ghost use Rattle.rule_scope.specs.Uses.{meaning};
ghost use Rattle.rule_kinds.specs.Constants.{predeclared_constant, negated, number_value};
ghost use Rattle.rule_kinds.specs.Constants.{with_sign};
ghost use Rattle.rule_kinds.specs.Constants.{signed_value, named_value};
ghost use Rattle.rule_kinds.specs.Constants.{value_by, value_meant, constant_value, number_place};
ghost use Rattle.rule_kinds.specs.Constants.{constant_place, constant_last, constant_used};
ghost use Rattle.rule_kinds.specs.Constants.{number_faults, sign_faults, constant_faults};

use crate::hosts::is_integer;
use crate::value::Valued;
use est_syntax::constant::{Constant, Sign, is_minus};
use est_syntax::kind::{Kind, MAXINT};
use est_syntax::name::Used;
use est_syntax::rule::Rule;
use rule_scope::declaration::{Entry, Meant, Sort};
use rule_scope::least::Least;
use rule_scope::outline::Outline;
use rule_scope::predeclared::PredeclaredName;
use std::alloc::AllocError;

// The constants that are predeclared.
fn predeclared_constant(known: PredeclaredName) -> Option<Valued>
    ensures { result ≡ predeclared_constant known }
{
    match known {
        PredeclaredName::False => Some(Valued {
            host: Kind::Boolean,
            ordinal: 0,
        }),
        PredeclaredName::True => Some(Valued {
            host: Kind::Boolean,
            ordinal: 1,
        }),
        PredeclaredName::Maxint => Some(Valued {
            host: Kind::Integer,
            ordinal: MAXINT as i32,
        }),
        _ => None,
    }
}

// A value is negated, where that is an integer of the profile.
fn negated(value: Valued) -> Option<Valued>
    ensures { result ≡ negated value }
{
    let ordinal = -(value.ordinal as i64);
    if ordinal > MAXINT as i64 {
        None
    } else {
        Some(Valued {
            host: value.host,
            ordinal: ordinal as i32,
        })
    }
}

// The integer that is written, without a sign or with one.
fn number_value(sign: Option<Sign>, number: u64) -> Option<Valued>
    ensures { result ≡ number_value sign number }
{
    if number > MAXINT as u64 {
        return None;
    }
    let ordinal = number as i32;
    Some(Valued {
        host: Kind::Integer,
        ordinal: if is_minus(sign) { -ordinal } else { ordinal },
    })
}

// The value after a sign, which has to be an integer.
fn with_sign(sign: Sign, value: Valued) -> Option<Valued>
    ensures { result ≡ with_sign sign value }
{
    if !is_integer(&value.host) {
        drop(value);
        return None;
    }
    match sign {
        Sign::Plus => Some(value),
        Sign::Minus => negated(value),
    }
}

// The value after a sign, which has to be an integer, or after none.
fn signed(sign: Option<Sign>, value: Option<Valued>) -> Option<Valued>
    ensures { result ≡ signed_value sign value }
{
    match (sign, value) {
        (_, None) => None,
        (None, Some(value)) => Some(value),
        (Some(sign), Some(value)) => with_sign(sign, value),
    }
}

// The value of a declaration, where it is that of a constant and has one.
fn entry_value(entry: &Entry) -> Result<Option<Valued>, AllocError>
    ensures { IfOk result (λ v. v ≡ value_by (Some entry.now)) }
{
    if Sort::Constant != entry.declared.sort {
        return Ok(None);
    }
    match (&entry.kind, entry.ordinal) {
        (Some(measured), Some(ordinal)) => Ok(Some(Valued {
            host: measured.kind.copy()?,
            ordinal,
        })),
        _ => Ok(None),
    }
}

// The value of what is declared at a place, where it is a constant.
fn declared_value(outline: &Outline, place: u32) -> Result<Option<Valued>, AllocError>
    ensures { IfOk result (λ v. v ≡ value_by (entry_at outline.now place)) }
{
    match outline.entry(place) {
        None => Ok(None),
        Some(entry) => entry_value(entry),
    }
}

// The value of the constant that a name means.
fn meant_value(outline: &Outline, meant: Meant) -> Result<Option<Valued>, AllocError>
    ensures { IfOk result (λ v. v ≡ value_meant outline.now meant) }
{
    match meant {
        Meant::Predeclared(known) => Ok(predeclared_constant(known)),
        Meant::Seen(place) => declared_value(outline, place),
        _ => Ok(None),
    }
}

// The place of the last token of a number, which stands after its sign.
fn number_place(sign: Option<Sign>, place: u32) -> u32
    ensures { result ≡ number_place sign place }
{
    match sign {
        None => place,
        Some(_) => place.saturating_add(1),
    }
}

/// The place of the first token of a constant.
pub fn constant_place(constant: &Constant) -> u32
    ensures { result ≡ constant_place constant.now }
{
    match constant {
        Constant::Number { place, .. } => *place,
        Constant::Named { place, .. } => *place,
        Constant::Character { place, .. } => *place,
    }
}

/// The place of the last token of a constant.
pub fn constant_last(constant: &Constant) -> u32
    ensures { result ≡ constant_last constant.now }
{
    match constant {
        Constant::Number { sign, place, .. } => number_place(*sign, *place),
        Constant::Named { name, .. } => name.place,
        Constant::Character { place, .. } => *place,
    }
}

// Notes a name of this meaning where a constant is wanted, and it means none.
fn check_used(outline: &Outline, used: &Used, meant: Meant, least: &mut Least)
    ensures { least.new.at ≡ least_with least.old.at (constant_used outline.now used.now meant) }
{
    match meant {
        Meant::Nothing => least.note(used.place, Rule::UnknownName),
        Meant::Predeclared(known) => if predeclared_constant(known).is_none() {
            least.note(used.place, Rule::WrongSort);
        },
        Meant::Unseen(_) => least.note(used.place, Rule::NotSeenHere),
        Meant::Seen(place) => if !outline.is_sort(Sort::Constant, place) {
            least.note(used.place, Rule::WrongSort);
        },
    }
}

// Notes a sign before the name of a constant that is no integer.
fn check_sign(sign: Option<Sign>, place: u32, value: &Option<Valued>, least: &mut Least)
    ensures { least.new.at ≡ least_with least.old.at (sign_faults sign place value.now) }
{
    match (sign, value) {
        (Some(_), Some(value)) => if !is_integer(&value.host) {
            least.note(place, Rule::WrongSort);
        },
        _ => (),
    }
}

// Checks a number, and answers its value.
fn check_number(sign: Option<Sign>, number: u64, place: u32, least: &mut Least) -> Option<Valued>
    ensures value { result ≡ number_value sign number }
    ensures faults { least.new.at
        ≡ least_with least.old.at (number_faults sign number place) }
{
    if number > MAXINT as u64 {
        least.note(number_place(sign, place), Rule::NumberTooLarge);
    }
    number_value(sign, number)
}

// Checks the name of a constant, with a sign before it or none, and answers the value.
fn check_named(
    outline: &Outline,
    sign: Option<Sign>,
    used: &Used,
    least: &mut Least,
) -> Result<Option<Valued>, AllocError>
    ensures value { IfOk result
        (λ v. v ≡ signed_value sign (named_value outline.now used.now)) }
    ensures faults { OnOk result (least.new.at ≡ least_with least.old.at
        (constant_used outline.now used.now (meaning outline.now used.now)
        ++ sign_faults sign used.now.place (named_value outline.now used.now))) }
{
    let meant = outline.meaning(used);
    check_used(outline, used, meant, least);
    let value = meant_value(outline, meant)?;
    check_sign(sign, used.place, &value, least);
    Ok(signed(sign, value))
}

/// Checks a constant, and answers its value, where it has one.
pub fn check_constant(
    outline: &Outline,
    constant: &Constant,
    least: &mut Least,
) -> Result<Option<Valued>, AllocError>
    ensures value { IfOk result (λ v. v ≡ constant_value outline.now constant.now) }
    ensures faults { OnOk result (least.new.at
        ≡ least_with least.old.at (constant_faults outline.now constant.now)) }
{
    match constant {
        Constant::Number {
            sign,
            number,
            place,
        } => Ok(check_number(*sign, *number, *place, least)),
        Constant::Named {
            sign,
            name,
            place: _,
        } => check_named(outline, *sign, name, least),
        Constant::Character { code, place: _ } => Ok(Some(Valued {
            host: Kind::Char,
            ordinal: *code as i32,
        })),
    }
}

/// The value of a constant, where it has one.
pub fn constant_value(outline: &Outline, constant: &Constant) -> Result<Option<Valued>, AllocError>
    ensures { IfOk result (λ v. v ≡ constant_value outline.now constant.now) }
{
    let mut least = Least { at: None };
    check_constant(outline, constant, &mut least)
}

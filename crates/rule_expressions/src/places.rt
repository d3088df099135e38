//! The places of expressions, and numbers in them (ISO 7185, 6.7.1).
#![tactic(auto, using(rule_scope::proofs::LeastLaws::least_append, crate::proofs::Rows::places))]

ghost use Rattle.std.specs.Prelude.{◌≡◌};
ghost use Rattle.rule_scope.specs.LeastSoFar.{least_with};
ghost use Rattle.est_values.specs.Types.{yielded};
ghost use Rattle.rule_expressions.specs.ExpressionPlaces.{factor_place, term_place};
ghost use Rattle.rule_expressions.specs.ExpressionPlaces.{sign_place, simple_place};
ghost use Rattle.rule_expressions.specs.ExpressionPlaces.{number_type, too_large_faults};

use est_syntax::constant::Sign;
use est_syntax::expression::{Factor, Simple, Term};
use est_syntax::kind::MAXINT;
use est_syntax::rule::Rule;
use est_values::types::{Host, ValueType};
use rule_scope::least::Least;

/// The place of the first token of an operand.
pub fn factor_place(factor: &Factor) -> u32
    ensures { result ≡ factor_place factor.now }
{
    match factor {
        Factor::Number { number: _, place } => *place,
        Factor::Character { code: _, place } => *place,
        Factor::Group { of: _, place } => *place,
        Factor::Not { of: _, place } => *place,
        Factor::Set { members: _, place } => *place,
        Factor::Variable {
            name: _,
            path: _,
            place,
        } => *place,
        Factor::Call {
            name: _,
            arguments: _,
            place,
        } => *place,
    }
}

/// The place of the first token of a product.
pub fn term_place(term: &Term) -> u32
    ensures { result ≡ term_place term.now }
{
    factor_place(&term.first)
}

/// The place of the sign before an operand, where one was written, else of the operand.
pub fn sign_place(sign: Option<Sign>, place: u32) -> u32
    ensures { result ≡ sign_place sign place }
{
    match sign {
        None => place,
        Some(_) => place.saturating_sub(1),
    }
}

/// The place of the first token of a sum.
pub fn simple_place(simple: &Simple) -> u32
    ensures { result ≡ simple_place simple.now }
{
    sign_place(simple.sign, term_place(&simple.first))
}

/// What a number yields. Notes one that exceeds the greatest integer.
pub fn check_number<'k>(number: u64, place: u32, least: &mut Least) -> Option<ValueType<'k>>
    ensures kind { yielded result ≡ number_type number }
    ensures faults { least.new.at ≡ least_with least.old.at (too_large_faults number place) }
{
    if number <= MAXINT as u64 {
        Some(ValueType::Ordinal(Host::Integer))
    } else {
        least.note(place, Rule::NumberTooLarge);
        None
    }
}

//! What takes the subscripts or the arguments that stand after a name (ISO 7185, 6.5.3.2 and
//! 6.7.3; ISO 9074, interaction points and module variables).
#![tactic(auto, using(rule_scope::proofs::LeastLaws::least_append))]

ghost use Rattle.std.specs.Prelude.{◌≡◌};
ghost use Rattle.rule_scope.specs.LeastSoFar.{least_with};
ghost use Rattle.rule_scope.specs.Outline.{entry_at};
ghost use Rattle.est_values.specs.Types.{yielded};
ghost use Rattle.rule_expressions.specs.Selections.{argument_of};
ghost use Rattle.rule_expressions.specs.Operators.{wants};
ghost use Rattle.rule_expressions.specs.Receivers.{subscript_in, is_argument, receives};
ghost use Rattle.rule_declares.specs.LookUps.{dims_in};
ghost use Rattle.rule_expressions.specs.Receivers.{received_faults, are_so_many, takes_number};
ghost use Rattle.rule_expressions.specs.Receivers.{number_faults};

use crate::names::{argument_of, parameter_type, takes_so_many};
use crate::operators::{gives, is_given, is_taken, wants};
use est_syntax::rule::Rule;
use est_values::types::{ValueType, type_of};
use rule_declares::required::Required;
use rule_scope::declaration::SharedKinds;
use rule_scope::least::Least;
use rule_scope::outline::Outline;

/// What takes subscripts or arguments: the interaction points or the module variables that are
/// declared at a place, the function there, or one that is predeclared.
#[derive(Clone, Copy)]
pub enum Receiver {
    Subscripts(u32),
    Parameters(u32),
    Function(Required),
}

// The type of the subscript with this number, of those of these kinds.
fn subscript_in(dims: &Option<SharedKinds>, number: usize) -> Option<ValueType<'_>>
    ensures { yielded result ≡ subscript_in dims.now number }
{
    match dims {
        None => None,
        Some(kinds) => match kinds.get().as_slice().get(number) {
            None => None,
            Some(kind) => Some(type_of(kind)),
        },
    }
}

// The type of the subscript with this number, of what is declared at a place.
fn subscript(outline: &Outline, place: u32, number: usize) -> Option<ValueType<'_>>
    ensures { yielded result ≡ subscript_in (dims_in (entry_at outline.now place)) number }
{
    match outline.entry(place) {
        None => None,
        Some(entry) => subscript_in(&entry.dims, number),
    }
}

// Whether a predeclared function takes this.
fn is_argument(function: Required, kind: Option<ValueType<'_>>) -> bool
    ensures { result ≡ is_argument function (yielded kind.entry) }
{
    match kind {
        None => false,
        Some(kind) => is_taken(argument_of(function), kind),
    }
}

/// Whether what stands with this number, counted from 0, is taken. Notes it at its place where it
/// has a type and is not.
pub fn check_received(
    outline: &Outline,
    receiver: Receiver,
    number: usize,
    kind: Option<ValueType<'_>>,
    place: u32,
    least: &mut Least,
) -> bool
    ensures received { result ≡ receives outline.now receiver number (yielded kind.entry) }
    ensures faults { least.new.at ≡ least_with least.old.at
        (received_faults outline.now receiver number (yielded kind.entry) place) }
{
    match receiver {
        Receiver::Subscripts(declared) => {
            let target = subscript(outline, declared, number);
            gives(target, kind, place, least);
            is_given(target, kind)
        },
        Receiver::Parameters(declared) => {
            let target = parameter_type(outline, declared, number);
            gives(target, kind, place, least);
            is_given(target, kind)
        },
        Receiver::Function(function) => {
            wants(argument_of(function), kind, place, least);
            is_argument(function, kind)
        },
    }
}

// Whether there are so many subscripts of these kinds.
fn are_so_many(dims: &Option<SharedKinds>, number: usize) -> bool
    ensures { result ≡ are_so_many dims.now number }
{
    match dims {
        None => true,
        Some(kinds) => kinds.get().len() == number,
    }
}

// Whether what is declared at a place has so many subscripts.
fn has_so_many(outline: &Outline, place: u32, number: usize) -> bool
    ensures { result ≡ are_so_many (dims_in (entry_at outline.now place)) number }
{
    match outline.entry(place) {
        None => true,
        Some(entry) => are_so_many(&entry.dims, number),
    }
}

// Whether so many are taken.
fn takes_number(outline: &Outline, receiver: Receiver, number: usize) -> bool
    ensures { result ≡ takes_number outline.now receiver number }
{
    match receiver {
        Receiver::Subscripts(declared) => has_so_many(outline, declared, number),
        Receiver::Parameters(declared) => takes_so_many(outline, declared, number),
        Receiver::Function(_) => number == 1,
    }
}

/// Whether so many are taken. Notes too few or too many, after a name at this place.
pub fn check_number(
    outline: &Outline,
    receiver: Receiver,
    number: usize,
    place: u32,
    least: &mut Least,
) -> bool
    ensures takes { result ≡ takes_number outline.now receiver number }
    ensures faults { least.new.at
        ≡ least_with least.old.at (number_faults outline.now receiver number place) }
{
    if takes_number(outline, receiver, number) {
        true
    } else {
        least.note(place, Rule::WrongNumber);
        false
    }
}

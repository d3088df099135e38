//! What takes subscripts or arguments, and what calls yield (ISO 7185, 6.7.3; ISO 9074, interaction
//! points and module variables).
#![tactic(auto, using(rule_scope::proofs::LeastLaws::least_append))]

ghost use Rattle.std.specs.Prelude.{◌≡◌};
ghost use Rattle.rule_scope.specs.LeastSoFar.{least_with};
ghost use Rattle.rule_scope.specs.declared.declaration.Sort.TheVariants as sort;
ghost use Rattle.rule_scope.specs.Outline.{entry_at};
ghost use Rattle.rule_scope.specs.Uses.{is_sort};
ghost use Rattle.est_values.specs.Types.{yielded};
ghost use Rattle.rule_expressions.specs.Selections.{declared_type};
ghost use Rattle.rule_declares.specs.RequiredFunctions.{required_function};
ghost use Rattle.rule_expressions.specs.Calls.{is_received, taken_faults, is_number, count_faults};
ghost use Rattle.rule_expressions.specs.Calls.{declared_callee, required_callee, callee, no_callee};
ghost use Rattle.rule_expressions.specs.Calls.{callee_faults, value_by, call_by};

use crate::names::{type_in, value_of};
use crate::receivers::{Receiver, check_number, check_received};
use est_syntax::name::Used;
use est_syntax::rule::Rule;
use est_values::types::ValueType;
use rule_declares::required::{Required, required_function};
use rule_scope::declaration::{Meant, Sort};
use rule_scope::least::Least;
use rule_scope::outline::Outline;
use rule_scope::predeclared::PredeclaredName;

/// Whether what stands with this number, counted from 0, is taken, with what it breaks at its
/// place. Where nothing is known of what would take it, it breaks nothing.
pub fn check_one(
    outline: &Outline,
    receiver: Option<Receiver>,
    number: usize,
    kind: Option<ValueType<'_>>,
    place: u32,
    least: &mut Least,
) -> bool
    ensures received { result ≡ is_received outline.now receiver number (yielded kind.entry) }
    ensures faults { least.new.at ≡ least_with least.old.at
        (taken_faults outline.now receiver number (yielded kind.entry) place) }
{
    match receiver {
        None => false,
        Some(receiver) => check_received(outline, receiver, number, kind, place, least),
    }
}

/// Whether so many are taken, with what their number breaks after a name at this place.
pub fn check_count(
    outline: &Outline,
    receiver: Option<Receiver>,
    number: usize,
    name: u32,
    least: &mut Least,
) -> bool
    ensures takes { result ≡ is_number outline.now receiver number }
    ensures faults { least.new.at
        ≡ least_with least.old.at (count_faults outline.now receiver number name) }
{
    match receiver {
        None => false,
        Some(receiver) => check_number(outline, receiver, number, name, least),
    }
}

// What is called where this is declared at a place.
fn declared_callee(outline: &Outline, place: u32) -> Option<Receiver>
    ensures { result
        ≡ declared_callee (is_sort sort.Function (entry_at outline.now place)) place }
{
    if outline.is_sort(Sort::Function, place) {
        Some(Receiver::Parameters(place))
    } else {
        None
    }
}

// What is called by a name that is predeclared.
fn required_callee(known: PredeclaredName) -> Option<Receiver>
    ensures { result ≡ required_callee (required_function known) }
{
    match required_function(known) {
        None => None,
        Some(function) => Some(Receiver::Function(function)),
    }
}

// Notes a name at a place that calls nothing.
fn check_known(receiver: Option<Receiver>, place: u32, least: &mut Least)
    ensures { least.new.at ≡ least_with least.old.at (no_callee receiver place) }
{
    if receiver.is_none() {
        least.note(place, Rule::WrongSort);
    }
}

/// What a name calls: a function that is declared or predeclared. Notes another name.
pub fn check_callee(outline: &Outline, used: &Used, least: &mut Least) -> Option<Receiver>
    ensures callee { result ≡ callee outline.now used.now }
    ensures faults { least.new.at
        ≡ least_with least.old.at (callee_faults outline.now used.now) }
{
    match outline.meaning(used) {
        Meant::Nothing => {
            least.note(used.place, Rule::UnknownName);
            None
        },
        Meant::Unseen(_) => {
            least.note(used.place, Rule::NotSeenHere);
            None
        },
        Meant::Predeclared(known) => {
            let receiver = required_callee(known);
            check_known(receiver, used.place, least);
            receiver
        },
        Meant::Seen(place) => {
            let receiver = declared_callee(outline, place);
            check_known(receiver, used.place, least);
            receiver
        },
    }
}

// What a call of a function yields that is declared at a place.
fn declared_type(outline: &Outline, place: u32) -> Option<ValueType<'_>>
    ensures { yielded result ≡ declared_type (entry_at outline.now place) }
{
    match outline.entry(place) {
        None => None,
        Some(entry) => type_in(&entry.kind),
    }
}

// What a predeclared function yields for an argument.
fn value_by(function: Required, kind: Option<ValueType<'_>>) -> Option<ValueType<'_>>
    ensures { yielded result ≡ value_by function (yielded kind.entry) }
{
    match kind {
        None => None,
        Some(kind) => Some(value_of(function, kind)),
    }
}

/// What a call yields, of the type of its first argument, where its arguments are taken.
pub fn call_by<'o>(
    outline: &'o Outline,
    receiver: Option<Receiver>,
    taken: bool,
    first: Option<ValueType<'o>>,
) -> Option<ValueType<'o>>
    ensures { yielded result ≡ call_by outline.now receiver taken (yielded first.entry) }
{
    if !taken {
        return None;
    }
    match receiver {
        Some(Receiver::Parameters(place)) => declared_type(outline, place),
        Some(Receiver::Function(function)) => value_by(function, first),
        _ => None,
    }
}

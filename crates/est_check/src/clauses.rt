//! The clauses of transitions.
#![tactic(auto, using(rule_scope::proofs::LeastLaws::least_append))]

ghost use Rattle.std.specs.Prelude.{flat_map};
ghost use Rattle.std.specs.Prelude.{◌≡◌, ◌++◌, IfOk, OnOk, Some};
ghost use Rattle.rule_scope.specs.LeastSoFar.{least_with};
ghost use Rattle.rule_scope.specs.Outline.{entry_at};
ghost use Rattle.rule_declares.specs.rule_kinds.Constants.{constant_value, constant_faults};
ghost use Rattle.rule_declares.specs.rule_kinds.Constants.{constant_place};
ghost use Rattle.rule_declares.specs.rule_kinds.TypeTexts.{text_type};
ghost use Rattle.est_check.specs.Clauses.{is_state_sort, state_faults, next_faults};
ghost use Rattle.est_check.specs.Clauses.{choices_by, name_choices, names_choices, choices_with};
ghost use Rattle.est_check.specs.Clauses.{tuples, tuples_faults, domain_faults};
ghost use Rattle.est_check.specs.Clauses.{any_faults, is_priority};
ghost use Rattle.est_check.specs.Clauses.{priority_faults, most_faults, clause_faults};

use est_syntax::constant::Constant;
use est_syntax::name::Used;
use est_syntax::ports::Direction;
use est_syntax::rule::Rule;
use est_syntax::transition::{Clause, Most};
use est_syntax::type_text::VarDef;
use rule_declares::rule_kinds::constants::{check_constant, constant_place};
use rule_declares::rule_kinds::dims::check_ordinal;
use rule_declares::rule_kinds::hosts::{count, is_integer, is_ordinal};
use rule_declares::rule_kinds::texts::{check_text, text_place};
use rule_declares::rule_kinds::value::Valued;
use rule_expressions::operators::Wanted;
use rule_scope::declaration::{Meant, Measured, Sort};
use rule_scope::least::Least;
use rule_scope::outline::Outline;
use rule_statements::signals::check_signal;
use rule_statements::statements::check_wanted;
use std::alloc::{AllocError, Global};

// The greatest number of choices of an `any`.
const MOST_TUPLES: u64 = 1024;

// Whether a state or a state set is declared at a place.
fn is_state(outline: &Outline, place: u32) -> bool
    ensures { result ≡ is_state_sort (entry_at outline.now place) }
{
    match outline.entry(place) {
        None => false,
        Some(entry) => match entry.declared.sort {
            Sort::State => true,
            Sort::StateSet => true,
            _ => false,
        },
    }
}

// A name where a state or a state set is wanted.
fn check_state(outline: &Outline, used: &Used, least: &mut Least)
    ensures { least.new.at ≡ least_with least.old.at (state_faults outline.now used.now) }
{
    match outline.meaning(used) {
        Meant::Nothing => least.note(used.place, Rule::UnknownName),
        Meant::Predeclared(_) => least.note(used.place, Rule::WrongSort),
        Meant::Unseen(_) => least.note(used.place, Rule::NotSeenHere),
        Meant::Seen(place) => if !is_state(outline, place) {
            least.note(used.place, Rule::WrongSort);
        },
    }
}

// Such names in order.
fn check_states(outline: &Outline, names: &[Used], least: &mut Least)
    ensures { least.new.at ≡ least_with least.old.at (flat_map (state_faults outline.now) names.now) }
{
    for used in names {
        check_state(outline, used, least);
    }
}

/// The next state, or the first one.
pub fn check_next(outline: &Outline, state: &Option<Used>, least: &mut Least)
    ensures { least.new.at ≡ least_with least.old.at (next_faults outline.now state.now) }
{
    match state {
        None => (),
        Some(used) => outline.check_use(Sort::State, used, least),
    }
}

// How many choices a variable of a kind has, if the kind is ordinal.
fn choices_by(kind: &Option<Measured>) -> Option<u64>
    ensures { result ≡ choices_by kind.now }
{
    match kind {
        None => None,
        Some(measured) => if is_ordinal(&measured.kind) {
            Some(count(&measured.kind))
        } else {
            None
        },
    }
}

// The choices so far, with those of a name more, where it is declared there.
fn name_choices(outline: &Outline, choices: u64, number: u64, used: &Used) -> u64
    ensures { result ≡ name_choices outline.now choices number used.now }
{
    match outline.entry(used.place) {
        None => number,
        Some(_) => number.saturating_mul(choices),
    }
}

// The same of some names more.
fn names_choices(outline: &Outline, choices: u64, number: u64, names: &[Used]) -> u64
    ensures { result ≡ names_choices outline.now choices number names.now }
{
    let mut product = number;
    for used in names {
        product = name_choices(outline, choices, product, used);
    }
    product
}

// The choices so far, with those of names whose type has so many, if both are known.
fn choices_with(
    outline: &Outline,
    number: Option<u64>,
    names: &[Used],
    choices: Option<u64>,
) -> Option<u64>
    ensures { result ≡ choices_with outline.now number names.now choices }
{
    match (number, choices) {
        (Some(number), Some(choices)) => Some(names_choices(outline, choices, number, names)),
        _ => None,
    }
}

// Variables of an `any` with one type, after so many choices.
fn check_domain(
    alloc: Global,
    outline: &Outline,
    number: Option<u64>,
    def: &VarDef,
    least: &mut Least,
) -> Result<Option<u64>, AllocError>
    ensures choices { IfOk result (λ n. n ≡ choices_with outline.now number def.now.names
        (choices_by (text_type outline.now def.now.text))) }
    ensures faults { OnOk result
        (least.new.at ≡ least_with least.old.at (domain_faults outline.now def.now)) }
{
    let kind = check_text(alloc, outline, &def.text, least)?;
    check_ordinal(&kind, text_place(&def.text), least);
    let product = choices_with(outline, number, def.names.as_slice(), choices_by(&kind));
    drop(kind);
    Ok(product)
}

// The variables of an `any`.
fn check_domains(
    alloc: Global,
    outline: &Outline,
    defs: &[VarDef],
    least: &mut Least,
) -> Result<Option<u64>, AllocError>
    ensures choices { IfOk result (λ n. n ≡ tuples outline.now (Some 1) defs.now) }
    ensures faults { OnOk result
        (least.new.at ≡ least_with least.old.at (flat_map (domain_faults outline.now) defs.now)) }
{
    let mut number = Some(1);
    for def in defs {
        number = check_domain(alloc, outline, number, def, least)?;
    }
    Ok(number)
}

// Notes an `any` at a place that has too many choices.
fn note_tuples(number: Option<u64>, place: u32, least: &mut Least)
    ensures { least.new.at ≡ least_with least.old.at (tuples_faults number place) }
{
    match number {
        None => (),
        Some(number) => least.note_if(number > MOST_TUPLES, place, Rule::TooLarge),
    }
}

// An `any` at a place.
fn check_any(
    alloc: Global,
    outline: &Outline,
    defs: &[VarDef],
    place: u32,
    least: &mut Least,
) -> Result<(), AllocError>
    ensures { OnOk result
        (least.new.at ≡ least_with least.old.at (any_faults outline.now defs.now place)) }
{
    let number = check_domains(alloc, outline, defs, least)?;
    note_tuples(number, place, least);
    Ok(())
}

// Whether a value is a priority.
fn is_priority(value: &Valued) -> bool
    ensures { result ≡ is_priority value.now }
{
    is_integer(&value.host) && value.ordinal >= 0
}

// A priority.
fn check_priority(outline: &Outline, value: &Constant, least: &mut Least) -> Result<(), AllocError>
    ensures { OnOk result (least.new.at ≡ least_with least.old.at
        (constant_faults outline.now value.now
        ++ priority_faults (constant_value outline.now value.now) (constant_place value.now))) }
{
    let found = check_constant(outline, value, least)?;
    note_priority(&found, constant_place(value), least);
    drop(found);
    Ok(())
}

// Notes a priority that begins at a place and is no such value.
fn note_priority(value: &Option<Valued>, place: u32, least: &mut Least)
    ensures { least.new.at ≡ least_with least.old.at (priority_faults value.now place) }
{
    match value {
        None => (),
        Some(value) => if !is_priority(value) {
            least.note(place, Rule::WrongKind);
        },
    }
}

// The upper bound of a delay.
fn check_most(outline: &Outline, most: &Most, least: &mut Least)
    ensures { least.new.at ≡ least_with least.old.at (most_faults outline.now most.now) }
{
    match most {
        Most::Value(value) => check_wanted(outline, Wanted::Integer, value.get(), least),
        _ => (),
    }
}

// A clause.
fn check_clause(
    alloc: Global,
    outline: &Outline,
    clause: &Clause,
    least: &mut Least,
) -> Result<(), AllocError>
    ensures { OnOk result
        (least.new.at ≡ least_with least.old.at (clause_faults outline.now clause.now)) }
{
    match clause {
        Clause::From { states, place: _ } => check_states(outline, states.as_slice(), least),
        Clause::To { state, place: _ } => check_next(outline, state, least),
        Clause::When {
            at,
            signal,
            place: _,
        } => check_signal(outline, Direction::Receives, at, signal, least),
        Clause::Provided {
            condition,
            place: _,
        } => check_wanted(outline, Wanted::Boolean, condition.get(), least),
        Clause::Otherwise { place: _ } => (),
        Clause::Any { names, place } => {
            return check_any(alloc, outline, names.as_slice(), *place, least);
        }
        Clause::Priority { value, place: _ } => return check_priority(outline, value, least),
        Clause::Delay {
            least: bound,
            most,
            place: _,
        } => {
            check_wanted(outline, Wanted::Integer, bound.get(), least);
            check_most(outline, most, least);
        },
    }
    Ok(())
}

/// The clauses of a transition, each by itself.
pub fn check_clauses(
    alloc: Global,
    outline: &Outline,
    clauses: &[Clause],
    least: &mut Least,
) -> Result<(), AllocError>
    ensures { OnOk result
        (least.new.at ≡ least_with least.old.at (flat_map (clause_faults outline.now) clauses.now)) }
{
    for clause in clauses {
        check_clause(alloc, outline, clause, least)?;
    }
    Ok(())
}

//! Clauses by themselves, and what the clauses of a context give.

ghost use Rattle.std.specs.Prelude.{◌≡◌};
ghost use Rattle.std.specs.Option.{option_copied, option_map};
ghost use Rattle.est_syntax.specs.Clauses.{clause_place};
ghost use Rattle.est_meaning.specs.rule_declares.Contexts.{kind_of};
ghost use Rattle.est_meaning.specs.ClauseContexts.{is_same_kind, given_by, states_in, state_in};
ghost use Rattle.est_meaning.specs.ClauseContexts.{awaited_in, variables_in, constant_in, delay_in};
ghost use Rattle.est_meaning.specs.ClauseContexts.{condition_in};
ghost use Rattle.plain_transitions.specs.WrittenTransitions.{awaited_of, bounds_of};
ghost use Rattle.plain_transitions.specs.inside.HeldClauses.{held, ruling_in};

use crate::written::{Awaits, Bounds};
use est_meaning::rule_declares::context::ClauseKind;
use est_syntax::constant::Constant;
use est_syntax::expression::Expr;
use est_syntax::name::{Used, UsedNames};
use est_syntax::transition::Clause;

/// Whether two clauses are of one kind.
pub(crate) fn is_same_kind(clause: &Clause, other: &Clause) -> bool
    ensures { result ≡ is_same_kind clause.now other.now }
{
    ClauseKind::of(clause) == ClauseKind::of(other)
}

/// The condition of a `provided`.
pub(crate) fn condition_in(clause: &Clause) -> Option<&Expr>
    ensures { option_copied result ≡ condition_in clause.now }
{
    match clause {
        Clause::Provided { condition, .. } => Some(condition.get()),
        _ => None,
    }
}

// The states that a `from` names.
fn states_in(clause: &Clause) -> Option<&UsedNames>
    ensures { option_copied result ≡ states_in clause.now }
{
    match clause {
        Clause::From { states, .. } => Some(states),
        _ => None,
    }
}

// The state that a `to` names.
fn state_in(clause: &Clause) -> Option<&Used>
    ensures { option_copied result ≡ state_in clause.now }
{
    match clause {
        Clause::To {
            state: Some(state),
            ..
        } => Some(state),
        _ => None,
    }
}

// What a `when` awaits.
fn awaited_in(clause: &Clause) -> Option<Awaits<'_>>
    ensures { option_map awaited_of result ≡ awaited_in clause.now }
{
    match clause {
        Clause::When { at, signal, .. } => Some(Awaits { at, signal }),
        _ => None,
    }
}

// The region of the variables of an `any`.
fn variables_in(clause: &Clause) -> Option<u32>
    ensures { result ≡ variables_in clause.now }
{
    match clause {
        Clause::Any { place, .. } => Some(*place),
        _ => None,
    }
}

// The constant of a `priority`.
fn constant_in(clause: &Clause) -> Option<&Constant>
    ensures { option_copied result ≡ constant_in clause.now }
{
    match clause {
        Clause::Priority { value, .. } => Some(value),
        _ => None,
    }
}

// The bounds of a `delay`.
fn delay_in(clause: &Clause) -> Option<Bounds<'_>>
    ensures { option_map bounds_of result ≡ delay_in clause.now }
{
    match clause {
        Clause::Delay { least, most, .. } => Some(Bounds {
            least: least.get(),
            most,
        }),
        _ => None,
    }
}

// A clause, if it says what is provided.
fn ruling_in(clause: &Clause) -> Option<&Clause>
    ensures { option_copied result ≡ ruling_in clause.now }
{
    match clause {
        Clause::Provided { .. } => Some(clause),
        Clause::Otherwise { .. } => Some(clause),
        _ => None,
    }
}

/// The states that the `from` of a context names.
pub(crate) fn from_of<'t>(context: &[&'t Clause]) -> Option<&'t UsedNames>
    ensures { option_copied result ≡ given_by states_in (held context.now) }
{
    for clause in context {
        if let Some(states) = states_in(clause) {
            return Some(states);
        }
    }
    None
}

/// The state that the `to` of a context names.
pub(crate) fn to_of<'t>(context: &[&'t Clause]) -> Option<&'t Used>
    ensures { option_copied result ≡ given_by state_in (held context.now) }
{
    for clause in context {
        if let Some(state) = state_in(clause) {
            return Some(state);
        }
    }
    None
}

/// What the `when` of a context awaits.
pub(crate) fn when_of<'t>(context: &[&'t Clause]) -> Option<Awaits<'t>>
    ensures { option_map awaited_of result ≡ given_by awaited_in (held context.now) }
{
    for clause in context {
        if let Some(awaits) = awaited_in(clause) {
            return Some(awaits);
        }
    }
    None
}

/// The region of the `any` variables of a context.
pub(crate) fn any_of(context: &[&Clause]) -> Option<u32>
    ensures { result ≡ given_by variables_in (held context.now) }
{
    for clause in context {
        if let Some(region) = variables_in(clause) {
            return Some(region);
        }
    }
    None
}

/// The constant of the `priority` of a context.
pub(crate) fn priority_of<'t>(context: &[&'t Clause]) -> Option<&'t Constant>
    ensures { option_copied result ≡ given_by constant_in (held context.now) }
{
    for clause in context {
        if let Some(constant) = constant_in(clause) {
            return Some(constant);
        }
    }
    None
}

/// The bounds of the `delay` of a context.
pub(crate) fn delay_of<'t>(context: &[&'t Clause]) -> Option<Bounds<'t>>
    ensures { option_map bounds_of result ≡ given_by delay_in (held context.now) }
{
    for clause in context {
        if let Some(bounds) = delay_in(clause) {
            return Some(bounds);
        }
    }
    None
}

/// The clause of a context that says what is provided.
pub(crate) fn ruling_of<'t>(context: &[&'t Clause]) -> Option<&'t Clause>
    ensures { option_copied result ≡ given_by ruling_in (held context.now) }
{
    for clause in context {
        if let Some(ruling) = ruling_in(clause) {
            return Some(ruling);
        }
    }
    None
}

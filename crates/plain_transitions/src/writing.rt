//! Transitions, written out with all their clauses.

ghost use Rattle.std.specs.Prelude.{◌≡◌, List, ◌++◌, [], ◌∷◌, IfOk, OnOk, option_and_then, Some};
ghost use Rattle.std.specs.List.{flat_map};
ghost use Rattle.std.specs.Option.{option_copied, option_map};
ghost use Rattle.est_meaning.specs.rule_scope.Outline.{entry_at};
ghost use Rattle.est_meaning.specs.rule_kinds.Constants.{constant_value};
ghost use Rattle.est_meaning.specs.rule_scope.declared.declaration.Sort.TheVariants as sort;
ghost use Rattle.est_meaning.specs.mean_blocks.NamesInRuns.{declared_at, places_of};
ghost use Rattle.est_meaning.specs.ClauseContexts.{given_by, states_in, state_in, constant_in};
ghost use Rattle.est_meaning.specs.ClauseContexts.{awaited_in};
ghost use Rattle.est_meaning.specs.ClauseContexts.{context_after, group_transitions};
ghost use Rattle.est_meaning.specs.GuardParts.{states_named};
ghost use Rattle.plain_transitions.specs.WrittenTransitions.{IsWritten, IsFixed, provided_of};
ghost use Rattle.plain_transitions.specs.WrittenTransitions.{awaited_of};
ghost use Rattle.plain_transitions.specs.declared.written.Fixed.{Fixed};
ghost use Rattle.plain_transitions.specs.inside.HeldClauses.{held, conditions_of, written_of};
ghost use Rattle.plain_transitions.specs.inside.HeldClauses.{Condition, ruling_in};
ghost use Rattle.plain_transitions.specs.inside.AddedTransitions.{provided_by, written_after};
ghost use Rattle.plain_transitions.specs.inside.AddedTransitions.{AreAdded, IsLookedUp};

use crate::calm::are_calm;
use crate::choices::{kinds_at, variables_of};
use crate::clauses::{
    any_of, condition_in, delay_of, from_of, priority_of, ruling_of, to_of, when_of,
};
use crate::conditions::{Given, given_in, referred};
use crate::contexts::give_all;
use crate::written::{Awaits, Fixed, Provision, Written};
use est_meaning::rule_kinds::constants::constant_value;
use est_meaning::rule_scope::declaration::Sort;
use est_meaning::rule_scope::outline::Outline;
use est_syntax::body::Block;
use est_syntax::est_items::Items;
use est_syntax::kind::Kind;
use est_syntax::name::Used;
use est_syntax::transition::{Clause, Group, Transition};
use plain_names::plain_declared::declared::{Places, declared_at, interaction_of, places_of};
use std::alloc::{AllocError, Global};

// The places that are looked up for a transition, and the kinds of its `any` variables.
#[derive(Drop)]
struct LookedUp<'t> {
    parameters: Places,
    variables: Places,
    kinds: Vec<&'t Kind>,
    own: Places,
}

// The states of the state set that is declared at a place.
fn set_at(outline: &Outline, place: u32) -> Option<&[u32]>
    ensures { option_copied result
        ≡ option_and_then (λ e. e.states) (entry_at outline.now place) }
{
    match outline.entry(place) {
        None => None,
        Some(entry) => match &entry.states {
            None => None,
            Some(states) => Some(states.get().as_slice()),
        },
    }
}

// Adds states in order.
fn add_all(states: &[u32], into: &mut Items<u32>) -> Result<(), AllocError>
    ensures { OnOk result (into.new ≡ into.old ++ states.now) }
{
    for state in states {
        into.push(*state)?;
    }
    Ok(())
}

// Adds the states that a name stands for.
fn add_states(outline: &Outline, name: &Used, into: &mut Items<u32>) -> Result<(), AllocError>
    ensures { OnOk result (into.new ≡ into.old ++ states_named outline.now name.now) }
{
    let Some(place) = declared_at(outline, name) else {
        return Ok(());
    };
    match set_at(outline, place) {
        None => into.push(place),
        Some(states) => add_all(states, into),
    }
}

// The states that names stand for.
fn states_named(alloc: Global, outline: &Outline, names: &[Used]) -> Result<Items<u32>, AllocError>
    ensures { IfOk result (λ states. states ≡ flat_map (states_named outline.now) names.now) }
{
    let mut states = Items::new(alloc);
    for name in names {
        add_states(outline, name, &mut states)?;
    }
    Ok(states)
}

// The states that the `from` of a context stands for.
fn states_of(
    alloc: Global,
    outline: &Outline,
    context: &[&Clause],
) -> Result<Option<Items<u32>>, AllocError>
    ensures { IfOk result (λ states. states ≡ option_map
        (λ us. flat_map (states_named outline.now) us) (given_by states_in (held context.now))) }
{
    match from_of(context) {
        None => Ok(None),
        Some(names) => {
            let states = states_named(alloc, outline, names.as_slice())?;
            Ok(Some(states))
        }
    }
}

// The number of the `priority` of a context.
fn priority(outline: &Outline, context: &[&Clause]) -> Result<Option<i32>, AllocError>
    ensures { IfOk result (λ p. p ≡ option_map (λ v. v.ordinal)
        (option_and_then (constant_value outline.now) (given_by constant_in (held context.now)))) }
{
    let Some(constant) = priority_of(context) else {
        return Ok(None);
    };
    match constant_value(outline, constant)? {
        None => Ok(None),
        Some(value) => {
            let ordinal = value.ordinal;
            drop(value);
            Ok(Some(ordinal))
        }
    }
}

// The state that the `to` of a context names.
fn next_state(outline: &Outline, context: &[&Clause]) -> Option<u32>
    ensures { result
        ≡ option_and_then (declared_at outline.now) (given_by state_in (held context.now)) }
{
    match to_of(context) {
        None => None,
        Some(used) => declared_at(outline, used),
    }
}

// What a `when` awaits, where its subscripts call nothing and both names are declared.
fn fixed_at(outline: &Outline, awaits: &Awaits) -> Option<Fixed>
    ensures { IsFixed outline.now (Some (awaited_of awaits.now)) result }
{
    if !are_calm(outline, awaits.at.index.as_slice()) {
        return None;
    }
    let point = declared_at(outline, &awaits.at.name)?;
    let signal = interaction_of(outline, point, awaits.signal)?;
    Some(Fixed { point, signal })
}

// The same of the `when` of a context, if it has one.
fn fixed_of(outline: &Outline, context: &[&Clause]) -> Option<Fixed>
    ensures { IsFixed outline.now (given_by awaited_in (held context.now)) result }
{
    let awaits = when_of(context)?;
    fixed_at(outline, &awaits)
}

// The places of the parameters of what is awaited, where that is known.
fn parameters_at(
    alloc: Global,
    outline: &Outline,
    fixed: Option<Fixed>,
) -> Result<Places, AllocError>
    ensures { IfOk result (λ places. (y : Fixed) → fixed ≡ Some y
        → places ≡ places_of outline.now sort.Variable y.signal) }
{
    match fixed {
        None => Ok(Items::new(alloc)),
        Some(fixed) => places_of(alloc, outline, Sort::Variable, fixed.signal),
    }
}

// What is provided in a context, by the clause of it that says so.
fn provision_by<'t>(
    alloc: Global,
    given: &[Given<'t>],
    context: &[&'t Clause],
    ruling: &'t Clause,
) -> Result<Provision<'t>, AllocError>
    requires { given_by ruling_in (held context.now) ≡ Some ruling.now }
    ensures { IfOk result (λ p. provided_of p
        ≡ provided_by (conditions_of given.now) (held context.now)) }
{
    match condition_in(ruling) {
        Some(condition) => Ok(Provision::Provided(condition)),
        None => {
            let conditions = referred(alloc, context, given)?;
            Ok(Provision::Otherwise(conditions))
        }
    }
}

// What is provided in a context.
fn provision<'t>(
    alloc: Global,
    given: &[Given<'t>],
    context: &[&'t Clause],
) -> Result<Provision<'t>, AllocError>
    ensures { IfOk result (λ p. provided_of p
        ≡ provided_by (conditions_of given.now) (held context.now)) }
{
    match ruling_of(context) {
        None => Ok(Provision::Always),
        Some(ruling) => provision_by(alloc, given, context, ruling),
    }
}

// What is looked up for a transition with the clauses of a context.
fn look_up<'t>(
    alloc: Global,
    outline: &'t Outline,
    context: &[&'t Clause],
    fixed: Option<Fixed>,
    block: &'t Block,
) -> Result<LookedUp<'t>, AllocError>
    ensures { IfOk result (λ found. (gs : List Condition)
        → IsLookedUp outline.now (written_of gs (held context.now) block.now) fixed found) }
{
    let variables = variables_of(alloc, outline, any_of(context))?;
    let kinds = kinds_at(alloc, outline, variables.as_slice())?;
    let own = places_of(alloc, outline, Sort::Variable, block.place)?;
    let parameters = parameters_at(alloc, outline, fixed)?;
    Ok(LookedUp {
        parameters,
        variables,
        kinds,
        own,
    })
}

// A transition with the clauses of a context.
fn write<'t>(
    alloc: Global,
    outline: &'t Outline,
    given: &[Given<'t>],
    context: &[&'t Clause],
    block: &'t Block,
) -> Result<Written<'t>, AllocError>
    ensures { IfOk result (IsWritten outline.now
        (written_of (conditions_of given.now) (held context.now) block.now)) }
{
    let priority = priority(outline, context)?;
    let states = states_of(alloc, outline, context)?;
    let fixed = fixed_of(outline, context);
    let found = look_up(alloc, outline, context, fixed, block)?;
    let condition = provision(alloc, given, context)?;
    Ok(Written {
        states,
        awaits: when_of(context),
        fixed,
        parameters: found.parameters,
        variables: found.variables,
        kinds: found.kinds,
        condition,
        delay: delay_of(context),
        priority,
        next_state: next_state(outline, context),
        block,
        own: found.own,
    })
}

// Writes a transition with its clauses, given after a context.
fn write_next<'t>(
    alloc: Global,
    outline: &'t Outline,
    given: &[Given<'t>],
    transition: &'t Transition,
    context: &mut Vec<&'t Clause>,
    into: &mut Vec<Written<'t>>,
) -> Result<(), AllocError>
    ensures context { OnOk result (held context.new.items
        ≡ context_after (held context.old.items) transition.now.clauses) }
    ensures written { OnOk result (AreAdded outline.now (written_after (conditions_of given.now)
        (held context.old.items) (transition.now ∷ [])) into.old.items into.new.items) }
{
    let clauses = transition.clauses.as_slice();
    give_all(context, clauses)?;
    let written = write(alloc, outline, given, context.as_slice(), &transition.block)?;
    into.push(written)?;
    Ok(())
}

// Writes transitions after a context.
fn write_all<'t>(
    alloc: Global,
    outline: &'t Outline,
    given: &[Given<'t>],
    transitions: &'t [Transition],
    context: &mut Vec<&'t Clause>,
    into: &mut Vec<Written<'t>>,
) -> Result<(), AllocError>
    ensures { OnOk result (AreAdded outline.now (written_after (conditions_of given.now)
        (held context.old.items) transitions.now) into.old.items into.new.items) }
{
    for transition in transitions {
        write_next(alloc, outline, given, transition, context, into)?;
    }
    Ok(())
}

// Writes the transitions after one `trans`.
fn write_group<'t>(
    alloc: Global,
    outline: &'t Outline,
    group: &'t Group,
    into: &mut Vec<Written<'t>>,
) -> Result<(), AllocError>
    ensures { OnOk result
        (AreAdded outline.now (group_transitions group.now) into.old.items into.new.items) }
{
    let transitions = group.transitions.as_slice();
    let given = given_in(alloc, transitions)?;
    let mut context = Vec::new(alloc);
    write_all(
        alloc,
        outline,
        given.as_slice(),
        transitions,
        &mut context,
        into,
    )?;
    Ok(())
}

/// Writes the transitions of groups.
pub(crate) fn write_groups<'t>(
    alloc: Global,
    outline: &'t Outline,
    groups: &'t [Group],
    into: &mut Vec<Written<'t>>,
) -> Result<(), AllocError>
    ensures { OnOk result (AreAdded outline.now (flat_map group_transitions groups.now)
        into.old.items into.new.items) }
{
    for group in groups {
        write_group(alloc, outline, group, into)?;
    }
    Ok(())
}

//! What the parts of a specification break.
#![tactic(auto, using(rule_scope::proofs::LeastLaws::least_append, crate::proofs::PartRows::rows))]

ghost use Rattle.std.specs.Prelude.{◌≡◌, OnOk, flat_map};
ghost use Rattle.rule_scope.specs.LeastSoFar.{least_with};
ghost use Rattle.est_types.specs.DeclarationFaults.{first_state_faults};
ghost use Rattle.est_types.specs.DeclarationFaults.{part_faults};
ghost use Rattle.est_types.specs.inside.DeclarationParts.{block_faults, first_part_faults};
ghost use Rattle.est_types.specs.inside.DeclarationParts.{transition_faults, transitions_faults};
ghost use Rattle.est_types.specs.inside.DeclarationParts.{group_faults, groups_faults, body_faults};
ghost use Rattle.est_types.specs.inside.DeclarationParts.{routine_faults, have_states, has_first};

use crate::modules::{Owner, check_channel, check_header, check_modvars, check_points};
use crate::sections::{
    check_clauses, check_constdefs, check_formals, check_result, check_statesets, check_typedefs,
    check_vardefs,
};
use crate::sizes::{check_scalars, parts_scalars};
use crate::states::{has_first, have_states};
use est_syntax::body::{Block, Body, FirstPart, Part};
use est_syntax::routine::Routine;
use est_syntax::rule::Rule;
use est_syntax::transition::{Group, Transition};
use rule_scope::least::Least;
use rule_scope::outline::Outline;
use std::alloc::{AllocError, Global};

// A body that has states needs a first one.
fn check_first_state(parts: &[Part], first: &Option<FirstPart>, place: u32, least: &mut Least)
    ensures { least.new.at ≡ least_with least.old.at
        (first_state_faults (have_states parts.now) (has_first first.now) place) }
{
    least.note_if(
        have_states(parts) && !has_first(first),
        place,
        Rule::NoFirstState,
    );
}

// The block of a routine, a transition or a first part: its statements are checked elsewhere.
#[cycle(part)]
fn check_block(
    alloc: Global,
    outline: &Outline,
    block: &Block,
    least: &mut Least,
) -> Result<(), AllocError>
    ensures { OnOk result
        (least.new.at ≡ least_with least.old.at (block_faults outline.now block.now)) }
{
    check_parts(alloc, outline, Owner::Body, block.parts.as_slice(), least)
}

// The first part of a body, where it has one.
#[cycle(part)]
fn check_first_part(
    alloc: Global,
    outline: &Outline,
    first: &Option<FirstPart>,
    least: &mut Least,
) -> Result<(), AllocError>
    ensures { OnOk result
        (least.new.at ≡ least_with least.old.at (first_part_faults outline.now first.now)) }
{
    match first {
        None => Ok(()),
        Some(first) => check_block(alloc, outline, &first.block, least),
    }
}

// A transition.
#[cycle(part)]
fn check_transition(
    alloc: Global,
    outline: &Outline,
    item: &Transition,
    least: &mut Least,
) -> Result<(), AllocError>
    ensures { OnOk result
        (least.new.at ≡ least_with least.old.at (transition_faults outline.now item.now)) }
{
    check_clauses(outline, item.clauses.as_slice(), least);
    check_block(alloc, outline, &item.block, least)
}

// The transitions of a group.
#[cycle(part)]
fn check_transitions(
    alloc: Global,
    outline: &Outline,
    items: &[Transition],
    least: &mut Least,
) -> Result<(), AllocError>
    ensures { OnOk result
        (least.new.at ≡ least_with least.old.at (transitions_faults outline.now items.now)) }
{
    for item in items {
        check_transition(alloc, outline, item, least)?;
    }
    Ok(())
}

// A group of transitions.
#[cycle(part)]
fn check_group(
    alloc: Global,
    outline: &Outline,
    item: &Group,
    least: &mut Least,
) -> Result<(), AllocError>
    ensures { OnOk result
        (least.new.at ≡ least_with least.old.at (group_faults outline.now item.now)) }
{
    check_transitions(alloc, outline, item.transitions.as_slice(), least)
}

// The groups of transitions of a body.
#[cycle(part)]
fn check_groups(
    alloc: Global,
    outline: &Outline,
    items: &[Group],
    least: &mut Least,
) -> Result<(), AllocError>
    ensures { OnOk result
        (least.new.at ≡ least_with least.old.at (groups_faults outline.now items.now)) }
{
    for item in items {
        check_group(alloc, outline, item, least)?;
    }
    Ok(())
}

// A body: what it lacks or has too much of is told at its name.
#[cycle(part)]
fn check_body(
    alloc: Global,
    outline: &Outline,
    body: &Body,
    least: &mut Least,
) -> Result<(), AllocError>
    ensures { OnOk result
        (least.new.at ≡ least_with least.old.at (body_faults outline.now body.now)) }
{
    let parts = body.parts.as_slice();
    outline.check_twice(&body.name, least);
    check_parts(alloc, outline, Owner::Body, parts, least)?;
    check_first_part(alloc, outline, &body.first, least)?;
    check_groups(alloc, outline, body.groups.as_slice(), least)?;
    check_first_state(parts, &body.first, body.name.place, least);
    check_scalars(parts_scalars(outline, parts), body.name.place, least);
    Ok(())
}

// A routine: that its variables are too many is told at its name.
#[cycle(part)]
fn check_routine(
    alloc: Global,
    outline: &Outline,
    routine: &Routine,
    least: &mut Least,
) -> Result<(), AllocError>
    ensures { OnOk result
        (least.new.at ≡ least_with least.old.at (routine_faults outline.now routine.now)) }
{
    let parts = routine.block.parts.as_slice();
    outline.check_twice(&routine.name, least);
    check_formals(outline, &routine.result, routine.formals.as_slice(), least);
    check_result(outline, &routine.result, least);
    check_parts(alloc, outline, Owner::Body, parts, least)?;
    check_scalars(parts_scalars(outline, parts), routine.name.place, least);
    Ok(())
}

// A part of an owner, of which module variables alone depend on it.
#[cycle(part)]
fn check_part(
    alloc: Global,
    outline: &Outline,
    owner: Owner,
    part: &Part,
    least: &mut Least,
) -> Result<(), AllocError>
    ensures { OnOk result
        (least.new.at ≡ least_with least.old.at (part_faults outline.now owner part.now)) }
{
    match part {
        Part::Consts(items) => check_constdefs(outline, items.as_slice(), least),
        Part::Types(items) => check_typedefs(alloc, outline, items.as_slice(), least),
        Part::Channel(item) => check_channel(alloc, outline, item, least),
        Part::Header(item) => check_header(alloc, outline, item, least),
        Part::Body(body) => check_body(alloc, outline, body, least),
        Part::Modvars(items) => check_modvars(alloc, outline, owner, items.as_slice(), least),
        Part::Points(items) => check_points(alloc, outline, items.as_slice(), least),
        Part::Vars(items) => check_vardefs(alloc, outline, items.as_slice(), least),
        Part::States(names) => {
            outline.check_twices(names.as_slice(), least);
            Ok(())
        }
        Part::StateSets(items) => {
            check_statesets(outline, items.as_slice(), least);
            Ok(())
        }
        Part::Routine(routine) => check_routine(alloc, outline, routine, least),
    }
}

/// The parts of an owner, in the order of the text.
#[cycle(part)]
pub fn check_parts(
    alloc: Global,
    outline: &Outline,
    owner: Owner,
    parts: &[Part],
    least: &mut Least,
) -> Result<(), AllocError>
    ensures { OnOk result
        (least.new.at ≡ least_with least.old.at (flat_map (part_faults outline.now owner) parts.now)) }
{
    for part in parts {
        check_part(alloc, outline, owner, part, least)?;
    }
    Ok(())
}

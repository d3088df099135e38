//! The statements of routines and bodies, and the transitions.
#![tactic(auto, using(crate::proofs::PartRows::rows))]

ghost use Rattle.std.specs.Prelude.{flat_map};
ghost use Rattle.std.specs.Prelude.{◌≡◌, OnOk};
ghost use Rattle.rule_scope.specs.LeastSoFar.{least_with};
ghost use Rattle.est_check.specs.BlockFaults.{function_of, part_faults};
ghost use Rattle.rule_ports.specs.GivenClauses.{with_clauses};
ghost use Rattle.est_check.specs.inside.BlockParts.{held_block_faults, first_part_faults};
ghost use Rattle.est_check.specs.inside.BlockParts.{transition_faults, transitions_faults};
ghost use Rattle.est_check.specs.inside.BlockParts.{group_faults, groups_faults, body_faults};
ghost use Rattle.est_check.specs.inside.BlockParts.{routine_faults};

use crate::clauses::{check_clauses, check_next};
use est_syntax::body::{Block, Body, FirstPart, Part};
use est_syntax::name::Used;
use est_syntax::routine::Routine;
use est_syntax::transition::{Group, Transition};
use est_types::sizes::{check_scalars, parts_scalars};
use rule_declares::context::Context;
use rule_ports::clauses::{check_delay, give_clauses};
use rule_scope::declaration::Sort;
use rule_scope::least::Least;
use rule_scope::outline::Outline;
use rule_statements::statements::check_statements;
use std::alloc::{AllocError, Global};

// The block of a transition or of an initialize part.
fn check_block(
    alloc: Global,
    outline: &Outline,
    block: &Block,
    least: &mut Least,
) -> Result<(), AllocError>
    ensures { OnOk result
        (least.new.at ≡ least_with least.old.at (held_block_faults outline.now block.now)) }
{
    check_scalars(
        parts_scalars(outline, block.parts.as_slice()),
        block.place,
        least,
    );
    check_statements(
        alloc,
        outline,
        None,
        &[],
        block.statements.as_slice(),
        least,
    )
}

// The initialize part of a body.
fn check_first_part(
    alloc: Global,
    outline: &Outline,
    first: &Option<FirstPart>,
    least: &mut Least,
) -> Result<(), AllocError>
    ensures { OnOk result
        (least.new.at ≡ least_with least.old.at (first_part_faults outline.now first.now)) }
{
    match first {
        None => Ok(()),
        Some(first) => {
            check_next(outline, &first.to, least);
            check_block(alloc, outline, &first.block, least)
        }
    }
}

// A transition, which gets the clauses of those before it.
fn check_transition(
    alloc: Global,
    outline: &Outline,
    context: &mut Context,
    item: &Transition,
    least: &mut Least,
) -> Result<(), AllocError>
    ensures context { OnOk result (context.new ≡ with_clauses context.old item.now.clauses) }
    ensures faults { OnOk result (least.new.at ≡
        least_with least.old.at (transition_faults outline.now context.old item.now)) }
{
    let clauses = item.clauses.as_slice();
    check_clauses(alloc, outline, clauses, least)?;
    give_clauses(clauses, context)?;
    check_delay(context.as_slice(), least);
    check_block(alloc, outline, &item.block, least)
}

// Transitions of one group.
fn check_transitions(
    alloc: Global,
    outline: &Outline,
    context: &mut Context,
    items: &[Transition],
    least: &mut Least,
) -> Result<(), AllocError>
    ensures { OnOk result (least.new.at ≡
        least_with least.old.at (transitions_faults outline.now context.old items.now)) }
{
    for item in items {
        check_transition(alloc, outline, context, item, least)?;
    }
    Ok(())
}

// A group of transitions.
fn check_group(
    alloc: Global,
    outline: &Outline,
    item: &Group,
    least: &mut Least,
) -> Result<(), AllocError>
    ensures { OnOk result
        (least.new.at ≡ least_with least.old.at (group_faults outline.now item.now)) }
{
    let mut context = Context::new(alloc);
    check_transitions(
        alloc,
        outline,
        &mut context,
        item.transitions.as_slice(),
        least,
    )
}

// Groups in order.
fn check_groups(
    alloc: Global,
    outline: &Outline,
    items: &[Group],
    least: &mut Least,
) -> Result<(), AllocError>
    ensures { OnOk result
        (least.new.at ≡ least_with least.old.at (groups_faults outline.now items.now)) }
{
    for item in items {
        check_group(alloc, outline, item, least)?;
    }
    Ok(())
}

// The function whose statements those of a routine are, if it is one.
fn function_of(name: &Used, of: &Option<Used>) -> Option<u32>
    ensures { result ≡ function_of name.now of.now }
{
    match of {
        None => None,
        Some(_) => Some(name.place),
    }
}

// A routine.
fn check_routine(
    alloc: Global,
    outline: &Outline,
    routine: &Routine,
    least: &mut Least,
) -> Result<(), AllocError>
    ensures { OnOk result
        (least.new.at ≡ least_with least.old.at (routine_faults outline.now routine.now)) }
{
    let function = function_of(&routine.name, &routine.result);
    let statements = routine.block.statements.as_slice();
    check_statements(alloc, outline, function, &[], statements, least)
}

// A body: its header, its parts, its initialize part and its transitions.
#[cycle(part)]
fn check_body(
    alloc: Global,
    outline: &Outline,
    body: &Body,
    least: &mut Least,
) -> Result<(), AllocError>
    ensures { OnOk result
        (least.new.at ≡ least_with least.old.at (body_faults outline.now body.now)) }
{
    outline.check_use(Sort::Header, &body.header, least);
    check_parts(alloc, outline, body.parts.as_slice(), least)?;
    check_first_part(alloc, outline, &body.first, least)?;
    check_groups(alloc, outline, body.groups.as_slice(), least)
}

// A body or a routine. No other part has statements.
#[cycle(part)]
fn check_part(
    alloc: Global,
    outline: &Outline,
    part: &Part,
    least: &mut Least,
) -> Result<(), AllocError>
    ensures { OnOk result
        (least.new.at ≡ least_with least.old.at (part_faults outline.now part.now)) }
{
    match part {
        Part::Body(body) => check_body(alloc, outline, body, least),
        Part::Routine(routine) => check_routine(alloc, outline, routine, least),
        Part::Consts(_) => Ok(()),
        Part::Types(_) => Ok(()),
        Part::Channel(_) => Ok(()),
        Part::Header(_) => Ok(()),
        Part::Modvars(_) => Ok(()),
        Part::Points(_) => Ok(()),
        Part::Vars(_) => Ok(()),
        Part::States(_) => Ok(()),
        Part::StateSets(_) => Ok(()),
    }
}

/// The bodies and the routines among parts.
#[cycle(part)]
pub fn check_parts(
    alloc: Global,
    outline: &Outline,
    parts: &[Part],
    least: &mut Least,
) -> Result<(), AllocError>
    ensures { OnOk result
        (least.new.at ≡ least_with least.old.at (flat_map (part_faults outline.now) parts.now)) }
{
    for part in parts {
        check_part(alloc, outline, part, least)?;
    }
    Ok(())
}

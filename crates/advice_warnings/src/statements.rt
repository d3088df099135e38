//! What is found in the statements of a specification.

use crate::links::{Found, mark_child, mark_end, mark_made, mark_own};
use crate::range::push_assigned;
use est_items::Boxed;
use est_syntax::body::{Block, Body, FirstPart, Part};
use est_syntax::statement::{Arm, Statement};
use est_syntax::transition::{Group, Transition};
use rule_scope::outline::Outline;
use std::alloc::AllocError;

// Notes what a link or an `init` names.
fn mark_named(outline: &Outline, statement: &Statement, found: &mut Found) {
    match statement {
        Statement::Init { target, .. } => mark_made(outline, target, found),
        Statement::Connect { one, other, .. } => {
            mark_end(outline, one, found);
            mark_end(outline, other, found);
        },
        Statement::Attach {
            own,
            child,
            point,
            ..
        } => {
            mark_own(outline, own, found);
            mark_child(outline, child, point, found);
        },
        _ => (),
    }
}

// Adds what is found in a statement that has no statement in it.
fn push_plain(
    outline: &Outline,
    statement: &Statement,
    found: &mut Found,
) -> Result<(), AllocError> {
    match statement {
        Statement::Assign {
            target,
            path,
            value,
            ..
        } => push_assigned(
            outline,
            target,
            path.as_slice(),
            value.get(),
            &mut found.warnings,
        ),
        _ => {
            mark_named(outline, statement, found);
            Ok(())
        },
    }
}

// Adds what is found in a statement.
#[cycle(statement)]
fn push_statement(
    outline: &Outline,
    statement: &Statement,
    found: &mut Found,
) -> Result<(), AllocError> {
    match statement {
        Statement::Compound { turn, .. } => push_statements(outline, turn.as_slice(), found),
        Statement::If { first, second, .. } => {
            push_statement(outline, first.get(), found)?;
            push_second(outline, second, found)
        },
        Statement::Case { arms, .. } => push_arms(outline, arms.as_slice(), found),
        Statement::While { turn, .. } => push_statement(outline, turn.get(), found),
        Statement::Repeat { turn, .. } => push_statements(outline, turn.as_slice(), found),
        Statement::For { turn, .. } => push_statement(outline, turn.get(), found),
        Statement::All { turn, .. } => push_statement(outline, turn.get(), found),
        _ => push_plain(outline, statement, found),
    }
}

// Adds what is found in the other statement of an `if`, where there is one.
#[cycle(statement)]
fn push_second(
    outline: &Outline,
    second: &Option<Boxed<Statement>>,
    found: &mut Found,
) -> Result<(), AllocError> {
    match second {
        None => Ok(()),
        Some(second) => push_statement(outline, second.get(), found),
    }
}

// Adds what is found in the choices of a `case`.
#[cycle(statement)]
fn push_arms(outline: &Outline, arms: &[Arm], found: &mut Found) -> Result<(), AllocError> {
    for arm in arms {
        push_statement(outline, &arm.turn, found)?;
    }
    Ok(())
}

// Adds what is found in statements.
#[cycle(statement)]
fn push_statements(
    outline: &Outline,
    statements: &[Statement],
    found: &mut Found,
) -> Result<(), AllocError> {
    for statement in statements {
        push_statement(outline, statement, found)?;
    }
    Ok(())
}

// Adds what is found in a block, and in the routines that it declares.
#[cycle(block)]
fn push_block(outline: &Outline, block: &Block, found: &mut Found) -> Result<(), AllocError> {
    push_blocks(outline, block.parts.as_slice(), found)?;
    push_statements(outline, block.statements.as_slice(), found)
}

// Adds what is found in the initialize part of a body, where there is one.
#[cycle(block)]
fn push_first(
    outline: &Outline,
    first: &Option<FirstPart>,
    found: &mut Found,
) -> Result<(), AllocError> {
    match first {
        None => Ok(()),
        Some(first) => push_block(outline, &first.block, found),
    }
}

// Adds what is found in the blocks of transitions.
#[cycle(block)]
fn push_transitions(
    outline: &Outline,
    transitions: &[Transition],
    found: &mut Found,
) -> Result<(), AllocError> {
    for transition in transitions {
        push_block(outline, &transition.block, found)?;
    }
    Ok(())
}

// Adds what is found in the blocks of groups of transitions.
#[cycle(block)]
fn push_groups(outline: &Outline, groups: &[Group], found: &mut Found) -> Result<(), AllocError> {
    for group in groups {
        push_transitions(outline, group.transitions.as_slice(), found)?;
    }
    Ok(())
}

// Adds what is found in the blocks of a body.
#[cycle(block)]
fn push_body(outline: &Outline, body: &Body, found: &mut Found) -> Result<(), AllocError> {
    push_blocks(outline, body.parts.as_slice(), found)?;
    push_first(outline, &body.first, found)?;
    push_groups(outline, body.groups.as_slice(), found)
}

// Adds what is found in the blocks of a part.
#[cycle(block)]
fn push_part(outline: &Outline, part: &Part, found: &mut Found) -> Result<(), AllocError> {
    match part {
        Part::Routine(routine) => push_block(outline, &routine.block, found),
        Part::Body(body) => push_body(outline, body, found),
        _ => Ok(()),
    }
}

/// Adds what is found in the blocks of these parts.
#[cycle(block)]
pub(crate) fn push_blocks(
    outline: &Outline,
    parts: &[Part],
    found: &mut Found,
) -> Result<(), AllocError> {
    for part in parts {
        push_part(outline, part, found)?;
    }
    Ok(())
}

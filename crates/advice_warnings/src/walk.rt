//! What is found in the bodies of a specification.

use crate::clauses::push_group;
use crate::points::push_unqueued;
use crate::states::push_states;
use crate::warning::Warning;
use est_syntax::body::{Body, Part};
use rule_scope::outline::Outline;
use std::alloc::{AllocError, Global};

// Adds what is found in a body by itself.
fn push_own(
    alloc: Global,
    outline: &Outline,
    body: &Body,
    found: &mut Vec<Warning>,
) -> Result<(), AllocError> {
    push_states(alloc, outline, body, found)?;
    for group in body.groups.as_slice() {
        push_group(alloc, group, found)?;
    }
    Ok(())
}

// Adds what is found in a part.
#[cycle(body)]
fn push_part(
    alloc: Global,
    outline: &Outline,
    part: &Part,
    found: &mut Vec<Warning>,
) -> Result<(), AllocError> {
    match part {
        Part::Body(body) => {
            push_own(alloc, outline, body, found)?;
            push_parts(alloc, outline, body.parts.as_slice(), found)
        },
        _ => Ok(()),
    }
}

/// Adds what is found in the bodies that these parts declare.
#[cycle(body)]
pub(crate) fn push_parts(
    alloc: Global,
    outline: &Outline,
    parts: &[Part],
    found: &mut Vec<Warning>,
) -> Result<(), AllocError> {
    for part in parts {
        push_part(alloc, outline, part, found)?;
    }
    Ok(())
}

// Adds the interaction points without a queue discipline of a part.
#[cycle(point)]
fn push_points_in(part: &Part, found: &mut Vec<Warning>) -> Result<(), AllocError> {
    match part {
        Part::Body(body) => push_points(body.parts.as_slice(), found),
        _ => push_unqueued(part, found),
    }
}

/// Adds the interaction points without a queue discipline that parts declare.
#[cycle(point)]
pub(crate) fn push_points(parts: &[Part], found: &mut Vec<Warning>) -> Result<(), AllocError> {
    for part in parts {
        push_points_in(part, found)?;
    }
    Ok(())
}

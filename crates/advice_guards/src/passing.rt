//! Which part of a guard passes the limit of statements.

use crate::parts::{Came, View, evaluated};
use est_syntax::expression::Expr;
use est_syntax::transition::Most;
use plain_transitions::written::{Bounds, Provision, Written};
use std::alloc::{AllocError, Global};

// The place of a part that passes the limit, if it does.
fn place_in(alloc: Global, view: &View, part: &Expr) -> Result<Option<u32>, AllocError> {
    match evaluated(alloc, view, part)? {
        Came::Limit => Ok(Some(part.place)),
        _ => Ok(None),
    }
}

// The place of the first of these parts that passes the limit, if one does.
fn place_among(alloc: Global, view: &View, parts: &[&Expr]) -> Result<Option<u32>, AllocError> {
    for i in 0..parts.len() {
        if let Some(place) = place_in(alloc, view, parts[i])? {
            return Ok(Some(place));
        }
    }
    Ok(None)
}

// The place of the condition that passes the limit, if one does.
fn place_of_condition(
    alloc: Global,
    view: &View,
    condition: &Provision,
) -> Result<Option<u32>, AllocError> {
    match condition {
        Provision::Always => Ok(None),
        Provision::Provided(condition) => place_in(alloc, view, condition),
        Provision::Otherwise(conditions) => place_among(alloc, view, conditions.as_slice()),
    }
}

// The place of the bound of a delay that passes the limit, if one does.
fn place_of_bound(alloc: Global, view: &View, bounds: &Bounds) -> Result<Option<u32>, AllocError> {
    if let Some(place) = place_in(alloc, view, bounds.least)? {
        return Ok(Some(place));
    }
    match bounds.most {
        Most::Value(part) => place_in(alloc, view, part.get()),
        _ => Ok(None),
    }
}

/// The place of the first condition or bound of a transition that passes the limit, if one does.
pub(crate) fn passing_place(
    alloc: Global,
    view: &View,
    transition: &Written,
) -> Result<Option<u32>, AllocError> {
    if let Some(place) = place_of_condition(alloc, view, &transition.condition)? {
        return Ok(Some(place));
    }
    match transition.delay {
        None => Ok(None),
        Some(bounds) => place_of_bound(alloc, view, &bounds),
    }
}

/// The place of the first subscript of what a transition awaits that passes the limit, if one does.
pub(crate) fn passing_subscript(
    alloc: Global,
    view: &View,
    transition: &Written,
) -> Result<Option<u32>, AllocError> {
    let Some(awaits) = transition.awaits else {
        return Ok(None);
    };
    let index = awaits.at.index.as_slice();
    for i in 0..index.len() {
        if let Some(place) = place_in(alloc, view, &index[i])? {
            return Ok(Some(place));
        }
    }
    Ok(None)
}

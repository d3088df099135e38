//! Interaction points with their subscripts.

use crate::names::name_at;
use crate::parts::{Came, View, evaluated, within};
use est_lexer::tokens::Tokens;
use est_meaning::mean_blocks::situation::InteractionPoint;
use est_meaning::rule_scope::outline::Outline;
use est_syntax::expression::{Access, Expr};
use est_syntax::kind::Kind;
use plain_frames::plain_declared::declared::dims_at;
use std::alloc::{AllocError, Global};
use text_values::written_lists::append_separator;
use text_values::written_ordinals::append_ordinal;

// Adds a subscript of a kind after so many others, or a question mark where it has no value.
fn push_subscript(
    text: &mut Vec<u8>,
    before: usize,
    kind: &Kind,
    came: Came,
) -> Result<(), AllocError> {
    append_separator(text, before)?;
    match came {
        Came::Ordinal(ordinal) => append_ordinal(text, kind, ordinal),
        _ => text.extend_from_slice(b"?"),
    }
}

// Adds subscripts of these kinds.
fn push_ordinals(text: &mut Vec<u8>, kinds: &[Kind], index: &[i32]) -> Result<(), AllocError> {
    for i in 0..index.len() {
        let Some(kind) = kinds.get(i) else {
            return Ok(());
        };
        push_subscript(text, i, kind, Came::Ordinal(index[i]))?;
    }
    Ok(())
}

/// Adds an interaction point.
pub(crate) fn push_point(
    tokens: &Tokens,
    outline: &Outline,
    text: &mut Vec<u8>,
    point: &InteractionPoint,
) -> Result<(), AllocError> {
    text.extend_from_slice(name_at(tokens, point.declared))?;
    let Some(kinds) = dims_at(outline, point.declared) else {
        return Ok(());
    };
    if kinds.is_empty() {
        return Ok(());
    }
    text.extend_from_slice(b"[")?;
    push_ordinals(text, kinds, point.index.as_slice())?;
    text.extend_from_slice(b"]")
}

/// What comes of a subscript of a kind.
pub(crate) fn subscript_of(
    alloc: Global,
    view: &View,
    kind: &Kind,
    part: &Expr,
) -> Result<Came, AllocError> {
    let came = evaluated(alloc, view, part)?;
    Ok(within(kind, came))
}

// Adds what comes of subscripts of these kinds.
fn push_values(
    alloc: Global,
    view: &View,
    text: &mut Vec<u8>,
    kinds: &[Kind],
    index: &[Expr],
) -> Result<(), AllocError> {
    for i in 0..index.len() {
        let Some(kind) = kinds.get(i) else {
            return Ok(());
        };
        let came = subscript_of(alloc, view, kind, &index[i])?;
        push_subscript(text, i, kind, came)?;
    }
    Ok(())
}

/// The kinds of the subscripts of an interaction point; none where it has none.
pub(crate) fn kinds_of<'v>(view: &View<'v, '_>, access: &Access) -> &'v [Kind] {
    match view.site.text.declared_at(&access.name) {
        None => &[],
        Some(place) => match dims_at(view.site.text.outline(), place) {
            None => &[],
            Some(kinds) => kinds,
        },
    }
}

/// Adds the interaction point that a `when` names, with a question mark for each subscript without
/// a value.
pub(crate) fn push_access(
    alloc: Global,
    view: &View,
    text: &mut Vec<u8>,
    access: &Access,
) -> Result<(), AllocError> {
    text.extend_from_slice(name_at(view.tokens, access.name.place))?;
    let index = access.index.as_slice();
    if index.is_empty() {
        return Ok(());
    }
    text.extend_from_slice(b"[")?;
    push_values(alloc, view, text, kinds_of(view, access), index)?;
    text.extend_from_slice(b"]")
}

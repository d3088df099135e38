//! Subscripts of what is awaited.

use crate::parts::{View, append_unvalued};
use crate::points::{kinds_of, subscript_of};
use est_syntax::expression::Expr;
use est_syntax::kind::Kind;
use plain_transitions::written::Awaits;
use std::alloc::{AllocError, Global};

// Adds that a subscript of a kind has no value, if that is so, and answers whether it is.
fn append_subscript(
    alloc: Global,
    view: &View,
    kind: &Kind,
    part: &Expr,
    notes: &mut String,
) -> Result<bool, AllocError> {
    let came = subscript_of(alloc, view, kind, part)?;
    let subject = "a subscript of what it awaits";
    append_unvalued(alloc, view, part, subject, came, notes)
}

/// Adds the first subscript of what is awaited that has no value, if there is one.
pub(crate) fn append_subscripts(
    alloc: Global,
    view: &View,
    awaits: &Awaits,
    notes: &mut String,
) -> Result<(), AllocError> {
    let kinds = kinds_of(view, awaits.at);
    let index = awaits.at.index.as_slice();
    for i in 0..index.len() {
        let Some(kind) = kinds.get(i) else {
            return Ok(());
        };
        if append_subscript(alloc, view, kind, &index[i], notes)? {
            return Ok(());
        }
    }
    Ok(())
}

//! The texts of interactions.

use crate::names::name_at;
use crate::points::push_point;
use est_lexer::tokens::Tokens;
use est_meaning::mean_blocks::situation::Item;
use est_meaning::rule_scope::declaration::Sort;
use est_meaning::rule_scope::outline::Outline;
use plain_frames::plain_declared::declared::{kind_at, places_of};
use std::alloc::{AllocError, Global};
use text_values::written_lists::append_separator;
use text_values::written_values::append_value;

// Adds the values of an interaction, whose parameters are declared at these places.
fn append_parameters(
    outline: &Outline,
    text: &mut Vec<u8>,
    item: &Item,
    places: &[u32],
) -> Result<(), AllocError> {
    for (at, place) in places.iter().enumerate() {
        let Some(value) = item.values.get(at) else {
            return Ok(());
        };
        let Some(kind) = kind_at(outline, *place) else {
            return Ok(());
        };
        append_separator(text, at)?;
        append_value(text, value, kind)?;
    }
    Ok(())
}

// Adds the values of an interaction in parentheses, if it has some.
fn append_values(
    alloc: Global,
    outline: &Outline,
    text: &mut Vec<u8>,
    item: &Item,
) -> Result<(), AllocError> {
    if item.values.len() == 0 {
        return Ok(());
    }
    text.extend_from_slice(b"(")?;
    let places = places_of(alloc, outline, Sort::Variable, item.signal)?;
    append_parameters(outline, text, item, places.as_slice())?;
    text.extend_from_slice(b")")
}

/// Adds an interaction at its interaction point, as specifications write names.
pub fn append_item(
    alloc: Global,
    tokens: &Tokens,
    outline: &Outline,
    item: &Item,
    text: &mut Vec<u8>,
) -> Result<(), AllocError> {
    push_point(tokens, outline, text, &item.at)?;
    text.extend_from_slice(b".")?;
    text.extend_from_slice(name_at(tokens, item.signal))?;
    append_values(alloc, outline, text, item)
}

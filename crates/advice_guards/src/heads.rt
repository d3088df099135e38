//! What is awaited, and what waits first in queues.

use crate::names::name_at;
use crate::parts::View;
use crate::points::{push_access, push_point};
use advice_tokens::note::{append_note, printed};
use advice_tokens::place::spot_of;
use est_meaning::mean_blocks::situation::Item;
use plain_transitions::written::Awaits;
use std::alloc::{AllocError, Global};

// Adds an interaction with its interaction point.
fn push_item(view: &View, text: &mut Vec<u8>, item: &Item) -> Result<(), AllocError> {
    text.extend_from_slice(b" ")?;
    push_point(view.tokens, view.site.text.outline(), text, &item.at)?;
    text.extend_from_slice(b".")?;
    text.extend_from_slice(name_at(view.tokens, item.signal))
}

// Adds an interaction, if it waits at the instance.
fn push_head(view: &View, text: &mut Vec<u8>, head: Option<&Item>) -> Result<(), AllocError> {
    match head {
        Some(item) if item.at.instance == view.site.instance => push_item(view, text, item),
        _ => Ok(()),
    }
}

// Adds what waits first in each queue of the instance.
fn push_heads(view: &View, text: &mut Vec<u8>) -> Result<(), AllocError> {
    text.extend_from_slice(b", and first in the queues of its instance:")?;
    let before = text.len();
    for waiting in view.working.system.queues.get().as_slice() {
        push_head(view, text, waiting.items.head())?;
    }
    if text.len() == before {
        text.extend_from_slice(b" nothing")?;
    }
    Ok(())
}

// Adds what is awaited.
fn push_awaited(
    alloc: Global,
    view: &View,
    text: &mut Vec<u8>,
    awaits: &Awaits,
) -> Result<(), AllocError> {
    text.extend_from_slice(b"it awaits ")?;
    push_access(alloc, view, text, awaits.at)?;
    text.extend_from_slice(b".")?;
    text.extend_from_slice(name_at(view.tokens, awaits.signal.place))
}

/// Adds what is awaited, and what waits first in the queues of the instance.
pub(crate) fn append_heads(
    alloc: Global,
    view: &View,
    awaits: &Awaits,
    notes: &mut String,
) -> Result<(), AllocError> {
    let mut text = Vec::new(alloc);
    push_awaited(alloc, view, &mut text, awaits)?;
    push_heads(view, &mut text)?;
    let text = printed(alloc, &text)?;
    let spot = spot_of("specification", view.tokens, awaits.signal.place);
    append_note(alloc, notes, spot, &text)
}

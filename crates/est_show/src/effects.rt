//! What a move sends.

use crate::source::Source;
use crate::texts::{event_text, expected_text, item_text};
use advice_lines::sheet::{Effect, EffectKind};
use est_meaning::event::Event;
use est_meaning::mean_blocks::situation::Item;
use est_meaning::trace::{Expected, agrees};
use est_syntax::est_items::Twin;
use est_values::Queue;
use plain_frames::plain_systems::system::Waiting;
use std::alloc::{AllocError, Global};

// Adds an item that came to a queue.
fn push_item(
    alloc: Global,
    source: &Source,
    item: &Item,
    effects: &mut Vec<Effect>,
) -> Result<(), AllocError> {
    let text = item_text(alloc, source, item)?;
    effects.push(Effect {
        kind: EffectKind::Waits,
        instance: item.at.instance,
        text,
    })?;
    Ok(())
}

// Adds the items of a queue.
fn push_items(
    alloc: Global,
    source: &Source,
    queue: &Queue<Item>,
    effects: &mut Vec<Effect>,
) -> Result<(), AllocError> {
    let mut rest = queue.twin(alloc)?;
    while let Some(item) = rest.take(alloc)? {
        push_item(alloc, source, &item, effects)?;
        drop(item);
    }
    Ok(())
}

/// Adds what waits in queues.
pub(crate) fn push_arrivals(
    alloc: Global,
    source: &Source,
    queues: &[Waiting],
    effects: &mut Vec<Effect>,
) -> Result<(), AllocError> {
    for waiting in queues {
        push_items(alloc, source, &waiting.items, effects)?;
    }
    Ok(())
}

// Whether an event is one of which not every value was seen.
fn is_seen_partly(expected: &Expected, event: &Event) -> bool {
    match expected {
        Expected::Known(_) => false,
        Expected::Partly { .. } => agrees(expected, event),
    }
}

// The text of an event that left the system, and how the trace has it where not every value was
// seen.
fn departure_text(
    alloc: Global,
    source: &Source,
    event: &Event,
    expected: Option<&Expected>,
) -> Result<String, AllocError> {
    let text = event_text(alloc, source.ports, event)?;
    match expected {
        Some(expected) if is_seen_partly(expected, event) => {
            let seen = expected_text(alloc, source.ports, expected)?;
            format!(in alloc; "{text}, seen as {seen}")
        }
        _ => Ok(text),
    }
}

// Adds an event that left the system, where this is expected.
fn push_event(
    alloc: Global,
    source: &Source,
    event: &Event,
    expected: Option<&Expected>,
    effects: &mut Vec<Effect>,
) -> Result<(), AllocError> {
    let text = departure_text(alloc, source, event, expected)?;
    effects.push(Effect {
        kind: EffectKind::Leaves,
        instance: 0,
        text,
    })?;
    Ok(())
}

/// Adds the events that left the system, where this is left of the trace.
pub(crate) fn push_departures(
    alloc: Global,
    source: &Source,
    events: &[Event],
    rest: &[Expected],
    effects: &mut Vec<Effect>,
) -> Result<(), AllocError> {
    for (index, event) in events.iter().enumerate() {
        push_event(alloc, source, event, rest.get(index), effects)?;
    }
    Ok(())
}

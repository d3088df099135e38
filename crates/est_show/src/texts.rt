//! The texts of interactions and events.

use crate::source::{Source, ascii};
use advice_guards::items::append_item;
use call_files::est_trace::written_trace::{append_expectation, append_happening};
use est_meaning::event::Event;
use est_meaning::mean_blocks::situation::Item;
use est_meaning::trace::Expected;
use est_syntax::body::Body;
use est_syntax::transition::Transition;
use rule_ports::ports::Ports;
use std::alloc::{AllocError, Global};

/// The text of an interaction at its interaction point, as specifications write names.
pub(crate) fn item_text(alloc: Global, source: &Source, item: &Item) -> Result<String, AllocError> {
    let mut text = Vec::new(alloc);
    append_item(alloc, &source.tokens, source.outline, item, &mut text)?;
    ascii(alloc, &text)
}

/// The text of an event, as traces write it.
pub(crate) fn event_text(
    alloc: Global,
    ports: &Ports,
    event: &Event,
) -> Result<String, AllocError> {
    let mut text = Vec::new(alloc);
    append_happening(alloc, &mut text, ports, event)?;
    ascii(alloc, &text)
}

/// The text of an event that is expected, as its trace has it.
pub(crate) fn expected_text(
    alloc: Global,
    ports: &Ports,
    expected: &Expected,
) -> Result<String, AllocError> {
    let mut text = Vec::new(alloc);
    append_expectation(alloc, &mut text, ports, expected)?;
    ascii(alloc, &text)
}

/// The transition of a body that has a number, from 1.
pub(crate) fn transition_in(body: &Body, number: u32) -> Option<&Transition> {
    let mut index = (number as usize).checked_sub(1)?;
    for group in body.groups.as_slice() {
        match group.transitions.get(index) {
            Some(transition) => return Some(transition),
            None => index = index.saturating_sub(group.transitions.len()),
        }
    }
    None
}

/// The place at which a transition has its name, or else its block begins.
pub(crate) fn place_in(transition: &Transition) -> u32 {
    match &transition.name {
        None => transition.block.place,
        Some(name) => name.place,
    }
}

/// What a transition of a number is called.
pub(crate) fn label(
    alloc: Global,
    source: &Source,
    number: u32,
    transition: &Transition,
) -> Result<String, AllocError> {
    let Some(name) = &transition.name else {
        return format!(in alloc; "{number}");
    };
    let name = ascii(alloc, source.name(name.place))?;
    format!(in alloc; "{number} {name}")
}

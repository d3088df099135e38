//! The bodies of a specification, with their states and transitions, in lines.

use crate::listed_clauses::{Listed, append_clauses};
use crate::source::Source;
use crate::texts::place_in;
use advice_lines::lines::append_bytes;
use est_meaning::rule_declares::context::Context;
use est_syntax::body::{Body, Part};
use est_syntax::name::Used;
use est_syntax::transition::{Group, Transition};
use std::alloc::{AllocError, Global};

/// Begins a line with a word, the line of the specification on which a place is, and the name
/// that stands at another place.
pub(crate) fn begin_line(
    source: &Source,
    word: &str,
    place: u32,
    name: u32,
    out: &mut String,
) -> Result<(), AllocError> {
    let line = source.line(place);
    write!(out, "{word} {line} ")?;
    append_bytes(source.name(name), out)
}

// Ends a line with one more name.
fn end_line(source: &Source, name: u32, out: &mut String) -> Result<(), AllocError> {
    out.push_str(" ")?;
    append_bytes(source.name(name), out)?;
    out.push_str("\n")
}

// Adds states of a body.
fn append_names(
    source: &Source,
    body: u32,
    names: &[Used],
    out: &mut String,
) -> Result<(), AllocError> {
    for name in names {
        begin_line(source, "state", name.place, body, out)?;
        end_line(source, name.place, out)?;
    }
    Ok(())
}

// Adds the states of a body.
fn append_states(source: &Source, body: &Body, out: &mut String) -> Result<(), AllocError> {
    for part in body.parts.as_slice() {
        if let Part::States(names) = part {
            append_names(source, body.name.place, names.as_slice(), out)?;
        }
    }
    Ok(())
}

// Adds a transition, with the clauses that it has.
fn append_transition(
    source: &Source,
    listed: Listed,
    transition: &Transition,
    context: &mut Context,
    out: &mut String,
) -> Result<(), AllocError> {
    let number = listed.number;
    begin_line(source, "transition", place_in(transition), listed.body, out)?;
    match &transition.name {
        None => write!(out, " {number} -\n")?,
        Some(name) => {
            write!(out, " {number}")?;
            end_line(source, name.place, out)?;
        }
    }
    append_clauses(source, listed, transition.clauses.as_slice(), context, out)
}

// Adds the transitions of a group of a body, before which there are so many.
fn append_group(
    alloc: Global,
    source: &Source,
    body: u32,
    before: usize,
    group: &Group,
    out: &mut String,
) -> Result<(), AllocError> {
    let mut context = Context::new(alloc);
    for (at, transition) in group.transitions.as_slice().iter().enumerate() {
        let number = before.saturating_add(at).saturating_add(1);
        let listed = Listed { body, number };
        append_transition(source, listed, transition, &mut context, out)?;
    }
    Ok(())
}

// Adds the transitions of a body.
fn append_groups(
    alloc: Global,
    source: &Source,
    body: &Body,
    out: &mut String,
) -> Result<(), AllocError> {
    let mut before: usize = 0;
    for group in body.groups.as_slice() {
        append_group(alloc, source, body.name.place, before, group, out)?;
        before = before.saturating_add(group.transitions.len());
    }
    Ok(())
}

// Adds a body alone.
fn append_body(
    alloc: Global,
    source: &Source,
    body: &Body,
    out: &mut String,
) -> Result<(), AllocError> {
    begin_line(source, "body", body.name.place, body.name.place, out)?;
    end_line(source, body.header.place, out)?;
    append_states(source, body, out)?;
    append_groups(alloc, source, body, out)
}

// Adds a part, if it is a body, with the bodies in it.
#[cycle(bodies)]
fn append_part(
    alloc: Global,
    source: &Source,
    part: &Part,
    out: &mut String,
) -> Result<(), AllocError> {
    match part {
        Part::Body(body) => {
            append_body(alloc, source, body, out)?;
            append_bodies(alloc, source, body.parts.as_slice(), out)
        }
        _ => Ok(()),
    }
}

/// Adds the bodies that parts declare, each before those in it.
#[cycle(bodies)]
pub(crate) fn append_bodies(
    alloc: Global,
    source: &Source,
    parts: &[Part],
    out: &mut String,
) -> Result<(), AllocError> {
    for part in parts {
        append_part(alloc, source, part, out)?;
    }
    Ok(())
}

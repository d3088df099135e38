//! The ports of a specification and their signals, in lines. An array of ports is one.

use crate::listed_bodies::begin_line;
use crate::source::Source;
use advice_lines::declared::append_side;
use advice_lines::kinds::append_kind;
use advice_lines::lines::append_bytes;
use advice_lines::started::{count_in, header_of};
use est_meaning::rule_scope::declaration::{Member, Senders, Side, Sort};
use est_syntax::channel::Role;
use est_syntax::kind::Kind;
use est_syntax::specification::Spec;
use plain_frames::plain_declared::declared::{dims_at, kind_at, places_of};
use std::alloc::{AllocError, Global};

// Adds kinds of subscripts, or a dash where there are none.
fn append_subscripts(
    alloc: Global,
    source: &Source,
    kinds: &[Kind],
    out: &mut String,
) -> Result<(), AllocError> {
    for (at, kind) in kinds.iter().enumerate() {
        out.push_str(if at == 0 { "[" } else { ", " })?;
        append_kind(alloc, &source.tokens, kind, out)?;
    }
    out.push_str(if kinds.is_empty() { "-\n" } else { "]\n" })
}

// Adds a parameter of a signal.
fn append_parameter(
    alloc: Global,
    source: &Source,
    place: u32,
    out: &mut String,
) -> Result<(), AllocError> {
    append_bytes(source.name(place), out)?;
    out.push_str(": ")?;
    match kind_at(source.outline, place) {
        None => out.push_str("-"),
        Some(kind) => append_kind(alloc, &source.tokens, kind, out),
    }
}

// Adds the parameters that are declared at these places, or a dash where there are none.
fn append_parameters(
    alloc: Global,
    source: &Source,
    places: &[u32],
    out: &mut String,
) -> Result<(), AllocError> {
    for (at, place) in places.iter().enumerate() {
        out.push_str(if at == 0 { "(" } else { "; " })?;
        append_parameter(alloc, source, *place, out)?;
    }
    out.push_str(if places.is_empty() { "-\n" } else { ")\n" })
}

// Adds a signal of a port that goes in a direction.
fn append_signal(
    alloc: Global,
    source: &Source,
    port: u32,
    direction: &str,
    signal: u32,
    out: &mut String,
) -> Result<(), AllocError> {
    begin_line(source, "signal", signal, port, out)?;
    write!(out, " {direction} ")?;
    append_bytes(source.name(signal), out)?;
    out.push_str(" ")?;
    let places = places_of(alloc, source.outline, Sort::Variable, signal)?;
    append_parameters(alloc, source, places.as_slice(), out)
}

// Whether a signal arrives at a side of its channel, and whether it leaves there.
fn directions(side: Side, senders: Senders) -> (bool, bool) {
    match side.role {
        Role::First => (senders.second, senders.first),
        Role::Second => (senders.first, senders.second),
    }
}

// Adds what is declared at a place of the channel of a port, if it is a signal.
fn append_member(
    alloc: Global,
    source: &Source,
    port: u32,
    side: Side,
    place: u32,
    out: &mut String,
) -> Result<(), AllocError> {
    let Some(Member::Interaction(senders)) = source.outline.member(place) else {
        return Ok(());
    };
    let (arrives, leaves) = directions(side, senders);
    if arrives {
        append_signal(alloc, source, port, "in", place, out)?;
    }
    if leaves {
        append_signal(alloc, source, port, "out", place, out)?;
    }
    Ok(())
}

// Adds the signals of a port.
fn append_signals(
    alloc: Global,
    source: &Source,
    port: u32,
    side: Side,
    out: &mut String,
) -> Result<(), AllocError> {
    for number in 0..count_in(source.outline, side.channel) {
        if let Some(place) = source.outline.nth(side.channel, number) {
            append_member(alloc, source, port, side, place, out)?;
        }
    }
    Ok(())
}

// Adds what is declared at a place of a header, if it is a port.
fn append_port(
    alloc: Global,
    source: &Source,
    port: u32,
    out: &mut String,
) -> Result<(), AllocError> {
    let Some(side) = source.outline.entry(port).and_then(|entry| entry.side) else {
        return Ok(());
    };
    begin_line(source, "port", port, port, out)?;
    out.push_str(" ")?;
    append_side(&source.tokens, source.outline, side, out)?;
    out.push_str(" ")?;
    let kinds = dims_at(source.outline, port).unwrap_or(&[]);
    append_subscripts(alloc, source, kinds, out)?;
    append_signals(alloc, source, port, side, out)
}

/// Adds the ports of a specification, each with its signals.
pub(crate) fn append_ports(
    alloc: Global,
    source: &Source,
    spec: &Spec,
    out: &mut String,
) -> Result<(), AllocError> {
    let Some(header) = header_of(source.outline, spec) else {
        return Ok(());
    };
    for number in 0..count_in(source.outline, header) {
        if let Some(place) = source.outline.nth(header, number) {
            append_port(alloc, source, place, out)?;
        }
    }
    Ok(())
}

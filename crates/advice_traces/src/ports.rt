//! The ports of a specification and their signals, as people are told them.

use crate::kinds::{push_bytes, push_separator};
use est_syntax::kind::Kind;
use est_syntax::ports::{Direction, Signal};
use rule_kinds::hosts::count;
use rule_ports::ports::Ports;
use std::alloc::{AllocError, Global};

// So many names of ports are looked at.
const MOST_LOOKED_AT: u32 = 100_000;

/// Whether a signal passes in a direction.
pub(crate) fn passes(signal: &Signal, direction: Direction) -> bool {
    match direction {
        Direction::Sends => signal.sends,
        Direction::Receives => signal.receives,
    }
}

/// The signals of the port of a number; none where there is no such port.
pub(crate) fn signals_at(ports: &Ports, port: u32) -> &[Signal] {
    match ports.signals(port) {
        None => &[],
        Some(signals) => signals.as_slice(),
    }
}

/// The kinds of the subscripts of the port of a number; none where there is no such port.
pub(crate) fn subscripts_at(ports: &Ports, port: u32) -> &[Kind] {
    match ports.kinds(port) {
        None => &[],
        Some(kinds) => kinds.as_slice(),
    }
}

// How many ports have the name of the port of a number.
fn elements(ports: &Ports, port: u32) -> u64 {
    let mut all: u64 = 1;
    for kind in subscripts_at(ports, port) {
        all = all.saturating_mul(count(kind));
    }
    all
}

// The number of the first port of the next name.
fn next_name(ports: &Ports, port: u32) -> Option<u32> {
    let next = u64::from(port).saturating_add(elements(ports, port));
    if next <= u64::from(port) {
        return None;
    }
    match u32::try_from(next) {
        Ok(next) => Some(next),
        Err(_) => None,
    }
}

/// The number of the first port of a name, if there is one.
pub(crate) fn port_of(ports: &Ports, name: &[u8]) -> Option<u32> {
    let mut port: u32 = 0;
    for _ in 0..MOST_LOOKED_AT {
        let known = ports.name(port)?;
        if known.eq_ignore_ascii_case(name) {
            return Some(port);
        }
        port = next_name(ports, port)?;
    }
    None
}

// Whether some signal passes a port in a direction.
fn some_pass(signals: &[Signal], direction: Direction) -> bool {
    for signal in signals {
        if passes(signal, direction) {
            return true;
        }
    }
    false
}

// Adds the name of a port as the next of a list, and tells how many there are then, unless no more
// are told.
fn push_port(
    alloc: Global,
    text: &mut String,
    ports: &Ports,
    port: u32,
    so_far: usize,
) -> Result<Option<usize>, AllocError> {
    let Some(name) = ports.name(port) else {
        return Ok(None);
    };
    if !push_separator(text, so_far)? {
        return Ok(None);
    }
    push_bytes(alloc, text, name)?;
    Ok(Some(so_far.saturating_add(1)))
}

/// Adds the names of the ports that some signal passes in a direction.
pub(crate) fn push_ports(
    alloc: Global,
    text: &mut String,
    ports: &Ports,
    direction: Direction,
) -> Result<(), AllocError> {
    let mut port: u32 = 0;
    let mut so_far = 0;
    for _ in 0..MOST_LOOKED_AT {
        if ports.name(port).is_none() {
            return Ok(());
        }
        if some_pass(signals_at(ports, port), direction) {
            match push_port(alloc, text, ports, port, so_far)? {
                None => return Ok(()),
                Some(count) => so_far = count,
            }
        }
        match next_name(ports, port) {
            None => return Ok(()),
            Some(next) => port = next,
        }
    }
    Ok(())
}

/// Adds the names of the signals that pass in a direction.
pub(crate) fn push_signals(
    alloc: Global,
    text: &mut String,
    signals: &[Signal],
    direction: Direction,
) -> Result<(), AllocError> {
    let mut so_far: usize = 0;
    for signal in signals {
        if passes(signal, direction) {
            if !push_separator(text, so_far)? {
                return Ok(());
            }
            push_bytes(alloc, text, signal.name.bytes.as_slice())?;
            so_far = so_far.saturating_add(1);
        }
    }
    Ok(())
}

/// The signal of a name, if there is one.
pub(crate) fn signal_of<'s>(signals: &'s [Signal], name: &[u8]) -> Option<&'s Signal> {
    for signal in signals {
        if signal.name.bytes.as_slice().eq_ignore_ascii_case(name) {
            return Some(signal);
        }
    }
    None
}

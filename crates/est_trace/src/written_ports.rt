//! Interactions at ports, written.
ghost use Rattle.std.specs.Prelude.{◌≡◌, ◌++◌, OnOk, codes, slice_get};
ghost use Rattle.text_values.specs.WrittenLists.{separator, bracketed, listed};
ghost use Rattle.text_values.specs.WrittenOrdinals.{ordinal_text};
ghost use Rattle.text_values.specs.WrittenSeen.{seen_texts};
ghost use Rattle.est_trace.specs.WrittenTraces.{interaction_text, text_at, port_at};
ghost use Rattle.est_trace.specs.WrittenTraces.{name_at, index_at, ordinal_texts, signals_at};
ghost use Rattle.est_trace.specs.inside.Parts.{signal_name_of};

use crate::lookup::parameters_at;
use crate::written_subscripts::{kinds_at, subscripts};
use est_meaning::event::Interaction;
use est_seen::seen::Seens;
use est_syntax::kind::Kind;
use est_syntax::ports::Signal;
use rule_ports::ports::Ports;
use std::alloc::{AllocError, Global};
use text_values::written_lists::append_separator;
use text_values::written_ordinals::append_ordinal;
use text_values::written_seen::append_seens;
use text_values::written_values::append_values;

/// Adds an interaction to a text: its port, `.`, its signal and its values.
pub fn append_interaction(
    alloc: Global,
    text: &mut Vec<u8>,
    ports: &Ports,
    interaction: &Interaction,
) -> Result<(), AllocError>
    ensures { OnOk result (text.new.items
        ≡ text.old.items ++ interaction_text ports.now interaction.now) }
{
    append_signal(alloc, text, ports, interaction.port, interaction.signal)?;
    let signals = signals_at(ports, interaction.port);
    let kinds = parameters_at(signals, interaction.signal);
    append_values(text, &interaction.values, kinds)
}

/// Adds what was seen of a departure to a text: its port, `.`, its signal and what was seen of its
/// values.
pub fn append_seen_departure(
    alloc: Global,
    text: &mut Vec<u8>,
    ports: &Ports,
    port: u32,
    signal: u32,
    seen: &Seens,
) -> Result<(), AllocError>
    ensures { OnOk result (text.new.items ≡ text.old.items
        ++ text_at ports.now port signal (λ ks. seen_texts ks seen.now)) }
{
    append_signal(alloc, text, ports, port, signal)?;
    let signals = signals_at(ports, port);
    let kinds = parameters_at(signals, signal);
    append_seens(text, seen, kinds)
}

// Adds a port, `.` and the name of a signal.
fn append_signal(
    alloc: Global,
    text: &mut Vec<u8>,
    ports: &Ports,
    port: u32,
    signal: u32,
) -> Result<(), AllocError>
    ensures { OnOk result (text.new.items ≡ text.old.items
        ++ (port_at (slice_get ports.now port)
        ++ signal_name_of (slice_get (signals_at (slice_get ports.now port)) signal))) }
{
    append_name(text, ports, port)?;
    append_index(alloc, text, ports, port)?;
    text.extend_from_slice(b".")?;
    append_signal_name(text, signals_at(ports, port), signal)
}

// The signals of the port of this number; none where there is no such port.
fn signals_at(ports: &Ports, port: u32) -> &[Signal]
    ensures { result.now ≡ signals_at (slice_get ports.now port) }
{
    match ports.signals(port) {
        None => &[],
        Some(signals) => signals.as_slice(),
    }
}

// Adds the name of the port of this number, if there is one.
fn append_name(text: &mut Vec<u8>, ports: &Ports, port: u32) -> Result<(), AllocError>
    ensures { OnOk result (text.new.items
        ≡ text.old.items ++ name_at (slice_get ports.now port)) }
{
    match ports.name(port) {
        None => Ok(()),
        Some(name) => text.extend_from_slice(name),
    }
}

// Adds the subscripts of the port of this number, if it is an element of an array.
fn append_index(
    alloc: Global,
    text: &mut Vec<u8>,
    ports: &Ports,
    port: u32,
) -> Result<(), AllocError>
    ensures { OnOk result (text.new.items
        ≡ text.old.items ++ index_at (slice_get ports.now port)) }
{
    let kinds = kinds_at(ports, port);
    if kinds.is_empty() {
        return Ok(());
    }
    let index = subscripts(alloc, ports, port)?;
    let done = append_subscripts(text, kinds, index.as_slice());
    drop(index);
    done
}

// Adds subscripts of these kinds in brackets, or nothing where there are none.
fn append_subscripts(text: &mut Vec<u8>, kinds: &[Kind], index: &[i32]) -> Result<(), AllocError>
    ensures { OnOk result (text.new.items ≡ text.old.items
        ++ bracketed (codes "[") (codes "]") (ordinal_texts kinds.now index.now)) }
{
    if kinds.is_empty() {
        return Ok(());
    }
    if index.is_empty() {
        return Ok(());
    }
    text.extend_from_slice(b"[")?;
    append_ordinals(text, kinds, index)?;
    text.extend_from_slice(b"]")
}

// Adds ordinals of these kinds.
fn append_ordinals(text: &mut Vec<u8>, kinds: &[Kind], index: &[i32]) -> Result<(), AllocError>
    ensures { OnOk result (text.new.items
        ≡ text.old.items ++ listed (ordinal_texts kinds.now index.now)) }
{
    for i in 0..kinds.len() {
        if index.len() <= i {
            return Ok(());
        }
        append_item(text, i, &kinds[i], &index[i])?;
    }
    Ok(())
}

// Adds an ordinal of a list, after so many others.
fn append_item(
    text: &mut Vec<u8>,
    before: usize,
    kind: &Kind,
    ordinal: &i32,
) -> Result<(), AllocError>
    ensures { OnOk result (text.new.items
        ≡ text.old.items ++ (separator before ++ ordinal_text kind.now ordinal.now)) }
{
    append_separator(text, before)?;
    append_ordinal(text, kind, *ordinal)
}

// Adds the name of the signal of this number, if there is one.
fn append_signal_name(text: &mut Vec<u8>, signals: &[Signal], signal: u32) -> Result<(), AllocError>
    ensures { OnOk result (text.new.items
        ≡ text.old.items ++ signal_name_of (slice_get signals.now signal)) }
{
    match signals.get(signal as usize) {
        None => Ok(()),
        Some(signal) => text.extend_from_slice(signal.name.bytes.as_slice()),
    }
}

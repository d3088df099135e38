//! Texts of one trace for each port.

ghost use Rattle.std.specs.Prelude.{◌≡◌, [], None, Some, IfOk, slice_get};
ghost use Rattle.std.specs.Option.{IsSomeAnd, option_map};
ghost use Rattle.est_lexer.specs.Offsets.{text_of, tokens_of};
ghost use Rattle.text_reader.specs.Grammar.{rule, one_of};
ghost use Rattle.text_reader.specs.Moving.{OneSeen, SeesOne};
ghost use Rattle.text_values.specs.TraceGrammar as grammar;
ghost use Rattle.text_values.specs.TraceGrammar.{lists_at, list_starts};
ghost use Rattle.text_values.specs.ValueReading.{Reads};
ghost use Rattle.text_values.specs.declared.formats.Format.TheVariants as formats;
ghost use Rattle.est_meaning.specs.declared.event.Event.TheVariants as events;
ghost use Rattle.est_meaning.specs.rule_declares.Differing.{HaveDifferentNames};
ghost use Rattle.est_meaning.specs.rule_declares.PortList.{ports_of};
ghost use Rattle.mean_ports.specs.Merges.{AreAllowedLists};
ghost use Rattle.est_trace.specs.Directories.{IsDirectory};
ghost use Rattle.est_trace.specs.ListShapes.{ShowsSignalAt, ShowsPortEvent, ShowsLists};
ghost use Rattle.est_trace.specs.ListText.{ReadsLists};
ghost use Rattle.est_trace.specs.PortNames.{GoodPorts, signal_name, signals_of};
ghost use Rattle.est_trace.specs.inside.ListReading.{line_starts, named, named_as, signals_named};
ghost use Rattle.est_trace.specs.inside.ListReading.{NamesPort, TakesLine, ShowsMerge};
ghost use Rattle.est_trace.specs.inside.ListReading as reading;
ghost use Rattle.est_trace.specs.inside.Lookups.{Chooses};

use crate::directory::{Directory, directory_of};
use crate::error::TraceError;
use crate::growing::Growing;
use crate::hints::Hints;
use crate::interaction::{element, signal};
use crate::lookup::{find_port, parameters_at};
use crate::trace::MOST_EVENTS;
use est_check::Checked;
use est_lexer::tokens::Tokens;
use est_meaning::event::{Event, Interaction};
use est_syntax::kind::MAXINT;
use est_syntax::ports::{Direction, Signal};
use est_values::value::Values;
use mean_ports::lists::{Phases, PortLists, Times};
use rule_ports::ports::Ports;
use std::alloc::Global;
use text_reader::Reader;
use text_values::values::values;

// A port that is named, and the head of its name, by their numbers.
#[derive(Clone, Copy)]
struct NamedPort {
    head: u32,
    number: u32,
}

/// The lists of the ports of a specification that the tokens are, or the first token that is
/// refused.
pub fn read_ports(
    alloc: Global,
    checked: &Checked,
    tokens: &Tokens,
) -> Result<PortLists, TraceError>
    ensures reads { ReadsLists (ports_of checked.now) (text_of tokens.now)
        (tokens_of tokens.now) result }
    ensures allowed { IfOk result (λ x. AreAllowedLists checked.now x) }
{
    read_lists(alloc, checked.ports(), tokens)
}

// The lists that the tokens are, for a specification with these ports, or the first token that is
// refused.
fn read_lists(alloc: Global, ports: &Ports, tokens: &Tokens) -> Result<PortLists, TraceError>
    requires { GoodPorts ports.now }
    ensures { ReadsLists ports.now (text_of tokens.now) (tokens_of tokens.now) result }
{
    let mut reader = Reader::new(alloc, tokens, MOST_EVENTS);
    let found = lists_in(&mut reader, ports);
    let whole = reader.finish(found)?;
    Ok(whole)
}

// The lists that come next, for a specification with these ports.
fn lists_in(reader: &mut Reader, ports: &Ports) -> PortLists
    requires { GoodPorts ports.now }
    ensures { Reads (grammar.port_lists ports.now) (ShowsLists ports.now result)
        reader.old reader.new }
{
    match directory_of(reader.alloc, ports) {
        Ok(directory) => {
            let mut hints = Hints::new(reader.alloc);
            let found = whole_lists(reader, &directory, &mut hints);
            drop(hints);
            drop(directory);
            found
        }
        Err(_) => {
            reader.spend();
            PortLists {
                phases: Phases::new(reader.alloc),
                times: Times::new(reader.alloc),
            }
        }
    }
}

// ports = "ports" "1" { line } "end" .
fn whole_lists(reader: &mut Reader, directory: &Directory, hints: &mut Hints) -> PortLists
    requires { IsDirectory directory.now }
    ensures { Reads (grammar.port_lists directory.now.ports.now)
        (ShowsLists directory.now.ports.now result) reader.old reader.new }
{
    reader.take_word(b"ports");
    let _version = reader.number(1, 1);
    let lists = lines(reader, directory, hints);
    reader.take_word(b"end");
    lists
}

// { line }, each event and each time within a level of its own: the levels count them.
fn lines(reader: &mut Reader, directory: &Directory, hints: &mut Hints) -> PortLists
    requires { IsDirectory directory.now }
    ensures { Reads (rule (lists_at directory.now.ports.now None))
        (ShowsMerge directory.now.ports.now result) reader.old reader.new }
{
    let levels = reader.levels;
    let mut found = Growing::new(reader, directory.ports.count());
    let mut at = None;
    while begins_line(reader, at.is_some()) {
        at = line(reader, directory, hints, &mut found, at);
    }
    reader.close(levels);
    found.ended(reader)
}

// Whether a line begins here, where a port is named or none is.
fn begins_line(reader: &Reader, is_named: bool) -> bool
    ensures { SeesOne reader.now (line_starts is_named) result }
{
    if is_named {
        reader.sees_word(b"port")
            || reader.sees_word(b"time")
            || reader.sees_word(b"in")
            || reader.sees_word(b"out")
    } else {
        reader.sees_word(b"port") || reader.sees_word(b"time")
    }
}

// line = "port" port | "time" number | "in" signal | "out" signal .
// An event is at the port that is named. The answer is the port that is named after the line.
fn line(
    reader: &mut Reader,
    directory: &Directory,
    hints: &mut Hints,
    found: &mut Growing,
    at: Option<NamedPort>,
) -> Option<NamedPort>
    requires directory { IsDirectory directory.now }
    requires seen { OneSeen reader.old
        (list_starts (signals_named (named directory.now.ports.now at))) }
    ensures { TakesLine directory.now.ports.now at result found.old found.new
        reader.old reader.new }
{
    if reader.sees_word(b"port") {
        reader.take_word(b"port");
        return Some(port(reader, directory));
    }
    if reader.sees_word(b"time") {
        reader.enter();
        reader.take_word(b"time");
        let units = reader.number(0, MAXINT);
        found.end_phase(reader, directory.ports.count(), units);
        return None;
    }
    let Some(port) = at else {
        return None;
    };
    reader.enter();
    let event = port_event(reader, directory, hints, port);
    found.add(reader, port.number, event);
    Some(port)
}

// A port: the name of its head, whatever passes it, and its subscripts.
fn port(reader: &mut Reader, directory: &Directory) -> NamedPort
    requires { IsDirectory directory.now }
    ensures { NamesPort directory.now.ports.now reader.old result reader.new }
{
    let head = head(reader, directory);
    let number = element(reader, directory, head);
    NamedPort { head, number }
}

// The name of a head.
fn head(reader: &mut Reader, directory: &Directory) -> u32
    requires { IsDirectory directory.now }
    ensures { Chooses (grammar.named_port directory.now.ports.now) directory.now.ports.now
        reader.old result reader.new }
{
    let found = find_port(reader, directory);
    reader.step(found.is_some());
    found.unwrap_or(0)
}

// port_event = "in" signal | "out" signal, at this port. None where it is not there, or memory ran
// out.
fn port_event(
    reader: &mut Reader,
    directory: &Directory,
    hints: &mut Hints,
    port: NamedPort,
) -> Option<Event>
    requires { IsDirectory directory.now }
    ensures { Reads (grammar.port_event (signals_of (slice_get directory.now.ports.now port.head)))
        (λ t. IsSomeAnd result (λ e. ShowsPortEvent (named_as directory.now.ports.now port) e t))
        reader.old reader.new }
{
    let signals = directory.signals(port.head);
    if reader.sees_word(b"out") {
        reader.take_word(b"out");
        return departure(interaction(reader, signals, hints, port.number, Direction::Sends));
    }
    reader.take_word(b"in");
    arrival(interaction(reader, signals, hints, port.number, Direction::Receives))
}

// The arrival of an interaction, if there is one.
fn arrival(interaction: Option<Interaction>) -> Option<Event>
    ensures { result ≡ option_map events.Arrives interaction }
{
    match interaction {
        Some(interaction) => Some(Event::Arrives(interaction)),
        None => None,
    }
}

// The departure of one.
fn departure(interaction: Option<Interaction>) -> Option<Event>
    ensures { result ≡ option_map events.Leaves interaction }
{
    match interaction {
        Some(interaction) => Some(Event::Leaves(interaction)),
        None => None,
    }
}

// A signal that passes the port of this number in this direction, with its values. None where it is
// not there, or memory ran out.
fn interaction(
    reader: &mut Reader,
    signals: &[Signal],
    hints: &mut Hints,
    port: u32,
    direction: Direction,
) -> Option<Interaction>
    requires { HaveDifferentNames signal_name signals.now }
    ensures { Reads (one_of (grammar.signal formats.Complete direction) signals.now)
        (λ t. IsSomeAnd result (λ i. ShowsSignalAt
        (record { number = port; signals = signals.now }) i t)) reader.old reader.new }
{
    let signal = signal(reader, signals, hints, direction);
    let values = values(reader, parameters_at(signals, signal));
    valued(port, signal, values)
}

// An interaction at a port, by their numbers, with these values, if there are some.
fn valued(port: u32, signal: u32, values: Option<Values>) -> Option<Interaction>
    ensures { result ≡ option_map (reading.valued port signal) values }
{
    match values {
        Some(values) => Some(Interaction {
            port,
            signal,
            values,
        }),
        None => None,
    }
}

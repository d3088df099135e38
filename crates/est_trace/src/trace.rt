//! Trace texts.

ghost use Rattle.std.specs.Prelude.{◌≡◌, ◌≤◌, [], All, length, IfOk};
ghost use Rattle.std.specs.Option.{IsSomeAnd};
ghost use Rattle.est_lexer.specs.Offsets.{text_of, tokens_of};
ghost use Rattle.text_reader.specs.Grammar.{rule};
ghost use Rattle.est_meaning.specs.rule_declares.PortList.{ports_of};
ghost use Rattle.est_meaning.specs.AllowedEvents.{IsAllowedTrace, most_events};
ghost use Rattle.est_meaning.specs.RecordedTraces.{HasUnseen};
ghost use Rattle.text_reader.specs.Moving.{SeesOne};
ghost use Rattle.text_values.specs.TraceGrammar as grammar;
ghost use Rattle.text_values.specs.TraceGrammar.{events_at};
ghost use Rattle.text_values.specs.ValueReading.{Reads};
ghost use Rattle.est_trace.specs.PortNames.{GoodPorts};
ghost use Rattle.est_trace.specs.Directories.{IsDirectory};
ghost use Rattle.est_trace.specs.TraceShapes.{ShowsEvent, ShowsEvents, ShowsQuiet, ShowsTrace};
ghost use Rattle.est_trace.specs.inside.AtPorts.{AreAtPorts};
ghost use Rattle.est_trace.specs.inside.Counting.{CountsEvents, CountsTrace};
ghost use Rattle.est_trace.specs.inside.FoundTraces.{recorded};
ghost use Rattle.est_trace.specs.inside.Versions.{TakesVersion};
ghost use Rattle.est_trace.specs.TraceText.{ReadsTrace};

use crate::directory::{Directory, directory_of};
use crate::error::TraceError;
use crate::hints::Hints;
use crate::interaction::port_signal;
use est_check::Checked;
use est_lexer::tokens::Tokens;
use est_meaning::event::Event;
use est_meaning::trace::{Expected, Expecteds, Trace};
use est_syntax::kind::MAXINT;
use est_syntax::ports::Direction;
use rule_ports::ports::Ports;
use std::alloc::Global;
use text_reader::Reader;
use text_values::formats::{Format, Version};

/// A trace has at most so many events.
pub const MOST_EVENTS: u32 = 200_000;

// What is found of a trace: its events, and whether it ends quiet.
#[derive(Drop)]
struct Found {
    events: Expecteds,
    quiet: bool,
}

/// The trace of a specification that the tokens are, or the first token that is refused.
pub fn read_trace(alloc: Global, checked: &Checked, tokens: &Tokens) -> Result<Trace, TraceError>
    ensures reads { ReadsTrace (ports_of checked.now) (text_of tokens.now)
        (tokens_of tokens.now) result }
    ensures allowed { IfOk result (λ x. IsAllowedTrace checked.now x) }
{
    read_events(alloc, checked.ports(), tokens)
}

// The trace that the tokens are, for a specification with these ports, or the first token that is
// refused.
fn read_events(alloc: Global, ports: &Ports, tokens: &Tokens) -> Result<Trace, TraceError>
    requires { GoodPorts ports.now }
    ensures reads { ReadsTrace ports.now (text_of tokens.now) (tokens_of tokens.now) result }
    ensures at_ports { IfOk result (λ x. AreAtPorts ports.now x.events) }
    ensures few { IfOk result (λ x. length x.events ≤ most_events) }
{
    let mut reader = Reader::new(alloc, tokens, MOST_EVENTS);
    let found = found_in(&mut reader, ports);
    let whole = reader.finish(found)?;
    Ok(trace_of(whole))
}

// The trace that was found.
fn trace_of(found: Found) -> Trace
    requires { All HasUnseen found.events }
    ensures { result ≡ recorded found }
{
    let Found { events, quiet } = found;
    let trace = Trace::new(events);
    if quiet { trace.ended_quiet() } else { trace }
}

// What is found of the trace that comes next, for a specification with these ports.
fn found_in(reader: &mut Reader, ports: &Ports) -> Found
    requires { GoodPorts ports.now }
    ensures reads { Reads (grammar.trace ports.now) (ShowsTrace ports.now (recorded result))
        reader.old reader.new }
    ensures counts { CountsTrace ports.now reader.old reader.new }
{
    match directory_of(reader.alloc, ports) {
        Ok(directory) => {
            let mut hints = Hints::new(reader.alloc);
            let found = whole_trace(reader, &directory, &mut hints);
            drop(hints);
            drop(directory);
            found
        }
        Err(_) => {
            reader.spend();
            Found {
                events: Expecteds::new(reader.alloc),
                quiet: false,
            }
        }
    }
}

// trace = "trace" ( "1" { event } "end" | "2" { event } "end" | "3" { event } "end" [ "quiet" ] ) .
fn whole_trace(reader: &mut Reader, directory: &Directory, hints: &mut Hints) -> Found
    requires { IsDirectory directory.now }
    ensures reads { Reads (grammar.trace directory.now.ports.now)
        (ShowsTrace directory.now.ports.now (recorded result)) reader.old reader.new }
    ensures counts { CountsTrace directory.now.ports.now reader.old reader.new }
{
    reader.take_word(b"trace");
    let version = version(reader);
    let events = events(reader, directory, hints, version.format());
    reader.take_word(b"end");
    let quiet = ending(reader, version);
    Found { events, quiet }
}

// The version of a trace.
fn version(reader: &mut Reader) -> Version
    ensures { TakesVersion reader.old result reader.new }
{
    let number = reader.number(1, 3);
    if number == 2 {
        Version::Second
    } else if number == 3 {
        Version::Third
    } else {
        Version::First
    }
}

// [ "quiet" ] in version 3, and else nothing. The answer says whether it is there.
fn ending(reader: &mut Reader, version: Version) -> bool
    ensures { Reads (grammar.ending version) (ShowsQuiet result) reader.old reader.new }
{
    match version {
        Version::First => false,
        Version::Second => false,
        Version::Third => quiet(reader),
    }
}

// [ "quiet" ]. The answer says whether it is there.
fn quiet(reader: &mut Reader) -> bool
    ensures { Reads (grammar.ending Version.Third) (ShowsQuiet result) reader.old reader.new }
{
    if reader.sees_word(b"quiet") {
        reader.take_word(b"quiet");
        true
    } else {
        false
    }
}

/// { event }, each event within a level of its own: the levels count the events.
pub(crate) fn events(
    reader: &mut Reader,
    directory: &Directory,
    hints: &mut Hints,
    format: Format,
) -> Expecteds
    requires { IsDirectory directory.now }
    ensures reads { Reads (rule (events_at format directory.now.ports.now))
        (ShowsEvents format directory.now.ports.now result) reader.old reader.new }
    ensures counts { CountsEvents format directory.now.ports.now reader.old reader.new }
{
    let levels = reader.levels;
    let mut found = Expecteds::new(reader.alloc);
    while begins_event(reader) {
        reader.enter();
        let next = event(reader, directory, hints, format);
        reader.keep_some(&mut found, next);
    }
    reader.close(levels);
    found
}

// Whether an event begins here.
fn begins_event(reader: &Reader) -> bool
    ensures { SeesOne reader.now (grammar.event_starts []) result }
{
    reader.sees_word(b"time") || reader.sees_word(b"in") || reader.sees_word(b"out")
}

// event = "time" number | "in" port "." signal | "out" port "." signal .
// None where it is not there, or memory ran out.
fn event(
    reader: &mut Reader,
    directory: &Directory,
    hints: &mut Hints,
    format: Format,
) -> Option<Expected>
    requires { IsDirectory directory.now }
    ensures { Reads (grammar.event format directory.now.ports.now)
        (λ t. IsSomeAnd result (λ x. ShowsEvent format directory.now.ports.now x t))
        reader.old reader.new }
{
    if reader.sees_word(b"in") {
        reader.take_word(b"in");
        return port_signal(reader, directory, hints, Direction::Receives, format);
    }
    if reader.sees_word(b"out") {
        reader.take_word(b"out");
        return port_signal(reader, directory, hints, Direction::Sends, format);
    }
    reader.take_word(b"time");
    Some(Expected::Known(Event::Passes(reader.number(0, MAXINT))))
}

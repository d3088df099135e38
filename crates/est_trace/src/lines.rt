//! Lines of a trace that is still being recorded.

ghost use Rattle.std.specs.Prelude.{◌≡◌, ◌≤◌, ◌↔◌, length, All, IfOk, IsTrue};
ghost use Rattle.std.specs.Prelude.{map};
ghost use Rattle.est_lexer.specs.Offsets.{text_of, tokens_of};
ghost use Rattle.est_syntax.specs.declared.specification.Spec.{Spec};
ghost use Rattle.est_meaning.specs.rule_declares.PortList.{ports_of};
ghost use Rattle.est_meaning.specs.AllowedEvents.{IsAllowed, most_events};
ghost use Rattle.est_meaning.specs.declared.trace.Expected.TheVariants.{Known};
ghost use Rattle.text_values.specs.ValueReading.{Reads};
ghost use Rattle.est_trace.specs.Directories.{IsDirectory};
ghost use Rattle.est_trace.specs.LineReaders.{IsLineReader};
ghost use Rattle.est_trace.specs.LineText.{ReadsLine, IsEndAlone, first_version};
ghost use Rattle.est_trace.specs.WrittenTraces.{is_known};
ghost use Rattle.est_trace.specs.inside.AtPorts.{IsAtPorts};
ghost use Rattle.est_trace.specs.inside.WholeLines.{ShowsLine, CountsLine};

use crate::directory::{Directory, directory_of};
use crate::error::TraceError;
use crate::hints::Hints;
use crate::trace::events;
use est_check::Checked;
use est_lexer::tokens::Tokens;
use est_meaning::event::{Event, Events};
use est_meaning::trace::{Expected, Expecteds};
use std::alloc::{AllocError, Global};
use text_reader::Reader;
use text_values::formats::Format;

/// Reads lines of a trace of one specification, one line after the other. It keeps where ports and
/// signals were found.
#[derive(Drop)]
pub struct LineReader<'c> {
    alloc: Global,
    directory: Directory<'c>,
    hints: Hints,
}

impl<'c> LineReader<'c> {
    /// A reader of lines for a specification. Errs where memory runs out, or where there are more
    /// ports than 32 bits can tell.
    pub fn new(alloc: Global, checked: &'c Checked) -> Result<LineReader<'c>, AllocError>
        ensures { IfOk result (IsLineReader checked.now) }
    {
        let directory = directory_of(alloc, checked.ports())?;
        Ok(LineReader {
            alloc,
            directory,
            hints: Hints::new(alloc),
        })
    }

    /// The events of a line, or the first token that is refused. The tokens are those of the line
    /// with `end` after it, and with `trace 1` before it where it is not the first one. It has at
    /// most so many events.
    pub fn read(&mut self, tokens: &Tokens<'_>, most: u32) -> Result<Events, TraceError>
        ghost spec: { Spec }
        requires reader { IsLineReader spec self.old }
        requires few { most ≤ most_events }
        ensures reader { IsLineReader spec self.new }
        ensures reads { ReadsLine most (ports_of spec) (text_of tokens.now)
            (tokens_of tokens.now) result }
        ensures allowed { IfOk result (All (IsAllowed spec)) }
        ensures few { IfOk result (λ events. length events ≤ most) }
    {
        read_line(self.alloc, &self.directory, &mut self.hints, tokens, most)
    }
}

/// Whether the tokens are `end` alone.
pub fn is_end(alloc: Global, tokens: &Tokens<'_>) -> bool
    ensures { IsTrue result ↔ IsEndAlone (text_of tokens.now) (tokens_of tokens.now) }
{
    if tokens.count() != 1 {
        return false;
    }
    let reader = Reader::new(alloc, tokens, 0);
    reader.sees_word(b"end")
}

// The events of the line that the tokens are, at the ports of a directory, or the first token that
// is refused.
fn read_line(
    alloc: Global,
    directory: &Directory,
    hints: &mut Hints,
    tokens: &Tokens,
    most: u32,
) -> Result<Events, TraceError>
    requires { IsDirectory directory.now }
    ensures reads { ReadsLine most directory.now.ports.now (text_of tokens.now)
        (tokens_of tokens.now) result }
    ensures at_ports { IfOk result (All (IsAtPorts directory.now.ports.now)) }
    ensures few { IfOk result (λ events. length events ≤ most) }
{
    let mut reader = Reader::new(alloc, tokens, most);
    let found = line(&mut reader, directory, hints);
    let whole = reader.finish(found)?;
    match known_events(alloc, whole) {
        Ok(events) => Ok(events),
        Err(error) => Err(TraceError::Memory(error)),
    }
}

// line = "trace" "1" { event } "end" .
fn line(reader: &mut Reader, directory: &Directory, hints: &mut Hints) -> Expecteds
    requires { IsDirectory directory.now }
    ensures reads { Reads (first_version directory.now.ports.now)
        (ShowsLine directory.now.ports.now result) reader.old reader.new }
    ensures counts { CountsLine directory.now.ports.now reader.old reader.new }
{
    reader.take_word(b"trace");
    let _version = reader.number(1, 1);
    let found = events(reader, directory, hints, Format::Complete);
    reader.take_word(b"end");
    found
}

// The events that are expected, each of which is known.
fn known_events(alloc: Global, expected: Expecteds) -> Result<Events, AllocError>
    requires { All (λ x. IsTrue (is_known x)) expected }
    ensures { IfOk result (λ events. map Known events ≡ expected) }
{
    let mut events = Events::new(alloc);
    for one in expected.items {
        events.push(known_event(one))?;
    }
    Ok(events)
}

// The event that is expected, which is known.
fn known_event(expected: Expected) -> Event
    requires { IsTrue (is_known expected) }
    ensures { Known result ≡ expected }
{
    match expected {
        Expected::Known(event) => event,
        Expected::Partly {
            port: _,
            signal: _,
            seen,
        } => {
            drop(seen);
            unreachable!()
        }
    }
}

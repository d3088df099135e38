//! The text of a trace.
ghost use Rattle.std.specs.Prelude.{◌≤◌, IfSome, IfNone, length, IfOk};
ghost use Rattle.est_meaning.specs.AllowedEvents.{IsAllowedTrace};
ghost use Rattle.call_files.specs.Files.{limit_of};
ghost use Rattle.call_files.specs.Seen.{seen, shelved};
ghost use Rattle.call_files.specs.FileTexts.{OfTrace, RefusesTrace, SaysOfTrace};
ghost use Rattle.call_files.specs.inside.OutOfMemory.{IsMemoryOfTrace};
ghost use Rattle.call_files.specs.Reads.{ReadsFile, ReadsText, TakesText};

use crate::Shelf;
use crate::diagnostic::{Diagnostic, refuse};
use crate::file::File;
use crate::reading::{read_text, too_long};
use crate::status::Status;
use crate::stop::Stop;
use est_lexer::lex::lex;
use est_meaning::trace::Trace;
use est_trace::error::TraceError;
use est_trace::est_check::Checked;
use est_trace::trace::read_trace;
use std::alloc::Global;

/// The trace of a specification in the file of this name.
pub fn trace_in<S: Shelf>(
    alloc: Global,
    shelf: &mut S,
    name: &str,
    checked: &Checked,
) -> Result<Trace, Stop>
    ensures allowed { IfOk result (IsAllowedTrace checked.now) }
    ensures reads { ReadsFile File.Trace name.now
        (OfTrace checked.now) (RefusesTrace checked.now) (seen
        (shelved (S.told shelf.old) (S.faults shelf.old) (S.started shelf.old) (S.taken shelf.old))
        (shelved (S.told shelf.new) (S.faults shelf.new) (S.started shelf.new) (S.taken shelf.new)))
        result }
{
    let text = read_text(alloc, shelf, name, File::Trace)?;
    trace_of(alloc, text.as_slice(), checked)
}

/// The trace of a specification that a text is, which is taken as that of a file.
pub fn trace_of_text(alloc: Global, text: &[u8], checked: &Checked) -> Result<Trace, Stop>
    ensures allowed { IfOk result (IsAllowedTrace checked.now) }
    ensures takes { TakesText File.Trace
        (OfTrace checked.now) (RefusesTrace checked.now) text.now result }
{
    if text.len() > File::Trace.limit() as usize {
        return Err(too_long(alloc, File::Trace));
    }
    trace_of(alloc, text, checked)
}

// The trace of a specification that a text within its limit is.
fn trace_of(alloc: Global, text: &[u8], checked: &Checked) -> Result<Trace, Stop>
    requires { length text.now ≤ limit_of File.Trace }
    ensures allowed { IfOk result (IsAllowedTrace checked.now) }
    ensures reads { ReadsText File.Trace
        (OfTrace checked.now) (RefusesTrace checked.now) text.now result }
{
    let tokens = lex(alloc, text)?;
    match read_trace(alloc, checked, &tokens) {
        Ok(trace) => Ok(trace),
        Err(error) => Err(refuse(alloc, File::Trace, &tokens, said_of(error))),
    }
}

/// What is said of an error, unless memory ran out.
pub(crate) fn said_of(error: TraceError) -> Option<Diagnostic>
    ensures said { IfSome result (λ said. SaysOfTrace error said.status said.place said.why.now) }
    ensures unsaid { IfNone result (IsMemoryOfTrace error) }
{
    let (place, why) = match error {
        TraceError::BadToken { place } => (place, "bad token"),
        TraceError::TooMany { place } => (place, "too many events"),
        TraceError::Memory(_) => return None,
    };
    Some(Diagnostic {
        status: Status::BadTrace,
        place: Some(place),
        why,
    })
}

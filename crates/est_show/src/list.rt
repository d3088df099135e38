//! What a specification has, as a list with a line for each fact.

use crate::listed_bodies::append_bodies;
use crate::listed_ports::append_ports;
use crate::reading::{specification_of, text_in};
use crate::source::Source;
use crate::top::deliver;
use call_files::est_check::Checked;
use call_files::status::Status;
use call_files::{Report, Shelf, Sink, Stop};
use est_syntax::specification::Spec;
use std::alloc::{AllocError, Global};

/// Does what the words ask for: `list` with the file of a specification. It writes the bodies with
/// their states and transitions, and the ports with their signals. Refusals of the file and their
/// statuses are those of a check.
pub fn list<S: Shelf, K: Sink>(
    alloc: Global,
    words: &[String],
    shelf: &mut S,
    sink: &mut K,
) -> Status {
    match words {
        [_, name] if !name.is_empty() => deliver(report_of(alloc, shelf, name.as_str()), sink),
        _ => Status::Usage,
    }
}

// The report on the specification in the file of a name.
fn report_of<S: Shelf>(alloc: Global, shelf: &mut S, name: &str) -> Result<Report, Stop> {
    let text = text_in(alloc, shelf, name)?;
    specification_report(alloc, &text)
}

// The report on the specification that a text is.
fn specification_report(alloc: Global, text: &[u8]) -> Result<Report, Stop> {
    let checked = specification_of(alloc, text)?;
    let listed = list_of(alloc, text, &checked);
    drop(checked);
    Ok(Report {
        status: Status::Fine,
        text: listed?.into_bytes(),
    })
}

// The list of a good specification, which is this text.
fn list_of(alloc: Global, text: &[u8], checked: &Checked) -> Result<String, AllocError> {
    let source = Source::new(alloc, text, checked)?;
    let listed = lines_of(alloc, &source, checked.spec());
    drop(source);
    listed
}

// The lines of a list.
fn lines_of(alloc: Global, source: &Source, spec: &Spec) -> Result<String, AllocError> {
    let mut out = String::new(alloc);
    append_bodies(alloc, source, spec.parts.as_slice(), &mut out)?;
    append_ports(alloc, source, spec, &mut out)?;
    Ok(out)
}

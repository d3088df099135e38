//! The call that writes a trace.
ghost use Rattle.call_files.specs.Seen.{seen, shelved, sent};
ghost use Rattle.est_tool.specs.inside.Work.{IsMade};
ghost use Rattle.est_tool.specs.inside.Written.{Delivers, HasReport, IsReportable, Sends};
ghost use Rattle.est_tool.specs.TraceResult.{IsTraceResult};

use crate::made_report::made_report;
use crate::made_words::read_words;
use call_files::status::Status;
use call_files::{Report, Shelf, Sink, Stop, write_whole};
use std::alloc::Global;

/// Writes the trace that the words ask for, which are `trace`, the file of a specification, a seed
/// and a number of events; or one line that says why there is none. It is made whole before its
/// first byte is written.
pub fn write_made<S: Shelf, K: Sink>(
    alloc: Global,
    words: &[String],
    shelf: &mut S,
    sink: &mut K,
) -> Status
    ensures { IsTraceResult words.now (seen
        (shelved (S.told shelf.old) (S.faults shelf.old) (S.started shelf.old) (S.taken shelf.old))
        (shelved (S.told shelf.new) (S.faults shelf.new) (S.started shelf.new) (S.taken shelf.new)))
        (sent (K.written sink.old) (K.faults sink.old) (K.written sink.new) (K.faults sink.new))
        result }
{
    match read_words(words) {
        Some(asked) => deliver(made_report(alloc, shelf, &asked), sink),
        None => Status::Usage,
    }
}

// Writes what was made, and answers its status where that went well.
fn deliver<K: Sink>(made: Result<Report, Stop>, sink: &mut K) -> Status
    requires { IsMade IsReportable made }
    ensures { Delivers made
        (sent (K.written sink.old) (K.faults sink.old) (K.written sink.new) (K.faults sink.new))
        result }
{
    match made {
        Ok(report) => send(report, sink),
        Err(Stop::Refused(report)) => send(report, sink),
        Err(Stop::ReadFault) => Status::ReadFault,
        Err(Stop::OutOfMemory) => Status::OutOfMemory,
    }
}

// Writes a text, and answers its status where that went well.
fn send<K: Sink>(report: Report, sink: &mut K) -> Status
    requires { HasReport report.status }
    ensures { Sends report
        (sent (K.written sink.old) (K.faults sink.old) (K.written sink.new) (K.faults sink.new))
        result }
{
    match write_whole(sink, report.text.as_slice()) {
        Ok(()) => report.status,
        Err(_) => Status::WriteFault,
    }
}

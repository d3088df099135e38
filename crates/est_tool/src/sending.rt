//! Reports that are written.
ghost use Rattle.call_files.specs.Seen.{sent};
ghost use Rattle.est_tool.specs.inside.Work.{IsMade};
ghost use Rattle.est_tool.specs.inside.Written.{HasReport, IsReportable, Delivers, Sends};

use call_files::status::Status;
use call_files::{Report, Sink, Stop, write_whole};

/// Writes a report that was made, and answers its status where that went well.
pub(crate) fn deliver<K: Sink>(made: Result<Report, Stop>, sink: &mut K) -> Status
    requires { IsMade IsReportable made }
    ensures { Delivers made
        (sent (K.written sink.old) (K.faults sink.old) (K.written sink.new) (K.faults sink.new))
        result }
{
    match made {
        Ok(report) => send(report, sink),
        Err(Stop::Refused(report)) => send(report, sink),
        Err(Stop::ReadFault) => Status::ReadFault,
        Err(Stop::OutOfMemory) => Status::OutOfMemory,
    }
}

// Writes a report, and answers its status where that went well.
fn send<K: Sink>(report: Report, sink: &mut K) -> Status
    requires { HasReport report.status }
    ensures { Sends report
        (sent (K.written sink.old) (K.faults sink.old) (K.written sink.new) (K.faults sink.new))
        result }
{
    match write_whole(sink, report.text.as_slice()) {
        Ok(()) => report.status,
        Err(_) => Status::WriteFault,
    }
}

//! The reports of replays.
ghost use Rattle.std.specs.Prelude.{◌≡◌, ◌++◌, IfOk, codes, string_bytes};
ghost use Rattle.call_files.specs.Reports.{fault_text};
ghost use Rattle.est_tool.specs.ReplayReports.{all_line, first_line, rejected_line, replay_line};
ghost use Rattle.est_tool.specs.ReplayReports.{replay_status, why_text};

use call_files::check_report::fault_text;
use call_files::est_explanation::verdict::{Replayed, Why};
use call_files::status::Status;
use est_meaning::mean_blocks::fault::BlockFault;
use std::alloc::{AllocError, Global};

/// The report of a replay on a trace of so many events.
pub(crate) fn replay_report(
    alloc: Global,
    answer: Replayed,
    events: u32,
) -> Result<String, AllocError>
    ensures { IfOk result (λ report. string_bytes report ≡ replay_line events answer) }
{
    match answer {
        Replayed::Confirmed { events: claim } if claim <= events => {
            first_report(alloc, claim, events)
        }
        Replayed::Confirmed { .. } => all_report(alloc, events),
        Replayed::Rejected { at, why } => {
            let why = why_text(alloc, why)?;
            rejected_report(alloc, at, why.as_str())
        }
    }
}

/// The status of a replay.
pub(crate) fn replay_status(answer: Replayed) -> Status
    ensures { result ≡ replay_status answer }
{
    match answer {
        Replayed::Confirmed { .. } => Status::Fine,
        Replayed::Rejected { .. } => Status::Refused,
    }
}

// The report of an explanation of the first events of a trace.
fn first_report(alloc: Global, claim: u32, events: u32) -> Result<String, AllocError>
    ensures { IfOk result (λ report. string_bytes report ≡ first_line claim events) }
{
    format!(in alloc; "confirmed: first {claim} of {events} events\n")
}

// The report of an explanation of a whole trace.
fn all_report(alloc: Global, events: u32) -> Result<String, AllocError>
    ensures { IfOk result (λ report. string_bytes report ≡ all_line events) }
{
    format!(in alloc; "confirmed: all {events} events\n")
}

// The report of an explanation that is rejected for this cause.
fn rejected_report(alloc: Global, at: u32, why: &str) -> Result<String, AllocError>
    ensures { IfOk result (λ report. string_bytes report ≡ rejected_line at why.now) }
{
    format!(in alloc; "rejected at move {at}: {why}\n")
}

// Why an explanation is rejected.
fn why_text(alloc: Global, why: Why) -> Result<String, AllocError>
    ensures { IfOk result (λ text. string_bytes text ≡ why_text why) }
{
    match why {
        Why::NoStart(fault) => with_fault(alloc, "no start", fault),
        Why::Limit => String::from_str(alloc, "limit"),
        Why::WrongOutput => String::from_str(alloc, "wrong output"),
        Why::NoEvent => String::from_str(alloc, "no event"),
        Why::NotOffered => String::from_str(alloc, "not offered"),
        Why::Fault(fault) => with_fault(alloc, "fault", fault),
        Why::TooSilent => String::from_str(alloc, "too silent"),
        Why::NotAll => String::from_str(alloc, "not all"),
    }
}

// A cause, and the fault that it comes from.
fn with_fault(alloc: Global, why: &str, fault: BlockFault) -> Result<String, AllocError>
    ensures { IfOk result (λ text. string_bytes text ≡ why.now ++ codes " " ++ fault_text fault) }
{
    let fault = fault_text(fault);
    format!(in alloc; "{why} {fault}")
}

//! The reports of searches along one trace for each port.
ghost use Rattle.std.specs.Prelude.{◌≡◌, ◌++◌, IfOk, string_bytes};
ghost use Rattle.est_explanation.specs.CanonicalExplanation.{IsWritable};
ghost use Rattle.est_trace.specs.WrittenTraces.{trace_text};
ghost use Rattle.call_files.specs.PortReports.{HasFewEvents, IsReadablePorts, over_tries_line};
ghost use Rattle.call_files.specs.PortReports.{ports_report, ports_status, refused_ports_line};
ghost use Rattle.call_files.specs.SearchReports.{explanation_text};

use crate::readable::is_readable;
use crate::search_report::{accepted_report, over_action_report};
use crate::status::Status;
use est_explanation::write::append_explanation;
use est_meaning::run::Move;
use est_meaning::trace::Trace;
use est_trace::written_trace::write_trace;
use mean_ports::verdict::PortsVerdict;
use rule_ports::ports::Ports;
use std::alloc::{AllocError, Global};

/// The report of a verdict at these ports, within this limit of statements. There is none where an
/// explanation may not have its numbers, as none where memory runs out.
pub fn ports_report(
    alloc: Global,
    ports: &Ports,
    verdict: &PortsVerdict,
    limit: u32,
) -> Result<Vec<u8>, AllocError>
    requires { HasFewEvents verdict.now }
    ensures text { IfOk result (λ text. text.items ≡ ports_report ports.now limit verdict.now) }
    ensures readable { IfOk result (λ _. IsReadablePorts limit verdict.now) }
{
    match verdict {
        PortsVerdict::Accepted { merge, run } => {
            let events = merge.events().len() as u32;
            let head = accepted_report(alloc, events)?;
            explained(alloc, head, ports, merge, run.as_slice(), events + 1)
        }
        PortsVerdict::Refused { most, merge, run } => {
            let head = refused_report(alloc, *most, merge.events().len())?;
            explained(alloc, head, ports, merge, run.as_slice(), *most)
        }
        PortsVerdict::OverTries { tried } => {
            let head = over_tries_report(alloc, *tried)?;
            Ok(head.into_bytes())
        }
        PortsVerdict::OverAction {
            merge,
            run,
            events,
            firing,
        } => {
            let head = over_action_report(alloc, limit, firing)?;
            explained(alloc, head, ports, merge, run.as_slice(), *events)
        }
    }
}

/// The status of a verdict.
pub fn ports_status(verdict: &PortsVerdict) -> Status
    ensures { result ≡ ports_status verdict.now }
{
    match verdict {
        PortsVerdict::Accepted { .. } => Status::Fine,
        PortsVerdict::Refused { .. } => Status::Refused,
        PortsVerdict::OverTries { .. } => Status::OverBudget,
        PortsVerdict::OverAction { .. } => Status::OverBudget,
    }
}

// This line, after it the text of a merge, and after that the text of an explanation.
fn explained(
    alloc: Global,
    head: String,
    ports: &Ports,
    merge: &Trace,
    moves: &[Move],
    claim: u32,
) -> Result<Vec<u8>, AllocError>
    ensures text { IfOk result (λ text. text.items ≡ string_bytes head
        ++ trace_text ports.now merge.now ++ explanation_text moves.now claim) }
    ensures readable { IfOk result
        (λ _. IsWritable (record { moves = moves.now; claim = claim })) }
{
    if !is_readable(moves, claim) {
        return Err(AllocError);
    }
    let mut text = head.into_bytes();
    let merged = write_trace(alloc, ports, merge)?;
    text.extend_from_slice(merged.as_slice())?;
    append_explanation(&mut text, moves, claim)?;
    Ok(text)
}

// The line of lists of which no merge is explained.
fn refused_report(alloc: Global, most: u32, events: usize) -> Result<String, AllocError>
    ensures { IfOk result (λ line. string_bytes line ≡ refused_ports_line most events) }
{
    format!(in alloc; "{{ refused: {most} of {events} events }}\n")
}

// The line of a search that tries more moves than it may.
fn over_tries_report(alloc: Global, tried: u32) -> Result<String, AllocError>
    ensures { IfOk result (λ line. string_bytes line ≡ over_tries_line tried) }
{
    format!(in alloc; "{{ over budget: {tried} tries }}\n")
}

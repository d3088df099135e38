//! The reports of searches.
ghost use Rattle.std.specs.Prelude.{◌≡◌, ◌≤◌, ◌++◌, IfOk, IfSome, codes, string_bytes};
ghost use Rattle.est_meaning.specs.AllowedEvents.{most_events};
ghost use Rattle.est_explanation.specs.CanonicalExplanation.{IsWritable, IsWritableFiring};
ghost use Rattle.call_files.specs.ReadableReports.{IsReadable, IsReadableFault};
ghost use Rattle.call_files.specs.ReportLines.{line_feed};
ghost use Rattle.call_files.specs.SearchReports.{accepted_line, explanation_text, firing_text};
ghost use Rattle.call_files.specs.SearchReports.{fault_line, faulted_line, no_start_line};
ghost use Rattle.call_files.specs.SearchReports.{over_action_line, over_firings_line};
ghost use Rattle.call_files.specs.SearchReports.{over_start_line};
ghost use Rattle.call_files.specs.SearchReports.{refused_at_line, refused_end_line, refused_line};
ghost use Rattle.call_files.specs.SearchReports.{verdict_report};
ghost use Rattle.call_files.specs.SearchReports.{verdict_status};

use crate::check_report::fault_text;
use crate::readable::{is_readable, is_readable_firing};
use crate::status::Status;
use est_explanation::write::append_explanation;
use est_meaning::firing::Firing;
use est_meaning::mean_blocks::fault::BlockFault;
use est_meaning::run::Move;
use est_search::verdict::{Faulted, Verdict};
use std::alloc::{AllocError, Global};

/// The report of a verdict on a trace of so many events, within this limit of statements. There is
/// none where an explanation may not have its numbers, as none where memory runs out.
pub fn verdict_report(
    alloc: Global,
    verdict: &Verdict,
    events: u32,
    limit: u32,
) -> Result<Vec<u8>, AllocError>
    requires { events ≤ most_events }
    ensures text { IfOk result (λ text. text.items ≡ verdict_report limit events verdict.now) }
    ensures readable { IfOk result (λ _. IsReadable limit events verdict.now) }
{
    match verdict {
        Verdict::Accepted { run } => {
            let head = accepted_report(alloc, events)?;
            explained(head, run.as_slice(), events + 1)
        }
        Verdict::Refused { at, run, faulted } => {
            let head = refused_report(alloc, *at, events, faulted)?;
            explained(head, run.as_slice(), at.saturating_sub(1))
        }
        Verdict::OverFirings { tried } => {
            let head = over_firings_report(alloc, *tried)?;
            Ok(head.into_bytes())
        }
        Verdict::OverAction {
            run,
            events: reached,
            firing,
        } => {
            let head = over_action_report(alloc, limit, firing)?;
            explained(head, run.as_slice(), *reached)
        }
    }
}

/// The status of a verdict.
pub fn verdict_status(verdict: &Verdict) -> Status
    ensures { result ≡ verdict_status verdict.now }
{
    match verdict {
        Verdict::Accepted { .. } => Status::Fine,
        Verdict::Refused { .. } => Status::Refused,
        Verdict::OverFirings { .. } => Status::OverBudget,
        Verdict::OverAction { .. } => Status::OverBudget,
    }
}

// These lines, and after them the text of an explanation.
fn explained(head: String, moves: &[Move], claim: u32) -> Result<Vec<u8>, AllocError>
    ensures text { IfOk result
        (λ text. text.items ≡ string_bytes head ++ explanation_text moves.now claim) }
    ensures readable { IfOk result
        (λ _. IsWritable (record { moves = moves.now; claim = claim })) }
{
    if !is_readable(moves, claim) {
        return Err(AllocError);
    }
    let mut text = head.into_bytes();
    append_explanation(&mut text, moves, claim)?;
    Ok(text)
}

/// The line of a trace that is explained.
pub(crate) fn accepted_report(alloc: Global, events: u32) -> Result<String, AllocError>
    ensures { IfOk result (λ line. string_bytes line ≡ accepted_line events) }
{
    format!(in alloc; "{{ accepted: {events} events }}\n")
}

// The lines of a trace that is refused.
fn refused_report(
    alloc: Global,
    at: u32,
    events: u32,
    faulted: &Option<Faulted>,
) -> Result<String, AllocError>
    ensures lines { IfOk result
        (λ lines. string_bytes lines ≡ refused_line at events ++ faulted_line faulted.now) }
    ensures readable { IfOk result (λ _. IsReadableFault faulted.now) }
{
    let mut line = refused_at(alloc, at, events)?;
    if let Some(faulted) = faulted {
        let fault = fault_report(alloc, fault_text(faulted.fault), faulted.firing)?;
        line.push_str(fault.as_str())?;
    }
    Ok(line)
}

/// The line that says where a trace is refused.
pub(crate) fn refused_at(alloc: Global, at: u32, events: u32) -> Result<String, AllocError>
    ensures { IfOk result (λ line. string_bytes line ≡ refused_line at events) }
{
    if at <= events {
        refused_event(alloc, at, events)
    } else {
        refused_end(alloc, events)
    }
}

// The line of a trace that is refused at an event.
fn refused_event(alloc: Global, at: u32, events: u32) -> Result<String, AllocError>
    ensures { IfOk result (λ line. string_bytes line ≡ refused_at_line at events) }
{
    format!(in alloc; "{{ refused at event {at} of {events} }}\n")
}

// The line of a trace that is refused after its last event.
fn refused_end(alloc: Global, events: u32) -> Result<String, AllocError>
    ensures { IfOk result (λ line. string_bytes line ≡ refused_end_line events) }
{
    format!(in alloc; "{{ refused at the end after {events} events }}\n")
}

// The line of a block that faults.
fn fault_report(alloc: Global, why: &str, firing: Firing) -> Result<String, AllocError>
    ensures line { IfOk result (λ line. string_bytes line ≡ fault_line why.now firing) }
    ensures readable { IfOk result (λ _. IsWritableFiring firing) }
{
    if !is_readable_firing(firing) {
        return Err(AllocError);
    }
    let mut line = fault_head(alloc, why)?;
    let tail = fault_tail(alloc, firing)?;
    line.push_str(tail.as_str())?;
    Ok(line)
}

// How that line begins.
fn fault_head(alloc: Global, why: &str) -> Result<String, AllocError>
    ensures { IfOk result (λ head. string_bytes head ≡ codes "{ fault " ++ why.now) }
{
    format!(in alloc; "{{ fault {why}")
}

// How that line ends.
fn fault_tail(alloc: Global, firing: Firing) -> Result<String, AllocError>
    ensures { IfOk result (λ tail. string_bytes tail
        ≡ codes " in firing " ++ firing_text firing ++ codes " }" ++ line_feed) }
{
    let Firing {
        instance,
        transition,
        choice,
    } = firing;
    format!(in alloc; " in firing {instance} {transition} {choice} }}\n")
}

// The line of a search that tries more firings than it may.
fn over_firings_report(alloc: Global, tried: u32) -> Result<String, AllocError>
    ensures { IfOk result (λ line. string_bytes line ≡ over_firings_line tried) }
{
    format!(in alloc; "{{ over budget: {tried} firings tried }}\n")
}

/// The line of a block or a guard that passes the limit of statements.
pub(crate) fn over_action_report(
    alloc: Global,
    limit: u32,
    firing: &Option<Firing>,
) -> Result<String, AllocError>
    ensures line { IfOk result (λ line. string_bytes line ≡ over_action_line limit firing.now) }
    ensures readable { IfOk result (λ _. IfSome firing.now IsWritableFiring) }
{
    match firing {
        None => over_guard(alloc, limit),
        Some(firing) => over_readable(alloc, limit, *firing),
    }
}

// The line of a guard that passes the limit of statements.
fn over_guard(alloc: Global, limit: u32) -> Result<String, AllocError>
    ensures { IfOk result (λ line. string_bytes line ≡ over_action_line limit None) }
{
    format!(in alloc; "{{ over budget: a guard passed the limit {limit} after these moves }}\n")
}

// The line of a block that passes the limit of statements, where its numbers may be read.
fn over_readable(alloc: Global, limit: u32, firing: Firing) -> Result<String, AllocError>
    ensures line { IfOk result (λ line. string_bytes line ≡ over_action_line limit (Some firing)) }
    ensures readable { IfOk result (λ _. IsWritableFiring firing) }
{
    if !is_readable_firing(firing) {
        return Err(AllocError);
    }
    over_block(alloc, limit, firing)
}

// The line of a block that passes the limit of statements.
fn over_block(alloc: Global, limit: u32, firing: Firing) -> Result<String, AllocError>
    ensures { IfOk result (λ line. string_bytes line ≡ over_action_line limit (Some firing)) }
{
    let Firing {
        instance,
        transition,
        choice,
    } = firing;
    format!(in alloc;
        "{{ over budget: firing {instance} {transition} {choice} passed the limit \
        {limit} after these moves }}\n"
    )
}

/// The line of a start that passes the limit of statements.
pub fn over_start_report(alloc: Global, limit: u32) -> Result<String, AllocError>
    ensures { IfOk result (λ line. string_bytes line ≡ over_start_line limit) }
{
    format!(in alloc; "{{ over budget: the start passed the limit {limit} }}\n")
}

/// The line of a start that faults.
pub fn no_start_report(alloc: Global, fault: BlockFault) -> Result<String, AllocError>
    ensures { IfOk result (λ line. string_bytes line ≡ no_start_line fault) }
{
    let fault = fault_text(fault);
    format!(in alloc; "no start: {fault}\n")
}

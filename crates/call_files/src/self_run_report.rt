//! The reports of traces that are made and explained.
ghost use Rattle.std.specs.Prelude.{◌≡◌, ◌++◌, IfOk, string_bytes};
ghost use Rattle.call_files.specs.SelfRunReports.{found_line, limit_line, made_line, passed_line};
ghost use Rattle.call_files.specs.SelfRunReports.{search_line, tried_line};

use crate::search_report::refused_at;
use est_meaning::firing::Firing;
use est_search::verdict::Verdict;
use std::alloc::{AllocError, Global};

/// How large a trace is that was made: its events, the bytes of its text, and the moves of the run
/// that it was made by.
#[derive(Clone, Copy)]
pub struct Sizes {
    pub events: usize,
    pub bytes: usize,
    pub moves: usize,
}

/// The report of a trace that was made, and of what came of the search for an explanation of it as
/// it was read, a trace of so many events, within this limit of statements.
pub fn self_run_report(
    alloc: Global,
    sizes: Sizes,
    verdict: &Verdict,
    events: u32,
    limit: u32,
) -> Result<String, AllocError>
    ensures { IfOk result (λ report. string_bytes report
        ≡ made_line sizes.events sizes.bytes sizes.moves ++ search_line limit events verdict.now) }
{
    let mut report = made_report(alloc, sizes)?;
    let line = search_report(alloc, verdict, events, limit)?;
    report.push_str(line.as_str())?;
    Ok(report)
}

// The line of a trace that was made.
fn made_report(alloc: Global, sizes: Sizes) -> Result<String, AllocError>
    ensures { IfOk result (λ line. string_bytes line
        ≡ made_line sizes.events sizes.bytes sizes.moves) }
{
    let Sizes {
        events,
        bytes,
        moves,
    } = sizes;
    format!(in alloc; "made: {events} events, {bytes} bytes, {moves} moves\n")
}

// The line of what came of a search.
fn search_report(
    alloc: Global,
    verdict: &Verdict,
    events: u32,
    limit: u32,
) -> Result<String, AllocError>
    ensures { IfOk result (λ line. string_bytes line ≡ search_line limit events verdict.now) }
{
    match verdict {
        Verdict::Accepted { run } => found_report(alloc, run.as_slice().len()),
        Verdict::Refused { at, .. } => refused_at(alloc, *at, events),
        Verdict::OverFirings { tried } => tried_report(alloc, *tried),
        Verdict::OverAction { firing: None, .. } => passed_by_guard(alloc, limit),
        Verdict::OverAction {
            firing: Some(firing),
            ..
        } => passed_by_block(alloc, limit, *firing),
    }
}

// The line of a trace that is explained by so many moves.
fn found_report(alloc: Global, moves: usize) -> Result<String, AllocError>
    ensures { IfOk result (λ line. string_bytes line ≡ found_line moves) }
{
    format!(in alloc; "accepted: {moves} moves\n")
}

// The line of a search that tries more firings than it may.
fn tried_report(alloc: Global, tried: u32) -> Result<String, AllocError>
    ensures { IfOk result (λ line. string_bytes line ≡ tried_line tried) }
{
    format!(in alloc; "over budget: {tried} firings tried\n")
}

// The line of a search in which a guard passes its limit.
fn passed_by_guard(alloc: Global, limit: u32) -> Result<String, AllocError>
    ensures { IfOk result (λ line. string_bytes line ≡ passed_line limit None) }
{
    format!(in alloc; "over budget: a guard passed the limit {limit}\n")
}

// The line of a search in which a block passes its limit.
fn passed_by_block(alloc: Global, limit: u32, firing: Firing) -> Result<String, AllocError>
    ensures { IfOk result (λ line. string_bytes line ≡ passed_line limit (Some firing)) }
{
    let Firing {
        instance,
        transition,
        choice,
    } = firing;
    format!(in alloc;
        "over budget: firing {instance} {transition} {choice} passed the limit {limit}\n"
    )
}

/// The line of a trace that is not made, as a block or a guard passed its limit after so many moves.
pub fn limit_report(alloc: Global, moves: usize) -> Result<String, AllocError>
    ensures { IfOk result (λ line. string_bytes line ≡ limit_line moves) }
{
    format!(in alloc; "limit after {moves} moves\n")
}

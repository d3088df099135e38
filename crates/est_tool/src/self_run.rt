//! Traces that a specification makes of itself, explained.
ghost use Rattle.std.specs.Prelude.{[]};
ghost use Rattle.est_meaning.specs.AllowedEvents.{IsAllowedTrace};
ghost use Rattle.run_make.specs.declared.made.Made.TheVariants as made;
ghost use Rattle.call_files.specs.Seen.{seen, shelved};
ghost use Rattle.call_files.specs.Requests.{selfrun};
ghost use Rattle.call_files.specs.SelfRunReports.{limit_line};
ghost use Rattle.est_tool.specs.SelfRuns.{MadeEnds};
ghost use Rattle.est_tool.specs.inside.SelfRunning.{EndsMaking, EndsWritten, IsReady};
ghost use Rattle.est_tool.specs.inside.SelfRunning.{IsReadyFor, IsSearchedFor};
ghost use Rattle.est_tool.specs.inside.Work.{Gives, IsMade, IsReport, IsWork};

use crate::commands::{not_started, start_over};
use crate::made::make;
use crate::search::{Searched, search};
use call_files::est_check::Checked;
use call_files::est_trace::written_trace::write_trace;
use call_files::search_report::verdict_status;
use call_files::self_run_report::{Sizes, limit_report, self_run_report};
use call_files::specification::specification_in;
use call_files::status::Status;
use call_files::trace::trace_of_text;
use call_files::words::USUAL;
use call_files::{Report, Shelf, Stop};
use est_meaning::run::Move;
use est_meaning::trace::Trace;
use run_make::made::Made;
use std::alloc::Global;

/// Makes a trace of the specification in a file, and explains what was written of it.
pub(crate) fn self_run_file<S: Shelf>(
    alloc: Global,
    shelf: &mut S,
    name: &str,
    seed: u64,
    count: u32,
) -> Result<Report, Stop>
    ensures { IsWork [] (selfrun name.now seed count) (seen
        (shelved (S.told shelf.old) (S.faults shelf.old) (S.started shelf.old) (S.taken shelf.old))
        (shelved (S.told shelf.new) (S.faults shelf.new) (S.started shelf.new) (S.taken shelf.new)))
        result }
{
    let checked = specification_in(alloc, shelf, name)?;
    self_run(alloc, &checked, seed, count)
}

// What is left once the specification was read.
fn self_run(alloc: Global, checked: &Checked, seed: u64, count: u32) -> Result<Report, Stop>
    ensures { IsMade (EndsMaking seed count checked.now) result }
{
    let made = make(alloc, checked, seed, count, &USUAL)?;
    report_made(alloc, checked, &made)
}

// The report of what was made.
fn report_made(alloc: Global, checked: &Checked, made: &Made) -> Result<Report, Stop>
    requires { IsReadyFor checked.now made.now }
    ensures { IsMade (MadeEnds checked.now made.now) result }
{
    match made {
        Made::Trace { trace, run } => explain_made(alloc, checked, trace, run.as_slice()),
        Made::NoStart(fault) => not_started(alloc, *fault),
        Made::StartLimit => start_over(alloc, USUAL.statements),
        Made::Limit { run } => over_limit(alloc, run.as_slice().len()),
    }
}

// The report of a trace that is not made, as a limit was passed after so many moves.
fn over_limit(alloc: Global, moves: usize) -> Result<Report, Stop>
    ensures { Gives (IsReport Status.OverBudget (limit_line moves)) result }
{
    let text = limit_report(alloc, moves)?;
    Ok(Report {
        status: Status::OverBudget,
        text: text.into_bytes(),
    })
}

// The report of a trace that was made by a run.
fn explain_made(
    alloc: Global,
    checked: &Checked,
    trace: &Trace,
    run: &[Move],
) -> Result<Report, Stop>
    requires { IsReady checked.now }
    ensures { IsMade (MadeEnds checked.now (made.Trace trace.now run.now)) result }
{
    let text = write_trace(alloc, checked.ports(), trace)?;
    let sizes = Sizes {
        events: trace.events().len(),
        bytes: text.len(),
        moves: run.len(),
    };
    explain_text(alloc, checked, text.as_slice(), sizes)
}

// The same, of its text.
fn explain_text(alloc: Global, checked: &Checked, text: &[u8], sizes: Sizes) -> Result<Report, Stop>
    requires { IsReady checked.now }
    ensures { IsMade (EndsWritten sizes checked.now text.now) result }
{
    let trace = trace_of_text(alloc, text, checked)?;
    explain_read(alloc, checked, &trace, sizes)
}

// The report of the search for an explanation of what was read.
fn explain_read(
    alloc: Global,
    checked: &Checked,
    trace: &Trace,
    sizes: Sizes,
) -> Result<Report, Stop>
    requires allowed { IsAllowedTrace checked.now trace.now }
    requires ready { IsReady checked.now }
    ensures { Gives (IsSearchedFor sizes checked.now trace.now) result }
{
    match search(alloc, checked, trace, &USUAL)? {
        Searched::Found(verdict) => {
            let events = trace.events().len() as u32;
            let text = self_run_report(alloc, sizes, &verdict, events, USUAL.statements)?;
            Ok(Report {
                status: verdict_status(&verdict),
                text: text.into_bytes(),
            })
        }
        Searched::Fault(_) => unreachable!(),
        Searched::Limit => unreachable!(),
    }
}

//! The commands.
ghost use Rattle.std.specs.Prelude.{◌≤◌, [], ◌∷◌, length};
ghost use Rattle.est_meaning.specs.AllowedEvents.{IsAllowedTrace, most_events};
ghost use Rattle.call_files.specs.est_explanation.Replay.{most_moves};
ghost use Rattle.call_files.specs.declared.file.File.TheVariants as file;
ghost use Rattle.call_files.specs.Seen.{seen, shelved};
ghost use Rattle.call_files.specs.FileTexts.{Holds, OfSpecification, OfTrace};
ghost use Rattle.call_files.specs.Requests.{check, print, explain, replay};
ghost use Rattle.est_print.specs.PrintedText.{IsPrintedText};
ghost use Rattle.est_tool.specs.Ends.{TellsCounts};
ghost use Rattle.est_tool.specs.inside.Work.{IsWork, Gives, IsFine};
ghost use Rattle.est_tool.specs.inside.Work.{IsAnswered, IsExplained, IsReport, Tells};
ghost use Rattle.call_files.specs.SearchReports.{no_start_line, over_start_line};

use crate::replay_report::{replay_report, replay_status};
use crate::search::{Searched, search};
use call_files::check_report::ok_report;
use call_files::est_check::Checked;
use call_files::est_explanation::explanation::Explanation;
use call_files::explanation::explanation_in;
use call_files::search_report::{
    no_start_report, over_start_report, verdict_report, verdict_status,
};
use call_files::specification::specification_in;
use call_files::status::Status;
use call_files::trace::trace_in;
use call_files::{Report, Shelf, Stop};
use est_meaning::mean_blocks::fault::BlockFault;
use est_meaning::run::Limits;
use est_meaning::trace::Trace;
use est_print::print_spec;
use est_replay::checked::replay;
use std::alloc::Global;

/// The names of the files of a search.
#[derive(Clone, Copy)]
pub(crate) struct ExplainFiles<'n> {
    pub specification: &'n str,
    pub trace: &'n str,
}

/// The names of the files of a replay.
#[derive(Clone, Copy)]
pub(crate) struct ReplayFiles<'n> {
    pub specification: &'n str,
    pub trace: &'n str,
    pub explanation: &'n str,
}

/// Checks the specification in a file.
pub(crate) fn check_file<S: Shelf>(alloc: Global, shelf: &mut S, name: &str) -> Result<Report, Stop>
    ensures { IsWork [] (check name.now) (seen
        (shelved (S.told shelf.old) (S.faults shelf.old) (S.started shelf.old) (S.taken shelf.old))
        (shelved (S.told shelf.new) (S.faults shelf.new) (S.started shelf.new) (S.taken shelf.new)))
        result }
{
    let checked = specification_in(alloc, shelf, name)?;
    counted(alloc, &checked)
}

// The numbers of a good specification.
fn counted(alloc: Global, checked: &Checked) -> Result<Report, Stop>
    ensures { Gives (IsFine TellsCounts checked.now) result }
{
    let text = ok_report(alloc, checked.counts())?;
    Ok(Report {
        status: Status::Fine,
        text: text.into_bytes(),
    })
}

/// Prints the specification in a file.
pub(crate) fn print_file<S: Shelf>(alloc: Global, shelf: &mut S, name: &str) -> Result<Report, Stop>
    ensures { IsWork [] (print name.now) (seen
        (shelved (S.told shelf.old) (S.faults shelf.old) (S.started shelf.old) (S.taken shelf.old))
        (shelved (S.told shelf.new) (S.faults shelf.new) (S.started shelf.new) (S.taken shelf.new)))
        result }
{
    let checked = specification_in(alloc, shelf, name)?;
    printed(alloc, &checked)
}

// The text of a good specification.
fn printed(alloc: Global, checked: &Checked) -> Result<Report, Stop>
    ensures { Gives (IsFine IsPrintedText checked.now) result }
{
    let text = print_spec(alloc, checked.spec())?;
    Ok(Report {
        status: Status::Fine,
        text,
    })
}

/// Searches for an explanation of a trace.
pub(crate) fn explain_files<S: Shelf>(
    alloc: Global,
    shelf: &mut S,
    files: &ExplainFiles<'_>,
    limits: &Limits,
) -> Result<Report, Stop>
    ensures { IsWork []
        (explain files.now.specification.now files.now.trace.now
        limits.now.silent limits.now.budget limits.now.statements)
        (seen
        (shelved (S.told shelf.old) (S.faults shelf.old) (S.started shelf.old) (S.taken shelf.old))
        (shelved (S.told shelf.new) (S.faults shelf.new) (S.started shelf.new) (S.taken shelf.new)))
        result }
{
    let checked = specification_in(alloc, shelf, files.specification)?;
    explain_trace(alloc, shelf, files, limits, &checked)
}

// What is left of a search once the specification was read.
fn explain_trace<S: Shelf>(
    alloc: Global,
    shelf: &mut S,
    files: &ExplainFiles<'_>,
    limits: &Limits,
    checked: &Checked,
) -> Result<Report, Stop>
    requires { Holds file.Specification (S.told shelf.old files.now.specification.now)
        (OfSpecification checked.now) }
    ensures { IsWork (files.now.specification.now ∷ [])
        (explain files.now.specification.now files.now.trace.now
        limits.now.silent limits.now.budget limits.now.statements)
        (seen
        (shelved (S.told shelf.old) (S.faults shelf.old) (S.started shelf.old) (S.taken shelf.old))
        (shelved (S.told shelf.new) (S.faults shelf.new) (S.started shelf.new) (S.taken shelf.new)))
        result }
{
    let trace = trace_in(alloc, shelf, files.trace, checked)?;
    explained(alloc, checked, &trace, limits)
}

// The report of a search.
fn explained(
    alloc: Global,
    checked: &Checked,
    trace: &Trace,
    limits: &Limits,
) -> Result<Report, Stop>
    requires { IsAllowedTrace checked.now trace.now }
    ensures { Gives (IsExplained limits.now checked.now trace.now) result }
{
    let found = search(alloc, checked, trace, limits)?;
    told(
        alloc,
        &found,
        trace.events().len() as u32,
        limits.statements,
    )
}

// The report of what came of a search on a trace of so many events.
fn told(alloc: Global, found: &Searched, events: u32, limit: u32) -> Result<Report, Stop>
    requires { events ≤ most_events }
    ensures { Gives (Tells limit events found.now) result }
{
    match found {
        Searched::Found(verdict) => {
            let text = verdict_report(alloc, verdict, events, limit)?;
            Ok(Report {
                status: verdict_status(verdict),
                text,
            })
        }
        Searched::Fault(fault) => not_started(alloc, *fault),
        Searched::Limit => start_over(alloc, limit),
    }
}

/// The report of a start that faults.
pub(crate) fn not_started(alloc: Global, fault: BlockFault) -> Result<Report, Stop>
    ensures { Gives (IsReport Status.NoStart (no_start_line fault)) result }
{
    let text = no_start_report(alloc, fault)?;
    Ok(Report {
        status: Status::NoStart,
        text: text.into_bytes(),
    })
}

/// The report of a start that passes the limit of statements.
pub(crate) fn start_over(alloc: Global, limit: u32) -> Result<Report, Stop>
    ensures { Gives (IsReport Status.OverBudget (over_start_line limit)) result }
{
    let text = over_start_report(alloc, limit)?;
    Ok(Report {
        status: Status::OverBudget,
        text: text.into_bytes(),
    })
}

/// Replays the explanation of a trace.
pub(crate) fn replay_files<S: Shelf>(
    alloc: Global,
    shelf: &mut S,
    files: &ReplayFiles<'_>,
    limits: &Limits,
) -> Result<Report, Stop>
    ensures { IsWork []
        (replay files.now.specification.now files.now.trace.now files.now.explanation.now
        limits.now.silent limits.now.statements)
        (seen
        (shelved (S.told shelf.old) (S.faults shelf.old) (S.started shelf.old) (S.taken shelf.old))
        (shelved (S.told shelf.new) (S.faults shelf.new) (S.started shelf.new) (S.taken shelf.new)))
        result }
{
    let checked = specification_in(alloc, shelf, files.specification)?;
    replay_trace(alloc, shelf, files, limits, &checked)
}

// What is left of a replay once the specification was read.
fn replay_trace<S: Shelf>(
    alloc: Global,
    shelf: &mut S,
    files: &ReplayFiles<'_>,
    limits: &Limits,
    checked: &Checked,
) -> Result<Report, Stop>
    requires { Holds file.Specification (S.told shelf.old files.now.specification.now)
        (OfSpecification checked.now) }
    ensures { IsWork (files.now.specification.now ∷ [])
        (replay files.now.specification.now files.now.trace.now files.now.explanation.now
        limits.now.silent limits.now.statements)
        (seen
        (shelved (S.told shelf.old) (S.faults shelf.old) (S.started shelf.old) (S.taken shelf.old))
        (shelved (S.told shelf.new) (S.faults shelf.new) (S.started shelf.new) (S.taken shelf.new)))
        result }
{
    let trace = trace_in(alloc, shelf, files.trace, checked)?;
    replay_explanation(alloc, shelf, files, limits, checked, &trace)
}

// What is left of a replay once the trace was read too.
fn replay_explanation<S: Shelf>(
    alloc: Global,
    shelf: &mut S,
    files: &ReplayFiles<'_>,
    limits: &Limits,
    checked: &Checked,
    trace: &Trace,
) -> Result<Report, Stop>
    requires allowed { IsAllowedTrace checked.now trace.now }
    requires checked { Holds file.Specification (S.told shelf.old files.now.specification.now)
        (OfSpecification checked.now) }
    requires traced { Holds file.Trace (S.told shelf.old files.now.trace.now)
        (OfTrace checked.now trace.now) }
    ensures { IsWork (files.now.specification.now ∷ files.now.trace.now ∷ [])
        (replay files.now.specification.now files.now.trace.now files.now.explanation.now
        limits.now.silent limits.now.statements)
        (seen
        (shelved (S.told shelf.old) (S.faults shelf.old) (S.started shelf.old) (S.taken shelf.old))
        (shelved (S.told shelf.new) (S.faults shelf.new) (S.started shelf.new) (S.taken shelf.new)))
        result }
{
    let explanation = explanation_in(alloc, shelf, files.explanation)?;
    judged(alloc, checked, trace, &explanation, limits)
}

// The report of a replay.
fn judged(
    alloc: Global,
    checked: &Checked,
    trace: &Trace,
    explanation: &Explanation,
    limits: &Limits,
) -> Result<Report, Stop>
    requires allowed { IsAllowedTrace checked.now trace.now }
    requires few { length explanation.now.moves ≤ most_moves }
    ensures { Gives (IsAnswered limits.now.silent limits.now.statements
        checked.now trace.now explanation.now) result }
{
    let answer = replay(alloc, checked, trace, explanation, limits)?;
    let text = replay_report(alloc, answer, trace.events().len() as u32)?;
    Ok(Report {
        status: replay_status(answer),
        text: text.into_bytes(),
    })
}

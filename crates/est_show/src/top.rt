//! The top call.
ghost use Rattle.std.specs.Prelude.{◌≤◌, length};
ghost use Rattle.est_meaning.specs.AllowedEvents.{IsAllowedTrace};
ghost use Rattle.call_files.specs.est_explanation.Replay.{most_moves};

use crate::answer::{answer_line, shown_count, status_of};
use crate::ending::ending_of;
use crate::moves::push_run;
use crate::reading::{specification_of, text_in};
use crate::source::Source;
use advice_lines::chart::append_chart;
use advice_lines::sheet::{Ending, Sheet};
use advice_lines::table::append_table;
use call_files::est_check::Checked;
use call_files::est_explanation::explanation::Explanation;
use call_files::est_explanation::verdict::Replayed;
use call_files::explanation::explanation_in;
use call_files::status::Status;
use call_files::trace::trace_in;
use call_files::words::{Command, read_words};
use call_files::{Report, Shelf, Sink, Stop, write_whole};
use est_meaning::run::{Limits, Move};
use est_meaning::trace::Trace;
use est_replay::checked::replay;
use std::alloc::{AllocError, Global};

// What is shown: a table of text, or a chart as a drawing in SVG.
#[derive(Clone, Copy, PartialEq, Eq)]
enum Form {
    Table,
    Chart,
}

// What a call asks for: a form, the names of the files, and the limits of the replay.
#[derive(Clone, Copy)]
struct Asked<'w> {
    form: Form,
    specification: &'w str,
    trace: &'w str,
    explanation: &'w str,
    limits: Limits,
}

/// Does what the words ask for: reads the files of a specification, a trace and an explanation,
/// replays it, and writes a table (`show`) or a chart (`chart`) of the moves that could be made,
/// with the answer of the replay. But for the command these are the words of a replay, and so are
/// the limits, the refusals of files and the statuses.
pub fn show<S: Shelf, K: Sink>(
    alloc: Global,
    words: &[String],
    shelf: &mut S,
    sink: &mut K,
) -> Status {
    match read_limits(alloc, words) {
        Err(_) => Status::OutOfMemory,
        Ok(None) => Status::Usage,
        Ok(Some(limits)) => match asked_of(words, limits) {
            None => Status::Usage,
            Some(asked) => deliver(report_of(alloc, shelf, &asked), sink),
        },
    }
}

// The words of a replay that these would be with another command.
fn replay_words(alloc: Global, words: &[String]) -> Result<Vec<String>, AllocError> {
    let mut replay = Vec::new(alloc);
    for (at, word) in words.iter().enumerate() {
        let word = if at == 0 { "replay" } else { word.as_str() };
        replay.push(String::from_str(alloc, word)?)?;
    }
    Ok(replay)
}

// The limits that the words give, if they are those of a replay but for the command.
fn read_limits(alloc: Global, words: &[String]) -> Result<Option<Limits>, AllocError> {
    let replay = replay_words(alloc, words)?;
    match read_words(&replay) {
        Ok(Command::Replay { limits }) => Ok(Some(limits)),
        _ => Ok(None),
    }
}

// What words ask for that give these limits.
fn asked_of(words: &[String], limits: Limits) -> Option<Asked<'_>> {
    let [command, specification, trace, explanation, ..] = words else {
        return None;
    };
    let form = match command.as_str() {
        "show" => Form::Table,
        "chart" => Form::Chart,
        _ => return None,
    };
    Some(Asked {
        form,
        specification: specification.as_str(),
        trace: trace.as_str(),
        explanation: explanation.as_str(),
        limits,
    })
}

// The report of a call.
fn report_of<S: Shelf>(alloc: Global, shelf: &mut S, asked: &Asked) -> Result<Report, Stop> {
    let text = text_in(alloc, shelf, asked.specification)?;
    specification_report(alloc, shelf, asked, &text)
}

// What is left of a call once the specification was read.
fn specification_report<S: Shelf>(
    alloc: Global,
    shelf: &mut S,
    asked: &Asked,
    text: &[u8],
) -> Result<Report, Stop> {
    let checked = specification_of(alloc, text)?;
    trace_report(alloc, shelf, asked, text, &checked)
}

// What is left of it once the specification was checked.
fn trace_report<S: Shelf>(
    alloc: Global,
    shelf: &mut S,
    asked: &Asked,
    text: &[u8],
    checked: &Checked,
) -> Result<Report, Stop> {
    let trace = trace_in(alloc, shelf, asked.trace, checked)?;
    explanation_report(alloc, shelf, asked, text, checked, &trace)
}

// What is left of it once the trace was read too.
fn explanation_report<S: Shelf>(
    alloc: Global,
    shelf: &mut S,
    asked: &Asked,
    text: &[u8],
    checked: &Checked,
    trace: &Trace,
) -> Result<Report, Stop>
    requires { IsAllowedTrace checked.now trace.now }
{
    let explanation = explanation_in(alloc, shelf, asked.explanation)?;
    replay_report(alloc, asked, text, checked, trace, &explanation)
}

// What is left of it once all was read.
fn replay_report(
    alloc: Global,
    asked: &Asked,
    text: &[u8],
    checked: &Checked,
    trace: &Trace,
    explanation: &Explanation,
) -> Result<Report, Stop>
    requires allowed { IsAllowedTrace checked.now trace.now }
    requires few { length explanation.now.moves ≤ most_moves }
{
    let answer = replay(alloc, checked, trace, explanation, &asked.limits)?;
    let ending = ending_after(alloc, asked, checked, trace, answer)?;
    let moves = explanation.moves.as_slice();
    let count = shown_count(answer, moves.len()).min(moves.len());
    let shown = Shown {
        moves: &moves[..count],
        answer,
        ending,
    };
    let text = source_text(alloc, asked, text, checked, trace, shown)?;
    Ok(Report {
        status: status_of(answer),
        text: text.into_bytes(),
    })
}

// What a chart has after the moves of an explanation that yields a part of the trace.
fn ending_after(
    alloc: Global,
    asked: &Asked,
    checked: &Checked,
    trace: &Trace,
    answer: Replayed,
) -> Result<Option<Ending>, AllocError>
    requires { IsAllowedTrace checked.now trace.now }
{
    match answer {
        Replayed::Confirmed { events: claim }
            if asked.form == Form::Chart && claim as usize <= trace.events().len() => {
            ending_of(alloc, checked, trace, claim as usize, &asked.limits)
        }
        _ => Ok(None),
    }
}

// What is shown: moves, the answer of the replay, and what comes after the moves.
#[derive(Drop)]
struct Shown<'m> {
    moves: &'m [Move],
    answer: Replayed,
    ending: Option<Ending>,
}

// The text of what is shown.
fn source_text(
    alloc: Global,
    asked: &Asked,
    text: &[u8],
    checked: &Checked,
    trace: &Trace,
    shown: Shown,
) -> Result<String, AllocError> {
    let Shown {
        moves,
        answer,
        ending,
    } = shown;
    let source = Source::new(alloc, text, checked)?;
    let statements = asked.limits.statements;
    let events = trace.events();
    let mut sheet = Sheet::new(alloc);
    sheet.ending = ending;
    let pushed = push_run(
        alloc,
        &source,
        checked,
        statements,
        events.as_slice(),
        moves,
        &mut sheet,
    );
    drop(source);
    let shown = match pushed {
        Ok(()) => shown_text(alloc, asked.form, &sheet, answer, events.len()),
        Err(error) => Err(error),
    };
    drop(sheet);
    shown
}

// A sheet in a form, with the answer of the replay of a trace of so many events.
fn shown_text(
    alloc: Global,
    form: Form,
    sheet: &Sheet,
    answer: Replayed,
    events: usize,
) -> Result<String, AllocError> {
    let line = answer_line(alloc, answer, events)?;
    sheet_text(alloc, form, sheet, &line)
}

// A sheet in a form, with this line.
fn sheet_text(
    alloc: Global,
    form: Form,
    sheet: &Sheet,
    answer: &str,
) -> Result<String, AllocError> {
    let mut text = String::new(alloc);
    match form {
        Form::Table => {
            append_table(alloc, &mut text, sheet)?;
            text.push_str(answer)?;
            text.push_str("\n")?;
        }
        Form::Chart => append_chart(alloc, &mut text, sheet, answer)?,
    }
    Ok(text)
}

/// Writes a report that was made, and answers its status where that went well.
pub(crate) fn deliver<K: Sink>(made: Result<Report, Stop>, sink: &mut K) -> Status {
    let report = match made {
        Ok(report) => report,
        Err(Stop::Refused(report)) => report,
        Err(Stop::ReadFault) => return Status::ReadFault,
        Err(Stop::OutOfMemory) => return Status::OutOfMemory,
    };
    match write_whole(sink, report.text.as_slice()) {
        Ok(()) => report.status,
        Err(_) => Status::WriteFault,
    }
}

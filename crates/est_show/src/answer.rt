//! The line with which a replay answers.

use call_files::check_report::fault_text;
use call_files::est_explanation::verdict::{Replayed, Why};
use call_files::status::Status;
use std::alloc::{AllocError, Global};

// Why an explanation is rejected, and the fault that it comes from, if it is one.
fn why_text(why: Why) -> (&'static str, &'static str) {
    match why {
        Why::NoStart(fault) => ("no start ", fault_text(fault)),
        Why::Limit => ("limit", ""),
        Why::WrongOutput => ("wrong output", ""),
        Why::NoEvent => ("no event", ""),
        Why::NotOffered => ("not offered", ""),
        Why::Fault(fault) => ("fault ", fault_text(fault)),
        Why::TooSilent => ("too silent", ""),
        Why::NotAll => ("not all", ""),
    }
}

/// The line of a replay of a trace of so many events.
pub(crate) fn answer_line(
    alloc: Global,
    answer: Replayed,
    events: usize,
) -> Result<String, AllocError> {
    match answer {
        Replayed::Confirmed { events: claim } => {
            if claim as usize <= events {
                format!(in alloc; "confirmed: first {claim} of {events} events")
            } else {
                format!(in alloc; "confirmed: all {events} events")
            }
        }
        Replayed::Rejected { at, why } => {
            let (why, fault) = why_text(why);
            format!(in alloc; "rejected at move {at}: {why}{fault}")
        }
    }
}

/// The status of a replay.
pub(crate) fn status_of(answer: Replayed) -> Status {
    match answer {
        Replayed::Confirmed { events: _ } => Status::Fine,
        Replayed::Rejected { at: _, why: _ } => Status::Refused,
    }
}

/// How many of so many moves are shown: those that could be made. Of the checks of a move two come
/// after it was made.
pub(crate) fn shown_count(answer: Replayed, moves: usize) -> usize {
    match answer {
        Replayed::Confirmed { events: _ } => moves,
        Replayed::Rejected { at, why } => match why {
            Why::WrongOutput => at as usize,
            Why::TooSilent => at as usize,
            _ => (at as usize).saturating_sub(1),
        },
    }
}

//! Where a move stands, and why it is rejected.

use crate::rejected::Rejected;
use advice_tokens::note::append_note;
use advice_tokens::place::spot_of;
use call_files::est_explanation::verdict::Why;
use est_meaning::run::Move;
use std::alloc::{AllocError, Global};

// The place of the first token after these moves of an explanation, which begins with two tokens.
fn place_after(moves: &[Move]) -> u32 {
    let mut place: u32 = 2;
    for next in moves {
        place = place.saturating_add(match next {
            Move::Take => 1,
            Move::Fire(_) => 4,
        });
    }
    place
}

/// The place of the first token of the move that is rejected, or of what comes after the last one.
pub(crate) fn place_of(rejected: &Rejected) -> u32 {
    let before = (rejected.at as usize)
        .saturating_sub(1)
        .min(rejected.moves.len());
    place_after(&rejected.moves[..before])
}

// Why a move is rejected that asks for more events than the trace has.
fn reason_after_all(why: Why) -> &'static str {
    match why {
        Why::WrongOutput => "something is sent out, and the trace has no event left",
        Why::NoEvent => "the trace has no event left",
        _ => reason(why),
    }
}

// Why a move is rejected.
fn reason(why: Why) -> &'static str {
    match why {
        Why::NoStart(_) => "the initialize part faults",
        Why::Limit => "a block or a guard passes the limit of statements",
        Why::WrongOutput => "what is sent out differs from the next events of the trace",
        Why::NoEvent => "the next event of the trace is no 'in' and no 'time'",
        Why::NotOffered => "this firing is not possible then",
        Why::Fault(_) => "the block of the transition faults",
        Why::TooSilent => "too many firings in a row send nothing out",
        Why::NotAll => "the claim is not met",
    }
}

/// Adds why a start is rejected.
pub(crate) fn append_start(
    alloc: Global,
    rejected: &Rejected,
    notes: &mut String,
) -> Result<(), AllocError> {
    let reason = reason(rejected.why);
    let text = format!(in alloc; "move 0 is the start, before the first move: {reason}")?;
    append_note(
        alloc,
        notes,
        spot_of("explanation", rejected.texts.explanation, 0),
        &text,
    )
}

// Adds what is claimed after the last move, where so many events have happened.
fn append_end(
    alloc: Global,
    rejected: &Rejected,
    happened: usize,
    notes: &mut String,
) -> Result<(), AllocError> {
    let count = rejected.trace.len();
    let claim = rejected.claim;
    let why = if rejected.is_at_quiet_end(happened) {
        ": the trace ends quiet"
    } else {
        ""
    };
    let text = format!(in alloc;
        "here {happened} of {count} events have happened, and 'yields {claim}' is not met{why}"
    )?;
    let spot = spot_of(
        "explanation",
        rejected.texts.explanation,
        place_of(rejected),
    );
    append_note(alloc, notes, spot, &text)
}

// Adds where a move stands before which so many events have happened, and why it is rejected.
fn append_place(
    alloc: Global,
    rejected: &Rejected,
    happened: usize,
    notes: &mut String,
) -> Result<(), AllocError> {
    let at = rejected.at;
    let count = rejected.trace.len();
    let reason = if happened < count {
        reason(rejected.why)
    } else {
        reason_after_all(rejected.why)
    };
    let text = format!(in alloc;
        "this is move {at}, after {happened} of {count} events: {reason}"
    )?;
    let spot = spot_of(
        "explanation",
        rejected.texts.explanation,
        place_of(rejected),
    );
    append_note(alloc, notes, spot, &text)
}

/// Adds where what is rejected stands and why it is, where so many events have happened before.
pub(crate) fn append_move(
    alloc: Global,
    rejected: &Rejected,
    happened: usize,
    notes: &mut String,
) -> Result<(), AllocError> {
    if rejected.at == 0 {
        append_start(alloc, rejected, notes)
    } else if rejected.at as usize > rejected.moves.len() {
        append_end(alloc, rejected, happened, notes)
    } else {
        append_place(alloc, rejected, happened, notes)
    }
}

//! Which limits cut off runs of a search, and what to ask with instead.

use crate::looked::Looked;
use advice_tokens::note::append_note;
use run_notes::other_events::{End, Found};
use std::alloc::{AllocError, Global};

// The most firings to be tried that words can ask for.
const MOST_BUDGET: u32 = 4_000_000;

// Adds that runs were cut off since too many firings in a row were silent, if some were.
fn append_silent(
    alloc: Global,
    looked: &Looked<'_>,
    found: &Found,
    notes: &mut String,
) -> Result<(), AllocError> {
    let Some(after) = found.others.cut else {
        return Ok(());
    };
    let silent = looked.limits.silent;
    let more = silent.saturating_add(1);
    let text = format!(in alloc;
        "runs were cut off since more than {silent} firings in a row were silent, at the latest \
         after {after} events: with S {more} they go on"
    )?;
    append_note(alloc, notes, looked.spot(found.others.happened), &text)
}

// Which limit to raise where all firings of a budget were tried.
fn firings_note(alloc: Global, budget: u32, is_cut: bool) -> Result<String, AllocError> {
    let cure = if is_cut {
        "raise S first, and then B"
    } else if budget < MOST_BUDGET {
        "raise B, up to 4000000"
    } else {
        "B is at its most, so cut the trace, or record more ports"
    };
    format!(in alloc; "{budget} firings were tried, and more are left: {cure}")
}

// Adds which limit the search passed.
fn append_firings(
    alloc: Global,
    looked: &Looked<'_>,
    found: &Found,
    notes: &mut String,
) -> Result<(), AllocError> {
    let text = firings_note(alloc, looked.limits.budget, found.others.cut.is_some())?;
    append_note(alloc, notes, looked.spot(found.others.happened), &text)
}

// Adds that a block or a guard passed its limit, if one did.
fn append_statements(
    alloc: Global,
    looked: &Looked<'_>,
    found: &Found,
    notes: &mut String,
) -> Result<(), AllocError> {
    if !found.others.is_limited {
        return Ok(());
    }
    let statements = looked.limits.statements;
    let text = format!(in alloc;
        "a block or a guard passed the limit of {statements} statements: raise L"
    )?;
    append_note(alloc, notes, looked.spot(found.others.happened), &text)
}

/// Adds which limits cut off runs, unless one of them explains the trace, and which to raise.
pub(crate) fn append_limits(
    alloc: Global,
    looked: &Looked<'_>,
    found: &Found,
    notes: &mut String,
) -> Result<(), AllocError> {
    match found.end {
        End::Accepted => Ok(()),
        End::Refused => append_silent(alloc, looked, found, notes),
        End::OverFirings => {
            append_silent(alloc, looked, found, notes)?;
            append_statements(alloc, looked, found, notes)?;
            append_firings(alloc, looked, found, notes)
        }
        End::OverAction => {
            append_silent(alloc, looked, found, notes)?;
            append_statements(alloc, looked, found, notes)
        }
    }
}

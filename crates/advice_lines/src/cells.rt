//! The cells of a row.

use crate::sheet::{Effect, EffectKind, MoveKind, ShownMove};
use std::alloc::{AllocError, Global};

/// How many cells a row has.
pub(crate) const COLUMNS: usize = 8;

/// The cells of the first row.
pub(crate) const TITLES: [&str; COLUMNS] = [
    "move",
    "time",
    "instance",
    "transition",
    "line",
    "state",
    "takes",
    "gives",
];

// What stands in a cell that has no text.
fn or_dash(text: &str) -> &str {
    if text.is_empty() { "-" } else { text }
}

// What stands before the number of the instance of an effect.
fn word_of(kind: EffectKind) -> &'static str {
    match kind {
        EffectKind::Leaves => "",
        EffectKind::Waits => "to",
        EffectKind::Begins => "init",
        EffectKind::Ends => "release",
    }
}

// Adds an effect after others.
fn append_effect(text: &mut String, effect: &Effect) -> Result<(), AllocError> {
    if !text.is_empty() {
        text.push_str("; ")?;
    }
    if effect.kind != EffectKind::Leaves {
        let word = word_of(effect.kind);
        let number = effect.instance;
        write!(text, "{word} {number} ")?;
    }
    text.push_str(&effect.text)
}

// The cell of the effects.
fn effects_cell(alloc: Global, effects: &[Effect]) -> Result<String, AllocError> {
    if effects.is_empty() {
        return String::from_str(alloc, "-");
    }
    let mut text = String::new(alloc);
    for effect in effects {
        append_effect(&mut text, effect)?;
    }
    Ok(text)
}

// The cell of the instance.
fn instance_cell(alloc: Global, shown: &ShownMove) -> Result<String, AllocError> {
    if shown.kind != MoveKind::Firing {
        return String::from_str(alloc, "-");
    }
    let number = shown.instance;
    let module = shown.module.as_str();
    format!(in alloc; "{number} {module}")
}

// The cell of the states.
fn state_cell(alloc: Global, shown: &ShownMove) -> Result<String, AllocError> {
    let before = shown.before.as_str();
    let after = shown.after.as_str();
    if before == after {
        return String::from_str(alloc, or_dash(before));
    }
    format!(in alloc; "{before} -> {after}")
}

// The cell of the line.
fn line_cell(alloc: Global, line: usize) -> Result<String, AllocError> {
    if line == 0 {
        return String::from_str(alloc, "-");
    }
    format!(in alloc; "{line}")
}

// The cell of the transition.
fn transition_cell(shown: &ShownMove) -> &str {
    match shown.kind {
        MoveKind::Start => "start",
        MoveKind::Arrival => "-",
        MoveKind::Time => "-",
        MoveKind::Firing => or_dash(shown.transition.as_str()),
    }
}

// The cell of a column.
fn cell_of(
    alloc: Global,
    number: usize,
    shown: &ShownMove,
    column: usize,
) -> Result<String, AllocError> {
    let clock = shown.clock;
    match column {
        0 => format!(in alloc; "{number}"),
        1 => format!(in alloc; "{clock}"),
        2 => instance_cell(alloc, shown),
        3 => String::from_str(alloc, transition_cell(shown)),
        4 => line_cell(alloc, shown.line),
        5 => state_cell(alloc, shown),
        6 => String::from_str(alloc, or_dash(&shown.taken)),
        _ => effects_cell(alloc, &shown.effects),
    }
}

/// Adds the cells of the move of this number.
pub(crate) fn push_cells(
    alloc: Global,
    number: usize,
    shown: &ShownMove,
    cells: &mut Vec<String>,
) -> Result<(), AllocError> {
    for column in 0..COLUMNS {
        cells.push(cell_of(alloc, number, shown, column)?)?;
    }
    Ok(())
}

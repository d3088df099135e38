//! Charts: the outside and the instances side by side, and the moves from top to bottom.

use crate::columns::Columns;
use crate::drawing::{
    append_box, append_escaped, append_head, append_line, append_loop, append_text,
};
use crate::sheet::{Effect, EffectKind, Ending, Life, MoveKind, Sheet, ShownMove};
use std::alloc::{AllocError, Global};

// What the titles take at the top, and the answer at the bottom.
const TOP: u64 = 50;

const BOTTOM: u64 = 40;

// After so many moves the titles stand once more, in a band of their own.
const STRIDE: usize = 25;

const BAND: u64 = 34;

// What a move takes, an effect of it, and time that passes.
const MOVE: u64 = 34;

const EFFECT: u64 = 24;

const GAP: u64 = 44;

// Where the numbers of moves begin, and what happens outside.
const NUMBERS: u64 = 8;

const EVENTS: u64 = 50;

// How far from the head of an arrow a word stands that is short.
const BESIDE: u64 = 24;

// Where the columns of a chart are, and where each move begins, and the last one ends.
#[derive(Drop)]
struct Places<'s> {
    columns: Columns<'s>,
    tops: Vec<u64>,
}

/// Adds the chart of the moves to a text, as a drawing in SVG with the answer below it.
pub fn append_chart(
    alloc: Global,
    out: &mut String,
    sheet: &Sheet,
    answer: &str,
) -> Result<(), AllocError> {
    let columns = Columns::new(alloc, &sheet.lives)?;
    match tops_of(alloc, &sheet.moves) {
        Ok(tops) => {
            let places = Places { columns, tops };
            let done = append_all(out, sheet, &places, answer);
            drop(places);
            done
        }
        Err(error) => {
            drop(columns);
            Err(error)
        }
    }
}

// Adds all of a chart.
fn append_all(
    out: &mut String,
    sheet: &Sheet,
    places: &Places,
    answer: &str,
) -> Result<(), AllocError> {
    let end = end_of(&places.tops);
    let bottom = top_at(&places.tops, end);
    let below = bottom.saturating_add(height_after(&sheet.ending));
    append_head(out, places.columns.width(), below.saturating_add(BOTTOM))?;
    append_outside(out, places)?;
    append_lives(out, &sheet.lives, places)?;
    append_moves(out, &sheet.moves, places)?;
    append_ending(out, &sheet.ending, bottom)?;
    append_text(out, "event", NUMBERS, below.saturating_add(24), answer)?;
    out.push_str("</svg>\n")
}

// Whether an effect stands beside the one before it: instances that begin or end together do.
fn is_beside(effects: &[Effect], at: usize) -> bool {
    let Some(before) = at.checked_sub(1) else {
        return false;
    };
    match (effects.get(before), effects.get(at)) {
        (Some(before), Some(effect)) => is_life(effect.kind) && before.kind == effect.kind,
        _ => false,
    }
}

// Whether an effect is that an instance begins or ends.
fn is_life(kind: EffectKind) -> bool {
    kind == EffectKind::Begins || kind == EffectKind::Ends
}

// How high effects are.
fn effects_height(effects: &[Effect]) -> u64 {
    let mut height: u64 = 0;
    for at in 0..effects.len() {
        if !is_beside(effects, at) {
            height = height.saturating_add(EFFECT);
        }
    }
    height
}

// How high a move is.
fn height_of(shown: &ShownMove) -> u64 {
    let own = if shown.kind == MoveKind::Time {
        GAP
    } else {
        MOVE
    };
    effects_height(&shown.effects).saturating_add(own)
}

// How high it is what comes after the moves.
fn height_after(ending: &Option<Ending>) -> u64 {
    match ending {
        None => 0,
        Some(ending) => {
            let lines = (ending.wanted.len() as u64).saturating_add(1);
            lines.saturating_mul(EFFECT)
        },
    }
}

// What stands above the move of a number: the titles, or nothing.
fn band_of(number: usize) -> u64 {
    if number > 0 && number.is_multiple_of(STRIDE) {
        BAND
    } else {
        0
    }
}

// Where each move begins, and where the last one ends.
fn tops_of(alloc: Global, moves: &[ShownMove]) -> Result<Vec<u64>, AllocError> {
    let mut tops = Vec::new(alloc);
    let mut top = TOP;
    for (number, shown) in moves.iter().enumerate() {
        top = top.saturating_add(band_of(number));
        tops.push(top)?;
        top = top.saturating_add(height_of(shown));
    }
    tops.push(top)?;
    Ok(tops)
}

// Where the move of a number begins.
fn top_at(tops: &[u64], number: usize) -> u64 {
    tops.get(number).copied().unwrap_or(TOP)
}

// Where the effects of the move of a number end.
fn bottom_of(tops: &[u64], number: usize) -> u64 {
    let next = number.saturating_add(1);
    top_at(tops, next).saturating_sub(band_of(next).saturating_add(8))
}

// Where the last move ends, as a number of a move.
fn end_of(tops: &[u64]) -> usize {
    tops.len().saturating_sub(1)
}

// Adds a title of the column of an instance, or of the outside for 0.
fn append_title(
    out: &mut String,
    instance: u32,
    module: &str,
    at: (u64, u64),
) -> Result<(), AllocError> {
    let (x, y) = at;
    if instance == 0 {
        return append_text(out, "title", x, y, module);
    }
    write!(out, "<text class=\"title\" x=\"{x}\" y=\"{y}\">{instance} ")?;
    append_escaped(out, module)?;
    out.push_str("</text>\n")
}

// Adds a title of a column in each band between two moves.
fn append_titles(
    out: &mut String,
    instance: u32,
    module: &str,
    places: &Places,
    begin: usize,
    end: usize,
) -> Result<(), AllocError> {
    let x = places.columns.x_of(instance);
    for band in begin / STRIDE..end.saturating_sub(1) / STRIDE {
        let number = band.saturating_add(1).saturating_mul(STRIDE);
        let y = top_at(&places.tops, number).saturating_sub(12);
        append_title(out, instance, module, (x, y))?;
    }
    Ok(())
}

// Adds the column of the outside.
fn append_outside(out: &mut String, places: &Places) -> Result<(), AllocError> {
    let end = end_of(&places.tops);
    let x = places.columns.x_of(0);
    append_line(out, "life", (x, 32), (x, top_at(&places.tops, end)))?;
    append_title(out, 0, "outside", (x, 24))?;
    append_titles(out, 0, "outside", places, 0, end)
}

// Adds the columns of the instances.
fn append_lives(out: &mut String, lives: &[Life], places: &Places) -> Result<(), AllocError> {
    for life in lives {
        append_life(out, life, places)?;
    }
    Ok(())
}

// Adds an instance to its column: a line from its beginning to its end, with its titles.
fn append_life(out: &mut String, life: &Life, places: &Places) -> Result<(), AllocError> {
    let tops = places.tops.as_slice();
    let x = places.columns.x_of(life.instance);
    let begin = top_at(tops, life.begin);
    let (end, bottom) = match life.end {
        None => (end_of(tops), top_at(tops, end_of(tops))),
        Some(end) => (end, bottom_of(tops, end)),
    };
    let (title, line) = if life.begin == 0 {
        (24, 32)
    } else {
        (begin.saturating_add(14), begin.saturating_add(20))
    };
    append_line(out, "life", (x, line), (x, bottom))?;
    append_title(out, life.instance, &life.module, (x, title))?;
    append_titles(out, life.instance, &life.module, places, life.begin, end)
}

// Adds the moves.
fn append_moves(out: &mut String, moves: &[ShownMove], places: &Places) -> Result<(), AllocError> {
    for (number, shown) in moves.iter().enumerate() {
        let top = top_at(&places.tops, number);
        append_move(out, number, shown, top, &places.columns)?;
    }
    Ok(())
}

// Adds the move of a number.
fn append_move(
    out: &mut String,
    number: usize,
    shown: &ShownMove,
    top: u64,
    columns: &Columns,
) -> Result<(), AllocError> {
    let y = top.saturating_add(14);
    write!(
        out,
        "<text class=\"number\" x=\"{NUMBERS}\" y=\"{y}\">{number}</text>\n"
    )?;
    let effects = top.saturating_add(MOVE - 8);
    match shown.kind {
        MoveKind::Start => {
            append_text(out, "event", EVENTS, y, "start")?;
            append_effects(out, None, &shown.effects, effects, columns)
        }
        MoveKind::Arrival => {
            append_text(out, "event", EVENTS, y, &shown.taken)?;
            append_effects(out, Some(0), &shown.effects, effects, columns)
        }
        MoveKind::Time => append_time(out, shown, y, columns.width()),
        MoveKind::Firing => {
            append_firing(out, shown, columns.x_of(shown.instance), top)?;
            append_effects(out, Some(shown.instance), &shown.effects, effects, columns)
        }
    }
}

// Adds time that passes, as a line to the right side.
fn append_time(out: &mut String, shown: &ShownMove, y: u64, width: u64) -> Result<(), AllocError> {
    let clock = shown.clock;
    let line = y.saturating_sub(4);
    let begin = (shown.taken.len() as u64)
        .saturating_add(26)
        .saturating_mul(6);
    append_line(out, "time", (begin, line), (width.saturating_sub(8), line))?;
    write!(out, "<text class=\"event\" x=\"{EVENTS}\" y=\"{y}\">")?;
    append_escaped(out, &shown.taken)?;
    write!(out, ", the clock is {clock}</text>\n")
}

// How wide the box of a name is.
fn box_width(name: &str) -> u64 {
    (name.len() as u64)
        .saturating_mul(7)
        .saturating_add(24)
        .max(120)
}

// Adds the box of a firing in a column, with the next state to the right of it.
fn append_firing(out: &mut String, shown: &ShownMove, x: u64, top: u64) -> Result<(), AllocError> {
    let width = box_width(&shown.transition);
    append_box(out, shown.line, (x.saturating_sub(width / 2), top), width)?;
    let y = top.saturating_add(14);
    append_text(out, "name", x, y, &shown.transition)?;
    let right = x.saturating_add(width / 2).saturating_add(6);
    append_text(out, "state", right, y, &shown.after)
}

// Adds the effects of a move of an instance, or of the outside, one below the other but for those
// that stand beside one another.
fn append_effects(
    out: &mut String,
    instance: Option<u32>,
    effects: &[Effect],
    top: u64,
    columns: &Columns,
) -> Result<(), AllocError> {
    let from = instance.map(|instance| columns.x_of(instance));
    let mut y = top;
    for (at, effect) in effects.iter().enumerate() {
        if !is_beside(effects, at) {
            y = y.saturating_add(EFFECT);
        }
        append_effect(out, from, effect, columns.x_of(effect.instance), y)?;
    }
    Ok(())
}

// What is said of an effect.
fn said_of(effect: &Effect) -> &str {
    match effect.kind {
        EffectKind::Leaves => &effect.text,
        EffectKind::Waits => &effect.text,
        EffectKind::Begins => "init",
        EffectKind::Ends => "release",
    }
}

// Adds an effect: an arrow to the column of the instance or to the outside, or a word there where it
// comes from no column.
fn append_effect(
    out: &mut String,
    from: Option<u64>,
    effect: &Effect,
    to: u64,
    y: u64,
) -> Result<(), AllocError> {
    let said = said_of(effect);
    match from {
        None => append_text(out, "state", to.saturating_add(6), y, said),
        Some(from) if is_life(effect.kind) && from != to => append_fate(out, from, to, y, said),
        Some(from) => append_arrow(out, from, to, y, said),
    }
}

// Adds an arrow to an instance that begins or ends, with the word for it at its head, since several
// such arrows may lie on one another.
fn append_fate(out: &mut String, from: u64, to: u64, y: u64, text: &str) -> Result<(), AllocError> {
    append_line(out, "arrow", (from, y), (to, y))?;
    let x = if from < to {
        to.saturating_sub(BESIDE)
    } else {
        to.saturating_add(BESIDE)
    };
    append_text(out, "middle", x, y.saturating_sub(6), text)
}

// Adds an arrow with its text above it, or one that comes back with its text beside it.
fn append_arrow(
    out: &mut String,
    from: u64,
    to: u64,
    y: u64,
    text: &str,
) -> Result<(), AllocError> {
    if from == to {
        append_loop(out, from, y)?;
        return append_text(out, "event", from.saturating_add(46), y, text);
    }
    append_line(out, "arrow", (from, y), (to, y))?;
    let middle = (from / 2).saturating_add(to / 2);
    let least = (text.len() as u64).saturating_mul(7) / 2;
    append_text(out, "middle", middle.max(least), y.saturating_sub(6), text)
}

// Adds what could have come, a line each.
fn append_wanted(out: &mut String, wanted: &[String], top: u64) -> Result<(), AllocError> {
    let mut y = top;
    for line in wanted {
        y = y.saturating_add(EFFECT);
        append_text(out, "wanted", EVENTS, y, line)?;
    }
    Ok(())
}

// Adds what comes after the moves, if it is known: the next event of the trace, which may be
// refused, and what could have come in its place.
fn append_ending(out: &mut String, ending: &Option<Ending>, top: u64) -> Result<(), AllocError> {
    let Some(ending) = ending else {
        return Ok(());
    };
    let y = top.saturating_add(14);
    let class = if ending.is_refused {
        "refused"
    } else {
        "event"
    };
    append_text(out, class, EVENTS, y, &ending.event)?;
    append_wanted(out, &ending.wanted, y)
}

//! Which instances begin and end.

use crate::source::{Source, ascii};
use advice_lines::sheet::{Effect, EffectKind, Life};
use est_meaning::mean_blocks::situation::Row;
use plain_frames::plain_systems::system::{Rows, System};
use std::alloc::{AllocError, Global};

// Adds an instance that begins in the move of a number.
fn begin(
    alloc: Global,
    source: &Source,
    number: usize,
    row: &Row,
    into: &mut Vec<Life>,
) -> Result<(), AllocError> {
    let module = ascii(alloc, source.name(row.body))?;
    into.push(Life {
        instance: row.number,
        module,
        begin: number,
        end: None,
    })?;
    Ok(())
}

// Adds that an instance begins or ends.
fn push_effect(
    alloc: Global,
    kind: EffectKind,
    life: &Life,
    effects: &mut Vec<Effect>,
) -> Result<(), AllocError> {
    let text = String::from_str(alloc, &life.module)?;
    effects.push(Effect {
        kind,
        instance: life.instance,
        text,
    })?;
    Ok(())
}

/// Adds the instances of a system from a number on, which begin in the move of a number.
pub(crate) fn push_begun(
    alloc: Global,
    source: &Source,
    number: usize,
    first: u32,
    system: &System,
    into: &mut Vec<Life>,
) -> Result<(), AllocError> {
    for row in system.rows.get().as_slice() {
        if first <= row.get().number {
            begin(alloc, source, number, row.get(), into)?;
        }
    }
    Ok(())
}

/// Adds as effects that instances begin.
pub(crate) fn push_births(
    alloc: Global,
    begun: &[Life],
    effects: &mut Vec<Effect>,
) -> Result<(), AllocError> {
    for life in begun {
        push_effect(alloc, EffectKind::Begins, life, effects)?;
    }
    Ok(())
}

// Notes that an instance ends in the move of a number, and adds it as an effect.
fn end(
    alloc: Global,
    number: usize,
    instance: u32,
    all: &mut Vec<Life>,
    effects: &mut Vec<Effect>,
) -> Result<(), AllocError> {
    let at = all.partition_point(|life| life.instance < instance);
    if at < all.len() {
        all[at].end = Some(number);
        push_effect(alloc, EffectKind::Ends, &all[at], effects)?;
    }
    Ok(())
}

// Whether the row at a place is that of this instance.
fn is_at(rows: &Rows, at: usize, instance: u32) -> bool {
    match rows.get(at) {
        None => false,
        Some(row) => row.get().number == instance,
    }
}

/// Notes which instances of a system do not live after the move of a number, and adds it as
/// effects. In both systems the instances stand in the order of their numbers.
pub(crate) fn push_ends(
    alloc: Global,
    number: usize,
    before: &System,
    after: &System,
    all: &mut Vec<Life>,
    effects: &mut Vec<Effect>,
) -> Result<(), AllocError> {
    let mut at: usize = 0;
    for row in before.rows.get().as_slice() {
        let instance = row.get().number;
        if is_at(after.rows.get(), at, instance) {
            at = at.saturating_add(1);
        } else {
            end(alloc, number, instance, all, effects)?;
        }
    }
    Ok(())
}

//! Conditions and delays that keep a transition from being offered.

use crate::parts::{Came, View, append_came, append_unvalued, evaluated, holds};
use advice_tokens::note::append_note;
use advice_tokens::place::spot_of;
use est_syntax::expression::Expr;
use est_syntax::transition::Most;
use plain_frames::plain_systems::system::{Stamp, System};
use plain_transitions::written::{Bounds, Provision, Written};
use std::alloc::{AllocError, Global};

// What a bound of a delay is called.
const BOUND: &str = "a bound of its delay";

// Adds why the condition of a transition does not hold, if that is so, and answers whether it is.
fn append_unmet(
    alloc: Global,
    view: &View,
    condition: &Expr,
    notes: &mut String,
) -> Result<bool, AllocError> {
    let came = evaluated(alloc, view, condition)?;
    if holds(came) {
        return Ok(false);
    }
    append_came(alloc, view, condition, "its condition", came, notes)?;
    Ok(true)
}

// Adds the first of these conditions that holds, of those before an `otherwise`, if there is one,
// and answers whether there is.
fn append_met(
    alloc: Global,
    view: &View,
    conditions: &[&Expr],
    notes: &mut String,
) -> Result<bool, AllocError> {
    for i in 0..conditions.len() {
        let condition = conditions[i];
        if holds(evaluated(alloc, view, condition)?) {
            append_note(
                alloc,
                notes,
                spot_of("specification", view.tokens, condition.place),
                "its 'provided otherwise' is false then: this earlier condition is true",
            )?;
            return Ok(true);
        }
    }
    Ok(false)
}

// Adds why what is provided does not hold, if that is so, and answers whether it is.
fn append_condition(
    alloc: Global,
    view: &View,
    condition: &Provision,
    notes: &mut String,
) -> Result<bool, AllocError> {
    match condition {
        Provision::Always => Ok(false),
        Provision::Provided(condition) => append_unmet(alloc, view, condition, notes),
        Provision::Otherwise(conditions) => {
            append_met(alloc, view, conditions.as_slice(), notes)
        }
    }
}

// Whether a stamp is that of a transition of an instance.
fn is_stamp(stamp: &Stamp, instance: u32, transition: u32) -> bool {
    stamp.instance == instance && stamp.transition == transition
}

// For how long a transition has been enabled.
fn age_of(system: &System, instance: u32, transition: u32) -> u64 {
    for stamp in system.stamps.get().as_slice() {
        if is_stamp(stamp, instance, transition) {
            return system.clock.saturating_sub(stamp.since);
        }
    }
    0
}

// Whether a bound is not above an age.
fn is_reached(bound: i32, age: u64) -> bool {
    bound < 0 || bound as u64 <= age
}

// Adds that a delay of so much is not over at an age, if that is so, and answers whether it is.
fn append_early(
    alloc: Global,
    view: &View,
    part: &Expr,
    bound: i32,
    age: u64,
    notes: &mut String,
) -> Result<bool, AllocError> {
    if is_reached(bound, age) {
        return Ok(false);
    }
    let text = format!(in alloc;
        "its delay of {bound} is not over: it has been enabled for {age}"
    )?;
    append_note(
        alloc,
        notes,
        spot_of("specification", view.tokens, part.place),
        &text,
    )?;
    Ok(true)
}

// Adds that the later bound of a delay has no value, if that is so, and answers whether it is.
fn append_most(
    alloc: Global,
    view: &View,
    most: &Most,
    notes: &mut String,
) -> Result<bool, AllocError> {
    match most {
        Most::Value(part) => {
            let came = evaluated(alloc, view, part.get())?;
            append_unvalued(alloc, view, part.get(), BOUND, came, notes)
        }
        _ => Ok(false),
    }
}

// Adds why a delay keeps a transition of this number from being offered, if that is so, and answers
// whether it is.
fn append_delay(
    alloc: Global,
    view: &View,
    number: u32,
    bounds: &Bounds,
    notes: &mut String,
) -> Result<bool, AllocError> {
    let least = evaluated(alloc, view, bounds.least)?;
    if append_unvalued(alloc, view, bounds.least, BOUND, least, notes)? {
        return Ok(true);
    }
    if append_most(alloc, view, bounds.most, notes)? {
        return Ok(true);
    }
    let Came::Ordinal(bound) = least else {
        return Ok(false);
    };
    let age = age_of(&view.working.system, view.site.instance, number);
    append_early(alloc, view, bounds.least, bound, age, notes)
}

/// Adds what first keeps a transition of this number from being offered whose `from` and `when`
/// hold, if something does, and answers whether that is so: its condition, or its delay.
pub(crate) fn append_guard(
    alloc: Global,
    view: &View,
    number: u32,
    transition: &Written,
    notes: &mut String,
) -> Result<bool, AllocError> {
    if append_condition(alloc, view, &transition.condition, notes)? {
        return Ok(true);
    }
    match transition.delay {
        None => Ok(false),
        Some(bounds) => append_delay(alloc, view, number, &bounds, notes),
    }
}

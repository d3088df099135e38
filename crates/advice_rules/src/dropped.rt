//! Names of an `any` that a later clause dropped.

use advice_lines::lines::{Mark, append_place, append_token, begin_line};
use advice_lines::near::name_at;
use est_lexer::tokens::Tokens;
use est_syntax::body::{Body, Part};
use est_syntax::name::Name;
use est_syntax::transition::{Clause, Group, Transition};
use rule_declares::context::{ClauseKind, Context, Given};
use rule_ports::clauses::give_clauses;
use rule_scope::outline::Outline;
use std::alloc::{AllocError, Global};
use std::slice;

// A name that is used at a place.
#[derive(Clone, Copy)]
struct Use<'n> {
    outline: &'n Outline,
    name: &'n Name,
    place: u32,
}

// A clause that declares a name, and the one that drops it, by their places.
#[derive(Clone, Copy)]
struct Dropped {
    clause: u32,
    by: u32,
}

// The first of these clauses that declares a name.
fn declaring(used: Use, context: &[Given]) -> Option<u32> {
    for given in context {
        let place = given.region.unwrap_or(0);
        if given.kind == ClauseKind::Any && used.outline.standing(place, used.name).is_some() {
            return Some(place);
        }
    }
    None
}

// What a clause drops that declares a name: an earlier one of its kind, or one after that.
fn dropped_by(used: Use, clause: &Clause, context: &[Given]) -> Option<Dropped> {
    let kind = ClauseKind::of(clause);
    let kept = context
        .iter()
        .take_while(|given| given.kind != kind)
        .count();
    let dropped = declaring(used, &context[kept.min(context.len())..])?;
    Some(Dropped {
        clause: dropped,
        by: clause.place(),
    })
}

// The same of the clauses of a transition, of which the last one is told.
fn dropped_in(
    used: Use,
    clauses: &[Clause],
    context: &mut Context,
) -> Result<Option<Dropped>, AllocError> {
    let mut last = None;
    for clause in clauses {
        if let Some(dropped) = dropped_by(used, clause, context.as_slice()) {
            last = Some(dropped);
        }
        give_clauses(slice::from_ref(clause), context)?;
    }
    Ok(last)
}

// Where a transition begins.
fn begin_of(transition: &Transition) -> u32 {
    match transition.clauses.get(0) {
        None => transition.block.place,
        Some(clause) => clause.place(),
    }
}

// The same of the transitions of a group, up to the one in which the name is used.
fn dropped_in_group(
    alloc: Global,
    used: Use,
    group: &Group,
) -> Result<Option<Dropped>, AllocError> {
    let mut context = Context::new(alloc);
    let mut last = None;
    for transition in group.transitions.as_slice() {
        if used.place < begin_of(transition) {
            return Ok(last);
        }
        if let Some(dropped) = dropped_in(used, transition.clauses.as_slice(), &mut context)? {
            last = Some(dropped);
        }
    }
    Ok(last)
}

// Whether a group begins at a place or before it.
fn begins_before(group: &Group, place: u32) -> bool {
    match group.transitions.get(0) {
        None => false,
        Some(transition) => begin_of(transition) <= place,
    }
}

// The last group of a body that begins where the name is used, or before.
fn group_of<'b>(body: &'b Body, place: u32) -> Option<&'b Group> {
    let mut last = None;
    for group in body.groups.as_slice() {
        if begins_before(group, place) {
            last = Some(group);
        }
    }
    last
}

// The same of a body alone.
fn dropped_in_own(alloc: Global, used: Use, body: &Body) -> Result<Option<Dropped>, AllocError> {
    match group_of(body, used.place) {
        None => Ok(None),
        Some(group) => dropped_in_group(alloc, used, group),
    }
}

// The same of a part, if it is a body in which the name is used.
#[cycle(bodies)]
fn dropped_in_part(alloc: Global, used: Use, part: &Part) -> Result<Option<Dropped>, AllocError> {
    match part {
        Part::Body(body) if used.outline.lies_in(used.place, body.name.place) => {
            match dropped_in_parts(alloc, used, body.parts.as_slice())? {
                Some(dropped) => Ok(Some(dropped)),
                None => dropped_in_own(alloc, used, body),
            }
        }
        _ => Ok(None),
    }
}

// The same of parts.
#[cycle(bodies)]
fn dropped_in_parts(
    alloc: Global,
    used: Use,
    parts: &[Part],
) -> Result<Option<Dropped>, AllocError> {
    for part in parts {
        if let Some(dropped) = dropped_in_part(alloc, used, part)? {
            return Ok(Some(dropped));
        }
    }
    Ok(None)
}

// Adds which clause drops the `any` that declares the name at a place.
fn append_by(
    tokens: &Tokens,
    dropped: Dropped,
    place: u32,
    notes: &mut String,
) -> Result<(), AllocError> {
    begin_line(tokens, Mark::Note, place, notes)?;
    append_token(tokens, place, notes)?;
    notes.push_str(" is declared by the any at ")?;
    append_place(tokens, dropped.clause, notes)?;
    notes.push_str(", and the ")?;
    append_token(tokens, dropped.by, notes)?;
    notes.push_str(" at ")?;
    append_place(tokens, dropped.by, notes)?;
    notes.push_str(
        " drops it: a clause takes the place of one of its kind, and drops all after that\n",
    )
}

/// Adds which clause drops the `any` that declares the unknown name at a place, if one does.
pub(crate) fn append_dropped(
    alloc: Global,
    tokens: &Tokens,
    outline: &Outline,
    parts: &[Part],
    place: u32,
    notes: &mut String,
) -> Result<(), AllocError> {
    let name = name_at(alloc, tokens, place)?;
    let used = Use {
        outline,
        name: &name,
        place,
    };
    let dropped = dropped_in_parts(alloc, used, parts)?;
    drop(name);
    match dropped {
        None => Ok(()),
        Some(dropped) => append_by(tokens, dropped, place, notes),
    }
}

//! Names that hide others where they are used.

use crate::unused::{is_use, mark, meant_by};
use crate::warning::{Hiding, Slip, Warning};
use advice_lines::lines::spelled;
use advice_lines::near::name_at;
use est_lexer::tokens::Tokens;
use est_syntax::name::Name;
use rule_scope::declaration::Sort;
use rule_scope::outline::Outline;
use std::alloc::{AllocError, Global};

// Whether something of a sort stands for a value.
fn is_operand(sort: Sort) -> bool {
    matches!(sort, Sort::Constant | Sort::Variable | Sort::Function)
}

// Whether what is declared at one place can stand where what is declared at another does: else a
// rule is broken where the wrong one is meant.
fn are_exchanged(outline: &Outline, meant: u32, hidden: u32) -> bool {
    match (outline.entry(meant), outline.entry(hidden)) {
        (Some(meant), Some(hidden)) => {
            let (meant, hidden) = (meant.declared.sort, hidden.declared.sort);
            meant == hidden || is_operand(meant) && is_operand(hidden)
        }
        _ => false,
    }
}

// Whether nested bodies see what is declared at a place, whatever it is made of.
fn is_seen_within(outline: &Outline, place: u32) -> bool {
    match outline.entry(place) {
        None => false,
        Some(entry) => matches!(entry.declared.sort, Sort::Constant | Sort::TypeName),
    }
}

// The innermost declaration of a name in these regions that is in force at a place, and not the one
// that is meant there.
fn other_in(
    outline: &Outline,
    regions: &[u32],
    name: &Name,
    meant: u32,
    place: u32,
) -> Option<u32> {
    for region in regions {
        if let Some(standing) = outline.standing(*region, name) {
            if standing.place != meant && standing.last < place {
                return Some(standing.place);
            }
        }
    }
    None
}

// The declaration that a name would mean at a place without the one that is meant there.
fn hidden_at(outline: &Outline, name: &Name, meant: u32, place: u32) -> Option<u32> {
    let extent = outline.extent(place)?;
    let own = other_in(outline, extent.own.get().as_slice(), name, meant, place);
    if own.is_some() {
        return own;
    }
    let around = extent.around.get().as_slice();
    let hidden = other_in(outline, around, name, meant, place)?;
    if is_seen_within(outline, hidden) {
        Some(hidden)
    } else {
        None
    }
}

// Whether the name at a place is looked up in the regions around it: after a period it is that of a
// field, a signal or what a module has.
fn is_looked_up(tokens: &Tokens, outline: &Outline, place: u32) -> bool {
    let before = spelled(tokens, place.saturating_sub(1));
    is_use(tokens, outline, place) && before != b".".as_slice()
}

// What is hidden by what the name at a place means, if something is.
fn hiding_at(
    alloc: Global,
    tokens: &Tokens,
    outline: &Outline,
    place: u32,
) -> Result<Option<Hiding>, AllocError> {
    let Some(meant) = meant_by(alloc, tokens, outline, place)? else {
        return Ok(None);
    };
    let name = name_at(alloc, tokens, place)?;
    Ok(match hidden_at(outline, &name, meant, place) {
        Some(hidden) if are_exchanged(outline, meant, hidden) => Some(Hiding { meant, hidden }),
        _ => None,
    })
}

// Adds that a declaration hides another one where it is used, once for each.
fn push_hiding(
    place: u32,
    hiding: Hiding,
    told: &mut Vec<bool>,
    found: &mut Vec<Warning>,
) -> Result<(), AllocError> {
    if told.get(hiding.meant as usize).copied().unwrap_or(false) {
        return Ok(());
    }
    mark(told, Some(hiding.meant));
    found.push(Warning {
        place,
        slip: Slip::Hides(hiding),
    })?;
    Ok(())
}

// Adds what is found at a place.
fn push_at(
    alloc: Global,
    tokens: &Tokens,
    outline: &Outline,
    place: u32,
    told: &mut Vec<bool>,
    found: &mut Vec<Warning>,
) -> Result<(), AllocError> {
    if !is_looked_up(tokens, outline, place) {
        return Ok(());
    }
    match hiding_at(alloc, tokens, outline, place)? {
        None => Ok(()),
        Some(hiding) => push_hiding(place, hiding, told, found),
    }
}

/// Adds the names that hide others, each where it is used first.
pub(crate) fn push_hidden(
    alloc: Global,
    tokens: &Tokens,
    outline: &Outline,
    found: &mut Vec<Warning>,
) -> Result<(), AllocError> {
    let mut told = vec![in alloc; false; tokens.count() as usize]?;
    for place in 0..tokens.count() {
        push_at(alloc, tokens, outline, place, &mut told, found)?;
    }
    Ok(())
}
